// What the two ends of the segmentation service agree on.

ghost use Rattle.std.specs.Prelude.{◌≡◌, nat_lt};

/// What a sender cuts and an assembler accepts, for all MAPs of a channel.
#[derive(Clone, Copy, Debug, PartialEq, Eq)]
pub struct Limits {
    /// The maximum number of octets of data in a segment, at least 1.
    pub part: u32,
    /// The maximum number of octets in a packet.
    pub max_packet: u32,
    /// MAP m is open if bit m, with the value 2 to the power of m, is set.
    pub maps: u64,
    /// Whether a segment may contain several whole packets. A sender then joins packets that have
    /// at most `part` octets together, and an assembler delivers each of them.
    pub blocking: bool,
}

impl Limits {
    ghost use Rattle.map_service.specs.Assembly.{is_open};

    /// Returns whether the MAP is open; no MAP above 63 is.
    pub fn is_open(&self, map: u8) -> bool
        ensures { result ≡ is_open self.now map }
    {
        map < 64 && (self.maps >> map) & 1 == 1
    }

    /// Returns whether this many octets are more than a packet may have.
    pub fn is_too_long(&self, len: usize) -> bool
        ensures { result ≡ nat_lt self.now.max_packet len }
    {
        len > self.max_packet as usize
    }
}
