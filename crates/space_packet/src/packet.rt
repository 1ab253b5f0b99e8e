// The space packet as a value.

ghost use Rattle.std.specs.Prelude.{◌≡◌};
ghost use Rattle.space_packet.specs.Layout.{is_idle_apid};

/// The packet type: reports from the spacecraft, or commands to it (CCSDS 133.0-B-2, 4.1.3.3.2).
#[derive(Clone, Copy, Debug, PartialEq, Eq)]
pub enum PacketKind {
    /// From the spacecraft: packet type 0.
    Telemetry,
    /// To the spacecraft: packet type 1.
    Telecommand,
}

/// A space packet of 7 to 65,542 octets (CCSDS 133.0-B-2, 4.1).
#[derive(Clone, Copy, Debug, PartialEq, Eq)]
pub struct Packet<'a> {
    /// The packet type.
    pub kind: PacketKind,
    /// Whether the payload begins with a secondary header, which is not interpreted here. An idle
    /// packet has none (4.1.3.3.3).
    pub secondary: bool,
    /// The application process identifier, below 2,048; idle packets have 2,047 (4.1.3.3.4).
    pub apid: u16,
    /// The sequence flags, below 4, which are not interpreted here: 0 continuation, 1 first, 2 last,
    /// 3 unsegmented (4.1.3.4.2).
    pub flags: u8,
    /// The sequence count or the packet's name, below 16,384 (4.1.3.4.3).
    pub count: u16,
    /// The packet data field, of 1 to 65,536 octets (4.1.4).
    pub payload: &'a [u8],
}

/// Returns whether packets of this application process are idle (CCSDS 133.0-B-2, 4.1.3.3.4).
pub fn is_idle_apid(apid: u16) -> bool
    ensures { result ≡ is_idle_apid apid }
{
    apid == 2047
}
