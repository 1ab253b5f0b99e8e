// Why octets on a MAP were dropped.

ghost use Rattle.std.specs.Prelude.{◌≡◌};

/// Why octets that arrived on a MAP were dropped.
#[derive(Clone, Copy, Debug, PartialEq, Eq)]
pub enum Dropped {
    /// The segment: its MAP is not open.
    ClosedMap,
    /// The open part: a segment flagged first or alone arrived before the part's last segment.
    Interrupted,
    /// The segment: it continues or ends a packet, and no part is open.
    NoBeginning,
    /// A joined part, or a segment flagged alone: it is not exactly one packet, or with blocking
    /// not one or more whole packets.
    NotAPacket,
    /// A joined part, or a segment flagged alone: it has more octets than a packet may have, or
    /// with blocking one of its packets has.
    TooLong,
}

impl Dropped {
    ghost use Rattle.map_service.specs.Causes.{cause_row};

    /// Returns the cause's name, as it is written here.
    pub fn name(self) -> &'static str
        ensures { result.now ≡ (cause_row self).1 }
    {
        match self {
            Dropped::ClosedMap => "ClosedMap",
            Dropped::Interrupted => "Interrupted",
            Dropped::NoBeginning => "NoBeginning",
            Dropped::NotAPacket => "NotAPacket",
            Dropped::TooLong => "TooLong",
        }
    }
}
