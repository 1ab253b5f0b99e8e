// Why octets are not cut, and why a segment is not taken.

ghost use Rattle.std.specs.Prelude.{◌≡◌};

use std::error::Error;
use std::fmt::{self, Display, Formatter, Write};

/// Why octets were not cut (1 to 3), or a segment was not taken (3).
#[derive(Clone, Copy, Debug, PartialEq, Eq)]
pub enum MapFault {
    /// The octets are not exactly one packet, or with blocking not one or more whole packets.
    NotAPacket = 1,
    /// A packet has more octets than `max_packet`.
    TooLong = 2,
    /// Memory ran out.
    Memory = 3,
}

impl MapFault {
    ghost use Rattle.map_service.specs.Faults.{fault_row};

    /// Returns the fault's number, from 1.
    pub fn number(self) -> u8
        ensures { result ≡ (fault_row self).0 }
    {
        self as u8
    }

    /// Returns the fault's name, as it is written here.
    pub fn name(self) -> &'static str
        ensures { result.now ≡ (fault_row self).1 }
    {
        match self {
            MapFault::NotAPacket => "NotAPacket",
            MapFault::TooLong => "TooLong",
            MapFault::Memory => "Memory",
        }
    }
}

impl Display for MapFault {
    fn fmt<W: Write>(&self, f: &mut Formatter<W>) -> fmt::Result {
        write!(f, "{} {}", self.number(), self.name())
    }
}

impl Error for MapFault {}
