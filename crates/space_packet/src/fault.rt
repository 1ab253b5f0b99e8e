// Why octets do not form a packet, and why a packet has no octets.

ghost use Rattle.std.specs.Prelude.{◌≡◌};

use std::error::Error;
use std::fmt::{self, Display, Formatter, Write};

/// Why octets were refused as a packet (1 to 3), or why a packet was not written or octets were not
/// taken (4 to 6).
#[derive(Clone, Copy, Debug, PartialEq, Eq)]
pub enum PacketFault {
    /// There are fewer than the 6 octets of the header, or fewer octets than it declares.
    Truncated = 1,
    /// The version number is not 000 (CCSDS 133.0-B-2, 4.1.3.2).
    Version = 2,
    /// An idle packet with a secondary header (4.1.3.3.3).
    IdleWithSecondary = 3,
    /// The output is too short for the packet.
    Room = 4,
    /// A field is out of range, the payload has no octets or more than 65,536, or an idle packet
    /// has a secondary header.
    FieldRange = 5,
    /// Memory ran out for octets that were fed.
    Memory = 6,
}

impl PacketFault {
    ghost use Rattle.space_packet.specs.Faults.{fault_row};

    /// Returns the fault's number, from 1.
    pub fn number(self) -> u8
        ensures { result ≡ (fault_row self).0 }
    {
        self as u8
    }

    /// Returns the fault's name, as it is written here.
    pub fn name(self) -> &'static str
        ensures { result.now ≡ (fault_row self).1 }
    {
        match self {
            PacketFault::Truncated => "Truncated",
            PacketFault::Version => "Version",
            PacketFault::IdleWithSecondary => "IdleWithSecondary",
            PacketFault::Room => "Room",
            PacketFault::FieldRange => "FieldRange",
            PacketFault::Memory => "Memory",
        }
    }
}

impl Display for PacketFault {
    fn fmt<W: Write>(&self, f: &mut Formatter<W>) -> fmt::Result {
        write!(f, "{} {}", self.number(), self.name())
    }
}

impl Error for PacketFault {}
