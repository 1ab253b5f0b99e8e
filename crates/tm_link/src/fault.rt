// Why octets do not form a frame, and why a frame has no octets.

ghost use Rattle.std.specs.Prelude.{◌≡◌};

use std::error::Error;
use std::fmt::{self, Display, Formatter, Write};

/// Why octets were refused as a frame (1 to 6), or why a packet or a frame was not taken (7 to 10).
#[derive(Clone, Copy, Debug, PartialEq, Eq)]
pub enum TmFault {
    /// The octets are not as many as a frame of the channel has, or the frame's length is outside
    /// 16 to 2,048.
    Length = 1,
    /// The version number is not 00 (CCSDS 132.0-B-3, 4.1.2.2).
    Version = 2,
    /// The last two octets are not the check of those before them (4.1.6).
    Check = 3,
    /// The secondary header, synchronisation or packet order flag is 1, or the segment length
    /// identifier is not 11 (4.1.2.7).
    Status = 4,
    /// The first header pointer is at or after the data field's end (4.1.2.7.6).
    Pointer = 5,
    /// The frame declares no operational control field (4.1.2.4).
    NoOcf = 6,
    /// Out of memory.
    Memory = 7,
    /// The octets are not exactly one packet, or they are an idle packet.
    NotAPacket = 8,
    /// The output has too little room for the frame.
    Room = 9,
    /// A field is out of range, a pointer is not below the data's length, or the frame's length is
    /// outside 16 to 2,048.
    FieldRange = 10,
}

impl TmFault {
    ghost use Rattle.tm_link.specs.Faults.{fault_row};

    /// Returns the fault's number, from 1.
    pub fn number(self) -> u8
        ensures { result ≡ (fault_row self).0 }
    {
        self as u8
    }

    /// Returns the fault's name, as it is written here.
    pub fn name(self) -> &'static str
        ensures { result.now ≡ (fault_row self).1 }
    {
        match self {
            TmFault::Length => "Length",
            TmFault::Version => "Version",
            TmFault::Check => "Check",
            TmFault::Status => "Status",
            TmFault::Pointer => "Pointer",
            TmFault::NoOcf => "NoOcf",
            TmFault::Memory => "Memory",
            TmFault::NotAPacket => "NotAPacket",
            TmFault::Room => "Room",
            TmFault::FieldRange => "FieldRange",
        }
    }
}

impl Display for TmFault {
    fn fmt<W: Write>(&self, f: &mut Formatter<W>) -> fmt::Result {
        write!(f, "{} {}", self.number(), self.name())
    }
}

impl Error for TmFault {}
