// Why octets do not form a frame, and why a frame has no octets.

ghost use Rattle.std.specs.Prelude.{◌≡◌};

use std::error::Error;
use std::fmt::{self, Display, Formatter, Write};

/// Why octets were refused as a frame (1 to 9), or why a frame was not written or octets were not
/// taken (10 to 12).
#[derive(Clone, Copy, Debug, PartialEq, Eq)]
pub enum TcFault {
    /// Fewer than the 5 octets of the header.
    Short = 1,
    /// The version number is not 00 (CCSDS 232.0-B-4, 4.1.2.2).
    Version = 2,
    /// The control command flag is set without the bypass flag. This type is reserved (4.1.2.3).
    ReservedType = 3,
    /// The spare bits are not 00 (4.1.2.4).
    Spare = 4,
    /// The declared total (4.1.2.7) is not the number of octets, or is too small for a frame.
    Length = 5,
    /// The last two octets are not the check of the octets before them (4.1.4).
    Check = 6,
    /// A frame with the bypass flag has a number other than 0 (4.1.2.8).
    BypassNumber = 7,
    /// The data field is empty, or contains only a segment header.
    EmptyData = 8,
    /// The data field of a control frame is not a valid command (4.1.3.3).
    Command = 9,
    /// The output is too short for the frame.
    Room = 10,
    /// A field is out of range, the data are empty, or there are more than 1,024 octets.
    FieldRange = 11,
    /// Memory ran out for octets that were fed.
    Memory = 12,
}

impl TcFault {
    ghost use Rattle.tc_frame.specs.Faults.{fault_row};

    /// Returns the fault's number, from 1.
    pub fn number(self) -> u8
        ensures { result ≡ (fault_row self).0 }
    {
        self as u8
    }

    /// Returns the fault's name, as it is written here.
    pub fn name(self) -> &'static str
        ensures { result.now ≡ (fault_row self).1 }
    {
        match self {
            TcFault::Short => "Short",
            TcFault::Version => "Version",
            TcFault::ReservedType => "ReservedType",
            TcFault::Spare => "Spare",
            TcFault::Length => "Length",
            TcFault::Check => "Check",
            TcFault::BypassNumber => "BypassNumber",
            TcFault::EmptyData => "EmptyData",
            TcFault::Command => "Command",
            TcFault::Room => "Room",
            TcFault::FieldRange => "FieldRange",
            TcFault::Memory => "Memory",
        }
    }
}

impl Display for TcFault {
    fn fmt<W: Write>(&self, f: &mut Formatter<W>) -> fmt::Result {
        write!(f, "{} {}", self.number(), self.name())
    }
}

impl Error for TcFault {}
