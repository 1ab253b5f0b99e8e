// Why octets are refused.

ghost use Rattle.std.specs.Prelude.{◌≡◌};

use std::error::Error;
use std::fmt::{self, Display, Formatter, Write};

/// Why octets were refused (1 and 2), why the board does not take a command or an order (3 to 10),
/// or why a packet was not written (11 and 12).
#[derive(Clone, Copy, Debug, PartialEq, Eq)]
pub enum LogFault {
    /// The octets are not exactly one packet of this layout, or their number is not that of the
    /// layout.
    Layout = 1,
    /// The check does not hold, or a field has a value that the layout does not allow.
    Check = 2,
    /// The board has started, and a copy of its record is being repaired.
    Starting = 3,
    /// The record is being written, a command is executed, or a restart is due.
    Busy = 4,
    /// The board has lost its record.
    Lost = 5,
    /// A command with this number was executed or passed over.
    Behind = 6,
    /// The command's number is above the next one.
    Ahead = 7,
    /// The order is for a different boot count.
    OtherBoot = 8,
    /// The order brings a record, but the board still has its own.
    NotLost = 9,
    /// The order brings a record for another loss.
    OtherMark = 10,
    /// A field is out of range, or the data are too long.
    FieldRange = 11,
    /// The output is too short for the packet.
    Room = 12,
}

impl LogFault {
    ghost use Rattle.command_log.specs.Faults.{fault_row};

    /// The fault's number, from 1.
    pub fn number(self) -> u8
        ensures { result ≡ (fault_row self).0 }
    {
        self as u8
    }

    /// Returns the fault's name, as it is written here.
    pub fn name(self) -> &'static str
        ensures { result.now ≡ (fault_row self).1 }
    {
        match self {
            LogFault::Layout => "Layout",
            LogFault::Check => "Check",
            LogFault::Starting => "Starting",
            LogFault::Busy => "Busy",
            LogFault::Lost => "Lost",
            LogFault::Behind => "Behind",
            LogFault::Ahead => "Ahead",
            LogFault::OtherBoot => "OtherBoot",
            LogFault::NotLost => "NotLost",
            LogFault::OtherMark => "OtherMark",
            LogFault::FieldRange => "FieldRange",
            LogFault::Room => "Room",
        }
    }
}

impl Display for LogFault {
    fn fmt<W: Write>(&self, f: &mut Formatter<W>) -> fmt::Result {
        write!(f, "{} {}", self.number(), self.name())
    }
}

impl Error for LogFault {}
