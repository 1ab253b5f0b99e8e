// Why a call of the receiver or the sender was refused.

ghost use Rattle.std.specs.Prelude.{◌≡◌};

use std::error::Error;
use std::fmt::{self, Display, Formatter, Write};

/// Why a call of `Farm`, `Sender` or `Fop` was refused.
#[derive(Clone, Copy, Debug, PartialEq, Eq)]
pub enum CopFault {
    /// The receiver's window width is not an even number from 2 to 254.
    Width = 1,
    /// The sender's window K is not from 1 to half the width.
    Window = 2,
    /// The transmission limit is not from 1 to 255.
    Limit = 3,
    /// The timer's value is not from 1 to 65,535 ticks.
    Timer = 4,
    /// Out of memory.
    Memory = 5,
    /// The sender is in its state Initial (S6).
    NotOpen = 6,
    /// The wait queue already holds its one unit.
    Busy = 7,
    /// The directive is not allowed in the sender's state.
    WrongState = 8,
    /// No receiver or sender has the kept fields.
    State = 9,
}

impl CopFault {
    ghost use Rattle.cop1.specs.Faults.{fault_row};

    /// Returns the fault's number, 1 to 9.
    pub fn number(self) -> u8
        ensures { result ≡ (fault_row self).0 }
    {
        self as u8
    }

    /// Returns the fault's name, as it is written here.
    pub fn name(self) -> &'static str
        ensures { result.now ≡ (fault_row self).1 }
    {
        match self {
            CopFault::Width => "Width",
            CopFault::Window => "Window",
            CopFault::Limit => "Limit",
            CopFault::Timer => "Timer",
            CopFault::Memory => "Memory",
            CopFault::NotOpen => "NotOpen",
            CopFault::Busy => "Busy",
            CopFault::WrongState => "WrongState",
            CopFault::State => "State",
        }
    }
}

impl Display for CopFault {
    fn fmt<W: Write>(&self, f: &mut Formatter<W>) -> fmt::Result {
        write!(f, "{} {}", self.number(), self.name())
    }
}

impl Error for CopFault {}
