// Why a node refused a call.

ghost use Rattle.std.specs.Prelude.{◌≡◌};

use std::error::Error;
use std::fmt::{self, Display, Formatter, Write};

/// Why a node of the link refused a call.
#[derive(Clone, Copy, Debug, PartialEq, Eq)]
pub enum LinkFault {
    /// The sender is in its state Initial (S6).
    NotOpen = 1,
    /// The MAP is not open.
    ClosedMap = 2,
    /// The octets are not command packets, or more of them than one call accepts.
    NotCommand = 3,
    /// A packet is longer than the call accepts.
    TooLong = 4,
    /// There are not enough free queue slots for the units.
    QueueFull = 5,
    /// The node is out of memory.
    Memory = 6,
    /// It is not known how far the session has progressed.
    NotKnown = 10,
}

impl LinkFault {
    ghost use Rattle.nodes.specs.Faults.{fault_row};

    /// Returns the fault's number. The simulated link uses 7 to 9.
    pub fn number(self) -> u8
        ensures { result ≡ (fault_row self).0 }
    {
        self as u8
    }

    /// Returns the fault's name, as spelled in this enumeration.
    pub fn name(self) -> &'static str
        ensures { result.now ≡ (fault_row self).1 }
    {
        match self {
            LinkFault::NotOpen => "NotOpen",
            LinkFault::ClosedMap => "ClosedMap",
            LinkFault::NotCommand => "NotCommand",
            LinkFault::TooLong => "TooLong",
            LinkFault::QueueFull => "QueueFull",
            LinkFault::Memory => "Memory",
            LinkFault::NotKnown => "NotKnown",
        }
    }
}

impl Display for LinkFault {
    fn fmt<W: Write>(&self, f: &mut Formatter<W>) -> fmt::Result {
        write!(f, "{} {}", self.number(), self.name())
    }
}

impl Error for LinkFault {}
