// Why a CLCW was refused.

ghost use Rattle.std.specs.Prelude.{◌≡◌};

use std::error::Error;
use std::fmt::{self, Display, Formatter, Write};

/// Why octets were refused as a CLCW, or why a CLCW has no octets.
#[derive(Clone, Copy, Debug, PartialEq, Eq)]
pub enum ClcwFault {
    /// The control word type is not 0.
    Kind = 1,
    /// The version number is not 00.
    Version = 2,
    /// The COP in effect is not 01, COP-1.
    Cop = 3,
    /// A spare bit is not 0.
    Spare = 4,
    /// A field is too large for its bits, or a flag bit has no name.
    Range = 5,
}

impl ClcwFault {
    ghost use Rattle.clcw.specs.Faults.{fault_row};

    /// Returns the fault's number, 1 to 5.
    pub fn number(self) -> u8
        ensures { result ≡ (fault_row self).0 }
    {
        self as u8
    }

    /// Returns the fault's name, as it is written here.
    pub fn name(self) -> &'static str
        ensures { result.now ≡ (fault_row self).1 }
    {
        match self {
            ClcwFault::Kind => "Kind",
            ClcwFault::Version => "Version",
            ClcwFault::Cop => "Cop",
            ClcwFault::Spare => "Spare",
            ClcwFault::Range => "Range",
        }
    }
}

impl Display for ClcwFault {
    fn fmt<W: Write>(&self, f: &mut Formatter<W>) -> fmt::Result {
        write!(f, "{} {}", self.number(), self.name())
    }
}

impl Error for ClcwFault {}
