// The faults of a simulated link.

ghost use Rattle.std.specs.Prelude.{◌≡◌};

use std::error::Error;
use std::fmt::{self, Display, Formatter, Write};

/// Why a simulated link returned no reply. The link is then unchanged.
#[derive(Clone, Copy, Debug, PartialEq, Eq)]
pub enum SimFault {
    /// 6: the link is out of memory.
    Memory,
    /// 7: no frame is in transit in this direction.
    NothingInTransit,
    /// 8: the receiver's decoder would accept the octets of the damaged frame.
    NotDetectable,
    /// 9: this field of the configuration is out of range.
    Config(&'static str),
}

impl SimFault {
    ghost use Rattle.simulated_link.specs.Faults.{fault_row};

    /// Returns the fault's number, 6 to 9.
    pub fn number(self) -> u8
        ensures { result ≡ (fault_row self).0 }
    {
        match self {
            SimFault::Memory => 6,
            SimFault::NothingInTransit => 7,
            SimFault::NotDetectable => 8,
            SimFault::Config(_) => 9,
        }
    }

    /// Returns the fault's name, as spelled in this enumeration.
    pub fn name(self) -> &'static str
        ensures { result.now ≡ (fault_row self).1 }
    {
        match self {
            SimFault::Memory => "Memory",
            SimFault::NothingInTransit => "NothingInTransit",
            SimFault::NotDetectable => "NotDetectable",
            SimFault::Config(_) => "Config",
        }
    }
}

impl Display for SimFault {
    fn fmt<W: Write>(&self, f: &mut Formatter<W>) -> fmt::Result {
        write!(f, "{} {}", self.number(), self.name())?;
        match self {
            SimFault::Config(field) => write!(f, " {}", field),
            _ => Ok(()),
        }
    }
}

impl Error for SimFault {}
