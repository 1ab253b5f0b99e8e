// The refusals of the ledger.

ghost use Rattle.std.specs.Prelude.{◌≡◌};

use std::error::Error;
use std::fmt::{self, Display, Formatter, Write};

/// Why a call was refused. A refused call has changed nothing.
#[derive(Clone, Copy, Debug, PartialEq, Eq)]
pub enum LedgerFault {
    /// The number of octets is not that of a status.
    Layout = 1,
    /// The check of the status does not hold, or a field has a value that the layout does not allow.
    Check = 2,
    /// The MAP, the APID or the count is out of range, or the data are too long for a packet.
    FieldRange = 3,
    /// The packet would be longer than the configured maximum.
    TooLong = 4,
    /// All numbers have been given.
    NoNumber = 5,
    /// The board has not lost its record.
    NotLost = 6,
    /// No boot count is left for an order that brings a record.
    NoBoot = 7,
    /// Something must be stored or reported first.
    Owing = 8,
    /// Out of memory.
    Memory = 9,
}

impl LedgerFault {
    ghost use Rattle.command_ledger.specs.Faults.{fault_row};

    /// Returns the fault's number, from 1.
    pub fn number(self) -> u8
        ensures { result ≡ (fault_row self).0 }
    {
        self as u8
    }

    /// Returns the fault's name, as it is written here.
    pub fn name(self) -> &'static str
        ensures { result.now ≡ (fault_row self).1 }
    {
        match self {
            LedgerFault::Layout => "Layout",
            LedgerFault::Check => "Check",
            LedgerFault::FieldRange => "FieldRange",
            LedgerFault::TooLong => "TooLong",
            LedgerFault::NoNumber => "NoNumber",
            LedgerFault::NotLost => "NotLost",
            LedgerFault::NoBoot => "NoBoot",
            LedgerFault::Owing => "Owing",
            LedgerFault::Memory => "Memory",
        }
    }
}

impl Display for LedgerFault {
    fn fmt<W: Write>(&self, f: &mut Formatter<W>) -> fmt::Result {
        write!(f, "{} {}", self.number(), self.name())
    }
}

impl Error for LedgerFault {}
