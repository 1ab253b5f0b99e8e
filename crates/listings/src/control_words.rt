// CLCWs as the records of a stream.

ghost use Rattle.std.specs.Prelude.{◌≡◌, ◌<◌, length};
ghost use Rattle.std.proofs.Common.{arith, rules};
ghost use Rattle.std.proofs.lemmas.Grind.{common_steps};
ghost use Rattle.clcw.specs.declared.word.Clcw.{Clcw as Word};
ghost use Rattle.clcw.specs.Layout.{IsClcw};
ghost use Rattle.listings.specs.Layouts.{word_extent, word_in};
ghost use Rattle.listings.specs.declared.control_words.WordFault.TheVariants as faults;

use clcw::{Clcw, ClcwFault, decode};
use octets::Wire;

/// Why octets of a stream are not a valid CLCW.
#[derive(Clone, Copy, Debug, PartialEq, Eq)]
pub enum WordFault {
    /// Four octets are refused as a CLCW, 1 to 4.
    Refused(ClcwFault),
    /// The stream ends within a CLCW.
    Short,
    /// Memory ran out.
    Memory,
}

impl WordFault {
    ghost use Rattle.listings.specs.ReportLines.{fault_row};

    /// Returns the fault's number, from 1.
    pub fn number(self) -> u8
        ensures { result ≡ (fault_row self).0 }
    {
        match self {
            WordFault::Refused(fault) => fault.number(),
            WordFault::Short => 6,
            WordFault::Memory => 7,
        }
    }

    /// Returns the fault's name, as it is written here.
    pub fn name(self) -> &'static str
        ensures { result.now ≡ (fault_row self).1 }
    {
        match self {
            WordFault::Refused(fault) => fault.name(),
            WordFault::Short => "Short",
            WordFault::Memory => "Memory",
        }
    }
}

/// CLCWs as records of a stream, four octets each (CCSDS 232.0-B-4, 4.2.1).
#[derive(Clone, Copy, Debug, PartialEq, Eq)]
pub struct ControlWords;

impl Wire for ControlWords {
    type Fault = WordFault;

    const HEAD: usize = 4;

    ghost HEAD = { 4 };

    ghost extent_of = { word_extent };

    ghost Value = { Word };

    ghost IsSpelling = { IsClcw };

    ghost truncated_fault = { faults.Short };

    ghost memory_fault = { faults.Memory };

    fn extent(_head: &[u8]) -> Result<usize, WordFault> {
        Ok(4)
    }

    fn truncated() -> WordFault {
        WordFault::Short
    }

    fn memory() -> WordFault {
        WordFault::Memory
    }

    ghost some_head = { Prim.omega arith };

    ghost extent_has_head = { Prim.search (rules, common_steps) };

    ghost one_spelling = { λ w xs ys p q. Prim.cc };

    ghost own_extent = { Prim.search (rules, common_steps) };
}

/// Returns the CLCW that a record spells.
/// Faults: `Refused`, `Short`.
#[tactic(auto, unfolding(clcw::specs::Decoding::clcw_at))]
pub fn word_in(octets: &[u8]) -> Result<Clcw, WordFault>
    ensures { result ≡ word_in octets.now }
{
    if octets.len() < 4 {
        return Err(WordFault::Short);
    }
    match decode([octets[0], octets[1], octets[2], octets[3]]) {
        Ok(word) => Ok(word),
        Err(fault) => Err(WordFault::Refused(fault)),
    }
}
