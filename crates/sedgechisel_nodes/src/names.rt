// The names of numbers, as the crates define them; "?" for any other number.

ghost use Rattle.std.specs.Prelude.{◌≡◌};
ghost use Rattle.c_words.specs.Words.{text_of};
ghost use Rattle.sedgechisel_nodes.specs.Numbers.{parameter_word, link_fault_word, sim_fault_word, ledger_fault_word};

use c_words::{Text, named};
use command_ledger::LedgerFault;
use nodes::{LinkFault, Parameter};
use tc_link::SimFault;

/// The name of a `sedge_parameter`: its field in `sedge_config`.
#[unsafe(no_mangle)]
pub extern "C" fn sedge_parameter_name(number: u8) -> Text
    ensures { result.text ≡ text_of (parameter_word number) }
{
    named!(number, Parameter:
        1 => Scid, 2 => Vcid, 3 => TmVcid, 4 => Width, 5 => Window, 6 => Limit, 7 => Timer,
        8 => Part, 9 => MaxPacket, 10 => Maps, 11 => ReadySlots, 12 => BypassSlots,
        13 => QueueSlots, 14 => FrameLength, 15 => Blocking)
}

/// The name of a `sedge_node_status` of 1 to 10, else "?".
#[unsafe(no_mangle)]
pub extern "C" fn sedge_link_fault_name(number: u8) -> Text
    ensures { result.text ≡ text_of (link_fault_word number) }
{
    named!(number, LinkFault:
        1 => NotOpen, 2 => ClosedMap, 3 => NotCommand, 4 => TooLong, 5 => QueueFull, 6 => Memory,
        10 => NotKnown)
}

/// Returns the name of a `sedge_sim_fault`; "?" for another number.
#[unsafe(no_mangle)]
pub extern "C" fn sedge_sim_fault_name(number: u8) -> Text
    ensures { result.text ≡ text_of (sim_fault_word number) }
{
    named!(number, SimFault: 6 => Memory, 7 => NothingInTransit, 8 => NotDetectable)
}

/// Returns the name of a `sedge_ledger_fault` of 1 to 9; "?" for another number.
#[unsafe(no_mangle)]
pub extern "C" fn sedge_ledger_fault_name(number: u8) -> Text
    ensures { result.text ≡ text_of (ledger_fault_word number) }
{
    named!(number, LedgerFault:
        1 => Layout, 2 => Check, 3 => FieldRange, 4 => TooLong, 5 => NoNumber, 6 => NotLost,
        7 => NoBoot, 8 => Owing, 9 => Memory)
}
