// What a program reads of its commander, and a fresh store.

ghost use Rattle.std.specs.Prelude.{◌≡◌, ◌≢◌, length, Some};
ghost use Rattle.command_ledger.specs.Ledger.{is_at_rest};
ghost use Rattle.sedgechisel_nodes.specs.Calls.{IsRead, IsHandedOut};
ghost use Rattle.sedgechisel_nodes.specs.Ground.{reading_of};
ghost use Rattle.sedgechisel_nodes.specs.Commanding.{commander_reading, fresh_of, IsFreshAnswer, IsFresh};

use crate::commanding::CommanderHandle;
use crate::readings::{GroundReading, reading};
use crate::room::hand_out;
use commander::Commander;
use std::alloc::Global;

/// A reading of a commander.
#[repr(C)]
#[derive(Clone, Copy)]
pub struct CommanderReading {
    /// The number up to which every command has its fate.
    pub below: u32,
    /// The highest number that was given, or that a command of another ground had on board.
    pub highest: u32,
    /// 1 if a fresh store would have less than half as many octets, and nothing is left to be stored or
    /// reported; otherwise 0.
    pub worth: u8,
}

fn commander_reading(node: &Commander) -> CommanderReading
    ensures { result ≡ commander_reading node.now }
{
    let ledger = node.ledger();
    CommanderReading {
        below: ledger.below(),
        highest: ledger.highest(),
        worth: u8::from(ledger.is_worth()),
    }
}

/// Reads the commander: which commands have no fate yet, and whether a fresh store is worth its writing. The
/// commander does not change. Returns 0.
#[unsafe(no_mangle)]
pub extern "C" fn sedge_commander_read(
    alloc: Global,
    commander: &mut CommanderHandle,
    read: &mut CommanderReading,
) -> u8
    ensures { IsRead (λ s. Some (commander_reading s))
        commander.old.value commander.new.value result read.old read.new }
{
    read!(alloc, commander, read, |node| commander_reading(&node))
}

/// Reads the commander's ground, as `sedge_ground_read` does. Returns 0.
#[unsafe(no_mangle)]
pub extern "C" fn sedge_commander_read_ground(
    alloc: Global,
    commander: &mut CommanderHandle,
    read: &mut GroundReading,
) -> u8
    ensures { IsRead (λ s. Some (reading_of s.ground_node))
        commander.old.value commander.new.value result read.old read.new }
{
    read!(alloc, commander, read, |node| reading(node.ground_node()))
}

fn freshened(node: &Commander, out: &mut [u8], count: &mut usize) -> u8
    ensures answer { IsFreshAnswer (is_at_rest node.now.ledger)
        (length (fresh_of node.now)) (length out.old) result }
    ensures octets { result ≡ 0
        → IsHandedOut (Some (fresh_of node.now)) count.new out.old out.new }
    ensures unwritten { result ≢ 0 → (count.new ≡ count.old) × (out.new ≡ out.old) }
{
    match node.ledger().fresh() {
        Ok(octets) => hand_out(Some(&octets), out, count),
        Err(fault) => fault.number(),
    }
}

/// Writes the octets of a fresh store of the same commands, and their number; the commander does not change.
/// Write them to a new file, replace the store with it, and call `sedge_commander_renewed`; append nothing to
/// the store meanwhile. If `worth` of `sedge_commander_read` is 1, half the length of the present store is
/// room enough. Returns 0, or the first
/// that applies of `SEDGE_LEDGER_OWING` (something must be stored or reported first), `SEDGE_LEDGER_MEMORY`
/// and `SEDGE_LEDGER_ROOM`.
#[unsafe(no_mangle)]
#[must_use]
pub extern "C" fn sedge_commander_fresh(
    alloc: Global,
    commander: &mut CommanderHandle,
    out: &mut [u8],
    count: &mut usize,
) -> u8
    ensures fresh { IsFresh commander.old.value result count.old count.new out.old out.new }
    ensures unchanged { commander.new.value ≡ commander.old.value }
{
    held!(alloc, commander, |node| freshened(&node, out, count))
}
