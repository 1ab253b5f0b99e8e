// The commands that a commander is given, their progress, and what an operator decides.

ghost use Rattle.std.specs.Prelude.{◌≡◌, ◌≢◌, ◌+◌, true, false, length, None, IfSome, option_map};
ghost use Rattle.command_ledger.specs.State.{highest};
ghost use Rattle.command_ledger.specs.Ledger.{given, rebuild_of};
ghost use Rattle.commander.specs.Commander.{command_fault};
ghost use Rattle.commander.specs.Fate.{fate_of};
ghost use Rattle.commander.specs.Moves.{rebuilt};
ghost use Rattle.commander.specs.Opened.{paused, restarting};
ghost use Rattle.sedgechisel_nodes.specs.Calls.{IsRead};
ghost use Rattle.sedgechisel_nodes.specs.Commanding.{IsLedgerAnswer, IsCommanded, IsDone, fate_number, fault_in, commanded};

use crate::commanding::CommanderHandle;
use crate::room::write;
use commander::{Commander, Fate};
use std::alloc::Global;

fn given(
    node: &mut Commander,
    tag: u64,
    map: u8,
    apid: u16,
    sequence: u16,
    content: &[u8],
    number: &mut u32,
) -> u8
    ensures answer { IsLedgerAnswer (command_fault node.old map apid sequence (length content.now)) result }
    ensures after { result ≡ 0 → node.new ≡ commanded node.old tag map apid sequence content.now }
    ensures number { result ≡ 0 → number.new ≡ highest node.old.ledger.state + 1 }
    ensures unchanged { result ≢ 0 → (node.new ≡ node.old) × (number.new ≡ number.old) }
{
    match node.command(tag, map, apid, sequence, content) {
        Ok(next) => {
            *number = next;
            0
        }
        Err(fault) => fault.number(),
    }
}

/// Gives the commander a command, after all others, and writes its number. The commander writes the command
/// packet; `apid` and `sequence` are its APID and its sequence count, and `content` the mission's octets.
/// `tag` is the caller's own: give each command another one, because reports carry only the tag. Returns 0,
/// or the first that applies of `SEDGE_LEDGER_FIELD_RANGE` (a MAP that is not open, an APID above 2,046, a
/// sequence count above 16,383, or more than 65,528 octets), `SEDGE_LEDGER_TOO_LONG`,
/// `SEDGE_LEDGER_NO_NUMBER` and `SEDGE_LEDGER_MEMORY`.
#[unsafe(no_mangle)]
#[must_use]
pub extern "C" fn sedge_commander_command(
    alloc: Global,
    commander: &mut CommanderHandle,
    tag: u64,
    map: u8,
    apid: u16,
    sequence: u16,
    content: &[u8],
    number: &mut u32,
) -> u8
    ensures commanded { IsCommanded (λ s. command_fault s map apid sequence (length content.now))
        (λ s. commanded s tag map apid sequence content.now)
        commander.old.value commander.new.value result }
    ensures number { result ≡ 0
        → IfSome commander.old.value (λ s. number.new ≡ highest s.ledger.state + 1) }
    ensures unwritten { result ≢ 0 → number.new ≡ number.old }
{
    held!(
        alloc,
        commander,
        |node| given(&mut node, tag, map, apid, sequence, content, number)
    )
}

fn rebuilt(node: &mut Commander) -> u8
    ensures answer { IsLedgerAnswer (fault_in (rebuild_of node.old.ledger)) result }
    ensures after { result ≡ 0 → node.new ≡ rebuilt node.old (rebuild_of node.old.ledger) }
    ensures unchanged { result ≢ 0 → node.new ≡ node.old }
{
    match node.rebuild() {
        Ok(()) => 0,
        Err(fault) => fault.number(),
    }
}

/// Makes the order that brings a record to a board that has lost its own; an operator decides this. Once a
/// status shows that the board obeyed it, each command that was stored by now and has no fate is UNKNOWN,
/// whether or not it was sent. Returns 0, or the first that applies of `SEDGE_LEDGER_NOT_LOST`,
/// `SEDGE_LEDGER_NO_BOOT` and `SEDGE_LEDGER_MEMORY`.
#[unsafe(no_mangle)]
#[must_use]
pub extern "C" fn sedge_commander_rebuild(alloc: Global, commander: &mut CommanderHandle) -> u8
    ensures { IsCommanded (λ s. fault_in (rebuild_of s.ledger)) (λ s. rebuilt s (rebuild_of s.ledger))
        commander.old.value commander.new.value result }
{
    held!(alloc, commander, |node| rebuilt(&mut node))
}

/// Has the order to restart sent to the board, until a restart of the board or the loss of its record is
/// reported. Returns 0.
#[unsafe(no_mangle)]
pub extern "C" fn sedge_commander_restart_board(
    alloc: Global,
    commander: &mut CommanderHandle,
) -> u8
    ensures { IsDone restarting commander.old.value commander.new.value result }
{
    held!(alloc, commander, |node| {
        node.restart_board();
        0
    })
}

/// Stops the submission of commands to the ground until `sedge_commander_go_on`. The ground still sends the
/// commands that were submitted. Returns 0.
#[unsafe(no_mangle)]
pub extern "C" fn sedge_commander_pause(alloc: Global, commander: &mut CommanderHandle) -> u8
    ensures { IsDone (λ s. paused s true) commander.old.value commander.new.value result }
{
    held!(alloc, commander, |node| {
        node.pause();
        0
    })
}

/// Resumes the submission of commands. Returns 0.
#[unsafe(no_mangle)]
pub extern "C" fn sedge_commander_go_on(alloc: Global, commander: &mut CommanderHandle) -> u8
    ensures { IsDone (λ s. paused s false) commander.old.value commander.new.value result }
{
    held!(alloc, commander, |node| {
        node.go_on();
        0
    })
}

fn number_of_fate(fate: Option<Fate>) -> Option<u8>
    ensures { result ≡ option_map fate_number fate }
{
    match fate {
        Some(Fate::Waits) => Some(0),
        Some(Fate::Sent) => Some(1),
        Some(Fate::OnBoard) => Some(2),
        None => None,
    }
}

/// Writes the progress of the command with this number, of `sedge_progress`, by COP-1 in the current session
/// or, if none is open, the last one. Only EXECUTED of `sedge_commander_next` states that it was executed.
/// Returns 0, or `SEDGE_LEDGER_ABSENT` if the command has a fate or was not given.
#[unsafe(no_mangle)]
#[must_use]
pub extern "C" fn sedge_commander_progress(
    alloc: Global,
    commander: &mut CommanderHandle,
    number: u32,
    progress: &mut u8,
) -> u8
    ensures { IsRead (λ s. option_map fate_number (fate_of s number))
        commander.old.value commander.new.value result progress.old progress.new }
{
    held!(
        alloc,
        commander,
        |node| write(number_of_fate(node.fate(number)), progress)
    )
}
