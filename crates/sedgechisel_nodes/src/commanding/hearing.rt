// What a commander receives from the board, and the clock.

ghost use Rattle.std.specs.Prelude.{◌≡◌, ◌≢◌, length, Some, None, IfSome, IfOk, OnOk, OnErr, option_map};
ghost use Rattle.command_log.specs.Status.{status_spelled};
ghost use Rattle.nodes.specs.Ground.{ground_step, Telemetry, ControlWord, Tick};
ghost use Rattle.commander.specs.Commander.{after_tick, after_hearing, after_word, status_taken};
ghost use Rattle.sedgechisel_nodes.specs.Calls.{IsRead, IsTold, count_of, IsHandedOut};
ghost use Rattle.sedgechisel_nodes.specs.Heard.{heard_kept, word_said};
ghost use Rattle.sedgechisel_nodes.specs.Commanding.{IsLedgerAnswer, IsCommanded, IsDone, status_refusal};
ghost use Rattle.sedgechisel_nodes.specs.Commanding.{IsRoomAnswer, packet_next, telemetry_taken, IsTelemetryTaken};

use crate::answers::{ABSENT, NO_MEMORY, ROOM};
use crate::commanding::CommanderHandle;
use crate::ground_telemetry::{KeptHeard, kept_heard, kept_word};
use crate::room::{copy, count_of};
use command_ledger::LedgerFault;
use commander::Commander;
use std::alloc::Global;

fn heard(node: &mut Commander, octets: &[u8], out: &mut KeptHeard) -> u8
    ensures answer { IsLedgerAnswer None result }
    ensures after { result ≡ 0 → node.new
        ≡ after_hearing node.old octets.now (ground_step node.old.ground_node (Telemetry octets.now)) }
    ensures heard { result ≡ 0
        → out.new ≡ heard_kept (ground_step node.old.ground_node (Telemetry octets.now)).answer }
    ensures unchanged { result ≢ 0 → (node.new ≡ node.old) × (out.new ≡ out.old) }
{
    match node.hears(octets) {
        Ok(outcome) => {
            *out = kept_heard(outcome);
            0
        }
        Err(_) => NO_MEMORY,
    }
}

/// Takes octets that came from the board, exactly one telemetry frame, and writes what they are, as
/// `sedge_ground_telemetry` does. `sedge_commander_take_telemetry` then takes its packets. Returns 0 or
/// `SEDGE_LEDGER_MEMORY`.
#[unsafe(no_mangle)]
#[must_use]
pub extern "C" fn sedge_commander_telemetry(
    alloc: Global,
    commander: &mut CommanderHandle,
    octets: &[u8],
    heard: &mut KeptHeard,
) -> u8
    ensures commanded { IsCommanded (λ s. None)
        (λ s. after_hearing s octets.now (ground_step s.ground_node (Telemetry octets.now)))
        commander.old.value commander.new.value result }
    ensures heard { result ≡ 0 → IfSome commander.old.value
        (λ s. heard.new ≡ heard_kept (ground_step s.ground_node (Telemetry octets.now)).answer) }
    ensures unwritten { result ≢ 0 → heard.new ≡ heard.old }
{
    held!(
        alloc,
        commander,
        |node| self::heard(&mut node, octets, heard)
    )
}

/// Takes a CLCW that came by itself, and writes what becomes of it, as `sedge_ground_clcw` does. Returns 0,
/// or `SEDGE_LEDGER_ABSENT` if the octets are not four.
#[unsafe(no_mangle)]
#[must_use]
pub extern "C" fn sedge_commander_clcw(
    alloc: Global,
    commander: &mut CommanderHandle,
    octets: &[u8],
    heard: &mut KeptHeard,
) -> u8
    ensures { IsTold (λ s. word_said octets.now s.ground_node)
        (λ s. after_word s octets.now (ground_step s.ground_node (ControlWord octets.now)))
        commander.old.value commander.new.value result heard.old heard.new }
{
    held!(alloc, commander, |node| match octets {
        [first, second, third, fourth] => {
            *heard = kept_word(node.clcw([*first, *second, *third, *fourth]));
            0
        }
        _ => ABSENT,
    })
}

fn status_heard(node: &mut Commander, octets: &[u8]) -> u8
    ensures answer { IsLedgerAnswer (status_refusal (status_spelled octets.now)) result }
    ensures after { result ≡ 0 → node.new ≡ status_taken node.old (status_spelled octets.now) }
    ensures unchanged { result ≢ 0 → node.new ≡ node.old }
{
    match node.status(octets) {
        Ok(()) => 0,
        Err(fault) => fault.number(),
    }
}

/// Takes the octets of a status that came without a packet. (`sedge_commander_take_telemetry` takes those in
/// telemetry by itself.) A status that contains nothing new changes nothing. Returns 0, or the first that
/// applies of `SEDGE_LEDGER_LAYOUT` (not 27 octets), `SEDGE_LEDGER_CHECK` and `SEDGE_LEDGER_MEMORY`.
#[unsafe(no_mangle)]
#[must_use]
pub extern "C" fn sedge_commander_status(
    alloc: Global,
    commander: &mut CommanderHandle,
    octets: &[u8],
) -> u8
    ensures { IsCommanded (λ s. status_refusal (status_spelled octets.now))
        (λ s. status_taken s (status_spelled octets.now))
        commander.old.value commander.new.value result }
{
    held!(alloc, commander, |node| status_heard(&mut node, octets))
}

/// Counts a tick of the clock. An alert is the next action of `sedge_commander_next`. Returns 0.
#[unsafe(no_mangle)]
pub extern "C" fn sedge_commander_tick(alloc: Global, commander: &mut CommanderHandle) -> u8
    ensures { IsDone (λ s. after_tick s (ground_step s.ground_node Tick))
        commander.old.value commander.new.value result }
{
    held!(alloc, commander, |node| {
        node.tick();
        0
    })
}

/// Writes the length in octets of the oldest telemetry packet, 7 to 65,542, or 0 if none waits. Returns 0.
#[unsafe(no_mangle)]
pub extern "C" fn sedge_commander_next_telemetry(
    alloc: Global,
    commander: &mut CommanderHandle,
    count: &mut usize,
) -> u8
    ensures { IsRead (λ s. Some (count_of (packet_next s)))
        commander.old.value commander.new.value result count.old count.new }
{
    read!(
        alloc,
        commander,
        count,
        |node| count_of(node.ground_node().peek_telemetry())
    )
}

// Takes the oldest packet, and a status in it.
#[tactic(auto, using(crate::proofs::Commanded::same_packet))]
fn packet_taken(node: &mut Commander) -> Result<Option<Vec<u8>>, LedgerFault>
    ensures packet { IfOk result (λ p. option_map (λ v. v.items) p ≡ packet_next node.old) }
    ensures after { OnOk result (node.new ≡ telemetry_taken node.old) }
    ensures unchanged { OnErr result (node.new ≡ node.old) }
{
    node.take_telemetry()
}

#[tactic(auto, using(crate::proofs::Commanded::handed, crate::proofs::Commanded::fits))]
fn telemetry_taken(node: &mut Commander, out: &mut [u8], count: &mut usize) -> u8
    ensures answer { IsRoomAnswer (count_of (packet_next node.old)) (length out.old) result }
    ensures after { result ≡ 0 → node.new ≡ telemetry_taken node.old }
    ensures packet { result ≡ 0 → IsHandedOut (packet_next node.old) count.new out.old out.new }
    ensures unchanged { result ≢ 0
        → (node.new ≡ node.old) × (count.new ≡ count.old) × (out.new ≡ out.old) }
{
    if out.len() < count_of(node.ground_node().peek_telemetry()) {
        return ROOM;
    }
    match packet_taken(node) {
        Ok(Some(packet)) => {
            copy(&packet, out);
            *count = packet.len();
            0
        }
        Ok(None) => {
            *count = 0;
            0
        }
        Err(_) => NO_MEMORY,
    }
}

/// Takes the oldest telemetry packet. Writes it and the number of its octets, or 0 octets if none waits. If
/// it has the APID of the board's status and 27 octets of data, the commander also takes it as a status.
/// Returns 0, or the first that applies of `SEDGE_LEDGER_ROOM` and `SEDGE_LEDGER_MEMORY`.
#[unsafe(no_mangle)]
#[must_use]
pub extern "C" fn sedge_commander_take_telemetry(
    alloc: Global,
    commander: &mut CommanderHandle,
    out: &mut [u8],
    count: &mut usize,
) -> u8
    ensures { IsTelemetryTaken commander.old.value commander.new.value result
        count.old count.new out.old out.new }
{
    held!(
        alloc,
        commander,
        |node| telemetry_taken(&mut node, out, count)
    )
}
