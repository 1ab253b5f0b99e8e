// What the program of a commander does next, and what it has stored and reported.

ghost use Rattle.std.specs.Prelude.{◌≡◌, ◌≢◌, true, false, length, Some};
ghost use Rattle.command_ledger.specs.Ledger.{next_of, Says};
ghost use Rattle.commander.specs.Next.{unstored};
ghost use Rattle.commander.specs.Opened.{renewed};
ghost use Rattle.sedgechisel_nodes.specs.Calls.{next_answer, IsHanding};
ghost use Rattle.sedgechisel_nodes.specs.Commanding.{tell_kept, action_kept, tell_of, IsDone, IsStored};
ghost use Rattle.sedgechisel_nodes.specs.Commanding.{IsRoomAnswer, acted, action_of, frame_over, IsNextAction};
ghost use Rattle.sedgechisel_nodes.specs.Commanding.{told_if, IsReportAnswer, IsReported};

use crate::answers::{ABSENT, NO_MEMORY, ROOM};
use crate::commanding::CommanderHandle;
use crate::ground_telemetry::number_of_alert;
use crate::room::hand_out;
use command_ledger::{Next as Owed, Tell};
use commander::{Commander, Next};
use std::alloc::Global;

/// The next action of a commander's program.
#[repr(C)]
#[derive(Clone, Copy, Default)]
pub struct CommanderAction {
    /// EXECUTED, UNKNOWN: the tag of the command.
    pub tag: u64,
    /// RESTARTED: the new boot count. RECORD_LOST: the mark of the loss. FOREIGN: the first number.
    pub number: u32,
    /// FOREIGN: the last number.
    pub last: u32,
    /// STORE: the number of octets to be appended. SEND: the length of the frame in octets.
    pub count: usize,
    /// Of `sedge_commander_action_kind`.
    pub kind: u8,
    /// ALERT: of `sedge_alert`.
    pub alert: u8,
}

fn kept_tell(tell: Tell) -> CommanderAction
    ensures { result ≡ tell_kept tell }
{
    let none = CommanderAction::default();
    match tell {
        Tell::Executed(tag) => CommanderAction {
            tag,
            kind: 2,
            ..none
        },
        Tell::Unknown(tag) => CommanderAction {
            tag,
            kind: 3,
            ..none
        },
        Tell::Restarted(number) => CommanderAction {
            number,
            kind: 4,
            ..none
        },
        Tell::RecordLost(number) => CommanderAction {
            number,
            kind: 5,
            ..none
        },
        Tell::Foreign(number, last) => CommanderAction {
            number,
            last,
            kind: 6,
            ..none
        },
    }
}

fn kept_action(unstored: usize, next: Next) -> CommanderAction
    ensures { result ≡ action_kept unstored next }
{
    let none = CommanderAction::default();
    match next {
        Next::Nothing => none,
        Next::Store => CommanderAction {
            count: unstored,
            kind: 1,
            ..none
        },
        Next::Tell(tell) => kept_tell(tell),
        Next::Alert(alert) => CommanderAction {
            kind: 7,
            alert: number_of_alert(Some(alert)),
            ..none
        },
        Next::Telemetry => CommanderAction { kind: 8, ..none },
        Next::Send(count) => CommanderAction {
            count,
            kind: 9,
            ..none
        },
    }
}

fn tell_of(action: &CommanderAction) -> Option<Tell>
    ensures { result ≡ tell_of action.now }
{
    match action.kind {
        2 => Some(Tell::Executed(action.tag)),
        3 => Some(Tell::Unknown(action.tag)),
        4 => Some(Tell::Restarted(action.number)),
        5 => Some(Tell::RecordLost(action.number)),
        6 => Some(Tell::Foreign(action.number, action.last)),
        _ => None,
    }
}

#[tactic(auto, using(crate::proofs::Commanded::framed, crate::proofs::Commanded::unframed))]
fn acted(node: &mut Commander, action: &mut CommanderAction, out: &mut [u8]) -> u8
    ensures answer { IsRoomAnswer 1024 (length out.old) result }
    ensures after { result ≡ 0 → node.new ≡ acted node.old }
    ensures action { result ≡ 0 → action.new ≡ action_of node.old }
    ensures frame { result ≡ 0 → out.new ≡ frame_over node.old out.old }
    ensures unchanged { result ≢ 0
        → (node.new ≡ node.old) × (action.new ≡ action.old) × (out.new ≡ out.old) }
{
    let unstored = node.unstored().len();
    let Some(frame) = out.first_chunk_mut::<1024>() else {
        return ROOM;
    };
    match node.next(frame) {
        Ok(next) => {
            *action = kept_action(unstored, next);
            0
        }
        Err(_) => NO_MEMORY,
    }
}

/// Writes the program's next action. The program completes it before it calls this again. A frame is written
/// to the beginning of `out`, whose other octets stay. Returns 0, or the first that applies of
/// `SEDGE_LEDGER_ROOM` (the buffer is shorter than 1,024 octets) and `SEDGE_LEDGER_MEMORY`.
#[unsafe(no_mangle)]
#[must_use]
pub extern "C" fn sedge_commander_next(
    alloc: Global,
    commander: &mut CommanderHandle,
    action: &mut CommanderAction,
    out: &mut [u8],
) -> u8
    ensures { IsNextAction commander.old.value commander.new.value result
        action.old action.new out.old out.new }
{
    held!(alloc, commander, |node| acted(&mut node, action, out))
}

/// Writes the octets that must be appended to the store, and their number; 0 octets unless
/// `sedge_commander_next` writes STORE, with this number. Returns 0 or `SEDGE_LEDGER_ROOM`.
#[unsafe(no_mangle)]
#[must_use]
pub extern "C" fn sedge_commander_unstored(
    alloc: Global,
    commander: &mut CommanderHandle,
    out: &mut [u8],
    count: &mut usize,
) -> u8
    ensures octets { IsHanding next_answer (λ s. Some (unstored s))
        commander.old.value result count.old count.new out.old out.new }
    ensures unchanged { commander.new.value ≡ commander.old.value }
{
    held!(
        alloc,
        commander,
        |node| hand_out(Some(node.unstored()), out, count)
    )
}

/// Records that all octets of `sedge_commander_unstored` are in the store; `count` is their number. Call
/// nothing else of the commander between the two: a command or a status adds octets. Returns 0, or changes
/// nothing and returns `SEDGE_LEDGER_ABSENT` if this is not the number of octets that are due: if octets were
/// appended, open the commander from the store again.
#[unsafe(no_mangle)]
#[must_use]
pub extern "C" fn sedge_commander_stored(
    alloc: Global,
    commander: &mut CommanderHandle,
    count: usize,
) -> u8
    ensures { IsStored count commander.old.value commander.new.value result }
{
    held!(alloc, commander, |node| {
        let answer = if node.unstored().len() == count {
            0
        } else {
            ABSENT
        };
        node.stored(count);
        answer
    })
}

/// Records that the store now has this many octets, which begin with those of `sedge_commander_fresh`.
/// Returns 0.
#[unsafe(no_mangle)]
pub extern "C" fn sedge_commander_renewed(
    alloc: Global,
    commander: &mut CommanderHandle,
    count: usize,
) -> u8
    ensures { IsDone (λ s. renewed s count) commander.old.value commander.new.value result }
{
    held!(alloc, commander, |node| {
        node.renewed(count);
        0
    })
}

fn is_due(node: &Commander, tell: Tell) -> bool
    ensures yes { result ≡ true → next_of node.now.ledger ≡ Says tell }
    ensures no { result ≡ false → next_of node.now.ledger ≡ Says tell → ⊥ }
{
    match node.ledger().next() {
        Owed::Tell(first) => first == tell,
        _ => false,
    }
}

fn reported(node: &mut Commander, tell: Option<Tell>) -> u8
    ensures answer { IsReportAnswer node.old tell result }
    ensures after { result ≡ 0 → node.new ≡ told_if tell node.old }
    ensures unchanged { result ≢ 0 → node.new ≡ node.old }
{
    let Some(tell) = tell else {
        return ABSENT;
    };
    if !is_due(node, tell) {
        return ABSENT;
    }
    match node.told(tell) {
        Ok(()) => 0,
        Err(_) => NO_MEMORY,
    }
}

/// Records that this action of `sedge_commander_next`, EXECUTED, UNKNOWN, RESTARTED, RECORD_LOST or FOREIGN,
/// was reported to the user. After RESTARTED and RECORD_LOST the session ends. Returns 0, or the first that
/// applies of `SEDGE_LEDGER_ABSENT` (it is not the next action) and `SEDGE_LEDGER_MEMORY`.
#[unsafe(no_mangle)]
#[must_use]
#[tactic(auto, using(crate::proofs::Commanded::reported))]
pub extern "C" fn sedge_commander_told(
    alloc: Global,
    commander: &mut CommanderHandle,
    action: &CommanderAction,
) -> u8
    ensures { IsReported (tell_of action.now) commander.old.value commander.new.value result }
{
    held!(
        alloc,
        commander,
        |node| reported(&mut node, tell_of(action))
    )
}
