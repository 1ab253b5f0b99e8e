// The commands of a board over restarts: which one is executed next, in a struct that the caller keeps.

mod codecs;
mod fields;

ghost use Rattle.std.specs.Prelude.{◌≡◌, length};
ghost use Rattle.command_log.specs.Executor.{start};
ghost use Rattle.command_log.specs.Layout.{copy_at};
ghost use Rattle.sedgechisel.specs.Answers.{left_by, IsWritten};
ghost use Rattle.sedgechisel.specs.Receivers.{answer_of};
ghost use Rattle.sedgechisel.specs.CommandLogs.{log_of, log_action, action_number, number_of_action, octets_after, log_done, content_part, log_offered, log_obeyed, log_told, IsLogged, AreLogged};

use crate::numbers::{ABSENT, DAMAGED, WRONG_COUNT};
use crate::part::Part;
use command_log::{Action, Executor, Place, Record, decode_record, encode_record, encode_status};
use fields::{described, kept};

/// What a board keeps of its commands at two places of a memory that survives restarts. For C it is `struct
/// sedge_log_record`.
#[repr(C)]
#[derive(Clone, Copy)]
pub struct LogRecord {
    /// A bit for each of the 64 numbers up to last, the lowest bit for last: 1 if it is known that the
    /// command was executed completely.
    pub known: u64,
    /// How often the board has started.
    pub boot: u32,
    /// The number of the last command that was executed or passed over. Numbers begin at 1.
    pub last: u32,
    /// The running check of all commands that were taken since the record was new or was brought by an order.
    pub history: u32,
    /// Whether the next command is begun, 0 or 1.
    pub begun: u8,
}

/// The state of a board's commands: its record, the mark of its loss if the record is lost, and its stage,
/// from 1 for Lost to 8 for Ordered in the order of `command_log::Stage`. For C it is `struct sedge_log`.
#[repr(C)]
#[derive(Clone, Copy)]
pub struct KeptLog {
    /// The record as it is at both places, or as it is being written.
    pub kept: LogRecord,
    /// The mark of the loss if the record is lost, and 0 otherwise.
    pub mark: u32,
    /// The stage, 1 to 8.
    pub stage: u8,
}

/// Starts a board from the octets at the two places of the memory that survives restarts, 50 each. A place
/// with another number of octets, or with octets that are not a valid record, has no record. Pass a different
/// mark at each start, from a clock or at random: it is the mark of this loss if neither place has a record.
#[unsafe(no_mangle)]
pub extern "C" fn sedge_log_start(log: &mut KeptLog, first: &[u8], second: &[u8], mark: u32)
    ensures log { log.new ≡ log_of (start (copy_at first.now) (copy_at second.now) mark) }
    ensures describes { AreLogged log.new (start (copy_at first.now) (copy_at second.now) mark) }
{
    *log = kept(&Executor::start(copy_in(first), copy_in(second), mark));
}

fn copy_in(octets: &[u8]) -> Option<Record>
    ensures { result ≡ copy_at octets.now }
{
    match decode_record(octets) {
        Ok(kept) => Some(kept),
        Err(_) => None,
    }
}

/// Returns the program's next action, of `sedge_log_action`. The program completes this action and calls
/// `sedge_log_done` before it calls `sedge_log_next` again. For a write, `out` receives the 50 octets of the
/// place; otherwise it does not change. `number` receives the number of the command to be executed, or 0 for
/// any other action. Writes nothing and returns `SEDGE_WRONG_COUNT` if the buffer is not 50 octets long, or
/// else `SEDGE_DAMAGED` if the struct is damaged.
#[unsafe(no_mangle)]
#[must_use]
pub extern "C" fn sedge_log_next(log: &KeptLog, out: &mut [u8], number: &mut u32) -> u8
    ensures answer { result ≡ answer_of action_number (log_action log.now (length out.old)) }
    ensures octets { out.new ≡ octets_after (log_action log.now (length out.old)) out.old }
    ensures number { number.new ≡ left_by number_of_action (log_action log.now (length out.old)) number.old }
{
    if out.len() != 50 {
        return WRONG_COUNT;
    }
    let Ok(board) = described(log) else {
        return DAMAGED;
    };
    let action = board.next();
    *number = number_in(&action);
    let kind = kind_of(&action);
    if let Action::Write(_, record) = action {
        out.copy_from_slice(&encode_record(&record));
    }
    kind
}

fn kind_of(action: &Action) -> u8
    ensures { result ≡ action_number action.now }
{
    match action {
        Action::Nothing => 0,
        Action::Write(Place::First, _) => 1,
        Action::Write(Place::Second, _) => 2,
        Action::Execute(_) => 3,
        Action::Restart => 4,
    }
}

fn number_in(action: &Action) -> u32
    ensures { result ≡ number_of_action action.now }
{
    match action {
        Action::Execute(number) => *number,
        _ => 0,
    }
}

/// Records that the action that `sedge_log_next` returned, with its number, is complete. Returns 0; or it
/// changes nothing and returns `SEDGE_DAMAGED`, or else `SEDGE_ABSENT` if the action or its number is not
/// what `sedge_log_next` returns.
#[unsafe(no_mangle)]
#[must_use]
pub extern "C" fn sedge_log_done(log: &mut KeptLog, action: u8, number: u32) -> u8
    ensures { IsLogged (log_done log.old action number) log.old log.new result }
{
    let Ok(mut board) = described(log) else {
        return DAMAGED;
    };
    let next = board.next();
    if action != kind_of(&next) || number != number_in(&next) {
        return ABSENT;
    }
    board.done(next);
    *log = kept(&board);
    0
}

/// Takes the octets of a packet that arrived, if it is the next command, and writes where the mission's
/// octets are in them. Keep the mission's octets until the command has been executed, after `sedge_log_next`
/// has returned `SEDGE_LOG_EXECUTE` with its number. Returns 0, or else drops the packet, changes and writes
/// nothing, and returns `SEDGE_DAMAGED` or the first that applies of 1 to 7 of `sedge_log_fault`: 1 Layout,
/// then 2 Check, then 3 Starting, 4 Busy or 5 Lost, then 6 Behind or 7 Ahead.
#[unsafe(no_mangle)]
#[must_use]
pub extern "C" fn sedge_log_offer(log: &mut KeptLog, octets: &[u8], content: &mut Part) -> u8
    ensures log { IsLogged (log_offered log.old octets.now) log.old log.new result }
    ensures content { content.new
        ≡ left_by (λ _. content_part octets.now) (log_offered log.old octets.now) content.old }
{
    let Ok(mut board) = described(log) else {
        return DAMAGED;
    };
    if let Err(fault) = board.offer(octets) {
        return fault.number();
    }
    *log = kept(&board);
    *content = Part {
        from: 10,
        count: octets.len().saturating_sub(14),
    };
    0
}

/// Takes the octets of an order that arrived. An order to restart makes `SEDGE_LOG_RESTART` the next action.
/// A board that has lost its record continues with the one that the order brings, if the order has the mark
/// of this loss. Returns 0, or else drops the packet, changes nothing, and returns `SEDGE_DAMAGED` or the
/// first that applies of 1 to 5 and 8 to 10 of `sedge_log_fault`: 1 Layout, then 2 Check; then for a restart
/// 3 Starting, 4 Busy or 5 Lost, and then 8 OtherBoot; for a record 9 NotLost, and then 10 OtherMark.
#[unsafe(no_mangle)]
#[must_use]
pub extern "C" fn sedge_log_obey(log: &mut KeptLog, octets: &[u8]) -> u8
    ensures { IsLogged (log_obeyed log.old octets.now) log.old log.new result }
{
    let Ok(mut board) = described(log) else {
        return DAMAGED;
    };
    if let Err(fault) = board.obey(octets) {
        return fault.number();
    }
    *log = kept(&board);
    0
}

/// Writes the status for telemetry, 27 octets, with the number of commands that wait on board to be offered;
/// a number above 255 is written as 255. Returns 0, or the first of `SEDGE_WRONG_COUNT`, if the buffer is not
/// 27 octets long, and `SEDGE_DAMAGED`.
#[unsafe(no_mangle)]
#[must_use]
pub extern "C" fn sedge_log_status(log: &KeptLog, waiting: usize, out: &mut [u8]) -> u8
    ensures { IsWritten (λ octets. octets) (log_told log.now waiting (length out.old)) out.old out.new result }
{
    if out.len() != 27 {
        return WRONG_COUNT;
    }
    let Ok(board) = described(log) else {
        return DAMAGED;
    };
    out.copy_from_slice(&encode_status(&board.status(), waiting));
    0
}
