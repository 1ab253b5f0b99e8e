// The names of numbers, as the crates define them; "?" for any other number.

ghost use Rattle.std.specs.Prelude.{◌≡◌};
ghost use Rattle.c_words.specs.Words.{text_of, sentence_of};
ghost use Rattle.sedgechisel.specs.Names.{clcw_fault_word, cop_fault_word, verdict_word, alert_word, alert_at, broken_if, advice_if, tc_fault_word, packet_fault_word, tm_fault_word, map_fault_word, log_fault_word, dropped_word};

use c_words::{Advice, Text, advised, named};
use clcw::ClcwFault;
use command_log::LogFault;
use cop1::{Alert, CopFault, Verdict};
use map_service::{Dropped, MapFault};
use space_packet::PacketFault;
use tc_frame::TcFault;
use tm_link::TmFault;

/// The name of a `sedge_clcw_fault`.
#[unsafe(no_mangle)]
pub extern "C" fn sedge_clcw_fault_name(fault: u8) -> Text
    ensures { result.text ≡ text_of (clcw_fault_word fault) }
{
    named!(fault, ClcwFault: 1 => Kind, 2 => Version, 3 => Cop, 4 => Spare, 5 => Range)
}

/// The name of a `sedge_cop_fault`.
#[unsafe(no_mangle)]
pub extern "C" fn sedge_cop_fault_name(fault: u8) -> Text
    ensures { result.text ≡ text_of (cop_fault_word fault) }
{
    named!(fault, CopFault:
        1 => Width, 2 => Window, 3 => Limit, 4 => Timer, 5 => Memory, 6 => NotOpen, 7 => Busy,
        8 => WrongState, 9 => State)
}

/// The name of a `sedge_verdict`.
#[unsafe(no_mangle)]
pub extern "C" fn sedge_verdict_name(verdict: u8) -> Text
    ensures { result.text ≡ text_of (verdict_word verdict) }
{
    named!(verdict, Verdict:
        0 => Accepted, 1 => Ahead, 2 => NoBuffer, 3 => Behind, 4 => Outside, 5 => Discarded)
}

/// The name of a `sedge_alert`.
#[unsafe(no_mangle)]
pub extern "C" fn sedge_alert_name(alert: u8) -> Text
    ensures { result.text ≡ text_of (alert_word alert) }
{
    named!(alert, Alert:
        1 => Lockout, 2 => NnR, 3 => Clcw, 4 => Synch, 5 => Limit, 6 => Timer, 7 => Terminated)
}

fn alert_of(number: u8) -> Option<Alert>
    ensures { result ≡ alert_at number }
{
    match number {
        1 => Some(Alert::Lockout),
        2 => Some(Alert::NnR),
        3 => Some(Alert::Clcw),
        4 => Some(Alert::Synch),
        5 => Some(Alert::Limit),
        6 => Some(Alert::Timer),
        7 => Some(Alert::Terminated),
        _ => None,
    }
}

/// Returns whether a `sedge_alert` shows a broken condition of the link (README.md): true for
/// `SEDGE_ALERT_LOCKOUT`, `SEDGE_ALERT_NNR`, `SEDGE_ALERT_CLCW` and `SEDGE_ALERT_SYNCH`. If the session was
/// begun by check, Unlock or Set V(R) and confirmed by a CLCW, a condition was broken: for example, the board
/// restarted, the link reorders or repeats frames, or there is a second station. Otherwise the receiver's
/// earlier state may be the cause. Nothing is then known of what is on board: begin again, as after a reset.
/// Returns false for any other number. After other alerts, the next session can resume where this one ended.
#[unsafe(no_mangle)]
pub extern "C" fn sedge_alert_shows_broken_condition(alert: u8) -> bool
    ensures { result ≡ broken_if (alert_at alert) }
{
    match alert_of(alert) {
        Some(alert) => alert.shows_a_broken_condition(),
        None => false,
    }
}

/// Returns what to look for after a `sedge_alert`, and how to recover, in words for an operator; "?" for any
/// other number.
#[unsafe(no_mangle)]
pub extern "C" fn sedge_alert_advice(alert: u8) -> Advice
    ensures { result.text ≡ sentence_of (advice_if (alert_at alert)) }
{
    match alert_of(alert) {
        Some(alert) => advised(alert.advice()),
        None => advised("?"),
    }
}

/// The name of a `sedge_tc_fault`.
#[unsafe(no_mangle)]
pub extern "C" fn sedge_tc_fault_name(fault: u8) -> Text
    ensures { result.text ≡ text_of (tc_fault_word fault) }
{
    named!(fault, TcFault:
        1 => Short, 2 => Version, 3 => ReservedType, 4 => Spare, 5 => Length, 6 => Check,
        7 => BypassNumber, 8 => EmptyData, 9 => Command, 10 => Room, 11 => FieldRange, 12 => Memory)
}

/// The name of a `sedge_packet_fault`.
#[unsafe(no_mangle)]
pub extern "C" fn sedge_packet_fault_name(fault: u8) -> Text
    ensures { result.text ≡ text_of (packet_fault_word fault) }
{
    named!(fault, PacketFault:
        1 => Truncated, 2 => Version, 3 => IdleWithSecondary, 4 => Room, 5 => FieldRange,
        6 => Memory)
}

/// The name of a `sedge_tm_fault`.
#[unsafe(no_mangle)]
pub extern "C" fn sedge_tm_fault_name(fault: u8) -> Text
    ensures { result.text ≡ text_of (tm_fault_word fault) }
{
    named!(fault, TmFault:
        1 => Length, 2 => Version, 3 => Check, 4 => Status, 5 => Pointer, 6 => NoOcf, 7 => Memory,
        8 => NotAPacket, 9 => Room, 10 => FieldRange)
}

/// The name of a `sedge_map_fault`.
#[unsafe(no_mangle)]
pub extern "C" fn sedge_map_fault_name(fault: u8) -> Text
    ensures { result.text ≡ text_of (map_fault_word fault) }
{
    named!(fault, MapFault: 1 => NotAPacket, 2 => TooLong, 3 => Memory)
}

/// The name of a `sedge_log_fault`.
#[unsafe(no_mangle)]
pub extern "C" fn sedge_log_fault_name(fault: u8) -> Text
    ensures { result.text ≡ text_of (log_fault_word fault) }
{
    named!(fault, LogFault:
        1 => Layout, 2 => Check, 3 => Starting, 4 => Busy, 5 => Lost, 6 => Behind, 7 => Ahead,
        8 => OtherBoot, 9 => NotLost, 10 => OtherMark, 11 => FieldRange, 12 => Room)
}

/// The name of a `sedge_dropped`.
#[unsafe(no_mangle)]
pub extern "C" fn sedge_dropped_name(cause: u8) -> Text
    ensures { result.text ≡ text_of (dropped_word cause) }
{
    named!(cause, Dropped:
        1 => ClosedMap, 2 => Interrupted, 3 => NoBeginning, 4 => NotAPacket, 5 => TooLong)
}
