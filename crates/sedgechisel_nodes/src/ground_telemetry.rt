// The ground of a program in C: telemetry and CLCWs, the clock, and bypass packets.

ghost use Rattle.std.specs.Prelude.{◌≡◌, ◌≢◌, None, IfSome};
ghost use Rattle.tm_link.specs.Decoding.{frame_at};
ghost use Rattle.nodes.specs.Ground.{Bypass, Telemetry, ControlWord, ForgetTelemetry, Tick, ground_step};
ghost use Rattle.nodes.specs.Ground.{bypass_fault, FinishesNothing};
ghost use Rattle.sedgechisel_nodes.specs.Calls.{closed, IsRead, IsTold, IsStep};
ghost use Rattle.sedgechisel_nodes.specs.Ground.{stepped, IsAnswer, IsSubmission};
ghost use Rattle.sedgechisel_nodes.specs.Heard.{alert_number, gap_kept, report_kept, heard_kept, word_kept};
ghost use Rattle.sedgechisel_nodes.specs.Heard.{word_said, report_in};

use crate::answers::{ABSENT, MEMORY};
use crate::ground::number_of;
use crate::handles::GroundHandle;
use crate::room::write;
use clcw::Clcw;
use cop1::Alert;
use nodes::{Ground, Heard, HeardClcw, HeardReport};
use std::alloc::Global;
use tm_link::{Gap, decode};

/// What became of telemetry. For C it is `struct sedge_heard`.
#[repr(C)]
#[derive(Clone, Copy, Default)]
pub struct KeptHeard {
    /// FRAME: the number of packets added to those that wait to be taken.
    pub packets: usize,
    /// Of `sedge_heard_kind`.
    pub kind: u8,
    /// INVALID: why the octets do not form a valid frame, of `sedge_tm_fault`.
    pub fault: u8,
    /// FRAME: whether it is the first frame, 0 or 1.
    pub first: u8,
    /// FRAME: the number of frames that are missing before it.
    pub missing: u8,
    /// FRAME, CLCW: what becomes of the CLCW, of `sedge_heard_report`.
    pub report: u8,
    /// REFUSED: why it is not a valid CLCW, of `sedge_clcw_fault`.
    pub word_fault: u8,
    /// USED: of `sedge_alert`, `SEDGE_NO_ALERT` for none.
    pub alert: u8,
}

pub(crate) fn number_of_alert(alert: Option<Alert>) -> u8
    ensures { result ≡ alert_number alert }
{
    match alert {
        None => 0,
        Some(alert) => alert as u8 + 1,
    }
}

fn kept_gap(gap: Gap) -> (u8, u8)
    ensures { result ≡ gap_kept gap }
{
    match gap {
        Gap::First => (1, 0),
        Gap::Lost(count) => (0, count),
    }
}

fn kept_report(report: HeardReport) -> (u8, u8)
    ensures { result ≡ report_kept report }
{
    match report {
        HeardReport::Used => (0, 0),
        HeardReport::Refused(fault) => (1, fault.number()),
        HeardReport::OtherChannel => (2, 0),
    }
}

pub(crate) fn kept_heard(heard: Heard) -> KeptHeard
    ensures { result ≡ heard_kept heard }
{
    let none = KeptHeard::default();
    match heard {
        Heard::Invalid(fault) => KeptHeard {
            kind: 1,
            fault: fault.number(),
            ..none
        },
        Heard::Foreign => KeptHeard { kind: 2, ..none },
        Heard::Frame {
            gap,
            packets,
            report,
            alert,
        } => {
            let (first, missing) = kept_gap(gap);
            let (report, word_fault) = kept_report(report);
            KeptHeard {
                packets,
                kind: 3,
                first,
                missing,
                report,
                word_fault,
                alert: number_of_alert(alert),
                ..none
            }
        }
    }
}

/// Takes octets that came from the spacecraft, and writes what they are. Returns 0, or `SEDGE_NODE_MEMORY`,
/// which is possible only if they complete a packet.
#[unsafe(no_mangle)]
#[must_use]
pub extern "C" fn sedge_ground_telemetry(
    alloc: Global,
    ground: &mut GroundHandle,
    octets: &[u8],
    heard: &mut KeptHeard,
) -> u8
    ensures { IsStep (λ s. FinishesNothing s (frame_at s.config.frame_length octets.now))
        (λ s. (ground_step s (Telemetry octets.now)).after)
        (λ s. heard_kept (ground_step s (Telemetry octets.now)).answer)
        ground.old.value ground.new.value result heard.old heard.new }
{
    held!(alloc, ground, |node| match node.telemetry(octets) {
        Ok(outcome) => {
            *heard = kept_heard(outcome);
            0
        }
        Err(_) => MEMORY,
    })
}

// The CLCW that a telemetry frame of this length carries.
fn report_in(octets: &[u8], length: usize) -> Option<Clcw>
    ensures { result ≡ report_in (frame_at length octets.now) }
{
    let Ok(frame) = decode(octets, length) else {
        return None;
    };
    match frame.report() {
        Ok(word) => Some(word),
        Err(_) => None,
    }
}

// A CLCW that came by itself.
pub(crate) fn kept_word(word: HeardClcw) -> KeptHeard
    ensures { result ≡ word_kept word }
{
    let (report, word_fault) = kept_report(word.report);
    KeptHeard {
        kind: 4,
        report,
        word_fault,
        alert: number_of_alert(word.alert),
        ..KeptHeard::default()
    }
}

/// Takes a CLCW that came by itself, as a front end forwards it (232.0-B-4, 4.2), and writes what becomes of
/// it, as `sedge_ground_telemetry` does for a frame's CLCW. Telemetry is not touched. Until the next CLCW,
/// the front end may repeat the newest one since the initiation (docs/PROFILE.md, "An idle start"); it must
/// not forward an older one as if it were new. Returns 0, or `SEDGE_NODE_ABSENT` if the octets are not four.
#[unsafe(no_mangle)]
#[must_use]
pub extern "C" fn sedge_ground_clcw(
    alloc: Global,
    ground: &mut GroundHandle,
    octets: &[u8],
    heard: &mut KeptHeard,
) -> u8
    ensures { IsTold (word_said octets.now) (λ s. (ground_step s (ControlWord octets.now)).after)
        ground.old.value ground.new.value result heard.old heard.new }
{
    held!(alloc, ground, |node| match octets {
        [first, second, third, fourth] => {
            *heard = kept_word(node.clcw([*first, *second, *third, *fourth]));
            0
        }
        _ => ABSENT,
    })
}

/// Restarts the extraction of packets from telemetry, for example after a restart of the spacecraft, whose
/// frame counts then continue from other values. An unfinished packet is dropped, and the next frame counts
/// as the first (132.0-B-3, 4.3.2). Packets that wait to be taken stay. Returns 0.
#[unsafe(no_mangle)]
pub extern "C" fn sedge_ground_forget_telemetry(alloc: Global, ground: &mut GroundHandle) -> u8
    ensures none { ground.old.value ≡ None → result ≡ closed }
    ensures open { IfSome ground.old.value (λ s. result ≡ 0) }
    ensures after { ground.new.value ≡ stepped ground.old.value ForgetTelemetry }
{
    held!(alloc, ground, |node| {
        node.forget_telemetry();
        0
    })
}

/// Writes the CLCW that a telemetry frame of any spacecraft and virtual channel carries (232.0-B-4, 4.2); the
/// ground does not change. Returns 0, or `SEDGE_NODE_ABSENT` if the octets do not form a valid frame or the
/// frame carries no CLCW.
#[unsafe(no_mangle)]
#[must_use]
pub extern "C" fn sedge_ground_clcw_in(
    alloc: Global,
    ground: &mut GroundHandle,
    octets: &[u8],
    word: &mut Clcw,
) -> u8
    ensures { IsRead (λ s. report_in (frame_at s.config.frame_length octets.now))
        ground.old.value ground.new.value result word.old word.new }
{
    held!(
        alloc,
        ground,
        |node| write(report_in(octets, node.frame_length()), word)
    )
}

/// Counts a tick of the clock. Returns the alert, of `sedge_alert`, `SEDGE_NO_ALERT` for none.
#[unsafe(no_mangle)]
#[must_use]
pub extern "C" fn sedge_ground_tick(alloc: Global, ground: &mut GroundHandle) -> u8
    ensures none { ground.old.value ≡ None → result ≡ closed }
    ensures alert { IfSome ground.old.value (λ s. result ≡ alert_number (ground_step s Tick).answer) }
    ensures after { ground.new.value ≡ stepped ground.old.value Tick }
{
    held!(alloc, ground, |node| number_of_alert(node.tick()))
}

#[tactic(auto, using(crate::proofs::Answered::answered))]
fn bypassed(node: &mut Ground, map: u8, octets: &[u8]) -> u8
    ensures answer { IsAnswer (bypass_fault node.old map octets.now) result }
    ensures after { result ≡ 0 → node.new ≡ (ground_step node.old (Bypass map octets.now)).after }
    ensures unchanged { result ≢ 0 → node.new ≡ node.old }
{
    number_of(node.bypass(map, octets))
}

/// Submits one packet on a MAP by bypass (Type-BD). Returns 0, or the first of 2 to 5 of `sedge_node_status`
/// that applies, or `SEDGE_NODE_MEMORY`.
#[unsafe(no_mangle)]
#[must_use]
pub extern "C" fn sedge_ground_bypass(
    alloc: Global,
    ground: &mut GroundHandle,
    map: u8,
    octets: &[u8],
) -> u8
    ensures { IsSubmission (λ s. bypass_fault s map octets.now) (Bypass map octets.now)
        ground.old.value ground.new.value result }
{
    held!(alloc, ground, |node| bypassed(&mut node, map, octets))
}
