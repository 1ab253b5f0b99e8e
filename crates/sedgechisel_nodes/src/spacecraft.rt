// What the spacecraft of a program in C receives, and the packets that it is to send as telemetry.

ghost use Rattle.std.specs.Prelude.{◌≡◌, ◌≢◌, None, option_map, IfSome, Ok};
ghost use Rattle.tc_frame.specs.declared.frame.Check.TheVariants.{On};
ghost use Rattle.tc_frame.specs.Decoding.{frame_at};
ghost use Rattle.nodes.specs.Spacecraft.{Receive, Telemetry, spacecraft_step, HandsNothingOn};
ghost use Rattle.tm_link.specs.Builder.{queue_fault};
ghost use Rattle.tm_link.specs.Faults.{fault_row};
ghost use Rattle.cop1.specs.Names.{verdict_row};
ghost use Rattle.sedgechisel_nodes.specs.Spacecraft.{dropped_number, received_kept};
ghost use Rattle.sedgechisel_nodes.specs.Calls.{closed, IsStep};

use crate::answers::MEMORY;
use crate::handles::SpacecraftHandle;
use cop1::Verdict;
use map_service::Dropped;
use nodes::Received;
use std::alloc::Global;
use tc_frame::Command;

/// What became of octets. For C it is `struct sedge_received`.
#[repr(C)]
#[derive(Clone, Copy, Default)]
pub struct KeptReceived {
    /// AD: the number of packets added to those that wait to be taken.
    pub ready: usize,
    /// Of `sedge_received_kind`.
    pub kind: u8,
    /// INVALID: why the octets do not form a valid frame, of `sedge_tc_fault`.
    pub fault: u8,
    /// AD: its number, N(S).
    pub n: u8,
    /// AD: of `sedge_verdict`.
    pub verdict: u8,
    /// AD: why octets on its MAP were dropped, of `sedge_dropped`; `SEDGE_NOT_DROPPED` for none.
    pub dropped: u8,
    /// BD: whether it carried a packet, which is kept.
    pub kept: bool,
    /// BC: of `sedge_command`.
    pub command: u8,
    /// BC: the number of Set V(R).
    pub vr: u8,
}

fn number_of_verdict(verdict: Verdict) -> u8
    ensures { result ≡ (verdict_row verdict).0 }
{
    verdict as u8
}

fn number_of_dropped(dropped: Option<Dropped>) -> u8
    ensures { result ≡ dropped_number dropped }
{
    match dropped {
        None => 0,
        Some(dropped) => dropped as u8 + 1,
    }
}

pub(crate) fn kept_received(received: Received) -> KeptReceived
    ensures { result ≡ received_kept received }
{
    let none = KeptReceived::default();
    match received {
        Received::Invalid(fault) => KeptReceived {
            kind: 1,
            fault: fault.number(),
            ..none
        },
        Received::Foreign => KeptReceived { kind: 2, ..none },
        Received::Sequence {
            n,
            verdict,
            ready,
            dropped,
        } => KeptReceived {
            kind: 3,
            n,
            verdict: number_of_verdict(verdict),
            ready,
            dropped: number_of_dropped(dropped),
            ..none
        },
        Received::Bypass { kept } => KeptReceived {
            kind: 4,
            kept,
            ..none
        },
        Received::Control(Command::Unlock) => KeptReceived { kind: 5, ..none },
        Received::Control(Command::SetVr(vr)) => KeptReceived {
            kind: 5,
            command: 1,
            vr,
            ..none
        },
    }
}

/// Takes octets that came from the ground, and writes what they are. Returns 0, or `SEDGE_NODE_MEMORY`, which
/// is possible only if a frame's data are passed on.
#[unsafe(no_mangle)]
#[must_use]
pub extern "C" fn sedge_spacecraft_receive(
    alloc: Global,
    spacecraft: &mut SpacecraftHandle,
    octets: &[u8],
    received: &mut KeptReceived,
) -> u8
    ensures { IsStep (λ s. HandsNothingOn s (frame_at On octets.now))
        (λ s. (spacecraft_step s (Receive octets.now)).after)
        (λ s. received_kept (spacecraft_step s (Receive octets.now)).answer)
        spacecraft.old.value spacecraft.new.value result received.old received.new }
{
    held!(alloc, spacecraft, |node| match node.receive(octets) {
        Ok(outcome) => {
            *received = kept_received(outcome);
            0
        }
        Err(_) => MEMORY,
    })
}

/// Queues a packet to be sent as telemetry (132.0-B-3, 4.2.2). Returns 0, or the first of
/// `SEDGE_TM_NOT_A_PACKET` (the octets are not exactly one packet, or are an idle one) and `SEDGE_TM_MEMORY`.
#[unsafe(no_mangle)]
#[must_use]
pub extern "C" fn sedge_spacecraft_telemetry(
    alloc: Global,
    spacecraft: &mut SpacecraftHandle,
    packet: &[u8],
) -> u8
    ensures none { spacecraft.old.value ≡ None → result ≡ closed }
    ensures taken { result ≡ 0 → IfSome spacecraft.old.value
        (λ s. (spacecraft_step s (Telemetry packet.now)).answer ≡ Ok tt) }
    ensures fault { result ≢ 0 → IfSome spacecraft.old.value
        (λ s. result ≡ (fault_row (queue_fault packet.now)).0) }
    ensures after { result ≡ 0 → spacecraft.new.value
        ≡ option_map (λ s. (spacecraft_step s (Telemetry packet.now)).after) spacecraft.old.value }
    ensures unchanged { result ≢ 0 → spacecraft.new.value ≡ spacecraft.old.value }
{
    held!(alloc, spacecraft, |node| match node.telemetry(packet) {
        Ok(()) => 0,
        Err(fault) => fault.number(),
    })
}
