// The events of a simulated link of a program in C.

ghost use Rattle.std.specs.Prelude.{◌≡◌};
ghost use Rattle.sedgechisel_nodes.specs.Links.{event_named, octet_in, IsStepCall};

use crate::answers::CLOSED;
use crate::handles::SimHandle;
use crate::sim::reply::KeptReply;
use c_words::directive_named;
use std::alloc::Global;
use tc_link::Event;

/// An event: its kind, 1 to 17, and the fields of that kind; the rest is ignored. For C it is `struct
/// sedge_event`.
#[repr(C)]
#[derive(Clone, Copy)]
pub struct KeptEvent<'a> {
    /// Of `sedge_event_kind`.
    pub kind: u8,
    /// The MAP.
    pub map: u8,
    /// Of `sedge_directive`.
    pub directive: u8,
    /// The directive's value, as for `sedge_ground_directive`; or the value of the CLCW with which the ground
    /// resumes, 0 to 255.
    pub value: u16,
    /// Where the octets begin.
    pub octets: &'a [u8],
}

// The event, numbered in the order of `Event`.
fn event_named<'a>(event: &KeptEvent<'a>) -> Option<Event<'a>>
    ensures { result ≡ event_named event.now }
{
    let octets = event.octets;
    match event.kind {
        1 => Some(Event::Submit(event.map, octets)),
        2 => Some(Event::Bypass(event.map, octets)),
        3 => Some(Event::Directive(directive_named(event.directive, event.value)?)),
        4 => Some(Event::Send),
        5 => Some(Event::UpDeliver),
        6 => Some(Event::UpLose),
        7 => Some(Event::UpDamage(octets)),
        8 => Some(Event::Report),
        9 => Some(Event::DownDeliver),
        10 => Some(Event::DownLose),
        11 => Some(Event::DownDamage(octets)),
        12 => Some(Event::Tick),
        13 => Some(Event::Take),
        14 => Some(Event::TakeBypass),
        15 => Some(Event::Telemetry(octets)),
        16 => Some(Event::DownClcw),
        17 => Some(Event::Resume(octet_in(event.value)?)),
        _ => None,
    }
}

// The value as an octet, if it is one.
fn octet_in(value: u16) -> Option<u8>
    ensures { result ≡ octet_in value }
{
    if value <= 255 {
        Some(value as u8)
    } else {
        None
    }
}

/// Lets an event happen. Returns 0 and writes the reply; a node's refusal is a reply too. Returns a number of
/// `sedge_sim_fault` if nothing happens; it is not `SEDGE_SIM_MEMORY` for a directive, a resumption, a loss,
/// damage, a CLCW by itself, a tick or a take. Returns `SEDGE_NODE_NONE` also for a number that is not a
/// kind, for a directive and a value for which `sedge_ground_directive` returns it, and for a resumption with
/// a value above 255. The octets of a frame that was sent, and of a packet that was taken, can be read until
/// the next event (`sedge_sim_octets`).
#[unsafe(no_mangle)]
#[must_use]
pub extern "C" fn sedge_sim_step(
    alloc: Global,
    sim: &mut SimHandle,
    event: &KeptEvent<'_>,
    reply: &mut KeptReply,
) -> u8
    ensures { IsStepCall (event_named event.now) sim.old.value sim.new.value result reply.old reply.new }
{
    let Some(event) = event_named(event) else {
        return CLOSED;
    };
    held!(alloc, sim, |link| link.step(alloc, event, reply))
}
