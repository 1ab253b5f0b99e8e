// Two links with the same events. If memory is refused to one of them, it has not changed, as the other
// shows, and the repeated call succeeds.

use super::step;
use crate::tests::common::{equal, says_refused};
use cop1::FopMode;
use std::alloc::Global;
use std::process::Abort;
use tc_link::{Config, Event, Reply, Sim, SimFault, run};

/// The state, and the numbers of packets submitted and delivered on MAP 4, of frames sent, accepted and
/// acknowledged, and of segments not acknowledged.
pub type Records = (FopMode, [usize; 6]);

pub fn records_of(sim: &Sim) -> Records {
    let numbers = [
        sim.submitted(4).len(),
        sim.delivered(4).len(),
        sim.sent().len(),
        sim.accepted().len(),
        sim.acknowledged(),
        sim.outstanding(),
    ];
    (sim.state(), numbers)
}

// Returns a new link. If memory is refused, the call is made again.
fn new_link(rt: &(impl Abort + Eprint), alloc: Global, config: Config) -> Sim {
    match Sim::new(alloc, config) {
        Err(fault) => {
            says_refused(rt, fault.number(), 6);
            Sim::new(alloc, config).expect(rt, "a link")
        }
        Ok(sim) => sim,
    }
}

// Returns a link after a whole run. If memory is refused, the run is repeated.
fn run_link(
    rt: &(impl Abort + Eprint),
    alloc: Global,
    config: Config,
    events: &[Event<'_>],
) -> Sim {
    match run(alloc, config, events) {
        Err(fault) => {
            says_refused(rt, fault.number(), 6);
            run(alloc, config, events).expect(rt, "a run")
        }
        Ok(ran) => ran,
    }
}

// Checks that all reading calls of two links return the same.
fn are_alike(rt: &impl Abort, one: &Sim, other: &Sim) {
    equal(rt, &records_of(one), &records_of(other));
    equal(
        rt,
        &(one.clean(), one.idle()),
        &(other.clean(), other.idle()),
    );
    equal(
        rt,
        &(one.begun(), one.confirmed()),
        &(other.begun(), other.confirmed()),
    );
    have_same_lists(rt, one, other);
}

fn have_same_lists(rt: &impl Abort, one: &Sim, other: &Sim) {
    assert!(rt; one.submissions() == other.submissions());
    for map in 0..65 {
        assert!(rt; one.submitted(map) == other.submitted(map));
        assert!(rt; one.delivered(map) == other.delivered(map));
    }
    assert!(rt; one.sent() == other.sent() && one.accepted() == other.accepted());
}

// Returns whether an event may request memory.
fn takes_memory(event: Event<'_>) -> bool {
    matches!(
        event,
        Event::Submit(..)
            | Event::Bypass(..)
            | Event::Send
            | Event::UpDeliver
            | Event::Report
            | Event::DownDeliver
            | Event::Telemetry(_)
    )
}

// Lets an event happen to a link. If memory is refused, this compares the link with the other, if that is
// given, and makes the call again. An event that takes no memory is answered at once.
fn bears(
    rt: &(impl Abort + Eprint),
    sim: &mut Sim,
    other: Option<&Sim>,
    event: Event<'_>,
) -> Result<Reply, SimFault> {
    match step(sim, event) {
        Err(SimFault::Memory) if takes_memory(event) => {
            says_refused(rt, SimFault::Memory.number(), 6);
            if let Some(other) = other {
                are_alike(rt, sim, other);
            }
            step(sim, event)
        }
        answer => answer,
    }
}

/// Checks that two new links and a whole run answer the events alike, and that these are the records
/// afterwards.
pub fn bear(
    rt: &(impl Abort + Eprint),
    alloc: Global,
    config: Config,
    events: &[Event<'_>],
    records: Records,
) {
    let mut one = new_link(rt, alloc, config);
    let mut other = new_link(rt, alloc, config);
    let ran = run_link(rt, alloc, config, events);
    bear_each(rt, &mut one, &mut other, &ran, events);
    equal(rt, &records_of(&one), &records);
}

fn bear_each(
    rt: &(impl Abort + Eprint),
    one: &mut Sim,
    other: &mut Sim,
    ran: &Sim,
    events: &[Event<'_>],
) {
    equal(rt, &ran.answers().len(), &events.len());
    for (event, recorded) in events.iter().zip(ran.answers()) {
        bear_one(rt, one, other, *event, recorded);
    }
    are_alike(rt, one, other);
    are_alike(rt, one, ran);
}

fn bear_one(
    rt: &(impl Abort + Eprint),
    one: &mut Sim,
    other: &mut Sim,
    event: Event<'_>,
    recorded: &Result<Reply, SimFault>,
) {
    let answer = bears(rt, one, Some(other), event);
    let second = bears(rt, other, None, event);
    are_answers(rt, &answer, &second, recorded);
}

type Answer = Result<Reply, SimFault>;

fn are_answers(rt: &impl Abort, answer: &Answer, second: &Answer, recorded: &Answer) {
    assert!(rt; *answer == *second);
    assert!(rt; *answer == *recorded);
}
