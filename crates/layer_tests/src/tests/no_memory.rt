// Calls of the nodes and of the simulated link that take no memory. tools/refusals runs these tests with all
// allocations refused after the words 'set up'.

use super::common::{equal, with_value};
use super::frames::{
    AD_0, AD_1, AD_ON_CHANNEL_3, BD_0, BD_NONE, IDLE, OF_SPACECRAFT_2, P0, UNLOCK,
};
use super::link::step;
use cop1::{Alert, CopFault, Directive, Verdict};
use nodes::{
    Config, Ground, Heard, HeardReport, LinkFault, Parameter, Received, Spacecraft, ValidConfig,
};
use std::alloc::Global;
use std::process::Abort;
use tc_frame::{Command, TcFault};
use tc_link::{Event, NodeFault, Reply, Sim, SimFault};
use tm_link::{Gap, TmFault};

fn config() -> Config {
    Config {
        frame_length: 19,
        ready_slots: 1,
        queue_slots: 2,
        ..Config::default()
    }
}

fn valid(rt: &impl Abort) -> ValidConfig {
    config().valid().expect(rt, "a configuration")
}

fn says_set_up(rt: &impl Eprint) {
    let _ = eprintln!(rt; "set up");
}

// Returns a ground that has one packet to send in sequence and one by bypass.
fn ground(rt: &impl Abort, alloc: Global) -> Ground {
    let mut ground = Ground::of(alloc, &valid(rt)).expect(rt, "a ground");
    takes_both(rt, &mut ground);
    ground
}

fn takes_both(rt: &impl Abort, ground: &mut Ground) {
    let _ = ground.directive(Directive::InitWithoutCheck);
    assert!(rt; ground.submit(4, &P0).is_ok());
    assert!(rt; ground.bypass(4, &P0).is_ok());
}

fn refuses(rt: &impl Abort, ground: &mut Ground) {
    equal(rt, &ground.submit(64, &P0), &Err(LinkFault::ClosedMap));
    equal(rt, &ground.submit(4, &[]), &Err(LinkFault::NotCommand));
    equal(
        rt,
        &ground.prepare(4, &P0[1..]).err(),
        &Some(LinkFault::NotCommand),
    );
    equal(rt, &ground.bypass(64, &P0), &Err(LinkFault::ClosedMap));
    let window = ground.directive(Directive::SetWindow(0));
    equal(rt, &window, &Err(CopFault::Window));
}

// A CLCW that contains nothing new for the sender.
const FIRST_HEARD: Heard = Heard::Frame {
    gap: Gap::First,
    packets: 0,
    report: HeardReport::Used,
    alert: None,
};

fn hears(rt: &impl Abort, ground: &mut Ground) {
    equal(rt, &ground.telemetry(&IDLE), &Ok(FIRST_HEARD));
    equal(rt, &ground.telemetry(&OF_SPACECRAFT_2), &Ok(Heard::Foreign));
    let invalid = Heard::Invalid(TmFault::Length);
    equal(rt, &ground.telemetry(&P0), &Ok(invalid));
    assert!(rt; ground.take_telemetry().is_none());
}

#[test]
fn a_ground_that_is_made_takes_no_memory(rt: HostRuntime) {
    calls_ground(&rt, &mut ground(&rt, rt.alloc()));
}

fn calls_ground(rt: &(impl Abort + Eprint), ground: &mut Ground) {
    says_set_up(rt);
    pulls(rt, ground, Some(15));
    passes(rt, ground);
    hears(rt, ground);
    refuses(rt, ground);
    for _ in 0..10 {
        equal(rt, &ground.tick(), &None);
    }
    pulls(rt, ground, Some(15));
    tells(rt, ground);
    directs(rt, ground);
    pulls(rt, ground, Some(8));
    resumes(rt, ground);
    pulls(rt, ground, Some(8));
}

// Checks that the one submission was sent, and that a CLCW can show that it is on board.
fn tells(rt: &impl Abort, ground: &Ground) {
    equal(rt, &(ground.submitted(), ground.sent_whole()), &(1, 1));
    equal(rt, &ground.acknowledged_whole(), &0);
    equal(rt, &ground.known_on_board(1), &Some(1));
}

// Advances past the last frame.
fn passes(rt: &impl Abort, ground: &mut Ground) {
    assert!(rt; ground.peek().is_some());
    ground.advance();
    assert!(rt; ground.peek().is_none());
}

fn pulls(rt: &impl Abort, ground: &mut Ground, size: Option<usize>) {
    let mut out = [0; 1024];
    equal(rt, &ground.pull(&mut out), &size);
}

fn directs(rt: &impl Abort, ground: &mut Ground) {
    for (directive, answer) in [
        (Directive::SetWindow(1), None),
        (Directive::SetLimit(1), None),
        (Directive::SetTimer(1), None),
        (Directive::Terminate, Some(Alert::Terminated)),
        (Directive::SetVs(9), None),
        (Directive::InitUnlock, None),
    ] {
        equal(rt, &ground.directive(directive), &Ok(answer));
    }
}

// Resumes after a session in which nothing was submitted.
fn resumes(rt: &impl Abort, ground: &mut Ground) {
    equal(rt, &ground.resume(9), &Err(LinkFault::NotKnown));
    let terminated = ground.directive(Directive::Terminate);
    equal(rt, &terminated, &Ok(Some(Alert::Terminated)));
    equal(rt, &ground.resume(9), &Ok(0));
}

#[test]
fn a_submission_committed_takes_no_memory(rt: HostRuntime) {
    submits(&rt, &mut ground(&rt, rt.alloc()));
}

fn submits(rt: &(impl Abort + Eprint), ground: &mut Ground) {
    let submission = ground.prepare(4, &P0).expect(rt, "a submission");
    says_set_up(rt);
    assert!(rt; submission.packets() == [&P0[..]].as_slice());
    ground.commit(submission);
    equal(rt, &ground.outstanding(), &2);
}

fn new_spacecraft(rt: &impl Abort, alloc: Global) -> Spacecraft {
    Spacecraft::of(alloc, &valid(rt)).expect(rt, "a spacecraft")
}

// Gives the spacecraft a packet of each service, and one of telemetry.
fn fills(rt: &impl Abort, spacecraft: &mut Spacecraft) {
    assert!(rt; spacecraft.receive(&AD_0).is_ok());
    assert!(rt; spacecraft.receive(&BD_0).is_ok());
    let packet = [0x00, 0x05, 0xc0, 0x00, 0x00, 0x00, 0xaa];
    assert!(rt; spacecraft.telemetry(&packet).is_ok());
}

#[test]
fn a_spacecraft_that_is_made_takes_no_memory(rt: HostRuntime) {
    let mut spacecraft = new_spacecraft(&rt, rt.alloc());
    fills(&rt, &mut spacecraft);
    calls_spacecraft(&rt, &mut spacecraft);
}

fn calls_spacecraft(rt: &(impl Abort + Eprint), spacecraft: &mut Spacecraft) {
    says_set_up(rt);
    for (octets, received) in [
        (&AD_0[..], dropped(0, Verdict::Behind)),
        (&AD_1, dropped(1, Verdict::NoBuffer)),
        (&BD_NONE, Received::Bypass { kept: false }),
        (&AD_ON_CHANNEL_3, Received::Foreign),
        (&UNLOCK, Received::Control(Command::Unlock)),
        (&P0, Received::Invalid(TcFault::ReservedType)),
    ] {
        receives(rt, spacecraft, octets, received);
    }
    for _ in 0..3 {
        reports(rt, spacecraft);
    }
    let queued = spacecraft.telemetry(&P0[1..]);
    equal(rt, &queued, &Err(TmFault::NotAPacket));
    for is_there in [true, false] {
        equal(rt, &are_taken(spacecraft), &[is_there; 2]);
    }
}

// Returns, for each service, whether there was a packet to take.
fn are_taken(spacecraft: &mut Spacecraft) -> [bool; 2] {
    [
        spacecraft.take().is_some(),
        spacecraft.take_bypass().is_some(),
    ]
}

// Returns the answer to a Type-AD frame with this number that is not accepted.
fn dropped(n: u8, verdict: Verdict) -> Received {
    Received::Sequence {
        n,
        verdict,
        ready: 0,
        dropped: None,
    }
}

fn receives(rt: &impl Abort, spacecraft: &mut Spacecraft, octets: &[u8], received: Received) {
    let arrival = spacecraft.prepare(octets).expect(rt, "an arrival");
    assert!(rt; arrival.accepted().is_none());
    equal(rt, &spacecraft.receive(octets), &Ok(received));
}

fn reports(rt: &impl Abort, spacecraft: &mut Spacecraft) {
    let mut out = [0; 2048];
    equal(rt, &spacecraft.report(&mut out), &19);
}

#[test]
fn an_arrival_committed_takes_no_memory(rt: HostRuntime) {
    arrives(&rt, &mut new_spacecraft(&rt, rt.alloc()));
}

fn arrives(rt: &(impl Abort + Eprint), spacecraft: &mut Spacecraft) {
    let arrival = spacecraft.prepare(&AD_0).expect(rt, "an arrival");
    says_set_up(rt);
    let received = spacecraft.commit(arrival);
    assert!(rt; matches!(received, Received::Sequence { ready: 1, .. }));
    assert!(rt; spacecraft.take().is_some());
}

// Returns a link with frames in transit in both directions, after others that were accepted.
fn link(rt: &impl Abort, alloc: Global) -> Sim {
    let mut sim = Sim::new(alloc, config()).expect(rt, "a link");
    for event in &ON_THEIR_WAY {
        happens(rt, &mut sim, *event);
    }
    sim
}

fn happens(rt: &impl Abort, sim: &mut Sim, event: Event<'_>) {
    assert!(rt; step(sim, event).is_ok());
}

static ON_THEIR_WAY: [Event<'static>; 14] = [
    Event::Directive(Directive::InitWithoutCheck),
    Event::Submit(4, &P0),
    Event::Bypass(4, &P0),
    Event::Send,
    Event::UpDeliver,
    Event::Send,
    Event::UpDeliver,
    Event::Submit(4, &P0),
    Event::Send,
    Event::Send,
    Event::Report,
    Event::Report,
    Event::Report,
    Event::Telemetry(&[0x00, 0x05, 0xc0, 0x00, 0x00, 0x00, 0xaa]),
];

// An answer of the link. If it has a packet, the packet is P0.
#[derive(Clone, Copy, Debug, PartialEq, Eq)]
enum Answer {
    Done,
    Nothing,
    Lost,
    Refused(NodeFault),
    Alert(Alert),
    Up(Received),
    Down(Heard),
    P0On(u8),
    NothingInTransit,
    // An answer that this test does not expect.
    Other,
}

fn answered(sim: &mut Sim, event: Event<'_>) -> Answer {
    match step(sim, event) {
        Ok(Reply::Done) => Answer::Done,
        Ok(Reply::Nothing) => Answer::Nothing,
        Ok(Reply::Lost) => Answer::Lost,
        Ok(Reply::Refused(fault)) => Answer::Refused(fault),
        Ok(Reply::Alert(alert)) => Answer::Alert(alert),
        Ok(Reply::Up(received)) => Answer::Up(received),
        Ok(Reply::Down(heard)) => Answer::Down(heard),
        Ok(Reply::Packet(map, octets)) => answer_of_packet(map, octets.as_slice()),
        Ok(_) => Answer::Other,
        Err(SimFault::NothingInTransit) => Answer::NothingInTransit,
        Err(_) => Answer::Other,
    }
}

fn answer_of_packet(map: u8, octets: &[u8]) -> Answer {
    if octets == P0.as_slice() {
        Answer::P0On(map)
    } else {
        Answer::Other
    }
}

const CLOSED: Answer = Answer::Refused(NodeFault::Link(LinkFault::ClosedMap));

const NO_COMMAND: Answer = Answer::Refused(NodeFault::Link(LinkFault::NotCommand));

const NO_PACKET: Answer = Answer::Refused(NodeFault::Tm(TmFault::NotAPacket));

const DAMAGED: Answer = Answer::Down(Heard::Invalid(TmFault::Length));

const TERMINATED: Answer = Answer::Alert(Alert::Terminated);

// There is no room for the frame with N(S) = 1, since the packet of the first frame was not taken.
const NO_BUFFER: Answer = Answer::Up(Received::Sequence {
    n: 1,
    verdict: Verdict::NoBuffer,
    ready: 0,
    dropped: None,
});

static WITHOUT_MEMORY: [(Event<'static>, Answer); 18] = [
    (Event::UpDeliver, NO_BUFFER),
    (Event::UpDamage(&[]), Answer::NothingInTransit),
    (Event::UpLose, Answer::NothingInTransit),
    (Event::DownDeliver, Answer::Down(FIRST_HEARD)),
    (Event::DownDamage(&[]), DAMAGED),
    (Event::DownLose, Answer::Lost),
    (Event::Tick, Answer::Done),
    (Event::Submit(64, &P0), CLOSED),
    (Event::Submit(4, &[]), NO_COMMAND),
    (Event::Bypass(4, &[]), NO_COMMAND),
    (Event::Telemetry(&[]), NO_PACKET),
    (Event::Directive(Directive::Terminate), TERMINATED),
    (Event::Directive(Directive::InitSetVr(3)), Answer::Done),
    (Event::Take, Answer::P0On(4)),
    (Event::Take, Answer::Nothing),
    (Event::TakeBypass, Answer::P0On(4)),
    (Event::TakeBypass, Answer::Nothing),
    (Event::Take, Answer::Nothing),
];

#[test]
fn events_of_a_link_takes_no_memory(rt: HostRuntime) {
    happen_without_memory(&rt, &mut link(&rt, rt.alloc()));
}

fn happen_without_memory(rt: &(impl Abort + Eprint), sim: &mut Sim) {
    says_set_up(rt);
    for (event, is) in &WITHOUT_MEMORY {
        equal(rt, &answered(sim, *event), is);
    }
    has_no_records(rt, sim);
}

fn has_no_records(rt: &impl Abort, sim: &Sim) {
    for map in 0..64u8 {
        assert!(rt; sim.submitted(map).is_empty() && sim.delivered(map).is_empty());
    }
    assert!(rt; sim.submissions().is_empty() && sim.sent().is_empty());
    assert!(rt; sim.accepted().is_empty() && sim.acknowledged() == 0);
}

// Each parameter just out of range, and a window that is too wide for the width.
#[test]
fn judging_a_configuration_takes_no_memory(rt: HostRuntime) {
    says_set_up(&rt);
    is_judged(&rt, &Config::default(), None);
    for (parameter, value, fault) in [
        (Parameter::Scid, 1024, "scid"),
        (Parameter::Vcid, 64, "vcid"),
        (Parameter::TmVcid, 8, "tm_vcid"),
        (Parameter::Width, 253, "width"),
        (Parameter::Width, 252, "window"),
        (Parameter::Window, 128, "window"),
        (Parameter::Limit, 0, "limit"),
        (Parameter::Timer, 65_536, "timer"),
        (Parameter::Part, 1017, "part"),
        (Parameter::MaxPacket, 65_543, "max_packet"),
        (Parameter::ReadySlots, 65, "ready_slots"),
        (Parameter::BypassSlots, 65, "bypass_slots"),
        (Parameter::QueueSlots, 0, "queue_slots"),
        (Parameter::FrameLength, 2049, "frame_length"),
        (Parameter::Blocking, 2, "blocking"),
    ] {
        is_judged(&rt, &with_value(parameter, value), Some(fault));
    }
}

fn is_judged(rt: &impl Abort, config: &Config, fault: Option<&str>) {
    equal(rt, &config.fault(), &fault);
    equal(rt, &config.valid().err(), &fault);
}
