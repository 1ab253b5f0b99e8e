// A program that resumes after each alert, over three sessions. Each of its three packets has two segments,
// and a session accepts at most one and a half packets.

use crate::tests::common::{equal, with_parts};
use crate::tests::frames::{P0, P1, P2};
use cop1::{Alert, Directive, FopMode};
use std::alloc::Global;
use std::process::Abort;
use tc_link::{Config, Ground, Spacecraft};

// The packets submitted in a session, how many of its frames arrive, the report value then, and the packet
// that is delivered. This is one packet, so `resume` returns that one submission is on board.
struct Session<'a> {
    packets: &'a [&'a [u8]],
    arrive: usize,
    value: u8,
    delivered: &'a [u8],
}

static SESSIONS: [Session<'static>; 3] = [
    Session {
        packets: &[&P0, &P1, &P2],
        arrive: 3,
        value: 3,
        delivered: &P0,
    },
    Session {
        packets: &[&P1, &P2],
        arrive: 3,
        value: 6,
        delivered: &P1,
    },
    Session {
        packets: &[&P2],
        arrive: 2,
        value: 8,
        delivered: &P2,
    },
];

// Runs the sessions between two new nodes, with a CLCW before each alert or with none.
fn goes_on(rt: &impl Abort, alloc: Global, config: &Config, is_reported: bool) {
    let valid = config.valid().expect(rt, "a configuration");
    let mut spacecraft = Spacecraft::of(alloc, &valid).expect(rt, "a spacecraft");
    let mut ground = Ground::of(alloc, &valid).expect(rt, "a ground");
    equal(
        rt,
        &ground.directive(Directive::InitWithoutCheck),
        &Ok(None),
    );
    for session in &SESSIONS {
        sends(rt, &mut ground, &mut spacecraft, session);
        if is_reported {
            reports(rt, &mut ground, &mut spacecraft);
        }
        ends(rt, &mut ground, &spacecraft, session.value);
        begins(rt, &mut ground, &mut spacecraft);
        delivers(rt, &mut spacecraft, session.delivered);
    }
}

// Submits the packets, and sends all their frames. Only the first of these arrive.
fn sends(rt: &impl Abort, ground: &mut Ground, spacecraft: &mut Spacecraft, session: &Session<'_>) {
    for packet in session.packets {
        equal(rt, &ground.submit(4, packet), &Ok(()));
    }
    for number in 0..6usize {
        if number < session.arrive {
            arrives(rt, ground, spacecraft);
        } else {
            ground.advance();
        }
    }
    equal(rt, &ground.sent_whole(), &ground.submitted());
}

// Sends a frame that arrives.
fn arrives(rt: &impl Abort, ground: &mut Ground, spacecraft: &mut Spacecraft) {
    let mut out = [0; 1024];
    let size = ground.pull(&mut out).expect(rt, "a frame");
    let received = spacecraft.receive(out.get(..size).unwrap_or_default());
    assert!(rt; received.is_ok());
}

// Sends a CLCW that arrives.
fn reports(rt: &impl Abort, ground: &mut Ground, spacecraft: &mut Spacecraft) {
    let mut out = [0; 2048];
    let size = spacecraft.report(&mut out);
    let heard = ground.telemetry(out.get(..size).unwrap_or_default());
    assert!(rt; heard.is_ok());
}

// Ends the session by an alert, and resumes at the report value.
fn ends(rt: &impl Abort, ground: &mut Ground, spacecraft: &Spacecraft, value: u8) {
    let terminated = ground.directive(Directive::Terminate);
    equal(rt, &terminated, &Ok(Some(Alert::Terminated)));
    equal(rt, &spacecraft.control_word().value, &value);
    equal(rt, &ground.known_on_board(value), &Some(1));
    equal(rt, &ground.resume(value), &Ok(1));
    equal(rt, &(ground.vs(), ground.nn()), &(value, value));
}

// Lets the control command Unlock arrive, and a CLCW confirm it.
fn begins(rt: &impl Abort, ground: &mut Ground, spacecraft: &mut Spacecraft) {
    arrives(rt, ground, spacecraft);
    reports(rt, ground, spacecraft);
    equal(rt, &ground.state(), &FopMode::S1);
}

// Checks that this packet is taken, and that no other is ready.
fn delivers(rt: &impl Abort, spacecraft: &mut Spacecraft, packet: &[u8]) {
    let taken = spacecraft.take().expect(rt, "a packet");
    assert!(rt; taken.0 == 4 && taken.1.as_slice() == packet);
    assert!(rt; spacecraft.take().is_none());
}

#[test]
fn three_sessions(rt: HostRuntime) {
    for blocking in [0, 1] {
        for is_reported in [false, true] {
            goes_on(&rt, rt.alloc(), &with_parts(4, blocking), is_reported);
        }
    }
}
