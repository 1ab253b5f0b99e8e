// Telemetry on the downlink. Two packets of two frames each are sent while no frame, or 255 or 256 frames in
// a row, are lost; and a spacecraft is restarted between two frames.

use super::ground::{heard, takes};
use crate::tests::common::{equal, with_value};
use nodes::{KeptNumbers, Parameter};
use std::alloc::Global;
use std::process::Abort;
use tc_link::{Ground, Spacecraft};
use tm_link::Gap;

// A frame of 20 octets carries 8, so each of these packets fills two.
const A: [u8; 16] = [
    0x00, 0x05, 0xc0, 0x00, 0x00, 0x09, 0xa0, 0xa1, 0xa2, 0xa3, 0xa4, 0xa5, 0xa6, 0xa7, 0xa8, 0xa9,
];

const B: [u8; 16] = [
    0x00, 0x05, 0xc0, 0x01, 0x00, 0x09, 0xb0, 0xb1, 0xb2, 0xb3, 0xb4, 0xb5, 0xb6, 0xb7, 0xb8, 0xb9,
];

// The first half of A and the second half of B, a packet that was never queued.
const A_THEN_B: [u8; 16] = [
    0x00, 0x05, 0xc0, 0x00, 0x00, 0x09, 0xa0, 0xa1, 0xb2, 0xb3, 0xb4, 0xb5, 0xb6, 0xb7, 0xb8, 0xb9,
];

// An event: a packet is queued, frames are lost, a frame is heard with its gap and this many packets, or a
// packet is taken or is not there.
#[derive(Clone, Copy)]
enum Event<'a> {
    Queue(&'a [u8]),
    Lose(usize),
    Hear(Gap, usize),
    Take(Option<&'a [u8]>),
}

fn happens(rt: &impl Abort, spacecraft: &mut Spacecraft, ground: &mut Ground, event: &Event<'_>) {
    match event {
        Event::Queue(packet) => equal(rt, &spacecraft.telemetry(packet), &Ok(())),
        Event::Lose(frames) => loses(spacecraft, *frames),
        Event::Hear(gap, packets) => hears(rt, spacecraft, ground, *gap, *packets),
        Event::Take(packet) => takes(rt, ground, *packet),
    }
}

fn loses(spacecraft: &mut Spacecraft, frames: usize) {
    let mut out = [0; 2048];
    for _ in 0..frames {
        let _ = spacecraft.report(&mut out);
    }
}

fn hears(
    rt: &impl Abort,
    spacecraft: &mut Spacecraft,
    ground: &mut Ground,
    gap: Gap,
    packets: usize,
) {
    let mut out = [0; 2048];
    let size = spacecraft.report(&mut out);
    let answer = ground.telemetry(out.get(..size).unwrap_or_default());
    // The sender, in S6, does not use the CLCW for anything.
    equal(rt, &answer, &Ok(heard(gap, packets)));
}

// Lets these events happen, one after another, between two new nodes.
fn happen(rt: &impl Abort, alloc: Global, events: &[&[Event<'_>]]) {
    let config = with_value(Parameter::FrameLength, 20);
    let valid = config.valid().expect(rt, "a configuration");
    let mut spacecraft = Spacecraft::of(alloc, &valid).expect(rt, "a spacecraft");
    let mut ground = Ground::of(alloc, &valid).expect(rt, "a ground");
    for part in events {
        for event in *part {
            happens(rt, &mut spacecraft, &mut ground, event);
        }
    }
}

#[test]
fn packets_over_losses(rt: HostRuntime) {
    let none_lost = [
        Event::Queue(&A),
        Event::Queue(&B),
        Event::Hear(Gap::First, 0),
        Event::Hear(Gap::Lost(0), 1),
        Event::Hear(Gap::Lost(0), 0),
        Event::Hear(Gap::Lost(0), 1),
        Event::Take(Some(&A)),
        Event::Take(Some(&B)),
        Event::Take(None),
    ];
    happen(&rt, rt.alloc(), &[&none_lost]);
    // The second half of A is lost with 254 frames of only idle data, before B is queued.
    let half_lost = [
        Event::Queue(&A),
        Event::Hear(Gap::First, 0),
        Event::Lose(255),
        Event::Queue(&B),
    ];
    let whole_comes = [
        Event::Hear(Gap::Lost(255), 0),
        Event::Hear(Gap::Lost(0), 1),
        Event::Take(Some(&B)),
        Event::Take(None),
    ];
    // One more frame is lost, the first half of B. The counts show no missing frame, so a packet is delivered
    // that was never queued.
    let half_comes = [
        Event::Lose(1),
        Event::Hear(Gap::Lost(0), 1),
        Event::Take(Some(&A_THEN_B)),
        Event::Take(None),
    ];
    for rest in [whole_comes, half_comes] {
        happen(&rt, rt.alloc(), &[&half_lost, &rest]);
    }
}

// The second half of A is lost with the old spacecraft. The counts continue, so no frame is missing, and the
// half that arrived is not joined to anything.
#[test]
fn a_restart_on_purpose(rt: HostRuntime) {
    let config = with_value(Parameter::FrameLength, 20);
    let valid = config.valid().expect(&rt, "a configuration");
    let mut before = Spacecraft::of(rt.alloc(), &valid).expect(&rt, "a spacecraft");
    let mut ground = Ground::of(rt.alloc(), &valid).expect(&rt, "a ground");
    for event in [Event::Queue(&A), Event::Hear(Gap::First, 0)] {
        happens(&rt, &mut before, &mut ground, &event);
    }
    let kept = before.kept_numbers();
    let one_sent = KeptNumbers {
        vr: 0,
        farm_b: 0,
        mc_count: 1,
        vc_count: 1,
    };
    equal(&rt, &kept, &one_sent);
    let mut after = Spacecraft::restarted(rt.alloc(), valid.config(), kept).expect(
        &rt,
        "a spacecraft",
    );
    for event in [
        Event::Queue(&B),
        Event::Hear(Gap::Lost(0), 0),
        Event::Hear(Gap::Lost(0), 1),
        Event::Take(Some(&B)),
        Event::Take(None),
    ] {
        happens(&rt, &mut after, &mut ground, &event);
    }
}
