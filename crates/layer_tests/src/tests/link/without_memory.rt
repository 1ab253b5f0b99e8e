// Sessions in which each growth is refused in turn. The rows in rows/sim test what they answer.

use super::twins::bear;
use crate::tests::common::{ends_growths, with_parts, with_value};
use crate::tests::frames::{DAMAGED, P0, P1, P2, THREE, UNLOCK};
use cop1::{Directive, FopMode};
use nodes::Parameter;
use tc_link::Event;

// A frame is lost, and the frames from it on are retransmitted.
static ONE_FRAME_LOST: [Event<'static>; 20] = [
    Event::Directive(Directive::InitWithCheck),
    Event::Report,
    Event::DownDeliver,
    Event::Submit(4, &P0),
    Event::Submit(4, &P1),
    Event::Submit(4, &P2),
    Event::Send,
    Event::Send,
    Event::Send,
    Event::UpDeliver,
    Event::UpLose,
    Event::UpDeliver,
    Event::Report,
    Event::DownDeliver,
    Event::Send,
    Event::Send,
    Event::UpDeliver,
    Event::UpDeliver,
    Event::Report,
    Event::DownDeliver,
];

// One packet is sent by bypass, and one as telemetry.
static BOTH_WAYS: [Event<'static>; 8] = [
    Event::Bypass(4, &P0),
    Event::Send,
    Event::UpDeliver,
    Event::TakeBypass,
    Event::Telemetry(&P1),
    Event::Report,
    Event::DownDeliver,
    Event::Send,
];

// Each event that takes no memory, also if nothing is in transit.
static WITHOUT_MEMORY: [Event<'static>; 21] = [
    Event::Directive(Directive::InitWithoutCheck),
    Event::Submit(4, &P0),
    Event::Send,
    Event::UpDeliver,
    Event::Take,
    Event::Take,
    Event::TakeBypass,
    Event::Tick,
    Event::Send,
    Event::UpDamage(&DAMAGED),
    Event::UpDamage(&DAMAGED),
    Event::UpLose,
    Event::Report,
    Event::Report,
    Event::DownLose,
    Event::DownDamage(&P0),
    Event::DownLose,
    Event::DownClcw,
    Event::Directive(Directive::SetWindow(128)),
    Event::Directive(Directive::Terminate),
    Event::Resume(1),
];

// No refusal changes the link. A run continues after it, and answers each event.
static REFUSALS: [Event<'static>; 8] = [
    Event::Submit(4, &P0),
    Event::UpDeliver,
    Event::Directive(Directive::SetWindow(128)),
    Event::Directive(Directive::Terminate),
    Event::Directive(Directive::InitUnlock),
    Event::Send,
    Event::UpDamage(&UNLOCK),
    Event::UpDamage(&DAMAGED),
];

#[test]
fn sessions_without_memory(rt: HostRuntime) {
    use FopMode::{S1, S5, S6};
    for (timer, events, records) in [
        (10, &ONE_FRAME_LOST[..], (S1, [3, 3, 3, 3, 3, 0])),
        (10, &BOTH_WAYS, (S6, [0; 6])),
        (10, &REFUSALS, (S5, [0; 6])),
        (1, &WITHOUT_MEMORY, (S5, [0; 6])),
    ] {
        let config = with_value(Parameter::Timer, timer);
        bear(&rt, rt.alloc(), config, events, records);
    }
    ends_growths(&rt, rt.alloc());
}

// Segments have at most 14 octets, so the first has two packets and the second has one.
static THREE_PACKETS: [Event<'static>; 11] = [
    Event::Directive(Directive::InitWithoutCheck),
    Event::Submit(4, &THREE),
    Event::Send,
    Event::Send,
    Event::UpDeliver,
    Event::UpDeliver,
    Event::Report,
    Event::DownDeliver,
    Event::Take,
    Event::Take,
    Event::Take,
];

// Segments have at most 3 octets, so each packet has three segments.
static THREE_SEGMENTS: [Event<'static>; 13] = [
    Event::Directive(Directive::InitWithoutCheck),
    Event::Submit(4, &P0),
    Event::Submit(5, &P1),
    Event::Send,
    Event::Send,
    Event::Send,
    Event::UpDeliver,
    Event::UpDeliver,
    Event::UpDeliver,
    Event::Report,
    Event::DownDeliver,
    Event::Take,
    Event::Take,
];

#[test]
fn several_without_memory(rt: HostRuntime) {
    for (part, blocking, events, numbers) in [
        (14, 1, &THREE_PACKETS[..], [3, 3, 2, 2, 2, 0]),
        (3, 0, &THREE_SEGMENTS, [1, 1, 3, 3, 3, 3]),
    ] {
        let config = with_parts(part, blocking);
        bear(&rt, rt.alloc(), config, events, (FopMode::S1, numbers));
    }
    ends_growths(&rt, rt.alloc());
}
