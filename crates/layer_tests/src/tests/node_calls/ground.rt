// Calls of the ground node.

use super::{Node, plays};
use crate::tests::common::{answer_of, equal, says_refused, with_parts, with_value};
use crate::tests::frames::*;
use clcw::ClcwFault;
use cop1::{Alert, CopFault, Directive, FopMode};
use nodes::{KeptGround, Parameter, ValidConfig};
use std::alloc::Global;
use std::process::Abort;
use tc_frame::{Check, encode};
use tc_link::{Config, Ground, Heard, HeardClcw, HeardReport, LinkFault};
use tm_link::{Gap, Pointer, TmFault, decode};

/// A call of a ground, and what it answers.
#[derive(Clone, Copy)]
pub enum Ask<'a> {
    Submit(&'a [u8], Result<(), LinkFault>),
    Bypass(&'a [u8], Result<(), LinkFault>),
    Directive(Directive, Result<Option<Alert>, CopFault>),
    Pull(Option<&'a [u8]>),
    Advance,
    Tick(Option<Alert>),
    Telemetry(&'a [u8], Heard),
    Clcw([u8; 4], HeardClcw),
    TakeTelemetry(Option<&'a [u8]>),
    ForgetTelemetry,
    // How many segments a CLCW with this report value shows to be accepted.
    AcceptedBeyond(u8, Option<u8>),
    // The numbers of submissions, of those sent whole, and of those acknowledged whole.
    Counts([u64; 3]),
    // How many submissions a CLCW with this report value shows to be on board whole.
    KnownOnBoard(u8, Option<u64>),
    Resume(u8, Result<u64, LinkFault>),
    // The record of the ground.
    Kept(&'a KeptGround),
    // The numbers of segments not sent yet, of segments due again and of bypass packets, the ticks that are
    // left, and the transmission count.
    Waits([usize; 3], Option<u16>, u8),
}

/// The sender's state, V(S), NN(R), and the number of segments not acknowledged.
pub type Standing = (FopMode, u8, u8, usize);

impl<'a> Node<(Ask<'a>, Standing)> for Ground {
    fn create(alloc: Global, config: &ValidConfig) -> Result<Ground, LinkFault> {
        Ground::of(alloc, config)
    }

    fn length_of_frames(&self) -> usize {
        self.frame_length()
    }

    fn answers(&mut self, rt: &(impl Abort + Eprint), call: &(Ask<'a>, Standing)) {
        let (ask, standing) = call;
        answers(rt, self, ask);
        equal(rt, &seen(self), standing);
    }
}

fn answers(rt: &(impl Abort + Eprint), ground: &mut Ground, ask: &Ask<'_>) {
    match ask {
        Ask::Submit(octets, want) => equal(rt, &submit(rt, ground, octets), want),
        Ask::Bypass(octets, want) => equal(rt, &put(rt, ground, true, octets), want),
        Ask::Directive(directive, want) => obeys(rt, ground, *directive, *want),
        Ask::Pull(want) => pulls(rt, ground, *want),
        Ask::Advance => ground.advance(),
        Ask::Tick(want) => equal(rt, &ground.tick(), want),
        Ask::Telemetry(octets, want) => equal(rt, &telemetry(rt, ground, octets), &Ok(*want)),
        Ask::Clcw(octets, want) => equal(rt, &ground.clcw(*octets), want),
        Ask::TakeTelemetry(want) => takes(rt, ground, *want),
        Ask::ForgetTelemetry => ground.forget_telemetry(),
        Ask::AcceptedBeyond(value, want) => {
            equal(rt, &ground.accepted_beyond(*value), want);
        }
        Ask::Counts(want) => equal(rt, &counts(ground), want),
        Ask::KnownOnBoard(value, want) => equal(rt, &ground.known_on_board(*value), want),
        Ask::Resume(value, want) => resumes(rt, ground, *value, *want),
        Ask::Kept(want) => keeps(rt, &ground.kept(), want),
        Ask::Waits(waiting, ticks, count) => waits(rt, ground, *waiting, *ticks, *count),
    }
}

fn waits(rt: &impl Abort, ground: &Ground, waiting: [usize; 3], ticks: Option<u16>, count: u8) {
    equal(
        rt,
        &[ground.unsent(), ground.due(), ground.bypassed()],
        &waiting,
    );
    equal(rt, &(ground.ticks(), ground.count()), &(ticks, count));
}

fn counts(ground: &Ground) -> [u64; 3] {
    [
        ground.submitted(),
        ground.sent_whole(),
        ground.acknowledged_whole(),
    ]
}

// Checks the answer of `resume`. A refused call changes nothing.
fn resumes(rt: &impl Abort, ground: &mut Ground, value: u8, want: Result<u64, LinkFault>) {
    let before = (seen(ground), counts(ground), ground.known_on_board(value));
    equal(rt, &ground.resume(value), &want);
    let after = (seen(ground), counts(ground), ground.known_on_board(value));
    assert!(rt; want.is_ok() || after == before);
}

fn keeps(rt: &(impl Abort + Eprint), kept: &KeptGround, want: &KeptGround) {
    let numbers = |it: &KeptGround| (it.acknowledged, it.vs, it.nn, it.known, it.whole);
    equal(rt, &numbers(kept), &numbers(want));
    assert!(rt; kept.segments.as_slice() == want.segments.as_slice());
}

fn obeys(
    rt: &impl Abort,
    ground: &mut Ground,
    directive: Directive,
    want: Result<Option<Alert>, CopFault>,
) {
    equal(rt, &ground.directive(directive), &want);
}

/// Checks that this packet of telemetry is taken, or that there is none.
pub fn takes(rt: &impl Abort, ground: &mut Ground, want: Option<&[u8]>) {
    let taken = ground.take_telemetry();
    assert!(rt; taken.as_ref().map(|taken| taken.as_slice()) == want);
}

/// Checks that a new ground answers the calls of these rows as they state, and is in the stated state after
/// each.
pub fn asks(
    rt: &(impl Abort + Eprint),
    alloc: Global,
    config: &Config,
    rows: &[(Ask<'_>, Standing)],
) {
    plays::<Ground, _>(rt, alloc, config, rows);
}

// Returns what `Standing` lists.
fn seen(ground: &Ground) -> Standing {
    (
        ground.state(),
        ground.vs(),
        ground.nn(),
        ground.outstanding(),
    )
}

// Returns the fault of `prepare` on MAP 4, if it refuses.
fn fault_of(rt: &(impl Abort + Eprint), ground: &Ground, octets: &[u8]) -> Option<LinkFault> {
    match ground.prepare(4, octets) {
        Err(LinkFault::Memory) => {
            says_refused(rt, LinkFault::Memory.number(), 6);
            ground.prepare(4, octets).err()
        }
        prepared => prepared.err(),
    }
}

// Submits octets, and checks that `prepare` answers the same.
fn submit(rt: &(impl Abort + Eprint), ground: &mut Ground, octets: &[u8]) -> Result<(), LinkFault> {
    let fault = fault_of(rt, ground, octets);
    let answer = put(rt, ground, false, octets);
    equal(rt, &answer.err(), &fault);
    answer
}

// Submits on MAP 4, or sends by bypass.
fn put(
    rt: &(impl Abort + Eprint),
    ground: &mut Ground,
    bypass: bool,
    octets: &[u8],
) -> Result<(), LinkFault> {
    let put = |ground: &mut Ground| match bypass {
        true => ground.bypass(4, octets),
        false => ground.submit(4, octets),
    };
    answer_of(rt, ground, seen, Some(LinkFault::Memory), put)
}

// Receives telemetry. Neither octets that do not form a valid frame nor frames of only idle data take memory.
fn telemetry(
    rt: &(impl Abort + Eprint),
    ground: &mut Ground,
    octets: &[u8],
) -> Result<Heard, LinkFault> {
    let hear = |ground: &mut Ground| ground.telemetry(octets);
    answer_of(rt, ground, seen, refusal_of(octets), hear)
}

// Returns Memory, the fault of a call out of memory, if the octets are a frame with packets.
fn refusal_of(octets: &[u8]) -> Option<LinkFault> {
    match decode(octets, octets.len()) {
        Ok(frame) if frame.pointer != Pointer::OnlyIdle => Some(LinkFault::Memory),
        _ => None,
    }
}

// Peeks at the frame, then pulls it. Octets after it do not change.
fn pulls(rt: &impl Abort, ground: &mut Ground, want: Option<&[u8]>) {
    let mut peeked = [0; 1024];
    let total = peek(ground, &mut peeked);
    let mut out = [0; 1024];
    let size = ground.pull(&mut out);
    equal(rt, &size, &total);
    assert!(rt; out == peeked);
    assert!(rt; size.and_then(|size| out.get(..size)) == want);
}

// Writes the next frame, and returns its length.
fn peek(ground: &Ground, out: &mut [u8; 1024]) -> Option<usize> {
    match ground.peek() {
        Some(frame) => encode(&frame, Check::On, out).ok(),
        None => None,
    }
}

/// Returns the answer to a frame of this channel whose CLCW the sender uses.
pub fn heard(gap: Gap, packets: usize) -> Heard {
    Heard::Frame {
        gap,
        packets,
        report: HeardReport::Used,
        alert: None,
    }
}

const NOT_OPEN: Result<(), LinkFault> = Err(LinkFault::NotOpen);

const INIT: Ask<'static> = Ask::Directive(Directive::InitWithoutCheck, Ok(None));

#[test]
fn both_ways(rt: HostRuntime) {
    use FopMode::{S1, S6};
    let window = Ask::Directive(Directive::SetWindow(128), Err(CopFault::Window));
    let terminate = Ask::Directive(Directive::Terminate, Ok(Some(Alert::Terminated)));
    let rows = [
        (Ask::Submit(&P0, NOT_OPEN), (S6, 0, 0, 0)),
        (INIT, (S1, 0, 0, 0)),
        (Ask::Submit(&P0, Ok(())), (S1, 0, 0, 1)),
        (Ask::Submit(&P1, Ok(())), (S1, 0, 0, 2)),
        (Ask::Bypass(&P1, Ok(())), (S1, 0, 0, 2)),
        (Ask::Pull(Some(&BD_1)), (S1, 0, 0, 2)),
        (Ask::Pull(Some(&AD_0)), (S1, 1, 0, 2)),
        (Ask::Tick(None), (S1, 1, 0, 2)),
        (
            Ask::Telemetry(&WITH_P0, heard(Gap::First, 1)),
            (S1, 1, 0, 2),
        ),
        (
            Ask::Telemetry(&OF_SPACECRAFT_2, Heard::Foreign),
            (S1, 1, 0, 2),
        ),
        (Ask::Telemetry(&OF_CHANNEL_1, Heard::Foreign), (S1, 1, 0, 2)),
        (Ask::Telemetry(&IDLE, heard(Gap::Lost(0), 0)), (S1, 1, 0, 2)),
        (
            Ask::Telemetry(&P0, Heard::Invalid(TmFault::Length)),
            (S1, 1, 0, 2),
        ),
        (Ask::TakeTelemetry(Some(&P0)), (S1, 1, 0, 2)),
        (Ask::TakeTelemetry(None), (S1, 1, 0, 2)),
        (Ask::Pull(Some(&AD_1)), (S1, 2, 0, 2)),
        (
            Ask::Telemetry(&IDLE_1, heard(Gap::Lost(0), 0)),
            (S1, 2, 1, 1),
        ),
        (Ask::Pull(None), (S1, 2, 1, 1)),
        (Ask::Submit(&P0, Ok(())), (S1, 2, 1, 2)),
        (Ask::Advance, (S1, 3, 1, 2)),
        (window, (S1, 3, 1, 2)),
        (Ask::AcceptedBeyond(2, Some(1)), (S1, 3, 1, 2)),
        (terminate, (S6, 3, 1, 0)),
        (Ask::AcceptedBeyond(0, None), (S6, 3, 1, 0)),
        (Ask::AcceptedBeyond(1, Some(0)), (S6, 3, 1, 0)),
        (Ask::AcceptedBeyond(3, Some(2)), (S6, 3, 1, 0)),
        (Ask::AcceptedBeyond(4, None), (S6, 3, 1, 0)),
        (Ask::Directive(Directive::SetVs(9), Ok(None)), (S6, 9, 9, 0)),
        (Ask::AcceptedBeyond(3, Some(0)), (S6, 9, 9, 0)),
    ];
    let config = with_value(Parameter::FrameLength, 19);
    asks(&rt, rt.alloc(), &config, &rows);
}

// A CLCW by itself changes only the sender's state. After `forget_telemetry`, the extractor begins again.
#[test]
fn a_report_by_itself(rt: HostRuntime) {
    use FopMode::{S1, S6};
    let word = |report, alert| HeardClcw { report, alert };
    let refused = word(HeardReport::Refused(ClcwFault::Kind), None);
    let other = word(HeardReport::OtherChannel, None);
    let lockout = word(HeardReport::Used, Some(Alert::Lockout));
    let idle = |gap| Ask::Telemetry(&IDLE_1, heard(gap, 0));
    let rows = [
        (INIT, (S1, 0, 0, 0)),
        (Ask::Submit(&P0, Ok(())), (S1, 0, 0, 1)),
        (Ask::Pull(Some(&AD_0)), (S1, 1, 0, 1)),
        (Ask::Clcw([0x81, 0x08, 0x00, 0x01], refused), (S1, 1, 0, 1)),
        (Ask::Clcw([0x01, 0x0c, 0x00, 0x01], other), (S1, 1, 0, 1)),
        (
            Ask::Clcw([0x01, 0x08, 0x00, 0x01], word(HeardReport::Used, None)),
            (S1, 1, 1, 0),
        ),
        (idle(Gap::First), (S1, 1, 1, 0)),
        (idle(Gap::Lost(255)), (S1, 1, 1, 0)),
        (Ask::ForgetTelemetry, (S1, 1, 1, 0)),
        (idle(Gap::First), (S1, 1, 1, 0)),
        (Ask::Clcw([0x01, 0x08, 0x20, 0x01], lockout), (S6, 1, 1, 0)),
    ];
    let config = with_value(Parameter::FrameLength, 19);
    asks(&rt, rt.alloc(), &config, &rows);
}

// Three packets have two segments. The first is sent, and its retransmission is requested.
#[test]
fn what_waits(rt: HostRuntime) {
    use FopMode::{S1, S2, S6};
    let used = HeardClcw {
        report: HeardReport::Used,
        alert: None,
    };
    let rows = [
        (Ask::Waits([0, 0, 0], None, 1), (S6, 0, 0, 0)),
        (INIT, (S1, 0, 0, 0)),
        (Ask::Submit(&THREE, Ok(())), (S1, 0, 0, 2)),
        (Ask::Bypass(&P2, Ok(())), (S1, 0, 0, 2)),
        (Ask::Waits([2, 0, 1], None, 1), (S1, 0, 0, 2)),
        (Ask::Advance, (S1, 0, 0, 2)),
        (Ask::Waits([2, 0, 0], None, 1), (S1, 0, 0, 2)),
        (Ask::Advance, (S1, 1, 0, 2)),
        (Ask::Waits([1, 0, 0], Some(10), 1), (S1, 1, 0, 2)),
        (Ask::Tick(None), (S1, 1, 0, 2)),
        (Ask::Waits([1, 0, 0], Some(9), 1), (S1, 1, 0, 2)),
        (Ask::Clcw([0x01, 0x08, 0x08, 0x00], used), (S2, 1, 0, 2)),
        (Ask::Waits([1, 1, 0], Some(10), 2), (S2, 1, 0, 2)),
        (Ask::Advance, (S2, 1, 0, 2)),
        (Ask::Waits([1, 0, 0], Some(10), 2), (S2, 1, 0, 2)),
    ];
    asks(&rt, rt.alloc(), &with_parts(14, 1), &rows);
}

#[test]
fn parts_that_are_sent(rt: HostRuntime) {
    use FopMode::S1;
    let too_long = Err(LinkFault::TooLong);
    let rows = [
        (INIT, (S1, 0, 0, 0)),
        (Ask::Submit(&P0, Ok(())), (S1, 0, 0, 3)),
        (Ask::Pull(Some(&FIRST)), (S1, 1, 0, 3)),
        (Ask::Pull(Some(&CONTINUING)), (S1, 2, 0, 3)),
        (Ask::Pull(Some(&LAST)), (S1, 3, 0, 3)),
        (Ask::Pull(None), (S1, 3, 0, 3)),
        (Ask::Bypass(&P0, too_long), (S1, 3, 0, 3)),
    ];
    asks(&rt, rt.alloc(), &with_parts(3, 0), &rows);
}

// First, packets have at most 7 octets. Then segments have at most 14, so one has two packets and the next
// has one.
#[test]
fn several_packets_in_several_segments(rt: HostRuntime) {
    use FopMode::{S1, S6};
    let config = with_value(Parameter::MaxPacket, 7);
    let long: [u8; 8] = [0x10, 0x05, 0xc0, 0x00, 0x00, 0x01, 0xaa, 0xab];
    let too_long = Err(LinkFault::TooLong);
    let rows = [
        (Ask::Bypass(&long, too_long), (S6, 0, 0, 0)),
        (INIT, (S1, 0, 0, 0)),
        (Ask::Submit(&long, too_long), (S1, 0, 0, 0)),
        (Ask::Submit(&P0, Ok(())), (S1, 0, 0, 1)),
    ];
    asks(&rt, rt.alloc(), &config, &rows);
    let rows = [
        (INIT, (S1, 0, 0, 0)),
        (Ask::Submit(&THREE, Ok(())), (S1, 0, 0, 2)),
        (Ask::Pull(Some(&AD_BOTH)), (S1, 1, 0, 2)),
        (Ask::Pull(Some(&AD_1_WITH_P0)), (S1, 2, 0, 2)),
        (Ask::Pull(None), (S1, 2, 0, 2)),
    ];
    asks(&rt, rt.alloc(), &with_parts(14, 1), &rows);
}
