// Frames in octets, worked by hand.

ghost use Rattle.std.specs.Prelude.{◌<◌};

use super::equal::equal;
use super::refusals::again;
use octets::Wire;
use std::process::Abort;
use tc_frame::*;

/// A Type-AD frame with N(S) = 3 and without FECF, which carries a packet on MAP 4.
pub const DATA: [u8; 13] = [
    0x00, 0x01, 0x08, 0x0c, 0x03, 0xc4, 0x10, 0x05, 0xc0, 0x00, 0x00, 0x00, 0xaa,
];

const UNLOCK: [u8; 6] = [0x30, 0x01, 0x08, 0x05, 0x00, 0x00];

const UNLOCK_CHECKED: [u8; 8] = [0x30, 0x01, 0x08, 0x07, 0x00, 0x00, 0x8b, 0x9e];

const SET_SEVEN: [u8; 8] = [0x30, 0x01, 0x08, 0x07, 0x00, 0x82, 0x00, 0x07];

fn frame(body: Body<'_>) -> TcFrame<'_> {
    TcFrame {
        scid: 1,
        vcid: 2,
        body,
    }
}

fn is_spelled(rt: &impl Abort, body: Body, check: Check, octets: &[u8]) {
    reads(rt, octets, check, frame(body));
    let mut out = [0x55; 16];
    equal(rt, &written(body, check, &mut out), &Some(octets.len()));
    let (octets_written, rest) = out.split_at_checked(octets.len()).unwrap_or_default();
    assert!(rt; octets_written == octets);
    assert!(rt; rest.iter().all(|octet| *octet == 0x55));
}

fn reads(rt: &impl Abort, octets: &[u8], check: Check, frame: TcFrame<'_>) {
    equal(rt, &decode(octets, check), &Ok(frame));
}

// Writes the frame and returns its length, or None if `total` predicts another one.
fn written(body: Body, check: Check, out: &mut [u8]) -> Option<usize> {
    let frame = frame(body);
    let total = encode(&frame, check, out).ok();
    match total == Some(frame.total(check)) {
        true => total,
        false => None,
    }
}

fn fault_of(octets: &[u8], check: Check) -> Option<TcFault> {
    decode(octets, check).err()
}

#[test]
fn data_frames(rt: HostRuntime) {
    let segment = Segment {
        header: SegmentHeader {
            flags: SegmentFlags::Alone,
            map: 4,
        },
        payload: &DATA[6..],
    };
    is_spelled(&rt, Body::Ad { n: 3, segment }, Check::Off, &DATA);
    let mut bypass = DATA;
    bypass[0] = 0x20;
    bypass[4] = 0x00;
    is_spelled(&rt, Body::Bd { segment }, Check::Off, &bypass);
}

#[test]
fn frames_with_a_check_or_without(rt: HostRuntime) {
    equal(&rt, &check_if(true), &Check::On);
    equal(&rt, &check_if(false), &Check::Off);
}

#[test]
fn control_frames(rt: HostRuntime) {
    let set_seven = Body::Bc(Command::SetVr(7));
    is_spelled(&rt, set_seven, Check::Off, &SET_SEVEN);
    let unlock = Body::Bc(Command::Unlock);
    is_spelled(&rt, unlock, Check::Off, &UNLOCK);
    is_spelled(&rt, unlock, Check::On, &UNLOCK_CHECKED);
}

#[test]
fn faults_of_the_header(rt: HostRuntime) {
    for (octets, fault) in [
        (&UNLOCK[..4], TcFault::Short),
        (&LONG, TcFault::Length),
        (&with_first(0x40), TcFault::Version),
        (&with_first(0x10), TcFault::ReservedType),
        (&with_first(0x04), TcFault::Spare),
    ] {
        equal(&rt, &fault_of(octets, Check::Off), &Some(fault));
    }
}

const LONG: [u8; 7] = [0x30, 0x01, 0x08, 0x05, 0x00, 0x00, 0x00];

// Returns DATA with another first octet.
fn with_first(octet: u8) -> [u8; 13] {
    let mut octets = DATA;
    octets[0] = octet;
    octets
}

#[test]
fn faults_after_the_header(rt: HostRuntime) {
    let mut damaged = UNLOCK_CHECKED;
    damaged[7] = 0x9f;
    equal(&rt, &fault_of(&damaged, Check::On), &Some(TcFault::Check));
    for (octets, fault) in [
        ([0x30, 0x01, 0x08, 0x05, 0x01, 0x00], TcFault::BypassNumber),
        ([0x00, 0x01, 0x08, 0x05, 0x03, 0xc4], TcFault::EmptyData),
        ([0x30, 0x01, 0x08, 0x05, 0x00, 0x01], TcFault::Command),
    ] {
        equal(&rt, &fault_of(&octets, Check::Off), &Some(fault));
    }
}

// Counts the refused frames among those with each value of the octet at this place.
fn refused_at(octets: &[u8; 15], place: usize) -> u8
    requires { place < 15 }
{
    let mut refused = 0_u8;
    for octet in 0..=255_u8 {
        let mut damaged = *octets;
        damaged[place] = octet;
        if fault_of(&damaged, Check::On).is_some() {
            refused = refused.wrapping_add(1);
        }
    }
    refused
}

#[test]
fn a_wrong_octet(rt: HostRuntime) {
    let octets = [
        0x00, 0x01, 0x08, 0x0e, 0x00, 0xc4, 0x10, 0x05, 0xc0, 0x00, 0x00, 0x00, 0xaa, 0xe7, 0x5d,
    ];
    equal(&rt, &fault_of(&octets, Check::On), &None);
    for place in 0..15 {
        assert_eq!(rt; refused_at(&octets, place), 255, "at {place}");
    }
}

// Feeds the octets. If memory is refused, nothing changes, and the repeated call succeeds.
fn feed<C: Wire<Fault = TcFault>>(
    rt: &(impl Abort + Eprint),
    splitter: &mut TcSplitter<C>,
    octets: &[u8],
) {
    let fed = again(rt, TcFault::Memory, || splitter.feed(octets));
    equal(rt, &fed, &Ok(()));
}

/// Checks the next record, or the fault of its length.
pub fn hands_out<C: Wire<Fault = TcFault>>(
    rt: &impl Abort,
    splitter: &mut TcSplitter<C>,
    record: Option<Result<&[u8], TcFault>>,
) {
    equal(rt, &splitter.next(), &record);
}

/// Checks whether the stream may end here.
pub fn ends<C: Wire<Fault = TcFault>>(
    rt: &impl Abort,
    splitter: &TcSplitter<C>,
    answer: Result<(), TcFault>,
) {
    equal(rt, &splitter.finish(), &answer);
}

#[test]
fn frames_in_pieces(rt: HostRuntime) {
    let mut splitter = TcSplitter::<Unchecked>::new(rt.alloc());
    feed(&rt, &mut splitter, &DATA);
    feed(&rt, &mut splitter, &UNLOCK[..5]);
    hands_out(&rt, &mut splitter, Some(Ok(DATA.as_slice())));
    hands_out(&rt, &mut splitter, None);
    ends(&rt, &splitter, Err(TcFault::Short));
    feed(&rt, &mut splitter, &UNLOCK[5..]);
    hands_out(&rt, &mut splitter, Some(Ok(UNLOCK.as_slice())));
    ends(&rt, &splitter, Ok(()));
}

#[test]
fn a_refused_record_is_for_good(rt: HostRuntime) {
    let mut splitter = TcSplitter::<Checked>::new(rt.alloc());
    feed(&rt, &mut splitter, &UNLOCK);
    hands_out(&rt, &mut splitter, Some(Err(TcFault::Length)));
    feed(&rt, &mut splitter, &UNLOCK_CHECKED);
    hands_out(&rt, &mut splitter, Some(Err(TcFault::Length)));
    ends(&rt, &splitter, Ok(()));
}
