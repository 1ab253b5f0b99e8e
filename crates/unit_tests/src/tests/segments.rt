// Packets cut and joined by hand.

mod assembler;

use super::equal::equal;
use super::packets::P0;
use map_service::*;
use std::alloc::Global;
use std::process::Abort;
use tc_frame::{Segment, SegmentFlags, SegmentHeader};

// P0, P1 and P2.
const THREE: [u8; 21] = [
    0x10, 0x05, 0xc0, 0x00, 0x00, 0x00, 0xaa, 0x10, 0x05, 0xc0, 0x01, 0x00, 0x00, 0xab, 0x10, 0x05,
    0xc0, 0x02, 0x00, 0x00, 0xac,
];

// P0, a packet of 12 octets, and P1.
const LONG_BETWEEN: [u8; 26] = [
    0x10, 0x05, 0xc0, 0x00, 0x00, 0x00, 0xaa, 0x10, 0x06, 0xc0, 0x00, 0x00, 0x05, 1, 2, 3, 4, 5, 6,
    0x10, 0x05, 0xc0, 0x01, 0x00, 0x00, 0xab,
];

fn limits(part: u32, blocking: bool) -> Limits {
    Limits {
        part,
        max_packet: 65542,
        maps: u64::MAX,
        blocking,
    }
}

/// A segment with these flags, on this MAP.
pub fn segment(flags: SegmentFlags, map: u8, payload: &[u8]) -> Segment<'_> {
    let header = SegmentHeader { flags, map };
    Segment { header, payload }
}

fn cut_once<'a>(
    rt: &impl Abort,
    octets: &'a [u8],
    limits: &Limits,
    segments: &mut Vec<Segment<'a>>,
) -> Result<(), MapFault> {
    assert!(rt; 1 <= limits.part);
    cut(octets, 4, limits, segments)
}

// Cuts the octets. If the call is refused, the segments do not change; if memory was refused, the call is
// made again.
fn cut_on<'a>(
    rt: &(impl Abort + Eprint),
    octets: &'a [u8],
    limits: &Limits,
    segments: &mut Vec<Segment<'a>>,
    before: &[Segment<'a>],
) -> Result<(), MapFault> {
    let answer = cut_once(rt, octets, limits, segments);
    if answer.is_err() {
        assert!(rt; segments.as_slice() == before);
    }
    if answer == Err(MapFault::Memory) {
        let _ = eprintln!(rt; "refused a growth");
        return cut_once(rt, octets, limits, segments);
    }
    answer
}

// Checks that these octets are cut into these segments, and returns them.
fn cuts<'a>(
    rt: &(impl Abort + Eprint),
    alloc: Global,
    octets: &'a [u8],
    limits: &Limits,
    parts: &[Segment<'a>],
) -> Vec<Segment<'a>> {
    let mut segments = Vec::new(alloc);
    equal(rt, &cut_on(rt, octets, limits, &mut segments, &[]), &Ok(()));
    assert!(rt; segments.as_slice() == parts);
    segments
}

#[test]
fn a_packet_in_parts(rt: HostRuntime) {
    let parts = [
        segment(SegmentFlags::First, 4, &[0x10, 0x05, 0xc0]),
        segment(SegmentFlags::Continuing, 4, &[0, 0, 0]),
        segment(SegmentFlags::Last, 4, &[0xaa]),
    ];
    cuts(&rt, rt.alloc(), &P0, &limits(3, false), &parts);
}

#[test]
fn a_packet_that_fits(rt: HostRuntime) {
    for blocking in [false, true] {
        let whole = [segment(SegmentFlags::Alone, 4, &P0)];
        cuts(&rt, rt.alloc(), &P0, &limits(7, blocking), &whole);
    }
}

#[test]
fn octets_that_stand_alone(rt: HostRuntime) {
    let whole = segment(SegmentFlags::Alone, 4, &P0);
    equal(&rt, &alone_segment(&P0, 4, 7), &Some(whole));
    equal(&rt, &alone_segment(&P0, 4, 6), &None);
}

#[test]
fn packets_joined(rt: HostRuntime) {
    let joined = [
        segment(SegmentFlags::Alone, 4, &THREE[..14]),
        segment(SegmentFlags::Alone, 4, &THREE[14..]),
    ];
    let mut segments = cuts(&rt, rt.alloc(), &THREE, &limits(20, true), &joined);
    equal(
        &rt,
        &cut_on(&rt, &THREE, &limits(20, false), &mut segments, &joined),
        &Err(MapFault::NotAPacket),
    );
}

#[test]
fn a_long_packet_between_two_short_ones(rt: HostRuntime) {
    let parts = [
        segment(SegmentFlags::Alone, 4, &P0),
        segment(SegmentFlags::First, 4, &LONG_BETWEEN[7..17]),
        segment(SegmentFlags::Last, 4, &LONG_BETWEEN[17..19]),
        segment(SegmentFlags::Alone, 4, &LONG_BETWEEN[19..]),
    ];
    cuts(&rt, rt.alloc(), &LONG_BETWEEN, &limits(10, true), &parts);
}

// The list grows twice. The second growth is within a packet and after a segment that was there before.
#[test]
fn a_packet_octet_by_octet(rt: HostRuntime) {
    let whole = segment(SegmentFlags::Alone, 4, &P0);
    let mut segments = cuts(&rt, rt.alloc(), &P0, &limits(7, false), &[whole]);
    equal(
        &rt,
        &cut_on(&rt, &P0, &limits(1, false), &mut segments, &[whole]),
        &Ok(()),
    );
    assert!(rt; segments.first() == Some(&whole));
    are_octets_of_p0(&rt, segments.get(1..).unwrap_or_default());
}

fn are_octets_of_p0(rt: &impl Abort, parts: &[Segment<'_>]) {
    assert_eq!(rt; parts.len(), 7);
    for (place, part) in parts.iter().enumerate() {
        let flags = match place {
            0 => SegmentFlags::First,
            6 => SegmentFlags::Last,
            _ => SegmentFlags::Continuing,
        };
        assert!(rt; *part == segment(flags, 4, &P0[place..][..1]));
    }
}

#[test]
fn refused_octets(rt: HostRuntime) {
    let short = Limits {
        max_packet: 7,
        ..limits(20, true)
    };
    let before = [segment(SegmentFlags::Alone, 4, &P0)];
    let mut segments = cuts(&rt, rt.alloc(), &P0, &short, &before);
    for (octets, limits, fault) in [
        (&LONG_BETWEEN[..], short, MapFault::TooLong),
        (&LONG_BETWEEN[..20], short, MapFault::NotAPacket),
        (&[], limits(20, false), MapFault::NotAPacket),
        (&P0[..6], limits(20, false), MapFault::NotAPacket),
        (&[], limits(20, true), MapFault::NotAPacket),
        (&P0[..6], limits(20, true), MapFault::NotAPacket),
    ] {
        let answer = cut_on(&rt, octets, &limits, &mut segments, &before);
        equal(&rt, &answer, &Err(fault));
    }
}

#[test]
fn segments_counted(rt: HostRuntime) {
    let short = Limits {
        max_packet: 6,
        ..limits(20, false)
    };
    for (octets, limits, count) in [
        (&P0[..], limits(3, false), Ok(3)),
        (&P0, limits(7, false), Ok(1)),
        (&LONG_BETWEEN, limits(9, true), Ok(4)),
        (&THREE, limits(20, true), Ok(2)),
        (&THREE, limits(20, false), Err(MapFault::NotAPacket)),
        (&P0, short, Err(MapFault::TooLong)),
    ] {
        assert!(rt; 1 <= limits.part);
        equal(&rt, &segment_count(octets, &limits), &count);
    }
}
