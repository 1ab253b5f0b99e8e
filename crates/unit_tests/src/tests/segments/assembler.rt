// Segments joined to packets: the rows of the table.

use super::*;
use crate::tests::equal::equal;
use crate::tests::packets::are_packets;
use crate::tests::refusals::again;
use map_service::Dropped::{ClosedMap, Interrupted, NoBeginning, NotAPacket, TooLong};
use tc_frame::SegmentFlags::{Alone, Continuing, First, Last};

const P1: [u8; 7] = [0x10, 0x05, 0xc0, 0x01, 0x00, 0x00, 0xab];

// Takes a segment. If memory is refused, nothing changes, and the repeated call succeeds.
fn takes(
    rt: &(impl Abort + Eprint),
    assembler: &mut Assembler,
    segment: &Segment,
    dropped: Option<Dropped>,
    packets: &[&[u8]],
) {
    match again(rt, MapFault::Memory, || assembler.take(segment)) {
        Ok(taken) => {
            equal(rt, &taken.dropped, &dropped);
            are_packets(rt, taken.packets.as_slice(), packets);
        }
        Err(fault) => equal(rt, &fault.name(), &"none"),
    }
}

// The flags and the MAP of a segment, the range of its data in the test's octets, what it drops, and the
// packets that it completes.
type Row = (
    SegmentFlags,
    u8,
    (usize, usize),
    Option<Dropped>,
    &'static [&'static [u8]],
);

// Takes segments with data from these octets.
fn takes_each(rt: &(impl Abort + Eprint), assembler: &mut Assembler, octets: &[u8], rows: &[Row]) {
    for (flags, map, (from, end), dropped, packets) in rows {
        let payload = octets.get(*from..*end).unwrap_or_default();
        let segment = segment(*flags, *map, payload);
        takes(rt, assembler, &segment, *dropped, packets);
    }
}

// Lets a new assembler take segments with data from P0, P1 and P2.
fn joins(rt: &(impl Abort + Eprint), alloc: Global, limits: Limits, rows: &[Row]) {
    takes_each(rt, &mut Assembler::new(alloc, limits), &THREE, rows);
}

#[test]
fn parts_on_two_maps(rt: HostRuntime) {
    let rows: [Row; 9] = [
        (First, 4, (0, 3), None, &[]),
        (First, 5, (0, 3), None, &[]),
        (Last, 4, (3, 7), None, &[&P0]),
        (Last, 5, (3, 5), Some(NotAPacket), &[]),
        (Continuing, 5, (3, 4), Some(NoBeginning), &[]),
        (First, 4, (0, 1), None, &[]),
        (Alone, 4, (7, 14), Some(Interrupted), &[&P1]),
        (First, 4, (0, 1), None, &[]),
        (Alone, 4, (6, 7), Some(NotAPacket), &[]),
    ];
    joins(&rt, rt.alloc(), limits(7, false), &rows);
}

// A segment that is one packet is returned as it arrived if no part is open on its MAP.
#[test]
fn segments_that_pass(rt: HostRuntime) {
    let mut assembler = Assembler::new(rt.alloc(), limits(7, false));
    for (flags, map, end, passes) in [
        (Alone, 4, 7, true),
        (First, 4, 3, false),
        (Alone, 4, 6, false),
        (Alone, 64, 7, false),
    ] {
        let payload = P0.get(..end).unwrap_or_default();
        is_lone(&rt, &assembler, &segment(flags, map, payload), passes);
    }
    let alone = segment(Alone, 4, &P0);
    takes_each(&rt, &mut assembler, &P0, &[(First, 4, (0, 3), None, &[])]);
    is_lone(&rt, &assembler, &alone, false);
    is_lone(
        &rt,
        &Assembler::new(rt.alloc(), limits(7, true)),
        &alone,
        false,
    );
}

// Checks whether the assembler returns the segment's data as a packet.
fn is_lone(rt: &impl Abort, assembler: &Assembler, segment: &Segment<'_>, passes: bool) {
    let packet = match passes {
        true => Some(segment.payload),
        false => None,
    };
    assert!(rt; assembler.lone_packet(segment) == packet);
}

// The open part grows several times.
#[test]
fn a_part_octet_by_octet(rt: HostRuntime) {
    let rows: [Row; 7] = [
        (First, 63, (0, 1), None, &[]),
        (Continuing, 63, (1, 2), None, &[]),
        (Continuing, 63, (2, 3), None, &[]),
        (Continuing, 63, (3, 4), None, &[]),
        (Continuing, 63, (4, 5), None, &[]),
        (Continuing, 63, (5, 6), None, &[]),
        (Last, 63, (6, 7), None, &[&P0]),
    ];
    joins(&rt, rt.alloc(), limits(7, false), &rows);
}

#[test]
fn a_part_too_long(rt: HostRuntime) {
    let short = Limits {
        max_packet: 7,
        ..limits(7, false)
    };
    let rows: [Row; 3] = [
        (First, 4, (0, 7), None, &[]),
        (Last, 4, (4, 5), Some(TooLong), &[]),
        (Continuing, 4, (4, 5), Some(NoBeginning), &[]),
    ];
    joins(&rt, rt.alloc(), short, &rows);
}

#[test]
fn several_packets_in_a_segment(rt: HostRuntime) {
    let rows: [Row; 4] = [
        (Alone, 4, (0, 14), None, &[&P0, &P1]),
        (Alone, 4, (0, 20), Some(NotAPacket), &[]),
        (First, 4, (0, 10), None, &[]),
        (Last, 4, (10, 14), Some(NotAPacket), &[]),
    ];
    joins(&rt, rt.alloc(), limits(20, true), &rows);
}

// Joins packets in lists in which a single packet takes no memory of its own.
#[test]
fn packets_inline(rt: HostRuntime) {
    let mut assembler = Assembler::new(rt.alloc(), limits(20, true));
    takes_inline(&rt, &mut assembler, &P0, &[&P0]);
    takes_inline(&rt, &mut assembler, &THREE[..14], &[&P0, &P1]);
    takes_inline(&rt, &mut assembler, &[], &[]);
}

// Takes a segment with the flags Alone and this data. It drops the data only if they are not packets.
fn takes_inline(
    rt: &(impl Abort + Eprint),
    assembler: &mut Assembler,
    payload: &[u8],
    packets: &[&[u8]],
) {
    let dropped = match packets.is_empty() {
        true => Some(NotAPacket),
        false => None,
    };
    let segment = segment(Alone, 4, payload);
    match again(rt, MapFault::Memory, || assembler.take_inline(&segment)) {
        Ok(taken) => {
            equal(rt, &taken.dropped, &dropped);
            are_packets(rt, taken.packets.as_slice(), packets);
        }
        Err(fault) => equal(rt, &fault.name(), &"none"),
    }
}

// Limits with which only MAP 4 is open, and packets have at most 7 octets.
fn short(blocking: bool) -> Limits {
    Limits {
        part: 20,
        max_packet: 7,
        maps: 1 << 4,
        blocking,
    }
}

// Covers closed MAPs, an interrupted part, and then parts of 8 octets in each position. If no part is open,
// no segment can be too long for it.
#[test]
fn closed_maps_interruptions_and_long_parts(rt: HostRuntime) {
    let rows: [Row; 14] = [
        (Alone, 5, (0, 7), Some(ClosedMap), &[]),
        (Alone, 64, (0, 7), Some(ClosedMap), &[]),
        (First, 4, (0, 3), None, &[]),
        (First, 4, (7, 9), Some(Interrupted), &[]),
        (Last, 5, (9, 14), Some(ClosedMap), &[]),
        (Last, 4, (9, 14), None, &[&P1]),
        (First, 4, (0, 8), Some(TooLong), &[]),
        (Continuing, 4, (0, 8), Some(NoBeginning), &[]),
        (First, 4, (0, 7), None, &[]),
        (First, 4, (0, 8), Some(TooLong), &[]),
        (Last, 4, (0, 8), Some(NoBeginning), &[]),
        (First, 4, (0, 7), None, &[]),
        (Continuing, 4, (7, 8), Some(TooLong), &[]),
        (Last, 4, (7, 8), Some(NoBeginning), &[]),
    ];
    joins(&rt, rt.alloc(), short(false), &rows);
}

// Without blocking, the length of all data is checked first; with blocking, the length of each packet, once
// all are whole.
#[test]
fn alone_too_long(rt: HostRuntime) {
    let both: [(bool, Dropped, Row); 2] = [
        (false, TooLong, (Alone, 4, (0, 14), Some(TooLong), &[])),
        (true, NotAPacket, (Alone, 4, (0, 14), None, &[&P0, &P1])),
    ];
    for (blocking, of_rest, of_both) in both {
        let mut assembler = Assembler::new(rt.alloc(), short(blocking));
        let rows: [Row; 2] = [
            (Alone, 4, (7, 19), Some(TooLong), &[]),
            (Alone, 4, (0, 20), Some(of_rest), &[]),
        ];
        takes_each(&rt, &mut assembler, &LONG_BETWEEN, &rows);
        takes_each(&rt, &mut assembler, &THREE, &[of_both]);
    }
}
