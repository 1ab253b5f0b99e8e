// Telemetry frames, in octets worked by hand.

use super::equal::equal;
use super::packets::{are_packets, octets_of};
use super::refusals::{again, says_refused};
use std::alloc::Global;
use std::process::Abort;
use tm_link::Gap::{First, Lost};
use tm_link::*;

// The frame of only idle data with 16 octets, without its FECF.
const IDLE: [u8; 14] = [
    0x00, 0x11, 0x00, 0x00, 0x1f, 0xfe, 0x55, 0x55, 0x55, 0x55, 0x01, 0x08, 0x00, 0x00,
];

// Packets of 7 octets, with the sequence counts 0 to 3.
const FOUR: [&[u8]; 4] = [
    &[0x00, 0x05, 0xc0, 0x00, 0x00, 0x00, 0xaa],
    &[0x00, 0x05, 0xc0, 0x01, 0x00, 0x00, 0xbb],
    &[0x00, 0x05, 0xc0, 0x02, 0x00, 0x00, 0xcc],
    &[0x00, 0x05, 0xc0, 0x03, 0x00, 0x00, 0xdd],
];

// A packet of 16 octets.
const LONG: [u8; 16] = [
    0x00, 0x05, 0xc0, 0x00, 0x00, 0x09, 0xaa, 0xaa, 0xaa, 0xaa, 0xaa, 0xaa, 0xaa, 0xaa, 0xaa, 0xaa,
];

/// Returns a frame with this pointer and with counts of 0.
pub fn frame(pointer: Pointer) -> TmFrame<'static> {
    TmFrame {
        scid: 1,
        vcid: 0,
        mc_count: 0,
        vc_count: 0,
        pointer,
        payload: &[0x55; 4],
        ocf: [0x01, 0x08, 0x00, 0x00],
    }
}

#[test]
fn headers(rt: HostRuntime) {
    for (pointer, last) in [
        (Pointer::At(0), [0x18, 0x00]),
        (Pointer::OnlyIdle, [0x1f, 0xfe]),
        (Pointer::NoStart, [0x1f, 0xff]),
    ] {
        is_spelled(&rt, pointer, &last);
    }
}

// Checks that the header of a frame with this pointer ends with these octets. Octets after the frame do not
// change.
fn is_spelled(rt: &impl Abort, pointer: Pointer, last: &[u8]) {
    let mut out = [0xee_u8; 20];
    equal(rt, &written(pointer, &mut out), &Some(16));
    assert!(rt; has_header(&out, last));
    reads(rt, &out[..16], frame(pointer));
}

fn has_header(out: &[u8; 20], last: &[u8]) -> bool {
    out.starts_with(&IDLE[..4])
        && out[4..].starts_with(last)
        && out[16..].iter().all(|octet| *octet == 0xee)
}

fn reads(rt: &impl Abort, octets: &[u8], frame: TmFrame<'_>) {
    equal(rt, &decode(octets, octets.len()), &Ok(frame));
}

// Writes a frame with this pointer and returns its length.
fn written(pointer: Pointer, out: &mut [u8]) -> Option<usize> {
    encode(&frame(pointer), out).ok()
}

#[test]
fn an_idle_frame(rt: HostRuntime) {
    let mut out = [0; 16];
    equal(&rt, &written(Pointer::OnlyIdle, &mut out), &Some(16));
    assert!(rt; out.starts_with(&IDLE));
    reports(&rt, frame(Pointer::OnlyIdle));
    builds_idle(&rt, &mut builder_of(&rt, rt.alloc(), 16, &[]));
}

fn reports(rt: &impl Abort, frame: TmFrame<'_>) {
    let report = frame.report().expect(rt, "a report");
    equal(rt, &(report.vcid, report.value), &(2, 0));
}

fn builds_idle(rt: &impl Abort, builder: &mut TmBuilder) {
    let mut out = [0xee; 2048];
    equal(rt, &builder.build([0x01, 0x08, 0x00, 0x00], &mut out), &16);
    assert!(rt; out.starts_with(&IDLE));
}

#[test]
fn faults(rt: HostRuntime) {
    let mut octets = [0; 16];
    equal(&rt, &written(Pointer::At(0), &mut octets), &Some(16));
    for (octets, length) in [(&octets[..], 17), (&octets[..15], 15)] {
        equal(&rt, &fault_of(octets, length), &Some(TmFault::Length));
    }
    for (place, octet, fault) in [
        (0, 0x40, TmFault::Version),
        (4, 0x98, TmFault::Status),
        (4, 0x10, TmFault::Status),
        (5, 0x04, TmFault::Pointer),
        (1, 0x10, TmFault::NoOcf),
    ] {
        let mut damaged = octets;
        damaged[place] = octet;
        if place != 0 {
            equal(&rt, &fault_of(&damaged, 16), &Some(TmFault::Check));
        }
        octets::append_check(&mut damaged);
        equal(&rt, &fault_of(&damaged, 16), &Some(fault));
    }
}

fn fault_of(octets: &[u8], length: usize) -> Option<TmFault> {
    decode(octets, length).err()
}

#[test]
fn refusals(rt: HostRuntime) {
    let mut out = [0; 15];
    equal(
        &rt,
        &encode(&frame(Pointer::At(4)), &mut out),
        &Err(TmFault::FieldRange),
    );
    equal(
        &rt,
        &encode(&frame(Pointer::At(3)), &mut out),
        &Err(TmFault::Room),
    );
}

// Returns a builder of frames of this length, with these packets queued.
fn builder_of(
    rt: &(impl Abort + Eprint),
    alloc: Global,
    length: usize,
    packets: &[&[u8]],
) -> TmBuilder {
    let mut builder = TmBuilder::new(alloc, 1, 0, length).expect(rt, "a builder");
    for packet in packets {
        queue(rt, &mut builder, packet);
    }
    builder
}

// Checks the data field and the pointer of each frame of 20 octets that a builder makes of packets.
fn builds(
    rt: &(impl Abort + Eprint),
    alloc: Global,
    packets: &[&[u8]],
    frames: &[(&[u8; 8], Pointer)],
) {
    let mut builder = builder_of(rt, alloc, 20, packets);
    for (number, (payload, pointer)) in (0..=255u8).zip(frames) {
        let frame = TmFrame {
            mc_count: number,
            vc_count: number,
            payload: payload.as_slice(),
            ..frame(*pointer)
        };
        builds_one(rt, &mut builder, frame);
    }
}

// Checks that the next frame, of 20 octets, is this one. Octets after it do not change.
fn builds_one(rt: &impl Abort, builder: &mut TmBuilder, frame: TmFrame<'_>) {
    let mut out = [0xee; 2048];
    assert_eq!(rt; builder.build(frame.ocf, &mut out), 20);
    equal(rt, &out[20], &0xee);
    reads(rt, &out[..20], frame);
}

// Queues a packet. If memory is refused, nothing changes, and the repeated call succeeds.
fn queue(rt: &(impl Abort + Eprint), builder: &mut TmBuilder, packet: &[u8]) {
    let queued = again(rt, TmFault::Memory, || builder.queue(packet));
    equal(rt, &queued, &Ok(()));
}

// The frames of FOUR. The last ends within an idle packet, which continues in the next frame.
const FRAMES_OF_FOUR: [(&[u8; 8], Pointer); 4] = [
    (b"\x00\x05\xc0\x00\x00\x00\xaa\x00", Pointer::At(0)),
    (b"\x05\xc0\x01\x00\x00\xbb\x00\x05", Pointer::At(6)),
    (b"\xc0\x02\x00\x00\xcc\x00\x05\xc0", Pointer::At(5)),
    (b"\x03\x00\x00\xdd\x07\xff\xc0\x00", Pointer::At(4)),
];

// The frames of the first packet of FOUR, with idle packets after it.
const FRAMES_OF_ONE: [(&[u8; 8], Pointer); 8] = [
    (b"\x00\x05\xc0\x00\x00\x00\xaa\x07", Pointer::At(0)),
    (b"\xff\xc0\x00\x00\x00\x55\x07\xff", Pointer::At(6)),
    (b"\xc0\x00\x00\x00\x55\x07\xff\xc0", Pointer::At(5)),
    (b"\x00\x00\x00\x55\x07\xff\xc0\x00", Pointer::At(4)),
    (b"\x00\x00\x55\x07\xff\xc0\x00\x00", Pointer::At(3)),
    (b"\x00\x55\x07\xff\xc0\x00\x00\x00", Pointer::At(2)),
    (b"\x55\x07\xff\xc0\x00\x00\x00\x55", Pointer::At(1)),
    (b"\x55\x55\x55\x55\x55\x55\x55\x55", Pointer::OnlyIdle),
];

#[test]
fn packets_in_frames(rt: HostRuntime) {
    builds(&rt, rt.alloc(), &FOUR, &FRAMES_OF_FOUR);
}

#[test]
fn idle_packets_in_frames(rt: HostRuntime) {
    builds(&rt, rt.alloc(), &FOUR[..1], &FRAMES_OF_ONE);
}

#[test]
fn counts_that_were_kept(rt: HostRuntime) {
    let mut builder = TmBuilder::with_counts(rt.alloc(), 1, 0, 20, 7, 255).expect(&rt, "a builder");
    for (mc_count, vc_count) in [(7, 255), (8, 0)] {
        equal(&rt, &builder.mc_count(), &mc_count);
        equal(&rt, &builder.vc_count(), &vc_count);
        let frame = TmFrame {
            mc_count,
            vc_count,
            payload: &[0x55; 8],
            ..frame(Pointer::OnlyIdle)
        };
        builds_one(&rt, &mut builder, frame);
    }
}

#[test]
fn what_is_not_queued(rt: HostRuntime) {
    for (vcid, length) in [(8, 20), (0, 15)] {
        let fault = TmBuilder::new(rt.alloc(), 1, vcid, length).err();
        equal(&rt, &fault, &Some(TmFault::FieldRange));
    }
    queues_nothing(&rt, &mut builder_of(&rt, rt.alloc(), 2048, &[]));
}

fn queues_nothing(rt: &impl Abort, builder: &mut TmBuilder) {
    let idle = [0x07, 0xff, 0xc0, 0x00, 0x00, 0x00, 0x55];
    equal(rt, &builder.queue(&idle), &Err(TmFault::NotAPacket));
    let two = [0x00, 0x05, 0xc0, 0x00, 0x00, 0x00, 0xaa, 0x00];
    equal(rt, &builder.queue(&two), &Err(TmFault::NotAPacket));
    let mut out = [0; 2048];
    equal(rt, &builder.build([0; 4], &mut out), &2048);
    equal(rt, &pointer_of(&out), &Some(Pointer::OnlyIdle));
}

fn pointer_of(octets: &[u8]) -> Option<Pointer> {
    match decode(octets, octets.len()) {
        Ok(frame) => Some(frame.pointer),
        Err(_) => None,
    }
}

// A builder, an extractor for its frames, and the packets that were extracted.
#[derive(Drop)]
struct Passage {
    builder: TmBuilder,
    extractor: Extractor,
    found: Vec<Vec<u8>>,
}

fn passage_from(rt: &(impl Abort + Eprint), alloc: Global, builder: TmBuilder) -> Passage {
    Passage {
        builder,
        extractor: extractor(rt, alloc),
        found: Vec::new(alloc),
    }
}

// Returns a new extractor. If memory is refused, the call is made again.
fn extractor(rt: &(impl Abort + Eprint), alloc: Global) -> Extractor {
    again(rt, TmFault::Memory, || Extractor::new(alloc)).expect(rt, "an extractor")
}

// Takes a frame. If memory is refused, no packet is added, and the call is made again.
fn take(rt: &(impl Abort + Eprint), passage: &mut Passage, octets: &[u8]) -> Result<Gap, TmFault> {
    let frame = decode(octets, octets.len())?;
    let count = passage.found.len();
    match passage.extractor.frame(&frame, &mut passage.found) {
        Ok(gap) => Ok(gap),
        Err(fault) => {
            says_refused(rt, fault, TmFault::Memory);
            equal(rt, &passage.found.len(), &count);
            passage.extractor.frame(&frame, &mut passage.found)
        }
    }
}

// Checks the gap and the number of packets after each of these frames of a builder, and the packets at the
// end.
fn extracts(
    rt: &(impl Abort + Eprint),
    alloc: Global,
    packets: &[&[u8]],
    chosen: &[(u8, Gap, usize)],
    wanted: &[&[u8]],
) {
    let mut passage = passage_from(rt, alloc, builder_of(rt, alloc, 20, packets));
    for number in 0..8 {
        extracts_one(rt, &mut passage, number, chosen);
    }
    are_packets(rt, passage.found.as_slice(), wanted);
}

// Builds the next frame, which has this number, and takes it if it is among the chosen ones.
fn extracts_one(
    rt: &(impl Abort + Eprint),
    passage: &mut Passage,
    number: u8,
    chosen: &[(u8, Gap, usize)],
) {
    let mut out = [0; 2048];
    passage.builder.build([0x01, 0x08, 0x00, 0x00], &mut out);
    for (count, gap, packets) in chosen {
        if *count == number {
            finishes(rt, passage, &out, *gap, *packets);
        }
    }
}

// Takes a frame of 20 octets, and checks the gap before it and the number of packets after it.
fn finishes(
    rt: &(impl Abort + Eprint),
    passage: &mut Passage,
    out: &[u8; 2048],
    gap: Gap,
    packets: usize,
) {
    equal(rt, &take(rt, passage, &out[..20]), &Ok(gap));
    equal(rt, &passage.found.len(), &packets);
}

#[test]
fn a_lost_frame(rt: HostRuntime) {
    let chosen = [(0, First, 1), (2, Lost(1), 1), (3, Lost(0), 2)];
    let found = [FOUR[0], FOUR[3]];
    extracts(&rt, rt.alloc(), &FOUR, &chosen, &found);
}

#[test]
fn a_frame_that_finishes_two_packets(rt: HostRuntime) {
    let packets: [&[u8]; 2] = [
        &[0x00, 0x05, 0xc0, 0x00, 0x00, 0x02, 0xaa, 0xab, 0xac],
        &[0x00, 0x05, 0xc0, 0x01, 0x00, 0x00, 0xbb],
    ];
    let chosen = [(0, First, 0), (1, Lost(0), 2)];
    extracts(&rt, rt.alloc(), &packets, &chosen, &packets);
}

#[test]
fn idle_packets_are_not_handed_out(rt: HostRuntime) {
    let chosen = [
        (0, First, 1),
        (1, Lost(0), 1),
        (2, Lost(0), 1),
        (3, Lost(0), 1),
        (4, Lost(0), 1),
        (5, Lost(0), 1),
        (6, Lost(0), 1),
        (7, Lost(0), 1),
    ];
    extracts(&rt, rt.alloc(), &FOUR[..1], &chosen, &FOUR[..1]);
}

#[test]
fn parts_across_a_gap(rt: HostRuntime) {
    let chosen = [(0, First, 0), (3, Lost(2), 0)];
    extracts(&rt, rt.alloc(), &[&LONG, &LONG], &chosen, &[]);
}

#[test]
fn a_frame_of_only_idle_data_between_halves(rt: HostRuntime) {
    let builder = builder_of(&rt, rt.alloc(), 20, &[]);
    let mut passage = passage_from(&rt, rt.alloc(), builder);
    for (vc_count, pointer, payload, packets) in [
        (0, Pointer::At(0), &LONG[..8], 0),
        (1, Pointer::OnlyIdle, &[0x55; 8], 0),
        (2, Pointer::NoStart, &LONG[8..], 0),
        (3, Pointer::At(0), &LONG[..8], 0),
        (4, Pointer::NoStart, &LONG[8..], 1),
    ] {
        let frame = TmFrame {
            vc_count,
            payload,
            ..frame(pointer)
        };
        takes(&rt, &mut passage, &frame);
        equal(&rt, &passage.found.len(), &packets);
    }
}

fn takes(rt: &(impl Abort + Eprint), passage: &mut Passage, frame: &TmFrame<'_>) {
    let mut out = [0; 20];
    equal(rt, &encode(frame, &mut out), &Ok(20));
    assert!(rt; take(rt, passage, &out).is_ok());
}

#[test]
fn a_packet_across_many_frames(rt: HostRuntime) {
    let mut packet = octets_of(&rt, rt.alloc(), 0x5a, 65542);
    packet.as_mut_slice()[..6].copy_from_slice(&[0x00, 0x05, 0xc0, 0x00, 0xff, 0xff]);
    goes_across(&rt, rt.alloc(), packet.as_slice());
}

fn goes_across(rt: &(impl Abort + Eprint), alloc: Global, packet: &[u8]) {
    let mut passage = passage_from(rt, alloc, builder_of(rt, alloc, 2048, &[packet]));
    for _ in 0..32 {
        goes_on(rt, &mut passage);
        equal(rt, &passage.found.len(), &0);
    }
    goes_on(rt, &mut passage);
    are_packets(rt, passage.found.as_slice(), &[packet]);
}

// Builds a frame of 2,048 octets and takes it.
fn goes_on(rt: &(impl Abort + Eprint), passage: &mut Passage) {
    let mut out = [0; 2048];
    equal(rt, &passage.builder.build([0; 4], &mut out), &2048);
    assert!(rt; take(rt, passage, &out).is_ok());
}

// A packet spans two frames, and the first of them is taken.
#[test]
fn building_and_waiting_takes_no_memory(rt: HostRuntime) {
    let packet = [0x00, 0x05, 0xc0, 0x00, 0x00, 0x02, 0xaa, 0xab, 0xac];
    let builder = builder_of(&rt, rt.alloc(), 20, &[&packet]);
    waits(&rt, &mut passage_from(&rt, rt.alloc(), builder));
}

fn waits(rt: &(impl Abort + Eprint), passage: &mut Passage) {
    let _ = eprintln!(rt; "set up");
    let mut out = [0; 2048];
    assert_eq!(rt;
        passage.builder.build([0x01, 0x08, 0x00, 0x00], &mut out),
        20
    );
    equal(rt, &pointer_of(&out[..20]), &Some(Pointer::At(0)));
    finishes(rt, passage, &out, First, 0);
}
