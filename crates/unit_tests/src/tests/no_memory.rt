// Calls that take no memory. tools/refusals runs these tests with all allocations refused after the words
// 'set up', and tools/accounts checks that none is requested.

ghost use Rattle.std.specs.Prelude.{◌≡◌, ◌≤◌};

use super::equal::equal;
use super::frames::DATA;
use super::packets::P0;
use super::segments::segment;
use super::{frames, packets, telemetry};
use map_service::{Assembler, Dropped, Limits, segment_count};
use space_packet::{GapCheck, PacketSplitter, SequenceCounters, is_packet, packet_len};
use std::process::Abort;
use tc_frame::{Check, Segment, SegmentFlags, TcSplitter, Unchecked};
use tm_link::{Pointer, TmFrame};

// Decodes a packet, encodes it, and returns how many octets were read and written.
fn packet_again(octets: &[u8], out: &mut [u8]) -> Option<(usize, usize)> {
    match space_packet::decode(octets) {
        Ok((packet, len)) => Some((len, space_packet::encode(&packet, out).ok()?)),
        Err(_) => None,
    }
}

fn codes_packets(rt: &impl Abort) {
    let mut out = [0; 7];
    equal(rt, &packet_again(&P0, &mut out), &Some((7, 7)));
    equal(rt, &out, &P0);
    equal(rt, &packet_len(&P0), &Some(7));
    assert!(rt; is_packet(&P0) && !is_packet(&P0[1..]));
}

// Decodes a frame, encodes it, and returns how many octets were written.
fn frame_again(octets: &[u8], out: &mut [u8]) -> Option<usize> {
    match tc_frame::decode(octets, Check::Off) {
        Ok(frame) => tc_frame::encode(&frame, Check::Off, out).ok(),
        Err(_) => None,
    }
}

fn codes_frames(rt: &impl Abort) {
    let mut out = [0; 13];
    equal(rt, &frame_again(&DATA, &mut out), &Some(13));
    equal(rt, &out, &DATA);
    assert!(rt; tc_frame::decode(&DATA, Check::On).is_err());
}

// Decodes a CLCW and encodes it.
fn word_again(octets: [u8; 4]) -> Option<[u8; 4]> {
    match clcw::decode(octets) {
        Ok(word) => clcw::encode(&word).ok(),
        Err(_) => None,
    }
}

fn codes_words(rt: &impl Abort) {
    let octets = [0x01, 0x08, 0x08, 0x02];
    equal(rt, &word_again(octets), &Some(octets));
}

fn codes_telemetry(rt: &impl Abort) {
    let frame = TmFrame {
        payload: &[0x55; 8],
        ..telemetry::frame(Pointer::OnlyIdle)
    };
    let mut out = [0; 20];
    equal(rt, &tm_link::encode(&frame, &mut out), &Ok(20));
    equal(rt, &tm_link::decode(&out, 20), &Ok(frame));
    assert!(rt; tm_link::decode(&out, 19).is_err());
}

#[test]
fn reading_and_writing_takes_no_memory(rt: HostRuntime) {
    let _ = eprintln!(rt; "set up");
    codes_packets(&rt);
    codes_frames(&rt);
    codes_words(&rt);
    codes_telemetry(&rt);
    counts_packets(&rt);
}

// Leaves out the packet with count 3.
fn counts_packets(rt: &impl Abort) {
    let mut counters = SequenceCounters::new();
    let mut gaps = GapCheck::new();
    for (count, gap) in [(0, None), (1, Some(0)), (2, Some(0))] {
        equal(rt, &counters.next(5), &count);
        equal(rt, &gaps.see(5, count), &gap);
    }
    equal(rt, &counters.next(5), &3);
    equal(rt, &gaps.see(5, counters.next(5)), &Some(1));
}

#[test]
fn records_handed_out_takes_no_memory(rt: HostRuntime) {
    let mut of_packets = PacketSplitter::new(rt.alloc());
    let mut of_frames = TcSplitter::<Unchecked>::new(rt.alloc());
    hand_out(&rt, &mut of_packets, &mut of_frames);
}

fn hand_out(
    rt: &(impl Abort + Eprint),
    of_packets: &mut PacketSplitter,
    of_frames: &mut TcSplitter<Unchecked>,
) {
    if of_packets.feed(&P0).is_err() || of_frames.feed(&DATA).is_err() {
        let _ = eprintln!(rt; "refused a growth");
        return;
    }
    let _ = eprintln!(rt; "set up");
    packets::hands_out(rt, of_packets, Some(Ok(&P0)));
    packets::hands_out(rt, of_packets, None);
    packets::ends(rt, of_packets, Ok(()));
    frames::hands_out(rt, of_frames, Some(Ok(&DATA)));
    frames::hands_out(rt, of_frames, None);
    frames::ends(rt, of_frames, Ok(()));
}

const LIMITS: Limits = Limits {
    part: 3,
    max_packet: 7,
    maps: 1,
    blocking: false,
};

// Checks that the segment completes no packet, and what it drops.
fn drops(
    rt: &impl Abort,
    assembler: &mut Assembler,
    segment: &Segment<'_>,
    dropped: Option<Dropped>,
) {
    match assembler.take(segment) {
        Ok(taken) => {
            equal(rt, &taken.dropped, &dropped);
            assert!(rt; taken.packets.is_empty());
        }
        Err(_) => assert!(rt; false),
    }
}

#[test]
fn segments_that_are_dropped_takes_no_memory(rt: HostRuntime) {
    let mut assembler = Assembler::new(rt.alloc(), LIMITS);
    match assembler.take(&segment(SegmentFlags::First, 0, &P0[..3])) {
        Ok(_) => drop_segments(&rt, &mut assembler),
        Err(_) => {
            let _ = eprintln!(rt; "refused a growth");
        }
    }
}

fn drop_segments(rt: &(impl Abort + Eprint), assembler: &mut Assembler) {
    let _ = eprintln!(rt; "set up");
    equal(rt, &segment_count(&P0, &LIMITS), &Ok(3));
    assert!(rt;
        assembler
            .lone_packet(&segment(SegmentFlags::Alone, 0, &P0))
            .is_none()
    );
    for (flags, map, payload, dropped) in [
        (SegmentFlags::Continuing, 0, &P0[3..6], None),
        (SegmentFlags::Alone, 1, &P0, Some(Dropped::ClosedMap)),
        (SegmentFlags::Last, 0, &P0[..3], Some(Dropped::TooLong)),
        (SegmentFlags::Last, 0, &P0[..3], Some(Dropped::NoBeginning)),
        (SegmentFlags::Alone, 0, &P0[..3], Some(Dropped::NotAPacket)),
    ] {
        drops(rt, assembler, &segment(flags, map, payload), dropped);
    }
}
