// Packets in octets, worked by hand, and sequence counts.

ghost use Rattle.std.specs.Prelude.{◌≡◌, ◌<◌, ◌+◌, ◌%◌, Some, vec_len};
ghost use Rattle.space_packet.specs.Counters.{gap_between};

use super::equal::equal;
use super::refusals::again;
use space_packet::*;
use std::alloc::Global;
use std::process::Abort;

/// A command packet of 7 octets, with the sequence count 0.
pub const P0: [u8; 7] = [0x10, 0x05, 0xc0, 0x00, 0x00, 0x00, 0xaa];

fn packet(payload: &[u8]) -> Packet<'_> {
    Packet {
        kind: PacketKind::Telecommand,
        secondary: false,
        apid: 5,
        flags: 3,
        count: 0,
        payload,
    }
}

#[test]
fn a_packet(rt: HostRuntime) {
    equal(&rt, &decode(&P0), &Ok((packet(&[0xaa]), 7)));
    let mut out = [0x55; 9];
    equal(&rt, &written(&packet(&[0xaa]), &mut out), &Ok(7));
    equal(
        &rt,
        &out,
        &[0x10, 0x05, 0xc0, 0x00, 0x00, 0x00, 0xaa, 0x55, 0x55],
    );
}

fn written(packet: &Packet<'_>, out: &mut [u8]) -> Result<usize, PacketFault> {
    encode(packet, out)
}

/// Returns `len` octets. If memory is refused, it requests them again.
pub fn octets_of(rt: &(impl Abort + Eprint), alloc: Global, octet: u8, len: usize) -> Vec<u8>
    ensures { vec_len result ≡ len }
{
    match vec![in alloc; octet; len] {
        Ok(octets) => octets,
        Err(_) => {
            let _ = eprintln!(rt; "refused a growth");
            vec![in alloc; octet; len].expect(rt, "octets")
        }
    }
}

#[test]
fn the_longest_packet(rt: HostRuntime) {
    let mut octets = octets_of(&rt, rt.alloc(), 0x55, 65542);
    octets.as_mut_slice()[..6].copy_from_slice(&[0x10, 0x05, 0xc0, 0x00, 0xff, 0xff]);
    let mut out = octets_of(&rt, rt.alloc(), 0x00, 65542);
    is_written(&rt, octets.as_slice(), out.as_mut_slice());
}

fn is_written(rt: &impl Abort, octets: &[u8], out: &mut [u8]) {
    let (packet, len) = decode(octets).expect(rt, "a packet");
    equal(rt, &len, &65542);
    equal(rt, &packet.payload.len(), &65536);
    equal(rt, &written(&packet, out), &Ok(65542));
    assert!(rt; *out == *octets);
}

#[test]
fn refused_octets(rt: HostRuntime) {
    for (octets, fault) in [
        (&P0[..5], PacketFault::Truncated),
        (&P0[..6], PacketFault::Truncated),
        (b"\x20\x05\xc0\x00\x00\x00\xaa", PacketFault::Version),
        (
            b"\x0f\xff\xc0\x00\x00\x00\x55",
            PacketFault::IdleWithSecondary,
        ),
    ] {
        equal(&rt, &decode(octets).err(), &Some(fault));
    }
}

// Feeds the octets. If memory is refused, nothing changes, and the repeated call succeeds.
fn feed(rt: &(impl Abort + Eprint), splitter: &mut PacketSplitter, octets: &[u8]) {
    let fed = again(rt, PacketFault::Memory, || splitter.feed(octets));
    equal(rt, &fed, &Ok(()));
}

/// Checks that these packets, in this order, were extracted.
pub fn are_packets(rt: &impl Abort, packets: &[Vec<u8>], wanted: &[&[u8]]) {
    equal(rt, &packets.len(), &wanted.len());
    for (place, is) in wanted.iter().enumerate() {
        assert!(rt; is_packet_at(packets, place, is));
    }
}

fn is_packet_at(packets: &[Vec<u8>], place: usize, is: &[u8]) -> bool {
    match packets.get(place) {
        Some(packet) => packet.as_slice() == is,
        None => false,
    }
}

/// Checks the next packet, or the fault of its header.
pub fn hands_out(
    rt: &impl Abort,
    splitter: &mut PacketSplitter,
    packet: Option<Result<&[u8], PacketFault>>,
) {
    equal(rt, &splitter.next(), &packet);
}

/// Checks whether the stream may end here.
pub fn ends(rt: &impl Abort, splitter: &PacketSplitter, answer: Result<(), PacketFault>) {
    equal(rt, &splitter.finish(), &answer);
}

#[test]
fn a_packet_octet_by_octet(rt: HostRuntime) {
    let mut splitter = PacketSplitter::new(rt.alloc());
    for octet in P0 {
        hands_out(&rt, &mut splitter, None);
        feed(&rt, &mut splitter, &[octet]);
    }
    hands_out(&rt, &mut splitter, Some(Ok(P0.as_slice())));
    hands_out(&rt, &mut splitter, None);
    ends(&rt, &splitter, Ok(()));
}

#[test]
fn a_stream_cut_short(rt: HostRuntime) {
    let mut splitter = PacketSplitter::new(rt.alloc());
    feed(&rt, &mut splitter, &[0x10]);
    feed(&rt, &mut splitter, &[0x05, 0xc0]);
    hands_out(&rt, &mut splitter, None);
    ends(&rt, &splitter, Err(PacketFault::Truncated));
}

// Proves, for any caller, that the counts of two packets are one apart.
fn two_counts(counters: &mut SequenceCounters, apid: u16) -> (u16, u16)
    requires { apid < 2048 }
    ensures { result.1 ≡ (result.0 + 1) % 16384 }
{
    let first = counters.next(apid);
    (first, counters.next(apid))
}

// Proves, for any caller, that a gap is counted from the last packet of its APID.
fn gap_of_two(check: &mut GapCheck, apid: u16, last: u16, count: u16) -> Option<u16>
    requires { apid < 2048 }
    ensures { result ≡ Some (gap_between last count) }
{
    check.see(apid, last);
    check.see(apid, count)
}

#[test]
fn an_idle_packet(rt: HostRuntime) {
    for (apid, is_idle) in [(0, false), (2046, false), (2047, true)] {
        equal(&rt, &is_idle_apid(apid), &is_idle);
    }
}

#[test]
fn counts(rt: HostRuntime) {
    let mut counters = SequenceCounters::new();
    equal(&rt, &counters.next(5), &0);
    for _ in 2..16384u16 {
        counters.next(5);
    }
    for (apid, count) in [(5, 16383), (5, 0), (6, 0)] {
        equal(&rt, &counters.next(apid), &count);
    }
    equal(&rt, &two_counts(&mut counters, 2047), &(0, 1));
}

#[test]
fn gaps(rt: HostRuntime) {
    let mut check = GapCheck::new();
    for (apid, count, gap) in [
        (5, 0, None),
        (5, 1, Some(0)),
        (5, 3, Some(1)),
        (5, 3, Some(16383)),
        (2047, 3, None),
    ] {
        equal(&rt, &check.see(apid, count), &gap);
    }
    equal(&rt, &gap_of_two(&mut check, 2047, 16383, 1), &Some(1));
    equal(&rt, &[gap_between(0, 1), gap_between(1, 3)], &[0, 1]);
}
