// Streams fed whole to a cutter, and then one octet while the cutter holds others.

use super::pair::command;
use listings::{Cutter, FrameCutter, FrameLength};
use octets::Splitter;
use space_packet::Packets;
use std::alloc::Global;
use std::process::Abort;
use tc_frame::{Checked, Unchecked};

// Telemetry frames of 20 octets.
struct Twenty;

impl FrameLength for Twenty {
    ghost payload = { 8 };
}

// Feeds a cutter `number` copies of a record without the last octet, then this octet; checks that it delivers
// each.
fn cuts<S: Cutter>(rt: &impl Abort, alloc: Global, cutter: &mut S, record: &[u8], number: usize) {
    let octets = repeated(rt, alloc, record, number);
    feeds(rt, cutter, octets.as_slice());
    for _ in 0..number {
        assert!(rt; hands_out(cutter, record));
    }
    ends(rt, cutter);
}

fn feeds<S: Cutter>(rt: &impl Abort, cutter: &mut S, octets: &[u8]) {
    let (front, last) = octets
        .split_at_checked(octets.len().wrapping_sub(1))
        .unwrap_or_default();
    assert!(rt; cutter.feed(front).is_ok());
    assert!(rt; cutter.feed(last).is_ok());
}

fn ends<S: Cutter>(rt: &impl Abort, cutter: &mut S) {
    assert!(rt; cutter.next().is_none());
    assert!(rt; cutter.finish().is_ok());
}

fn hands_out<S: Cutter>(cutter: &mut S, record: &[u8]) -> bool {
    match cutter.next() {
        Some(Ok(octets)) => octets == record,
        _ => false,
    }
}

fn repeated(rt: &impl Abort, alloc: Global, record: &[u8], number: usize) -> Vec<u8> {
    let mut octets = Vec::new(alloc);
    for _ in 0..number {
        octets.extend_from_slice(record).expect(rt, "records");
    }
    octets
}

// Lengths of a stream: two octets, just over 64 KiB, just over 128 KiB, and the length of 10^6 of the
// shortest packets.
const LENGTHS: [usize; 4] = [2, 65_600, 131_200, 7_000_000];

fn cuts_each_length<S: Cutter + Drop>(rt: &impl Abort, alloc: Global, cutter: S, record: &[u8]) {
    let mut cutter = cutter;
    for length in LENGTHS {
        let number = length.checked_div(record.len()).unwrap_or_default();
        cuts(rt, alloc, &mut cutter, record, number.wrapping_add(1));
    }
}

const UNLOCK: [u8; 6] = [0x30, 0x01, 0x08, 0x05, 0x00, 0x00];

const CHECKED: [u8; 8] = [0x30, 0x01, 0x08, 0x07, 0x00, 0x00, 0x8b, 0x9e];

#[test]
fn frames_fed_whole(rt: HostRuntime) {
    let alloc = rt.alloc();
    cuts_each_length(&rt, alloc, Splitter::<Unchecked>::new(alloc), &UNLOCK);
    cuts_each_length(&rt, alloc, Splitter::<Checked>::new(alloc), &CHECKED);
    cuts_each_length(&rt, alloc, FrameCutter::<Twenty>::new(alloc, 20), &[7; 20]);
}

#[test]
fn packets_fed_whole(rt: HostRuntime) {
    let alloc = rt.alloc();
    for size in [7, 65_542] {
        let packet = command(&rt, alloc, size, 0);
        cuts_each_length(
            &rt,
            alloc,
            Splitter::<Packets>::new(alloc),
            packet.as_slice(),
        );
    }
}
