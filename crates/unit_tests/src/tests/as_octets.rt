// The data fields that `cut` makes of a packet, as octets worked by hand.

ghost use Rattle.std.specs.Prelude.{◌≤◌};

use super::equal::equal;
use super::packets::P0;
use map_service::{Limits, MapFault, cut};
use std::alloc::Global;
use std::process::Abort;
use tc_frame::{Body, Check, Segment, TcFrame, encode};

// Returns a frame that carries the segment, as octets, and its length.
fn written(segment: Segment<'_>) -> ([u8; 16], usize) {
    let frame = TcFrame {
        scid: 1,
        vcid: 2,
        body: Body::Ad { n: 0, segment },
    };
    let mut out = [0; 16];
    let total = encode(&frame, Check::Off, &mut out).unwrap_or_default();
    (out, total)
}

// Checks that there is a segment, and that a frame that carries it has this data field after the 5-octet
// header.
fn is_spelled(rt: &impl Abort, segment: Option<&Segment<'_>>, octets: &[u8]) {
    match segment {
        Some(segment) => {
            let (out, total) = written(*segment);
            assert!(rt; out.get(5..total) == Some(octets));
        }
        None => assert!(rt; false),
    }
}

// Cuts the packet on MAP 4.
fn cut_in(part: u32, segments: &mut Vec<Segment<'static>>) -> Result<(), MapFault>
    requires { 1 ≤ part }
{
    let limits = Limits {
        part,
        max_packet: 65542,
        maps: u64::MAX,
        blocking: false,
    };
    cut(&P0, 4, &limits, segments)
}

// Checks that the packet, cut on MAP 4, has these data fields.
fn is_cut(rt: &impl Abort, alloc: Global, part: u32, fields: &[&[u8]])
    requires { 1 ≤ part }
{
    let mut segments = Vec::new(alloc);
    equal(rt, &cut_in(part, &mut segments), &Ok(()));
    are_spelled(rt, segments.as_slice(), fields);
}

fn are_spelled(rt: &impl Abort, segments: &[Segment<'_>], fields: &[&[u8]]) {
    equal(rt, &segments.len(), &fields.len());
    for (place, field) in fields.iter().enumerate() {
        is_spelled(rt, segments.get(place), field);
    }
}

const PARTS: [&[u8]; 3] = [
    &[0x44, 0x10, 0x05, 0xc0],
    &[0x04, 0x00, 0x00, 0x00],
    &[0x84, 0xaa],
];

const WHOLE: [&[u8]; 1] = [&[0xc4, 0x10, 0x05, 0xc0, 0x00, 0x00, 0x00, 0xaa]];

#[test]
fn segments_as_octets(rt: HostRuntime) {
    is_cut(&rt, rt.alloc(), 3, &PARTS);
    is_cut(&rt, rt.alloc(), 7, &WHOLE);
}
