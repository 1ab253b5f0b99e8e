// Cutting packets into segments, each given by its place.

ghost use Rattle.std.specs.Prelude.{◌≡◌, ◌≤◌, ◌<◌, ◌+◌, ◌*◌, [], length, take, drop, Some, None, IfSome, slice_get};
ghost use Rattle.tc_frame.specs.Layout.{flags_code};
ghost use Rattle.map_service.specs.Cutting.{parts_of, segments_of};
ghost use Rattle.map_service.specs.Packets.{rest_in};
ghost use Rattle.sedgechisel.specs.Answers.{status_of, left_by, IsWritten};
ghost use Rattle.sedgechisel.specs.Cuttings.{limits_described, segments_described, segment_described, part_described, flags_for, part_at, part_in, segment_in, segment_at, DescribesSegment};

use crate::numbers::{ABSENT, DAMAGED};
use crate::part::Part;
use map_service::{Limits, group_len, segment_count};
use tc_frame::SegmentFlags;

/// The limits of a sender that cuts packets: the maximum length of a segment's data, at least 1, the maximum
/// length of a packet, and whether a segment may hold several packets, 0 or 1. For C it is `struct
/// sedge_limits`.
#[repr(C)]
#[derive(Clone, Copy)]
pub struct CutLimits {
    /// The maximum length of a segment's data in octets, at least 1.
    pub part: u32,
    /// The maximum length of a packet in octets.
    pub max_packet: u32,
    /// Whether packets that together have at most `part` octets go into one segment, 0 or 1.
    pub blocking: u8,
}

/// Where a segment's data are in the octets, and its flags.
#[derive(Clone, Copy)]
struct Place {
    flags: SegmentFlags,
    from: usize,
    count: usize,
}

/// Writes the number of segments of one packet, or with blocking of one or more packets, one after another.
/// Returns 0, or `SEDGE_DAMAGED`, or the first of `sedge_map_fault` that applies.
#[unsafe(no_mangle)]
#[must_use]
pub extern "C" fn sedge_map_count(octets: &[u8], limits: &CutLimits, segments: &mut usize) -> u8
    ensures { IsWritten length (segments_described limits.now octets.now) segments.old segments.new result }
{
    match limits_from(limits) {
        Ok(described) => written!(segment_count(octets, &described), |count| *segments = count),
        Err(number) => number,
    }
}

/// Writes segment `k`, counted from 0, of the segments that `sedge_map_count` counts: its flags, of
/// `sedge_segment_flags`, and where its data are in the octets. Each call starts from the first packet, so
/// with blocking the time for all segments of n packets grows as n * n. Returns what `sedge_map_count` does,
/// or `SEDGE_ABSENT` if there are fewer segments.
#[unsafe(no_mangle)]
#[must_use]
pub extern "C" fn sedge_map_segment(
    octets: &[u8],
    limits: &CutLimits,
    k: usize,
    flags: &mut u8,
    payload: &mut Part,
) -> u8
    ensures answer { result ≡ status_of (segment_described limits.now octets.now k) }
    ensures flags { flags.new
        ≡ left_by (λ s. flags_code s.header.flags) (segment_described limits.now octets.now k) flags.old }
    ensures place { payload.new
        ≡ left_by (λ p. p) (part_described limits.now octets.now k) payload.old }
    ensures describes { DescribesSegment (segment_described limits.now octets.now k)
        (take payload.new.count (drop payload.new.from octets.now)) }
{
    match limits_from(limits) {
        Ok(described) => match segment_count(octets, &described) {
            Ok(_) => match place_in(octets, described.part as usize, k) {
                Some(place) => {
                    *flags = place.flags.code();
                    *payload = Part {
                        from: place.from,
                        count: place.count,
                    };
                    0
                }
                None => ABSENT,
            },
            Err(fault) => fault.number(),
        },
        Err(number) => number,
    }
}

fn limits_from(limits: &CutLimits) -> Result<Limits, u8>
    ensures { result ≡ limits_described limits.now }
{
    if limits.part == 0 || limits.blocking >= 2 {
        return Err(DAMAGED);
    }
    Ok(Limits {
        part: limits.part,
        max_packet: limits.max_packet,
        maps: 0,
        blocking: limits.blocking == 1,
    })
}

// Segment k of packets.
fn place_in(octets: &[u8], part: usize, k: usize) -> Option<Place>
    requires some_part { 1 ≤ part }
    requires whole { rest_in octets.now ≡ [] }
    ensures there { slice_get (segments_of part 0 octets.now) k
        ≡ segment_at octets.now result }
    ensures place { IfSome result (λ p. part_in p
        ≡ part_at (segments_of part 0 octets.now) k (segment_in octets.now p)) }
{
    let mut rest = octets;
    let mut from = 0;
    let mut left = k;
    'groups: while !rest.is_empty() {
        let len = group_len(rest, part);
        let count = (len - 1) / part + 1;
        if left < count {
            return Some(place_of(octets, from, len, part, left));
        }
        left -= count;
        from += len;
        rest = rest.split_at(len).1;
    }
    None
}

// Part k of the packets that have this many octets from a place on, if there is one.
#[tactic(auto, using(crate::proofs::Pieces::part_stands))]
fn place_of(octets: &[u8], from: usize, len: usize, part: usize, k: usize) -> Place
    requires some_octet { 1 ≤ len }
    requires some_part { 1 ≤ part }
    requires within { from + len ≤ length octets.now }
    requires there { k * part < len }
    ensures there { slice_get (parts_of part 0 (take len (drop from octets.now))) k
        ≡ Some (segment_in octets.now result) }
    ensures from { result.from ≡ from + k * part }
    ensures within { result.from + result.count ≤ length octets.now }
{
    let start = k * part;
    let rest = len - start;
    Place {
        flags: flags_of(k == 0, rest <= part),
        from: from + start,
        count: rest.min(part),
    }
}

fn flags_of(is_first: bool, is_last: bool) -> SegmentFlags
    ensures { result ≡ flags_for is_first is_last }
{
    match (is_first, is_last) {
        (true, true) => SegmentFlags::Alone,
        (true, false) => SegmentFlags::First,
        (false, true) => SegmentFlags::Last,
        (false, false) => SegmentFlags::Continuing,
    }
}
