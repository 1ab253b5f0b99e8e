// Cuts packets into segments, and counts the segments.

ghost use Rattle.std.specs.Prelude.{◌≡◌, ◌≤◌, ◌<◌, ◌++◌, ℕ, [], ◌∷◌, length, take, option_map, Err, None};
ghost use Rattle.std.specs.Prelude.{IfSome, IfOk, IsOk, IsOkUnless, OnOk, OnErr};
ghost use Rattle.std.specs.List.{concat};
ghost use Rattle.tc_frame.specs.Layout.{segment_view};
ghost use Rattle.map_service.specs.Cutting.{segment_views, segment_with, alone_segment, parts_of, longest_run, first_group, segments_of, cut_fault};
ghost use Rattle.map_service.specs.Packets.{packets_in, rest_in};

use crate::fault::MapFault;
use crate::limits::Limits;
use crate::packets::cut_fault;
use space_packet::packet_len;
use tc_frame::{Segment, SegmentFlags, SegmentHeader};

/// Adds the segments of one packet, or with blocking of one or more packets one after another, on this MAP,
/// which is below 64 (CCSDS 232.0-B-4, 4.1.3.2.2). The segments borrow the octets. A packet of more than
/// `part` octets is cut into parts of exactly `part` octets, except the last, which has 1 to `part`. With
/// blocking, each longest run of other packets, from the left, with at most `part` octets together goes into
/// one segment. Refuses, with the first that applies: 1 `NotAPacket` (not exactly one packet, or with
/// blocking not one or more whole packets), 2 `TooLong` (a packet over `max_packet`), 3 `Memory`. The
/// segments are then unchanged.
/// Faults: 1 NotAPacket, 2 TooLong, 3 Memory. Memory: yes. Cost: the number of packets and segments.
pub fn cut<'a>(
    octets: &'a [u8],
    map: u8,
    limits: &Limits,
    segments: &mut Vec<Segment<'a>>,
) -> Result<(), MapFault>
    requires on_a_map { map < 64 }
    requires some_part { 1 ≤ limits.now.part }
    ensures ok { OnOk result (segment_views segments.new.items
        ≡ segment_views segments.old.items ++ segments_of limits.now.part map octets.now) }
    ensures err { OnErr result (segments.new.items ≡ segments.old.items) }
    ensures refused { IfSome (cut_fault limits.now octets.now) (λ fault. result ≡ Err fault) }
    ensures memory { cut_fault limits.now octets.now ≡ None → IsOkUnless result MapFault.Memory }
{
    if let Some(fault) = cut_fault(limits, octets) {
        return Err(fault);
    }
    cut_packets(octets, map, limits.part as usize, segments)
}

/// Adds the segments of whole packets, as `cut` does, if the octets are known to be whole packets. On a fault
/// the segments are unchanged.
/// Faults: 3 Memory. Memory: yes. Cost: the number of packets and segments.
pub fn cut_packets<'a>(
    octets: &'a [u8],
    map: u8,
    part: usize,
    segments: &mut Vec<Segment<'a>>,
) -> Result<(), MapFault>
    requires some_part { 1 ≤ part }
    requires whole { rest_in octets.now ≡ [] }
    ensures ok { OnOk result (segment_views segments.new.items
        ≡ segment_views segments.old.items ++ segments_of part map octets.now) }
    ensures err { OnErr result (segments.new.items ≡ segments.old.items) }
    ensures memory { IsOkUnless result MapFault.Memory }
{
    let before = segments.len();
    let mut rest = octets;
    'groups: while !rest.is_empty() {
        let (group, behind) = rest.split_at(group_len(rest, part));
        let Ok(()) = append_parts(group, map, part, segments) else {
            segments.truncate(before);
            return Err(MapFault::Memory);
        };
        rest = behind;
    }
    Ok(())
}

/// Returns the octets as one segment on this MAP, flagged alone, if there are at most `part` octets;
/// otherwise `None`.
pub fn alone_segment(octets: &[u8], map: u8, part: usize) -> Option<Segment<'_>>
    ensures { option_map segment_view result ≡ alone_segment part map octets.now }
{
    if octets.len() > part {
        return None;
    }
    Some(segment_with(SegmentFlags::Alone, map, octets))
}

fn segment_with(flags: SegmentFlags, map: u8, payload: &[u8]) -> Segment<'_>
    ensures { segment_view result ≡ segment_with flags map payload.now }
{
    let header = SegmentHeader { flags, map };
    Segment { header, payload }
}

fn append<'a>(segment: Segment<'a>, segments: &mut Vec<Segment<'a>>) -> Result<(), MapFault>
    ensures ok { OnOk result (segment_views segments.new.items
        ≡ segment_views segments.old.items ++ segment_view segment.entry ∷ []) }
    ensures before { take (length segments.old.items) segments.new.items ≡ segments.old.items }
{
    if segments.push(segment).is_err() {
        return Err(MapFault::Memory);
    }
    Ok(())
}

fn append_parts<'a>(
    octets: &'a [u8],
    map: u8,
    part: usize,
    segments: &mut Vec<Segment<'a>>,
) -> Result<(), MapFault>
    requires some_octet { 1 ≤ length octets.now }
    requires some_part { 1 ≤ part }
    ensures ok { OnOk result (segment_views segments.new.items
        ≡ segment_views segments.old.items ++ parts_of part map octets.now) }
    ensures before { take (length segments.old.items) segments.new.items ≡ segments.old.items }
{
    if let Some(segment) = alone_segment(octets, map, part) {
        return append(segment, segments);
    }
    let (first, mut rest) = octets.split_at(part);
    append(segment_with(SegmentFlags::First, map, first), segments)?;
    'parts: while rest.len() > part {
        let (piece, behind) = rest.split_at(part);
        append(segment_with(SegmentFlags::Continuing, map, piece), segments)?;
        rest = behind;
    }
    append(segment_with(SegmentFlags::Last, map, rest), segments)
}

// The number of octets in the longest run of the first packets.
fn run_len(octets: &[u8], part: usize) -> usize
    ensures run { result ≡ length (concat (longest_run part (packets_in octets.now))) }
    ensures within { result ≤ length octets.now }
{
    let mut rest = octets;
    let mut len = 0;
    'packets: while let Some(next) = packet_len(rest) {
        if next > part - len {
            return len;
        }
        len += next;
        rest = rest.split_at(next).1;
    }
    len
}

/// Returns the number of octets of the packets that go into the first segment together, or of the first
/// packet if it has more than `part` octets.
/// Cost: the number of packets in it.
pub fn group_len(octets: &[u8], part: usize) -> usize
    requires some_octet { 1 ≤ length octets.now }
    requires whole { rest_in octets.now ≡ [] }
    ensures group { result ≡ length (concat (first_group part (packets_in octets.now))) }
    ensures some { 1 ≤ result }
    ensures within { result ≤ length octets.now }
{
    match packet_len(octets) {
        Some(len) => {
            if len > part {
                return len;
            }
            len + run_len(octets.split_at(len).1, part - len)
        }
        None => unreachable!(),
    }
}

/// Returns the number of segments that `cut` makes from these octets, on any MAP. Refuses as `cut` does.
/// Faults: 1 NotAPacket, 2 TooLong. Cost: the number of packets.
pub fn segment_count(octets: &[u8], limits: &Limits) -> Result<usize, MapFault>
    requires some_part { 1 ≤ limits.now.part }
    ensures count { IfOk result (λ n. (m : ℕ)
        → n ≡ length (segments_of limits.now.part m octets.now)) }
    ensures refused { IfSome (cut_fault limits.now octets.now) (λ fault. result ≡ Err fault) }
    ensures ok { cut_fault limits.now octets.now ≡ None → IsOk result }
{
    if let Some(fault) = cut_fault(limits, octets) {
        return Err(fault);
    }
    Ok(count_segments(octets, limits.part as usize))
}

fn count_segments(octets: &[u8], part: usize) -> usize
    requires some_part { 1 ≤ part }
    requires whole { rest_in octets.now ≡ [] }
    ensures { (m : ℕ) → result ≡ length (segments_of part m octets.now) }
{
    let mut rest = octets;
    let mut count = 0;
    'groups: while !rest.is_empty() {
        let (group, behind) = rest.split_at(group_len(rest, part));
        count += (group.len() - 1) / part + 1;
        rest = behind;
    }
    count
}
