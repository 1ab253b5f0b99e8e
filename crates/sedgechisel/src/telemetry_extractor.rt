// Extracting packets from telemetry frames, in the caller's memory.

ghost use Rattle.std.specs.Prelude.{◌≡◌, ◌≤◌, ◌+◌, ◌++◌, ◌==◌, ◌&&◌, ◌||◌, [], ◌∷◌, length, take, drop, true, not, nat_lt, is_some, IfSome, IfNone, OnOk, OnErr, if◌then◌else◌};
ghost use Rattle.space_packet.specs.Packets.{rest_in};
ghost use Rattle.tm_link.specs.Extractor.{completed_packet, continued_part, opened_part, part_after, without_idle};
ghost use Rattle.tm_link.specs.Layout.{pointer_fits};
ghost use Rattle.sedgechisel.specs.Answers.{status_of};
ghost use Rattle.sedgechisel.specs.Extractors.{is_extractor, extracted_at, extracted_described, DescribesExtracted, GoesOn, StandsAfter, last_of, place_over_gap, gap_at, is_extracted, packets_from, octets_at, need_of, joined_by, joined_len, ending_after};
ghost use Rattle.sedgechisel.specs.Extractors.{IsKept};

use crate::assembly::add;
use crate::numbers::DAMAGED;
use crate::part::Part;
use crate::telemetry_frame::{TelemetryFrame, pointer_from};
use space_packet::packet_len;
use tm_link::{
    Ending, Gap, Pointer, TmFault, ending_with, gap_before, is_idle_with, is_lost,
    rest_after_packets,
};

/// An extractor of packets (CCSDS 132.0-B-3, 4.3.2): where the part of a packet is in the memory, the last
/// frame's count, and whether there was a frame. For C it is `struct sedge_tm_extractor`.
#[repr(C)]
#[derive(Clone, Copy)]
pub struct KeptExtractor {
    /// Where the part is in the memory.
    pub from: usize,
    /// The number of octets of the part, or 0 if there is none.
    pub count: usize,
    /// The virtual channel frame count of the last frame, if one was seen.
    pub last: u8,
    /// Whether a frame was seen, 0 or 1.
    pub seen: u8,
}

/// The outcome of a frame: the packets that it ends or contains, and how many frames are missing before it.
/// For C it is `struct sedge_tm_extracted`.
#[repr(C)]
#[derive(Clone, Copy)]
pub struct TakenFrame {
    /// The length of the packet at the beginning of the memory, or 0 if there is none.
    pub joined: usize,
    /// Where `sedge_tm_packet` begins in the frame's data.
    pub packets: Part,
    /// Whether this is the first frame, 0 or 1.
    pub first: u8,
    /// The number of frames missing before it, modulo 256, or 0 for the first (4.1.2.6).
    pub lost: u8,
}

/// Takes the next frame that arrived from the spacecraft on the virtual channel: its fields and its data, as
/// `sedge_tm_decode` writes them. Use its packets before the next call:
///
///     if (extracted.joined > 0) use_packet(memory, extracted.joined);
///     struct sedge_part packet = extracted.packets;
///     while (sedge_tm_packet(data, data_count, &packet)) use_packet(data + packet.from, packet.count);
///
/// If frames are missing, the part before them is dropped. Returns 0, or the first of `SEDGE_DAMAGED`,
/// `SEDGE_TM_FIELD_RANGE` (the pointer is after the data) and `SEDGE_TM_MEMORY` (the packet that the frame
/// ends and the part that it leaves do not fit in the memory). A refused frame counts as missing when the
/// next one arrives.
#[unsafe(no_mangle)]
#[must_use]
pub extern "C" fn sedge_tm_extractor_frame(
    extractor: &mut KeptExtractor,
    frame: &TelemetryFrame,
    payload: &[u8],
    memory: &mut [u8],
    extracted: &mut TakenFrame,
) -> u8
    ensures answer { result
        ≡ status_of (extracted_at extractor.old frame.now payload.now memory.old) }
    ensures describes { DescribesExtracted
        (extracted_at extractor.old frame.now payload.now memory.old)
        (extracted_described extractor.new extracted.new memory.new payload.now) }
    ensures extractor { OnOk (extracted_at extractor.old frame.now payload.now memory.old)
        (is_extractor extractor.new (length memory.old) ≡ true) }
    ensures counted { OnOk (extracted_at extractor.old frame.now payload.now memory.old)
        (is_extracted extracted.new (length memory.old) (length payload.now) ≡ true) }
    ensures unchanged { OnErr (extracted_at extractor.old frame.now payload.now memory.old)
        ((extractor.new ≡ extractor.old) × (extracted.new ≡ extracted.old) × (memory.new ≡ memory.old)) }
{
    if !is_whole(extractor, memory.len()) {
        return DAMAGED;
    }
    let pointer = pointer_from(frame.pointer);
    if !is_pointer_within(pointer, payload.len()) {
        return TmFault::FieldRange.number();
    }
    let gap = gap_before(last_of(extractor), frame.vc_count);
    match take_field(part_over_gap(gap, extractor), pointer, payload, memory) {
        Some(kept) => {
            *extracted = taken_with(gap, kept.joined, packets_from(pointer, payload.len()));
            *extractor = KeptExtractor {
                from: kept.part.from,
                count: kept.part.count,
                last: frame.vc_count,
                seen: 1,
            };
            0
        }
        None => TmFault::Memory.number(),
    }
}

/// Finds the next packet that is not idle after this part of a frame's data. Returns true and writes where
/// that packet is; or returns false and writes nothing if there is none.
#[unsafe(no_mangle)]
#[must_use]
pub extern "C" fn sedge_tm_packet(payload: &[u8], packet: &mut Part) -> bool
    ensures { GoesOn payload.now packet.old packet.new result }
{
    if packet.from > payload.len() || packet.count > payload.len() - packet.from {
        return false;
    }
    match packet_after(payload, packet.from + packet.count) {
        Some(found) => {
            *packet = found;
            true
        }
        None => false,
    }
}

// The first packet from a place on that isn't idle.
pub(crate) fn packet_after(octets: &[u8], place: usize) -> Option<Part>
    requires { place ≤ length octets.now }
    ensures { StandsAfter octets.now place result }
{
    let mut from = place;
    while let Some(len) = packet_len(&octets[from..]) {
        if !is_idle_with(&octets[from..from + len], &[]) {
            return Some(Part { from, count: len });
        }
        from += len;
    }
    None
}

pub(crate) fn is_whole(extractor: &KeptExtractor, room: usize) -> bool
    ensures { result ≡ is_extractor extractor.now room }
{
    extractor.seen < 2
        && extractor.from <= room
        && extractor.count <= room - extractor.from
        && (extractor.seen == 1 || extractor.count == 0)
}

pub(crate) fn is_pointer_within(pointer: Pointer, size: usize) -> bool
    ensures { result ≡ pointer_fits pointer size }
{
    match pointer {
        Pointer::At(place) => usize::from(place) < size,
        Pointer::NoStart | Pointer::OnlyIdle => true,
    }
}

// The last frame's count, once there was a frame.
pub(crate) fn last_of(extractor: &KeptExtractor) -> Option<u8>
    ensures { result ≡ last_of extractor.now }
{
    if extractor.seen == 1 {
        return Some(extractor.last);
    }
    None
}

// Where the part is; it is dropped if frames are missing.
fn part_over_gap(gap: Gap, extractor: &KeptExtractor) -> Part
    ensures { result ≡ place_over_gap gap extractor.now }
{
    if is_lost(gap) {
        return Part { from: 0, count: 0 };
    }
    Part {
        from: extractor.from,
        count: extractor.count,
    }
}

fn taken_with(gap: Gap, joined: usize, from: usize) -> TakenFrame
    ensures gap { gap_at result ≡ gap }
    ensures joined { result.joined ≡ joined }
    ensures packets { result.packets ≡ record { from = from; count = 0 } }
    ensures first { (nat_lt result.first 2 && ((result.first == 0) || (result.lost == 0))) ≡ true }
{
    let (first, lost) = match gap {
        Gap::First => (1, 0),
        Gap::Lost(lost) => (0, lost),
    };
    TakenFrame {
        joined,
        packets: Part { from, count: 0 },
        first,
        lost,
    }
}

// Where whole packets begin in a data field of this many octets.
fn packets_from(pointer: Pointer, size: usize) -> usize
    requires { pointer_fits pointer size ≡ true }
    ensures from { result ≡ packets_from pointer size }
    ensures within { result ≤ size }
{
    match pointer {
        Pointer::At(place) => usize::from(place),
        Pointer::NoStart | Pointer::OnlyIdle => size,
    }
}

// What a data field leaves in the memory: a packet at its beginning, and a part.
#[derive(Clone, Copy)]
struct Kept {
    joined: usize,
    part: Part,
}

// Takes a data field, if the memory has room.
fn take_field(part: Part, pointer: Pointer, payload: &[u8], memory: &mut [u8]) -> Option<Kept>
    requires within { part.from + part.count ≤ length memory.old }
    requires fits { pointer_fits pointer (length payload.now) ≡ true }
    ensures room { is_some result ≡ not (nat_lt (length memory.old)
        (need_of (octets_at part memory.old) pointer payload.now)) }
    ensures kept { IfSome result (λ k.
        IsKept k memory.new (joined_by (octets_at part memory.old) pointer payload.now)
        (part_after (octets_at part memory.old) pointer payload.now)) }
    ensures none { IfNone result (memory.new ≡ memory.old) }
{
    match pointer {
        Pointer::OnlyIdle => Some(Kept {
            joined: 0,
            part: Part { from: 0, count: 0 },
        }),
        Pointer::NoStart => go_on(part, payload, memory),
        Pointer::At(place) => {
            let (front, rest) = payload.split_at(usize::from(place));
            start(part, front, opened(rest), memory)
        }
    }
}

// Continues the part.
fn go_on(part: Part, octets: &[u8], memory: &mut [u8]) -> Option<Kept>
    requires { part.from + part.count ≤ length memory.old }
    ensures room { is_some result ≡ not (nat_lt (length memory.old)
        (need_of (octets_at part memory.old) Pointer.NoStart octets.now)) }
    ensures kept { IfSome result (λ k.
        IsKept k memory.new (joined_by (octets_at part memory.old) Pointer.NoStart octets.now)
        (continued_part (octets_at part memory.old) octets.now)) }
    ensures none { IfNone result (memory.new ≡ memory.old) }
{
    if ending_after(part, octets, memory) != Ending::Short {
        return start(part, octets, &octets[..0], memory);
    }
    if memory.len() < part.count + octets.len() {
        return None;
    }
    let count = join(part, octets, memory);
    Some(Kept {
        joined: 0,
        part: Part { from: 0, count },
    })
}

// Ends the part by the octets, and puts those of the next part after it.
fn start(part: Part, octets: &[u8], next: &[u8], memory: &mut [u8]) -> Option<Kept>
    requires { part.from + part.count ≤ length memory.old }
    ensures room { is_some result ≡ not (nat_lt (length memory.old)
        (joined_len (octets_at part memory.old) octets.now + length next.now)) }
    ensures kept { IfSome result (λ k. IsKept k memory.new
        (without_idle (completed_packet (octets_at part memory.old) octets.now)) next.now) }
    ensures none { IfNone result (memory.new ≡ memory.old) }
{
    let joined = joined_len(part, octets, memory);
    if memory.len() < joined || memory.len() - joined < next.len() {
        return None;
    }
    if joined > 0 {
        join(part, octets, memory);
    }
    let end = joined + next.len();
    memory[joined..end].copy_from_slice(next);
    Some(Kept {
        joined,
        part: Part {
            from: joined,
            count: next.len(),
        },
    })
}

// The length of the packet that the part and the octets after it form, and 0 for none or an idle one.
fn joined_len(part: Part, octets: &[u8], memory: &[u8]) -> usize
    requires { part.from + part.count ≤ length memory.now }
    ensures count { result ≡ joined_len (octets_at part memory.now) octets.now }
    ensures packet { without_idle (completed_packet (octets_at part memory.now) octets.now)
        ≡ (if result == 0 then [] else (octets_at part memory.now ++ octets.now) ∷ []) }
{
    if ending_after(part, octets, memory) != Ending::Whole {
        return 0;
    }
    if is_idle_with(&memory[part.from..part.from + part.count], octets) {
        return 0;
    }
    part.count + octets.len()
}

// How the part and the octets after it end, if there is a part.
fn ending_after(part: Part, octets: &[u8], memory: &[u8]) -> Ending
    requires { part.from + part.count ≤ length memory.now }
    ensures { result ≡ ending_after (octets_at part memory.now) octets.now }
{
    if part.count == 0 {
        return Ending::Wrong;
    }
    ending_with(&memory[part.from..part.from + part.count], octets)
}

// Puts the part at the beginning of the memory and the octets after it, and returns how many they are
// together.
fn join(part: Part, octets: &[u8], memory: &mut [u8]) -> usize
    requires within { part.from + part.count ≤ length memory.old }
    requires room { part.count + length octets.now ≤ length memory.old }
    ensures count { result ≡ part.count + length octets.now }
    ensures joined { take result memory.new ≡ octets_at part memory.old ++ octets.now }
    ensures room { length memory.new ≡ length memory.old }
{
    move_front(part, memory);
    add(part.count, octets, memory)
}

// Moves the part to the beginning of the memory, where most frames find it.
fn move_front(part: Part, memory: &mut [u8])
    requires { part.from + part.count ≤ length memory.old }
    ensures part { take part.count memory.new ≡ octets_at part memory.old }
    ensures room { length memory.new ≡ length memory.old }
{
    if part.from > 0 {
        memory.copy_within(part.from..part.from + part.count, 0);
    }
}

// The part that begins after whole packets.
fn opened(octets: &[u8]) -> &[u8]
    ensures { result.now ≡ opened_part (rest_in octets.now) }
{
    let rest = rest_after_packets(octets);
    if ending_with(rest, &rest[..0]) == Ending::Short {
        return rest;
    }
    &rest[..0]
}
