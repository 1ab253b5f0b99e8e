// Extracting packets from many telemetry frames in one call.

ghost use Rattle.std.specs.Prelude.{◌≡◌, ◌≤◌, ◌+◌, ◌*◌, ◌++◌, ◌/◌, length, take, drop, true, ◌&&◌};
ghost use Rattle.std.specs.List.{concat};
ghost use Rattle.tm_link.specs.Layout.{pointer_fits};
ghost use Rattle.tm_link.specs.Extractor.{ending_of};
ghost use Rattle.sedgechisel.specs.TelemetryFrames.{frame_described};
ghost use Rattle.sedgechisel.specs.Extractors.{is_extractor, state_of, extractor_described, packets_described, is_extracted, is_carried, begins_idle, is_cut_off, is_dropped, came_from, came_of, packets_by, state_by, came_fields, no_fields, record_with, record_of, is_end, run_from, handed_from};

use crate::assembly::add;
use crate::command_frame::halves;
use crate::part::Part;
use crate::receiver::number_of_flag;
use crate::telemetry_extractor::{
    KeptExtractor, TakenFrame, is_pointer_within, is_whole, last_of, packet_after,
    sedge_tm_extractor_frame,
};
use crate::telemetry_frame::{TelemetryFrame, fields_from, pointer_from};
use tm_link::{Ending, Pointer, ending_with, gap_before, is_idle_with, is_lost};

/// Takes the frames of this length that follow one another in the octets, each as `sedge_tm_decode` and then
/// `sedge_tm_extractor_frame` take it. Writes a record of 19 octets for each frame to `out`, in order. A
/// record begins with the number of octets of the frame's packets (four octets, the lowest one first), and
/// the first fault of these two calls, or 0. Then come first, lost and dropped, one octet each; dropped is 1
/// if a packet that was begun and is not idle is dropped, and otherwise 0. The record ends with the frame's
/// fields: the scid and the pointer (two octets each, the lower one first), the vcid, mc_count, vc_count and
/// ocf. These fields are 0 if the octets do not form a valid frame. Writes the packets of all these frames to
/// `packets`, one after another: `sedge_map_packet` finds where each begins. Stops when `out` has no room for
/// a record, when `packets` has no room for as many octets as the memory and a frame have together, or when
/// no whole frame follows. Takes no frame if the length is 0. Writes the number of octets of all these
/// packets to `total`. Returns the number of frames.
#[unsafe(no_mangle)]
pub extern "C" fn sedge_tm_extractor_frames(
    extractor: &mut KeptExtractor,
    octets: &[u8],
    frame_length: usize,
    memory: &mut [u8],
    out: &mut [u8],
    packets: &mut [u8],
    total: &mut usize,
) -> usize
    ensures records { let run = run_from frame_length (length memory.old) (length packets.old) octets.now
        (extractor_described extractor.old memory.old) (length out.old / 19) in
        out.new ≡ run.records ++ drop (length run.records) out.old }
    ensures packets { let run = run_from frame_length (length memory.old) (length packets.old) octets.now
        (extractor_described extractor.old memory.old) (length out.old / 19) in
        packets.new ≡ run.packets ++ drop (length run.packets) packets.old }
    ensures after { extractor_described extractor.new memory.new
        ≡ (run_from frame_length (length memory.old) (length packets.old) octets.now
        (extractor_described extractor.old memory.old) (length out.old / 19)).after }
    ensures frames { 19 * result
        ≡ length (run_from frame_length (length memory.old) (length packets.old) octets.now
        (extractor_described extractor.old memory.old) (length out.old / 19)).records }
    ensures total { total.new
        ≡ length (run_from frame_length (length memory.old) (length packets.old) octets.now
        (extractor_described extractor.old memory.old) (length out.old / 19)).packets }
{
    let most = out.len() / 19;
    let mut frames = 0;
    let mut from = 0;
    let mut at = 0;
    let mut end = 0;
    'frames: while frames < most {
        if is_end(
            frame_length,
            memory.len(),
            packets.len() - end,
            &octets[from..],
        ) {
            *total = end;
            return frames;
        }
        let taken = take_one(
            extractor,
            &octets[from..from + frame_length],
            memory,
            packets,
            end,
        );
        at = add(at, &taken.0, out);
        end = taken.1;
        from += frame_length;
        frames += 1;
    }
    *total = end;
    frames
}

// Whether too little is left of the octets, or of the buffer for packets, to take another frame.
fn is_end(total: usize, room: usize, left: usize, octets: &[u8]) -> bool
    ensures { result ≡ is_end total room left octets.now }
{
    total == 0 || octets.len() < total || left < room || left - room < total
}

// Takes the frame that the octets form, if they form one, and puts its packets after this many octets. Returns
// the frame's record, and where its packets end.
fn take_one(
    extractor: &mut KeptExtractor,
    octets: &[u8],
    memory: &mut [u8],
    packets: &mut [u8],
    at: usize,
) -> ([u8; 19], usize)
    requires room { at + (length memory.old + length octets.now) ≤ length packets.old }
    ensures record { result.0
        ≡ record_of (extractor_described extractor.old memory.old) (length memory.old) octets.now }
    ensures state { extractor_described extractor.new memory.new
        ≡ state_by (came_of (extractor_described extractor.old memory.old) (length memory.old) octets.now)
        (extractor_described extractor.old memory.old) }
    ensures packets { take result.1 packets.new ≡ take at packets.old
        ++ packets_by (came_of (extractor_described extractor.old memory.old) (length memory.old) octets.now) }
    ensures rest { drop result.1 packets.new ≡ drop result.1 packets.old }
    ensures end { result.1 ≡ at + length
        (packets_by (came_of (extractor_described extractor.old memory.old) (length memory.old) octets.now)) }
    ensures within { result.1 ≤ length packets.old }
    ensures long { length packets.new ≡ length packets.old }
    ensures memory { length memory.new ≡ length memory.old }
{
    match tm_link::decode(octets, octets.len()) {
        Ok(found) => {
            let frame = fields_from(&found);
            let came = take_frame(extractor, &frame, found.payload, memory, packets, at);
            (record_with(&came, &frame), at + came.count)
        }
        Err(fault) => (record_with(&refused(fault.number()), &no_fields()), at),
    }
}

/// What becomes of a frame.
#[derive(Clone, Copy)]
struct Came {
    fault: u8,
    first: u8,
    lost: u8,
    dropped: u8,
    count: usize,
}

fn refused(fault: u8) -> Came
    ensures { result ≡ record { fault = fault; first = 0; lost = 0; dropped = 0; count = 0 } }
{
    Came {
        fault,
        first: 0,
        lost: 0,
        dropped: 0,
        count: 0,
    }
}

// Takes a frame, and puts its packets after this many octets.
fn take_frame(
    extractor: &mut KeptExtractor,
    frame: &TelemetryFrame,
    payload: &[u8],
    memory: &mut [u8],
    packets: &mut [u8],
    at: usize,
) -> Came
    requires room { at + (length memory.old + length payload.now) ≤ length packets.old }
    ensures came { result ≡ came_fields (came_from (extractor_described extractor.old memory.old)
        (length memory.old) (frame_described frame.now payload.now)) }
    ensures state { extractor_described extractor.new memory.new
        ≡ state_by (came_from (extractor_described extractor.old memory.old)
        (length memory.old) (frame_described frame.now payload.now))
        (extractor_described extractor.old memory.old) }
    ensures packets { take (at + result.count) packets.new ≡ take at packets.old
        ++ packets_by (came_from (extractor_described extractor.old memory.old)
        (length memory.old) (frame_described frame.now payload.now)) }
    ensures count { result.count ≡ length (packets_by
        (came_from (extractor_described extractor.old memory.old)
        (length memory.old) (frame_described frame.now payload.now))) }
    ensures rest { drop (at + result.count) packets.new ≡ drop (at + result.count) packets.old }
    ensures within { at + result.count ≤ length packets.old }
    ensures long { length packets.new ≡ length packets.old }
    ensures memory { length memory.new ≡ length memory.old }
{
    let dropped = is_dropped(extractor, frame, payload, memory);
    let mut taken = nothing_taken();
    let fault = sedge_tm_extractor_frame(extractor, frame, payload, memory, &mut taken);
    if fault != 0 {
        return refused(fault);
    }
    let end = put_packets(&taken, payload, memory, packets, at);
    Came {
        fault: 0,
        first: taken.first,
        lost: taken.lost,
        dropped: number_of_flag(dropped),
        count: end - at,
    }
}

fn nothing_taken() -> TakenFrame {
    TakenFrame {
        joined: 0,
        packets: Part { from: 0, count: 0 },
        first: 0,
        lost: 0,
    }
}

// Whether a frame that is taken drops a packet that was begun, which is not idle.
fn is_dropped(
    extractor: &KeptExtractor,
    frame: &TelemetryFrame,
    payload: &[u8],
    memory: &[u8],
) -> bool
    ensures { is_extractor extractor.now (length memory.now) ≡ true
        → pointer_fits (frame_described frame.now payload.now).pointer (length payload.now) ≡ true
        → result ≡ is_dropped (state_of extractor.now memory.now) (frame_described frame.now payload.now) }
{
    let pointer = pointer_from(frame.pointer);
    if !is_whole(extractor, memory.len()) || !is_pointer_within(pointer, payload.len()) {
        return false;
    }
    if extractor.count == 0 {
        return false;
    }
    let part = &memory[extractor.from..extractor.from + extractor.count];
    if is_lost(gap_before(last_of(extractor), frame.vc_count)) {
        return !begins_idle(part, &[]);
    }
    match pointer {
        Pointer::OnlyIdle => !begins_idle(part, &[]),
        Pointer::NoStart => is_cut_off(pointer, part, payload),
        Pointer::At(place) => is_cut_off(pointer, part, &payload[..usize::from(place)]),
    }
}

fn is_cut_off(pointer: Pointer, part: &[u8], front: &[u8]) -> bool
    ensures { result ≡ is_cut_off pointer (part.now ++ front.now) }
{
    !is_carried(pointer, ending_with(part, front)) && !begins_idle(part, front)
}

fn is_carried(pointer: Pointer, ending: Ending) -> bool
    ensures { result ≡ is_carried pointer ending }
{
    match (pointer, ending) {
        (Pointer::NoStart, Ending::Whole | Ending::Short) | (Pointer::At(_), Ending::Whole) => true,
        _ => false,
    }
}

fn begins_idle(part: &[u8], more: &[u8]) -> bool
    ensures { result ≡ begins_idle (part.now ++ more.now) }
{
    2 <= part.len() + more.len() && is_idle_with(part, more)
}

// Puts the packets that are taken after this many octets, and returns where they end.
fn put_packets(
    taken: &TakenFrame,
    payload: &[u8],
    memory: &[u8],
    packets: &mut [u8],
    at: usize,
) -> usize
    requires taken { is_extracted taken.now (length memory.now) (length payload.now) ≡ true }
    requires room { at + (length memory.now + length payload.now) ≤ length packets.old }
    ensures packets { take result packets.new ≡ take at packets.old
        ++ concat (packets_described taken.now memory.now payload.now) }
    ensures rest { drop result packets.new ≡ drop result packets.old }
    ensures end { result ≡ at + length (concat (packets_described taken.now memory.now payload.now)) }
    ensures within { result ≤ length packets.old }
    ensures long { length packets.new ≡ length packets.old }
{
    let end = add(at, &memory[..taken.joined], packets);
    put_each(payload, taken.packets.from, packets, end)
}

// Puts the packets of a frame's data, from a place on, after this many octets, and returns where they end.
fn put_each(payload: &[u8], from: usize, packets: &mut [u8], at: usize) -> usize
    requires from { from ≤ length payload.now }
    requires room { at + length (handed_from from payload.now) ≤ length packets.old }
    ensures packets { take result packets.new ≡ take at packets.old ++ handed_from from payload.now }
    ensures rest { drop result packets.new ≡ drop result packets.old }
    ensures end { result ≡ at + length (handed_from from payload.now) }
    ensures long { length packets.new ≡ length packets.old }
{
    let mut place = from;
    let mut end = at;
    'each: while let Some(packet) = packet_after(payload, place) {
        let next = packet.from + packet.count;
        end = add(end, &payload[packet.from..next], packets);
        place = next;
    }
    end
}

fn record_with(came: &Came, frame: &TelemetryFrame) -> [u8; 19]
    ensures { result ≡ record_with came.now frame.now }
{
    let low = halves((came.count % 65536) as u16);
    let high = halves((came.count / 65536 % 65536) as u16);
    let scid = halves(frame.scid);
    let pointer = halves(frame.pointer);
    [
        low.0,
        low.1,
        high.0,
        high.1,
        came.fault,
        came.first,
        came.lost,
        came.dropped,
        scid.0,
        scid.1,
        pointer.0,
        pointer.1,
        frame.vcid,
        frame.mc_count,
        frame.vc_count,
        frame.ocf[0],
        frame.ocf[1],
        frame.ocf[2],
        frame.ocf[3],
    ]
}

fn no_fields() -> TelemetryFrame
    ensures { result ≡ no_fields }
{
    TelemetryFrame {
        scid: 0,
        pointer: 0,
        vcid: 0,
        mc_count: 0,
        vc_count: 0,
        ocf: [0; 4],
    }
}
