// Joining the segments of one MAP, in the caller's memory.

ghost use Rattle.std.specs.Prelude.{◌≡◌, ◌+◌, ◌≤◌, ◌++◌, length, take, drop, true, OnOk, OnErr, is_some, option_copied, if◌then◌else◌};
ghost use Rattle.sedgechisel.specs.Answers.{status_of};
ghost use Rattle.sedgechisel.specs.Maps.{is_map, is_counted, part_of, limits_of, cell_for, cause_at, IsCauseNumber, closed, no_packets, outcome_described, taken_at, DescribesOutcome, next_packet, part_or, DescribesPackets};

use crate::numbers::DAMAGED;
use crate::part::Part;
use map_service::{Action, Decision, Dropped, Limits, decide, fault_of_one};
use space_packet::packet_len;
use tc_frame::SegmentFlags;

/// One MAP (CCSDS 232.0-B-4, 4.1.3.2): how many octets of the memory the open part has, whether one is open,
/// and whether a segment may hold several packets. For C it is `struct sedge_map`.
#[repr(C)]
#[derive(Clone, Copy)]
pub struct KeptMap {
    /// The number of octets of the open part, or 0 if none is open.
    pub count: usize,
    /// Whether a part is open, 0 or 1.
    pub is_open: u8,
    /// Whether a segment may hold several whole packets, 0 or 1.
    pub blocking: u8,
}

/// What became of a segment: the number of octets of the packets that are whole now; their place, 0 for none,
/// 1 for one at the beginning of the memory, 2 for the segment's data; and the number of the cause of a drop,
/// or 0. For C it is `struct sedge_taken`.
#[repr(C)]
#[derive(Clone, Copy)]
pub struct TakenSegment {
    /// The number of octets of all the packets together, or 0 if there are none.
    pub count: usize,
    /// Of `sedge_where`.
    pub place: u8,
    /// Of `sedge_dropped`; if octets were dropped for two causes, the later one.
    pub dropped: u8,
}

/// Takes the next segment of the MAP: its flags, of `sedge_segment_flags`, and its data. Before the next
/// call, pass on the packets that are whole now. Returns 0, or `SEDGE_DAMAGED`, also for flags above 3.
#[unsafe(no_mangle)]
#[must_use]
pub extern "C" fn sedge_map_take(
    map: &mut KeptMap,
    flags: u8,
    payload: &[u8],
    memory: &mut [u8],
    taken: &mut TakenSegment,
) -> u8
    ensures answer { result ≡ status_of (taken_at map.old flags payload.now memory.old) }
    ensures describes { DescribesOutcome (taken_at map.old flags payload.now memory.old)
        (outcome_described map.new taken.new memory.new payload.now) }
    ensures map { OnOk (taken_at map.old flags payload.now memory.old)
        (is_map map.new (length memory.old) ≡ true) }
    ensures blocking { map.new.blocking ≡ map.old.blocking }
    ensures count { OnOk (taken_at map.old flags payload.now memory.old)
        (is_counted taken.new memory.new payload.now ≡ true) }
    ensures dropped { OnOk (taken_at map.old flags payload.now memory.old)
        (IsCauseNumber taken.new.dropped) }
    ensures unchanged { OnErr (taken_at map.old flags payload.now memory.old)
        ((map.new ≡ map.old) × (taken.new ≡ taken.old) × (memory.new ≡ memory.old)) }
{
    if flags >= 4 || !is_whole(map, memory.len()) {
        return DAMAGED;
    }
    *taken = take_segment(map, SegmentFlags::with_code(flags), payload, memory);
    0
}

fn is_whole(map: &KeptMap, room: usize) -> bool
    ensures { result ≡ is_map map.now room }
{
    map.is_open < 2 && map.blocking < 2 && map.count <= room && (map.is_open == 1 || map.count == 0)
}

fn limits_for(map: &KeptMap, room: usize) -> Limits
    ensures { result ≡ limits_of map.now room }
{
    Limits {
        part: 1,
        max_packet: room.min(4294967295) as u32,
        maps: 1,
        blocking: map.blocking == 1,
    }
}

// The part that is open.
fn part_in<'a>(map: &KeptMap, memory: &'a [u8]) -> Option<&'a [u8]>
    requires { is_map map.now (length memory.now) ≡ true }
    ensures { option_copied result ≡ part_of map.now memory.now }
{
    if map.is_open == 0 {
        return None;
    }
    Some(&memory[..map.count])
}

// Carries out the decision on a segment.
fn take_segment(
    map: &mut KeptMap,
    flags: SegmentFlags,
    octets: &[u8],
    memory: &mut [u8],
) -> TakenSegment
    requires whole { is_map map.old (length memory.old) ≡ true }
    ensures describes { outcome_described map.new result memory.new octets.now
        ≡ cell_for map.old flags octets.now memory.old }
    ensures map { is_map map.new (length memory.old) ≡ true }
    ensures blocking { map.new.blocking ≡ map.old.blocking }
    ensures count { is_counted result memory.new octets.now ≡ true }
    ensures dropped { IsCauseNumber result.dropped }
{
    let limits = limits_for(map, memory.len());
    let Decision { action, dropped } = decide(&limits, flags, part_in(map, memory), octets);
    match action {
        Action::Close => {
            close(map);
            no_packets(dropped)
        }
        Action::HandOut => {
            close(map);
            TakenSegment {
                count: octets.len(),
                place: 2,
                dropped: number_of(dropped),
            }
        }
        Action::Begin => {
            map.count = add(0, octets, memory);
            map.is_open = 1;
            no_packets(dropped)
        }
        Action::Add => {
            map.count = add(map.count, octets, memory);
            no_packets(dropped)
        }
        Action::End => {
            let count = add(map.count, octets, memory);
            close(map);
            joined(count, fault_of_one(&limits, &memory[..count]))
        }
    }
}

// Closes the part.
fn close(map: &mut KeptMap)
    ensures { map.new ≡ closed map.old }
{
    map.count = 0;
    map.is_open = 0;
}

// The result with no whole packet, and this drop, if any.
fn no_packets(dropped: Option<Dropped>) -> TakenSegment
    ensures dropped { cause_at result.dropped ≡ dropped }
    ensures number { IsCauseNumber result.dropped }
    ensures none { result ≡ no_packets result.dropped }
{
    TakenSegment {
        count: 0,
        place: 0,
        dropped: number_of(dropped),
    }
}

// ClosedMap is 1.
fn number_of(dropped: Option<Dropped>) -> u8
    ensures cause { cause_at result ≡ dropped }
    ensures number { IsCauseNumber result }
{
    match dropped {
        None => 0,
        Some(cause) => cause as u8 + 1,
    }
}

// The packet at the beginning of the memory, unless it has a fault.
fn joined(count: usize, fault: Option<Dropped>) -> TakenSegment
    ensures dropped { cause_at result.dropped ≡ fault }
    ensures number { IsCauseNumber result.dropped }
    ensures packet { result ≡ if is_some fault then no_packets result.dropped
        else record { count = count; place = 1; dropped = 0 } }
{
    if fault.is_some() {
        return no_packets(fault);
    }
    TakenSegment {
        count,
        place: 1,
        dropped: 0,
    }
}

// Appends octets to the first octets of the memory, which are this many, and returns how many there are then.
pub(crate) fn add(count: usize, octets: &[u8], memory: &mut [u8]) -> usize
    requires room { count + length octets.now ≤ length memory.old }
    ensures joined { take result memory.new ≡ take count memory.old ++ octets.now }
    ensures rest { drop result memory.new ≡ drop result memory.old }
    ensures count { result ≡ count + length octets.now }
    ensures room { length memory.new ≡ length memory.old }
{
    let end = count + octets.len();
    memory[count..end].copy_from_slice(octets);
    end
}

/// Finds the packet that follows this part of the octets; begin with `{0, 0}`. Returns true and writes where
/// that packet is; or returns false and writes nothing if there is none.
#[tactic(auto, using(crate::proofs::Pieces::stands_at, crate::proofs::Pieces::none_at, crate::proofs::Pieces::none_past))]
#[unsafe(no_mangle)]
#[must_use]
pub extern "C" fn sedge_map_packet(octets: &[u8], packet: &mut Part) -> bool
    ensures found { result ≡ is_some (next_packet octets.now packet.old) }
    ensures packet { packet.new ≡ part_or (next_packet octets.now packet.old) packet.old }
    ensures describes { DescribesPackets octets.now packet.old packet.new result }
{
    if packet.from > octets.len() || packet.count > octets.len() - packet.from {
        return false;
    }
    let place = packet.from + packet.count;
    match packet_len(octets.split_at(place).1) {
        Some(len) => {
            *packet = Part {
                from: place,
                count: len,
            };
            true
        }
        None => false,
    }
}
