// Building telemetry frames from packets in the caller's memory.

ghost use Rattle.std.specs.Prelude.{◌≡◌, ◌≤◌, ◌+◌, ◌-◌, ◌++◌, ◌==◌, ℕ, List, [], length, take, map, true, Ok, IfOk, OnErr, IfSome, is_some, OnOk};
ghost use Rattle.space_packet.specs.Packets.{packets_in};
ghost use Rattle.tm_link.specs.Builder.{left_after, after_send, after_fill, with_next_count};
ghost use Rattle.tm_link.specs.Layout.{IsTmFrame};
ghost use Rattle.tm_link.specs.Encoding.{spelling};
ghost use Rattle.sedgechisel.specs.Answers.{status_of, IsSpelled};
ghost use Rattle.sedgechisel.specs.Builders.{pending_of, has_numbers, is_builder, state_of, builder_described, builder_opened, queued_at, built_at, turn_of, can_send, are_whole};

use crate::assembly::add;
use crate::numbers::{DAMAGED, WRONG_COUNT};
use space_packet::packet_len;
use tm_link::{TmFault, Turn, can_build, can_queue, idle_left_after, put_next};

/// A builder of telemetry frames (CCSDS 132.0-B-3, 4.2): where the octets that are to be sent are in the
/// memory, how many of them are left of the packet that was begun, the identifiers, the length of a frame,
/// the next frame's count, and the number of octets left of an idle packet, which are sent first. For C it is
/// `struct sedge_tm_builder`.
#[repr(C)]
#[derive(Clone, Copy)]
pub struct KeptBuilder {
    /// Where the octets that are to be sent are in the memory.
    pub from: usize,
    /// The number of octets that are to be sent.
    pub count: usize,
    /// How many of these, the first ones, are left of the packet that was begun.
    pub begun: usize,
    /// The spacecraft identifier, below 1,024.
    pub scid: u16,
    /// The length of a frame in octets, 16 to 2,048.
    pub length: u16,
    /// The virtual channel identifier, below 8.
    pub vcid: u8,
    /// The frame count of the next frame, on the master and on the virtual channel.
    pub next_count: u8,
    /// The number of octets left of an idle packet, at most 6, which are sent first.
    pub idle_left: u8,
}

/// Begins a builder with frame counts of 0 and nothing to be sent. Returns 0, or `SEDGE_TM_FIELD_RANGE` if
/// `scid` is not below 1,024, `vcid` not below 8, or length not from 16 to 2,048.
#[unsafe(no_mangle)]
#[must_use]
pub extern "C" fn sedge_tm_builder_open(
    builder: &mut KeptBuilder,
    scid: u16,
    vcid: u8,
    length: usize,
) -> u8
    ensures answer { result ≡ status_of (builder_opened scid vcid length) }

    // It is a new builder with any memory.
    ensures describes { (memory : List ℕ) → IfOk (builder_opened scid vcid length)
        (λ s. builder_described builder.new memory ≡ Ok s) }
    ensures unchanged { OnErr (builder_opened scid vcid length) (builder.new ≡ builder.old) }
{
    if !can_build(scid, vcid, length) {
        return TmFault::FieldRange.number();
    }
    *builder = KeptBuilder {
        from: 0,
        count: 0,
        begun: 0,
        scid,
        length: length as u16,
        vcid,
        next_count: 0,
        idle_left: 0,
    };
    0
}

/// Queues a packet, given by all of its octets, after the octets that are already to be sent; those are not
/// read. Returns 0, or the first of `SEDGE_DAMAGED` (no builder has the numbers of the struct, or its octets
/// are not in the memory), `SEDGE_TM_NOT_A_PACKET` (not exactly one packet, or an idle one) and
/// `SEDGE_TM_MEMORY` (the octets to be sent and the packet do not fit in the memory).
#[unsafe(no_mangle)]
#[must_use]
pub extern "C" fn sedge_tm_builder_queue(
    builder: &mut KeptBuilder,
    packet: &[u8],
    memory: &mut [u8],
) -> u8
    ensures answer { result ≡ status_of (queued_at builder.old packet.now memory.old) }
    ensures after { is_builder builder.old memory.old ≡ true
        → IfOk (queued_at builder.old packet.now memory.old)
        (λ s. builder_described builder.new memory.new ≡ Ok s) }

    // The packet follows the octets before it, whatever they are, and nothing else changes.
    ensures queued { OnOk (queued_at builder.old packet.now memory.old)
        ((pending_of builder.new memory.new ≡ pending_of builder.old memory.old ++ packet.now)
        × (builder.new ≡ record builder.old {
          from = builder.new.from;
          count = builder.old.count + length packet.now;
        })) }
    ensures unchanged { OnErr (queued_at builder.old packet.now memory.old)
        ((builder.new ≡ builder.old) × (memory.new ≡ memory.old)) }
{
    if !has_numbers(builder, memory.len()) {
        return DAMAGED;
    }
    if !can_queue(packet) {
        return TmFault::NotAPacket.number();
    }
    if memory.len() - builder.count < packet.len() {
        return TmFault::Memory.number();
    }
    queue(builder, packet, memory);
    0
}

/// Writes the next frame to the beginning of `out`, with this operational control field, as
/// `sedge_clcw_encode` writes it, and its length, which is the builder's frame length, to `total`. If packets
/// run out within the frame, an idle packet fills it; if nothing is to be sent, it has only idle data.
/// Returns 0, or the first of `SEDGE_DAMAGED` (as for `sedge_tm_builder_queue`, or the octets that this frame
/// takes are not whole packets), `SEDGE_WRONG_COUNT` (the field is not four octets) and `SEDGE_TM_ROOM`.
#[unsafe(no_mangle)]
#[must_use]
pub extern "C" fn sedge_tm_builder_build(
    builder: &mut KeptBuilder,
    ocf: &[u8],
    memory: &[u8],
    out: &mut [u8],
    total: &mut usize,
) -> u8
    ensures spelled { IsSpelled (λ r. spelling r.0) (λ r. builder.old.length)
        (built_at builder.old ocf.now memory.now (length out.old))
        out.old out.new total.old total.new result }

    // So `sedge_tm_decode` reads this frame.
    ensures spells { IfOk (built_at builder.old ocf.now memory.now (length out.old))
        (λ r. IsTmFrame builder.old.length r.0 (take builder.old.length out.new)) }
    ensures after { is_builder builder.old memory.now ≡ true
        → IfOk (built_at builder.old ocf.now memory.now (length out.old))
        (λ r. builder_described builder.new memory.now ≡ Ok r.1) }

    // This also holds if other octets wait, as long as the frame takes only whole packets.
    ensures state { IfOk (built_at builder.old ocf.now memory.now (length out.old))
        (λ r. state_of builder.new memory.now ≡ r.1) }
    ensures unchanged { OnErr (built_at builder.old ocf.now memory.now (length out.old))
        (builder.new ≡ builder.old) }
{
    if !can_send(builder, memory) {
        return DAMAGED;
    }
    let Some(four) = four_of(ocf) else {
        return WRONG_COUNT;
    };
    let len = builder.length as usize;
    if out.len() < len {
        return TmFault::Room.number();
    }
    put_next(
        &turn_for(builder),
        pending(builder, memory),
        four,
        &mut out[..len],
    );
    pass(builder, memory);
    *total = len;
    0
}

fn four_of(octets: &[u8]) -> Option<[u8; 4]>
    ensures some { is_some result ≡ (length octets.now == 4) }
    ensures four { IfSome result (λ four. four ≡ octets.now) }
{
    match octets {
        [first, second, third, fourth] => Some([*first, *second, *third, *fourth]),
        _ => None,
    }
}

// Whether this is a builder whose octets are whole packets as far as the next frame takes them.
fn can_send(builder: &KeptBuilder, memory: &[u8]) -> bool
    ensures { result ≡ can_send builder.now memory.now }
{
    if !has_numbers(builder, memory.len()) {
        return false;
    }
    let size = builder.length as usize - 12;
    let idle_left = builder.idle_left as usize;
    are_whole(
        &pending(builder, memory)[builder.begun..],
        builder.begun,
        size - idle_left.min(size),
    )
}

// Whether octets are whole packets as far as this many octets reach. The first ones of these are left of a
// packet that was begun.
fn are_whole(packets: &[u8], begun: usize, count: usize) -> bool
    ensures { result ≡ are_whole packets.now begun count }
{
    let mut rest = packets;
    let mut left = begun;
    let mut room = count;
    while left < room {
        room -= left;
        match packet_len(rest) {
            Some(len) => {
                left = len;
                rest = rest.split_at(len).1;
            }
            None => return rest.is_empty(),
        }
    }
    true
}

fn has_numbers(builder: &KeptBuilder, room: usize) -> bool
    ensures { result ≡ has_numbers builder.now room }
{
    can_build(builder.scid, builder.vcid, builder.length as usize)
        && builder.idle_left <= 6
        && builder.from <= room
        && builder.count <= room - builder.from
        && builder.begun <= builder.count
}

// The octets that are to be sent.
fn pending<'a>(builder: &KeptBuilder, memory: &'a [u8]) -> &'a [u8]
    requires { has_numbers builder.now (length memory.now) ≡ true }
    ensures { result.now ≡ pending_of builder.now memory.now }
{
    &memory[builder.from..builder.from + builder.count]
}

fn turn_for(builder: &KeptBuilder) -> Turn
    ensures { result ≡ turn_of builder.now }
{
    Turn {
        scid: builder.scid,
        vcid: builder.vcid,
        mc_count: builder.next_count,
        vc_count: builder.next_count,
        idle_left: builder.idle_left as usize,
        begun: builder.begun,
    }
}

// Puts a packet after the octets that are to be sent. These move to the beginning of the memory if there is
// too little room after them.
fn queue(builder: &mut KeptBuilder, packet: &[u8], memory: &mut [u8])
    requires numbers { has_numbers builder.old (length memory.old) ≡ true }
    requires room { builder.old.count + length packet.now ≤ length memory.old }
    ensures pending { pending_of builder.new memory.new
        ≡ pending_of builder.old memory.old ++ packet.now }
    ensures from { builder.new.from + builder.new.count ≤ length memory.old }
    ensures builder { builder.new ≡ record builder.old {
      from = builder.new.from;
      count = builder.old.count + length packet.now;
    } }
{
    if memory.len() - builder.from - builder.count < packet.len() {
        move_front(builder, memory);
    }
    put(builder, packet, memory);
}

// Moves the octets that are to be sent to the beginning of the memory.
fn move_front(builder: &mut KeptBuilder, memory: &mut [u8])
    requires { builder.old.from + builder.old.count ≤ length memory.old }
    ensures pending { pending_of builder.new memory.new ≡ pending_of builder.old memory.old }
    ensures builder { builder.new ≡ record builder.old { from = 0 } }
{
    memory.copy_within(builder.from..builder.from + builder.count, 0);
    builder.from = 0;
}

// Puts a packet after the octets that are to be sent.
fn put(builder: &mut KeptBuilder, packet: &[u8], memory: &mut [u8])
    requires { builder.old.from + builder.old.count + length packet.now ≤ length memory.old }
    ensures pending { pending_of builder.new memory.new
        ≡ pending_of builder.old memory.old ++ packet.now }
    ensures builder { builder.new
        ≡ record builder.old { count = builder.old.count + length packet.now } }
{
    builder.count = add(builder.count, packet, &mut memory[builder.from..]);
}

// Advances the builder by a frame.
fn pass(builder: &mut KeptBuilder, memory: &[u8])
    requires { can_send builder.old memory.now ≡ true }
    ensures state { state_of builder.new memory.now
        ≡ with_next_count (after_fill (state_of builder.old memory.now)) }
    ensures described { is_builder builder.old memory.now ≡ true → builder_described builder.new memory.now
        ≡ Ok (with_next_count (after_fill (state_of builder.old memory.now))) }
{
    if builder.idle_left != 0 || builder.count != 0 {
        send(builder, memory);
    }
    builder.next_count = builder.next_count.wrapping_add(1);
}

// Advances the builder by the octets of a data field.
fn send(builder: &mut KeptBuilder, memory: &[u8])
    requires { can_send builder.old memory.now ≡ true }
    ensures state { state_of builder.new memory.now
        ≡ after_send (state_of builder.old memory.now) (builder.old.length - 12) }
    ensures described { is_builder builder.old memory.now ≡ true → builder_described builder.new memory.now
        ≡ Ok (after_send (state_of builder.old memory.now) (builder.old.length - 12)) }
{
    let size = builder.length as usize - 12;
    let idle_left = builder.idle_left as usize;
    let room = size - idle_left.min(size);
    let passed = room.min(builder.count);
    let left = idle_left_after(size, idle_left, builder.count);
    builder.begun = begun_after(
        &pending(builder, memory)[builder.begun..],
        builder.begun,
        room,
    );
    builder.from += passed;
    builder.count -= passed;
    builder.idle_left = left as u8;
}

// How many octets are left of the packet that is begun, after this many octets of the packet that was begun
// and of those after it were sent.
fn begun_after(packets: &[u8], begun: usize, count: usize) -> usize
    ensures { result ≡ (left_after count begun (map length (packets_in packets.now))).0 }
{
    let mut rest = packets;
    let mut left = begun;
    let mut room = count;
    while left < room {
        room -= left;
        match packet_len(rest) {
            Some(len) => {
                left = len;
                rest = rest.split_at(len).1;
            }
            None => return 0,
        }
    }
    left - room
}
