// The frames and the telemetry packets that a program in C takes from its ground.

ghost use Rattle.std.specs.Prelude.{◌≡◌, ◌≢◌, true, length, Some, None, IfSome};
ghost use Rattle.std.specs.Option.{unwrap_or};
ghost use Rattle.tc_frame.specs.declared.frame.Check.TheVariants.{On};
ghost use Rattle.tc_frame.specs.Layout.{frame_view};
ghost use Rattle.tc_frame.specs.Encoding.{frame_fits};
ghost use Rattle.nodes.specs.Frames.{size_of, written_over};
ghost use Rattle.nodes.specs.Ground.{Pull, TakeTelemetry, ground_step};
ghost use Rattle.sedgechisel_nodes.specs.Calls.{closed, IsRead, room_answer, next_answer, count_of, IsHanding, IsSent};
ghost use Rattle.sedgechisel_nodes.specs.Ground.{stepped};

use crate::answers::ROOM;
use crate::handles::GroundHandle;
use crate::room::{count_of, hand_out};
use nodes::Ground;
use std::alloc::Global;
use tc_frame::{Check, TcFrame, encode};

// The length in octets of the next frame for the link, 0 for none.
fn size_of_next(node: &Ground) -> usize
    ensures { result ≡ unwrap_or (size_of (ground_step node.now Pull).answer) 0 }
{
    match node.peek() {
        Some(frame) => frame.total(Check::On),
        None => 0,
    }
}

/// Writes the length in octets of the next frame for the link, 8 to 1,024, or 0 if nothing is to be sent.
/// Returns 0.
#[unsafe(no_mangle)]
pub extern "C" fn sedge_ground_next(
    alloc: Global,
    ground: &mut GroundHandle,
    count: &mut usize,
) -> u8
    ensures { IsRead (λ s. Some (unwrap_or (size_of (ground_step s Pull).answer) 0))
        ground.old.value ground.new.value result count.old count.new }
{
    read!(alloc, ground, count, |node| size_of_next(&node))
}

// Writes a frame, with its check, if it fits.
fn write_frame(frame: &TcFrame<'_>, out: &mut [u8], count: &mut usize) -> u8
    requires { frame_fits On (frame_view frame.now) ≡ true }
    ensures answer { result ≡ room_answer (size_of (Some (frame_view frame.now))) (length out.old) }
    ensures count { result ≡ 0 → Some count.new ≡ size_of (Some (frame_view frame.now)) }
    ensures frame { result ≡ 0 → out.new ≡ written_over out.old (Some (frame_view frame.now)) }
    ensures unchanged { result ≢ 0 → (count.new ≡ count.old) × (out.new ≡ out.old) }
{
    match encode(frame, Check::On, out) {
        Ok(total) => {
            *count = total;
            0
        }
        Err(_) => ROOM,
    }
}

// Writes the next frame for the link, if it fits.
fn write_next(node: &Ground, out: &mut [u8], count: &mut usize) -> u8
    ensures answer { result ≡ room_answer (size_of (ground_step node.now Pull).answer) (length out.old) }
    ensures count { result ≡ 0 → count.new ≡ unwrap_or (size_of (ground_step node.now Pull).answer) 0 }
    ensures frame { result ≡ 0 → out.new ≡ written_over out.old (ground_step node.now Pull).answer }
    ensures unchanged { result ≢ 0 → (count.new ≡ count.old) × (out.new ≡ out.old) }
{
    match node.peek() {
        Some(frame) => write_frame(&frame, out, count),
        None => {
            *count = 0;
            0
        }
    }
}

/// Takes the next frame for the link, with its FECF (232.0-B-4, 4.1). Writes it and the number of its octets,
/// or 0 octets if nothing is to be sent. Returns 0 or `SEDGE_NODE_ROOM`.
#[unsafe(no_mangle)]
#[must_use]
pub extern "C" fn sedge_ground_pull(
    alloc: Global,
    ground: &mut GroundHandle,
    out: &mut [u8],
    count: &mut usize,
) -> u8
    ensures { IsSent (λ s. size_of (ground_step s Pull).answer)
        (λ s room. written_over room (ground_step s Pull).answer) (λ s. (ground_step s Pull).after)
        ground.old.value ground.new.value result count.old count.new out.old out.new }
{
    held!(alloc, ground, |node| {
        let answer = write_next(&node, out, count);
        if answer == 0 {
            node.advance();
        }
        answer
    })
}

/// Writes the next frame for the link as `sedge_ground_pull` does; the ground does not change. If the radio
/// may refuse a frame, call `sedge_ground_advance` once it has taken this one: the frame then counts as sent.
/// Returns 0 or `SEDGE_NODE_ROOM`.
#[unsafe(no_mangle)]
#[must_use]
pub extern "C" fn sedge_ground_peek(
    alloc: Global,
    ground: &mut GroundHandle,
    out: &mut [u8],
    count: &mut usize,
) -> u8
    ensures { IsSent (λ s. size_of (ground_step s Pull).answer)
        (λ s room. written_over room (ground_step s Pull).answer) (λ s. s)
        ground.old.value ground.new.value result count.old count.new out.old out.new }
{
    held!(alloc, ground, |node| write_next(&node, out, count))
}

/// Counts the next frame for the link as sent, as `sedge_ground_pull` does. If nothing is to be sent, nothing
/// changes. Returns 0.
#[unsafe(no_mangle)]
pub extern "C" fn sedge_ground_advance(alloc: Global, ground: &mut GroundHandle) -> u8
    ensures none { ground.old.value ≡ None → result ≡ closed }
    ensures open { IfSome ground.old.value (λ s. result ≡ 0) }
    ensures after { ground.new.value ≡ stepped ground.old.value Pull }
{
    held!(alloc, ground, |node| {
        node.advance();
        0
    })
}

/// Writes the length in octets of the oldest telemetry packet, 7 to 65,542, or 0 if none waits. Returns 0.
#[unsafe(no_mangle)]
pub extern "C" fn sedge_ground_next_telemetry(
    alloc: Global,
    ground: &mut GroundHandle,
    count: &mut usize,
) -> u8
    ensures { IsRead (λ s. Some (count_of (ground_step s TakeTelemetry).answer))
        ground.old.value ground.new.value result count.old count.new }
{
    read!(alloc, ground, count, |node| count_of(node.peek_telemetry()))
}

/// Takes the oldest telemetry packet (132.0-B-3, 4.3.2). Writes it and the number of its octets, or 0 octets
/// if none waits. Returns 0 or `SEDGE_NODE_ROOM`.
#[unsafe(no_mangle)]
#[must_use]
pub extern "C" fn sedge_ground_take_telemetry(
    alloc: Global,
    ground: &mut GroundHandle,
    out: &mut [u8],
    count: &mut usize,
) -> u8
    ensures packet { IsHanding next_answer (λ s. (ground_step s TakeTelemetry).answer)
        ground.old.value result count.old count.new out.old out.new }
    ensures after { result ≡ 0 → ground.new.value ≡ stepped ground.old.value TakeTelemetry }
    ensures unchanged { result ≢ 0 → ground.new.value ≡ ground.old.value }
{
    held!(alloc, ground, |node| {
        let answer = hand_out(node.peek_telemetry(), out, count);
        if answer == 0 {
            drop(node.take_telemetry());
        }
        answer
    })
}
