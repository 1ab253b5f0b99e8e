// The packets that a program in C takes from its spacecraft, and the frames that the spacecraft sends.

ghost use Rattle.std.specs.Prelude.{◌≡◌, ◌≢◌, ◌++◌, drop, length, option_map, true, false, Some};
ghost use Rattle.tm_link.specs.Encoding.{spelling};
ghost use Rattle.nodes.specs.Packets.{lent_packet};
ghost use Rattle.nodes.specs.Spacecraft.{Report, spacecraft_step};
ghost use Rattle.sedgechisel_nodes.specs.Spacecraft.{next_packet, after_taking, IsDescribed, IsTaken};
ghost use Rattle.sedgechisel_nodes.specs.Calls.{room_answer, IsSent};

use crate::answers::ROOM;
use crate::handles::SpacecraftHandle;
use crate::room::{describe, hand_out_on};
use nodes::Spacecraft;
use std::alloc::Global;

// The packet that is taken next: a bypass packet, or one of sequence-controlled frames.
fn next_packet(node: &Spacecraft, past: bool) -> Option<(u8, &[u8])>
    ensures { option_map lent_packet result ≡ next_packet past node.now }
{
    if past {
        node.peek_bypass()
    } else {
        node.peek()
    }
}

fn drop_next(node: &mut Spacecraft, past: bool)
    ensures { node.new ≡ after_taking past node.old }
{
    if past {
        drop(node.take_bypass());
    } else {
        drop(node.take());
    }
}

fn described(
    alloc: Global,
    spacecraft: &mut SpacecraftHandle,
    past: bool,
    map: &mut u8,
    count: &mut usize,
) -> u8
    ensures { IsDescribed past spacecraft.old.value spacecraft.new.value result map.old map.new count.old count.new }
{
    held!(alloc, spacecraft, |node| {
        describe(next_packet(&node, past), map, count);
        0
    })
}

/// Writes the MAP of the oldest packet of sequence-controlled frames, and the number of its octets, 7 to
/// 65,542; or writes only 0 to `count` if none waits. Returns 0.
#[unsafe(no_mangle)]
pub extern "C" fn sedge_spacecraft_next(
    alloc: Global,
    spacecraft: &mut SpacecraftHandle,
    map: &mut u8,
    count: &mut usize,
) -> u8
    ensures { IsDescribed false spacecraft.old.value spacecraft.new.value result map.old map.new count.old count.new }
{
    described(alloc, spacecraft, false, map, count)
}

/// Writes the MAP and the number of octets of the oldest bypass packet, as `sedge_spacecraft_next` does.
/// Returns 0.
#[unsafe(no_mangle)]
pub extern "C" fn sedge_spacecraft_next_bypass(
    alloc: Global,
    spacecraft: &mut SpacecraftHandle,
    map: &mut u8,
    count: &mut usize,
) -> u8
    ensures { IsDescribed true spacecraft.old.value spacecraft.new.value result map.old map.new count.old count.new }
{
    described(alloc, spacecraft, true, map, count)
}

fn taken(
    alloc: Global,
    spacecraft: &mut SpacecraftHandle,
    past: bool,
    map: &mut u8,
    out: &mut [u8],
    count: &mut usize,
) -> u8
    ensures { IsTaken past
        spacecraft.old.value spacecraft.new.value result map.old map.new count.old count.new out.old out.new }
{
    held!(alloc, spacecraft, |node| {
        let answer = hand_out_on(next_packet(&node, past), map, out, count);
        if answer == 0 {
            drop_next(&mut node, past);
        }
        answer
    })
}

/// Takes the oldest packet of sequence-controlled frames (232.0-B-4, 4.4). Writes its MAP, the packet, and
/// the number of its octets; or writes only 0 to `count` if none waits. Returns 0 or `SEDGE_NODE_ROOM`.
#[unsafe(no_mangle)]
#[must_use]
pub extern "C" fn sedge_spacecraft_take(
    alloc: Global,
    spacecraft: &mut SpacecraftHandle,
    map: &mut u8,
    out: &mut [u8],
    count: &mut usize,
) -> u8
    ensures { IsTaken false
        spacecraft.old.value spacecraft.new.value result map.old map.new count.old count.new out.old out.new }
{
    taken(alloc, spacecraft, false, map, out, count)
}

/// Takes the oldest bypass packet (232.0-B-4, 4.4), as `sedge_spacecraft_take` does. Returns 0 or
/// `SEDGE_NODE_ROOM`.
#[unsafe(no_mangle)]
#[must_use]
pub extern "C" fn sedge_spacecraft_take_bypass(
    alloc: Global,
    spacecraft: &mut SpacecraftHandle,
    map: &mut u8,
    out: &mut [u8],
    count: &mut usize,
) -> u8
    ensures { IsTaken true
        spacecraft.old.value spacecraft.new.value result map.old map.new count.old count.new out.old out.new }
{
    taken(alloc, spacecraft, true, map, out, count)
}

// Writes the next telemetry frame of a spacecraft, if it fits.
fn reported(node: &mut Spacecraft, out: &mut [u8], count: &mut usize) -> u8
    ensures answer { result ≡ room_answer (Some node.old.config.frame_length) (length out.old) }
    ensures after { result ≡ 0 → node.new ≡ (spacecraft_step node.old Report).after }
    ensures count { result ≡ 0 → count.new ≡ node.old.config.frame_length }
    ensures frame { result ≡ 0 → out.new
        ≡ spelling (spacecraft_step node.old Report).answer ++ drop count.new out.old }
    ensures unchanged { result ≢ 0
        → (node.new ≡ node.old) × (count.new ≡ count.old) × (out.new ≡ out.old) }
{
    if out.len() < node.frame_length() {
        return ROOM;
    }
    *count = node.report_in(out);
    0
}

/// Writes the next telemetry frame (132.0-B-3, 4.1), which reports on the receiver, and the number of its
/// octets, which is frame_length. Returns 0 or `SEDGE_NODE_ROOM`.
#[unsafe(no_mangle)]
#[must_use]
pub extern "C" fn sedge_spacecraft_telemetry_frame(
    alloc: Global,
    spacecraft: &mut SpacecraftHandle,
    out: &mut [u8],
    count: &mut usize,
) -> u8
    ensures { IsSent (λ s. Some s.config.frame_length)
        (λ s room. spelling (spacecraft_step s Report).answer ++ drop s.config.frame_length room)
        (λ s. (spacecraft_step s Report).after)
        spacecraft.old.value spacecraft.new.value result count.old count.new out.old out.new }
{
    held!(alloc, spacecraft, |node| reported(&mut node, out, count))
}
