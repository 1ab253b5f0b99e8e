// Filling a data field from the stream.

ghost use Rattle.std.specs.Prelude.{◌≡◌, ◌≤◌, max, length, take};
ghost use Rattle.tm_link.specs.Builder.{idle_packet, idle_tail, data_from, left_after};

use byteorder::{BigEndian, ByteOrder};
use std::collections::VecDeque;

// The idle packet of 7 octets.
const LEAST_IDLE: [u8; 7] = [0x07, 0xff, 0xc0, 0x00, 0x00, 0x00, 0x55];

// Writes what is left of an idle packet, the octets that are held, and an idle packet in the
// remaining room, up to the field's end.
pub(crate) fn put_data(idle_left: usize, held: &[u8], out: &mut [u8])
    requires tail { idle_left ≤ 6 }
    requires most { length out.old ≤ 2048 }
    ensures { out.new ≡ data_from idle_left held.now (length out.old) }
{
    let tail = idle_left.min(out.len());
    let (first, rest) = out.split_at_mut(tail);
    put_idle_tail(idle_left, first);
    let count = held.len().min(rest.len());
    let (packets, fresh) = rest.split_at_mut(count);
    packets.copy_from_slice(&held[..count]);
    put_idle(fresh);
}

fn put_idle_tail(idle_left: usize, out: &mut [u8])
    requires least { idle_left ≤ 6 }
    requires within { length out.old ≤ idle_left }
    ensures { out.new ≡ take (length out.old) (idle_tail idle_left) }
{
    let tail = &LEAST_IDLE[7 - idle_left..];
    out.copy_from_slice(&tail[..out.len()]);
}

// Writes an idle packet of at least 7 octets, as far as there is room.
fn put_idle(out: &mut [u8])
    requires { length out.old ≤ 2048 }
    ensures { out.new ≡ take (length out.old) (idle_packet (max (length out.old) 7)) }
{
    if out.len() < 7 {
        out.copy_from_slice(&LEAST_IDLE[..out.len()]);
    } else {
        put_whole_idle(out);
    }
}

fn put_whole_idle(out: &mut [u8])
    requires least { 7 ≤ length out.old }
    requires most { length out.old ≤ 2048 }
    ensures { out.new ≡ idle_packet (length out.old) }
{
    let (header, filler) = out.split_at_mut(6);
    let (first, last) = header.split_at_mut(4);
    first.copy_from_slice(&LEAST_IDLE[..4]);
    BigEndian::write_u16(last, (filler.len() - 1) as u16);
    filler.fill(0x55);
}

// Moves past this many octets of the packet that was begun and of those after it. Returns how many
// octets are left of the packet that is begun then.
#[tactic(auto, using(crate::proofs::Spelled::passed_within, crate::proofs::Spelled::passed_beyond))]
pub(crate) fn pass(begun: u32, sizes: &mut VecDeque<u32>, count: usize) -> u32
    ensures begun { result ≡ (left_after count begun sizes.old.items).0 }
    ensures sizes { sizes.new.items ≡ (left_after count begun sizes.old.items).1 }
{
    let mut left = begun;
    let mut room = count;
    while (left as usize) < room {
        room -= left as usize;
        match sizes.pop_front() {
            Some(size) => left = size,
            None => return 0,
        }
    }
    left - room as u32
}
