// What is written to the caller's buffer.

ghost use Rattle.std.specs.Prelude.{◌≡◌, ◌≢◌, ◌≤◌, ◌++◌, drop, length, option_map, option_copied};
ghost use Rattle.nodes.specs.Packets.{lent_packet};
ghost use Rattle.sedgechisel_nodes.specs.Calls.{IsWritten, next_answer, count_of, octets_on, map_left, IsHandedOut};

use crate::answers::{ABSENT, ROOM};

// Writes a value, if there is one; returns 253 if there is none.
pub(crate) fn write<T: Drop>(value: Option<T>, out: &mut T) -> u8
    ensures { IsWritten value result out.old out.new }
{
    match value {
        Some(value) => {
            *out = value;
            0
        }
        None => ABSENT,
    }
}

// Copies octets to the beginning of the buffer.
pub(crate) fn copy(octets: &[u8], out: &mut [u8])
    requires { length octets.now ≤ length out.old }
    ensures { out.new ≡ octets.now ++ drop (length octets.now) out.old }
{
    out[..octets.len()].copy_from_slice(octets);
}

// How many octets there are, 0 for none.
pub(crate) fn count_of(octets: Option<&[u8]>) -> usize
    ensures { result ≡ count_of (option_copied octets.entry) }
{
    match octets {
        Some(octets) => octets.len(),
        None => 0,
    }
}

// Writes octets to the buffer, if there are any; returns 252 if the buffer is too short.
pub(crate) fn hand_out(octets: Option<&[u8]>, out: &mut [u8], count: &mut usize) -> u8
    ensures answer { result ≡ next_answer (option_copied octets.entry) (length out.old) }
    ensures handed { result ≡ 0
        → IsHandedOut (option_copied octets.entry) count.new out.old out.new }
    ensures unchanged { result ≢ 0 → (count.new ≡ count.old) × (out.new ≡ out.old) }
{
    let Some(octets) = octets else {
        *count = 0;
        return 0;
    };
    if out.len() < octets.len() {
        return ROOM;
    }
    copy(octets, out);
    *count = octets.len();
    0
}

// Writes the packet's MAP and the number of its octets; or only 0 octets if there is none.
pub(crate) fn describe(packet: Option<(u8, &[u8])>, map: &mut u8, count: &mut usize)
    ensures map { map.new ≡ map_left (option_map lent_packet packet.entry) map.old }
    ensures count { count.new ≡ count_of (octets_on (option_map lent_packet packet.entry)) }
{
    match packet {
        Some((on_map, octets)) => {
            *map = on_map;
            *count = octets.len();
        }
        None => *count = 0,
    }
}

// Writes a packet to the buffer, and its MAP, if there is one; returns 252 if the buffer is too short.
pub(crate) fn hand_out_on(
    packet: Option<(u8, &[u8])>,
    map: &mut u8,
    out: &mut [u8],
    count: &mut usize,
) -> u8
    ensures answer { result
        ≡ next_answer (octets_on (option_map lent_packet packet.entry)) (length out.old) }
    ensures map { result ≡ 0 → map.new ≡ map_left (option_map lent_packet packet.entry) map.old }
    ensures handed { result ≡ 0 → IsHandedOut (octets_on (option_map lent_packet packet.entry))
        count.new out.old out.new }
    ensures unchanged { result ≢ 0
        → (map.new ≡ map.old) × (count.new ≡ count.old) × (out.new ≡ out.old) }
{
    let Some((on_map, octets)) = packet else {
        *count = 0;
        return 0;
    };
    let answer = hand_out(Some(octets), out, count);
    if answer == 0 {
        *map = on_map;
    }
    answer
}
