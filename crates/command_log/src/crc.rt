// The check of records, statuses, orders and command packets.

ghost use Rattle.std.specs.Prelude.{◌≡◌, ◌≤◌, ◌<◌, ◌-◌, ◌^◌, length, take, bit_xor};
ghost use Rattle.command_log.specs.Check.{check_of, check_after, sealed, holds_check};
ghost use Rattle.command_log.specs.Check.{register_step, register_after};
ghost use Rattle.command_log.specs.History.{history_after};

use byteorder::{BigEndian, ByteOrder};

/// Returns the check of the octets: CRC-32 (ISO/IEC 3309, IEEE 802.3), like zlib's `crc32`.
/// Cost: n.
pub fn check(octets: &[u8]) -> u32
    ensures { result ≡ check_of octets.now }
{
    check_after(0, octets)
}

// One copy of this code, since a board has little memory.
#[inline(never)]
fn check_after(check: u32, octets: &[u8]) -> u32
    ensures { result ≡ check_after check octets.now }
{
    let mut register = u32::MAX - check;
    for octet in octets {
        register = after_octet(register, *octet);
    }
    u32::MAX - register
}

/// Returns the history after one more command packet: CRC-32 continued over the packet's check, its last four
/// octets. The history of no packets is 0.
pub fn history_after(history: u32, packet: &[u8]) -> u32
    ensures { result ≡ history_after history packet.now }
{
    let front = packet.len().saturating_sub(4);
    check_after(history, &packet[front..])
}

fn after_octet(register: u32, octet: u8) -> u32
    ensures after { result ≡ register_after 8 (bit_xor register octet) }
    ensures octet { octet < 2 ^ 8 }
{
    let mut after = register ^ u32::from(octet);
    for _bit in 0..8u8 {
        after = after_bit(after);
    }
    after
}

fn after_bit(register: u32) -> u32
    ensures { result ≡ register_step register }
{
    (register / 2) ^ (register % 2 * 0xEDB8_8320)
}

/// Sets the last four octets to the check of the octets before them.
/// Cost: n.
pub(crate) fn append_check(octets: &mut [u8])
    requires { 4 ≤ length octets.old }
    ensures { octets.new ≡ sealed (take (length octets.old - 4) octets.old) }
{
    let len = octets.len() - 4;
    let value = check(&octets[..len]);
    BigEndian::write_u32(&mut octets[len..], value);
}

/// Returns whether the last four octets are the check of the octets before them; false for fewer than four.
/// Cost: n.
pub fn check_holds(octets: &[u8]) -> bool
    ensures { result ≡ holds_check octets.now }
{
    if octets.len() < 4 {
        return false;
    }
    let (front, tail) = octets.split_at(octets.len() - 4);
    BigEndian::read_u32(tail) == check(front)
}
