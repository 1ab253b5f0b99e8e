// The check of a frame: how it is computed, set and tested.

ghost use Rattle.std.specs.Prelude.{◌≡◌, ◌≤◌, ◌<◌, ◌+◌, ◌-◌, ◌*◌, ◌^◌, ◌/◌, ◌%◌, ◌++◌, ◌↔◌, IsTrue, length, take, bit_xor, slice_index};
ghost use Rattle.byteorder.specs.Endian.{big_bytes};
ghost use Rattle.octets.specs.Check.{check_of, HoldsCheck};
ghost use Rattle.octets.specs.Number.{IsOctets};
ghost use Rattle.octets.specs.Check.{entry_at, entries_after};

use crate::number::first_two;
use crate::table::entry;
use byteorder::{BigEndian, ByteOrder};

/// Returns the check of the octets: generator `x^16 + x^12 + x^5 + 1`, register preset to ones, no
/// final inversion (CCSDS 232.0-B-4, 4.1.4.2; CCSDS 132.0-B-3, 4.1.6.2).
/// Cost: n.
#[inline(never)]
pub fn check(octets: &[u8]) -> u16
    ensures { result ≡ check_of octets.now }
{
    let mut register: u16 = 0xffff;
    let mut left = octets;
    while let Some((sixteen, rest)) = left.split_first_chunk::<16>() {
        register = after_sixteen(register, sixteen);
        left = rest;
    }
    while let Some((eight, rest)) = left.split_first_chunk::<8>() {
        register = after_eight(register, eight);
        left = rest;
    }
    for octet in left {
        register = after_one(register, *octet);
    }
    register
}

// The register after an octet.
#[inline(always)]
fn after_one(register: u16, octet: u8) -> u16
    ensures after { result
        ≡ bit_xor (register % 256 * 256) (entry_at 0 (bit_xor (register / 256) octet)) }
    ensures octet { octet < 2 ^ 8 }
{
    ((register & 0xff) << 8) ^ entry(0, (register >> 8) as u8 ^ octet)
}

// The sum with what four octets add; the last of the four is followed by `later` more octets.
#[inline(always)]
fn with_four(sum: u16, later: usize, octets: [u8; 4]) -> u16
    requires { later ≤ 12 }
    ensures { let x = slice_index octets in result
        ≡ bit_xor (bit_xor (bit_xor (bit_xor sum (entry_at later (x 3))) (entry_at (later + 1) (x 2)))
        (entry_at (later + 2) (x 1))) (entry_at (later + 3) (x 0)) }
{
    let [a, b, c, d] = octets;
    sum ^ entry(later, d) ^ entry(later + 1, c) ^ entry(later + 2, b) ^ entry(later + 3, a)
}

// The register after sixteen octets. What each octet adds is looked up as it is after the last
// octet, so that no lookup waits for another. The lookups that need the register come last.
#[inline(always)]
fn after_sixteen(register: u16, octets: &[u8; 16]) -> u16
    ensures after { result ≡ entries_after 13 register (slice_index octets.now) }
    ensures octets { IsOctets octets.now }
{
    let [a, b, c, d, e, f, g, h, i, j, k, l, m, n, o, p] = *octets;
    let sum = with_four(0, 0, [m, n, o, p]);
    let sum = with_four(sum, 4, [i, j, k, l]);
    let sum = with_four(sum, 8, [e, f, g, h]);
    let first = [(register / 256) as u8 ^ a, (register % 256) as u8 ^ b, c, d];
    with_four(sum, 12, first)
}

// The register after eight octets, as after sixteen.
#[inline(always)]
fn after_eight(register: u16, octets: &[u8; 8]) -> u16
    ensures after { result ≡ entries_after 5 register (slice_index octets.now) }
    ensures octets { IsOctets octets.now }
{
    let [a, b, c, d, e, f, g, h] = *octets;
    let sum = with_four(0, 0, [e, f, g, h]);
    let first = [(register / 256) as u8 ^ a, (register % 256) as u8 ^ b, c, d];
    with_four(sum, 4, first)
}

/// Sets the last two octets to the check of the octets before them (CCSDS 232.0-B-4, 4.1.4.2).
/// Cost: n.
pub fn append_check(octets: &mut [u8])
    requires { 2 ≤ length octets.old }
    ensures { let front = take (length octets.old - 2) octets.old in
        octets.new ≡ front ++ big_bytes 2 (check_of front) }
{
    let len = octets.len() - 2;
    let value = check(&octets[..len]);
    BigEndian::write_u16(&mut octets[len..], value);
}

/// Returns whether the last two octets are the check of the octets before them; false for fewer
/// than two octets (CCSDS 232.0-B-4, 4.1.4.3).
/// Cost: n.
pub fn check_holds(octets: &[u8]) -> bool
    ensures { IsTrue result ↔ HoldsCheck octets.now }
{
    if octets.len() < 2 {
        return false;
    }
    let (front, tail) = octets.split_at(octets.len() - 2);
    first_two(tail) == check(front)
}
