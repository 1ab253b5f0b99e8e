// Parts of a line, each put directly after the one before it. Each call returns the place after what it put.

ghost use Rattle.std.specs.Prelude.{◌≡◌, ◌+◌, ◌*◌, ◌<◌, ◌≤◌, ◌%◌, ◌++◌, [], ◌∷◌};
ghost use Rattle.std.specs.Prelude.{◌/◌, bit_and, codes, decimal, drop, length, map, take, slice_index};
ghost use Rattle.hex.specs.Hex.{encode_upper, upper_digits};
ghost use Rattle.listings.specs.Text.{flag_number, four_digits};

use std::simd::prelude::*;

/// Puts octets.
#[inline(always)]
pub fn put_all(room: &mut [u8], at: usize, octets: &[u8]) -> usize
    requires { at + length octets.now ≤ length room.old }
    ensures put { take result room.new ≡ take at room.old ++ octets.now }
    ensures next { result ≡ at + length octets.now }
{
    let next = at + octets.len();
    room[at..next].copy_from_slice(octets);
    next
}

/// Puts the first N of these octets, by one load and one store.
#[inline(always)]
pub fn put_front<const N: usize>(room: &mut [u8], at: usize, octets: &[u8])
    requires { (N ≤ length octets.now) × (at + N ≤ length room.old) }
    ensures { take (at + N) room.new ≡ take at room.old ++ take N octets.now }
{
    Simd::<u8, N>::from_slice(octets).copy_to_slice(&mut room[at..]);
}

/// Puts the first of these octets, at most N, by one load and one store of N. The rest is written over.
#[inline(always)]
pub fn put_first<const N: usize>(room: &mut [u8], at: usize, octets: &[u8], count: usize) -> usize
    requires room { at + N ≤ length room.old }
    requires most { (count ≤ N) × (N ≤ length octets.now) }
    ensures put { take result room.new ≡ take at room.old ++ take count octets.now }
    ensures next { result ≡ at + count }
{
    put_front::<N>(room, at, octets);
    at + count
}

/// Puts a word of N octets to twice as many: its first N, and its last N over them.
#[inline(always)]
pub fn put_word<const N: usize>(room: &mut [u8], at: usize, word: &[u8]) -> usize
    requires room { at + length word.now ≤ length room.old }
    requires most { (N ≤ length word.now) × (length word.now ≤ N + N) }
    ensures put { take result room.new ≡ take at room.old ++ word.now }
    ensures next { result ≡ at + length word.now }
{
    let next = at + word.len();
    let last = word.len() - N;
    put_front::<N>(room, at, word);
    put_front::<N>(room, at + last, &word[last..]);
    next
}

// The decimal digits of each octet: three places, and how many of them are digits.
static OCTETS: [u8; 1024] = [
    48, 48, 48, 1, 49, 48, 48, 1, 50, 48, 48, 1, 51, 48, 48, 1, 52, 48, 48, 1, 53, 48, 48, 1, 54,
    48, 48, 1, 55, 48, 48, 1, 56, 48, 48, 1, 57, 48, 48, 1, 49, 48, 48, 2, 49, 49, 48, 2, 49, 50,
    48, 2, 49, 51, 48, 2, 49, 52, 48, 2, 49, 53, 48, 2, 49, 54, 48, 2, 49, 55, 48, 2, 49, 56, 48,
    2, 49, 57, 48, 2, 50, 48, 48, 2, 50, 49, 48, 2, 50, 50, 48, 2, 50, 51, 48, 2, 50, 52, 48, 2,
    50, 53, 48, 2, 50, 54, 48, 2, 50, 55, 48, 2, 50, 56, 48, 2, 50, 57, 48, 2, 51, 48, 48, 2, 51,
    49, 48, 2, 51, 50, 48, 2, 51, 51, 48, 2, 51, 52, 48, 2, 51, 53, 48, 2, 51, 54, 48, 2, 51, 55,
    48, 2, 51, 56, 48, 2, 51, 57, 48, 2, 52, 48, 48, 2, 52, 49, 48, 2, 52, 50, 48, 2, 52, 51, 48,
    2, 52, 52, 48, 2, 52, 53, 48, 2, 52, 54, 48, 2, 52, 55, 48, 2, 52, 56, 48, 2, 52, 57, 48, 2,
    53, 48, 48, 2, 53, 49, 48, 2, 53, 50, 48, 2, 53, 51, 48, 2, 53, 52, 48, 2, 53, 53, 48, 2, 53,
    54, 48, 2, 53, 55, 48, 2, 53, 56, 48, 2, 53, 57, 48, 2, 54, 48, 48, 2, 54, 49, 48, 2, 54, 50,
    48, 2, 54, 51, 48, 2, 54, 52, 48, 2, 54, 53, 48, 2, 54, 54, 48, 2, 54, 55, 48, 2, 54, 56, 48,
    2, 54, 57, 48, 2, 55, 48, 48, 2, 55, 49, 48, 2, 55, 50, 48, 2, 55, 51, 48, 2, 55, 52, 48, 2,
    55, 53, 48, 2, 55, 54, 48, 2, 55, 55, 48, 2, 55, 56, 48, 2, 55, 57, 48, 2, 56, 48, 48, 2, 56,
    49, 48, 2, 56, 50, 48, 2, 56, 51, 48, 2, 56, 52, 48, 2, 56, 53, 48, 2, 56, 54, 48, 2, 56, 55,
    48, 2, 56, 56, 48, 2, 56, 57, 48, 2, 57, 48, 48, 2, 57, 49, 48, 2, 57, 50, 48, 2, 57, 51, 48,
    2, 57, 52, 48, 2, 57, 53, 48, 2, 57, 54, 48, 2, 57, 55, 48, 2, 57, 56, 48, 2, 57, 57, 48, 2,
    49, 48, 48, 3, 49, 48, 49, 3, 49, 48, 50, 3, 49, 48, 51, 3, 49, 48, 52, 3, 49, 48, 53, 3, 49,
    48, 54, 3, 49, 48, 55, 3, 49, 48, 56, 3, 49, 48, 57, 3, 49, 49, 48, 3, 49, 49, 49, 3, 49, 49,
    50, 3, 49, 49, 51, 3, 49, 49, 52, 3, 49, 49, 53, 3, 49, 49, 54, 3, 49, 49, 55, 3, 49, 49, 56,
    3, 49, 49, 57, 3, 49, 50, 48, 3, 49, 50, 49, 3, 49, 50, 50, 3, 49, 50, 51, 3, 49, 50, 52, 3,
    49, 50, 53, 3, 49, 50, 54, 3, 49, 50, 55, 3, 49, 50, 56, 3, 49, 50, 57, 3, 49, 51, 48, 3, 49,
    51, 49, 3, 49, 51, 50, 3, 49, 51, 51, 3, 49, 51, 52, 3, 49, 51, 53, 3, 49, 51, 54, 3, 49, 51,
    55, 3, 49, 51, 56, 3, 49, 51, 57, 3, 49, 52, 48, 3, 49, 52, 49, 3, 49, 52, 50, 3, 49, 52, 51,
    3, 49, 52, 52, 3, 49, 52, 53, 3, 49, 52, 54, 3, 49, 52, 55, 3, 49, 52, 56, 3, 49, 52, 57, 3,
    49, 53, 48, 3, 49, 53, 49, 3, 49, 53, 50, 3, 49, 53, 51, 3, 49, 53, 52, 3, 49, 53, 53, 3, 49,
    53, 54, 3, 49, 53, 55, 3, 49, 53, 56, 3, 49, 53, 57, 3, 49, 54, 48, 3, 49, 54, 49, 3, 49, 54,
    50, 3, 49, 54, 51, 3, 49, 54, 52, 3, 49, 54, 53, 3, 49, 54, 54, 3, 49, 54, 55, 3, 49, 54, 56,
    3, 49, 54, 57, 3, 49, 55, 48, 3, 49, 55, 49, 3, 49, 55, 50, 3, 49, 55, 51, 3, 49, 55, 52, 3,
    49, 55, 53, 3, 49, 55, 54, 3, 49, 55, 55, 3, 49, 55, 56, 3, 49, 55, 57, 3, 49, 56, 48, 3, 49,
    56, 49, 3, 49, 56, 50, 3, 49, 56, 51, 3, 49, 56, 52, 3, 49, 56, 53, 3, 49, 56, 54, 3, 49, 56,
    55, 3, 49, 56, 56, 3, 49, 56, 57, 3, 49, 57, 48, 3, 49, 57, 49, 3, 49, 57, 50, 3, 49, 57, 51,
    3, 49, 57, 52, 3, 49, 57, 53, 3, 49, 57, 54, 3, 49, 57, 55, 3, 49, 57, 56, 3, 49, 57, 57, 3,
    50, 48, 48, 3, 50, 48, 49, 3, 50, 48, 50, 3, 50, 48, 51, 3, 50, 48, 52, 3, 50, 48, 53, 3, 50,
    48, 54, 3, 50, 48, 55, 3, 50, 48, 56, 3, 50, 48, 57, 3, 50, 49, 48, 3, 50, 49, 49, 3, 50, 49,
    50, 3, 50, 49, 51, 3, 50, 49, 52, 3, 50, 49, 53, 3, 50, 49, 54, 3, 50, 49, 55, 3, 50, 49, 56,
    3, 50, 49, 57, 3, 50, 50, 48, 3, 50, 50, 49, 3, 50, 50, 50, 3, 50, 50, 51, 3, 50, 50, 52, 3,
    50, 50, 53, 3, 50, 50, 54, 3, 50, 50, 55, 3, 50, 50, 56, 3, 50, 50, 57, 3, 50, 51, 48, 3, 50,
    51, 49, 3, 50, 51, 50, 3, 50, 51, 51, 3, 50, 51, 52, 3, 50, 51, 53, 3, 50, 51, 54, 3, 50, 51,
    55, 3, 50, 51, 56, 3, 50, 51, 57, 3, 50, 52, 48, 3, 50, 52, 49, 3, 50, 52, 50, 3, 50, 52, 51,
    3, 50, 52, 52, 3, 50, 52, 53, 3, 50, 52, 54, 3, 50, 52, 55, 3, 50, 52, 56, 3, 50, 52, 57, 3,
    50, 53, 48, 3, 50, 53, 49, 3, 50, 53, 50, 3, 50, 53, 51, 3, 50, 53, 52, 3, 50, 53, 53, 3,
];

// Returns the entry of an octet, and all after it.
#[inline(always)]
fn entry_of(octet: u8) -> &'static [u8]
    ensures room { 4 ≤ length result.now }
    ensures digits { take (slice_index result.now 3) result.now ≡ decimal octet }
    ensures count { slice_index result.now 3 ≡ length (decimal octet) }
    ensures few { slice_index result.now 3 ≤ 3 }
{
    let at = 4 * usize::from(octet);
    &OCTETS[at..]
}

// Puts the decimal digits of an octet, which are at most three.
#[inline(always)]
fn put_octet(room: &mut [u8], at: usize, octet: u8) -> usize
    requires { at + 4 ≤ length room.old }
    ensures put { take result room.new ≡ take at room.old ++ decimal octet }
    ensures next { result ≡ at + length (decimal octet) }
    ensures few { result ≤ at + 3 }
{
    let entry = entry_of(octet);
    put_front::<4>(room, at, entry);
    at + usize::from(entry[3])
}

/// Puts a word, and the decimal digits of an octet after it, which are at most three.
#[inline(always)]
pub fn put_field<const N: usize>(room: &mut [u8], at: usize, word: &[u8], octet: u8) -> usize
    requires room { at + (length word.now + 4) ≤ length room.old }
    requires most { (N ≤ length word.now) × (length word.now ≤ N + N) }
    ensures put { take result room.new ≡ take at room.old ++ (word.now ++ decimal octet) }
    ensures next { result ≤ at + (length word.now + 3) }
{
    let next = put_word::<N>(room, at, word);
    put_octet(room, next, octet)
}

/// Puts a word, and a number's decimal digits after it, which are at most five.
#[inline(always)]
#[tactic(auto, using(crate::proofs::Digits::at_most_five))]
pub fn put_long_field<const N: usize>(room: &mut [u8], at: usize, word: &[u8], number: u16) -> usize
    requires room { at + (length word.now + 5) ≤ length room.old }
    requires most { (N ≤ length word.now) × (length word.now ≤ N + N) }
    ensures put { take result room.new ≡ take at room.old ++ (word.now ++ decimal number) }
    ensures next { result ≤ at + (length word.now + 5) }
{
    let next = put_word::<N>(room, at, word);
    if number < 256 {
        return put_octet(room, next, number as u8);
    }
    put_eight(room, next, u32::from(number))
}

#[tactic(auto, using(std::proofs::lemmas::Fmt::decimal_digit))]
fn digit_of_flag(flag: bool) -> u8
    ensures { result ∷ [] ≡ decimal (flag_number flag) }
{
    if flag { b'1' } else { b'0' }
}

/// Puts a word, and a flag as 0 or 1 after it.
#[inline(always)]
pub fn put_flag<const N: usize>(room: &mut [u8], at: usize, word: &[u8], flag: bool) -> usize
    requires room { at + (length word.now + 1) ≤ length room.old }
    requires most { (N ≤ length word.now) × (length word.now ≤ N + N) }
    ensures put { take result room.new ≡ take at room.old
        ++ (word.now ++ decimal (flag_number flag)) }
    ensures next { result ≡ at + (length word.now + 1) }
{
    let next = put_word::<N>(room, at, word);
    put_word::<1>(room, next, &[digit_of_flag(flag)])
}

/// Puts a word of three octets, the first of these four, and a flag as 0 or 1 after it.
#[inline(always)]
pub fn put_short_flag(room: &mut [u8], at: usize, word: &[u8; 4], flag: bool) -> usize
    requires { at + 4 ≤ length room.old }
    ensures put { take result room.new ≡ take at room.old
        ++ (take 3 word.now ++ decimal (flag_number flag)) }
    ensures next { result ≡ at + 4 }
{
    let next = put_first::<4>(room, at, word, 3);
    put_word::<1>(room, next, &[digit_of_flag(flag)])
}

/// Puts a word of three octets, the first of these four, and the decimal digits of an octet after it.
#[inline(always)]
pub fn put_short_field(room: &mut [u8], at: usize, word: &[u8; 4], octet: u8) -> usize
    requires { at + 7 ≤ length room.old }
    ensures put { take result room.new ≡ take at room.old ++ (take 3 word.now ++ decimal octet) }
    ensures next { result ≤ at + 6 }
{
    let next = put_first::<4>(room, at, word, 3);
    put_octet(room, next, octet)
}

/// Puts the decimal digits of the number of a record, which are at most twenty.
#[inline(never)]
#[tactic(auto, using(crate::proofs::Digits::at_most_twenty))]
pub fn put_number(room: &mut [u8], at: usize, number: u64) -> usize
    requires { at + 20 ≤ length room.old }
    ensures put { take result room.new ≡ take at room.old ++ decimal number }
    ensures next { result ≤ at + 20 }
{
    if number < 100_000_000 {
        return put_eight(room, at, number as u32);
    }
    put_long(room, at, number)
}

// Puts at most eight decimal digits. A call of its own keeps a line short enough to be inlined.
#[inline(never)]
#[tactic(auto, using(crate::proofs::Digits::four_more))]
fn put_eight(room: &mut [u8], at: usize, number: u32) -> usize
    requires room { at + length (decimal number) ≤ length room.old }
    requires five { at + 5 ≤ length room.old }
    requires eight { number < 100000000 }
    ensures put { take result room.new ≡ take at room.old ++ decimal number }
    ensures next { result ≡ at + length (decimal number) }
{
    if number < 10000 {
        return put_upper(room, at, number as u16);
    }
    let next = put_upper(room, at, (number / 10000) as u16);
    put_four(room, next, (number % 10000) as u16)
}

#[tactic(auto, using(crate::proofs::Digits::then_four, crate::proofs::Digits::four_more))]
fn put_long(room: &mut [u8], at: usize, number: u64) -> usize
    requires room { at + length (decimal number) ≤ length room.old }
    requires five { at + 5 ≤ length room.old }
    ensures put { take result room.new ≡ take at room.old ++ decimal number }
    ensures next { result ≡ at + length (decimal number) }
{
    if number < 10000 {
        return put_upper(room, at, number as u16);
    }
    let next = put_long(room, at, number / 10000);
    put_four(room, next, (number % 10000) as u16)
}

// Puts the decimal digits of a number below 10,000.
#[inline(always)]
fn put_upper(room: &mut [u8], at: usize, number: u16) -> usize
    requires room { at + 5 ≤ length room.old }
    requires four { number < 10000 }
    ensures put { take result room.new ≡ take at room.old ++ decimal number }
    ensures next { result ≡ at + length (decimal number) }
{
    if number < 256 {
        return put_octet(room, at, number as u8);
    }
    if number < 1000 {
        let next = put_octet(room, at, (number / 10) as u8);
        return put_word::<1>(room, next, &[b'0' + (number % 10) as u8]);
    }
    let next = put_octet(room, at, (number / 100) as u8);
    put_two(room, next, (number % 100) as u8)
}

// Puts two decimal digits, which are the last two of three.
#[inline(always)]
fn put_two(room: &mut [u8], at: usize, number: u8) -> usize
    requires room { at + 2 ≤ length room.old }
    requires two { number < 100 }
    ensures put { take result room.new
        ≡ take at room.old ++ (48 + number / 10) ∷ (48 + number % 10) ∷ [] }
    ensures next { result ≡ at + 2 }
{
    let entry = entry_of(number + 100);
    put_front::<2>(room, at, &entry[1..]);
    at + 2
}

// Puts four decimal digits.
#[inline(always)]
fn put_four(room: &mut [u8], at: usize, number: u16) -> usize
    requires room { at + 4 ≤ length room.old }
    requires four { number < 10000 }
    ensures put { take result room.new ≡ take at room.old ++ four_digits number }
    ensures next { result ≡ at + 4 }
{
    let next = put_two(room, at, (number / 100) as u8);
    put_two(room, next, (number % 100) as u8)
}

/// Puts octets as upper-case hexadecimal digits.
#[inline(always)]
pub fn put_digits(room: &mut [u8], at: usize, octets: &[u8]) -> usize
    requires { at + 2 * length octets.now ≤ length room.old }
    ensures put { take result room.new ≡ take at room.old ++ encode_upper octets.now }
    ensures next { result ≡ at + 2 * length octets.now }
{
    let next = at + 2 * octets.len();
    write_digits(&mut room[at..next], octets);
    next
}

const UPPER: [u8; 16] = *b"0123456789ABCDEF";

// Returns the first digit of each octet. Lanes below 16 are looked up in the table.
#[inline(always)]
fn high_digits(octets: u8x16) -> u8x16
    ensures { result ≡ map (λ x. slice_index upper_digits (x / 16)) octets }
{
    u8x16::from_array(UPPER).swizzle_dyn(octets >> u8x16::splat(4))
}

// Returns the second digit of each octet.
#[inline(always)]
fn low_digits(octets: u8x16) -> u8x16
    ensures { result ≡ map (λ x. slice_index upper_digits (x % 16)) octets }
{
    u8x16::from_array(UPPER).swizzle_dyn(octets & u8x16::splat(15))
}

// Returns the digits of sixteen octets. Lanes from 16 on are those of the second digits.
#[inline(always)]
fn digits_of_sixteen(octets: u8x16) -> u8x32
    ensures { result ≡ encode_upper octets }
{
    let high = high_digits(octets);
    high.shuffle(
        low_digits(octets),
        [
            0, 16, 1, 17, 2, 18, 3, 19, 4, 20, 5, 21, 6, 22, 7, 23, 8, 24, 9, 25, 10, 26, 11, 27,
            12, 28, 13, 29, 14, 30, 15, 31,
        ],
    )
}

// Writes the digits of the sixteen octets from a place on.
#[inline(always)]
fn write_sixteen(digits: &mut [u8], octets: &[u8], at: usize)
    requires octets { at + 16 ≤ length octets.now }
    requires digits { length digits.old ≡ 2 * length octets.now }
    ensures len { length digits.new ≡ length digits.old }
    ensures written { take (2 * (at + 16)) digits.new
        ≡ take (2 * at) digits.old ++ encode_upper (take 16 (drop at octets.now)) }
{
    let sixteen = u8x16::from_slice(&octets[at..]);
    digits_of_sixteen(sixteen).copy_to_slice(&mut digits[2 * at..]);
}

fn write_digits(digits: &mut [u8], octets: &[u8])
    requires { length digits.old ≡ 2 * length octets.now }
    ensures { digits.new ≡ encode_upper octets.now }
{
    if octets.len() < 16 {
        write_few(digits, octets);
    } else {
        write_many(digits, octets);
    }
}

// Writes the digits of all octets. The octets after the last whole sixteen are written with some before them,
// which are then written twice.
#[inline(always)]
fn write_many(digits: &mut [u8], octets: &[u8])
    requires octets { 16 ≤ length octets.now }
    requires digits { length digits.old ≡ 2 * length octets.now }
    ensures { digits.new ≡ encode_upper octets.now }
{
    let whole = octets.len() / 16;
    'sixteens: for k in 0..whole {
        write_sixteen(digits, octets, 16 * k);
    }
    write_sixteen(digits, octets, octets.len() - 16);
}

fn write_few(digits: &mut [u8], octets: &[u8])
    requires { length digits.old ≡ 2 * length octets.now }
    ensures { digits.new ≡ encode_upper octets.now }
{
    'octets: for i in 0..octets.len() {
        let octet = octets[i];
        digits[2 * i] = digit_of(octet / 16);
        digits[2 * i + 1] = digit_of(octet % 16);
    }
}

#[inline(always)]
fn digit_of(value: u8) -> u8
    requires { value < 16 }
    ensures { result ≡ slice_index upper_digits value }
{
    if value < 10 {
        b'0' + value
    } else {
        b'7' + value
    }
}
