// The number of a record, with its written digits.

ghost use Rattle.std.specs.Prelude.{◌≡◌, ◌+◌, ◌-◌, ◌*◌, ◌<◌, ◌≤◌, ◌^◌, ◌++◌, ℕ, decimal, length, take};
ghost use Rattle.listings.specs.Text.{leading_digits};

use crate::parts::{put_all, put_first, put_number, put_word};
use std::marker::Model;

/// The number of a record, with its decimal digits. The next number mostly differs only in the last digit;
/// all digits are put again only for each tenth number.
#[derive(Drop)]
pub struct RecordNumber {
    tens: u64,
    // The last digit is stored separately. A processor would wait if it read eight octets just after one of
    // them was stored.
    last: u8,
    digits: [u8; 24],
    upper: usize,
}

impl Model for RecordNumber {
    ghost Value = { ℕ };

    ghost view = { λ n. 10 * n.tens + (n.last - 48) };

    ghost invariant = { λ n. (take n.upper n.digits ≡ leading_digits n.tens) × (n.upper ≤ 19)
        × (48 ≤ n.last) × (n.last ≤ 57) × (10 * n.tens + (n.last - 48) < 2 ^ 64) };
}

impl RecordNumber {
    /// Creates the number 0, which no record has.
    pub fn new() -> Self
        ensures { result ≡ 0 }
    {
        RecordNumber {
            tens: 0,
            last: b'0',
            digits: [b'0'; 24],
            upper: 0,
        }
    }

    /// Advances to the next number.
    #[inline(always)]
    pub fn step(&mut self)
        requires { self.old + 1 < 2 ^ 64 }
        ensures { self.new ≡ self.old + 1 }
    {
        if self.last < b'9' {
            self.last += 1;
        } else {
            self.tens += 1;
            self.last = b'0';
            self.upper = put_number(&mut self.digits, 0, self.tens);
        }
    }

    /// Returns the number after this one.
    pub fn following(&self) -> Self
        requires { self.now + 1 < 2 ^ 64 }
        ensures { result ≡ self.now + 1 }
    {
        let mut next = RecordNumber {
            tens: self.tens,
            last: self.last,
            digits: self.digits,
            upper: self.upper,
        };
        next.step();
        next
    }

    /// Returns the number.
    pub fn get(&self) -> u64
        ensures { result ≡ self.now }
    {
        10 * self.tens + u64::from(self.last - b'0')
    }

    /// Puts the decimal digits, which are at most twenty.
    #[inline(always)]
    pub fn put(&self, room: &mut [u8], at: usize) -> usize
        requires { at + 20 ≤ length room.old }
        ensures put { take result room.new ≡ take at room.old ++ decimal self.now }
        ensures next { result ≤ at + 20 }
    {
        let next = put_upper(room, at, &self.digits, self.upper);
        put_word::<1>(room, next, &[self.last])
    }
}

// Puts the first octets, at most nineteen.
#[inline(always)]
fn put_upper(room: &mut [u8], at: usize, digits: &[u8; 24], count: usize) -> usize
    requires room { at + 19 ≤ length room.old }
    requires count { count ≤ 19 }
    ensures put { take result room.new ≡ take at room.old ++ take count digits.now }
    ensures next { result ≡ at + count }
{
    if count <= 8 {
        return put_first::<8>(room, at, digits, count);
    }
    put_all(room, at, &digits[..count])
}
