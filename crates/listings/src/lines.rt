// Lines, and ends of lines, that several commands write.

ghost use Rattle.std.specs.Prelude.{◌≡◌, ◌+◌, ◌*◌, ◌≤◌, ◌++◌, false, codes, decimal, length, take, vec_len, IfOk};
ghost use Rattle.listings.specs.Text.{invalid_line, octets_line, line_end};
ghost use Rattle.listings.specs.Text.{Appends};

use crate::parts::{put_all, put_digits, put_field, put_word};
use crate::record_number::RecordNumber;
use crate::text::Text;
use std::alloc::AllocError;

/// Appends the line of a record that was refused, or of a rest.
pub fn push_invalid(
    text: &mut Text,
    index: &RecordNumber,
    number: u8,
    name: &str,
) -> Result<(), AllocError>
    ensures { Appends result text.old text.new (invalid_line index.now (number, name.now)) }
{
    text.make_room(64)?;
    text.len = put_invalid(text.octets.as_mut_slice(), text.len, index, number);
    push_name(text, name)
}

/// Appends the line of a refused record, and returns that the record is not good.
pub fn push_refused(
    text: &mut Text,
    index: &RecordNumber,
    number: u8,
    name: &str,
) -> Result<bool, AllocError>
    ensures text { Appends result text.old text.new (invalid_line index.now (number, name.now)) }
    ensures good { IfOk result (λ good. good ≡ false) }
{
    push_invalid(text, index, number, name)?;
    Ok(false)
}

fn put_invalid(room: &mut [u8], at: usize, index: &RecordNumber, number: u8) -> usize
    requires { at + 64 ≤ length room.old }
    ensures put { take result room.new ≡ take at room.old
        ++ (decimal index.now ++ (codes " invalid " ++ (decimal number ++ codes " "))) }
    ensures next { result ≤ at + 64 }
{
    let next = index.put(room, at);
    let next = put_field::<8>(room, next, b" invalid ", number);
    put_word::<1>(room, next, b" ")
}

/// Appends a name, and ends the line.
pub fn push_name(text: &mut Text, name: &str) -> Result<(), AllocError>
    ensures { Appends result text.old text.new (name.now ++ line_end) }
{
    text.make_room_for(name.len())?;
    text.len = put_name(text.octets.as_mut_slice(), text.len, name);
    Ok(())
}

fn put_name(room: &mut [u8], at: usize, name: &str) -> usize
    requires { at + (2 * length name.now + 1) ≤ length room.old }
    ensures put { take result room.new ≡ take at room.old ++ (name.now ++ line_end) }
    ensures next { result ≤ at + (2 * length name.now + 1) }
{
    let next = put_all(room, at, name.as_bytes());
    put_word::<1>(room, next, b"\n")
}

/// Appends octets as upper-case hexadecimal digits, and ends the line.
#[inline(always)]
pub fn push_octets(text: &mut Text, octets: &[u8]) -> Result<(), AllocError>
    ensures { Appends result text.old text.new (octets_line octets.now) }
{
    text.make_room_for(octets.len())?;
    text.len = put_octets(text.octets.as_mut_slice(), text.len, octets);
    Ok(())
}

#[inline(always)]
fn put_octets(room: &mut [u8], at: usize, octets: &[u8]) -> usize
    requires { at + (2 * length octets.now + 1) ≤ length room.old }
    ensures put { take result room.new ≡ take at room.old ++ octets_line octets.now }
    ensures next { result ≤ at + (2 * length octets.now + 1) }
{
    let next = put_digits(room, at, octets);
    put_word::<1>(room, next, b"\n")
}
