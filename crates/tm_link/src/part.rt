// The part of a packet that an extractor holds.

ghost use Rattle.std.specs.Prelude.{◌≡◌, ◌≤◌, length, vec_capacity};
ghost use Rattle.tm_link.specs.Extractor.{continued_part, opened_part};

use crate::ending::{Ending, ending_with};

// Continues the part with these octets.
pub(crate) fn go_on(part: &mut Vec<u8>, octets: &[u8])
    requires { 65542 ≤ vec_capacity part.old }
    ensures part { part.new.items ≡ continued_part part.old.items octets.now }
    ensures short { length part.new.items ≤ 65541 }
    ensures room { 65542 ≤ vec_capacity part.new }
{
    if part.is_empty() {
        return;
    }
    if ending_with(part.as_slice(), octets) == Ending::Short {
        let _ = part.extend_from_slice(octets);
    } else {
        part.clear();
    }
}

// Begins a part with what follows the whole packets.
pub(crate) fn open(part: &mut Vec<u8>, rest: &[u8])
    requires { 65542 ≤ vec_capacity part.old }
    ensures part { part.new.items ≡ opened_part rest.now }
    ensures short { length part.new.items ≤ 65541 }
    ensures room { 65542 ≤ vec_capacity part.new }
{
    part.clear();
    if ending_with(rest, &rest[..0]) == Ending::Short {
        let _ = part.extend_from_slice(rest);
    }
}
