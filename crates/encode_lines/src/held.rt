// The octets that a line holds after its words: those of a packet, a frame or a CLCW.

ghost use Rattle.std.specs.Prelude.{◌≡◌, map, option_and_then, option_map};
ghost use Rattle.streams.specs.Words.{octets_in_word};
ghost use Rattle.encode_lines.specs.Held.{begins_fields, claims_octets, digits_in, holds_octets, holds_packet};
ghost use Rattle.encode_lines.specs.Octets.{Puts};

use crate::fields::after_key;
use std::alloc::{AllocError, Global};
use streams::{is, number_in_word, octets_in_word};

// Returns whether octets follow a word.
fn holds_octets(word: &[u8]) -> bool
    ensures { result ≡ holds_octets word.now }
{
    is(word, "packet")
        || is(word, "sent")
        || is(word, "frame")
        || is(word, "telemetry")
        || is(word, "report")
        || is(word, "clcw")
}

// Returns whether a MAP and a packet on it follow a word.
fn holds_packet(word: &[u8]) -> bool
    ensures { result ≡ holds_packet word.now }
{
    is(word, "packet") || is(word, "bypass") || is(word, "submit")
}

/// Returns the digits of the octets that these words hold.
pub fn digits_in<'a>(words: &[&'a [u8]]) -> Option<&'a [u8]>
    ensures { option_map (λ word. word.now) result ≡ digits_in (map (λ word. word.now) words.now) }
{
    match words {
        [kind, digits] if holds_octets(kind) => Some(digits),
        [kind, map, digits] if holds_packet(kind) && number_in_word(map, 63).is_some() => {
            Some(digits)
        }
        _ => None,
    }
}

/// Appends the octets that digits spell, and returns whether they spell octets.
pub fn put_digits(alloc: Global, digits: &[u8], text: &mut Vec<u8>) -> Result<bool, AllocError>
    ensures { Puts result text.old.items text.new.items (octets_in_word digits.now) }
{
    match octets_in_word(alloc, digits)? {
        Some(octets) => {
            text.extend_from_slice(octets.as_slice())?;
            Ok(true)
        }
        None => Ok(false),
    }
}

// Returns whether the fields of a frame or a packet begin with a word.
fn begins_fields(word: &[u8]) -> bool
    ensures { result ≡ begins_fields word.now }
{
    after_key(word, b"scid=").is_some() || after_key(word, b"secondary=").is_some()
}

/// Returns whether a line of these words is meant to carry octets.
pub fn claims_octets(words: &[&[u8]]) -> bool
    ensures { result ≡ claims_octets (map (λ word. word.now) words.now) }
{
    match words {
        [kind, second, more @ ..] => {
            begins_fields(second) || (holds_octets(kind) || holds_packet(kind)) && more.len() < 2
        }
        _ => false,
    }
}
