// Numbers and octets as words.

ghost use Rattle.std.specs.Prelude.{◌≡◌, ◌≤◌, ◌<◌, ◌^◌, true, is_some, option_copied, option_map, Ok, None, IfOk, IfSome, SomeIff};
ghost use Rattle.std.specs.Result.{result_ok};
ghost use Rattle.std.specs.Str.{bytes_eq};
ghost use Rattle.std.specs.Str.Parse.{digits_value};
ghost use Rattle.hex.specs.Hex.{is_hex_digit, decode_of};
ghost use Rattle.streams.specs.Words.{octets_of_digits};
ghost use Rattle.streams.specs.Words.{starts_well, is_numeral, number_in_word, octets_in_word, rest_after};

use std::alloc::{AllocError, Global};
use std::str;

/// Returns whether a word is this text.
#[inline(always)]
pub fn is(word: &[u8], text: &str) -> bool
    ensures { result ≡ bytes_eq word.now text.now }
{
    word == text.as_bytes()
}

/// Returns what follows these words, if a line begins with them.
#[tactic(auto, unfolding(crate::specs::Words::rest_after))]
pub fn rest_after<'a>(line: &'a [u8], words: &str) -> Option<&'a [u8]>
    ensures { option_copied result ≡ rest_after words.now line.now }
{
    line.strip_prefix(words.as_bytes())
}

// Returns whether a word is not empty and, unless it has only one octet, does not begin with the
// digit 0.
fn starts_well(word: &[u8]) -> bool
    ensures { result ≡ starts_well word.now }
{
    match word {
        [] => false,
        [_] => true,
        [first, ..] => *first != b'0',
    }
}

/// Returns whether a word consists of decimal digits, without a leading zero.
fn is_numeral(word: &[u8]) -> bool
    ensures { result ≡ is_numeral word.now }
{
    starts_well(word) && word.iter().all(|octet| octet.is_ascii_digit())
}

// Returns the number that a numeral spells, if 64 bits hold it.
fn value_of(word: &[u8]) -> Option<u64>
    requires { is_numeral word.now ≡ true }
    ensures { SomeIff result (digits_value 10 word.now < 2 ^ 64) (digits_value 10 word.now) }
{
    match str::from_utf8(word) {
        Ok(text) => text.parse::<u64>().ok(),
        Err(_) => None,
    }
}

/// Returns the number that a word spells, if it is not greater than `most`.
#[tactic(auto, unfolding(crate::specs::Words::number_in_word))]
pub fn number_in_word(word: &[u8], most: u64) -> Option<u64>
    ensures number { result ≡ number_in_word most word.now }
    ensures most { IfSome result (λ n. n ≤ most) }
{
    if !is_numeral(word) {
        return None;
    }
    match value_of(word) {
        Some(number) if number <= most => Some(number),
        _ => None,
    }
}

fn is_hex_digit(octet: u8) -> bool
    ensures { result ≡ is_hex_digit octet }
{
    matches!(octet, b'0'..=b'9' | b'a'..=b'f' | b'A'..=b'F')
}

fn are_pairs(word: &[u8]) -> bool
    ensures { result ≡ is_some (result_ok (decode_of word.now)) }
{
    word.len() % 2 == 0 && word.iter().all(|octet| is_hex_digit(*octet))
}

/// Returns whether a word spells octets, as pairs of digits; `-` spells no octets.
#[tactic(auto, unfolding(crate::specs::Words::octets_in_word))]
pub fn is_octets(word: &[u8]) -> bool
    ensures { result ≡ is_some (octets_in_word word.now) }
{
    is(word, "-") || (!word.is_empty() && are_pairs(word))
}

/// Returns the octets that a word spells, as pairs of digits; `-` spells no octets. Returns None
/// for a word that does not spell octets, however little memory there is.
/// Faults: `AllocError`. Memory: yes. Cost: n.
#[tactic(auto, unfolding(crate::specs::Words::octets_in_word))]
pub fn octets_in_word(alloc: Global, word: &[u8]) -> Result<Option<Vec<u8>>, AllocError>
    ensures octets { IfOk result (λ octets. option_map (λ some. some.items) octets ≡ octets_in_word word.now) }
    ensures none { octets_in_word word.now ≡ None → result ≡ Ok None }
{
    if is(word, "-") {
        return Ok(Some(Vec::new(alloc)));
    }
    if !is_octets(word) {
        return Ok(None);
    }
    match hex::decode(alloc, word) {
        Ok(octets) => Ok(Some(octets)),
        Err(_) => Err(AllocError),
    }
}

/// Returns the octets that the digits of a line spell, and no octets if the word does not spell
/// octets.
/// Faults: `AllocError`. Memory: yes. Cost: n.
pub fn octets_of_digits(alloc: Global, digits: &[u8]) -> Result<Vec<u8>, AllocError>
    ensures { IfOk result (λ octets. octets.items ≡ octets_of_digits digits.now) }
{
    match octets_in_word(alloc, digits) {
        Ok(Some(octets)) => Ok(octets),
        Ok(None) => Ok(Vec::new(alloc)),
        Err(error) => Err(error),
    }
}
