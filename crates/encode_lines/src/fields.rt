// Fields of a line: a key, and a number or octets after it.

ghost use Rattle.std.specs.Prelude.{◌≡◌, ◌≤◌, map, option_copied, option_map, IfOk, IfSome};
ghost use Rattle.streams.specs.Words.{words_in};
ghost use Rattle.encode_lines.specs.Fields.{after_key, number_after, octets_of_digits, without_number};

use std::alloc::{AllocError, Global};
use streams::{cut, number_in_word};

/// Returns what follows a key in a word that begins with it.
pub fn after_key<'a>(word: &'a [u8], key: &[u8]) -> Option<&'a [u8]>
    ensures { option_copied result ≡ after_key key.now word.now }
{
    let [letter, key @ ..] = key else {
        return Some(word);
    };
    match word {
        [octet, word @ ..] if octet == letter => after_key(word, key),
        _ => None,
    }
}

/// Returns the number after a key, if it is not greater than `most`.
pub fn number_after(word: &[u8], key: &[u8], most: u64) -> Option<u64>
    ensures number { result ≡ number_after key.now most word.now }
    ensures most { IfSome result (λ n. n ≤ most) }
{
    number_in_word(after_key(word, key)?, most)
}

/// Returns the octets that a word spells, with upper-case digits.
#[tactic(auto, unfolding(crate::specs::Fields::octets_of_digits))]
pub fn octets_of_digits(alloc: Global, word: &[u8]) -> Result<Option<Vec<u8>>, AllocError>
    ensures { IfOk result (λ octets. option_map (λ some. some.items) octets ≡ octets_of_digits word.now) }
{
    match hex::decode(alloc, word) {
        Ok(octets) => {
            let digits = hex::encode_upper(alloc, octets.as_slice())?;
            if digits.as_bytes() == word {
                Ok(Some(octets))
            } else {
                Ok(None)
            }
        }
        Err(hex::FromHexError::OutOfMemory) => Err(AllocError),
        Err(_) => Ok(None),
    }
}

/// Returns the words of a line, which one space separates.
pub fn words_in<'a>(alloc: Global, line: &'a [u8]) -> Result<Vec<&'a [u8]>, AllocError>
    ensures { IfOk result (λ words. map (λ word. word.now) words.items ≡ words_in line.now) }
{
    let mut words = Vec::new(alloc);
    let mut rest = line;
    'words: loop {
        let (word, after) = cut(rest, b' ');
        words.push(word)?;
        let Some(after) = after else {
            return Ok(words);
        };
        rest = after;
    }
}

/// Returns the words of a line without the number before them, if there is one.
pub fn without_number<'w, 'a>(words: &'w [&'a [u8]]) -> &'w [&'a [u8]]
    ensures { map (λ word. word.now) result.now ≡ without_number (map (λ word. word.now) words.now) }
{
    match words {
        [word, rest @ ..] if number_in_word(word, u64::MAX).is_some() => rest,
        _ => words,
    }
}
