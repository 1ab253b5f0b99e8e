// Phrases: words that follow each other in a line. Most lines consist of a few phrases that recur, and a
// text is counted by its phrases.

ghost use Rattle.std.specs.Prelude.{◌≡◌, ◌<◌, ◌≤◌, List, ℕ, [], length, drop, map, take};
ghost use Rattle.std.specs.Prelude.{None, Ok, OnOk, IfOk, IfSome};
ghost use Rattle.std.specs.List.{fold};
ghost use Rattle.listings.specs.Phrases.{begun_in, counted, none_begun, of_phrases, phrase_words, row_of};
ghost use Rattle.listings.specs.Phrases.{with_each, words_in, AreWhole, HaveOnceMore};
ghost use Rattle.listings.specs.Totals.{with_octet};
ghost use Rattle.listings.specs.Words.{word_end};

use crate::line_words::{end_of_phrase, end_of_word, is_counted};
use crate::word_table::count_written;
use std::alloc::{AllocError, Global};
use std::collections::BTreeMap;

/// At most 64 octets of words that follow each other, with what ends each word. Also how often they have come
/// since they were last put in the table.
#[derive(Clone, Copy)]
pub struct Phrase {
    octets: [u8; 64],
    len: usize,
    times: u64,
}

/// No phrase, at each place.
pub(crate) const NO_PHRASES: [Phrase; 256] = [Phrase {
    octets: [0; 64],
    len: 0,
    times: 0,
}; 256];

// Returns the phrase of words that have come once.
fn phrase_of(words: &[u8]) -> Phrase
    requires { length words.now ≤ 64 }
    ensures words { phrase_words result ≡ words.now }
    ensures times { result.times ≡ 1 }
{
    let mut octets = [0; 64];
    octets[..words.len()].copy_from_slice(words);
    Phrase {
        octets,
        len: words.len(),
        times: 1,
    }
}

impl Phrase {
    // Returns the words.
    #[inline(always)]
    fn words(&self) -> &[u8]
        ensures { result.now ≡ phrase_words self.now }
    {
        &self.octets[..self.len.min(64)]
    }
}

// Returns the place of a phrase of these octets. Phrases differ in the values of their fields, near the
// end.
#[inline(always)]
fn place_of(octets: &[u8]) -> usize
    ensures { result < 256 }
{
    match octets {
        [_, second, .., a, b, c, d, e, f, _, _, _, _, _, g, h, _] => {
            let first = usize::from(*a) * 16 + usize::from(*b) * 48 + usize::from(*c) * 40;
            let middle = usize::from(*d) * 10 + usize::from(*e) + usize::from(*f) * 64;
            (first
                + middle
                + usize::from(*second) * 19
                + usize::from(*g) * 80
                + usize::from(*h) * 64)
                % 256
        }
        [_, _, a, _, b, _, c, .., d, e, _] => {
            let first = usize::from(*a) * 4 + usize::from(*b) * 64 + usize::from(*c) * 2;
            (first + usize::from(*d) * 10 + usize::from(*e)) % 256
        }
        [first, .., last, _] => (usize::from(*first) + usize::from(*last) * 17) % 256,
        _ => 0,
    }
}

// Counts a phrase this many times more in the table.
fn count_phrase(
    alloc: Global,
    table: &mut BTreeMap<Vec<u8>, u64>,
    words: &[u8],
    times: u64,
) -> Result<(), AllocError>
    ensures { OnOk result ((rows : List (List ℕ × ℕ)) → of_phrases rows (map row_of table.new.entries)
        ≡ with_each (of_phrases rows (map row_of table.old.entries)) (words_in [] words.now) times) }
{
    if times == 0 {
        return Ok(());
    }
    count_written(alloc, table, words, times)?;
    Ok(())
}

// Counts a phrase in the table as often as it has come.
fn count_recent(
    alloc: Global,
    table: &mut BTreeMap<Vec<u8>, u64>,
    phrase: &Phrase,
) -> Result<(), AllocError>
    ensures { OnOk result ((rows : List (List ℕ × ℕ)) → of_phrases rows (map row_of table.new.entries)
        ≡ with_each (of_phrases rows (map row_of table.old.entries)) (words_in [] (phrase_words phrase.now))
        phrase.now.times) }
{
    count_phrase(alloc, table, phrase.words(), phrase.times)
}

// Returns the place of the phrase that a text begins with, or none if no phrase has begun with its first
// octet. The place is found from as many octets as the longest such phrase has.
#[inline(always)]
fn place_in(lengths: &[usize; 128], text: &[u8]) -> Option<usize>
    ensures { IfSome result (λ place. place < 256) }
{
    let length = lengths[usize::from(*text.first()? % 128)];
    if length == 0 {
        return None;
    }
    Some(place_of(&text[..length.min(text.len())]))
}

// If a text begins with the phrase at this place, counts that phrase once more, and returns its length.
#[inline(always)]
fn count_again(
    phrases: &mut [Phrase; 256],
    place: Option<usize>,
    text: &[u8],
) -> Result<Option<usize>, AllocError>
    requires place { IfSome place (λ at. at < 256) }
    requires whole { AreWhole phrases.old }
    ensures again { IfOk result (λ found. IfSome found (HaveOnceMore phrases.old phrases.new text.now)) }
    ensures new { result ≡ Ok None → phrases.new ≡ phrases.old }
    ensures whole { AreWhole phrases.new }
{
    let Some(place) = place else {
        return Ok(None);
    };
    let words = phrases[place].words();
    let length = words.len();
    if length == 0 || length > text.len() {
        return Ok(None);
    }
    if words != &text[..length] {
        return Ok(None);
    }
    match phrases[place].times.checked_add(1) {
        None => Err(AllocError),
        Some(times) => {
            phrases[place].times = times;
            Ok(Some(length))
        }
    }
}

// Puts the phrase that has this place in the table, and gives the place to these words, which have come once.
fn put(
    alloc: Global,
    table: &mut BTreeMap<Vec<u8>, u64>,
    phrases: &mut [Phrase; 256],
    place: usize,
    words: &[u8],
) -> Result<(), AllocError>
    requires place { place < 256 }
    requires new { begun_in [] words.now ≡ [] }
    requires fits { length words.now ≤ 64 }
    requires whole { AreWhole phrases.old }
    ensures put { OnOk result ((rows : List (List ℕ × ℕ)) → counted rows table.new.entries phrases.new
        ≡ with_each (counted rows table.old.entries phrases.old) (words_in [] words.now) 1) }
    ensures whole { AreWhole phrases.new }
{
    count_recent(alloc, table, &phrases[place])?;
    phrases[place] = phrase_of(words);
    Ok(())
}

/// Counts the words at the beginning of a text, and returns how many octets they have; none if no word
/// ends.
#[inline(always)]
pub(crate) fn take_first(
    alloc: Global,
    table: &mut BTreeMap<Vec<u8>, u64>,
    phrases: &mut [Phrase; 256],
    lengths: &mut [usize; 128],
    text: &[u8],
) -> Result<Option<usize>, AllocError>
    requires { AreWhole phrases.old }
    ensures some { IfOk result (λ found. IfSome found (λ n. (0 < n) × (n ≤ length text.now)
        × ((rows : List (List ℕ × ℕ))
        → fold with_octet (none_begun (counted rows table.new.entries phrases.new)) (drop n text.now)
        ≡ fold with_octet (none_begun (counted rows table.old.entries phrases.old)) text.now))) }
    ensures none { result ≡ Ok None → (table.new.entries ≡ table.old.entries) × (phrases.new ≡ phrases.old)
        × (word_end [] text.now ≡ None) }
    ensures whole { AreWhole phrases.new }
{
    let place = place_in(lengths, text);
    if let Some(length) = count_again(phrases, place, text)? {
        return Ok(Some(length));
    }
    let Some(end) = end_of_word(text) else {
        return Ok(None);
    };
    if !is_counted(&text[..end]) {
        return Ok(Some(end + 1));
    }
    let length = end_of_phrase(text, end);
    if length > 64 {
        count_phrase(alloc, table, &text[..length], 1)?;
        return Ok(Some(length));
    }
    let place = place.unwrap_or(place_of(&text[..length]));
    put(alloc, table, phrases, place, &text[..length])?;
    let longest = &mut lengths[usize::from(text[0] % 128)];
    *longest = length.max(*longest);
    Ok(Some(length))
}

/// Puts the phrases in the table.
pub(crate) fn put_all(
    alloc: Global,
    table: &mut BTreeMap<Vec<u8>, u64>,
    phrases: &[Phrase],
) -> Result<(), AllocError>
    ensures { OnOk result ((rows : List (List ℕ × ℕ)) → of_phrases rows (map row_of table.new.entries)
        ≡ counted rows table.old.entries phrases.now) }
{
    for it in phrases {
        count_recent(alloc, table, it)?;
    }
    Ok(())
}
