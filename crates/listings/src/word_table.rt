// Tables of words: how often each has come.

ghost use Rattle.std.specs.Prelude.{◌≡◌, ◌<◌, map, true, false, [], None, Ok, OnOk};
ghost use Rattle.std.specs.BTreeMap.{get_by};
ghost use Rattle.std.specs.Cmp.Lexicographic.{slice_cmp};
ghost use Rattle.std.specs.Ordering.{nat_cmp};
ghost use Rattle.listings.specs.Phrases.{row_of, with_each, with_ended_times, with_words, words_in};
ghost use Rattle.listings.specs.Totals.{shown};

use crate::line_words::{end_of_word, has_channel, is_counted, write_channel};
use std::alloc::{AllocError, Global};
use std::collections::BTreeMap;

// Counts a word this many times more if it is in the table, and returns whether it is.
fn count_known(
    table: &mut BTreeMap<Vec<u8>, u64>,
    word: &[u8],
    times: u64,
) -> Result<bool, AllocError>
    requires { 0 < times }
    ensures known { result ≡ Ok true → map row_of table.new.entries
        ≡ with_words (map row_of table.old.entries) word.now times }
    ensures new { result ≡ Ok false → (table.new.entries ≡ table.old.entries)
        × (get_by (λ k. slice_cmp nat_cmp word.now k.items) table.old ≡ None) }
{
    match table.get_mut(word) {
        None => Ok(false),
        Some(count) => match count.checked_add(times) {
            None => Err(AllocError),
            Some(more) => {
                *count = more;
                Ok(true)
            }
        },
    }
}

/// Counts a word this many times, in the form in which it is written.
pub(crate) fn count_written(
    alloc: Global,
    table: &mut BTreeMap<Vec<u8>, u64>,
    word: &[u8],
    times: u64,
) -> Result<(), AllocError>
    requires { 0 < times }
    ensures { OnOk result (map row_of table.new.entries
        ≡ with_words (map row_of table.old.entries) word.now times) }
{
    if count_known(table, word, times)? {
        return Ok(());
    }
    let mut key = Vec::new(alloc);
    key.extend_from_slice(word)?;
    table.insert(key, times)?;
    Ok(())
}

// Counts a word this many times.
fn count_word(
    alloc: Global,
    table: &mut BTreeMap<Vec<u8>, u64>,
    written: &mut Vec<u8>,
    word: &[u8],
    times: u64,
) -> Result<(), AllocError>
    requires { 0 < times }
    ensures { OnOk result (map row_of table.new.entries
        ≡ with_words (map row_of table.old.entries) (shown word.now) times) }
{
    if !has_channel(word) {
        return count_written(alloc, table, word, times);
    }
    write_channel(written, word)?;
    count_written(alloc, table, written.as_slice(), times)
}

/// Counts a word that has ended this many times, if it is one that is counted.
pub(crate) fn count_ended(
    alloc: Global,
    table: &mut BTreeMap<Vec<u8>, u64>,
    written: &mut Vec<u8>,
    word: &[u8],
    times: u64,
) -> Result<(), AllocError>
    ensures { OnOk result (map row_of table.new.entries
        ≡ with_ended_times (map row_of table.old.entries) word.now times) }
{
    if times == 0 {
        return Ok(());
    }
    if !is_counted(word) {
        return Ok(());
    }
    count_word(alloc, table, written, word, times)
}

/// Counts each word that ends in a text this many times.
pub(crate) fn count_words(
    alloc: Global,
    table: &mut BTreeMap<Vec<u8>, u64>,
    written: &mut Vec<u8>,
    text: &[u8],
    times: u64,
) -> Result<(), AllocError>
    ensures { OnOk result (map row_of table.new.entries
        ≡ with_each (map row_of table.old.entries) (words_in [] text.now) times) }
{
    if times == 0 {
        return Ok(());
    }
    let mut rest = text;
    'words: while let Some(end) = end_of_word(rest) {
        count_ended(alloc, table, written, &rest[..end], times)?;
        rest = &rest[end + 1..];
    }
    Ok(())
}
