// The words of lines: where each ends, whether it is counted, and how it is written.

ghost use Rattle.std.specs.Prelude.{◌≡◌, ◌≤◌, ◌<◌, ◌++◌, take, length, [], codes, nat_le, slice_index, true, Some, OnOk, IfSome};
ghost use Rattle.std.specs.Bool.{nat_eq};
ghost use Rattle.std.specs.List.{list_any, starts_with};
ghost use Rattle.listings.specs.Phrases.{begun_in};
ghost use Rattle.listings.specs.Totals.{fields_left_out, is_counted, is_spacecraft, parts_words, shown, with_slash};
ghost use Rattle.listings.specs.Words.{word_end, word_end_after};

use std::alloc::AllocError;

/// Returns whether a word is counted.
#[inline(always)]
pub(crate) fn is_counted(word: &[u8]) -> bool
    ensures { result ≡ is_counted word.now }
{
    match word {
        [] => false,
        [b'0'..=b'9', ..] => false,
        _ => !is_left_out(word),
    }
}

// Returns whether a word is a field whose value differs from record to record.
#[inline(always)]
fn is_left_out(word: &[u8]) -> bool
    ensures { result ≡ list_any (starts_with nat_eq word.now) fields_left_out }
{
    match word {
        [b'n', ..] => word.starts_with(b"n="),
        [b'v', ..] => word.starts_with(b"vr=") || word.starts_with(b"vc="),
        [b'b', ..] => word.starts_with(b"b="),
        [b'm', ..] => word.starts_with(b"mc="),
        [b'p', ..] => word.starts_with(b"pointer="),
        [b'o', ..] => word.starts_with(b"ocf="),
        [b'c', ..] => word.starts_with(b"count="),
        [b'd', ..] => word.starts_with(b"data="),
        _ => false,
    }
}

/// Returns whether an octet separates words, after a word that has begun.
pub(crate) fn parts_words(word: &[u8], octet: u8) -> bool
    ensures { result ≡ parts_words word.now octet }
{
    match octet {
        b'\n' => true,
        b' ' => !is_spacecraft(word),
        _ => false,
    }
}

fn is_spacecraft(word: &[u8]) -> bool
    ensures { result ≡ is_spacecraft word.now }
{
    word.starts_with(b"scid=") && !word.contains(&b' ')
}

/// Returns whether a word begins with a spacecraft, and so is written as its channel.
pub(crate) fn has_channel(word: &[u8]) -> bool
    ensures { result ≡ starts_with nat_eq word.now (codes "scid=") }
{
    word.starts_with(b"scid=")
}

/// Puts a word that begins with a spacecraft into this buffer, in the form in which it is written.
pub(crate) fn write_channel(written: &mut Vec<u8>, word: &[u8]) -> Result<(), AllocError>
    requires { starts_with nat_eq word.now (codes "scid=") ≡ true }
    ensures { OnOk result (written.new.items ≡ shown word.now) }
{
    written.clear();
    written.extend_from_slice(b"channel=")?;
    push_channel(written, &word[5..])
}

// Appends a spacecraft and, after a slash, what follows ` vcid=`.
fn push_channel(written: &mut Vec<u8>, channel: &[u8]) -> Result<(), AllocError>
    ensures { OnOk result (written.new.items ≡ written.old.items ++ with_slash channel.now) }
{
    let mut rest = channel;
    'octets: while let [octet, more @ ..] = rest {
        if *octet == b' ' {
            written.push(b'/')?;
            return written.extend_from_slice(&more[more.len().min(5)..]);
        }
        written.push(*octet)?;
        rest = more;
    }
    Ok(())
}

/// Returns the place of the octet that ends the first word.
#[inline(always)]
pub(crate) fn end_of_word(text: &[u8]) -> Option<usize>
    ensures end { result ≡ word_end [] text.now }
    ensures within { IfSome result (λ at. at < length text.now) }
{
    let mut at = first_eight(text);
    'octets: while at < text.len() {
        if is_end(text, at) {
            return Some(at);
        }
        at += 1;
        if at == 16 {
            at = past_sixteens(text, at);
        }
    }
    None
}

/// Returns the end of the words of a line that follow its first word and are counted. The first word ends
/// at this place.
pub(crate) fn end_of_phrase(text: &[u8], end: usize) -> usize
    requires end { word_end [] text.now ≡ Some end }
    requires there { end < length text.now }
    ensures after { end < result }
    ensures within { result ≤ length text.now }
    ensures whole { begun_in [] (take result text.now) ≡ [] }
{
    let mut at = end + 1;
    'words: while text[at - 1] != b'\n' {
        let Some(next) = end_of_word(&text[at..]) else {
            break;
        };
        if !is_counted(&text[at..at + next]) {
            break;
        }
        at += next + 1;
    }
    at
}

// Returns whether the octet at this place ends the word before it.
#[inline(always)]
fn is_end(text: &[u8], at: usize) -> bool
    requires { at < length text.now }
    ensures { result ≡ parts_words (take at text.now) (slice_index text.now at) }
{
    text[at] <= b' ' && parts_words(&text[..at], text[at])
}

// Returns 8 if none of the first eight octets may end a word, else 0.
#[inline(always)]
fn first_eight(text: &[u8]) -> usize
    ensures within { result ≤ length text.now }
    ensures same { word_end_after text.now result ≡ word_end_after text.now 0 }
{
    if text.len() >= 8 && !has_low(&text[..8]) {
        8
    } else {
        0
    }
}

// Returns this place or a later one, up to which no octet may end a word.
#[inline(never)]
fn past_sixteens(text: &[u8], from: usize) -> usize
    requires { from ≤ length text.now }
    ensures within { (from ≤ result) × (result ≤ length text.now) }
    ensures same { word_end_after text.now result ≡ word_end_after text.now from }
{
    let mut at = from;
    'sixteens: while text.len() - at >= 16 {
        if has_low(&text[at..at + 16]) {
            break;
        }
        at += 16;
    }
    at
}

// Returns whether any of these octets may be a space or a line feed.
#[inline(always)]
fn has_low(octets: &[u8]) -> bool
    ensures { result ≡ list_any (λ octet. nat_le octet 32) octets.now }
{
    let mut found = false;
    for octet in octets {
        found = found | (*octet <= b' ');
    }
    found
}
