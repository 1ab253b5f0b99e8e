// Counts the words of lines.

ghost use Rattle.std.specs.Prelude.{◌≡◌, ◌≤◌, ◌+◌, ◌++◌, codes, decimal, length, map, take, [], OnOk, IfOk};
ghost use Rattle.std.specs.List.{fold};
ghost use Rattle.listings.specs.Text.{line_end, written, Appends};
ghost use Rattle.listings.specs.Phrases.{of_phrases, row_of, tallied_in, AreWhole};
ghost use Rattle.listings.specs.Totals.{tallied, total_line, total_lines, totals_of, with_octet};

use crate::line_words::parts_words;
use crate::parts::{put_number, put_word};
use crate::phrases::{NO_PHRASES, Phrase, put_all, take_first};
use crate::text::Text;
use crate::word_table::{count_ended, count_words};
use std::alloc::{AllocError, Global};
use std::collections::BTreeMap;
use std::io;
use streams::{Call, DeviceLog, Sink};

/// How often each word has come, the phrases whose words are not in that table, and the word that has begun.
/// Recent phrases are kept apart.
#[derive(Drop)]
pub struct Tally {
    words: BTreeMap<Vec<u8>, u64>,
    phrases: BTreeMap<Vec<u8>, u64>,
    recent: [Phrase; 256],
    // For each first octet the length of the longest phrase that began with it.
    lengths: [usize; 128],
    word: Vec<u8>,
    // A buffer for a word that is written in another form.
    written: Vec<u8>,
}

impl Tally {
    // Takes an octet.
    fn take(&mut self, alloc: Global, octet: u8) -> Result<(), AllocError>
        ensures tally { OnOk result (tallied_in self.new ≡ with_octet (tallied_in self.old) octet) }
        ensures recent { self.new.recent ≡ self.old.recent }
    {
        if !parts_words(self.word.as_slice(), octet) {
            self.word.push(octet)?;
            return Ok(());
        }
        count_ended(
            alloc,
            &mut self.words,
            &mut self.written,
            self.word.as_slice(),
            1,
        )?;
        self.word.clear();
        Ok(())
    }

    // Takes each octet of a text.
    fn take_each(&mut self, alloc: Global, text: &[u8]) -> Result<(), AllocError>
        ensures tally { OnOk result (tallied_in self.new ≡ fold with_octet (tallied_in self.old) text.now) }
        ensures recent { self.new.recent ≡ self.old.recent }
    {
        for octet in text {
            self.take(alloc, *octet)?;
        }
        Ok(())
    }

    // Takes a text that begins with a word, by its phrases.
    fn take_words(&mut self, alloc: Global, text: &[u8]) -> Result<(), AllocError>
        requires none { self.old.word.items ≡ [] }
        requires whole { AreWhole self.old.recent }
        ensures tally { OnOk result (tallied_in self.new ≡ fold with_octet (tallied_in self.old) text.now) }
        ensures whole { AreWhole self.new.recent }
    {
        let mut rest = text;
        'phrases: while let Some(length) = take_first(
            alloc,
            &mut self.phrases,
            &mut self.recent,
            &mut self.lengths,
            rest,
        )? {
            rest = &rest[length..];
        }
        self.word.extend_from_slice(rest)?;
        Ok(())
    }

    // Takes a text.
    fn take_all(&mut self, alloc: Global, text: &[u8]) -> Result<(), AllocError>
        requires whole { AreWhole self.old.recent }
        ensures tally { OnOk result (tallied_in self.new ≡ fold with_octet (tallied_in self.old) text.now) }
        ensures whole { AreWhole self.new.recent }
    {
        if self.word.is_empty() {
            self.take_words(alloc, text)
        } else {
            self.take_each(alloc, text)
        }
    }
}

/// Counts the words of the lines that it takes, and keeps each different phrase once. Its writes take all
/// octets, and fail if memory runs out.
#[derive(Drop)]
pub struct Totals {
    alloc: Global,
    tally: Tally,
    log: DeviceLog,
    ghost counts: { log.failures ≡ 0 → tallied_in tally ≡ tallied log.octets },
    ghost whole: { AreWhole tally.recent },
}

impl Totals {
    /// Creates the totals of no line. They take no memory.
    pub fn new(alloc: Global) -> Self
        ensures { (result.log.octets ≡ []) × (result.log.failures ≡ 0) }
    {
        Totals {
            alloc,
            tally: Tally {
                words: BTreeMap::new(alloc),
                phrases: BTreeMap::new(alloc),
                recent: NO_PHRASES,
                lengths: [0; 128],
                word: Vec::new(alloc),
                written: Vec::new(alloc),
            },
            log: DeviceLog::new(),
        }
    }

    /// Returns the totals of this many records and octets and of the lines that it took, if no
    /// write failed.
    /// Faults: AllocError. Memory: yes. Cost: the different words and phrases.
    pub fn lines(self, records: u64, octets: u64) -> Result<Text, AllocError>
        ensures { self.log.failures ≡ 0 →
            IfOk result (λ text. written text ≡ totals_of records octets self.log.octets) }
    {
        let mut text = Text::new(self.alloc);
        push_total(&mut text, b"records", records)?;
        push_total(&mut text, b"octets", octets)?;
        let Totals { alloc, tally, .. } = self;
        let Tally {
            mut words,
            mut phrases,
            recent,
            mut written,
            ..
        } = tally;
        put_all(alloc, &mut phrases, &recent)?;
        put_phrases(alloc, &mut words, &mut written, &phrases)?;
        push_totals(&mut text, &words)?;
        Ok(text)
    }
}

// Puts the words of the phrases in the table of words.
fn put_phrases(
    alloc: Global,
    words: &mut BTreeMap<Vec<u8>, u64>,
    written: &mut Vec<u8>,
    phrases: &BTreeMap<Vec<u8>, u64>,
) -> Result<(), AllocError>
    ensures { OnOk result (map row_of words.new.entries
        ≡ of_phrases (map row_of words.old.entries) (map row_of phrases.now.entries)) }
{
    for (phrase, times) in phrases.iter() {
        count_words(alloc, words, written, phrase.as_slice(), *times)?;
    }
    Ok(())
}

// Appends the lines of a table of words.
fn push_totals(text: &mut Text, words: &BTreeMap<Vec<u8>, u64>) -> Result<(), AllocError>
    ensures { Appends result text.old text.new (total_lines (map row_of words.now.entries)) }
{
    for (word, count) in words.iter() {
        push_total(text, word.as_slice(), *count)?;
    }
    Ok(())
}

// Appends the line of a word.
fn push_total(text: &mut Text, word: &[u8], count: u64) -> Result<(), AllocError>
    ensures { Appends result text.old text.new (total_line word.now count) }
{
    text.push(word)?;
    text.make_room(32)?;
    text.len = put_count(text.octets.as_mut_slice(), text.len, count);
    Ok(())
}

fn put_count(room: &mut [u8], at: usize, count: u64) -> usize
    requires { at + 32 ≤ length room.old }
    ensures put { take result room.new ≡ take at room.old ++ (codes " " ++ (decimal count ++ line_end)) }
    ensures next { result ≤ at + 32 }
{
    let next = put_word::<1>(room, at, b" ");
    let next = put_number(room, next, count);
    put_word::<1>(room, next, b"\n")
}

impl Sink for Totals {
    ghost taken_octets = { λ t. t.log.octets };

    ghost failures = { λ t. t.log.failures };

    fn write(&mut self, text: &[u8]) -> io::Result<usize> {
        let taken = self.tally.take_all(self.alloc, text);
        let call = match &taken {
            Ok(()) => Call::Moved(text),
            Err(_) => Call::Failed,
        };
        self.log = self.log.then(&call);
        match taken {
            Ok(()) => Ok(text.len()),
            Err(error) => Err(io::Error::from(error)),
        }
    }
}
