// Reads a stream in pieces, and writes the lines that a listing has for its records.

ghost use Rattle.std.specs.Prelude.{◌≡◌, ◌⊎◌, None, ◌+◌, ◌^◌, ◌<◌, ◌≤◌, ◌&&◌, ◌++◌, [], length, Ok, OnOk, IfOk, IfErr};
ghost use Rattle.listings.specs.Layouts.{first_by, rest_by, IsRefused};
ghost use Rattle.listings.specs.Listing.{fresh, listed, listing_of, text_of, summary_of, where_refused, standing};
ghost use Rattle.streams.specs.Devices.{HasEnded, writes_failed_in, gained, BeginsToWrite};
ghost use Rattle.streams.specs.Streams.{Reads, WritesText};
ghost use Rattle.listings.specs.Text.{written};

use crate::cutter::Cutter;
use crate::listing::Listing;
use crate::record_number::RecordNumber;
use crate::text::Text;
use std::alloc::{AllocError, Global};
use streams::{Sink, Source, StreamFault, Taker, WriteFailed, go_through, write_all};

/// How many records there were, and whether all of them were good.
#[derive(Drop)]
pub struct Progress {
    count: RecordNumber,
    all_good: bool,
}

impl Progress {
    fn and(&mut self, good: bool)
        ensures { self.new ≡ record { count = self.old.count; all_good = self.old.all_good && good } }
    {
        if !good {
            self.all_good = false;
        }
    }

    fn of_all(&self, octets: u64, all_good: bool) -> Summary
        ensures { result ≡ record { records = self.now.count; octets = octets; all_good = all_good } }
    {
        Summary {
            records: self.count.get(),
            octets,
            all_good,
        }
    }
}

/// What was listed: how many whole records and octets, and whether all was good.
#[derive(Clone, Copy, Debug, Drop, PartialEq, Eq)]
pub struct Summary {
    /// The records whose last octet arrived.
    pub records: u64,
    /// All octets that were read.
    pub octets: u64,
    /// Whether every record was good and nothing was left after them.
    pub all_good: bool,
}

/// Takes all whole records that the cutter holds, and returns the fault of the octets after them if
/// they are refused.
fn list_records<S: Cutter, C: Listing<S>>(
    cutter: &mut S,
    listing: &mut C,
    progress: &mut Progress,
    text: &mut Text,
) -> Result<Option<S::Fault>, AllocError>
    requires { progress.old.count + length (S.held cutter.old) < 2 ^ 64 }
    ensures count { OnOk result (progress.new.count + length (S.held cutter.new)
        ≤ progress.old.count + length (S.held cutter.old)) }
    ensures listed { OnOk result (
        standing (written text.new) listing.new progress.new (S.held cutter.new)
        ≡ listed C.lines S.layout
        (standing (written text.old) listing.old progress.old (S.held cutter.old))) }
    ensures fault { IfOk result (λ fault. first_by S.layout (S.held cutter.new) ≡ where_refused fault) }
    ensures failed { result ≡ Ok None → S.failure cutter.new ≡ S.failure cutter.old }
{
    while let Some(answer) = cutter.next() {
        match answer {
            Ok(octets) => {
                progress.count.step();
                let good = listing.take(text, &progress.count, octets)?;
                progress.and(good);
            }
            Err(fault) => return Ok(Some(*fault)),
        }
    }
    Ok(None)
}

/// Writes a whole text, and returns this answer.
fn put<W: Sink, T: Copy>(writer: &mut W, text: &Text, answer: T) -> Result<T, StreamFault>
    ensures ok { IfOk result (λ answered. (answered ≡ answer)
        × (W.taken_octets writer.new ≡ W.taken_octets writer.old ++ written text.now)) }
    ensures beginning { BeginsToWrite result (W.taken_octets writer.old) (W.taken_octets writer.new)
        (written text.now) }
    ensures fault { IfErr result (λ e. e ≡ StreamFault.Write) }
    ensures failures { W.failures writer.new ≡ W.failures writer.old + writes_failed_in result }
{
    match write_all(writer, text.as_bytes()) {
        Ok(()) => Ok(answer),
        Err(WriteFailed) => Err(StreamFault::Write),
    }
}

/// A stream that is cut into records and listed.
#[derive(Drop)]
struct Lister<S> {
    cutter: S,
    progress: Progress,
    text: Text,
}

impl<S: Cutter, C: Listing<S>, W: Sink> Taker<C, W> for Lister<S> {
    type Answer = Summary;

    ghost taking = { listing_of C.lines S.layout (λ l. S.failure l.cutter)
        (λ l c. standing [] c l.progress (S.held l.cutter)) };

    // Writes the lines of all records that are whole now, and the line of octets that are refused after them.
    fn take(
        &mut self,
        listing: &mut C,
        writer: &mut W,
        before: u64,
        piece: &[u8],
    ) -> Result<Option<Summary>, StreamFault> {
        self.text.clear();
        let Ok(()) = self.cutter.feed(piece) else {
            return Err(StreamFault::Memory);
        };
        let Ok(fault) = list_records(
            &mut self.cutter,
            listing,
            &mut self.progress,
            &mut self.text,
        ) else {
            return Err(StreamFault::Memory);
        };
        let Some(fault) = fault else {
            return put(writer, &self.text, None);
        };
        let next = self.progress.count.following();
        let Ok(()) = C::refuse(&mut self.text, &next, fault) else {
            return Err(StreamFault::Memory);
        };
        let all = self.progress.of_all(before + piece.len() as u64, false);
        put(writer, &self.text, Some(all))
    }

    // Writes the line of what is left, if anything is.
    fn end(&mut self, _: &mut C, writer: &mut W, octets: u64) -> Result<Summary, StreamFault> {
        let all_good = self.progress.all_good;
        let Err(fault) = self.cutter.finish() else {
            return Ok(self.progress.of_all(octets, all_good));
        };
        self.text.clear();
        let next = self.progress.count.following();
        let Ok(()) = C::refuse(&mut self.text, &next, fault) else {
            return Err(StreamFault::Memory);
        };
        put(writer, &self.text, self.progress.of_all(octets, false))
    }

    ghost of_nothing = { λ l c text. tt };
}

/// Reads a stream in pieces, and writes the lines of each piece before it reads the next. It returns how many
/// whole records and octets there were, and whether every record was good and nothing was left after them.
///
/// If a record declares an impossible length, its line is the last and nothing more is read. The
/// fault is `Read` or `Write` if that device failed, `Memory` if memory ran out, and `TooLong`
/// beyond `MOST_OCTETS` octets. What is written by then is a beginning of the lines.
/// Faults: Read, Write, Memory, TooLong. Memory: yes. Cost: the number of octets read and written.
pub fn list_stream<S: Cutter + Drop, C: Listing<S> + Drop, R: Source, W: Sink>(
    alloc: Global,
    reader: &mut R,
    writer: &mut W,
    cutter: S,
    mut listing: C,
) -> Result<Summary, StreamFault>
    requires held { S.held cutter ≡ [] }
    requires going { S.failure cutter ≡ None }
    ensures reads { Reads R.given R.remaining R.failures result reader.old reader.new }
    ensures writes { WritesText W.taken_octets W.failures result writer.old writer.new
        (text_of C.lines S.layout
        (fresh listing (gained (R.given reader.old) (R.given reader.new)))) }
    ensures listed { IfOk result (λ l. l ≡ summary_of C.lines S.layout
        (fresh listing (gained (R.given reader.old) (R.given reader.new)))) }
    ensures end { OnOk result (HasEnded (R.has_ended reader.new) (R.remaining reader.new)
        ⊎ IsRefused S.layout
        (rest_by S.layout (gained (R.given reader.old) (R.given reader.new)))) }
{
    let mut stream = Lister {
        cutter,
        progress: Progress {
            count: RecordNumber::new(),
            all_good: true,
        },
        text: Text::new(alloc),
    };
    go_through(reader, writer, &mut stream, &mut listing)
}
