// Lists the good frames of a channel in a stream, and what is skipped between them.

ghost use Rattle.std.specs.Prelude.{◌≡◌, ◌+◌, ◌-◌, ◌^◌, ◌<◌, ◌≤◌, ◌++◌, List, ℕ, drop, length, None, OnOk, IfOk};
ghost use Rattle.frame_search.specs.Search.{good_frame};
ghost use Rattle.streams.specs.Devices.{HasEnded, gained};
ghost use Rattle.streams.specs.Streams.{Reads, WritesText};
ghost use Rattle.listings.specs.Text.{written};
ghost use Rattle.stream_commands.specs.Found.{from_here, found, found_summary, searching, standing};

use crate::found_progress::{Progress, end_skipped, take_frame};
use frame_search::{Place, place_at};
use listings::{Listing, RecordNumber, Summary, Text};
use octets::{Splitter, remove_front};
use std::alloc::{AllocError, Global};
use streams::{Sink, Source, StreamFault, Taker, WriteFailed, go_through, write_all};
use tc_frame::Checked;

// Takes all good frames, and all octets at which it is known that none begins. It returns how many octets
// these are. The octets that are left are fewer than the longest frame has.
fn list_found<C: Listing<Splitter<Checked>>>(
    octets: &[u8],
    scid: u16,
    vcid: u8,
    listing: &mut C,
    progress: &mut Progress,
    text: &mut Text,
) -> Result<usize, AllocError>
    requires { progress.old.count + progress.old.skipped + length octets.now < 2 ^ 64 - 2 }
    ensures found { IfOk result (λ done. (more : List ℕ) → from_here C.lines scid vcid
        (standing (written text.new) listing.new progress.new) progress.new.skipped (drop done octets.now ++ more)
        ≡ from_here C.lines scid vcid
        (standing (written text.old) listing.old progress.old) progress.old.skipped (octets.now ++ more)) }
    ensures within { IfOk result (λ done. done ≤ length octets.now) }
    ensures left { IfOk result (λ done. length octets.now < done + 1024) }
    ensures open { IfOk result (λ done. good_frame scid vcid (drop done octets.now) ≡ None) }
    ensures count { IfOk result (λ done. progress.new.count + progress.new.skipped + length octets.now
        ≤ progress.old.count + progress.old.skipped + length octets.now + done) }
{
    let mut at = 0;
    'places: while at < octets.len() {
        match place_at(&octets[at..], scid, vcid) {
            Place::Frame(total) => {
                take_frame(&octets[at..at + total], listing, progress, text)?;
                at += total;
            }
            Place::Nothing => {
                progress.skipped += 1;
                at += 1;
            }
            Place::Open => return Ok(at),
        }
    }
    Ok(at)
}

// Takes the octets that are left when the input has ended and no more can come.
fn list_left<C: Listing<Splitter<Checked>>>(
    octets: &[u8],
    scid: u16,
    vcid: u8,
    listing: &mut C,
    progress: &mut Progress,
    text: &mut Text,
) -> Result<(), AllocError>
    requires { progress.old.count + progress.old.skipped + length octets.now < 2 ^ 64 - 2 }
    ensures { OnOk result (standing (written text.new) listing.new progress.new
        ≡ from_here C.lines scid vcid
        (standing (written text.old) listing.old progress.old) progress.old.skipped octets.now) }
{
    let mut at = 0;
    'rests: loop {
        let done = list_found(&octets[at..], scid, vcid, listing, progress, text)?;
        at += done;
        if at == octets.len() {
            return end_skipped(text, progress);
        }
        progress.skipped += 1;
        at += 1;
    }
}

// A stream that is searched. It holds the octets at which it is not known whether a good frame begins, fewer
// than the longest frame has.
#[derive(Drop)]
struct Search {
    scid: u16,
    vcid: u8,
    held: Vec<u8>,
    progress: Progress,
    text: Text,
}

impl<C: Listing<Splitter<Checked>>, W: Sink> Taker<C, W> for Search {
    type Answer = Summary;

    ghost taking = { searching C.lines };

    // Writes the lines of what is known by then.
    fn take(
        &mut self,
        listing: &mut C,
        writer: &mut W,
        _: u64,
        piece: &[u8],
    ) -> Result<Option<Summary>, StreamFault> {
        self.text.clear();
        let Ok(()) = self.held.extend_from_slice(piece) else {
            return Err(StreamFault::Memory);
        };
        let Ok(done) = list_found(
            self.held.as_slice(),
            self.scid,
            self.vcid,
            listing,
            &mut self.progress,
            &mut self.text,
        ) else {
            return Err(StreamFault::Memory);
        };
        remove_front(&mut self.held, done);
        match write_all(writer, self.text.as_bytes()) {
            Ok(()) => Ok(None),
            Err(WriteFailed) => Err(StreamFault::Write),
        }
    }

    // Writes the lines of what is left.
    fn end(
        &mut self,
        listing: &mut C,
        writer: &mut W,
        octets: u64,
    ) -> Result<Summary, StreamFault> {
        self.text.clear();
        let Ok(()) = list_left(
            self.held.as_slice(),
            self.scid,
            self.vcid,
            listing,
            &mut self.progress,
            &mut self.text,
        ) else {
            return Err(StreamFault::Memory);
        };
        match write_all(writer, self.text.as_bytes()) {
            Ok(()) => Ok(Summary {
                records: self.progress.count.get(),
                octets,
                all_good: self.progress.all_good,
            }),
            Err(WriteFailed) => Err(StreamFault::Write),
        }
    }

    ghost of_nothing = { λ l c text. tt };
}

/// Reads a stream in pieces to its end. For each piece, before it reads the next, it writes the listing's
/// lines of the good frames of this channel, and the lines of what is skipped between them. It returns how
/// many records and octets there were, and whether nothing was skipped. Each good frame begins at the first
/// possible place after the end of the one before. The call holds a piece, and fewer octets than the longest
/// frame has.
///
/// The fault is `Read` or `Write` if that device failed, `Memory` if memory ran out, and `TooLong` beyond
/// `MOST_OCTETS` octets. What is written by then is a beginning of the lines.
/// Faults: Read, Write, Memory, TooLong. Memory: yes. Cost: for each octet at which a frame with the
/// channel's header might begin, those of that frame.
pub fn list_found_frames<C: Listing<Splitter<Checked>> + Drop, R: Source, W: Sink>(
    alloc: Global,
    reader: &mut R,
    writer: &mut W,
    mut listing: C,
    scid: u16,
    vcid: u8,
) -> Result<Summary, StreamFault>
    ensures reads { Reads R.given R.remaining R.failures result reader.old reader.new }
    ensures writes { WritesText W.taken_octets W.failures result writer.old writer.new
        (found C.lines scid vcid listing (gained (R.given reader.old) (R.given reader.new))).text }
    ensures listed { IfOk result (λ l. l ≡ found_summary C.lines scid vcid listing
        (gained (R.given reader.old) (R.given reader.new))) }
    ensures end { OnOk result (HasEnded (R.has_ended reader.new) (R.remaining reader.new)) }
{
    let mut search = Search {
        scid,
        vcid,
        held: Vec::new(alloc),
        progress: Progress {
            count: RecordNumber::new(),
            skipped: 0,
            all_good: true,
        },
        text: Text::new(alloc),
    };
    go_through(reader, writer, &mut search, &mut listing)
}
