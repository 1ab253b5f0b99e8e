// What is noted about a stream while it is listed, for lines on standard error. No clause covers it.

ghost use Rattle.std.specs.Prelude.{◌≡◌};
ghost use Rattle.listings.specs.Text.{Appends};

use crate::status::write_parts;
use itoa::Buffer;
use listings::{Cutter, Filter, FramesOf, Listing, RecordNumber, Text};
use std::alloc::AllocError;
use std::cell::Cell;
use std::marker::Model;
use streams::{Sink, WriteFailed};

/// What is noted about a stream: its whole records and their octets, and whether the good frames that a
/// receiver takes belong to several channels.
#[derive(Drop)]
pub struct Note {
    records: Cell<u64>,
    octets: Cell<u64>,
    // The frames that a receiver takes, if there is one.
    received: Cell<Option<FramesOf>>,
    // The channel of the first such frame, and whether another frame belongs to another channel.
    channel: Cell<Option<u32>>,
    has_others: Cell<bool>,
}

impl Note {
    /// Creates the note of a stream before anything is listed.
    pub fn new() -> Self {
        Note {
            records: Cell::new(0),
            octets: Cell::new(0),
            received: Cell::new(None),
            channel: Cell::new(None),
            has_others: Cell::new(false),
        }
    }

    // Notes that a receiver takes these frames.
    pub(crate) fn receives(&self, frames: FramesOf) {
        self.received.set(Some(frames));
    }

    #[inline(always)]
    fn pass(&self, octets: &[u8]) {
        self.records.set(self.records.get().wrapping_add(1));
        let before = self.octets.get();
        self.octets.set(before.wrapping_add(octets.len() as u64));
    }

    #[inline(always)]
    fn take_good(&self, octets: &[u8]) {
        if let Some(frames) = self.received.get() {
            if frames.keeps(octets) {
                self.take_channel(octets);
            }
        }
    }

    // Notes the spacecraft and the virtual channel of a frame (CCSDS 232.0-B-4, 4.1.2).
    fn take_channel(&self, octets: &[u8]) {
        let [first, second, third, ..] = octets else {
            return;
        };
        let channel = u32::from_be_bytes([0, *first & 3, *second, *third >> 2]);
        match self.channel.get() {
            None => self.channel.set(Some(channel)),
            Some(before) if before != channel => self.has_others.set(true),
            Some(_) => {}
        }
    }

    /// Writes a line if reading stopped before the end, with the octets of the file if they are known.
    /// Writes a line if a receiver took frames of several channels.
    /// Faults: WriteFailed.
    pub fn tell<W: Sink>(
        &self,
        stopped: bool,
        length: Option<u64>,
        errors: &mut W,
    ) -> Result<(), WriteFailed> {
        if stopped {
            self.tell_place(length, errors)?;
        }
        if self.has_others.get() {
            let line = "tctool: frames of several channels; --scid and --vcid take one\n";
            write_parts(errors, line, "", "")?;
        }
        Ok(())
    }

    // Writes where reading stopped. A device may report a length that is less than what was read
    // from it.
    fn tell_place<W: Sink>(&self, length: Option<u64>, errors: &mut W) -> Result<(), WriteFailed> {
        let (mut records, mut octets, mut all) = (Buffer::new(), Buffer::new(), Buffer::new());
        let record = records.format(self.records.get().wrapping_add(1));
        let before = octets.format(self.octets.get());
        write_parts(errors, "tctool: stopped at record ", record, ", after ")?;
        match length {
            Some(length) if self.octets.get() < length => {
                write_parts(errors, before, " of ", all.format(length))?;
            }
            _ => write_parts(errors, before, "", "")?,
        }
        write_parts(errors, " octets: where it ends is not known\n", "", "")
    }
}

/// A listing whose records are noted.
#[derive(Drop)]
pub struct Noted<'a, C> {
    listing: C,
    note: &'a Note,
}

impl<'a, C> Model for Noted<'a, C> {
    ghost Value = { C };

    ghost view = { λ l. l.listing };
}

impl<'a, C> Noted<'a, C> {
    /// Creates a listing like this one, whose records are noted in `note`.
    pub fn new(listing: C, note: &'a Note) -> Self
        ensures { result ≡ listing }
    {
        Noted { listing, note }
    }
}

impl<'a, S: Cutter, C: Listing<S>> Listing<S> for Noted<'a, C> {
    ghost lines = { C.lines };

    #[inline(always)]
    fn take(
        &mut self,
        text: &mut Text,
        index: &RecordNumber,
        octets: &[u8],
    ) -> Result<bool, AllocError> {
        self.note.pass(octets);
        let good = self.listing.take(text, index, octets)?;
        if good {
            self.note.take_good(octets);
        }
        Ok(good)
    }

    fn refuse(text: &mut Text, index: &RecordNumber, fault: S::Fault) -> Result<(), AllocError>
        ensures { Appends result text.old text.new (C.lines.fault_line index.now fault) }
    {
        C::refuse(text, index, fault)
    }
}
