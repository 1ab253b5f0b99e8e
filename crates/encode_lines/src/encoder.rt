// Lines in, octets out.

ghost use Rattle.std.specs.Prelude.{◌≡◌, None, map, OnOk, IfOk};
ghost use Rattle.streams.specs.Devices.{HasEnded, gained};
ghost use Rattle.streams.specs.Streams.{Reads, WritesText};
ghost use Rattle.encode_lines.specs.Octets.{Puts, packet_or_held, words_octets, octets_or_skipped, line_octets, octets_in, unreadable_in};

use crate::fields::{without_number, words_in};
use crate::frames::frame_in;
use crate::held::{claims_octets, digits_in, put_digits};
use crate::packets::packet_in;
use crate::spellings::{put_frame, put_packet};
use std::alloc::{AllocError, Global};
use streams::{Player, Sink, Source, StreamFault, play_stream};
use tc_frame::Check;

// Appends the octets of the packet that these words spell, or else those that they hold, and returns whether
// there are any.
fn put_packet_or_held(
    alloc: Global,
    words: &[&[u8]],
    text: &mut Vec<u8>,
) -> Result<bool, AllocError>
    ensures { Puts result text.old.items text.new.items
        (packet_or_held (map (λ word. word.now) words.now)) }
{
    if let Some(packet) = packet_in(words) {
        if put_packet(alloc, &packet, text)? {
            return Ok(true);
        }
    }
    match digits_in(words) {
        Some(digits) => put_digits(alloc, digits, text),
        None => Ok(false),
    }
}

// Appends the octets of the frame that these words spell, or else of a packet, or else those that they hold.
// It returns whether there are any.
fn put_words(
    alloc: Global,
    check: Check,
    words: &[&[u8]],
    text: &mut Vec<u8>,
) -> Result<bool, AllocError>
    ensures { Puts result text.old.items text.new.items
        (words_octets check (map (λ word. word.now) words.now)) }
{
    if let Some(frame) = frame_in(words) {
        if put_frame(alloc, &frame, check, text)? {
            return Ok(true);
        }
    }
    put_packet_or_held(alloc, words, text)
}

// Does the same, but appends nothing if lines without octets are skipped and these words are not
// meant to carry any.
fn put_or_skip(
    alloc: Global,
    skips: bool,
    check: Check,
    words: &[&[u8]],
    text: &mut Vec<u8>,
) -> Result<bool, AllocError>
    ensures { Puts result text.old.items text.new.items
        (octets_or_skipped skips check (map (λ word. word.now) words.now)) }
{
    if skips && !claims_octets(words) {
        return Ok(true);
    }
    put_words(alloc, check, words, text)
}

// Appends the octets of a line, and returns whether the line has octets or is skipped.
fn put_line(
    alloc: Global,
    skips: bool,
    check: Check,
    line: &[u8],
    text: &mut Vec<u8>,
) -> Result<bool, AllocError>
    ensures { Puts result text.old.items text.new.items (line_octets skips check line.now) }
{
    match line {
        [] => Ok(true),
        [b'#', ..] => Ok(true),
        _ => {
            let words = words_in(alloc, line)?;
            put_or_skip(alloc, skips, check, without_number(words.as_slice()), text)
        }
    }
}

// Encodes lines, up to the first unreadable one.
#[derive(Drop)]
pub struct Encoder {
    // Whether lines without octets are skipped.
    skips: bool,
    // Whether telecommand frames have their FECF.
    check: Check,
    // How many lines there were.
    lines: u64,
    // The number of the first unreadable line.
    refused: Option<u64>,
}

impl Encoder {
    ghost use Rattle.encode_lines.specs.Octets.{fresh};

    // Creates an encoder before the first line.
    fn new(skips: bool, check: Check) -> Self
        ensures { result ≡ fresh skips check }
    {
        Encoder {
            skips,
            check,
            lines: 0,
            refused: None,
        }
    }
}

impl Player<Vec<u8>> for Encoder {
    ghost use Rattle.encode_lines.specs.Octets.{encoding};

    ghost playing = { encoding };

    fn play(&mut self, alloc: Global, line: &[u8], text: &mut Vec<u8>) -> Result<bool, AllocError> {
        let Some(lines) = self.lines.checked_add(1) else {
            // There are more lines than octets can be read.
            return Err(AllocError);
        };
        if self.refused.is_none() && !put_line(alloc, self.skips, self.check, line, text)? {
            self.refused = Some(lines);
        }
        self.lines = lines;
        Ok(self.refused.is_none())
    }
}

/// Reads lines in pieces, and writes the octets of the lines of each piece before it reads the next. It
/// returns the number of the first unreadable line, from 1 on. Lines after it are read, and nothing is
/// written for them.
///
/// A line is one that `tctool tc` or `tctool packets` writes, or holds octets after its words, with or
/// without its number. An empty line, or one that begins with `#`, has no octets. With `skips`, a line that
/// is not meant to carry octets has none either. With `Check::On`, telecommand frames that are spelled by
/// their fields get their FECF.
/// Faults: Read, Write, Memory, TooLong. Memory: yes. Cost: the number of octets read and written.
pub fn encode_stream<R: Source, W: Sink>(
    alloc: Global,
    reader: &mut R,
    writer: &mut W,
    skips: bool,
    check: Check,
) -> Result<Option<u64>, StreamFault>
    ensures reads { Reads R.given R.remaining R.failures result reader.old reader.new }
    ensures writes { WritesText W.taken_octets W.failures result writer.old writer.new
        (octets_in skips check (gained (R.given reader.old) (R.given reader.new))) }
    ensures unreadable { IfOk result (λ line. line
        ≡ unreadable_in skips check (gained (R.given reader.old) (R.given reader.new))) }
    ensures end { OnOk result (HasEnded (R.has_ended reader.new) (R.remaining reader.new)) }
{
    let mut encoder = Encoder::new(skips, check);
    match play_stream(alloc, reader, writer, &mut encoder, Vec::<u8>::new(alloc)) {
        Ok(_) => Ok(encoder.refused),
        Err(fault) => Err(fault),
    }
}
