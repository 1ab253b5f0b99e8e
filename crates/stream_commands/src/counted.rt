// Writes the lines of a stream, or their totals.

ghost use Rattle.std.specs.Prelude.{◌≡◌, ◌⊎◌, true, OnOk, IfOk};
ghost use Rattle.command_line.specs.Arguments.{IsInRange};
ghost use Rattle.streams.specs.Devices.{HasEnded};
ghost use Rattle.streams.specs.Devices.{gained};
ghost use Rattle.streams.specs.Streams.{Reads, WritesText};
ghost use Rattle.stream_commands.specs.Listed.{is_listed, listed_outcome, shown_lines, StopsAt};

use crate::listed::list_lines;
use crate::noted::Note;
use crate::outcome::Outcome;
use command_line::Task;
use listings::{Summary, Totals};
use std::alloc::Global;
use streams::{Sink, Source, StreamFault, WriteFailed, write_all};

/// Reads a stream to its end, in pieces, and writes the lines of a command that lists a file. It writes the
/// lines of each piece before it reads the next. With `count` it writes totals at the end instead of the
/// lines: the whole records, the octets, and how often each counted word occurs in the lines.
///
/// An `Ok` states that all lines and nothing else were written, and whether every record was good. If a
/// record declares an impossible length, its line is the last and nothing more is read. The fault is
/// `Read` or `Write` if that device failed, `Memory` if memory ran out, and `TooLong` beyond `MOST_OCTETS`
/// octets. What is written by then is a beginning of the lines or of the totals. A call that failed is the
/// last one of its device. What is noted about the records is for `Note::tell`.
/// Faults: `Read`, `Write`, `Memory`, `TooLong`. Memory: yes. Cost: the octets read and written.
pub fn list<R: Source, W: Sink>(
    alloc: Global,
    reader: &mut R,
    writer: &mut W,
    task: Task,
    count: bool,
    note: &Note,
) -> Result<Outcome, StreamFault>
    requires range { IsInRange task }
    requires listed { is_listed task ≡ true }
    ensures reads { Reads R.given R.remaining R.failures result reader.old reader.new }
    ensures writes { WritesText W.taken_octets W.failures result writer.old writer.new
        (shown_lines count task (gained (R.given reader.old) (R.given reader.new))) }
    ensures outcome { IfOk result (λ outcome. outcome
        ≡ listed_outcome task (gained (R.given reader.old) (R.given reader.new))) }
    ensures end { OnOk result (HasEnded (R.has_ended reader.new) (R.remaining reader.new)
        ⊎ StopsAt task (gained (R.given reader.old) (R.given reader.new))) }
{
    if count {
        return write_totals(alloc, reader, writer, task, note);
    }
    match list_lines(alloc, reader, writer, task, note) {
        Ok(listed) => Ok(Outcome::of(listed.all_good)),
        Err(fault) => Err(fault),
    }
}

// Counts the words of the lines, and writes the totals.
fn write_totals<R: Source, W: Sink>(
    alloc: Global,
    reader: &mut R,
    writer: &mut W,
    task: Task,
    note: &Note,
) -> Result<Outcome, StreamFault>
    requires range { IsInRange task }
    requires listed { is_listed task ≡ true }
    ensures reads { Reads R.given R.remaining R.failures result reader.old reader.new }
    ensures writes { WritesText W.taken_octets W.failures result writer.old writer.new
        (shown_lines true task (gained (R.given reader.old) (R.given reader.new))) }
    ensures outcome { IfOk result (λ outcome. outcome
        ≡ listed_outcome task (gained (R.given reader.old) (R.given reader.new))) }
    ensures end { OnOk result (HasEnded (R.has_ended reader.new) (R.remaining reader.new)
        ⊎ StopsAt task (gained (R.given reader.old) (R.given reader.new))) }
{
    let mut totals = Totals::new(alloc);
    let listed = match list_lines(alloc, reader, &mut totals, task, note) {
        Ok(listed) => listed,
        Err(StreamFault::Write) => return Err(StreamFault::Memory),
        Err(fault) => return Err(fault),
    };
    let Ok(text) = totals.lines(listed.records, listed.octets) else {
        return Err(StreamFault::Memory);
    };
    match write_all(writer, text.as_bytes()) {
        Ok(()) => Ok(Outcome::of(listed.all_good)),
        Err(WriteFailed) => Err(StreamFault::Write),
    }
}
