// Reads a file, and writes what the arguments request.

ghost use Rattle.std.specs.Prelude.{◌≡◌, ◌⊎◌, OnOk, IfOk};
ghost use Rattle.command_line.specs.Arguments.{IsInRange};
ghost use Rattle.streams.specs.Devices.{HasEnded};
ghost use Rattle.streams.specs.Devices.{gained};
ghost use Rattle.streams.specs.Streams.{Reads, WritesText};
ghost use Rattle.stream_commands.specs.Listed.{StopsAt};
ghost use Rattle.stream_commands.specs.Outcome.{outcome_view};
ghost use Rattle.tctool.specs.Dumped.{lines_of, outcome_for, AnswersInTime};

use crate::encoding::encode;
use crate::node::play_node;
use crate::simulation::simulate;
use command_line::{Options, Task};
use nodes::{Ground, Spacecraft};
use std::alloc::Global;
use stream_commands::{Note, Outcome, list};
use streams::{Sink, Source, StreamFault};

/// Reads the input to its end, in pieces, and writes the lines that the arguments request. It writes the
/// lines of each piece before it reads the next, but runs a script only when all of it is read. A node
/// answers each line of a piece. For `Task::Encode` octets are written instead of lines. If totals are
/// requested, they are written instead of the lines of a file that is listed.
///
/// An `Ok` states that all lines and nothing else were written, and whether every record was good. If a
/// record declares an impossible length, its line is the last and nothing more is read. Nothing is written
/// for a script that is not run, nor for lines that `Task::Encode` reads from the first unreadable one on.
/// The fault is `Read` or `Write` if that device failed, `Memory` if memory ran out, and `TooLong` beyond
/// `MOST_OCTETS` octets. What is written by then is a beginning of the lines. A call that failed is the last
/// one of its device. The cause of a script's unreadable line is left in `cause`, and what is noted about the
/// records of a file in `note`.
pub fn dump<R: Source, W: Sink>(
    alloc: Global,
    reader: &mut R,
    writer: &mut W,
    options: &Options,
    cause: &mut &'static str,
    note: &Note,
) -> Result<Outcome, StreamFault>
    requires { IsInRange options.now.task }
    ensures reads { Reads R.given R.remaining R.failures result reader.old reader.new }
    ensures writes { WritesText W.taken_octets W.failures result writer.old writer.new
        (lines_of options.now.count options.now.task (gained (R.given reader.old) (R.given reader.new))) }
    ensures in_time { AnswersInTime options.now.task result (W.taken_octets writer.old)
        (W.taken_octets writer.new) (gained (R.given reader.old) (R.given reader.new)) }
    ensures outcome { IfOk result (λ outcome. outcome_view outcome
        ≡ outcome_for options.now.task (gained (R.given reader.old) (R.given reader.new))) }
    ensures end { OnOk result (HasEnded (R.has_ended reader.new) (R.remaining reader.new)
        ⊎ StopsAt options.now.task (gained (R.given reader.old) (R.given reader.new))) }
{
    match options.task {
        Task::Encode { check, skips } => encode(alloc, reader, writer, skips, check),
        Task::Sim => simulate(alloc, reader, writer, cause),
        Task::Ground => play_node::<Ground, R, W>(alloc, reader, writer),
        Task::Spacecraft => play_node::<Spacecraft, R, W>(alloc, reader, writer),
        task => list(alloc, reader, writer, task, options.count, note),
    }
}
