// `tctool sim`: runs a script of the simulated link.

ghost use Rattle.std.specs.Prelude.{◌≡◌, OnOk, IfOk};
ghost use Rattle.script.specs.Ending.{script_ending, script_text};
ghost use Rattle.stream_commands.specs.Outcome.{outcome_view};
ghost use Rattle.streams.specs.Devices.{HasEnded, gained};
ghost use Rattle.streams.specs.Streams.{Reads, WritesText};
ghost use Rattle.tctool.specs.Dumped.{as_outcome};

use script::{ScriptFault, play_script};
use std::alloc::Global;
use stream_commands::Outcome;
use streams::{Sink, Source, StreamFault};

/// Reads a script to its end, and then runs it. Nothing is written before the whole script is read. If a line
/// is unreadable, the call leaves the cause.
pub fn simulate<R: Source, W: Sink>(
    alloc: Global,
    reader: &mut R,
    writer: &mut W,
    cause: &mut &'static str,
) -> Result<Outcome, StreamFault>
    ensures reads { Reads R.given R.remaining R.failures result reader.old reader.new }
    ensures writes { WritesText W.taken_octets W.failures result writer.old writer.new
        (script_text (gained (R.given reader.old) (R.given reader.new))) }
    ensures outcome { IfOk result (λ outcome. outcome_view outcome
        ≡ as_outcome (script_ending (gained (R.given reader.old) (R.given reader.new)))) }
    ensures end { OnOk result (HasEnded (R.has_ended reader.new) (R.remaining reader.new)) }
{
    match play_script(alloc, reader, writer) {
        Ok(None) => Ok(Outcome::Good),
        Ok(Some(ScriptFault::Unreadable(line, why))) => {
            *cause = why;
            Ok(Outcome::Unreadable(line))
        }
        Ok(Some(ScriptFault::OutOfRange(field))) => Ok(Outcome::OutOfRange(field)),
        Err(fault) => Err(fault),
    }
}
