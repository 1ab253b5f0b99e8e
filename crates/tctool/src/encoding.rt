// `tctool encode`: octets of the lines that other commands write.

ghost use Rattle.std.specs.Prelude.{◌≡◌, OnOk, IfOk};
ghost use Rattle.encode_lines.specs.Octets.{octets_in, unreadable_in};
ghost use Rattle.streams.specs.Devices.{HasEnded, gained};
ghost use Rattle.streams.specs.Streams.{Reads, WritesText};
ghost use Rattle.stream_commands.specs.Outcome.{outcome_view};
ghost use Rattle.tc_frame.specs.Splitter.{check_if};
ghost use Rattle.tctool.specs.Dumped.{as_read};

use encode_lines::encode_stream;
use std::alloc::Global;
use stream_commands::Outcome;
use streams::{Sink, Source, StreamFault};
use tc_frame::check_if;

/// Writes the octets of lines, up to the first unreadable one. With `check`, frames that are spelled by their
/// fields get their FECF. With `skips`, lines not meant to carry octets have none.
pub fn encode<R: Source, W: Sink>(
    alloc: Global,
    reader: &mut R,
    writer: &mut W,
    skips: bool,
    check: bool,
) -> Result<Outcome, StreamFault>
    ensures reads { Reads R.given R.remaining R.failures result reader.old reader.new }
    ensures writes { WritesText W.taken_octets W.failures result writer.old writer.new
        (octets_in skips (check_if check) (gained (R.given reader.old) (R.given reader.new))) }
    ensures outcome { IfOk result (λ outcome. outcome_view outcome
        ≡ as_read (unreadable_in skips (check_if check) (gained (R.given reader.old) (R.given reader.new)))) }
    ensures end { OnOk result (HasEnded (R.has_ended reader.new) (R.remaining reader.new)) }
{
    match encode_stream(alloc, reader, writer, skips, check_if(check)) {
        Ok(None) => Ok(Outcome::Good),
        Ok(Some(line)) => Ok(Outcome::Unreadable(line)),
        Err(fault) => Err(fault),
    }
}
