// Lists the good frames of a channel, as a command requires.

ghost use Rattle.std.specs.Prelude.{◌≡◌, ◌⊎◌, OnOk, IfOk};
ghost use Rattle.command_line.specs.Arguments.{IsInRange};
ghost use Rattle.streams.specs.Devices.{HasEnded};
ghost use Rattle.streams.specs.Devices.{gained};
ghost use Rattle.streams.specs.Streams.{Reads, WritesText};
ghost use Rattle.stream_commands.specs.Listed.{listed_lines, task_summary, StopsAt};

use crate::found::list_found_frames;
use command_line::{Searched, Task};
use cop1::Farm;
use listings::{FrameListing, FromFirst, MapListing, OneMap, RefusalListing, Summary};
use std::alloc::Global;
use streams::{Sink, Source, StreamFault};

/// Lists what a command lists for the good frames of a channel, and what is skipped between them.
pub fn list_searched<R: Source, W: Sink>(
    alloc: Global,
    reader: &mut R,
    writer: &mut W,
    task: Task,
    listed: Searched,
    scid: u16,
    vcid: u8,
) -> Result<Summary, StreamFault>
    requires task { task ≡ Task.Resync listed scid vcid }
    requires range { IsInRange task }
    ensures reads { Reads R.given R.remaining R.failures result reader.old reader.new }
    ensures writes { WritesText W.taken_octets W.failures result writer.old writer.new
        (listed_lines task (gained (R.given reader.old) (R.given reader.new))) }
    ensures listed { IfOk result (λ l. l
        ≡ task_summary task (gained (R.given reader.old) (R.given reader.new))) }
    ensures end { OnOk result (HasEnded (R.has_ended reader.new) (R.remaining reader.new)
        ⊎ StopsAt task (gained (R.given reader.old) (R.given reader.new))) }
{
    match listed {
        Searched::Farm {
            width,
            vr,
            from_first,
        } => {
            let farm = FromFirst::new(Farm::new(width, vr).unwrap(), from_first);
            list_found_frames(alloc, reader, writer, farm, scid, vcid)
        }
        Searched::Map {
            width,
            vr,
            from_first,
            blocking,
            map,
        } => {
            let packets = MapListing::new(alloc, width, vr, blocking);
            let packets = FromFirst::new(OneMap::new(packets, map), from_first);
            list_found_frames(alloc, reader, writer, packets, scid, vcid)
        }
        Searched::Tc => list_found_frames(alloc, reader, writer, FrameListing, scid, vcid),
        Searched::Check => list_found_frames(alloc, reader, writer, RefusalListing, scid, vcid),
    }
}
