// `tctool ground` and `tctool spacecraft`: a node that is run line by line.

ghost use Rattle.std.specs.Prelude.{◌≡◌, ◌++◌, Err, OnOk, IfOk};
ghost use Rattle.streams.specs.Player.{answers_of, answers_so_far, is_all_good};
ghost use Rattle.streams.specs.Devices.{HasEnded, gained};
ghost use Rattle.streams.specs.Streams.{Reads, WritesText};
ghost use Rattle.node_lines.specs.Player.{node_playing, fresh_player};
ghost use Rattle.stream_commands.specs.Outcome.{outcome_if};

use node_lines::{Node, NodePlayer};
use std::alloc::Global;
use stream_commands::Outcome;
use streams::{Sink, Source, StreamFault, play_stream};

/// Runs a node: answers the lines of each piece of the input before the next is read.
pub fn play_node<N: Node + Drop, R: Source, W: Sink>(
    alloc: Global,
    reader: &mut R,
    writer: &mut W,
) -> Result<Outcome, StreamFault>
    ensures reads { Reads R.given R.remaining R.failures result reader.old reader.new }
    ensures writes { WritesText W.taken_octets W.failures result writer.old writer.new
        (answers_of (node_playing N.rules) fresh_player (gained (R.given reader.old) (R.given reader.new))) }
    ensures in_time { result ≡ Err StreamFault.Read → W.taken_octets writer.new ≡ W.taken_octets writer.old
        ++ answers_so_far (node_playing N.rules) fresh_player (gained (R.given reader.old) (R.given reader.new)) }
    ensures outcome { IfOk result (λ outcome. outcome ≡ outcome_if
        (is_all_good (node_playing N.rules) fresh_player (gained (R.given reader.old) (R.given reader.new)))) }
    ensures end { OnOk result (HasEnded (R.has_ended reader.new) (R.remaining reader.new)) }
{
    let mut player = NodePlayer::<N>::new();
    match play_stream(alloc, reader, writer, &mut player, String::new(alloc)) {
        Ok(good) => Ok(Outcome::of(good)),
        Err(fault) => Err(fault),
    }
}
