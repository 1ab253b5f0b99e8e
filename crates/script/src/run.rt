// Runs a script that arrives in pieces.

ghost use Rattle.std.specs.Prelude.{◌≡◌, ◌+◌, ◌⊎◌, OnOk, IfOk, IfErr, refl};
ghost use Rattle.streams.specs.Devices.{HasEnded, gained, writes_failed_in, BeginsToWrite, Writes};
ghost use Rattle.streams.specs.Lines.{parts_of};
ghost use Rattle.streams.specs.Player.{answers};
ghost use Rattle.streams.specs.Streams.{Reads, WritesText};
ghost use Rattle.node_lines.specs.Player.{fresh_player, node_playing};
ghost use Rattle.script.specs.LinkNode.{link_rules};
ghost use Rattle.script.specs.Ending.{Ends, script_text};
ghost use Rattle.script.specs.Run.{script_taking};

use crate::check::{ScriptFault, fault_of};
use crate::link_node::LinkNode;
use node_lines::NodePlayer;
use std::alloc::Global;
use streams::{Sink, Source, StreamFault, Taker, go_through, play_lines};

// The octets of a script so far.
#[derive(Drop)]
struct Script {
    alloc: Global,
    octets: Vec<u8>,
}

// Runs a script on a link that its lines make.
fn play<W: Sink>(alloc: Global, writer: &mut W, script: &[u8]) -> Result<(), StreamFault>
    ensures ok { Writes result (W.taken_octets writer.old) (W.taken_octets writer.new)
        (answers (node_playing link_rules) fresh_player (parts_of script.now)) }
    ensures beginning { BeginsToWrite result (W.taken_octets writer.old) (W.taken_octets writer.new)
        (answers (node_playing link_rules) fresh_player (parts_of script.now)) }
    ensures failures { W.failures writer.new ≡ W.failures writer.old + writes_failed_in result }
    ensures faults { IfErr result (λ e. (e ≡ StreamFault.Write) ⊎ (e ≡ StreamFault.Memory)) }
{
    let mut player = NodePlayer::<LinkNode>::new();
    play_lines(alloc, writer, &mut player, String::new(alloc), script)
}

impl<W: Sink> Taker<(), W> for Script {
    // Why the script is not run, if it is not.
    type Answer = Option<ScriptFault>;

    ghost taking = { script_taking };

    fn take(
        &mut self,
        _: &mut (),
        _: &mut W,
        _: u64,
        piece: &[u8],
    ) -> Result<Option<Option<ScriptFault>>, StreamFault> {
        match self.octets.extend_from_slice(piece) {
            Ok(()) => Ok(None),
            Err(_) => Err(StreamFault::Memory),
        }
    }

    fn end(
        &mut self,
        _: &mut (),
        writer: &mut W,
        _: u64,
    ) -> Result<Option<ScriptFault>, StreamFault> {
        let script = self.octets.as_slice();
        match fault_of(script) {
            Some(fault) => Ok(Some(fault)),
            None => match play(self.alloc, writer, script) {
                Ok(()) => Ok(None),
                Err(fault) => Err(fault),
            },
        }
    }

    ghost of_nothing = { λ s k text. refl };
}

/// Reads a script to its end, and then runs it if all its lines are readable and its configuration is in
/// range. Otherwise it returns why not. Nothing is written before the whole script is read.
/// Faults: Read, Write, Memory, TooLong. Memory: the script. Cost: that of the events and answers.
pub fn play_script<R: Source, W: Sink>(
    alloc: Global,
    reader: &mut R,
    writer: &mut W,
) -> Result<Option<ScriptFault>, StreamFault>
    ensures reads { Reads R.given R.remaining R.failures result reader.old reader.new }
    ensures writes { WritesText W.taken_octets W.failures result writer.old writer.new
        (script_text (gained (R.given reader.old) (R.given reader.new))) }
    ensures ending { IfOk result (λ fault. Ends fault (gained (R.given reader.old) (R.given reader.new))) }
    ensures end { OnOk result (HasEnded (R.has_ended reader.new) (R.remaining reader.new)) }
{
    let mut script = Script {
        alloc,
        octets: Vec::new(alloc),
    };
    go_through(reader, writer, &mut script, &mut ())
}
