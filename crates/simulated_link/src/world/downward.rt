// The downlink: telemetry frames with CLCWs.

ghost use Rattle.std.specs.Prelude.{◌≡◌};
ghost use Rattle.simulated_link.specs.World.{is_confirmation};

use super::World;
use crate::down_frame::put_report;
use crate::fault::SimFault;
use crate::reply::Reply;
use cop1::FopMode;
use nodes::{Event, Heard, HeardClcw};

impl World {
    ghost use Rattle.std.specs.Prelude.{◌≡◌};
    ghost use Rattle.nodes.specs.Ground.{ground_step, ControlWord};
    ghost use Rattle.simulated_link.specs.Events.{LetsHappen};
    ghost use Rattle.simulated_link.specs.World.{world_after_word};

    pub(crate) fn report(&mut self) -> Result<Reply, SimFault>
        ensures { LetsHappen Event.Report self.old self.new result }
    {
        let Ok(mut octets) = Vec::with_capacity(self.alloc, self.spacecraft.frame_length()) else {
            return Err(SimFault::Memory);
        };
        if self.down.try_reserve(1).is_err() {
            return Err(SimFault::Memory);
        }
        let clcw = self.spacecraft.control_word();
        put_report(&mut self.spacecraft, &mut octets);
        self.down.push_back_reserved(octets);
        Ok(Reply::Reported(clcw))
    }

    pub(crate) fn down_deliver(&mut self) -> Result<Reply, SimFault>
        ensures { LetsHappen Event.DownDeliver self.old self.new result }
    {
        let Some(octets) = self.down.front() else {
            return Err(SimFault::NothingInTransit);
        };
        let (mode, nn) = (self.ground_node.state(), self.ground_node.nn());
        let Ok(heard) = self.ground_node.telemetry(octets) else {
            return Err(SimFault::Memory);
        };
        let _ = self.down.pop_front();
        self.session.acknowledged += usize::from(self.ground_node.nn().wrapping_sub(nn));
        self.session.confirmed = self.session.confirmed
            || is_confirmation(mode, self.ground_node.state());
        Ok(Reply::Down(heard))
    }

    pub(crate) fn down_clcw(&mut self) -> Result<Reply, SimFault>
        ensures { LetsHappen Event.DownClcw self.old self.new result }
    {
        let Some(octets) = self.down.front() else {
            return Err(SimFault::NothingInTransit);
        };
        let word = match tm_link::decode(octets, self.ground_node.frame_length()) {
            Ok(frame) => Ok(frame.ocf),
            Err(fault) => Err(fault),
        };
        let _ = self.down.pop_front();
        match word {
            Ok(word) => Ok(Reply::DownClcw(self.hear_word(word))),
            Err(fault) => Ok(Reply::Down(Heard::Invalid(fault))),
        }
    }

    // Gives the ground a CLCW, and updates the session's records.
    fn hear_word(&mut self, word: [u8; 4]) -> HeardClcw
        ensures answer { result ≡ (ground_step self.old.ground_node (ControlWord word)).answer }
        ensures after { self.new ≡ (world_after_word self.old self.old.down
            (ground_step self.old.ground_node (ControlWord word))).after }
    {
        let (mode, before) = (self.ground_node.state(), self.ground_node.nn());
        let heard = self.ground_node.clcw(word);
        self.session.acknowledged += usize::from(self.ground_node.nn().wrapping_sub(before));
        self.session.confirmed = self.session.confirmed
            || is_confirmation(mode, self.ground_node.state());
        heard
    }
}

// Returns whether a CLCW that takes the ground from one state to another confirms the session.
fn is_confirmation(old: FopMode, new: FopMode) -> bool
    ensures { result ≡ is_confirmation old new }
{
    match new {
        FopMode::S1 => matches!(&old, FopMode::S4 | FopMode::S5),
        _ => false,
    }
}
