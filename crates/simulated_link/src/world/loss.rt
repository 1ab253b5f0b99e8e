// Frames that are lost or damaged in transit.

use super::World;
use crate::fault::SimFault;
use crate::reply::Reply;
use nodes::{Event, Heard, Received};
use tc_frame::Check;

impl World {
    ghost use Rattle.simulated_link.specs.Events.{LetsHappen};

    pub(crate) fn up_lose(&mut self) -> Result<Reply, SimFault>
        ensures { LetsHappen Event.UpLose self.old self.new result }
    {
        match self.up.pop_front() {
            Some(_) => Ok(Reply::Lost),
            None => Err(SimFault::NothingInTransit),
        }
    }

    pub(crate) fn down_lose(&mut self) -> Result<Reply, SimFault>
        ensures { LetsHappen Event.DownLose self.old self.new result }
    {
        match self.down.pop_front() {
            Some(_) => Ok(Reply::Lost),
            None => Err(SimFault::NothingInTransit),
        }
    }

    pub(crate) fn up_damage(&mut self, octets: &[u8]) -> Result<Reply, SimFault>
        ensures { LetsHappen (Event.UpDamage octets.entry) self.old self.new result }
    {
        if self.up.is_empty() {
            return Err(SimFault::NothingInTransit);
        }
        let Err(fault) = tc_frame::decode(octets, Check::On) else {
            return Err(SimFault::NotDetectable);
        };
        let _ = self.up.pop_front();
        Ok(Reply::Up(Received::Invalid(fault)))
    }

    pub(crate) fn down_damage(&mut self, octets: &[u8]) -> Result<Reply, SimFault>
        ensures { LetsHappen (Event.DownDamage octets.entry) self.old self.new result }
    {
        if self.down.is_empty() {
            return Err(SimFault::NothingInTransit);
        }
        let total = self.ground_node.frame_length();
        let Err(fault) = tm_link::decode(octets, total) else {
            return Err(SimFault::NotDetectable);
        };
        let _ = self.down.pop_front();
        Ok(Reply::Down(Heard::Invalid(fault)))
    }
}
