// The world of a simulated link.

mod accept;
mod calls;
mod downward;
mod loss;
mod step;
mod upward;

use crate::fault::SimFault;
use crate::map_lists::{no_packets, packets_of};
use crate::session::Session;
use crate::session_start::Opening;
use nodes::{Ground, Spacecraft, ValidConfig};
use std::alloc::Global;
use std::collections::VecDeque;
use std::marker::Model;

/// Two nodes, the frames in transit between them, and the records of the session. A session begins with
/// each initiation directive that the ground accepts.
#[derive(Drop)]
pub struct World {
    alloc: Global,
    ground_node: Ground,
    spacecraft: Spacecraft,
    up: VecDeque<Vec<u8>>,
    down: VecDeque<Vec<u8>>,
    session: Session,
    // The data fields accepted in the whole run.
    accepted: Vec<Vec<u8>>,
}

impl Model for World {
    ghost use Rattle.simulated_link.specs.World.{World};

    ghost Value = { World };

    ghost use Rattle.simulated_link.specs.WorldFields.{world_of, IsSound};

    ghost view = { world_of };

    ghost invariant = { IsSound };
}

impl World {
    ghost use Rattle.std.specs.Prelude.{◌≡◌, map, IfOk, IsOkUnless};
    ghost use Rattle.tm_link.specs.Extractor.{octets_of};
    ghost use Rattle.nodes.specs.Packets.{packet_view};
    ghost use Rattle.simulated_link.specs.World.{new_world, submitted, accepted, delivered};

    /// Returns two new nodes, with nothing in transit.
    /// Faults: 6 Memory. Memory: yes.
    pub fn new(alloc: Global, config: &ValidConfig) -> Result<World, SimFault>
        ensures made { IfOk result (λ world. world ≡ new_world config.now) }
        ensures fault { IsOkUnless result SimFault.Memory }
    {
        let Ok(ground_node) = Ground::of(alloc, config) else {
            return Err(SimFault::Memory);
        };
        let Ok(spacecraft) = Spacecraft::of(alloc, config) else {
            return Err(SimFault::Memory);
        };
        Ok(World {
            alloc,
            ground_node,
            spacecraft,
            up: VecDeque::new(alloc),
            down: VecDeque::new(alloc),
            session: Session {
                opening: None,
                confirmed: false,
                submissions: Vec::new(alloc),
                submitted: no_packets(alloc),
                delivered: no_packets(alloc),
                sent: Vec::new(alloc),
                acknowledged: 0,
                before: 0,
            },
            accepted: Vec::new(alloc),
        })
    }

    /// Returns the ground node.
    pub fn ground_node(&self) -> &Ground
        ensures { result.now ≡ self.now.ground_node }
    {
        &self.ground_node
    }

    /// Returns the node on board.
    pub fn spacecraft(&self) -> &Spacecraft
        ensures { result.now ≡ self.now.spacecraft }
    {
        &self.spacecraft
    }

    /// Returns how the session began, or None before the first session.
    pub fn opening(&self) -> Option<Opening>
        ensures { result ≡ self.now.session.opening }
    {
        self.session.opening
    }

    /// Returns whether a CLCW has taken the ground from S4 or S5 to S1 in the session.
    pub fn confirmed(&self) -> bool
        ensures { result ≡ self.now.session.confirmed }
    {
        self.session.confirmed
    }

    /// Returns the octets of each submission accepted in the session, with its MAP.
    pub fn submissions(&self) -> &[(u8, Vec<u8>)]
        ensures { map packet_view result.now ≡ self.now.session.submissions }
    {
        self.session.submissions.as_slice()
    }

    /// Returns the packets of these submissions on a MAP, in order. There are none above MAP 63.
    pub fn submitted(&self, map: u8) -> &[Vec<u8>]
        ensures { octets_of result.now ≡ submitted self.now map }
    {
        packets_of(&self.session.submitted, map)
    }

    /// Returns the packets that became ready on board on a MAP since the session began, in order, taken or
    /// not. There are none above MAP 63.
    pub fn delivered(&self, map: u8) -> &[Vec<u8>]
        ensures { octets_of result.now ≡ delivered self.now map }
    {
        packets_of(&self.session.delivered, map)
    }

    /// Returns the data fields of the session's Type-AD frames, in the order in which they were first sent.
    pub fn sent(&self) -> &[Vec<u8>]
        ensures { octets_of result.now ≡ self.now.session.sent }
    {
        self.session.sent.as_slice()
    }

    /// Returns how many data fields of `sent`, from the first, are acknowledged as far as the ground knows.
    pub fn acknowledged(&self) -> usize
        ensures { result ≡ self.now.session.acknowledged }
    {
        self.session.acknowledged
    }

    /// Returns the data fields of the Type-AD frames accepted on board since the session began.
    pub fn accepted(&self) -> &[Vec<u8>]
        ensures { octets_of result.now ≡ accepted self.now }
    {
        self.accepted.split_at(self.session.before).1
    }
}
