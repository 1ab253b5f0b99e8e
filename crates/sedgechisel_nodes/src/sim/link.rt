// A simulated link, with the octets that its last event gave.

use crate::sim::reply::{KeptReply, kept_reply, octets_of};
use nodes::Config;
use std::alloc::Global;
use std::marker::Model;
use tc_link::{Event, Sim};

/// A simulated link, and the octets of the frame or the packet that its last event gave.
#[derive(Drop)]
pub struct Link {
    sim: Sim,
    octets: Vec<u8>,
}

impl Model for Link {
    ghost use Rattle.sedgechisel_nodes.specs.Links.{LinkState};

    ghost Value = { LinkState };

    ghost use Rattle.sedgechisel_nodes.specs.LinkFields.{state_of};

    ghost view = { state_of };
}

impl Link {
    ghost use Rattle.std.specs.Prelude.{◌≡◌, ◌≢◌, [], IfSome};
    ghost use Rattle.simulated_link.specs.Events.{TakesNone};
    ghost use Rattle.simulated_link.specs.World.{new_world, world_step};
    ghost use Rattle.sedgechisel_nodes.specs.Links.{IsStepAnswer, IsReply, link_step};

    pub(crate) fn new(alloc: Global, config: &Config) -> Option<Link>
        ensures { IfSome result (λ l. l ≡ record { world = new_world config.now; octets = [] }) }
    {
        match Sim::new(alloc, *config) {
            Ok(sim) => Some(Link {
                sim,
                octets: Vec::new(alloc),
            }),
            Err(_) => None,
        }
    }

    pub(crate) fn sim(&self) -> &Sim
        ensures { result.now.world ≡ self.now.world }
    {
        &self.sim
    }

    // The octets that the last event gave.
    pub(crate) fn octets(&self) -> &[u8]
        ensures { result.now ≡ self.now.octets }
    {
        self.octets.as_slice()
    }

    // Lets an event happen, and writes the reply. Returns 0, or the number of the refusal.
    pub(crate) fn step(&mut self, alloc: Global, event: Event<'_>, reply: &mut KeptReply) -> u8
        ensures answer { IsStepAnswer (world_step self.old.world event.entry).answer result }
        ensures takes_none { TakesNone self.old.world event.entry → result ≢ 6 }
        ensures after { result ≡ 0 → self.new ≡ link_step self.old event.entry }
        ensures replied { result ≡ 0
            → IsReply (world_step self.old.world event.entry).answer reply.new }
        ensures unchanged { result ≢ 0 → (self.new ≡ self.old) × (reply.new ≡ reply.old) }
    {
        match self.sim.step(event) {
            Ok(answer) => {
                *reply = kept_reply(&answer);
                self.octets = octets_of(alloc, answer);
                0
            }
            Err(fault) => fault.number(),
        }
    }
}
