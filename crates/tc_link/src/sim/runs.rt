// Whole runs of a simulated link.

ghost use Rattle.std.specs.Prelude.{◌≡◌, None, IfOk, OnOk, IsOkUnless};
ghost use Rattle.nodes.specs.Parameters.{config_fault};
ghost use Rattle.tc_link.specs.Promises.{IsPromised, HoldsThroughout};
ghost use Rattle.tc_link.specs.Readable.{AllReadable};
ghost use Rattle.tc_link.specs.Seen.{seen, IsPromisedOfSeen};
ghost use Rattle.tc_link.specs.Simulation.{sim_run, refused_field};
ghost use Rattle.simulated_link.specs.World.{IsClean, IsIdle};

use super::Sim;
use crate::event::keeps_octets;
use nodes::{Config, Event};
use simulated_link::SimFault;
use std::alloc::Global;

/// Lets the events happen one after another, and keeps the answer to each. The fault 9 contains the
/// name of the first field that is out of range. The run ends at an event only if memory runs out.
/// What `Sim::step` promises holds at each event, and so does what it promises of the state after the
/// event.
/// Faults: 9 Config, then 6 Memory. Memory: yes. Cost: that of the events.
pub fn run(alloc: Global, config: Config, events: &[Event<'_>]) -> Result<Sim, SimFault>
    ensures ran { IfOk result (λ sim. sim ≡ sim_run config events.now) }
    ensures range { refused_field result ≡ config_fault config }
    ensures memory { config_fault config ≡ None → IsOkUnless result SimFault.Memory }
    ensures promised { IfOk result (λ sim. IsClean sim.world → IsPromised sim.world) }
    ensures throughout { OnOk result (HoldsThroughout config events.now) }
    ensures from_idle { IfOk result (λ sim. IsIdle sim.world → IsPromised sim.world) }
    ensures clean { IfOk result (λ sim. IsClean sim.world → IsIdle sim.world) }
    ensures readable { IfOk result (λ sim. AllReadable sim.world) }
    ensures seen { IfOk result (λ sim. IsPromisedOfSeen config.blocking (seen events.now sim.answers)) }
{
    let mut sim = Sim::new(alloc, config)?;
    'events: for event in events {
        sim.record_step(*event)?;
    }
    Ok(sim)
}

impl Sim {
    ghost use Rattle.std.specs.Prelude.{OnOk};
    ghost use Rattle.tc_link.specs.Reached.{IsEvent};
    ghost use Rattle.tc_link.specs.Simulation.{record_step};

    // Lets an event happen, and keeps the answer to it.
    fn record_step(&mut self, event: Event<'_>) -> Result<(), SimFault>
        ensures ok { OnOk result (self.new ≡ record_step self.old event.entry) }
        ensures fault { IsOkUnless result SimFault.Memory }
        ensures octets { OnOk result (IsEvent event.entry) }
    {
        if self.answers.try_reserve(1).is_err() {
            return Err(SimFault::Memory);
        }
        keeps_octets(event);
        let answer = self.world.step(event);
        if let Err(SimFault::Memory) = answer {
            return Err(SimFault::Memory);
        }
        self.answers.push_reserved(answer);
        Ok(())
    }
}
