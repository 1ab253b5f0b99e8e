// One event after another.

use super::World;
use crate::fault::SimFault;
use crate::reply::Reply;
use nodes::Event;

impl World {
    ghost use Rattle.std.specs.Prelude.{◌≡◌, ◌≢◌, Ok, Err, IfOk, IfErr, OnOk, OnErr, IsOkUnless};
    ghost use Rattle.simulated_link.specs.Events.{IsReplyTo, TakesNone};
    ghost use Rattle.simulated_link.specs.World.{world_step};

    /// Runs an event, and returns the reply. Refuses 7 `NothingInTransit` if there is no frame in transit for
    /// the event. Refuses 8 `NotDetectable` if the receiver's decoder accepts the octets of a damaged frame.
    /// At a fault nothing has changed. Any other refusal of a node is a reply.
    /// Faults: 7 NothingInTransit, then 8 NotDetectable, then 6 Memory. Memory: yes; none for losing,
    /// damaging, a CLCW by itself, ticks, directives, resuming and taking. Cost: that of the nodes' calls;
    /// where a session begins also the records released.
    pub fn step(&mut self, event: Event<'_>) -> Result<Reply, SimFault>
        ensures reply { IfOk result (IsReplyTo self.old event.entry) }
        ensures after { OnOk result (self.new ≡ (world_step self.old event.entry).after) }
        ensures err { OnErr result (self.new ≡ self.old) }
        ensures refused { IfErr (world_step self.old event.entry).answer (λ e. result ≡ Err e) }
        ensures memory { IfOk (world_step self.old event.entry).answer
            (λ _. IsOkUnless result SimFault.Memory) }
        ensures none { TakesNone self.old event.entry → result ≢ Err SimFault.Memory }
    {
        match event {
            Event::Submit(map, octets) => self.submit(map, octets),
            Event::Bypass(map, octets) => self.bypass(map, octets),
            Event::Directive(directive) => Ok(self.directive(directive)),
            Event::Resume(value) => Ok(self.resume(value)),
            Event::Send => self.send(),
            Event::UpDeliver => self.up_deliver(),
            Event::UpLose => self.up_lose(),
            Event::UpDamage(octets) => self.up_damage(octets),
            Event::Report => self.report(),
            Event::DownDeliver => self.down_deliver(),
            Event::DownLose => self.down_lose(),
            Event::DownDamage(octets) => self.down_damage(octets),
            Event::DownClcw => self.down_clcw(),
            Event::Tick => Ok(self.tick()),
            Event::Take => Ok(self.take()),
            Event::TakeBypass => Ok(self.take_bypass()),
            Event::Telemetry(packet) => self.telemetry(packet),
        }
    }
}
