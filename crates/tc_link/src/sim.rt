// A simulated link.

mod runs;

use crate::event::keeps_octets;
use cop1::{Directive, FopMode};
use nodes::{Config, Event, Ground, Spacecraft};
pub use runs::run;
use simulated_link::{Reply, SimFault, World};
use std::alloc::Global;
use std::marker::Model;

/// A ground, a spacecraft and the link between them. The link keeps the order of frames in each
/// direction, and loses or damages frames only so that the receiver detects it. The records of the
/// session begin again with each initiation directive that the ground accepts.
#[derive(Drop)]
pub struct Sim {
    world: World,
    answers: Vec<Result<Reply, SimFault>>,
}

impl Model for Sim {
    ghost use Rattle.tc_link.specs.Simulation.{SimState};

    ghost Value = { SimState };

    ghost use Rattle.tc_link.specs.SimFields.{state_of, IsSound};

    ghost view = { state_of };

    ghost invariant = { IsSound };
}

impl Sim {
    ghost use Rattle.std.specs.Prelude.{◌≡◌, ◌≢◌, map, length, option_map, None, Ok, Err, IfOk, IfErr, OnOk, OnErr, IsOkUnless};
    ghost use Rattle.octets.specs.Outcome.{map_ok};
    ghost use Rattle.tm_link.specs.Extractor.{octets_of};
    ghost use Rattle.nodes.specs.Ground.{outstanding};
    ghost use Rattle.nodes.specs.Packets.{packet_view};
    ghost use Rattle.nodes.specs.Parameters.{config_fault};
    ghost use Rattle.simulated_link.specs.Replies.{reply_view};
    ghost use Rattle.simulated_link.specs.Events.{IsReplyTo, TakesNone};
    ghost use Rattle.tc_link.specs.Simulation.{new_sim, refused_field};
    ghost use Rattle.tc_link.specs.Confirmation.{ConfirmsExactly, IsChecking, IsConfirmedExactly};
    ghost use Rattle.tc_link.specs.FalseAlarms.{HasNoFalseAlarm};
    ghost use Rattle.tc_link.specs.History.{HasPlainHistory, GoesOnByAStep};
    ghost use Rattle.tc_link.specs.InOrder.{IsInOrder};
    ghost use Rattle.tc_link.specs.InTransit.{KeepsToWindow};
    ghost use Rattle.tc_link.specs.Promises.{IsPromised, IsPromisedOf};
    ghost use Rattle.tc_link.specs.Readable.{AllReadable};
    ghost use Rattle.simulated_link.specs.World.{world_step, submitted, accepted, delivered, directive_of, BeginsNoSession, IsClean, IsIdle, IsSettled};

    /// Creates two new nodes, with nothing in transit. The fault 9 contains the name of the first field
    /// that is out of range.
    /// Faults: 9 Config, then 6 Memory. Memory: yes.
    pub fn new(alloc: Global, config: Config) -> Result<Sim, SimFault>
        ensures made { IfOk result (λ sim. sim ≡ new_sim config) }
        ensures range { refused_field result ≡ config_fault config }
        ensures memory { config_fault config ≡ None → IsOkUnless result SimFault.Memory }
        ensures promised { IfOk result (λ sim. IsClean sim.world → IsPromised sim.world) }
        ensures from_idle { IfOk result (λ sim. IsIdle sim.world → IsPromised sim.world) }
        ensures clean { IfOk result (λ sim. IsClean sim.world → IsIdle sim.world) }
        ensures readable { IfOk result (λ sim. AllReadable sim.world) }
    {
        let config = match config.valid() {
            Ok(config) => config,
            Err(field) => return Err(SimFault::Config(field)),
        };
        let world = World::new(alloc, &config)?;
        Ok(Sim {
            world,
            answers: Vec::new(alloc),
        })
    }

    /// Lets an event happen, and returns the reply to it. Refuses by 7 an event that needs a frame in
    /// transit if there is none, and by 8 a damaged frame whose octets the receiver's decoder accepts. If
    /// it refuses, nothing has changed. Any other refusal of a node is a reply.
    ///
    /// Three promises hold whatever the events of a session that began clean. Packets are delivered in
    /// order, each once. What the ground counts as acknowledged was accepted on board. If the session
    /// began with CLCW check, Unlock or Set V(R), no alert is a false one. All of this also holds of a
    /// session that had an idle start, as a clean one had. In such a session, without blocking, the
    /// packets delivered are exactly those all of whose segments were accepted (`from_idle`). In any
    /// session, the node to which a frame in transit is sent can read it. docs/PROMISES.md states each of
    /// these in full.
    /// Faults: 7 NothingInTransit, then 8 NotDetectable, then 6 Memory. Memory: as of `World::step`. Cost:
    /// that of the nodes' calls; where a session begins also the records released.
    pub fn step(&mut self, event: Event<'_>) -> Result<Reply, SimFault>
        ensures reply { IfOk result (IsReplyTo self.old.world event.entry) }
        ensures after { OnOk result
            (self.new ≡ record self.old { world = (world_step self.old.world event.entry).after }) }
        ensures err { OnErr result (self.new ≡ self.old) }
        ensures refused { IfErr (world_step self.old.world event.entry).answer
            (λ e. result ≡ Err e) }
        ensures memory { IfOk (world_step self.old.world event.entry).answer
            (λ _. IsOkUnless result SimFault.Memory) }
        ensures none { TakesNone self.old.world event.entry → result ≢ Err SimFault.Memory }
        ensures in_order { IsClean self.new.world → IsInOrder self.new.world }
        ensures history { IsClean self.new.world → HasPlainHistory self.new.world }
        ensures one_step { IsClean self.old.world → IsSettled self.old.world
            → BeginsNoSession self.old.world event.entry
            → GoesOnByAStep self.old.world self.new.world }
        ensures window { IsClean self.new.world → KeepsToWindow self.new.world }
        ensures confirmed { IsClean self.new.world → IsConfirmedExactly self.new.world }
        ensures confirms { IsClean self.old.world → IsChecking (directive_of self.old.world)
            → ConfirmsExactly self.old.world self.new.world }
        ensures no_false_alarm { IsClean self.old.world → IsChecking (directive_of self.old.world)
            → HasNoFalseAlarm self.old.world event.entry }
        ensures from_idle { (IsIdle self.new.world → IsPromised self.new.world)
            × (IsIdle self.old.world → IsPromisedOf self.old.world event.entry) }
        ensures clean { IsClean self.new.world → IsIdle self.new.world }
        ensures readable { AllReadable self.new.world }
    {
        keeps_octets(event);
        self.world.step(event)
    }

    /// Returns the answer to each event of `run`.
    pub fn answers(&self) -> &[Result<Reply, SimFault>]
        ensures { map (λ a. map_ok reply_view a) result.now ≡ self.now.answers }
    {
        self.answers.as_slice()
    }

    /// Returns the node on the ground.
    pub fn ground(&self) -> &Ground
        ensures { result.now ≡ self.now.world.ground_node }
    {
        self.world.ground_node()
    }

    /// Returns the node on board.
    pub fn spacecraft(&self) -> &Spacecraft
        ensures { result.now ≡ self.now.world.spacecraft }
    {
        self.world.spacecraft()
    }

    /// Returns the state of the ground's sender.
    pub fn state(&self) -> FopMode
        ensures { result ≡ self.now.world.ground_node.fop.state }
    {
        self.world.ground_node().state()
    }

    /// Returns the number of segments that were submitted and are not acknowledged.
    pub fn outstanding(&self) -> usize
        ensures { result ≡ length (outstanding self.now.world.ground_node) }
    {
        self.world.ground_node().outstanding()
    }

    /// Returns whether the session began clean: with nothing in transit and, for an initiation without
    /// CLCW check, with V(R) = V(S). None before any session.
    pub fn clean(&self) -> Option<bool>
        ensures { result ≡ option_map (λ o. o.clean) self.now.world.session.opening }
    {
        match self.world.opening() {
            Some(opening) => Some(opening.clean),
            None => None,
        }
    }

    /// Returns whether the session had an idle start. At its initiation nothing was in transit on
    /// the uplink. Each frame in transit on the downlink carried the CLCW that the receiver would
    /// have made then (FARM-B may differ). For an initiation without CLCW check, V(R) was V(S). A
    /// clean session had an idle start. None before any session.
    pub fn idle(&self) -> Option<bool>
        ensures { result ≡ option_map (λ o. o.idle) self.now.world.session.opening }
    {
        match self.world.opening() {
            Some(opening) => Some(opening.idle),
            None => None,
        }
    }

    /// Returns the initiation directive that began the session. None before any session.
    pub fn begun(&self) -> Option<Directive>
        ensures { result ≡ option_map (λ o. o.directive) self.now.world.session.opening }
    {
        match self.world.opening() {
            Some(opening) => Some(opening.directive),
            None => None,
        }
    }

    /// Returns whether a CLCW has taken the ground from S4 or S5 to S1 in the session.
    pub fn confirmed(&self) -> bool
        ensures { result ≡ self.now.world.session.confirmed }
    {
        self.world.confirmed()
    }

    /// Returns the octets of each submission that was accepted in the session, with its MAP.
    pub fn submissions(&self) -> &[(u8, Vec<u8>)]
        ensures { map packet_view result.now ≡ self.now.world.session.submissions }
    {
        self.world.submissions()
    }

    /// Returns the packets of these submissions on a MAP, in their order; none for a MAP above 63.
    pub fn submitted(&self, map: u8) -> &[Vec<u8>]
        ensures { octets_of result.now ≡ submitted self.now.world map }
    {
        self.world.submitted(map)
    }

    /// Returns the packets that were made ready on board on a MAP since the session began, taken or
    /// not, in their order; none for a MAP above 63.
    pub fn delivered(&self, map: u8) -> &[Vec<u8>]
        ensures { octets_of result.now ≡ delivered self.now.world map }
    {
        self.world.delivered(map)
    }

    /// Returns the data fields of the session's Type-AD frames, in the order in which they were
    /// first sent.
    pub fn sent(&self) -> &[Vec<u8>]
        ensures { octets_of result.now ≡ self.now.world.session.sent }
    {
        self.world.sent()
    }

    /// Returns the data fields of the Type-AD frames that were accepted on board since the session
    /// began.
    pub fn accepted(&self) -> &[Vec<u8>]
        ensures { octets_of result.now ≡ accepted self.now.world }
    {
        self.world.accepted()
    }

    /// Returns the number of data fields, from the first of `sent`, that the ground counts as
    /// acknowledged.
    pub fn acknowledged(&self) -> usize
        ensures { result ≡ self.now.world.session.acknowledged }
    {
        self.world.acknowledged()
    }
}
