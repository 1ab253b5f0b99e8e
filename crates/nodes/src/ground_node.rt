// The ground node.

mod fates;
mod kept;
mod pull;
mod submission;
mod submit;
mod telemetry;

use crate::config::Config;
use crate::fault::LinkFault;
use crate::owned_segment::OwnedSegment;
use crate::valid_config::ValidConfig;
use cop1::{Alert, CopFault, Directive, Fop, FopMode};
use fates::count_anew;
pub use kept::KeptGround;
use std::alloc::Global;
use std::collections::VecDeque;
use std::marker::Model;
use std::mem;
pub use submission::Submission;
use tm_link::Extractor;

/// The ground node. It cuts packets into segments, and sends the segments in telecommand frames until
/// CLCWs acknowledge them. It extracts packets from telemetry frames.
#[derive(Drop)]
pub struct Ground {
    alloc: Global,
    config: Config,
    fop: Fop<OwnedSegment>,
    pending: VecDeque<OwnedSegment>,
    // The number of the session's submissions that are acknowledged whole, modulo 2^64. For each other
    // submission, how many of its segments are not acknowledged, the oldest first. Whether V(S) and NN(R)
    // are those of the session and no alert has shown a broken condition.
    acknowledged: u64,
    left: VecDeque<usize>,
    kept: bool,
    extractor: Extractor,
    // the telemetry packets: those that are taken first, and those that later frames finished
    waiting: VecDeque<Vec<u8>>,
    finished: Vec<Vec<u8>>,
}

impl Model for Ground {
    ghost use Rattle.nodes.specs.Ground.{GroundState};

    ghost Value = { GroundState };

    ghost use Rattle.nodes.specs.GroundFields.{state_of, IsSound};

    ghost view = { state_of };

    ghost invariant = { IsSound };
}

impl Ground {
    ghost use Rattle.std.specs.Prelude.{◌≡◌, true, length, option_map, option_copied, IfOk, IfSome, OnErr, IsOkUnless};
    ghost use Rattle.std.specs.Prelude.{◌≤◌, ◌+◌, ◌/◌};
    ghost use Rattle.map_service.specs.Packets.{is_packet};
    ghost use Rattle.cop1.specs.Accepted.{accepted_beyond};
    ghost use Rattle.cop1.specs.Units.{IsFop, due_units};
    ghost use Rattle.nodes.specs.Ground.{new_ground, ground_step, Direct, Tick, TakeTelemetry, refill_step, outstanding, unsent_segments};
    ghost use Rattle.nodes.specs.Ground.{is_closed};
    ghost use Rattle.nodes.specs.GroundBounds.{IsBounded};
    ghost use Rattle.nodes.specs.Parameters.{IsConfig};

    /// Returns a ground that has sent nothing, with its sender in S6. Each field must be in range. If the
    /// configuration is known only at run time, use `Config::valid` and `of`.
    /// Faults: 6 Memory. Memory: yes.
    pub fn new(alloc: Global, config: &Config) -> Result<Ground, LinkFault>
        requires { IsConfig config.now }
        ensures made { IfOk result (λ g. g ≡ new_ground config.now) }
        ensures fault { IsOkUnless result LinkFault.Memory }
    {
        Ground::of(alloc, &ValidConfig::of(config))
    }

    /// Returns a ground as `new` does, from a configuration that `Config::valid` returned. The call has no
    /// precondition.
    /// Faults: 6 Memory. Memory: yes.
    pub fn of(alloc: Global, valid: &ValidConfig) -> Result<Ground, LinkFault>
        ensures made { IfOk result (λ g. g ≡ new_ground valid.now) }
        ensures fault { IsOkUnless result LinkFault.Memory }
    {
        let config = valid.config();
        let Ok(fop) = Fop::new(
            alloc,
            config.width as u8,
            config.window as u8,
            config.limit as u8,
            config.timer as u16,
        ) else {
            return Err(LinkFault::Memory);
        };
        let Ok(extractor) = Extractor::new(alloc) else {
            return Err(LinkFault::Memory);
        };
        let Ok(pending) = VecDeque::with_capacity(alloc, config.queue_slots as usize) else {
            return Err(LinkFault::Memory);
        };
        // (each submission has a segment among those that may wait or those that may be sent; at most
        // 127 may be sent)
        let Ok(left) = VecDeque::with_capacity(alloc, config.queue_slots as usize + 127) else {
            return Err(LinkFault::Memory);
        };
        Ok(Ground {
            alloc,
            config: *config,
            fop,
            pending,
            acknowledged: 0,
            left,
            kept: false,
            extractor,
            waiting: VecDeque::new(alloc),
            finished: Vec::new(alloc),
        })
    }

    /// Returns the sender's state (CCSDS 232.1-B-2, 5.1).
    pub fn state(&self) -> FopMode
        ensures state { result ≡ self.now.fop.state }
        ensures holds { IsFop self.now.fop }
    {
        self.fop.state()
    }

    /// Returns V(S), the number of the next segment that is sent for the first time (CCSDS 232.1-B-2, 5.1).
    pub fn vs(&self) -> u8
        ensures { result ≡ self.now.fop.vs }
    {
        self.fop.vs()
    }

    /// Returns NN(R), the number that the spacecraft was last known to expect (CCSDS 232.1-B-2, 5.1).
    pub fn nn(&self) -> u8
        ensures { result ≡ self.now.fop.nn }
    {
        self.fop.nn()
    }

    /// Returns how many segments beyond NN(R), from the oldest, had been accepted on board when a CLCW with
    /// this value was made. If V(S) is NN(R), no segments were sent and not acknowledged, and it returns 0
    /// for any value. Otherwise it returns None if the value is not between NN(R) and V(S); then nothing is
    /// known of these segments. It can be called after an alert too, in S6: V(S) and NN(R) stay until V(S)
    /// is set or an initiation begins (CCSDS 232.1-B-2, 5.1). It uses only these two numbers, so after an
    /// alert that shows a broken condition its answer means nothing. It takes no memory.
    pub fn accepted_beyond(&self, value: u8) -> Option<u8>
        ensures { result ≡ accepted_beyond self.now.fop.nn self.now.fop.vs value }
    {
        cop1::accepted_beyond(self.nn(), self.vs(), value)
    }

    /// Returns the length of a telemetry frame in octets.
    pub fn frame_length(&self) -> usize
        ensures { result ≡ self.now.config.frame_length }
    {
        self.config.frame_length as usize
    }

    /// Returns how many segments are submitted and not acknowledged; 0 after an alert.
    #[tactic(auto, using(crate::proofs::GroundBounds::bounded))]
    pub fn outstanding(&self) -> usize
        ensures count { result ≡ length (outstanding self.now) }
        ensures most { result ≤ self.now.config.width / 2 + self.now.config.queue_slots }

        // The configuration bounds what a ground holds.
        ensures bounds { IsBounded self.now }
    {
        self.fop.sent() + usize::from(self.fop.waiting()) + self.pending.len()
    }

    /// Returns how many segments wait to be sent for the first time.
    pub fn unsent(&self) -> usize
        ensures count { result ≡ length (unsent_segments self.now) }
        ensures most { result ≤ self.now.config.queue_slots }
    {
        usize::from(self.fop.waiting()) + self.pending.len()
    }

    /// Returns how many segments are due to be retransmitted.
    pub fn due(&self) -> usize
        ensures { result ≡ length (due_units self.now.fop.sent) }
    {
        self.fop.due()
    }

    /// Returns how many bypass packets wait to be sent.
    pub fn bypassed(&self) -> usize
        ensures count { result ≡ length self.now.fop.bypass }
        ensures most { result ≤ self.now.config.queue_slots }
    {
        self.fop.bypassed()
    }

    /// Returns the sender's transmission count, at least 1 (CCSDS 232.1-B-2, 5.1). The limit may be set to
    /// less than the count.
    pub fn count(&self) -> u8
        ensures { result ≡ self.now.fop.count }
    {
        self.fop.count()
    }

    /// Returns the ticks that are left, at least 1, if the sender's timer is running.
    pub fn ticks(&self) -> Option<u16>
        ensures { result ≡ self.now.fop.ticks }
    {
        self.fop.ticks()
    }

    /// Executes a directive (CCSDS 232.1-B-2, table 5-1). Returns an alert for `Terminate`. Refuses what the
    /// sender refuses.
    /// Faults: those of `CopFault`, 2 Window, 3 Limit, 4 Timer, 8 WrongState. Cost: 1; for `Terminate`
    /// the number of segments released.
    pub fn directive(&mut self, directive: Directive) -> Result<Option<Alert>, CopFault>
        ensures answer { result ≡ (ground_step self.old (Direct directive)).answer }
        ensures after { self.new ≡ (ground_step self.old (Direct directive)).after }
        ensures err { OnErr result (self.new ≡ self.old) }
    {
        let alert = self.fop.directive(directive)?;
        count_anew(
            directive,
            &mut self.acknowledged,
            &mut self.left,
            &mut self.kept,
        );
        self.refill();
        Ok(alert)
    }

    /// Counts a tick of the clock. Returns an alert if the sender gives up (CCSDS 232.1-B-2, table 5-1).
    /// Cost: the number of segments released.
    pub fn tick(&mut self) -> Option<Alert>
        ensures answer { result ≡ (ground_step self.old Tick).answer }
        ensures after { self.new ≡ (ground_step self.old Tick).after }
    {
        let alert = self.fop.tick();
        self.refill();
        alert
    }

    /// Lends the packet that `take_telemetry` would take next. The ground does not change.
    pub fn peek_telemetry(&self) -> Option<&[u8]>
        ensures { option_copied result ≡ (ground_step self.now TakeTelemetry).answer }
    {
        if let Some(packet) = self.waiting.front() {
            return Some(packet.as_slice());
        }
        match self.finished.first() {
            Some(packet) => Some(packet.as_slice()),
            None => None,
        }
    }

    /// Takes the oldest packet from telemetry frames (CCSDS 132.0-B-3, 4.3.2).
    pub fn take_telemetry(&mut self) -> Option<Vec<u8>>
        ensures answer { option_map (λ v. v.items) result
            ≡ (ground_step self.old TakeTelemetry).answer }
        ensures after { self.new ≡ (ground_step self.old TakeTelemetry).after }

        // The octets are exactly one packet, so there are at least 7.
        ensures packet { IfSome result (λ v. is_packet v.items ≡ true) }
    {
        if self.waiting.is_empty() {
            let finished = mem::replace(&mut self.finished, Vec::new(self.alloc));
            self.waiting = VecDeque::from_vec(finished);
        }
        self.waiting.pop_front()
    }

    // Moves the oldest pending segment into the wait queue if its slot is free. In S6 it discards all
    // pending segments.
    fn refill(&mut self)
        ensures { self.new ≡ refill_step self.old }
    {
        if self.is_closed() {
            self.pending.clear();
            return;
        }
        if self.fop.waiting() {
            return;
        }
        if let Some(segment) = self.pending.pop_front() {
            let _ = self.fop.submit(segment);
        }
    }

    // Returns whether the sender is in S6.
    fn is_closed(&self) -> bool
        ensures { result ≡ is_closed self.now.fop.state }
    {
        self.state() == FopMode::S6
    }
}
