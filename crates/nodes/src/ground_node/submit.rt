// Submission of packets.

use super::Ground;
use super::submission::{Segments, Submission};
use crate::command_packets::{commands_in, is_one_command};
use crate::fault::LinkFault;
use crate::owned_segment::{OwnedSegment, own};
use map_service::{alone_segment, cut_packets, segment_count};
use tc_frame::Segment;

impl Ground {
    ghost use Rattle.std.specs.Prelude.{◌≡◌, ◌<◌, ◌⊎◌, ℕ, ◌+◌, length, true, false, not, nat_lt, if◌then◌else◌};
    ghost use Rattle.std.specs.Prelude.{Err, None, Ok, Some, IfOk, IfErr, IfSome, IsOkUnless};
    ghost use Rattle.tc_frame.specs.declared.frame.SegmentFlags.TheVariants.{Alone};
    ghost use Rattle.tc_frame.specs.Layout.{segment_view};
    ghost use Rattle.map_service.specs.Cutting.{segment_with};
    ghost use Rattle.nodes.specs.CommandPackets.{commands_fault};
    ghost use Rattle.nodes.specs.Ground.{ground_step, Submit, Bypass, Submits, submit_fault, bypass_fault};
    ghost use Rattle.nodes.specs.Ground.{unsent_segments, segments_on, is_over_slots};
    ghost use Rattle.nodes.specs.Parameters.{limits_of};
    ghost use Rattle.nodes.specs.Submissions.{IsSubmissionAt, segments_held};

    /// Submits command packets on a MAP, to be sent under sequence control: exactly one packet or, with
    /// blocking, one or more without a gap (CCSDS 232.0-B-4, 4.3). The call does what `prepare` and then
    /// `commit` do. The number of the submission in this session is what `submitted` returned before. The
    /// promise that `resume` delivers each packet once covers submissions that are one packet, or packets
    /// that fit into one segment (`part` octets) together. Refuses the first fault that applies, and
    /// changes nothing then: 1 `NotOpen` (in S6), 2 `ClosedMap`, 3 `NotCommand`, 4 `TooLong`, 5 `QueueFull`
    /// (more segments than the queue slots would wait to be sent), 6 `Memory`.
    /// Faults: 1 NotOpen, 2 ClosedMap, 3 NotCommand, 4 TooLong, 5 QueueFull, 6 Memory. Memory: yes.
    /// Cost: n.
    pub fn submit(&mut self, map: u8, octets: &[u8]) -> Result<(), LinkFault>
        ensures { Submits (submit_fault self.old map octets.now)
            (ground_step self.old (Submit map octets.now)) self.old self.new result }
    {
        let submission = self.prepare(map, octets)?;
        self.commit(submission);
        Ok(())
    }

    /// Checks and cuts packets for a submission, and allocates the memory that `commit` needs. The ground
    /// does not change. Refuses what `submit` refuses, in the same order.
    /// Faults: 1 NotOpen, 2 ClosedMap, 3 NotCommand, 4 TooLong, 5 QueueFull, 6 Memory. Memory: yes.
    /// Cost: n.
    pub fn prepare<'a>(&self, map: u8, octets: &'a [u8]) -> Result<Submission<'a>, LinkFault>
        ensures given { IfOk result (λ b. (b.map ≡ map) × (b.octets.now ≡ octets.now)) }
        ensures submission { IfOk result (IsSubmissionAt self.now) }
        ensures refused { IfSome (submit_fault self.now map octets.now)
            (λ fault. result ≡ Err fault) }
        ensures memory { submit_fault self.now map octets.now ≡ None
            → IsOkUnless result LinkFault.Memory }
        ensures faults { IfErr result
            (λ e. (e ≡ LinkFault.Memory) ⊎ (submit_fault self.now map octets.now ≡ Some e)) }
    {
        if self.is_closed() {
            return Err(LinkFault::NotOpen);
        }
        let limits = self.config.limits();
        if !limits.is_open(map) {
            return Err(LinkFault::ClosedMap);
        }
        let Some(packets) = commands_in(self.alloc, octets, &limits)? else {
            return Err(self.lack_of(octets));
        };
        let Some(segments) = self.segments_of(map, octets) else {
            return Err(self.lack_of(octets));
        };
        Ok(Submission {
            map,
            octets,
            packets,
            segments,
        })
    }

    /// Submits the packets that were prepared. The ground must be as it was at `prepare`.
    /// Cost: the number of segments.
    pub fn commit(&mut self, submission: Submission<'_>)
        requires { IsSubmissionAt self.old submission }
        ensures { self.new
            ≡ (ground_step self.old (Submit submission.entry.map submission.entry.octets.now)).after }
    {
        let segments = submission.segments;
        // (at most 127 are sent, so there is room)
        let _ = self.fop.sent();
        self.left.push_back_reserved(segments.count());
        match segments {
            Segments::One(segment) => self.pending.push_back_reserved(segment),
            Segments::Several(mut segments) => {
                let _ = self.pending.append(&mut segments);
            }
        }
        self.refill();
    }

    // Returns the segments of packets, copied. Returns None if they do not fit into the queue, or if
    // memory runs out.
    fn segments_of(&self, map: u8, octets: &[u8]) -> Option<Segments>
        requires map { map < 64 }
        requires commands { commands_fault (limits_of self.now.config) octets.now ≡ None }
        ensures segments { IfSome result (λ cut. segments_held cut ≡ segments_on self.now map octets.now) }
        ensures places { IfSome result (λ _. is_over_slots self.now map octets.now ≡ false) }
    {
        let part = self.config.part as usize;
        if let Some(segment) = alone_segment(octets, map, part) {
            if !self.has_places(1) {
                return None;
            }
            return match OwnedSegment::new(self.alloc, &segment) {
                Ok(segment) => Some(Segments::One(segment)),
                Err(_) => None,
            };
        }
        let mut segments = Vec::new(self.alloc);
        if cut_packets(octets, map, part, &mut segments).is_err() {
            return None;
        }
        if !self.has_places(segments.len()) {
            return None;
        }
        match own(self.alloc, segments.as_slice()) {
            Ok(segments) => Some(Segments::Several(segments)),
            Err(_) => None,
        }
    }

    // Returns whether this many more segments fit into the queue.
    fn has_places(&self, more: usize) -> bool
        ensures { result ≡ not (nat_lt self.now.config.queue_slots
            (length (unsent_segments self.now) + more)) }
    {
        let slots = self.config.queue_slots as usize;
        let unsent = usize::from(self.fop.waiting()) + self.pending.len();
        more <= slots && unsent + more <= slots
    }

    // Returns why packets could not be cut: 5 `QueueFull` if the queue slots do not suffice, else 6 `Memory`.
    fn lack_of(&self, octets: &[u8]) -> LinkFault
        requires { commands_fault (limits_of self.now.config) octets.now ≡ None }
        ensures { (m : ℕ) → result
            ≡ (if is_over_slots self.now m octets.now then LinkFault.QueueFull else LinkFault.Memory) }
    {
        match segment_count(octets, &self.config.limits()) {
            Ok(count) if self.has_places(count) => LinkFault::Memory,
            _ => LinkFault::QueueFull,
        }
    }

    /// Submits one command packet on a MAP, to be sent by bypass (Type-BD), in any state (CCSDS 232.0-B-4,
    /// 4.3). Refuses the first fault that applies, and changes nothing then: 2 `ClosedMap`, 3 `NotCommand`,
    /// 4 `TooLong` (longer than a packet or a segment may be), 5 `QueueFull`, 6 `Memory`.
    /// Faults: 2 ClosedMap, 3 NotCommand, 4 TooLong, 5 QueueFull, 6 Memory. Memory: yes. Cost: n.
    pub fn bypass(&mut self, map: u8, octets: &[u8]) -> Result<(), LinkFault>
        ensures { Submits (bypass_fault self.old map octets.now)
            (ground_step self.old (Bypass map octets.now)) self.old self.new result }
    {
        let segment = self.bypass_segment(map, octets)?;
        let copied = OwnedSegment::new(self.alloc, &segment)?;
        if self.fop.bypass(copied).is_err() {
            return Err(LinkFault::Memory);
        }
        Ok(())
    }

    // Returns one command packet as a segment flagged alone.
    fn bypass_segment<'a>(&self, map: u8, octets: &'a [u8]) -> Result<Segment<'a>, LinkFault>
        ensures ok { IfOk result (λ s. segment_view s ≡ segment_with Alone map octets.now) }
        ensures passed { IfOk result (λ _. bypass_fault self.now map octets.now ≡ None) }
        ensures err { IfErr result (λ e. bypass_fault self.now map octets.now ≡ Some e) }
    {
        let limits = self.config.limits();
        if !limits.is_open(map) {
            return Err(LinkFault::ClosedMap);
        }
        if !is_one_command(octets) {
            return Err(LinkFault::NotCommand);
        }
        if limits.is_too_long(octets.len()) {
            return Err(LinkFault::TooLong);
        }
        let Some(segment) = alone_segment(octets, map, limits.part as usize) else {
            return Err(LinkFault::TooLong);
        };
        if self.fop.bypassed() >= self.config.queue_slots as usize {
            return Err(LinkFault::QueueFull);
        }
        Ok(segment)
    }
}
