// Telecommand frames from the ground.

ghost use Rattle.std.specs.Prelude.{◌≡◌};
ghost use Rattle.cop1.specs.Farm.{farm_step};
ghost use Rattle.nodes.specs.Spacecraft.{command_event};

use super::Spacecraft;
use crate::bypass_segments::is_kept;
use crate::fault::LinkFault;
use crate::map_packet::{MapPacket, make_ready_of, make_ready_one};
use crate::received::Received;
use cop1::{Farm, Verdict};
use map_service::{Dropped, TakenPart};
use tc_frame::{Body, Check, Command, Segment, TcFrame, decode};

impl Spacecraft {
    ghost use Rattle.std.specs.Prelude.{◌≤◌, length, true, false, None, Some, IsOk, IfOk, IfErr, IfSome, if◌then◌else◌};
    ghost use Rattle.tc_frame.specs.Layout.{Ad, Bd, frame_view, segment_view};
    ghost use Rattle.tc_frame.specs.Decoding.{frame_at};
    ghost use Rattle.map_service.specs.AssemblerTable.{hands_out};
    ghost use Rattle.nodes.specs.Arrival.{after_keeping};
    ghost use Rattle.nodes.specs.BypassSegments.{is_kept};
    ghost use Rattle.nodes.specs.Packets.{packet_on};
    ghost use Rattle.nodes.specs.Parameters.{limits_of};
    ghost use Rattle.nodes.specs.Spacecraft.{spacecraft_step, Receive, is_free, is_own_frame, hands_on, HandsNothingOn, hand_on_step, body_outcome};
    ghost use Rattle.nodes.specs.Steps.{TakesStep};

    /// Accepts octets from the ground: exactly one telecommand frame, with its FECF (CCSDS 232.0-B-4,
    /// 4.1). The call does what `prepare` and then `commit` do. At a fault the spacecraft is unchanged.
    /// Faults: 6 Memory. Memory: only for a Type-AD frame that is accepted or a Type-BD frame that is
    /// kept. Cost: n*, and the packets made ready.
    pub fn receive(&mut self, octets: &[u8]) -> Result<Received, LinkFault>
        ensures step { TakesStep (spacecraft_step self.old (Receive octets.now)) self.old self.new result }

        // It takes no memory for octets whose data are not passed on.
        ensures none { HandsNothingOn self.old (frame_at Check.On octets.now) → IsOk result }
    {
        let frame = match decode(octets, Check::On) {
            Ok(frame) => frame,
            Err(fault) => return Ok(Received::Invalid(fault)),
        };
        if !self.is_own_frame(&frame) {
            return Ok(Received::Foreign);
        }
        match frame.body {
            Body::Ad { n, segment } => self.receive_sequence(n, &segment),
            Body::Bd { segment } => self.receive_bypass(&segment),
            Body::Bc(command) => {
                obey(&mut self.farm, command);
                Ok(Received::Control(command))
            }
        }
    }

    fn receive_sequence(&mut self, n: u8, segment: &Segment<'_>) -> Result<Received, LinkFault>
        requires { length segment.now.payload.now ≤ 1016 }
        ensures step { TakesStep
            (body_outcome self.old (Ad n (segment_view segment.now))) self.old self.new result }
        ensures none { hands_on self.old (Ad n (segment_view segment.now)) ≡ false → IsOk result }
    {
        let mut farm = self.farm;
        let verdict = farm.ad(n, self.is_free());
        let Verdict::Accepted = verdict else {
            self.farm = farm;
            return Ok(Received::Sequence {
                n,
                verdict,
                ready: 0,
                dropped: None,
            });
        };
        let (ready, dropped) = self.hand_on_next(segment)?;
        self.farm = farm;
        Ok(Received::Sequence {
            n,
            verdict,
            ready,
            dropped,
        })
    }

    // Passes on the accepted segment. Returns how many packets it makes ready, and why octets were dropped.
    fn hand_on_next(&mut self, segment: &Segment<'_>) -> Result<(usize, Option<Dropped>), LinkFault>
        requires free { is_free self.old ≡ true }
        requires short { length segment.now.payload.now ≤ 1016 }
        ensures step { TakesStep
            (hand_on_step self.old (segment_view segment.now)) self.old self.new result }
    {
        if self.assembler.hands_out(segment) {
            return self.hand_on_alone(segment);
        }
        self.hand_on_part(segment)
    }

    // Passes on a segment flagged alone whose packets are delivered: they are copied from its octets.
    fn hand_on_alone(
        &mut self,
        segment: &Segment<'_>,
    ) -> Result<(usize, Option<Dropped>), LinkFault>
        requires alone { hands_out (limits_of self.old.config) (segment_view segment.now) ≡ true }
        requires free { is_free self.old ≡ true }
        requires short { length segment.now.payload.now ≤ 1016 }
        ensures step { TakesStep
            (hand_on_step self.old (segment_view segment.now)) self.old self.new result }
    {
        let map = segment.header.map;
        let ready = make_ready_of(self.alloc, &mut self.ready, map, segment.payload)?;
        let dropped = self.assembler.take_alone(segment);
        self.accepted = self.accepted.then(segment);
        Ok((ready, dropped))
    }

    // Passes on any other segment, which makes at most one packet ready: the packet that the segment ends.
    fn hand_on_part(&mut self, segment: &Segment<'_>) -> Result<(usize, Option<Dropped>), LinkFault>
        requires part { hands_out (limits_of self.old.config) (segment_view segment.now) ≡ false }
        requires free { is_free self.old ≡ true }
        requires short { length segment.now.payload.now ≤ 1016 }
        ensures step { TakesStep
            (hand_on_step self.old (segment_view segment.now)) self.old self.new result }
    {
        let Ok(TakenPart { dropped, packet }) = self.assembler.take_part(segment) else {
            return Err(LinkFault::Memory);
        };
        self.accepted = self.accepted.then(segment);
        let ready = make_ready_one(&mut self.ready, segment.header.map, packet);
        Ok((ready, dropped))
    }

    fn receive_bypass(&mut self, segment: &Segment<'_>) -> Result<Received, LinkFault>
        requires { length segment.now.payload.now ≤ 1016 }
        ensures step { TakesStep
            (body_outcome self.old (Bd (segment_view segment.now))) self.old self.new result }
        ensures none { hands_on self.old (Bd (segment_view segment.now)) ≡ false → IsOk result }
    {
        let kept = self.packet_to_keep(segment)?;
        let received = Received::Bypass {
            kept: kept.is_some(),
        };
        self.farm.bd();
        self.keep(kept);
        Ok(received)
    }

    // Keeps a packet, if there is one. Discards the oldest if as many wait as there are slots.
    #[tactic(auto, using(crate::proofs::SpacecraftBounds::past_with))]
    pub(super) fn keep(&mut self, kept: Option<MapPacket>)
        requires within { IfSome kept (λ p. length p.octets ≤ self.old.config.max_packet) }
        requires short { IfSome kept (λ p. length p.octets ≤ 1016) }
        ensures { self.new ≡ after_keeping self.old kept }
    {
        if let Some(packet) = kept {
            let _oldest = self.bypass.push_back(packet);
        }
    }

    pub(super) fn is_own_frame(&self, frame: &TcFrame<'_>) -> bool
        ensures { result ≡ is_own_frame self.now.config (frame_view frame.now) }
    {
        u32::from(frame.scid) == self.config.scid && u32::from(frame.vcid) == self.config.vcid
    }

    pub(super) fn is_free(&self) -> bool
        ensures { result ≡ is_free self.now }
    {
        self.ready.len() < self.config.ready_slots as usize
    }

    // Returns a copy of a Type-BD frame's packet if the packet is kept.
    #[tactic(auto, using(crate::proofs::SpacecraftBounds::kept_short))]
    pub(super) fn packet_to_keep(
        &self,
        segment: &Segment<'_>,
    ) -> Result<Option<MapPacket>, LinkFault>
        requires { length segment.now.payload.now ≤ 1016 }
        ensures packet { IfOk result (λ kept. kept
            ≡ if is_kept self.now.config (segment_view segment.now)
            then Some (packet_on segment.now.header.map segment.now.payload.now) else None) }
        ensures within { IfOk result (λ kept. IfSome kept
            (λ p. length p.octets ≤ self.now.config.max_packet)) }
        ensures short { IfOk result (λ kept. IfSome kept (λ p. length p.octets ≤ 1016)) }
        ensures fault { IfErr result (λ e. e ≡ LinkFault.Memory) }
        ensures none { is_kept self.now.config (segment_view segment.now) ≡ false → IsOk result }
    {
        if !is_kept(&self.config, segment) {
            return Ok(None);
        }
        let Ok(packet) = Vec::from_slice(self.alloc, segment.payload) else {
            return Err(LinkFault::Memory);
        };
        Ok(Some(MapPacket::new(segment.header.map, packet)))
    }
}

pub(super) fn obey(farm: &mut Farm, command: Command)
    ensures { farm.new ≡ farm_step farm.old (command_event command) }
{
    match command {
        Command::Unlock => farm.unlock(),
        Command::SetVr(vr) => farm.set_vr(vr),
    }
}
