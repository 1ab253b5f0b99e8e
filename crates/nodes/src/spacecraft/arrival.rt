// The effect of octets that have arrived, determined before anything changes.

ghost use Rattle.std.specs.Prelude.{◌<◌};
ghost use Rattle.std.specs.Option.{ForSome};

use super::Spacecraft;
use super::receive::obey;
use crate::fault::LinkFault;
use crate::map_packet::{MapPacket, make_ready};
use crate::received::Received;
use cop1::{Farm, Verdict};
use map_service::Prepared;
use tc_frame::{Body, Check, Command, Segment, decode};

/// The effect of octets that have arrived from the ground, with all the memory that this effect needs.
/// `Spacecraft::prepare` returns it, and `Spacecraft::commit` carries it out.
#[derive(Drop)]
pub struct Arrival<'a> {
    pub(crate) octets: &'a [u8],
    pub(crate) received: Received,
    pub(crate) farm: Farm,
    pub(crate) accepted: Option<(Segment<'a>, Prepared)>,
    pub(crate) kept: Option<MapPacket>,
    ghost on_map: { ForSome accepted (λ p. p.0.header.map < 64) },
}

impl Spacecraft {
    ghost use Rattle.std.specs.Prelude.{◌≡◌, ◌≤◌, ◌<◌, length, false, None, IsOk, IfOk, IfErr, IfSome, option_map};
    ghost use Rattle.tc_frame.specs.Layout.{Ad, Bd, Bc, segment_view};
    ghost use Rattle.tc_frame.specs.Decoding.{frame_at};
    ghost use Rattle.nodes.specs.Arrival.{accepted_of, segment_in_body, IsAcceptable, IsArrivalOf, IsArrivalAt, after_accepting};
    ghost use Rattle.nodes.specs.Spacecraft.{spacecraft_step, Receive, hands_on, HandsNothingOn, after_segment, body_outcome};

    /// Determines the effect of octets from the ground, and allocates the memory that `commit` needs. The
    /// spacecraft does not change.
    /// Faults: 6 Memory. Memory: only for a Type-AD frame that is accepted or a Type-BD frame that is
    /// kept. Cost: n*, and the packets made ready.
    pub fn prepare<'a>(&self, octets: &'a [u8]) -> Result<Arrival<'a>, LinkFault>
        ensures octets { IfOk result (λ a. a.octets.now ≡ octets.now) }
        ensures arrival { IfOk result (IsArrivalAt self.now) }
        ensures fault { IfErr result (λ e. e ≡ LinkFault.Memory) }

        // It takes no memory for octets whose data are not passed on.
        ensures none { HandsNothingOn self.now (frame_at Check.On octets.now) → IsOk result }
        ensures nothing { HandsNothingOn self.now (frame_at Check.On octets.now)
            → IfOk result (λ a. accepted_of a ≡ None) }
    {
        let frame = match decode(octets, Check::On) {
            Ok(frame) => frame,
            Err(fault) => return Ok(self.unchanged(octets, Received::Invalid(fault))),
        };
        if !self.is_own_frame(&frame) {
            return Ok(self.unchanged(octets, Received::Foreign));
        }
        match frame.body {
            Body::Ad { n, segment } => self.prepare_sequence(octets, n, segment),
            Body::Bd { segment } => self.prepare_bypass(octets, segment),
            Body::Bc(command) => Ok(self.prepare_command(octets, command)),
        }
    }

    /// Accepts the octets from which the arrival was prepared. The spacecraft must be as it was at `prepare`.
    /// Cost: n.
    pub fn commit(&mut self, arrival: Arrival<'_>) -> Received
        requires { IsArrivalAt self.old arrival }
        ensures answer { result ≡ (spacecraft_step self.old (Receive arrival.entry.octets.now)).answer }
        ensures after { self.new ≡ (spacecraft_step self.old (Receive arrival.entry.octets.now)).after }
    {
        self.accept(arrival.accepted);
        self.keep(arrival.kept);
        self.farm = arrival.farm;
        arrival.received
    }

    // Passes on the accepted segment, if there is one.
    fn accept(&mut self, accepted: Option<(Segment<'_>, Prepared)>)
        requires { IfSome accepted (λ p. IsAcceptable self.old (segment_view p.0) p.1) }
        ensures { self.new
            ≡ after_accepting self.old (option_map (λ p. segment_view p.0) accepted.entry) }
    {
        if let Some((segment, prepared)) = accepted {
            self.hand_on(&segment, prepared);
        }
    }

    fn hand_on(&mut self, segment: &Segment<'_>, prepared: Prepared)
        requires { IsAcceptable self.old (segment_view segment.now) prepared }
        ensures { self.new ≡ after_segment self.old (segment_view segment.now) }
    {
        let packets = self.assembler.commit(segment, prepared);
        self.accepted = self.accepted.then(segment);
        make_ready(&mut self.ready, segment.header.map, packets);
    }

    // Returns an arrival without effect: the octets do not form a valid frame of this channel.
    fn unchanged<'a>(&self, octets: &'a [u8], received: Received) -> Arrival<'a>
        ensures octets { result.octets.now ≡ octets.now }
        ensures arrival { IsArrivalOf
            self.now (record { answer = received; after = self.now }) None result }
        ensures nothing { accepted_of result ≡ None }
    {
        Arrival {
            octets,
            received,
            farm: self.farm,
            accepted: None,
            kept: None,
        }
    }

    fn prepare_sequence<'a>(
        &self,
        octets: &'a [u8],
        n: u8,
        segment: Segment<'a>,
    ) -> Result<Arrival<'a>, LinkFault>
        requires short { length segment.payload.now ≤ 1016 }
        requires map { segment.header.map < 64 }
        ensures octets { IfOk result (λ a. a.octets.now ≡ octets.now) }
        ensures arrival { IfOk result (IsArrivalOf
            self.now
            (body_outcome self.now (Ad n (segment_view segment.entry)))
            (segment_in_body self.now (Ad n (segment_view segment.entry)))) }
        ensures fault { IfErr result (λ e. e ≡ LinkFault.Memory) }
        ensures none { hands_on self.now (Ad n (segment_view segment.entry)) ≡ false
            → IsOk result }
        ensures nothing { hands_on self.now (Ad n (segment_view segment.entry)) ≡ false
            → IfOk result (λ a. accepted_of a ≡ None) }
    {
        let mut farm = self.farm;
        let verdict = farm.ad(n, self.is_free());
        let Verdict::Accepted = verdict else {
            let received = Received::Sequence {
                n,
                verdict,
                ready: 0,
                dropped: None,
            };
            return Ok(Arrival {
                octets,
                received,
                farm,
                accepted: None,
                kept: None,
            });
        };
        let Ok(prepared) = self.assembler.prepare(&segment) else {
            return Err(LinkFault::Memory);
        };
        Ok(Arrival {
            octets,
            received: Received::Sequence {
                n,
                verdict,
                ready: prepared.packets.len(),
                dropped: prepared.dropped,
            },
            farm,
            accepted: Some((segment, prepared)),
            kept: None,
        })
    }

    fn prepare_bypass<'a>(
        &self,
        octets: &'a [u8],
        segment: Segment<'a>,
    ) -> Result<Arrival<'a>, LinkFault>
        requires { length segment.payload.now ≤ 1016 }
        ensures octets { IfOk result (λ a. a.octets.now ≡ octets.now) }
        ensures arrival { IfOk result (IsArrivalOf
            self.now (body_outcome self.now (Bd (segment_view segment.entry))) None) }
        ensures nothing { IfOk result (λ a. accepted_of a ≡ None) }
        ensures fault { IfErr result (λ e. e ≡ LinkFault.Memory) }
        ensures none { hands_on self.now (Bd (segment_view segment.entry)) ≡ false → IsOk result }
    {
        let mut farm = self.farm;
        farm.bd();
        let kept = self.packet_to_keep(&segment)?;
        Ok(Arrival {
            octets,
            received: Received::Bypass {
                kept: kept.is_some(),
            },
            farm,
            accepted: None,
            kept,
        })
    }

    fn prepare_command<'a>(&self, octets: &'a [u8], command: Command) -> Arrival<'a>
        ensures octets { result.octets.now ≡ octets.now }
        ensures arrival { IsArrivalOf self.now (body_outcome self.now (Bc command)) None result }
        ensures nothing { accepted_of result ≡ None }
    {
        let mut farm = self.farm;
        obey(&mut farm, command);
        Arrival {
            octets,
            received: Received::Control(command),
            farm,
            accepted: None,
            kept: None,
        }
    }
}
