// Calls of the spacecraft.

use super::{Node, plays};
use crate::tests::common::{answer_of, equal, says_refused, with_parts, with_value};
use crate::tests::frames::*;
use clcw::{Clcw, decode};
use cop1::Verdict;
use map_service::Dropped;
use nodes::{Arrival, KeptNumbers, Parameter, ValidConfig};
use std::alloc::Global;
use std::process::Abort;
use tc_frame::{Check, Command, TcFault};
use tc_link::{Config, LinkFault, Received, Spacecraft};
use tm_link::{Pointer, TmFault};

// A call of a spacecraft, and its answer. For a telemetry frame, this is the CLCW, the virtual channel count,
// the pointer to the first packet, and the first 7 octets of the data.
#[derive(Clone, Copy)]
enum Row<'a> {
    Receive(&'a [u8], Received),
    Take(Option<&'a [u8]>),
    TakeBypass(Option<&'a [u8]>),
    Telemetry(&'a [u8], Result<(), TmFault>),
    Report([u8; 4], u8, Pointer, &'a [u8]),
    // The numbers of packets that wait to be taken, from Type-AD frames and from Type-BD frames.
    Waits(usize, usize),
}

impl<'a> Node<Row<'a>> for Spacecraft {
    fn create(alloc: Global, config: &ValidConfig) -> Result<Spacecraft, LinkFault> {
        Spacecraft::of(alloc, config)
    }

    fn length_of_frames(&self) -> usize {
        self.frame_length()
    }

    fn answers(&mut self, rt: &(impl Abort + Eprint), call: &Row<'a>) {
        match call {
            Row::Receive(octets, want) => equal(rt, &receive(rt, self, octets), &Ok(*want)),
            Row::Take(want) => takes(rt, &self.take(), *want),
            Row::TakeBypass(want) => takes(rt, &self.take_bypass(), *want),
            Row::Telemetry(packet, want) => equal(rt, &telemetry(rt, self, packet), want),
            Row::Report(word, number, pointer, data) => {
                reports(rt, self, *word, *number, *pointer, data)
            }
            Row::Waits(ready, bypassed) => {
                equal(rt, &(self.ready(), self.bypassed()), &(*ready, *bypassed));
            }
        }
    }
}

// A spacecraft that was restarted with V(R) = 1, FARM-B = 3 and both frame counts at 255, the last before 0.
#[derive(Drop)]
struct Restarted {
    spacecraft: Spacecraft,
}

impl<'a> Node<Row<'a>> for Restarted {
    fn create(alloc: Global, config: &ValidConfig) -> Result<Restarted, LinkFault> {
        let kept = KeptNumbers {
            vr: 1,
            farm_b: 3,
            mc_count: 255,
            vc_count: 255,
        };
        let spacecraft = Spacecraft::restarted(alloc, config.config(), kept)?;
        Ok(Restarted { spacecraft })
    }

    fn length_of_frames(&self) -> usize {
        self.spacecraft.frame_length()
    }

    fn answers(&mut self, rt: &(impl Abort + Eprint), call: &Row<'a>) {
        self.spacecraft.answers(rt, call);
    }
}

fn takes(rt: &impl Abort, taken: &Option<(u8, Vec<u8>)>, want: Option<&[u8]>) {
    assert!(rt; is_packet(taken, want));
}

// Returns whether the packet taken is this one, on MAP 4.
fn is_packet(taken: &Option<(u8, Vec<u8>)>, want: Option<&[u8]>) -> bool {
    match (taken, want) {
        (Some((map, octets)), Some(packet)) => *map == 4 && octets.as_slice() == packet,
        (None, None) => true,
        _ => false,
    }
}

// Receives octets. Octets that do not form a valid frame take no memory.
fn receive(
    rt: &(impl Abort + Eprint),
    spacecraft: &mut Spacecraft,
    octets: &[u8],
) -> Result<Received, LinkFault> {
    let ahead = ready_ahead(rt, spacecraft, octets);
    let receive = |spacecraft: &mut Spacecraft| spacecraft.receive(octets);
    let answer = answer_of(rt, spacecraft, word_of, refusal_of(octets), receive);
    if let Ok(Received::Sequence { ready, .. }) = answer {
        equal(rt, &ready, &ahead);
    }
    answer
}

// Returns how many packets these octets will make ready. Octets that do not form a valid frame take no
// memory.
fn ready_ahead(rt: &(impl Abort + Eprint), spacecraft: &Spacecraft, octets: &[u8]) -> usize {
    let ahead = match spacecraft.prepare(octets) {
        Err(fault) if refusal_of(octets) == Some(fault) => {
            says_refused(rt, fault.number(), 6);
            spacecraft.prepare(octets)
        }
        ahead => ahead,
    };
    match ahead {
        Ok(arrival) => ready_of(rt, &arrival, octets),
        Err(_) => 0,
    }
}

// Returns how many packets this arrival will make ready, and checks its data.
fn ready_of(rt: &impl Abort, arrival: &Arrival, octets: &[u8]) -> usize {
    match arrival.accepted() {
        Some((segment, packets)) => {
            let end = octets.len().wrapping_sub(2);
            assert!(rt; octets.get(6..end) == Some(segment.payload));
            packets.len()
        }
        None => 0,
    }
}

// Returns Memory, the fault of a call out of memory, if the octets are a frame.
fn refusal_of(octets: &[u8]) -> Option<LinkFault> {
    match tc_frame::decode(octets, Check::On) {
        Ok(_) => Some(LinkFault::Memory),
        Err(_) => None,
    }
}

fn word_of(spacecraft: &Spacecraft) -> Clcw {
    spacecraft.control_word()
}

// Queues a packet of telemetry.
fn telemetry(
    rt: &(impl Abort + Eprint),
    spacecraft: &mut Spacecraft,
    packet: &[u8],
) -> Result<(), TmFault> {
    let queue = |spacecraft: &mut Spacecraft| spacecraft.telemetry(packet);
    answer_of(rt, spacecraft, word_of, Some(TmFault::Memory), queue)
}

// Sends a telemetry frame, and checks it. Octets after it do not change.
fn reports(
    rt: &impl Abort,
    spacecraft: &mut Spacecraft,
    word: [u8; 4],
    number: u8,
    pointer: Pointer,
    data: &[u8],
) {
    assert!(rt; decode(word).ok() == Some(spacecraft.control_word()));
    let mut out = [0xee; 2048];
    let size = spacecraft.report(&mut out);
    let (octets, rest) = out.split_at_checked(size).unwrap_or_default();
    assert!(rt; rest.iter().all(|octet| *octet == 0xee));
    is_read(rt, octets, (word, number, pointer), data);
}

// Checks that a telemetry frame has this CLCW, count and pointer, and that its data begins with these octets.
fn is_read(rt: &impl Abort, octets: &[u8], fields: ([u8; 4], u8, Pointer), data: &[u8]) {
    match tm_link::decode(octets, octets.len()) {
        Ok(frame) => {
            equal(rt, &(frame.ocf, frame.vc_count, frame.pointer), &fields);
            assert!(rt; frame.payload.starts_with(data));
        }
        Err(_) => assert!(rt; false),
    }
}

// Returns the row of a frame of only idle data.
fn idle(word: [u8; 4], number: u8) -> Row<'static> {
    Row::Report(word, number, Pointer::OnlyIdle, &IDLE_DATA)
}

fn sequence(n: u8, verdict: Verdict, ready: usize) -> Received {
    Received::Sequence {
        n,
        verdict,
        ready,
        dropped: None,
    }
}

// Frames of another spacecraft or virtual channel change nothing, FARM-B included.
#[test]
fn foreign_frames(rt: HostRuntime) {
    let rows = [
        Row::Receive(&AD_ON_CHANNEL_3, Received::Foreign),
        Row::Receive(&BD_ON_CHANNEL_3, Received::Foreign),
        Row::Receive(&UNLOCK_ON_CHANNEL_3, Received::Foreign),
        Row::Receive(&BD_TO_SPACECRAFT_2, Received::Foreign),
        Row::Receive(&UNLOCK_TO_SPACECRAFT_2, Received::Foreign),
        Row::Receive(&SET_9_TO_SPACECRAFT_2, Received::Foreign),
        idle([0x01, 0x08, 0x00, 0x00], 0),
        Row::Receive(&BD_0, Received::Bypass { kept: true }),
        Row::Receive(&BD_TO_SPACECRAFT_2, Received::Foreign),
        Row::Receive(&BD_ON_CHANNEL_3, Received::Foreign),
        idle([0x01, 0x08, 0x02, 0x00], 1),
        Row::Waits(0, 1),
        Row::Take(None),
        Row::TakeBypass(Some(&P0)),
        Row::TakeBypass(None),
        Row::Waits(0, 0),
    ];
    plays::<Spacecraft, _>(&rt, rt.alloc(), &Config::default(), &rows);
}

#[test]
fn frames_in_sequence(rt: HostRuntime) {
    let none = Received::Sequence {
        n: 1,
        verdict: Verdict::Accepted,
        ready: 0,
        dropped: Some(Dropped::NotAPacket),
    };
    let rows = [
        Row::Receive(&AD_0[..14], Received::Invalid(TcFault::Length)),
        Row::Receive(&AD_TO_SPACECRAFT_3, Received::Foreign),
        idle([0x01, 0x08, 0x00, 0x00], 0),
        Row::Receive(&AD_0, sequence(0, Verdict::Accepted, 1)),
        Row::Receive(&AD_0, sequence(0, Verdict::Behind, 0)),
        Row::Receive(&AD_NONE, none),
        idle([0x01, 0x08, 0x00, 0x02], 1),
        Row::Waits(1, 0),
        Row::Take(Some(&P0)),
        Row::Take(None),
        Row::Telemetry(&P0[..6], Err(TmFault::NotAPacket)),
        Row::Telemetry(&P0, Ok(())),
        Row::Report([0x01, 0x08, 0x00, 0x02], 2, Pointer::At(0), &P0),
    ];
    plays::<Spacecraft, _>(&rt, rt.alloc(), &Config::default(), &rows);
}

// There is room for one packet, but with blocking a frame can have two.
#[test]
fn a_full_buffer(rt: HostRuntime) {
    let config = Config {
        ready_slots: 1,
        blocking: 1,
        ..Config::default()
    };
    let rows = [
        Row::Receive(&AD_BOTH, sequence(0, Verdict::Accepted, 2)),
        Row::Receive(&AD_1, sequence(1, Verdict::NoBuffer, 0)),
        Row::Take(Some(&P0)),
        idle([0x01, 0x08, 0x18, 0x01], 0),
        Row::Take(Some(&P1)),
        idle([0x01, 0x08, 0x08, 0x01], 1),
        Row::Receive(&AD_1, sequence(1, Verdict::Accepted, 1)),
        idle([0x01, 0x08, 0x00, 0x02], 2),
    ];
    plays::<Spacecraft, _>(&rt, rt.alloc(), &config, &rows);
}

#[test]
fn frames_past_the_sequence(rt: HostRuntime) {
    let config = with_value(Parameter::BypassSlots, 1);
    let rows = [
        Row::Receive(&BD_0, Received::Bypass { kept: true }),
        Row::Receive(&BD_1, Received::Bypass { kept: true }),
        Row::Receive(&BD_FIRST, Received::Bypass { kept: false }),
        Row::TakeBypass(Some(&P1)),
        Row::TakeBypass(None),
        idle([0x01, 0x08, 0x06, 0x00], 0),
        Row::Receive(&UNLOCK, Received::Control(Command::Unlock)),
        Row::Receive(&SET_9, Received::Control(Command::SetVr(9))),
        idle([0x01, 0x08, 0x02, 0x09], 1),
    ];
    plays::<Spacecraft, _>(&rt, rt.alloc(), &config, &rows);
}

#[test]
fn parts_that_arrive(rt: HostRuntime) {
    let rows = [
        Row::Receive(&FIRST, sequence(0, Verdict::Accepted, 0)),
        Row::Receive(&CONTINUING, sequence(1, Verdict::Accepted, 0)),
        Row::Take(None),
        Row::Receive(&LAST, sequence(2, Verdict::Accepted, 1)),
        Row::Take(Some(&P0)),
        Row::Take(None),
    ];
    plays::<Spacecraft, _>(&rt, rt.alloc(), &with_parts(3, 0), &rows);
}

#[test]
fn a_restart_on_purpose(rt: HostRuntime) {
    let rows = [
        Row::Waits(0, 0),
        idle([0x01, 0x08, 0x06, 0x01], 255),
        Row::Receive(&AD_0, sequence(0, Verdict::Behind, 0)),
        Row::Receive(&AD_1, sequence(1, Verdict::Accepted, 1)),
        Row::Receive(&BD_0, Received::Bypass { kept: true }),
        idle([0x01, 0x08, 0x00, 0x02], 0),
    ];
    plays::<Restarted, _>(&rt, rt.alloc(), &Config::default(), &rows);
}
