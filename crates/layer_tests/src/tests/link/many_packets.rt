// Many packets over a link that loses frames.

use super::step;
use super::twins::records_of;
use crate::tests::common::{equal, with_value};
use cop1::{Directive, FopMode};
use nodes::Parameter;
use std::alloc::Global;
use std::process::Abort;
use tc_link::{Event, Reply, Sim};

const COUNT: usize = 600;

// Returns packets on MAP 4, each with its sequence count, after `head`: nothing, or the segment header of
// their frames.
fn packets_after(rt: &impl Abort, alloc: Global, head: &[u8]) -> Vec<Vec<u8>> {
    let mut packets = Vec::new(alloc);
    for place in 0..COUNT {
        let pushed = packets.push(packet_after(rt, alloc, head, place));
        assert!(rt; pushed.is_ok());
    }
    packets
}

fn packet_after(rt: &impl Abort, alloc: Global, head: &[u8], place: usize) -> Vec<u8> {
    let mut octets = Vec::from_slice(alloc, head).expect(rt, "a header");
    octets
        .extend_from_slice(&packet(place))
        .expect(rt, "a packet");
    octets
}

fn packet(place: usize) -> [u8; 7] {
    let [.., high, low] = place.to_be_bytes();
    [0x10, 0x05, 0xc0 | high, low, 0x00, 0x00, 0xaa]
}

// The lengths of the lists at their last comparison.
#[derive(Clone, Copy)]
struct Lengths {
    submitted: usize,
    delivered: usize,
    sent: usize,
    accepted: usize,
}

impl Lengths {
    // Returns whether no list is longer than the one that it follows, given the acknowledged frames and taken
    // packets.
    fn are_ordered(self, acknowledged: usize, taken: usize) -> bool {
        self.sent <= self.submitted
            && self.accepted <= self.sent
            && acknowledged <= self.accepted
            && self.delivered == self.accepted
            && taken <= self.delivered
    }
}

// A link, the packets and their data fields, and how many frames were sent and packets taken.
#[derive(Drop)]
struct Carrier<'a> {
    sim: Sim,
    packets: &'a [Vec<u8>],
    fields: &'a [Vec<u8>],
    compared: Lengths,
    frames: usize,
    taken: usize,
}

// Returns whether a list continues from this place as the other does.
fn goes_on(list: &[Vec<u8>], place: usize, all: &[Vec<u8>]) -> bool {
    match (list.get(place..), all.get(place..)) {
        (Some(more), Some(rest)) => rest.starts_with(more),
        _ => false,
    }
}

fn are_same(list: &[Vec<u8>], all: &[Vec<u8>]) -> bool {
    list.len() == all.len() && all.starts_with(list)
}

fn lengths_of(sim: &Sim) -> Lengths {
    Lengths {
        submitted: sim.submitted(4).len(),
        delivered: sim.delivered(4).len(),
        sent: sim.sent().len(),
        accepted: sim.accepted().len(),
    }
}

impl Carrier<'_> {
    // Lets an event happen, compares the lists, and returns whether this is the reply.
    fn answers(&mut self, rt: &impl Abort, event: Event<'_>, reply: &Reply) -> bool {
        let given = step(&mut self.sim, event).expect(rt, "a reply");
        self.looks_at(rt, &given);
        self.compares(rt);
        given == *reply
    }

    fn replies(&mut self, rt: &impl Abort, event: Event<'_>, reply: &Reply) {
        assert!(rt; self.answers(rt, event, reply));
    }

    fn happens(&mut self, rt: &impl Abort, event: Event<'_>) {
        let _ = self.answers(rt, event, &Reply::Nothing);
    }

    // Checks that a packet that is taken is the next one.
    fn looks_at(&mut self, rt: &impl Abort, reply: &Reply) {
        if let Reply::Packet(map, octets) = reply {
            equal(
                rt,
                &(*map, octets.as_slice()),
                &(4, packet(self.taken).as_slice()),
            );
            self.taken = self.taken.wrapping_add(1);
        }
    }

    // Checks that these packets, in their order, were submitted and delivered, and that their data fields
    // were sent and accepted. No list may be longer than the one that it follows.
    fn compares(&mut self, rt: &impl Abort) {
        assert!(rt; self.go_on());
        let new = lengths_of(&self.sim);
        assert!(rt; new.are_ordered(self.sim.acknowledged(), self.taken));
        self.compared = new;
    }

    fn go_on(&self) -> bool {
        let sim = &self.sim;
        let old = self.compared;
        goes_on(sim.submitted(4), old.submitted, self.packets)
            && goes_on(sim.delivered(4), old.delivered, self.packets)
            && goes_on(sim.sent(), old.sent, self.fields)
            && goes_on(sim.accepted(), old.accepted, self.fields)
    }

    // Sends frames while there are any, and at most this many. Every seventh is lost.
    fn sends(&mut self, rt: &impl Abort, most: usize) {
        for _ in 0..most {
            if self.answers(rt, Event::Send, &Reply::Nothing) {
                break;
            }
            self.frames = self.frames.wrapping_add(1);
            self.comes_to_its_end(rt);
        }
    }

    fn comes_to_its_end(&mut self, rt: &impl Abort) {
        if self.frames % 7 == 0 {
            self.replies(rt, Event::UpLose, &Reply::Lost);
        } else {
            self.happens(rt, Event::UpDeliver);
            self.happens(rt, Event::Take);
        }
    }

    // Sends the current CLCW down, and returns whether it acknowledges more.
    fn reports(&mut self, rt: &impl Abort) -> bool {
        let before = self.sim.acknowledged();
        self.happens(rt, Event::Report);
        self.happens(rt, Event::DownDeliver);
        before < self.sim.acknowledged()
    }

    // Submits each packet.
    fn submits(&mut self, rt: &impl Abort) {
        for place in 0..COUNT {
            self.replies(rt, Event::Submit(4, &packet(place)), &Reply::Done);
        }
    }

    // Fills the window, and then sends ten frames for each CLCW, until all packets are acknowledged. If a
    // CLCW acknowledges nothing, the timer expires.
    fn carries(&mut self, rt: &impl Abort) {
        self.sends(rt, COUNT);
        for _ in 0..COUNT {
            if !self.reports(rt) {
                self.replies(rt, Event::Tick, &Reply::Done);
            }
            if self.sim.outstanding() == 0 {
                break;
            }
            self.sends(rt, 10);
        }
    }

    // Begins a session, and carries all packets.
    fn runs(&mut self, rt: &impl Abort) {
        let begin = Event::Directive(Directive::InitWithoutCheck);
        self.replies(rt, begin, &Reply::Done);
        self.submits(rt);
        self.carries(rt);
        self.has_carried_all(rt);
    }

    fn has_carried_all(&self, rt: &impl Abort) {
        let sim = &self.sim;
        equal(rt, &self.taken, &COUNT);
        for packets in [sim.submitted(4), sim.delivered(4)] {
            assert!(rt; are_same(packets, self.packets));
        }
        for fields in [sim.sent(), sim.accepted()] {
            assert!(rt; are_same(fields, self.fields));
        }
        let records = [COUNT, COUNT, COUNT, COUNT, COUNT, 0];
        equal(rt, &records_of(sim), &(FopMode::S1, records));
        equal(rt, &sim.clean(), &Some(true));
    }
}

#[test]
fn every_seventh_frame_lost(rt: HostRuntime) {
    let packets = packets_after(&rt, rt.alloc(), &[]);
    let fields = packets_after(&rt, rt.alloc(), &[0xc4]);
    carries(&rt, rt.alloc(), packets.as_slice(), fields.as_slice());
}

fn carries(rt: &impl Abort, alloc: Global, packets: &[Vec<u8>], fields: &[Vec<u8>]) {
    let config = with_value(Parameter::Timer, 1);
    let compared = Lengths {
        submitted: 0,
        delivered: 0,
        sent: 0,
        accepted: 0,
    };
    let mut carrier = Carrier {
        sim: Sim::new(alloc, config).expect(rt, "a link"),
        packets,
        fields,
        compared,
        frames: 0,
        taken: 0,
    };
    carrier.runs(rt);
}
