// Both nodes with ample memory and telemetry frames between them, and packets of any size, each different
// from the one before it.

use cop1::Directive;
use nodes::{Config, Ground, Heard, Spacecraft};
use std::alloc::Global;
use std::process::Abort;

/// Both nodes.
#[derive(Drop)]
pub struct Pair {
    ground: Ground,
    spacecraft: Spacecraft,
}

impl Pair {
    pub fn new(rt: &impl Abort, alloc: Global, config: &Config) -> Pair {
        let valid = config.valid().expect(rt, "a configuration");
        Pair {
            ground: Ground::of(alloc, &valid).expect(rt, "a ground"),
            spacecraft: Spacecraft::of(alloc, &valid).expect(rt, "a spacecraft"),
        }
    }

    /// Queues a packet of this size on board.
    pub fn queues(&mut self, rt: &impl Abort, alloc: Global, size: usize, count: usize) {
        let packet = measurement(rt, alloc, size, count);
        let queued = self.spacecraft.telemetry(packet.as_slice());
        assert_eq!(rt; queued, Ok(()));
    }

    /// Sends a telemetry frame to the ground, and returns how many packets it finishes.
    pub fn hears(&mut self, rt: &impl Abort) -> usize {
        let mut out = [0; 2048];
        let size = self.spacecraft.report(&mut out);
        match self.ground.telemetry(out.get(..size).unwrap_or_default()) {
            Ok(Heard::Frame { packets, .. }) => packets,
            heard => panic!(rt; "{heard:?}"),
        }
    }

    /// Takes the oldest packet that the ground received, and checks that it is this one.
    pub fn takes(&mut self, rt: &impl Abort, alloc: Global, size: usize, count: usize) {
        let packet = measurement(rt, alloc, size, count);
        let is_it = match self.ground.take_telemetry() {
            Some(octets) => octets == packet,
            None => false,
        };
        assert!(rt; is_it);
    }

    /// Begins a session.
    pub fn begins(&mut self, rt: &impl Abort) {
        let answer = self.ground.directive(Directive::InitWithoutCheck);
        assert_eq!(rt; answer, Ok(None));
    }

    // Sends all frames that the ground may send. Each arrives on board.
    fn sends(&mut self, rt: &impl Abort) {
        let mut out = [0; 1024];
        for _ in 0..300 {
            let Some(size) = self.ground.pull(&mut out) else {
                break;
            };
            let received = self.spacecraft.receive(out.get(..size).unwrap_or_default());
            assert!(rt; received.is_ok());
        }
    }

    /// Sends one packet in segments and one by bypass, takes both on board, and sends the CLCW down.
    pub fn carries(&mut self, rt: &impl Abort, alloc: Global, count: usize) {
        let packet = command(rt, alloc, 3000, count);
        let short = command(rt, alloc, 100, count);
        self.carries_both(rt, &packet, &short);
    }

    fn carries_both(&mut self, rt: &impl Abort, packet: &Vec<u8>, short: &Vec<u8>) {
        assert!(rt; self.ground.submit(63, packet.as_slice()).is_ok());
        assert!(rt; self.ground.bypass(0, short.as_slice()).is_ok());
        self.sends(rt);
        assert!(rt; is_on(self.spacecraft.take(), 63, packet));
        assert!(rt; is_on(self.spacecraft.take_bypass(), 0, short));
        let _ = self.hears(rt);
        assert_eq!(rt; self.ground.outstanding(), 0);
    }
}

// Returns whether the packet taken is this one, on this MAP.
fn is_on(taken: Option<(u8, Vec<u8>)>, map: u8, packet: &Vec<u8>) -> bool {
    match taken {
        Some((on, octets)) => on == map && octets == *packet,
        None => false,
    }
}

// Returns a packet of this size, from 7 to 65,542 octets, with this first octet and this sequence count.
// Every second packet has a secondary header.
fn packet(rt: &impl Abort, alloc: Global, kind: u8, size: usize, count: usize) -> Vec<u8> {
    let [.., high, low] = count.to_be_bytes();
    let [.., long, short] = size.wrapping_sub(7).to_be_bytes();
    let mut octets = vec![in alloc; low; size].expect(rt, "a packet");
    let secondary = if low % 2 == 1 { 0x08 } else { 0 };
    let head = [kind | secondary, 0x05, 0xc0 | high, low, long, short];
    for (octet, is) in octets.iter_mut().zip(head) {
        *octet = is;
    }
    octets
}

/// Returns a command packet.
pub fn command(rt: &impl Abort, alloc: Global, size: usize, count: usize) -> Vec<u8> {
    packet(rt, alloc, 0x10, size, count)
}

/// Returns a packet of telemetry.
pub fn measurement(rt: &impl Abort, alloc: Global, size: usize, count: usize) -> Vec<u8> {
    packet(rt, alloc, 0x00, size, count)
}
