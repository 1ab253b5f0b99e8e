// Cuts a stream into telemetry frames, which all have one length.

ghost use Rattle.std.specs.Prelude.{◌≡◌, ◌≤◌, ◌+◌, ◌-◌, ◌<◌, [], ℕ, length, take, drop, vec_len, Some, None, IfSome, IsNone};

use crate::cutter::Cutter;
use octets::remove_front;
use std::alloc::Global;
use std::marker::{Brand, PhantomData};
use tm_link::TmFault;

/// The length of the telemetry frames of a file, which is known once the arguments are read. It is only
/// for proofs: `Brand` represents every length.
pub trait FrameLength {
    // The octets of the data field, 12 fewer than the frame's (CCSDS 132.0-B-3, 4.1).
    ghost payload: { ℕ };
}

/// Cuts a stream into telemetry frames of one length. Between two pieces it holds fewer octets than
/// a frame.
#[derive(Drop)]
pub struct FrameCutter<K: FrameLength> {
    octets: Vec<u8>,
    // where the octets that are not returned yet begin
    start: usize,
    // the number of octets of a frame
    length: usize,
    channel: PhantomData<K>,
    ghost in_range: { start ≤ vec_len octets },
    ghost is_length: { length ≡ K.payload + 12 },
}

impl<K: FrameLength> FrameCutter<K> {
    ghost use Rattle.listings.specs.Layouts.{frames_held};

    /// Creates a cutter that holds nothing. It takes no memory until it is fed.
    pub fn new(alloc: Global, length: usize) -> Self
        requires { length ≡ K.payload + 12 }
        ensures { frames_held result ≡ [] }
    {
        FrameCutter {
            octets: Vec::new(alloc),
            start: 0,
            length,
            channel: PhantomData,
        }
    }

    // Passes the next whole frame, and returns where it begins.
    fn pass(&mut self) -> Option<usize>
        ensures octets { self.new.octets.items ≡ self.old.octets.items }
        ensures none { IsNone result → (self.new.start ≡ self.old.start)
            × (length (frames_held self.old) < K.payload + 12) }
        ensures some { IfSome result (λ start. (start ≡ self.old.start)
            × (self.new.start ≡ start + (K.payload + 12))
            × (K.payload + 12 ≤ length (frames_held self.old))) }
    {
        let start = self.start;
        if self.octets.len() - start < self.length {
            return None;
        }
        self.start += self.length;
        Some(start)
    }

    fn part(&self, start: usize) -> &[u8]
        requires { start + (K.payload + 12) ≤ length self.now.octets.items }
        ensures { result.now ≡ take (K.payload + 12) (drop start self.now.octets.items) }
    {
        &self.octets[start..start + self.length]
    }
}

impl<K: FrameLength> Cutter for FrameCutter<K> {
    ghost use Rattle.listings.specs.Layouts.{frames_held};
    ghost use Rattle.listings.specs.Layouts.{telemetry_layout};
    ghost use Rattle.tm_link.specs.declared.fault.TmFault.TheVariants.{Memory};
    ghost use Rattle.std.proofs.Common.{arith, rules};
    ghost use Rattle.std.proofs.lemmas.Grind.{common_steps};

    type Fault = TmFault;

    ghost layout = { telemetry_layout (K.payload + 12) };

    ghost held = { frames_held };

    ghost failure = { λ c. None };

    ghost memory_fault = { Memory };

    fn feed(&mut self, octets: &[u8]) -> Result<(), TmFault> {
        if self.start > 0 {
            remove_front(&mut self.octets, self.start);
            self.start = 0;
        }
        if self.octets.extend_from_slice(octets).is_err() {
            return Err(TmFault::Memory);
        }
        Ok(())
    }

    fn next(&mut self) -> Option<Result<&[u8], &TmFault>> {
        match self.pass() {
            None => None,
            Some(start) => Some(Ok(self.part(start))),
        }
    }

    fn finish(&self) -> Result<(), TmFault> {
        if self.start < self.octets.len() {
            return Err(TmFault::Length);
        }
        Ok(())
    }

    ghost heads = { record { some_head = Prim.omega arith; has_head = Prim.search (rules, common_steps) } };
}

// It represents each length in turn; a caller picks the length.
impl FrameLength for Brand {
    ghost payload = { 0 };
}
