// The records of a stream that arrives in pieces.

ghost use Rattle.std.specs.Prelude.{◌≡◌, ◌≤◌, ◌-◌, length, take, drop, vec_len, Some, IsSome};
ghost use Rattle.std.specs.Borrow.{sem};

use crate::front::remove_front;
use crate::wire::Wire;
use std::alloc::Global;
use std::marker::PhantomData;

/// Splits a stream of octets that arrives in pieces into records, however the stream was cut.
#[derive(Drop)]
pub struct Splitter<W: Wire> {
    octets: Vec<u8>,
    // the octets before this place have been returned
    start: usize,
    failed: Option<W::Fault>,
    layout: PhantomData<W>,
    ghost in_range: { start ≤ vec_len octets },
}

impl<W: Wire> Splitter<W> {
    ghost use Rattle.octets.specs.Splitter.{held, nothing_held, held_after, lent_view, place_view, IsFed, IsFinished, IsWithin};
    ghost use Rattle.octets.specs.SplitterLent.{EndsAfter};
    ghost use Rattle.octets.specs.Records.{first_record};
    ghost use Rattle.octets.specs.contracts.splitter.Splitter.{the_row};

    /// Returns an empty splitter. It takes no memory until it is fed.
    pub fn new(alloc: Global) -> Self
        ensures { held result ≡ nothing_held }
    {
        Splitter {
            octets: Vec::new(alloc),
            start: 0,
            failed: None,
            layout: PhantomData,
        }
    }

    /// Takes more octets of the stream. On a fault the splitter is unchanged.
    /// Faults: the layout's `memory()`. Memory: yes, for one octet or more. Cost: n and the octets
    /// held.
    pub fn feed(&mut self, octets: &[u8]) -> Result<(), W::Fault>
        ensures { IsFed octets.now W.memory_fault (held self.old) (held self.new) result }
    {
        if self.start > 0 {
            remove_front(&mut self.octets, self.start);
            self.start = 0;
        }
        if self.octets.extend_from_slice(octets).is_err() {
            return Err(W::memory());
        }
        Ok(())
    }

    /// Returns the next whole record, or the fault of its extent; `None` while octets are missing. The record
    /// or fault is borrowed from the splitter, which is free again once the loan ends. If an extent is
    /// refused, this call and every later one return its fault.
    /// Faults: the layout's, of a length.
    pub fn next(&mut self) -> Option<Result<&[u8], &W::Fault>>
        ensures* rests { sem 𝓛 (EndsAfter (the_row W.row W.Fault.row W.Wire) self.entry held
            (lent_view result)) }
        ensures answer { lent_view result ≡ first_record W.HEAD W.extent_of (held self.old).octets }
    {
        match self.advance()? {
            Err(_) => Some(Err(self.fault())),
            Ok((from, end)) => Some(Ok(self.part(from, end))),
        }
    }

    /// Checks whether the stream may end here. The fault means that octets are left and none of their extents
    /// was refused.
    /// Faults: the layout's `truncated()`.
    pub fn finish(&self) -> Result<(), W::Fault>
        ensures { IsFinished W.truncated_fault (held self.now) result }
    {
        if self.start < self.octets.len() && self.failed.is_none() {
            return Err(W::truncated());
        }
        Ok(())
    }

    // Passes the first record that is held, and returns the places between which it lies.
    fn advance(&mut self) -> Option<Result<(usize, usize), W::Fault>>
        ensures octets { self.new.octets.items ≡ self.old.octets.items }
        ensures answer { place_view self.old.octets.items result
            ≡ first_record W.HEAD W.extent_of (held self.old).octets }
        ensures within { IsWithin self.old.octets.items result }
        ensures held { held self.new
            ≡ held_after (place_view self.old.octets.items result) (held self.old) }
    {
        let left = self.octets.len() - self.start;
        if left < W::HEAD {
            return None;
        }
        match W::extent(&self.octets[self.start..]) {
            Err(fault) => {
                self.failed = Some(fault);
                Some(Err(fault))
            }
            Ok(len) => {
                if left < len {
                    return None;
                }
                let from = self.start;
                self.start += len;
                Some(Ok((from, self.start)))
            }
        }
    }

    fn part(&self, from: usize, end: usize) -> &[u8]
        requires order { from ≤ end }
        requires within { end ≤ length self.now.octets.items }
        ensures { result.now ≡ take (end - from) (drop from self.now.octets.items) }
    {
        &self.octets[from..end]
    }

    fn fault(&self) -> &W::Fault
        requires { IsSome self.now.failed }
        ensures { Some result.now ≡ self.now.failed }
    {
        match &self.failed {
            Some(fault) => fault,
            None => unreachable!(),
        }
    }
}
