// The sender, FOP-1: its state.

mod directive;
mod kept;
mod peek;
mod pull;
mod report;
mod submit;
mod tick;
mod trim;

use crate::fault::CopFault;
use crate::sender::Sender;
use crate::vocabulary::FopMode;
use circular_buffer::HeapCircularBuffer;
pub use pull::Pulled;
use std::alloc::Global;
use std::collections::VecDeque;
use std::marker::Model;

/// The sender of one virtual channel, FOP-1 (CCSDS 232.1-B-2, section 5, in this project's
/// profile), for units of any type: the rules over numbers, and the queues. Only `new`, `kept` and
/// `bypass` take memory.
#[derive(Drop)]
pub struct Fop<U> {
    sender: Sender,
    waiting: Option<U>,
    sent: HeapCircularBuffer<U>,
    bypass: VecDeque<U>,
}

impl<U> Model for Fop<U> {
    ghost use Rattle.cop1.specs.Units.{FopState};

    ghost Value = { FopState U };

    ghost use Rattle.cop1.specs.FopFields.{fop_state_of, IsSound};

    ghost view = { fop_state_of };

    ghost invariant = { IsSound };
}

impl<U: Drop> Fop<U> {
    ghost use Rattle.std.specs.Prelude.{◌≡◌, ◌≤◌, ◌/◌, ◌-◌, ◌*◌, None, IfOk, IfErr, IfSome, IsOkUnless, Err, length, is_some};
    ghost use Rattle.cop1.specs.Units.{new_fop, IsFop, due_units};
    ghost use Rattle.cop1.specs.FopNew.{new_fault};

    /// Creates a sender in its state S6 with V(S) and NN(R) 0, for a receiver of this window width
    /// (CCSDS 232.1-B-2, 5.1). It has the window `window` (K), this transmission limit and this
    /// timer's value in ticks. Refuses with the first fault that applies: 1 Width (not an even
    /// number from 2 to 254), 2 Window (not from 1 to half the width), 3 Limit (0), 4 Timer (0), 5
    /// Memory.
    /// Faults: 1 Width, 2 Window, 3 Limit, 4 Timer, 5 Memory. Memory: yes.
    pub fn new(
        alloc: Global,
        width: u8,
        window: u8,
        limit: u8,
        timer: u16,
    ) -> Result<Fop<U>, CopFault>
        ensures made { IfOk result (λ fop. fop ≡ new_fop width window limit timer) }
        ensures refused { IfSome (new_fault width window limit timer)
            (λ fault. result ≡ Err fault) }
        ensures memory { new_fault width window limit timer ≡ None
            → IsOkUnless result CopFault.Memory }
    {
        let sender = Sender::new(width, window, limit, timer)?;
        let Ok(sent) = HeapCircularBuffer::with_capacity(alloc, usize::from(width / 2)) else {
            return Err(CopFault::Memory);
        };
        Ok(Fop {
            sender,
            waiting: None,
            sent,
            bypass: VecDeque::new(alloc),
        })
    }

    /// Returns the state (CCSDS 232.1-B-2, 5.1).
    pub fn state(&self) -> FopMode
        ensures state { result ≡ self.now.state }
        ensures holds { IsFop self.now }
    {
        self.sender.fields().state
    }

    /// Returns V(S), the number of the next unit to be sent for the first time (CCSDS 232.1-B-2,
    /// 5.1).
    pub fn vs(&self) -> u8
        ensures { result ≡ self.now.vs }
    {
        self.sender.fields().vs
    }

    /// Returns NN(R), the number that the receiver was last known to expect (CCSDS 232.1-B-2, 5.1).
    pub fn nn(&self) -> u8
        ensures { result ≡ self.now.nn }
    {
        self.sender.fields().nn
    }

    #[tactic(auto, using(crate::proofs::UnitsFollow::marks))]
    /// Returns how many units are sent and not acknowledged: at most half the largest window width.
    pub fn sent(&self) -> usize
        ensures count { result ≡ length self.now.sent }
        ensures most { result ≤ 127 }
        ensures within { result ≤ self.now.room }
    {
        self.sent.len()
    }

    /// Returns how many of the units sent are due to be retransmitted.
    #[tactic(auto, using(crate::proofs::UnitsFollow::length_due))]
    pub fn due(&self) -> usize
        ensures { result ≡ length (due_units self.now.sent) }
    {
        usize::from(self.sender.fields().due)
    }

    /// Returns the transmission count, at least 1; the limit may be set below it (CCSDS 232.1-B-2,
    /// 5.1).
    pub fn count(&self) -> u8
        ensures { result ≡ self.now.count }
    {
        self.sender.fields().count
    }

    /// Returns the ticks that are left, at least 1, if the timer runs.
    pub fn ticks(&self) -> Option<u16>
        ensures { result ≡ self.now.ticks }
    {
        self.sender.fields().ticks
    }

    /// Returns how many units wait in the bypass queue.
    pub fn bypassed(&self) -> usize
        ensures { result ≡ length self.now.bypass }
    {
        self.bypass.len()
    }

    /// Returns whether a unit waits to be sent for the first time.
    pub fn waiting(&self) -> bool
        ensures { result ≡ is_some self.now.waiting }
    {
        self.waiting.is_some()
    }
}
