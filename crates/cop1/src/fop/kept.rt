// A sender that continues with numbers that were kept.

use super::Fop;
use crate::fault::CopFault;
use crate::sender::{Sender, SenderFields};
use circular_buffer::HeapCircularBuffer;
use std::alloc::Global;
use std::collections::VecDeque;

impl<U: Drop> Fop<U> {
    ghost use Rattle.std.specs.Prelude.{◌≡◌, ◌≤◌, None, IfOk, IfSome, IsOkUnless, Err};
    ghost use Rattle.cop1.specs.Modulo.{ahead_by};
    ghost use Rattle.cop1.specs.FopKept.{kept_fop, kept_fault};

    /// Creates a sender as `new` does, in its state S6, but with this V(S) and this NN(R), which
    /// were kept from another sender. Refuses with the first fault that applies: those of `new` (1
    /// Width, 2 Window, 3 Limit, 4 Timer), 9 State (V(S) is above NN(R) by more than half the
    /// width), 5 Memory.
    /// Faults: 1 Width, 2 Window, 3 Limit, 4 Timer, 9 State, 5 Memory. Memory: yes.
    pub fn kept(
        alloc: Global,
        width: u8,
        window: u8,
        limit: u8,
        timer: u16,
        vs: u8,
        nn: u8,
    ) -> Result<Fop<U>, CopFault>
        ensures made { IfOk result (λ fop. fop ≡ kept_fop width window limit timer vs nn) }
        ensures refused { IfSome (kept_fault width window limit timer vs nn)
            (λ fault. result ≡ Err fault) }
        ensures memory { kept_fault width window limit timer vs nn ≡ None
            → IsOkUnless result CopFault.Memory }
    {
        let sender = Sender::new(width, window, limit, timer)?;
        let sender = Sender::restore(SenderFields {
            vs,
            nn,
            ..sender.fields()
        })?;
        let Ok(sent) = HeapCircularBuffer::with_capacity(alloc, usize::from(width / 2)) else {
            return Err(CopFault::Memory);
        };
        Ok(Fop {
            sender,
            waiting: None,
            sent,
            bypass: VecDeque::new(alloc),
        })
    }
    /// Returns how many units were sent and are not acknowledged, also after an alert, by V(S) and
    /// NN(R) (CCSDS 232.1-B-2, 5.1): at most half the receiver's window width.
    pub fn beyond(&self) -> u8
        ensures count { result ≡ ahead_by self.now.vs self.now.nn }
        ensures most { result ≤ self.now.room }
        ensures within { result ≤ 127 }
    {
        let fields = self.sender.fields();
        fields.vs.wrapping_sub(fields.nn)
    }
}
