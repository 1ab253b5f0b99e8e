// What would be sent on the link next.

ghost use Rattle.std.specs.Prelude.{◌≡◌, option_copied};
ghost use Rattle.cop1.specs.UnitsNext.{peeked_view};
ghost use Rattle.cop1.specs.Queues.{first_bypass, peeked_at};
ghost use Rattle.cop1.specs.NumbersStep.{is_due};

use super::Fop;
use super::pull::Pulled;
use crate::sender::{Sender, SenderNext};
use crate::vocabulary::Control;
use circular_buffer::HeapCircularBuffer;
use std::collections::VecDeque;

impl<U: Drop> Fop<U> {
    ghost use Rattle.std.specs.Prelude.{◌≡◌};
    ghost use Rattle.cop1.specs.UnitsNext.{peeked_view};
    ghost use Rattle.cop1.specs.UnitsStep.{fop_step, Pull};

    /// Returns what is sent on the link next, as `pull` would take it, and lends each unit. The
    /// sender does not change.
    pub fn peek(&self) -> Pulled<'_, U, &U>
        ensures { peeked_view result ≡ (fop_step self.now Pull).answer }
    {
        if let Some(unit) = oldest_bypass(&self.sender, &self.bypass) {
            return Pulled::Bypass(unit);
        }
        let nn = self.sender.fields().nn;
        unit_at(self.sender.peek(), nn, &self.waiting, &self.sent)
    }
}

// Returns the oldest bypass unit, unless a control command is due.
fn oldest_bypass<'a, U>(sender: &Sender, bypass: &'a VecDeque<U>) -> Option<&'a U>
    ensures { option_copied result ≡ first_bypass (is_due sender.now.control) bypass.now.items }
{
    match sender.fields().control {
        Control::Due(_) => None,
        _ => bypass.front(),
    }
}

// Returns what is sent on the link, with the unit that waits or one of the sent queue.
fn unit_at<'a, U>(
    next: SenderNext,
    nn: u8,
    waiting: &'a Option<U>,
    sent: &'a HeapCircularBuffer<U>,
) -> Pulled<'a, U, &'a U>
    ensures { peeked_view result ≡ peeked_at nn next waiting.now sent.now.items }
{
    let (number, unit) = match next {
        SenderNext::Nothing => return Pulled::Nothing,
        SenderNext::Control(command) => return Pulled::Control(command),
        SenderNext::First(number) => (number, waiting.as_ref()),
        SenderNext::Again(number) => (number, sent.get(usize::from(number.wrapping_sub(nn)))),
    };
    match unit {
        Some(unit) => Pulled::Sequence(number, unit),
        None => Pulled::Nothing,
    }
}
