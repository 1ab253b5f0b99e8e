// What is sent on the link next.

ghost use Rattle.std.specs.Prelude.{◌≡◌, ◌≤◌, if◌then◌else◌, is_some, length, drop};
ghost use Rattle.circular_buffer.specs.Buffer.{buffer};
ghost use Rattle.cop1.specs.Queues.{first_bypass, units_after, waiting_after, next_at};
ghost use Rattle.cop1.specs.NumbersStep.{is_due};

use super::Fop;
use crate::sender::{Sender, SenderNext};
use crate::vocabulary::Control;
use circular_buffer::HeapCircularBuffer;
use std::collections::VecDeque;
use tc_frame::Command;

/// What is sent on the link next. `B` is the type of a unit of the bypass queue: the unit itself if
/// it is pulled, or the unit lent if it is peeked at.
#[derive(Drop)]
pub enum Pulled<'a, U, B = U> {
    /// Nothing.
    Nothing,
    /// A control command, in a Type-BC frame.
    Control(Command),
    /// A unit to be sent by bypass, in a Type-BD frame. Once it is pulled, it has left the sender.
    Bypass(B),
    /// A unit to be sent under sequence control, in a Type-AD frame with this number. Once it is
    /// pulled, it stays in the sent queue until it is acknowledged.
    Sequence(u8, &'a U),
}

// What is sent on the link next, with a unit of the sent queue given by its place there.
#[derive(Drop)]
enum Next<U> {
    Nothing,
    Control(Command),
    Bypass(U),
    Sequence(u8, usize),
}

impl<U: Drop> Fop<U> {
    ghost use Rattle.std.specs.Prelude.{◌≡◌};
    ghost use Rattle.cop1.specs.UnitsNext.{units_of, seen_at, pulled_view, IsPlaced};
    ghost use Rattle.std.specs.Borrow.{sem};
    ghost use Rattle.cop1.specs.UnitsLent.{EndsAs};
    ghost use Rattle.cop1.specs.UnitsStep.{fop_step, Pull};

    // Takes what is sent on the link next.
    fn next(&mut self) -> Next<U>
        ensures after { self.new ≡ (fop_step self.old Pull).after }
        ensures answer { seen_at (units_of self.new.sent) result ≡ (fop_step self.old Pull).answer }
        ensures placed { IsPlaced (units_of self.new.sent) result }
    {
        if let Some(unit) = first_bypass(&self.sender, &mut self.bypass) {
            return Next::Bypass(unit);
        }
        let next = self.sender.next();
        let nn = self.sender.fields().nn;
        take_first(next, &mut self.waiting, &mut self.sent);
        next_at(nn, next)
    }

    /// Counts as sent what is sent on the link next, as `pull` does; `peek` lends it.
    pub fn advance(&mut self)
        ensures { self.new ≡ (fop_step self.old Pull).after }
    {
        let _sent = self.next();
    }

    /// Takes what is sent on the link next, by the first rule that applies (CCSDS 232.1-B-2, 5.2).
    /// The rules are: the control command of S5, if it is due; the oldest bypass unit; in S1 and S2
    /// the oldest unit that is marked to be retransmitted; in S1 and S2 the unit that waits, if the
    /// window has room for it. A unit of the sent queue is lent.
    pub fn pull(&mut self) -> Pulled<'_, U>
        ensures* after { sem 𝓛 (EndsAs U.row self.entry (fop_step self.old Pull).after) }
        ensures answer { pulled_view result ≡ (fop_step self.old Pull).answer }
    {
        let next = self.next();
        self.show(next)
    }

    #[tactic(auto, using(crate::proofs::UnitsFollow::marks))]
    fn show(&self, next: Next<U>) -> Pulled<'_, U>
        requires { IsPlaced (units_of self.now.sent) next }
        ensures { pulled_view result ≡ seen_at (units_of self.now.sent) next }
    {
        match next {
            Next::Nothing => Pulled::Nothing,
            Next::Control(command) => Pulled::Control(command),
            Next::Bypass(unit) => Pulled::Bypass(unit),
            Next::Sequence(number, place) => Pulled::Sequence(
                number,
                self.sent.get(place).unwrap(),
            ),
        }
    }
}

// Takes the oldest bypass unit, unless a control command is due.
fn first_bypass<U: Drop>(sender: &Sender, bypass: &mut VecDeque<U>) -> Option<U>
    ensures unit { result ≡ first_bypass (is_due sender.now.control) bypass.old.items }
    ensures bypass { bypass.new.items
        ≡ drop (if is_some result then 1 else 0) bypass.old.items }
{
    match sender.fields().control {
        Control::Due(_) => None,
        _ => bypass.pop_front(),
    }
}

// Moves the unit that waits to the sent queue, if it is sent on the link.
fn take_first<U: Drop>(next: SenderNext, waiting: &mut Option<U>, sent: &mut HeapCircularBuffer<U>)
    requires { length (units_after next waiting.old sent.old.items) ≤ sent.old.capacity }
    ensures waiting { waiting.new ≡ waiting_after next waiting.old }
    ensures sent { sent.new
        ≡ buffer (units_after next waiting.old sent.old.items) sent.old.capacity }
{
    if let SenderNext::First(_) = next {
        if let Some(unit) = waiting.take() {
            let _ = sent.push_back(unit);
        }
    }
}

// Returns what is sent on the link, with a unit given by its place in the sent queue.
fn next_at<U>(nn: u8, next: SenderNext) -> Next<U>
    ensures { result ≡ next_at nn next }
{
    match next {
        SenderNext::Nothing => Next::Nothing,
        SenderNext::Control(command) => Next::Control(command),
        SenderNext::First(number) | SenderNext::Again(number) => {
            Next::Sequence(number, usize::from(number.wrapping_sub(nn)))
        }
    }
}
