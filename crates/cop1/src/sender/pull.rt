// What is sent on the link next.

use super::Sender;
use crate::vocabulary::{Control, FopMode};
use tc_frame::Command;

/// What is sent on the link next, with a unit given by its number.
#[derive(Clone, Copy, Debug, PartialEq, Eq)]
pub enum SenderNext {
    /// Nothing.
    Nothing,
    /// A control command, in a Type-BC frame.
    Control(Command),
    /// The unit that waits, in a Type-AD frame with this number. The caller keeps it under that
    /// number until it is acknowledged.
    First(u8),
    /// The unit that is kept under this number, in a Type-AD frame with it.
    Again(u8),
}

impl Sender {
    ghost use Rattle.std.specs.Prelude.{◌≡◌, ◌<◌};
    ghost use Rattle.cop1.specs.Modulo.{ahead_by};
    ghost use Rattle.cop1.specs.FopVariables.{IsActive};
    ghost use Rattle.cop1.specs.FopPull.{after_send_first};
    ghost use Rattle.cop1.specs.Numbers.{TheWaiting};
    ghost use Rattle.cop1.specs.NumbersStep.{sender_step, Next};

    /// Returns what is sent on the link next, by the first rule that applies (CCSDS 232.1-B-2,
    /// 5.2). The rules are: the control command of S5, if it is due; in S1 and S2 the oldest unit
    /// that is due to be retransmitted; in S1 and S2 the unit that waits, if the window has room
    /// for it. The caller sends its bypass units after a command that is due (`fields().control` is
    /// `Due`), and before units. The sender does not change.
    #[inline(always)]
    pub fn peek(&self) -> SenderNext
        ensures { result ≡ (sender_step self.now Next).answer }
    {
        let fields = &self.fields;
        if let Control::Due(command) = fields.control {
            return SenderNext::Control(command);
        }
        match fields.state {
            FopMode::S1 | FopMode::S2 if fields.due > 0 => {
                SenderNext::Again(fields.nn.wrapping_add(fields.sent - fields.due))
            }
            FopMode::S1 | FopMode::S2 if fields.waiting && fields.sent < fields.window => {
                SenderNext::First(fields.vs)
            }
            _ => SenderNext::Nothing,
        }
    }

    /// Takes what is sent on the link next, which `peek` returns, and counts it as sent.
    pub fn next(&mut self) -> SenderNext
        ensures after { self.new ≡ (sender_step self.old Next).after }
        ensures answer { result ≡ (sender_step self.old Next).answer }
    {
        let next = self.peek();
        self.send(next);
        next
    }

    // Counts what `peek` returned as sent.
    #[inline(always)]
    fn send(&mut self, next: SenderNext)
        requires { next ≡ (sender_step self.old Next).answer }
        ensures { self.new ≡ (sender_step self.old Next).after }
    {
        match next {
            SenderNext::Nothing => {}
            SenderNext::Control(command) => {
                self.fields.ticks = Some(self.fields.timer);
                self.fields.control = Control::Sent(command);
            }
            SenderNext::First(_) => self.send_first(),
            SenderNext::Again(_) => {
                self.fields.due -= 1;
                self.restart();
            }
        }
    }

    // Counts the unit that waits as sent; the window has room for it.
    #[inline(always)]
    fn send_first(&mut self)
        requires active { IsActive self.old.state }
        requires room { ahead_by self.old.vs self.old.nn < self.old.window }
        ensures { self.new ≡ after_send_first self.old TheWaiting }
    {
        if self.fields.sent == 0 {
            self.fields.count = 1;
        }
        self.fields.waiting = false;
        self.fields.sent += 1;
        self.fields.vs = self.fields.vs.wrapping_add(1);
        self.fields.ticks = Some(self.fields.timer);
    }
}
