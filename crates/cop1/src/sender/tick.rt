// How the sender responds to a tick of the clock.

use super::Sender;
use crate::vocabulary::{Alert, Control, FopMode};

impl Sender {
    ghost use Rattle.std.specs.Prelude.{◌≡◌, IsSome};
    ghost use Rattle.cop1.specs.FopTick.{timer_ended};
    ghost use Rattle.cop1.specs.FopWords.{after_stop};
    ghost use Rattle.cop1.specs.NumbersStep.{sender_step, Tick};

    /// Counts a tick of the clock (CCSDS 232.1-B-2, table 5-1). Returns an alert if the sender
    /// gives up; the caller then releases all units.
    pub fn tick(&mut self) -> Option<Alert>
        ensures after { self.new ≡ (sender_step self.old Tick).after }
        ensures alert { result ≡ (sender_step self.old Tick).answer }
    {
        let left = self.fields.ticks?;
        if left > 1 {
            self.fields.ticks = Some(left - 1);
            return None;
        }
        self.timer_ended()
    }

    fn timer_ended(&mut self) -> Option<Alert>
        requires { IsSome self.old.ticks }
        ensures after { self.new ≡ (timer_ended (after_stop self.old) self.old.state).after }
        ensures alert { result ≡ (timer_ended (after_stop self.old) self.old.state).answer }
    {
        if self.fields.state == FopMode::S4 || self.fields.count >= self.fields.limit {
            return self.alert(Alert::Timer);
        }
        match self.fields.state {
            FopMode::S1 | FopMode::S2 => self.repeat(),
            FopMode::S3 => {
                self.fields.count += 1;
                self.restart();
            }
            _ => {
                if let Control::Sent(command) = self.fields.control {
                    self.fields.control = Control::Due(command);
                }
                self.fields.count += 1;
                self.restart();
            }
        }
        None
    }
}
