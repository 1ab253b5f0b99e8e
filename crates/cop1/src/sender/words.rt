// The operations of the sender's rules: restart, acknowledge, repeat, alert.

ghost use Rattle.std.specs.Prelude.{◌≡◌, ◌≤◌};
ghost use Rattle.cop1.specs.Modulo.{ahead_by};
ghost use Rattle.cop1.specs.FopWords.{after_acknowledge};
ghost use Rattle.cop1.specs.SenderFields.{numbers_of};

use super::{Sender, SenderFields};
use crate::vocabulary::{Alert, Control, FopMode};

impl Sender {
    ghost use Rattle.std.specs.Prelude.{◌≡◌, ◌<◌, ◌≤◌, ◌≢◌};
    ghost use Rattle.cop1.specs.declared.vocabulary.FopMode.{FopMode};
    ghost use Rattle.cop1.specs.FopVariables.{IsActive};
    ghost use Rattle.cop1.specs.FopWords.{after_restart, after_repeat, alerts, is_outside};

    pub(super) fn is_outside(&self, value: u8) -> bool
        ensures { result ≡ is_outside self.now value }
    {
        value.wrapping_sub(self.fields.nn) > self.fields.vs.wrapping_sub(self.fields.nn)
    }

    pub(super) fn restart(&mut self)
        requires begun { self.old.state ≢ FopMode.S6 }
        requires sent { IsActive self.old.state → 1 ≤ self.old.sent.count }
        ensures { self.new ≡ after_restart self.old }
    {
        self.fields.ticks = Some(self.fields.timer);
    }

    pub(super) fn repeat(&mut self)
        requires active { IsActive self.old.state }
        requires sent { 1 ≤ self.old.sent.count }
        requires countable { self.old.count < 255 }
        ensures { self.new ≡ after_repeat self.old }
    {
        self.fields.due = self.fields.sent;
        self.fields.count += 1;
        self.fields.ticks = Some(self.fields.timer);
    }

    pub(super) fn alert(&mut self, alert: Alert) -> Option<Alert>
        ensures after { self.new ≡ (alerts self.old alert).after }
        ensures answer { result ≡ (alerts self.old alert).answer }
    {
        self.fields.state = FopMode::S6;
        self.fields.sent = 0;
        self.fields.due = 0;
        self.fields.waiting = false;
        self.fields.ticks = None;
        self.fields.control = Control::Idle;
        Some(alert)
    }
}

// Acknowledges the units before a value that is not outside.
pub(super) fn acknowledged(fields: SenderFields, value: u8) -> SenderFields
    requires { ahead_by value fields.nn ≤ fields.sent }
    ensures { numbers_of result ≡ after_acknowledge (numbers_of fields) value }
{
    let sent = fields.sent - value.wrapping_sub(fields.nn);
    SenderFields {
        sent,
        due: fields.due.min(sent),
        nn: value,
        ..fields
    }
}
