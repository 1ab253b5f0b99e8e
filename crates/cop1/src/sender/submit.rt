// How the sender takes units.

use super::Sender;
use crate::fault::CopFault;
use crate::vocabulary::FopMode;

impl Sender {
    ghost use Rattle.std.specs.Prelude.{◌≡◌, OnErr};
    ghost use Rattle.cop1.specs.Numbers.{IsSender};
    ghost use Rattle.cop1.specs.NumbersStep.{sender_step, Submit};

    /// Accepts a unit to be sent under sequence control, which then waits; the caller keeps it
    /// (CCSDS 232.1-B-2, table 5-1). Refuses it in S6, and if a unit already waits.
    /// Faults: 6 NotOpen, 7 Busy.
    pub fn submit(&mut self) -> Result<(), CopFault>
        ensures after { self.new ≡ (sender_step self.old Submit).after }
        ensures answer { result ≡ (sender_step self.old Submit).answer }
        ensures holds { IsSender self.new }
        ensures err { OnErr result (self.new ≡ self.old) }
    {
        if self.fields.state == FopMode::S6 {
            return Err(CopFault::NotOpen);
        }
        if self.fields.waiting {
            return Err(CopFault::Busy);
        }
        self.fields.waiting = true;
        Ok(())
    }
}
