// How the sender responds to a tick of the clock.

use super::Fop;
use super::trim::trim;
use crate::vocabulary::Alert;

impl<U: Drop> Fop<U> {
    ghost use Rattle.std.specs.Prelude.{◌≡◌};
    ghost use Rattle.cop1.specs.UnitsStep.{fop_step, Tick};

    /// Counts a tick of the clock (CCSDS 232.1-B-2, table 5-1). Returns an alert if the sender
    /// gives up.
    /// Cost: the number of units released, at most 127.
    pub fn tick(&mut self) -> Option<Alert>
        ensures after { self.new ≡ (fop_step self.old Tick).after }
        ensures alert { result ≡ (fop_step self.old Tick).answer }
    {
        let alert = self.sender.tick();
        trim(&self.sender, &mut self.waiting, &mut self.sent);
        alert
    }
}
