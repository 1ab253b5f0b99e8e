// How the sender responds to a directive.

use super::Fop;
use super::trim::trim;
use crate::fault::CopFault;
use crate::vocabulary::{Alert, Directive};

impl<U: Drop> Fop<U> {
    ghost use Rattle.std.specs.Prelude.{◌≡◌};
    ghost use Rattle.cop1.specs.UnitsStep.{fop_step, Direct};

    /// Follows a directive (CCSDS 232.1-B-2, table 5-1). Returns an alert only for `Terminate`.
    /// Refuses a value that is out of range. Also refuses an initiation or `SetVs` in any state
    /// other than S6, and `Terminate` in S6.
    /// Faults: 2 Window, 3 Limit, 4 Timer, 8 WrongState. Cost: 1; for `Terminate` the number of units
    /// released.
    pub fn directive(&mut self, directive: Directive) -> Result<Option<Alert>, CopFault>
        ensures after { self.new ≡ (fop_step self.old (Direct directive)).after }
        ensures answer { result ≡ (fop_step self.old (Direct directive)).answer }
    {
        let answer = self.sender.directive(directive);
        trim(&self.sender, &mut self.waiting, &mut self.sent);
        answer
    }
}
