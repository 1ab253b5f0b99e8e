// How the sender responds to a CLCW.

use super::Fop;
use super::trim::trim;
use crate::vocabulary::Alert;
use clcw::Clcw;

impl<U: Drop> Fop<U> {
    ghost use Rattle.std.specs.Prelude.{◌≡◌};
    ghost use Rattle.cop1.specs.UnitsStep.{fop_step, Report};

    /// Processes a CLCW that arrived (CCSDS 232.1-B-2, table 5-1). Returns an alert if the sender
    /// gives up.
    /// Cost: the number of units released, at most 127.
    pub fn clcw(&mut self, report: &Clcw) -> Option<Alert>
        ensures after { self.new ≡ (fop_step self.old (Report report.now)).after }
        ensures alert { result ≡ (fop_step self.old (Report report.now)).answer }
    {
        let heard = self.sender.report(report);
        trim(&self.sender, &mut self.waiting, &mut self.sent);
        heard.alert
    }
}
