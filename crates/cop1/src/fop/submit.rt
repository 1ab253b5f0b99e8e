// How the sender takes units.

use super::Fop;
use crate::fault::CopFault;

impl<U: Drop> Fop<U> {
    ghost use Rattle.std.specs.Prelude.{◌≡◌, OnOk, OnErr, IfErr};
    ghost use Rattle.cop1.specs.UnitsStep.{fop_step, Submit, Bypass};

    /// Takes a unit to be sent under sequence control (CCSDS 232.1-B-2, table 5-1). Returns it with
    /// the fault in S6, and if the wait queue already holds a unit.
    /// Faults: 6 NotOpen, 7 Busy.
    pub fn submit(&mut self, unit: U) -> Result<(), (CopFault, U)>
        ensures after { self.new ≡ (fop_step self.old (Submit unit)).after }
        ensures answer { result ≡ (fop_step self.old (Submit unit)).answer }
    {
        match self.sender.submit() {
            Ok(()) => {
                self.waiting = Some(unit);
                Ok(())
            }
            Err(fault) => Err((fault, unit)),
        }
    }

    /// Takes a unit to be sent by bypass, in any state (CCSDS 232.1-B-2, table 5-1). If it is
    /// refused, it is returned with the fault.
    /// Faults: 5 Memory. Memory: yes. Cost: 1*.
    pub fn bypass(&mut self, unit: U) -> Result<(), (CopFault, U)>
        ensures ok { OnOk result (self.new ≡ (fop_step self.old (Bypass unit)).after) }
        ensures fault { IfErr result (λ e. e ≡ (CopFault.Memory, unit)) }
        ensures err { OnErr result (self.new ≡ self.old) }
    {
        match self.bypass.push_back(unit) {
            Ok(()) => Ok(()),
            Err(refused) => Err((CopFault::Memory, refused.value)),
        }
    }
}
