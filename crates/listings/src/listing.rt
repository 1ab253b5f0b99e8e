// What the commands write for a stream of records.

ghost use Rattle.std.specs.Prelude.{◌≡◌, OnOk, IfOk};
ghost use Rattle.listings.specs.Text.{Appends};
ghost use Rattle.listings.specs.Listing.{Lines};

use crate::cutter::Cutter;
use crate::record_number::RecordNumber;
use crate::text::Text;
use std::alloc::AllocError;

/// What a command writes for the records of a layout.
pub trait Listing<S: Cutter> {
    ghost lines: { Lines Self S.Fault };

    /// Takes a record, appends its lines, and returns whether the record is good.
    /// Faults: AllocError. Memory: yes. Cost: n*.
    fn take(
        &mut self,
        text: &mut Text,
        index: &RecordNumber,
        octets: &[u8],
    ) -> Result<bool, AllocError>
        ensures text { Appends result text.old text.new (lines.line_of self.old index.now octets.now) }
        ensures state { OnOk result (self.new ≡ lines.after self.old octets.now) }
        ensures good { IfOk result (λ good. good ≡ lines.is_good octets.now) };

    /// Appends the line of octets that do not form a record.
    /// Faults: AllocError. Memory: yes. Cost: n*.
    fn refuse(text: &mut Text, index: &RecordNumber, fault: S::Fault) -> Result<(), AllocError>
        ensures { Appends result text.old text.new (lines.fault_line index.now fault) };
}
