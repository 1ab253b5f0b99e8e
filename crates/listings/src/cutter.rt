// Cuts a stream that arrives in pieces into its records.

ghost use Rattle.std.specs.Prelude.{◌≡◌, ◌<◌, ◌++◌, ◌↔◌, ℕ, List, Option, length, IsNone, IsErr, IfErr, OnOk, OnErr};
ghost use Rattle.std.specs.Borrow.{sem};
ghost use Rattle.std.specs.Io.BufRead.{Rests};
ghost use Rattle.octets.specs.Splitter.{held as splitter_held, rest_after, failure_after, lent_view};
ghost use Rattle.listings.specs.Layouts.{Layout, HasHeads, first_by};

use octets::{Splitter, Wire};

/// Cuts a stream that arrives in pieces into its records, whatever the pieces are.
pub trait Cutter {
    /// Why octets are refused.
    type Fault: Copy;

    // How the stream is cut into records.
    ghost layout: { Layout Self.Fault };

    // The octets that were fed and not returned yet, and the fault of a refused extent.
    ghost held: { Self → List ℕ };

    ghost failure: { Self → Option Self.Fault };

    // The fault if memory runs out.
    ghost memory_fault: { Self.Fault };

    /// Takes more octets of the stream. After a fault nothing has changed.
    /// Faults: the layout's, for want of memory. Memory: yes. Cost: n and the octets held.
    fn feed(&mut self, octets: &[u8]) -> Result<(), Self::Fault>
        ensures ok { OnOk result (held self.new ≡ held self.old ++ octets.now) }
        ensures err { OnErr result (held self.new ≡ held self.old) }
        ensures fault { IfErr result (λ e. e ≡ memory_fault) }
        ensures failure { failure self.new ≡ failure self.old };

    /// Returns the next whole record, or the fault of its extent; `None` while octets are missing.
    /// Faults: the layout's, of a length.
    fn next(&mut self) -> Option<Result<&[u8], &Self::Fault>>
        ensures* rests { sem 𝓛 (Rests Self.row self.entry (λ last.
            (held last ≡ rest_after (lent_view result) (held self.old))
            × (failure last ≡ failure_after (lent_view result) (failure self.old)))) }
        ensures answer { lent_view result ≡ first_by layout (held self.old) };

    /// Returns whether the stream may end here.
    /// Faults: the layout's, of octets that are left.
    fn finish(&self) -> Result<(), Self::Fault>
        ensures truncated { IsErr result
            ↔ ((0 < length (held self.now)) × IsNone (failure self.now)) }
        ensures fault { IfErr result (λ e. e ≡ layout.truncated) };

    ghost heads: { HasHeads layout };
}

impl<L: Wire> Cutter for Splitter<L> {
    type Fault = L::Fault;

    ghost layout = { record { head = L.HEAD; extent = L.extent_of; truncated = L.truncated_fault } };

    ghost held = { λ s. (splitter_held s).octets };

    ghost failure = { λ s. (splitter_held s).failure };

    ghost memory_fault = { L.memory_fault };

    fn feed(&mut self, octets: &[u8]) -> Result<(), L::Fault> {
        self.feed(octets)
    }

    fn next(&mut self) -> Option<Result<&[u8], &L::Fault>> {
        self.next()
    }

    fn finish(&self) -> Result<(), L::Fault> {
        self.finish()
    }

    ghost heads = { record { some_head = L.some_head; has_head = L.extent_has_head } };
}
