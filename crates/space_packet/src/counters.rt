// The next sequence count of each application process.

ghost use Rattle.std.specs.Prelude.{◌≡◌, ◌<◌, ◌+◌, ◌%◌, ℕ, List, length, slice_index, replicate};
ghost use Rattle.space_packet.specs.Counters.{IsCounts, counts_after};

use std::marker::Model;

/// The next sequence count of each application process, from 0 and modulo 16,384 (CCSDS 133.0-B-2,
/// 4.1.3.4.3). Contracts see it as the list of the counts by APID.
#[derive(Drop)]
pub struct SequenceCounters {
    counts: [u16; 2048],
}

impl Model for SequenceCounters {
    ghost Value = { List ℕ };

    ghost view = { λ s. s.counts };

    ghost invariant = { λ s. IsCounts s.counts };
}

impl SequenceCounters {
    /// Returns counters that are all 0. They take no memory.
    pub fn new() -> Self
        ensures { result ≡ replicate 2048 0 }
    {
        SequenceCounters { counts: [0; 2048] }
    }

    /// Returns the count for the next packet of this APID, and advances this APID's count by one
    /// (CCSDS 133.0-B-2, 4.1.3.4.3). No other APID's count changes.
    pub fn next(&mut self, apid: u16) -> u16
        requires { apid < 2048 }
        ensures count { result ≡ slice_index self.old apid }
        ensures counts { self.new ≡ counts_after self.old apid }
        ensures below { result < 16384 }

        // There are 2,048 places, so the next count of this APID is one more.
        ensures places { (length self.old ≡ 2048) × (length self.new ≡ 2048) }
        ensures following { slice_index self.new apid ≡ (result + 1) % 16384 }
    {
        let place = usize::from(apid);
        let count = self.counts[place];
        self.counts[place] = (count + 1) % 16384;
        count
    }
}
