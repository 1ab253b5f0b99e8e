// How many packets of an application process are missing.

ghost use Rattle.std.specs.Prelude.{◌≡◌, ◌<◌, ℕ, List, Option, Some, None, length, get_or, replicate};
ghost use Rattle.space_packet.specs.Counters.{gap_between, gap_after, counts_seen};

use std::marker::Model;

/// The last sequence count that was seen of each application process (CCSDS 133.0-B-2, 4.1.3.4.3).
/// Contracts see it as the list of these counts by APID.
#[derive(Drop)]
pub struct GapCheck {
    last: [Option<u16>; 2048],
}

impl Model for GapCheck {
    ghost Value = { List (Option ℕ) };

    ghost view = { λ g. g.last };
}

impl GapCheck {
    /// Returns a check that has seen no count. It takes no memory.
    pub fn new() -> Self
        ensures { result ≡ replicate 2048 None }
    {
        GapCheck { last: [None; 2048] }
    }

    /// Records a packet of this APID with this count (CCSDS 133.0-B-2, 4.1.3.4.3). Returns `None`
    /// for the first packet of the APID. Otherwise returns the number of packets missing before it,
    /// which is (count - last - 1) modulo 16,384. No other APID's last count changes.
    pub fn see(&mut self, apid: u16, count: u16) -> Option<u16>
        requires { apid < 2048 }
        ensures gap { result ≡ gap_after (get_or self.old apid None) count }
        ensures last { self.new ≡ counts_seen self.old apid count }

        // There are 2,048 places, so the next gap of this APID is counted from this packet.
        ensures places { (length self.old ≡ 2048) × (length self.new ≡ 2048) }
        ensures seen { get_or self.new apid None ≡ Some count }
    {
        let place = usize::from(apid);
        let last = self.last[place];
        self.last[place] = Some(count);
        let last = last?;
        Some(gap_between(last, count))
    }
}

/// Returns the number of packets of an application process that are missing between one with the
/// count `last` and the next that arrived, with this count: (count - last - 1) modulo 16,384 (CCSDS
/// 133.0-B-2, 4.1.3.4.3). It is for callers that keep the last counts themselves.
pub fn gap_between(last: u16, count: u16) -> u16
    ensures { result ≡ gap_between last count }
{
    count.wrapping_sub(last).wrapping_sub(1) % 16384
}
