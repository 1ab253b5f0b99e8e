// The record that is kept of a ground, and the ground that is opened with it.

ghost use Rattle.std.specs.Prelude.{◌≡◌, ◌↔◌, ◌≤◌, ◌+◌, ◌++◌, take, drop, length, IsTrue, IfOk};
ghost use Rattle.std.specs.VecDeque.{deque_capacity};
ghost use Rattle.nodes.specs.Fates.{whole_within};

use super::Ground;
use super::fates::needed;
use crate::config::Config;
use crate::fault::LinkFault;
use crate::valid_config::ValidConfig;
use cop1::Fop;
use std::alloc::{AllocError, Global};
use std::collections::VecDeque;
use tm_link::Extractor;

/// The record that is kept of a ground, so that another can take over if the ground is lost. It contains
/// V(S), NN(R) (CCSDS 232.1-B-2, 5.1) and the bookkeeping of the submissions that were sent whole.
#[derive(Clone, Copy)]
pub struct KeptGround {
    /// How many submissions are acknowledged whole, modulo 2^64.
    pub acknowledged: u64,
    /// V(S), the number of the next segment that is sent for the first time.
    pub vs: u8,
    /// NN(R), the number that the spacecraft was last known to expect.
    pub nn: u8,
    /// Whether V(S) and NN(R) are those of a session, and no alert has shown a broken condition.
    pub known: bool,
    /// How many further submissions were sent whole, 0 to 127.
    pub whole: u8,
    /// For each of these further submissions, how many segments are not acknowledged, the oldest first. The
    /// other elements are 0.
    pub segments: [u8; 127],
}

impl KeptGround {
    ghost use Rattle.nodes.specs.KeptGround.{IsKept};

    // Returns whether a ground with this configuration could have returned this record.
    fn is_of(&self, config: &Config) -> bool
        ensures { IsTrue result ↔ IsKept config.now self.now }
    {
        let sent = self.vs.wrapping_sub(self.nn);
        if u32::from(sent) > config.width / 2 {
            return false;
        }
        let whole = usize::from(self.whole);
        if whole > 127 {
            return false;
        }
        if !are_whole(&self.segments[..whole], sent) {
            return false;
        }
        are_same(&self.segments, &[0; 127], whole)
    }
}

// Returns whether the sent units complete all submissions with these numbers of segments.
fn are_whole(segments: &[u8], sent: u8) -> bool
    ensures { IsTrue result ↔ whole_within sent segments.now ≡ length segments.now }
{
    let mut more = usize::from(sent);
    for count in segments {
        let needed = needed(usize::from(*count));
        if more < needed {
            return false;
        }
        more -= needed;
    }
    true
}

// Returns whether two records are equal from one index on.
fn are_same(one: &[u8], other: &[u8], from: usize) -> bool
    requires one { from ≤ length one.now }
    requires other { from ≤ length other.now }
    ensures { IsTrue result ↔ drop from one.now ≡ drop from other.now }
{
    is_same(&one[from..], &other[from..])
}

fn is_same(one: &[u8], other: &[u8]) -> bool
    ensures { IsTrue result ↔ one.now ≡ other.now }
{
    one == other
}

impl Ground {
    ghost use Rattle.std.specs.Prelude.{◌≡◌, ◌/◌, Err, IfOk, IsOkUnless};
    ghost use Rattle.cop1.specs.Modulo.{ahead_by};
    ghost use Rattle.nodes.specs.KeptGround.{IsKept, kept_of, opened_at};

    /// Returns what is kept of this ground, in one record of fixed size. A program stores the record after
    /// each call, before it sends the frame that the call returned. If the ground is lost, `open_at` opens
    /// another ground with the record. The record does not contain submissions that were not sent whole,
    /// bypass packets, telemetry, or what directives set.
    /// Cost: as `sent_whole`.
    pub fn kept(&self) -> KeptGround
        ensures kept { result ≡ kept_of self.now }

        // So `open_at` accepts the record under this configuration.
        ensures taken { IsKept self.now.config result }
    {
        self.record()
    }

    // Returns the record. V(S) is above NN(R) by at most the number of units that may be sent and not
    // acknowledged.
    fn record(&self) -> KeptGround
        ensures kept { result ≡ kept_of self.now }
        ensures apart { ahead_by self.now.fop.vs self.now.fop.nn ≤ self.now.config.width / 2 }
    {
        let mut segments = [0; 127];
        let whole = put_whole(&self.left, self.fop.beyond(), &mut segments);
        KeptGround {
            acknowledged: self.acknowledged,
            vs: self.vs(),
            nn: self.nn(),
            known: self.kept,
            whole,
            segments,
        }
    }

    /// Opens a ground that takes over from a lost one, with the record that the lost one's `kept` returned.
    /// The ground is in S6, and has the record's V(S), NN(R) and bookkeeping of submissions. It equals the
    /// lost ground after `Terminate` and `forget_telemetry`, except for the following. It has no bypass
    /// packets and no waiting telemetry, and its transmission count is 1. Its window, limit and timer are
    /// those of the configuration. So `resume` begins the next session, as after an alert. Refuses 10
    /// `NotKnown` if no ground with this configuration can have returned the record, then 6 `Memory`.
    /// Faults: 10 NotKnown, 6 Memory. Memory: yes.
    pub fn open_at(
        alloc: Global,
        valid: &ValidConfig,
        kept: &KeptGround,
    ) -> Result<Ground, LinkFault>
        ensures opened { IfOk result (λ g. g ≡ opened_at valid.now kept.now) }
        ensures taken { IsKept valid.now kept.now → IsOkUnless result LinkFault.Memory }
        ensures refused { (IsKept valid.now kept.now → ⊥) → result ≡ Err LinkFault.NotKnown }

        // So only records that a ground can return are accepted: the opened ground returns this one.
        ensures same { IfOk result (λ g. kept_of g ≡ kept.now) }
    {
        let config = valid.config();
        if !kept.is_of(config) {
            return Err(LinkFault::NotKnown);
        }
        let Ok(fop) = Fop::kept(
            alloc,
            config.width as u8,
            config.window as u8,
            config.limit as u8,
            config.timer as u16,
            kept.vs,
            kept.nn,
        ) else {
            return Err(LinkFault::Memory);
        };
        let Ok(extractor) = Extractor::new(alloc) else {
            return Err(LinkFault::Memory);
        };
        let slots = config.queue_slots as usize;
        let Ok(pending) = VecDeque::with_capacity(alloc, slots) else {
            return Err(LinkFault::Memory);
        };
        let Ok(left) = left_of(alloc, kept, slots) else {
            return Err(LinkFault::Memory);
        };
        Ok(Ground {
            alloc,
            config: *config,
            fop,
            pending,
            acknowledged: kept.acknowledged,
            left,
            kept: kept.known,
            extractor,
            waiting: VecDeque::new(alloc),
            finished: Vec::new(alloc),
        })
    }
}

// Writes the number of segments of each submission, from the oldest, that the sent units complete. Returns
// how many submissions these are.
fn put_whole(left: &VecDeque<usize>, sent: u8, out: &mut [u8; 127]) -> u8
    requires most { sent ≤ 127 }
    ensures count { result ≡ whole_within sent left.now.items }
    ensures counts { out.new ≡ take result left.now.items ++ drop result out.old }
{
    let mut more = usize::from(sent);
    let mut whole = 0;
    'submissions: while let Some(segments) = left.get(whole) {
        let needed = needed(*segments);
        if more < needed {
            return whole as u8;
        }
        more -= needed;
        out[whole] = *segments as u8;
        whole += 1;
    }
    whole as u8
}

// Returns the submissions of a record, with room for as many as may wait or be sent. Each submission has a
// segment among those that may wait or those that may be sent; at most 127 may be sent.
fn left_of(alloc: Global, kept: &KeptGround, slots: usize) -> Result<VecDeque<usize>, AllocError>
    requires slots { slots ≤ 65535 }
    requires whole { kept.now.whole ≤ 127 }
    ensures left { IfOk result (λ left. left.items ≡ take kept.now.whole kept.now.segments) }
    ensures room { IfOk result (λ left. slots + 127 ≤ deque_capacity left) }
{
    let mut left = VecDeque::with_capacity(alloc, slots + 127)?;
    for count in &kept.segments[..usize::from(kept.whole)] {
        left.push_back_reserved(usize::from(*count));
    }
    Ok(left)
}
