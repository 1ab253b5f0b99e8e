// The progress of a session's submissions.

ghost use Rattle.std.specs.Prelude.{◌≡◌, ◌≤◌};
ghost use Rattle.std.specs.VecDeque.{deque_capacity};
ghost use Rattle.nodes.specs.Fates.{fates_of, after_obeying, kept_after, without_one, left_after, whole_within};

use super::Ground;
use crate::fault::LinkFault;
use cop1::{Directive, FopMode};
use std::collections::VecDeque;

impl Ground {
    ghost use Rattle.std.specs.Prelude.{OnErr};
    ghost use Rattle.nodes.specs.Fates.{submitted, whole_with};
    ghost use Rattle.nodes.specs.Ground.{ground_step, Resume, sent_beyond, known_on_board};

    /// Returns the number of the session's submissions, modulo 2^64. They are numbered from 0, in order. The
    /// number stays after an alert, and is 0 once V(S) is set (CCSDS 232.1-B-2, 5.1). The same holds for
    /// `sent_whole` and `acknowledged_whole`. It takes no memory.
    pub fn submitted(&self) -> u64
        ensures { result ≡ submitted self.now.fates }
    {
        self.acknowledged.wrapping_add(self.left.len() as u64)
    }

    /// Returns how many of the session's submissions, from the first, were sent whole, each to its last
    /// segment. It takes no memory.
    /// Cost: the number of segments that were sent and are not acknowledged, 127 at most.
    pub fn sent_whole(&self) -> u64
        ensures { result ≡ whole_with (sent_beyond self.now) self.now.fates }
    {
        self.whole_with(self.vs().wrapping_sub(self.nn()))
    }

    /// Returns how many of the session's submissions, from the first, are acknowledged whole and so on
    /// board. It takes no memory.
    pub fn acknowledged_whole(&self) -> u64
        ensures { result ≡ whole_with 0 self.now.fates }
    {
        self.acknowledged
    }

    /// Returns how many of the session's submissions, from the first, are known to be on board whole from a
    /// CLCW with this value. They are those that are acknowledged, and those whose segments were all
    /// accepted according to the CLCW. It can be called after an alert too (CCSDS 232.1-B-2, 5.1). Returns
    /// None if nothing is known:
    /// - no session has begun, or V(S) has been set since;
    /// - an alert has since shown a broken condition (`Alert::shows_a_broken_condition`);
    /// - V(S) is not NN(R), and the value is not between NN(R) and V(S).
    /// It takes no memory. Cost: as `sent_whole`.
    pub fn known_on_board(&self, value: u8) -> Option<u64>
        ensures { result ≡ known_on_board self.now value }
    {
        if !self.kept {
            return None;
        }
        let accepted = self.accepted_beyond(value)?;
        Some(self.whole_with(accepted))
    }

    /// Begins the next session after an alert, from the point that the last session reached. It sets V(S) to
    /// the value, and begins with Unlock (CCSDS 232.1-B-2, 5.2.4). The value must come from a CLCW that was
    /// made when nothing was in transit on the uplink. Returns how many submissions of the session that
    /// ended are on board whole, modulo 2^64, counted from the first of that session. The program must
    /// resubmit the later ones. A submission that contains several packets and more octets than a segment
    /// (`part`) is whole only with its last packet. Some of its packets may then be on board already, and are
    /// repeated when it is resubmitted. Refuses 10 `NotKnown`, and changes nothing, if the sender is not in
    /// S6 or nothing is known:
    /// - no session has begun, or V(S) has been set since;
    /// - an alert has since shown a broken condition (`Alert::shows_a_broken_condition`);
    /// - V(S) is not NN(R), and the value is not between NN(R) and V(S).
    /// Faults: 10 NotKnown. Cost: as `sent_whole`.
    pub fn resume(&mut self, value: u8) -> Result<u64, LinkFault>
        ensures answer { result ≡ (ground_step self.old (Resume value)).answer }
        ensures after { self.new ≡ (ground_step self.old (Resume value)).after }
        ensures err { OnErr result (self.new ≡ self.old) }
    {
        if self.state() != FopMode::S6 {
            return Err(LinkFault::NotKnown);
        }
        let Some(whole) = self.known_on_board(value) else {
            return Err(LinkFault::NotKnown);
        };
        let _ = self.directive(Directive::SetVs(value));
        let _ = self.directive(Directive::InitUnlock);
        Ok(whole)
    }

    // Returns how many submissions are whole with this many segments beyond the acknowledged ones.
    fn whole_with(&self, segments: u8) -> u64
        ensures { result ≡ whole_with segments self.now.fates }
    {
        self.acknowledged
            .wrapping_add(whole_within(&self.left, segments) as u64)
    }
}

// Counts the submissions from 0 again if a directive that was executed begins a session or sets V(S).
pub(super) fn count_anew(
    directive: Directive,
    acknowledged: &mut u64,
    left: &mut VecDeque<usize>,
    kept: &mut bool,
)
    ensures counted { fates_of acknowledged.new left.new.items kept.new
        ≡ after_obeying (fates_of acknowledged.old left.old.items kept.old) directive }
    ensures capacity { deque_capacity left.new ≡ deque_capacity left.old }
{
    let Some(kept_now) = kept_after(directive) else {
        return;
    };
    *acknowledged = 0;
    left.clear();
    *kept = kept_now;
}

// Returns whether V(S) and NN(R) are those of a session after a directive, or None if the directive leaves
// the counts.
fn kept_after(directive: Directive) -> Option<bool>
    ensures { result ≡ kept_after directive }
{
    match directive {
        Directive::InitWithoutCheck
        | Directive::InitWithCheck
        | Directive::InitUnlock
        | Directive::InitSetVr(_) => Some(true),
        Directive::SetVs(_) => Some(false),
        _ => None,
    }
}

// Returns how many submissions, from the oldest, are whole with this many more segments.
fn whole_within(left: &VecDeque<usize>, segments: u8) -> usize
    ensures { result ≡ whole_within segments left.now.items }
{
    let mut more = usize::from(segments);
    let mut whole = 0;
    'submissions: while let Some(segments) = left.get(whole) {
        let needed = needed(*segments);
        if more < needed {
            return whole;
        }
        more -= needed;
        whole += 1;
    }
    whole
}

// Returns how many segments complete a submission that lacks this many: at least one.
pub(super) fn needed(segments: usize) -> usize
    ensures least { 1 ≤ result }
    ensures covers { segments ≤ result }
    ensures most { 1 ≤ segments → result ≤ segments }
    ensures one { segments ≤ 1 → result ≤ 1 }
{
    if segments == 0 { 1 } else { segments }
}

// Takes segments from the oldest submissions, and returns how many submissions become whole.
pub(super) fn take_segments(left: &mut VecDeque<usize>, segments: u8) -> usize
    ensures whole { result ≡ whole_within segments left.old.items }
    ensures left { left.new.items ≡ left_after segments left.old.items }
    ensures capacity { deque_capacity left.new ≡ deque_capacity left.old }
{
    let before = left.len();
    let mut more = segments;
    'segments: while more > 0 {
        take_one(left);
        more -= 1;
    }
    before - left.len()
}

// Takes one segment from the oldest submission, and removes the submission with its last segment.
fn take_one(left: &mut VecDeque<usize>)
    ensures left { left.new.items ≡ without_one left.old.items }
    ensures capacity { deque_capacity left.new ≡ deque_capacity left.old }
{
    match left.pop_front() {
        Some(segments) if segments > 1 => left.push_front_reserved(segments - 1),
        _ => {}
    }
}
