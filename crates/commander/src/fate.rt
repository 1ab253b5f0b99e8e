// The progress of a command.

ghost use Rattle.std.specs.Prelude.{◌≡◌};
ghost use Rattle.commander.specs.Fate.{is_whole};

use crate::commander::Commander;

/// The progress of a command without a fate, by COP-1. Only a status of the board shows that a command was
/// executed.
#[derive(Clone, Copy, Debug, PartialEq, Eq)]
pub enum Fate {
    /// Not all of it has been sent.
    Waits,
    /// All of it has been sent.
    Sent,
    /// All of it is acknowledged.
    OnBoard,
}

// Returns whether the submission this many before the last one is among the first `whole` submissions.
fn is_whole(submitted: u64, whole: u64, before: u32) -> bool
    ensures { result ≡ is_whole submitted whole before }
{
    submitted.wrapping_sub(whole) <= u64::from(before)
}

impl Commander {
    ghost use Rattle.commander.specs.Fate.{fate_of, progress};

    /// Returns the progress of the command with this number in the current session or, if none is open, the
    /// last one. Returns None if the command has a fate, or was not given.
    /// Cost: as `Ground::sent_whole`.
    pub fn fate(&self, number: u32) -> Option<Fate>
        ensures { result ≡ fate_of self.now number }
    {
        if number <= self.ledger.below() || number > self.ledger.highest() {
            return None;
        }
        Some(self.progress(number))
    }

    fn progress(&self, number: u32) -> Fate
        ensures { result ≡ progress self.now number }
    {
        if number > self.session.sent {
            return Fate::Waits;
        }
        let submitted = self.ground_node.submitted();
        let before = self.session.sent - number;
        if is_whole(submitted, self.ground_node.acknowledged_whole(), before) {
            return Fate::OnBoard;
        }
        if is_whole(submitted, self.ground_node.sent_whole(), before) {
            return Fate::Sent;
        }
        Fate::Waits
    }
}
