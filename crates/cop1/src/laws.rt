// What holds of the state tables themselves, for any input.

ghost use Rattle.cop1.specs.Farm.{FlagsAlwaysAgree};
ghost use Rattle.cop1.specs.Queues.{FollowsTheRules};

/// States that after any events at a new receiver the retransmit flag is set if the wait flag is.
/// The state is then Lockout exactly when the lockout flag is set, and Wait exactly when the wait
/// flag is set without it.
pub fn flags_always_agree()
    ensures { FlagsAlwaysAgree }
{}

/// States that for any input the sender of units follows the rules over numbers, and that their
/// answer determines how its queues change.
pub fn law_of_senders<U>()
    ensures { FollowsTheRules U }
{}
