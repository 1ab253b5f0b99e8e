// The law of a ground that takes over from one that was lost; the function does nothing.

ghost use Rattle.nodes.specs.Failover.{EachGoesOn};

/// Relates a ground that `Ground::open_at` opens to the original ground, which returned the record by `kept`.
/// Both have the same configuration. The opened ground equals the original one after `Terminate` and
/// `forget_telemetry`, except for the following (`is`). It has no bypass packets and no telemetry packets.
/// Its window, limit and timer are those of the configuration, and its transmission count is 1. Its
/// bookkeeping covers only the submissions that were sent whole. `sent_whole`, `acknowledged_whole` and
/// `known_on_board` return the same at both grounds (`sent`, `acknowledged`, `known`). `resume` answers as at
/// the original ground after `Terminate` (`resumes`). After it has resumed, the opened ground is a new ground
/// with V(S) set to the value, whose session begins with Unlock (`begins`). So whatever holds of a session of
/// a new ground holds of its session.
pub fn law_of_failover()
    ensures { EachGoesOn }
{}
