// How a session began.

use cop1::Directive;

/// How a session began. An initiation directive that the ground accepts begins it.
#[derive(Clone, Copy, Debug, PartialEq, Eq)]
pub struct Opening {
    /// The directive.
    pub directive: Directive,
    /// Nothing was in transit in either direction. For an initiation without CLCW check, V(R) was V(S).
    pub clean: bool,
    /// Nothing was in transit on the uplink, and each frame in transit on the downlink carried a CLCW with
    /// the receiver's current value and flags. For an initiation without CLCW check, V(R) was V(S).
    pub idle: bool,
}
