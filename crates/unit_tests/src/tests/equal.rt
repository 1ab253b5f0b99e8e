// A comparison that is proved once, and not wherever it is used.

use std::fmt::Debug;
use std::process::Abort;

/// Stops the test and prints both values unless they are equal.
pub fn equal<A: PartialEq + Debug>(rt: &impl Abort, left: &A, right: &A) {
    assert_eq!(*rt; *left, *right);
}
