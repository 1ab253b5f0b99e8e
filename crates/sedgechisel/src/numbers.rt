// The numbers of the answers that no lower crate returns.

/// A struct of the caller has a value that is not valid in it.
pub(crate) const DAMAGED: u8 = 255;

/// The number of octets is not the one that the call requires.
pub(crate) const WRONG_COUNT: u8 = 254;

/// What is requested does not exist.
pub(crate) const ABSENT: u8 = 253;
