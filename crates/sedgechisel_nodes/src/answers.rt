// The numbers of the answers that no lower crate returns.

/// The handle holds nothing.
pub(crate) const CLOSED: u8 = 255;

/// A parameter is out of range.
pub(crate) const OUT_OF_RANGE: u8 = 254;

/// What is requested does not exist.
pub(crate) const ABSENT: u8 = 253;

/// The buffer is too short.
pub(crate) const ROOM: u8 = 252;

/// Memory ran out.
pub(crate) const MEMORY: u8 = 6;

/// A commander ran out of memory.
pub(crate) const NO_MEMORY: u8 = 9;
