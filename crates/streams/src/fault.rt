// Why a stream was not processed to its end.

use thiserror::Error;

/// Why a stream was not processed to its end.
#[derive(Clone, Copy, Debug, Drop, Error, PartialEq, Eq)]
pub enum StreamFault {
    /// The device that is read has failed.
    #[error("read failed")]
    Read,
    /// The device that is written to has failed.
    #[error("write failed")]
    Write,
    /// Out of memory.
    #[error("no memory")]
    Memory,
    /// The stream has more than 9,223,372,036,854,775,807 octets.
    #[error("input too long")]
    TooLong,
}
