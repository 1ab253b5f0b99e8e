//! The communications link control word (CLCW), with which a receiver of telecommand frames reports
//! to its sender (CCSDS 232.0-B-4, 4.2).
#![tactic(auto)]

mod decoding;
mod encoding;
mod fault;
mod flags;
mod word;

pub use decoding::decode;
pub use encoding::encode;
pub use fault::ClcwFault;
pub use flags::ClcwFlags;
pub use word::Clcw;
