//! COP-1 (CCSDS 232.1-B-2): the receiver, FARM-1, with its CLCWs, and the sender, FOP-1, as
//! docs/PROFILE.md defines them.
#![tactic(auto)]

mod accepted;
mod farm;
mod fault;
mod fop;
mod laws;
mod sender;
mod vocabulary;

pub use accepted::accepted_beyond;
pub use farm::{Farm, FarmFields, FarmMode, Verdict};
pub use fault::CopFault;
pub use fop::{Fop, Pulled};
pub use laws::{flags_always_agree, law_of_senders};
pub use sender::{ReportAnswer, Sender, SenderFields, SenderNext};
pub use vocabulary::{Alert, Control, Directive, FopMode};
