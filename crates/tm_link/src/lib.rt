//! Telemetry transfer frames (CCSDS 132.0-B-3) of one fixed length.
//!
//! `decode` reads octets that are exactly one frame, and otherwise returns the first fault.
//! `encode` writes the one spelling of a frame. `TmBuilder` builds frames from the packets that are
//! queued, and `Extractor` extracts packets from the frames that arrived.
//!
//! The other calls are the parts of a builder and an extractor. They are for callers that keep the
//! octets themselves, like the library for C.
#![tactic(auto)]

mod builder;
mod data_field;
mod decoding;
mod encoding;
mod ending;
mod extractor;
mod fault;
mod frame;
mod gap;
mod hand_out;
mod laws;
mod part;
mod turn;

pub use builder::{TmBuilder, can_build, can_queue, idle_left_after};
pub use decoding::decode;
pub use encoding::encode;
pub use ending::{Ending, ending_with, is_idle_with, rest_after_packets};
pub use extractor::Extractor;
pub use fault::TmFault;
pub use frame::{Pointer, TmFrame};
pub use gap::{Gap, gap_before, is_lost};
pub use laws::{
    law_of_extraction, law_of_outage, law_of_queueing, law_of_reading, law_of_spelling,
    law_of_stream,
};
pub use turn::{Turn, put_next};
