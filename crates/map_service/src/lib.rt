//! Packets in segments for each multiplexer access point, MAP (CCSDS 232.0-B-4, 4.1.3.2), with
//! blocking or without it.
//!
//! `cut` makes segments from packets; an `Assembler` joins the segments of each MAP into packets
//! again.
#![tactic(auto)]

mod assembler;
mod cutting;
mod decision;
mod dropped;
mod fault;
mod laws;
mod limits;
mod packets;

pub use assembler::{Assembler, Prepared, Taken, TakenInline, TakenPart};
pub use cutting::{alone_segment, cut, cut_packets, group_len, segment_count};
pub use decision::{Action, Decision, decide};
pub use dropped::Dropped;
pub use fault::MapFault;
pub use laws::{
    law_of_beginnings, law_of_groups, law_of_histories, law_of_packets, law_of_parts,
    law_of_passage, law_of_segments, law_of_steps,
};
pub use limits::Limits;
pub use packets::fault_of_one;
