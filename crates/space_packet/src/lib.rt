//! Space packets (CCSDS 133.0-B-2): the codec, packets on a stream, and sequence counts.
//!
//! `decode` reads the packet that octets begin with, and otherwise returns the first fault.
//! `encode` writes the one spelling of a packet. `PacketSplitter` splits a stream into packets.
#![tactic(auto)]

mod counters;
mod decoding;
mod encoding;
mod fault;
mod gaps;
mod laws;
mod layout;
mod packet;
mod splitter;
mod whole;

pub use counters::SequenceCounters;
pub use decoding::decode;
pub use encoding::encode;
pub use fault::PacketFault;
pub use gaps::{GapCheck, gap_between};
pub use laws::{law_of_reading, law_of_records, law_of_spelling};
pub use layout::Packets;
pub use packet::{Packet, PacketKind, is_idle_apid};
pub use splitter::PacketSplitter;
pub use whole::{is_packet, packet_len};
