//! Telecommand transfer frames (CCSDS 232.0-B-4, 4.1), with or without their check.
//!
//! `decode` reads octets that are exactly one frame, and otherwise returns the first fault.
//! `encode` writes the one spelling of a frame. `TcSplitter` splits a stream into frames, with the
//! layout `Checked` or `Unchecked`.
#![tactic(auto)]

mod decoding;
mod encoding;
mod fault;
mod frame;
mod laws;
mod layouts;
mod splitter;

pub use decoding::decode;
pub use encoding::encode;
pub use fault::TcFault;
pub use frame::{Body, Check, Command, Segment, SegmentFlags, SegmentHeader, TcFrame};
pub use laws::{law_of_reading, law_of_spelling};
pub use layouts::{Checked, FrameLayout, Unchecked, check_if};
pub use splitter::TcSplitter;
