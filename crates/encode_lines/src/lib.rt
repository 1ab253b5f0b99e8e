//! Encodes the lines that `tctool tc` and `tctool packets` write, and lines that hold octets.
//!
//! `encode_stream` reads lines and writes the octets of each. `law_of_frame_lines`, `law_of_packet_lines`
//! and `law_of_octets_in_lines` state that the tool writes those lines for these octets.
#![tactic(auto)]

mod encoder;
mod fields;
mod frames;
mod held;
mod laws;
mod packets;
mod spellings;

pub use encoder::encode_stream;
pub use laws::{law_of_frame_lines, law_of_octets_in_lines, law_of_packet_lines};
