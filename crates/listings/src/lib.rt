//! The lines for streams of telecommand frames, telemetry frames, CLCWs and space packets, and for what a
//! receiver and an assembler do with telecommand frames.
//!
//! `list_stream` reads a `Source` in pieces, and a `Cutter` cuts what it reads into records. A
//! `Listing` appends the lines of each record. `list_stream` writes these lines to a `Sink` before
//! it reads the next piece.
#![tactic(auto)]

mod control_words;
mod cutter;
mod farm;
mod filters;
mod first_number;
mod frame_cutter;
mod frames;
mod line_words;
mod lines;
mod listing;
mod maps;
mod one_map;
mod only;
mod packets;
mod parts;
mod phrases;
mod record_number;
mod refusals;
mod reports;
mod stream;
mod telemetry;
mod text;
mod totals;
mod word_table;

pub use control_words::{ControlWords, WordFault};
pub use cutter::Cutter;
pub use filters::{Filter, FramesOf, PacketsOf, TelemetryOf, WordsOf, law_of_named_channels};
pub use first_number::{Begins, FromFirst};
pub use frame_cutter::{FrameCutter, FrameLength};
pub use frames::FrameListing;
pub use listing::Listing;
pub use maps::{MapListing, law_of_listed_packets};
pub use one_map::{OneMap, law_of_one_map};
pub use only::{Kept, Only};
pub use packets::PacketListing;
pub use record_number::RecordNumber;
pub use refusals::RefusalListing;
pub use reports::ReportListing;
pub use stream::{Summary, list_stream};
pub use telemetry::TelemetryListing;
pub use text::Text;
pub use totals::Totals;
