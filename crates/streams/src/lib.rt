//! Octets and text that arrive in pieces: their sources and sinks, the one loop over pieces, the
//! lines of a text and the words of a line.
//!
//! `go_through` reads a `Source` in pieces. A `Taker` processes each piece, and writes to a `Sink`
//! before the next piece is read. `play_stream` is such a loop over lines; a `Player` answers each
//! line.
#![tactic(auto)]

mod device_log;
mod fault;
mod laws;
mod output;
mod parts;
mod pieces;
mod play;
mod player;
mod sink;
mod source;
mod words;

pub use device_log::{Call, DeviceLog};
pub use fault::StreamFault;
pub use laws::{law_of_numbers, law_of_octets};
pub use output::{WriteFailed, write_all};
pub use parts::{cut, two_words};
pub use pieces::{MOST_OCTETS, Taker, go_through};
pub use play::{play_lines, play_stream};
pub use player::{Gathered, Player};
pub use sink::{Sink, Writer};
pub use source::{Reader, Source};
pub use words::{is, is_octets, number_in_word, octets_in_word, octets_of_digits, rest_after};
