//! What all layouts share: the numbers that octets spell, the check of frames, and the records of a
//! stream of octets, however the stream was cut.
#![tactic(auto)]

mod frame_check;
mod front;
mod laws;
mod number;
mod splitter;
mod table;
mod wire;

pub use frame_check::{append_check, check, check_holds};
pub use front::remove_front;
pub use laws::{law_of_cutting, law_of_damage, law_of_records, law_of_refusal, law_of_spellings};
pub use number::{first_two, low_eleven};
pub use splitter::Splitter;
pub use wire::Wire;
