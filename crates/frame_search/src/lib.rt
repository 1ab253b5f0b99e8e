//! Finds the good frames of one virtual channel in octets that may be damaged, missing or from other
//! channels: where a frame with a correct FECF begins, and what is skipped before it.
#![tactic(auto)]

mod laws;
mod place;

pub use laws::law_of_parts;
pub use place::{Place, place_at};
