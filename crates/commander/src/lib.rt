//! The ground's half of commands that are executed on board once and in order: a ledger of the commands and a
//! ground that sends them. This crate does no input or output, and its only clock is `tick`.
#![tactic(auto)]

mod commander;
mod fate;
mod hearing;
mod laws;
mod mission;
mod next;
mod session;
mod telling;
#[cfg(test)]
mod tests;
mod work;

pub use commander::Commander;
pub use fate::Fate;
pub use laws::{law_of_frames, law_of_moves, law_of_silence};
pub use mission::Mission;
pub use next::Next;
