//! What each command of `tctool` lists for a stream of records, and how its run ends. No script is run here.
#![tactic(auto)]

mod counted;
mod found;
mod found_progress;
mod listed;
mod noted;
mod outcome;
mod searched;
mod status;

pub use counted::list;
pub use noted::Note;
pub use outcome::Outcome;
pub use status::ending;
