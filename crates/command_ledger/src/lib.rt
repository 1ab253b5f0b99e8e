//! The ground's commands without a fate, and the store that keeps them over restarts of the ground. This
//! crate does no input or output.
#![tactic(auto)]

mod entry;
mod fault;
mod given;
mod known;
mod laws;
mod ledger;
mod state;
mod store;
#[cfg(test)]
mod tests;

pub use fault::LedgerFault;
pub use laws::{law_of_fates, law_of_numbers, law_of_store};
pub use ledger::{Ledger, Next};
pub use state::Tell;
