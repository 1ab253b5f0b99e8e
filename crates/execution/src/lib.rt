//! A ground and a board, each with its own program, and any link between them: what is executed, and what is
//! reported of it. The crate contains laws only.
#![tactic(auto)]

mod laws;
#[cfg(test)]
mod tests;

pub use laws::{law_of_execution, law_of_own_commands};
