//! Scripts of the simulated link, as docs/PROFILE.md defines them. `play_script` reads a script to its end,
//! checks each line, and then runs the script on the link, as a node is run line by line.
#![tactic(auto)]

mod answer;
mod check;
mod link_node;
mod run;
mod show;

pub use check::{ScriptFault, fault_of};
pub use link_node::LinkNode;
pub use run::play_script;
