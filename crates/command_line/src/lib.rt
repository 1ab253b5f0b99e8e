//! The command line of `tctool`: its commands with their arguments, what the arguments request, and the
//! help. No file is opened here, and nothing is written.
#![tactic(auto)]

mod arguments;
mod commands;
mod given;
mod help;
mod task;

pub use commands::options;
pub use task::{Channel, MapPart, Options, Part, Searched, Task, UsageFault};
