//! The lines of scripts and of nodes, as docs/PROFILE.md defines them ("Scripts of the simulated link" and
//! "One node, line by line"): the meaning of each line, a node's answer to it, and a node that is run line
//! by line.
//!
//! `read_line` reads a line. A `NodePlayer` makes its `Node` at the first line that asks something of it,
//! and answers each line with at most one line. So any program can drive a ground or a spacecraft through a
//! pipe. This crate uses no devices.
#![tactic(auto)]

mod answers;
mod causes;
mod ground;
mod laws;
mod line;
mod node;
mod player;
mod reader;
mod spacecraft;

pub use answers::{
    push_alert, push_fault, push_heard, push_packet, push_received, push_report, push_reported,
    push_sent,
};
pub use causes::cause_in;
pub use laws::law_of_commands;
pub use line::{Ask, Line};
pub use node::Node;
pub use player::NodePlayer;
pub use reader::read_line;
