//! A simulated telecommand link with COP-1 (CCSDS 232.0-B-4, 232.1-B-2), as docs/PROFILE.md defines it.
//!
//! A `World` contains both nodes and a link between them. The link keeps the order of frames in each
//! direction, and loses or damages frames only detectably for the receiver. A `World` runs events, and
//! keeps records of the session. `tc_link` states the promises about a session.
#![tactic(auto)]

mod acceptance;
mod down_frame;
mod fault;
mod map_lists;
mod octet_copy;
mod refusal;
mod reply;
mod session;
mod session_start;
mod up_frame;
mod world;

pub use fault::SimFault;
pub use nodes::Event;
pub use reply::{NodeFault, Reply};
pub use session_start::Opening;
pub use world::World;
