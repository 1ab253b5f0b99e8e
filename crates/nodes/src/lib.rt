//! The two nodes of the telecommand link with COP-1 (CCSDS 232.0-B-4, 232.1-B-2), as
//! docs/PROFILE.md defines it.
//!
//! A `Config` contains the managed parameters of both nodes. A `Spacecraft` receives telecommand
//! frames, delivers their packets, and sends telemetry frames with CLCWs. A `Ground` sends
//! telecommand frames until they are acknowledged, and delivers the packets of telemetry frames. An
//! `Event` is an event on a link between the two.
#![tactic(auto)]

mod bypass_segments;
mod command_packets;
mod config;
mod data_field;
mod event;
mod failover_law;
mod fault;
mod ground_node;
mod heard;
mod laws;
mod map_packet;
mod owned_segment;
mod parameter;
mod received;
mod segment_log;
mod spacecraft;
mod valid_config;

pub use config::Config;
pub use data_field::data_field_of;
pub use event::Event;
pub use failover_law::law_of_failover;
pub use fault::LinkFault;
pub use ground_node::{Ground, KeptGround, Submission};
pub use heard::{Heard, HeardClcw, HeardReport};
pub use laws::law_of_delivery;
pub use parameter::{PARAMETERS, Parameter};
pub use received::Received;
pub use spacecraft::{Arrival, KeptNumbers, Spacecraft};
pub use valid_config::ValidConfig;
