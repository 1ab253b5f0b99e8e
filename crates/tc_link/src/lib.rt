//! The simulated telecommand link with COP-1 (CCSDS 232.0-B-4, 232.1-B-2), as docs/PROFILE.md defines
//! it.
//!
//! A `Sim` is a world of `simulated_link`, that is, both nodes with a link between them. Events happen
//! to it, and it keeps the records of the session. `run` and each step state in terms of these records
//! what is promised of a session.
#![tactic(auto)]

mod event;
mod laws;
mod outage_law;
mod premises;
mod sim;
mod telemetry_law;

pub use laws::{
    law_of_any_past, law_of_bypass, law_of_configurations, law_of_frames_again, law_of_loss,
    law_of_numbers, law_of_own_loops, law_of_plain_links, law_of_progress, law_of_repetition,
    law_of_resuming, law_of_seen, law_of_sessions, law_of_silence, law_of_submissions,
    law_of_taking,
};
pub use nodes::{
    Config, Event, Ground, Heard, HeardClcw, HeardReport, KeptGround, KeptNumbers, LinkFault,
    Received, Spacecraft, law_of_delivery, law_of_failover,
};
pub use outage_law::law_of_outage;
pub use premises::law_of_premises;
pub use sim::{Sim, run};
pub use simulated_link::{NodeFault, Reply, SimFault};
pub use telemetry_law::law_of_telemetry;
