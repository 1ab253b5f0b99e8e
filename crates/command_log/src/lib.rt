//! Executes commands once and in order on board, across restarts at any moment. The crate contains the record
//! that a board keeps, the decision on the next action, and the octets of both and of the packets. It
//! performs no input or output, and allocates no memory.
#![tactic(auto)]

mod crc;
mod executor;
mod fault;
mod laws;
mod packets;
mod record;
mod status;
#[cfg(test)]
mod tests;

pub use crc::{check, check_holds, history_after};
pub use executor::{Action, Executor, Place, Stage};
pub use fault::LogFault;
pub use laws::{
    law_of_carrying_out, law_of_commands, law_of_erasing, law_of_execution, law_of_history,
    law_of_keeping, law_of_knowing, law_of_orders, law_of_rest, law_of_tearing,
};
pub use packets::{Command, Order, decode_command, decode_order, encode_command, encode_order};
pub use record::{Record, decode_fields, decode_record, encode_fields, encode_record};
pub use status::{Status, decode_status, encode_status};
