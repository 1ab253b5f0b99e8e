// The program's next action.

use command_ledger::Tell;
use cop1::Alert;

/// The program's next action. It does this whole before it calls `next` again.
#[derive(Clone, Copy, Debug, PartialEq, Eq)]
pub enum Next {
    /// Nothing, until something arrives or a tick passes.
    Nothing,
    /// Append the octets of `unstored` to the store, and then call `stored`.
    Store,
    /// Report this to the user who gave the commands, and then call `told`.
    Tell(Tell),
    /// The sender has given up for this reason. The commander begins another session by itself.
    Alert(Alert),
    /// Call `take_telemetry`.
    Telemetry,
    /// Send the frame at the beginning of `out`, which has this many octets.
    Send(usize),
}
