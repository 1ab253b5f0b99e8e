// The spacecraft's result for octets that it received.

use cop1::Verdict;
use map_service::Dropped;
use tc_frame::{Command, TcFault};

/// The spacecraft's result for octets that it received.
#[derive(Clone, Copy, Debug, PartialEq, Eq)]
pub enum Received {
    /// The octets do not form a valid frame.
    Invalid(TcFault),
    /// A frame of another spacecraft or virtual channel; nothing changes.
    Foreign,
    /// A Type-AD frame.
    Sequence {
        /// Its number, N(S).
        n: u8,
        /// The receiver's verdict.
        verdict: Verdict,
        /// How many packets the frame made ready.
        ready: usize,
        /// Why octets on its MAP were dropped, if any were.
        dropped: Option<Dropped>,
    },
    /// A Type-BD frame.
    Bypass {
        /// Whether it carried a packet that is kept.
        kept: bool,
    },
    /// A Type-BC frame, with its command.
    Control(Command),
}
