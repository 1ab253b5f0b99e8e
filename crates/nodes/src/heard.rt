// The ground's result for telemetry that it received.

use clcw::ClcwFault;
use cop1::Alert;
use tm_link::{Gap, TmFault};

/// The ground's result for octets that it received.
#[derive(Clone, Copy, Debug, PartialEq, Eq)]
pub enum Heard {
    /// The octets do not form a valid frame.
    Invalid(TmFault),
    /// A frame of another spacecraft or virtual channel; nothing changes.
    Foreign,
    /// A frame of this spacecraft and virtual channel.
    Frame {
        /// How many frames are missing before this one.
        gap: Gap,
        /// How many more packets wait to be taken.
        packets: usize,
        /// The result for the frame's CLCW.
        report: HeardReport,
        /// Why the sender has given up, if it has.
        alert: Option<Alert>,
    },
}

/// The ground's result for a CLCW that arrived by itself.
#[derive(Clone, Copy, Debug, PartialEq, Eq)]
pub struct HeardClcw {
    /// The result for the CLCW.
    pub report: HeardReport,
    /// Why the sender has given up, if it has.
    pub alert: Option<Alert>,
}

/// The result for a CLCW, from a telemetry frame or by itself.
#[derive(Clone, Copy, Debug, PartialEq, Eq)]
pub enum HeardReport {
    /// The sender has used it.
    Used,
    /// It is not a valid CLCW.
    Refused(ClcwFault),
    /// It is of another virtual channel.
    OtherChannel,
}
