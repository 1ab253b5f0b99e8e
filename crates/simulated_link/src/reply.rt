// The replies of a simulated link.

use clcw::Clcw;
use cop1::{Alert, CopFault};
use nodes::{Heard, HeardClcw, LinkFault, Received};
use thiserror::Error;
use tm_link::TmFault;

/// The reply of a simulated link to an event.
#[derive(Debug, PartialEq, Eq, Drop)]
pub enum Reply {
    /// The event is done.
    Done,
    /// There was nothing to send or to take.
    Nothing,
    /// The frame is lost.
    Lost,
    /// A node refused the call.
    Refused(NodeFault),
    /// The ground's sender has given up.
    Alert(Alert),
    /// The ground sent this frame.
    Sent(Vec<u8>),
    /// The spacecraft sent a telemetry frame with this CLCW.
    Reported(Clcw),
    /// The spacecraft received octets, with this result.
    Up(Received),
    /// The ground received octets, with this result.
    Down(Heard),
    /// A CLCW reached the ground by itself, with this result.
    DownClcw(HeardClcw),
    /// The ground has resumed. This many submissions of the session that ended are on board whole.
    Resumed(u64),
    /// A packet was taken, with its MAP.
    Packet(u8, Vec<u8>),
}

/// Why a node refused a call, by the part of the node that refused it.
#[derive(Clone, Copy, Debug, Error, PartialEq, Eq)]
pub enum NodeFault {
    /// The node itself.
    #[error(transparent)]
    Link(LinkFault),
    /// The ground's sender.
    #[error(transparent)]
    Cop(CopFault),
    /// The builder of telemetry frames.
    #[error(transparent)]
    Tm(TmFault),
}
