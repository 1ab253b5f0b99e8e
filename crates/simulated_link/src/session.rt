// The records of a session.

use crate::session_start::Opening;

/// The records of the session, which lasts until the next one begins.
#[derive(Drop)]
pub(crate) struct Session {
    pub(crate) opening: Option<Opening>,
    pub(crate) confirmed: bool,
    pub(crate) submissions: Vec<(u8, Vec<u8>)>,
    // The packets of the session, for each MAP.
    pub(crate) submitted: [Vec<Vec<u8>>; 64],
    pub(crate) delivered: [Vec<Vec<u8>>; 64],
    pub(crate) sent: Vec<Vec<u8>>,
    pub(crate) acknowledged: usize,
    // The number of segments that had been accepted on board when the session began.
    pub(crate) before: usize,
}
