// The progress of the session.

ghost use Rattle.std.specs.Prelude.{◌≡◌};
ghost use Rattle.commander.specs.Commander.{silent, ticked};

use crate::mission::{Mission, wait};
use cop1::Alert;

#[derive(Clone, Copy, Debug, PartialEq, Eq)]
pub(crate) struct Session {
    /// The highest number that was submitted in this session.
    pub(crate) sent: u32,
    /// The number of ticks until a silence; 0 in a silence.
    pub(crate) busy: u32,
    /// The value of a CLCW that was made in a silence without a session.
    pub(crate) value: Option<u8>,
    /// Whether the sending of commands is stopped.
    pub(crate) paused: bool,
    /// Why the sender has given up, until this is reported.
    pub(crate) alert: Option<Alert>,
    /// Whether an order to restart is due.
    pub(crate) restarts: bool,
    /// The number of ticks until an order may be sent again.
    pub(crate) held: u32,
}

// Begins a silence.
pub(crate) fn silent(mission: &Mission, session: &Session) -> Session
    ensures { result ≡ silent mission.now session.now }
{
    Session {
        busy: wait(mission),
        value: None,
        ..*session
    }
}

pub(crate) fn ticked(session: &Session) -> Session
    ensures { result ≡ ticked session.now }
{
    Session {
        busy: session.busy.saturating_sub(1),
        held: session.held.saturating_sub(1),
        ..*session
    }
}
