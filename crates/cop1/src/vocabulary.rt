// The vocabulary of the sender's rules, FOP-1: states, alerts, directives and the control command.

use tc_frame::Command;

/// The sender's state (CCSDS 232.1-B-2, 5.1.2).
#[derive(Clone, Copy, Debug, PartialEq, Eq)]
pub enum FopMode {
    /// Active.
    S1,
    /// Retransmit without wait.
    S2,
    /// Retransmit with wait.
    S3,
    /// Initialising without a control command.
    S4,
    /// Initialising with a control command.
    S5,
    /// Initial.
    S6,
}

impl FopMode {
    ghost use Rattle.std.specs.Prelude.{◌≡◌};
    ghost use Rattle.cop1.specs.Names.{fop_mode_name};

    /// Returns the state's name in the standard.
    pub fn name(self) -> &'static str
        ensures { result.now ≡ fop_mode_name self }
    {
        match self {
            FopMode::S1 => "S1",
            FopMode::S2 => "S2",
            FopMode::S3 => "S3",
            FopMode::S4 => "S4",
            FopMode::S5 => "S5",
            FopMode::S6 => "S6",
        }
    }
}

/// Why the sender has given up (CCSDS 232.1-B-2, 5.2.5).
#[derive(Clone, Copy, Debug, PartialEq, Eq)]
pub enum Alert {
    /// The lockout flag of a CLCW is set.
    Lockout,
    /// The value of a CLCW is not a number from NN(R) to V(S).
    NnR,
    /// The wait flag of a CLCW is set without the retransmit flag.
    Clcw,
    /// A CLCW requests retransmission when there is nothing to retransmit, or no longer requests it
    /// before anything was acknowledged.
    Synch,
    /// A CLCW requests retransmission, and each unit may be sent only once.
    Limit,
    /// The timer has expired, and nothing may be sent again.
    Timer,
    /// The directive Terminate.
    Terminated,
}

/// A directive to the sender (CCSDS 232.1-B-2, 5.2.4).
#[derive(Clone, Copy, Debug, PartialEq, Eq)]
pub enum Directive {
    /// Initiate without CLCW check.
    InitWithoutCheck,
    /// Initiate with CLCW check: once a CLCW has the value V(S).
    InitWithCheck,
    /// Initiate by the control command Unlock.
    InitUnlock,
    /// Initiate by the control command Set V(R), with this number.
    InitSetVr(u8),
    /// Give up.
    Terminate,
    /// Set V(S) and NN(R) to this number.
    SetVs(u8),
    /// Set the window K, 1 to half the receiver's window width.
    SetWindow(u8),
    /// Set the transmission limit, 1 to 255.
    SetLimit(u8),
    /// Set the timer's value, 1 to 65,535 ticks.
    SetTimer(u16),
}

/// The control command of S5, and whether it must still be sent.
#[derive(Clone, Copy, Debug, PartialEq, Eq)]
pub enum Control {
    /// There is none.
    Idle,
    /// This one must still be sent.
    Due(Command),
    /// This one was sent.
    Sent(Command),
}

impl Alert {
    ghost use Rattle.std.specs.Prelude.{◌≡◌};
    ghost use Rattle.cop1.specs.Names.{alert_row};
    ghost use Rattle.cop1.specs.Alerts.{shows_broken, advice};

    /// Returns the alert's name, as it is written here.
    pub fn name(self) -> &'static str
        ensures { result.now ≡ (alert_row self).1 }
    {
        match self {
            Alert::Lockout => "Lockout",
            Alert::NnR => "NnR",
            Alert::Clcw => "Clcw",
            Alert::Synch => "Synch",
            Alert::Limit => "Limit",
            Alert::Timer => "Timer",
            Alert::Terminated => "Terminated",
        }
    }

    /// Returns whether the alert shows that a condition of the link is broken: true for Lockout,
    /// NnR, Clcw and Synch. None of these can occur in a confirmed session, begun with CLCW check,
    /// by Unlock or by Set V(R), while the conditions hold. So there was a restart on board, the
    /// link reorders or repeats frames, or there is a second station. Before a session is
    /// confirmed, the cause may also be what an earlier session left, like a receiver in Lockout.
    /// Limit and Timer result from frames or CLCWs that are lost or late, or from a board without
    /// room. Terminated results from its directive (CCSDS 232.1-B-2, 5.2.5).
    pub fn shows_a_broken_condition(self) -> bool
        ensures { result ≡ shows_broken self }
    {
        match self {
            Alert::Lockout | Alert::NnR | Alert::Clcw | Alert::Synch => true,
            Alert::Limit | Alert::Timer | Alert::Terminated => false,
        }
    }

    /// Returns a text for people: what to look for after the alert, and how to recover.
    pub fn advice(self) -> &'static str
        ensures { result.now ≡ advice self }
    {
        match self {
            Alert::Lockout | Alert::NnR | Alert::Clcw | Alert::Synch => {
                "a condition is broken (restart on board, reordering, second station?): begin anew"
            }
            Alert::Limit | Alert::Timer => {
                "frames or CLCWs were lost or late, or the board has no room: after a silent round trip, resume by a newer CLCW, if the boot count is the same"
            }
            Alert::Terminated => {
                "the session was terminated: after a silent round trip, resume by a newer CLCW, if the boot count is the same"
            }
        }
    }
}
