// The sender's rules, FOP-1, over numbers only.

mod directive;
mod pull;
mod report;
mod restore;
mod submit;
mod tick;
mod words;

use crate::fault::CopFault;
use crate::vocabulary::{Control, FopMode};
pub use pull::SenderNext;
pub use report::ReportAnswer;
use std::marker::Model;

/// The numbers of a sender (CCSDS 232.1-B-2, 5.1). A node may keep them and continue from them.
#[derive(Clone, Copy, Debug, PartialEq, Eq)]
pub struct SenderFields {
    /// Half the receiver's window width, 1 to 127: the maximum number of units that are sent and
    /// not acknowledged.
    pub room: u8,
    /// The state.
    pub state: FopMode,
    /// V(S), the number of the next unit to be sent for the first time.
    pub vs: u8,
    /// NN(R), the number that the receiver was last known to expect.
    pub nn: u8,
    /// Whether a unit waits to be sent for the first time.
    pub waiting: bool,
    /// How many units are sent and not acknowledged: in S1 to S5 those from NN(R) to V(S) - 1.
    pub sent: u8,
    /// How many of the last of these are due to be retransmitted.
    pub due: u8,
    /// The window K, 1 to half the receiver's window width.
    pub window: u8,
    /// The transmission limit, 1 to 255.
    pub limit: u8,
    /// The timer's value, 1 to 65,535 ticks.
    pub timer: u16,
    /// The ticks that are left, at least 1, if the timer runs.
    pub ticks: Option<u16>,
    /// The transmission count, 1 to 255.
    pub count: u8,
    /// The control command of S5.
    pub control: Control,
}

/// The rules of the sender of one virtual channel, FOP-1 (CCSDS 232.1-B-2, section 5, in this
/// project's profile). The caller keeps the units: the one that waits, and those that are sent,
/// under their numbers. No call takes memory.
#[derive(Clone, Copy)]
pub struct Sender {
    fields: SenderFields,
}

impl Model for Sender {
    ghost use Rattle.cop1.specs.Numbers.{SenderNumbers};

    ghost Value = { SenderNumbers };

    ghost use Rattle.cop1.specs.Numbers.{IsSender};
    ghost use Rattle.cop1.specs.SenderFields.{numbers_of, fields_of};

    ghost view = { λ s. numbers_of s.fields };

    ghost invariant = { λ s. IsSender (numbers_of s.fields) };

    ghost inverse = { λ s. record { fields = fields_of s } };
}

impl Sender {
    ghost use Rattle.std.specs.Prelude.{◌≡◌, IfSome, Ok, Err, None};
    ghost use Rattle.cop1.specs.Numbers.{new_sender};
    ghost use Rattle.cop1.specs.FopNew.{new_fault};

    /// Creates a sender in its state S6 with V(S) and NN(R) 0, for a receiver of this window width
    /// (CCSDS 232.1-B-2, 5.1). It has the window `window` (K), this transmission limit and this
    /// timer's value in ticks. Refuses with the first fault that applies: 1 Width (not an even
    /// number from 2 to 254), 2 Window (not from 1 to half the width), 3 Limit (0), 4 Timer (0).
    /// Faults: 1 Width, 2 Window, 3 Limit, 4 Timer.
    pub fn new(width: u8, window: u8, limit: u8, timer: u16) -> Result<Sender, CopFault>
        ensures made { new_fault width window limit timer ≡ None
            → result ≡ Ok (new_sender width window limit timer) }
        ensures refused { IfSome (new_fault width window limit timer)
            (λ fault. result ≡ Err fault) }
    {
        if width == 0 || width % 2 == 1 {
            return Err(CopFault::Width);
        }
        if window == 0 || window > width / 2 {
            return Err(CopFault::Window);
        }
        if limit == 0 {
            return Err(CopFault::Limit);
        }
        if timer == 0 {
            return Err(CopFault::Timer);
        }
        Ok(Sender {
            fields: SenderFields {
                room: width / 2,
                state: FopMode::S6,
                vs: 0,
                nn: 0,
                waiting: false,
                sent: 0,
                due: 0,
                window,
                limit,
                timer,
                ticks: None,
                count: 1,
                control: Control::Idle,
            },
        })
    }
}
