// A sender from numbers that were kept.

ghost use Rattle.std.specs.Prelude.{◌≡◌, ◌↔◌, IsTrue, IsOk, IfOk, IfErr};
ghost use Rattle.cop1.specs.Numbers.{IsSender, HasRanges, AgreesWithState, IsCommanding, SetsTo};
ghost use Rattle.cop1.specs.SenderFields.{numbers_of};

use super::{Sender, SenderFields};
use crate::fault::CopFault;
use crate::vocabulary::{Control, FopMode};
use tc_frame::Command;

impl Sender {
    /// Creates the sender with these numbers, which `fields` returned. Refuses numbers that no
    /// sender reaches; only the transmission count may be any from 1. So a sender can continue: if
    /// it awaits something, the timer runs or a command is due.
    /// Faults: 9 State.
    #[inline(always)]
    pub fn restore(fields: SenderFields) -> Result<Sender, CopFault>
        ensures fields { IfOk result (λ s. s ≡ numbers_of fields) }
        ensures kept { IsOk result ↔ IsSender (numbers_of fields) }
        ensures fault { IfErr result (λ e. e ≡ CopFault.State) }
    {
        if has_ranges(fields) && agrees_with_state(fields) {
            Ok(Sender { fields })
        } else {
            Err(CopFault::State)
        }
    }

    /// Returns the sender's current numbers.
    #[inline(always)]
    pub fn fields(&self) -> SenderFields
        ensures fields { numbers_of result ≡ self.now }
        ensures holds { IsSender self.now }
    {
        self.fields
    }
}

#[inline(always)]
fn has_ranges(fields: SenderFields) -> bool
    ensures { IsTrue result ↔ HasRanges (numbers_of fields) }
{
    fields.room <= 127
        && fields.window >= 1
        && fields.window <= fields.room
        && fields.vs.wrapping_sub(fields.nn) <= fields.room
        && fields.sent <= fields.room
        && fields.due <= fields.sent
        && fields.limit >= 1
        && fields.timer >= 1
        && fields.ticks != Some(0)
        && fields.count >= 1
}

#[inline(always)]
fn agrees_with_state(fields: SenderFields) -> bool
    ensures { IsTrue result ↔ AgreesWithState (numbers_of fields) }
{
    let is_numbered = fields.sent == fields.vs.wrapping_sub(fields.nn);
    let is_idle = fields.control == Control::Idle;
    let runs = fields.ticks.is_some();
    match fields.state {
        FopMode::S1 => is_numbered && is_idle && runs == (fields.sent > 0),
        FopMode::S2 | FopMode::S3 => is_numbered && is_idle && runs && fields.sent > 0,
        FopMode::S4 => is_numbered && is_idle && runs && fields.sent == 0,
        FopMode::S5 => is_numbered
            && fields.sent == 0
            && is_commanding(fields.vs, runs, fields.control),
        FopMode::S6 => fields.sent == 0 && !fields.waiting && is_idle && !runs,
    }
}

#[inline(always)]
fn is_commanding(vs: u8, runs: bool, control: Control) -> bool
    ensures { IsTrue result ↔ IsCommanding vs runs control }
{
    match control {
        Control::Idle => false,
        Control::Due(command) => sets_to(vs, command),
        Control::Sent(command) => runs && sets_to(vs, command),
    }
}

#[inline(always)]
fn sets_to(vs: u8, command: Command) -> bool
    ensures { IsTrue result ↔ SetsTo vs command }
{
    match command {
        Command::Unlock => true,
        Command::SetVr(vr) => vr == vs,
    }
}
