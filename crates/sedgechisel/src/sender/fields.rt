// The sender that fields describe, and the fields that describe a sender.

ghost use Rattle.std.specs.Prelude.{◌≡◌, Ok};
ghost use Rattle.octets.specs.Outcome.{map_ok};
ghost use Rattle.cop1.specs.SenderFields.{numbers_of};
ghost use Rattle.sedgechisel.specs.Senders.{mode_number, ticks_number, control_number, control_vr, kept_of, mode_at, ticks_at, control_at, flag_at, fields_described, sender_described};

use super::KeptSender;
use crate::numbers::DAMAGED;
use crate::receiver::number_of_flag;
use cop1::{Control, FopMode, Sender, SenderFields};
use tc_frame::Command;

// The sender that the fields describe, unless they are damaged.
#[inline(always)]
#[tactic(auto, using(crate::proofs::SenderFields::described_some, crate::proofs::SenderFields::described_none))]
pub(super) fn described(sender: &KeptSender) -> Result<Sender, u8>
    ensures { result ≡ sender_described sender.now }
{
    let Ok(fields) = fields_from(sender) else {
        return Err(DAMAGED);
    };
    match Sender::restore(fields) {
        Ok(machine) => Ok(machine),
        Err(_) => Err(DAMAGED),
    }
}

// What C keeps of a sender.
#[inline(always)]
#[tactic(auto, using(crate::proofs::SenderFields::kept_describes))]
pub(super) fn kept(machine: &Sender) -> KeptSender
    ensures fields { result ≡ kept_of machine.now }
    ensures describes { sender_described result ≡ Ok machine.now }
{
    fields_with(machine.fields())
}

fn fields_with(fields: SenderFields) -> KeptSender
    ensures { result ≡ kept_of (numbers_of fields) }
{
    KeptSender {
        timer: fields.timer,
        ticks: number_of_ticks(fields.ticks),
        room: fields.room,
        state: number_of_mode(fields.state),
        vs: fields.vs,
        nn: fields.nn,
        waiting: number_of_flag(fields.waiting),
        sent: fields.sent,
        due: fields.due,
        window: fields.window,
        limit: fields.limit,
        count: fields.count,
        control: number_of_control(fields.control),
        vr: number_with(fields.control),
    }
}

fn fields_from(sender: &KeptSender) -> Result<SenderFields, u8>
    ensures { map_ok numbers_of result ≡ fields_described sender.now }
{
    let Some(state) = mode_from(sender.state) else {
        return Err(DAMAGED);
    };
    let Some(waiting) = flag_from(sender.waiting) else {
        return Err(DAMAGED);
    };
    let Some(control) = control_from(sender.control, sender.vr) else {
        return Err(DAMAGED);
    };
    Ok(SenderFields {
        room: sender.room,
        state,
        vs: sender.vs,
        nn: sender.nn,
        waiting,
        sent: sender.sent,
        due: sender.due,
        window: sender.window,
        limit: sender.limit,
        timer: sender.timer,
        ticks: ticks_from(sender.ticks),
        count: sender.count,
        control,
    })
}

fn mode_from(number: u8) -> Option<FopMode>
    ensures { result ≡ mode_at number }
{
    match number {
        1 => Some(FopMode::S1),
        2 => Some(FopMode::S2),
        3 => Some(FopMode::S3),
        4 => Some(FopMode::S4),
        5 => Some(FopMode::S5),
        6 => Some(FopMode::S6),
        _ => None,
    }
}

// S1 is 1.
fn number_of_mode(mode: FopMode) -> u8
    ensures { result ≡ mode_number mode }
{
    mode as u8 + 1
}

fn flag_from(number: u8) -> Option<bool>
    ensures { result ≡ flag_at number }
{
    match number {
        0 => Some(false),
        1 => Some(true),
        _ => None,
    }
}

fn ticks_from(number: u16) -> Option<u16>
    ensures { result ≡ ticks_at number }
{
    if number == 0 {
        return None;
    }
    Some(number)
}

fn number_of_ticks(ticks: Option<u16>) -> u16
    ensures { result ≡ ticks_number ticks }
{
    match ticks {
        None => 0,
        Some(left) => left,
    }
}

fn control_from(number: u8, vr: u8) -> Option<Control>
    ensures { result ≡ control_at number vr }
{
    match number {
        3 => return Some(Control::Due(Command::SetVr(vr))),
        4 => return Some(Control::Sent(Command::SetVr(vr))),
        _ => {}
    }
    if vr != 0 {
        return None;
    }
    match number {
        0 => Some(Control::Idle),
        1 => Some(Control::Due(Command::Unlock)),
        2 => Some(Control::Sent(Command::Unlock)),
        _ => None,
    }
}

fn number_of_control(control: Control) -> u8
    ensures { result ≡ control_number control }
{
    match control {
        Control::Idle => 0,
        Control::Due(Command::Unlock) => 1,
        Control::Sent(Command::Unlock) => 2,
        Control::Due(Command::SetVr(_)) => 3,
        Control::Sent(Command::SetVr(_)) => 4,
    }
}

fn number_with(control: Control) -> u8
    ensures { result ≡ control_vr control }
{
    match control {
        Control::Due(Command::SetVr(number)) | Control::Sent(Command::SetVr(number)) => number,
        _ => 0,
    }
}
