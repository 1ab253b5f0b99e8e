// The sender, FOP-1, whose numbers the caller keeps.

mod accepted;
mod directive;
mod fields;

ghost use Rattle.std.specs.Prelude.{◌≡◌};
ghost use Rattle.cop1.specs.NumbersStep.{Submit, Next, Tick};
ghost use Rattle.sedgechisel.specs.Answers.{left_by};
ghost use Rattle.sedgechisel.specs.Receivers.{answer_of};
ghost use Rattle.sedgechisel.specs.Senders.{kept_of, sender_opened, stepped, after_step, submitted, reported, after_report, alert_answer, next_answer, next_number, AreDescribed, IsAnswered};

use crate::numbers::ABSENT;
use clcw::Clcw;
use cop1::{Alert, Sender, SenderNext};
use fields::{described, kept};
use tc_frame::Command;

/// A sender (CCSDS 232.1-B-2, 5.1): the numbers of `cop1::SenderFields`. The ticks are 0 if the timer is off.
/// The state is 1 for S1 to 6 for S6. The control command is 0 for none, 1 for an Unlock that is due and 2
/// for an Unlock that was sent, 3 and 4 likewise for Set V(R) with the number `vr`. For C it is `struct
/// sedge_fop`.
#[repr(C)]
#[derive(Clone, Copy)]
pub struct KeptSender {
    /// The timer's value in ticks, at least 1.
    pub timer: u16,
    /// The ticks that are left while the timer runs, or 0 while it is off.
    pub ticks: u16,
    /// Half the receiver's window width, 1 to 127: the maximum number of units sent and not acknowledged.
    pub room: u8,
    /// Of `sedge_fop_state`.
    pub state: u8,
    /// V(S), the number of the next unit to be sent for the first time.
    pub vs: u8,
    /// NN(R), the number that the receiver was last known to expect.
    pub nn: u8,
    /// Whether a unit waits to be sent for the first time, 0 or 1.
    pub waiting: u8,
    /// The number of units sent and not acknowledged, at most room.
    pub sent: u8,
    /// How many of these, the last ones, are due to be retransmitted.
    pub due: u8,
    /// The window K, 1 to room.
    pub window: u8,
    /// The transmission limit, at least 1.
    pub limit: u8,
    /// The transmission count, at least 1.
    pub count: u8,
    /// Of `sedge_control`.
    pub control: u8,
    /// The number of the control command Set V(R), or 0 if there is no such command.
    pub vr: u8,
}

/// Begins a sender in state S6 with V(S) = NN(R) = 0, for a receiver of this window width, with the window K,
/// the transmission limit and the timer's value in ticks. Returns 0, or the first of `SEDGE_COP_WIDTH` (not
/// even, 2 to 254), `SEDGE_COP_WINDOW` (not 1 to half the width), `SEDGE_COP_LIMIT` (0) and `SEDGE_COP_TIMER`
/// (0).
#[unsafe(no_mangle)]
#[must_use]
pub extern "C" fn sedge_fop_open(
    sender: &mut KeptSender,
    width: u8,
    window: u8,
    limit: u8,
    timer: u16,
) -> u8
    ensures { IsAnswered (sender_opened width window limit timer) sender.old sender.new result }
{
    written!(
        Sender::new(width, window, limit, timer),
        |opened| *sender = kept(&opened)
    )
}

/// Submits a unit to be sent under sequence control. The unit waits, and the caller keeps it. Returns 0, or
/// `SEDGE_DAMAGED`, or `SEDGE_COP_NOT_OPEN` in S6, or `SEDGE_COP_BUSY` while another unit waits.
#[unsafe(no_mangle)]
#[must_use]
pub extern "C" fn sedge_fop_submit(sender: &mut KeptSender) -> u8
    ensures { IsAnswered (submitted sender.old) sender.old sender.new result }
{
    match described(sender) {
        Ok(mut machine) => written!(machine.submit(), |()| *sender = kept(&machine)),
        Err(number) => number,
    }
}

/// Takes what is to be sent on the link next. Returns what this is, of `sedge_next`, and writes its number,
/// or 0 if it has none; or returns `SEDGE_DAMAGED`, with nothing written.
#[unsafe(no_mangle)]
#[must_use]
pub extern "C" fn sedge_fop_next(sender: &mut KeptSender, number: &mut u8) -> u8
    ensures answer { result ≡ answer_of (λ o. next_answer o.answer) (stepped sender.old Next) }
    ensures number { number.new
        ≡ left_by (λ o. next_number o.answer) (stepped sender.old Next) number.old }
    ensures sender { sender.new ≡ left_by kept_of (after_step sender.old Next) sender.old }
    ensures describes { AreDescribed sender.new (after_step sender.old Next) }
{
    step!(sender, |machine| {
        let next = machine.next();
        *number = number_with(next);
        number_of_next(next)
    })
}

/// Takes a CLCW for the sender of the virtual channel `vcid`. The call compares this number with the CLCW's
/// `vcid`; the caller has already compared the scid of the telemetry frame that carried the CLCW. Returns the
/// alert, of `sedge_alert`, and writes how many units are acknowledged, the oldest of those sent. Writes and
/// changes nothing, and returns `SEDGE_ABSENT` if the CLCW reports on another channel, or else
/// `SEDGE_DAMAGED` if a struct is damaged.
#[unsafe(no_mangle)]
#[must_use]
pub extern "C" fn sedge_fop_clcw(
    sender: &mut KeptSender,
    vcid: u8,
    word: &Clcw,
    released: &mut u8,
) -> u8
    ensures answer { result ≡ answer_of
        (λ o. alert_answer o.answer) (reported sender.old vcid word.now) }
    ensures released { released.new
        ≡ left_by (λ o. o.gone) (reported sender.old vcid word.now) released.old }
    ensures sender { sender.new
        ≡ left_by kept_of (after_report sender.old vcid word.now) sender.old }
    ensures describes { AreDescribed sender.new (after_report sender.old vcid word.now) }
{
    if word.vcid != vcid {
        return ABSENT;
    }
    step!(sender, |machine| {
        let answer = machine.report(word);
        *released = answer.released;
        number_of_alert(answer.alert)
    })
}

/// Counts a tick of the clock. Returns the alert, of `sedge_alert`, or `SEDGE_DAMAGED`.
#[unsafe(no_mangle)]
#[must_use]
pub extern "C" fn sedge_fop_tick(sender: &mut KeptSender) -> u8
    ensures answer { result ≡ answer_of (λ o. alert_answer o.answer) (stepped sender.old Tick) }
    ensures sender { sender.new ≡ left_by kept_of (after_step sender.old Tick) sender.old }
    ensures describes { AreDescribed sender.new (after_step sender.old Tick) }
{
    step!(sender, |machine| number_of_alert(machine.tick()))
}

// Lockout is 1.
fn number_of_alert(alert: Option<Alert>) -> u8
    ensures { result ≡ alert_answer alert }
{
    match alert {
        None => 0,
        Some(alert) => alert as u8 + 1,
    }
}

fn number_of_next(next: SenderNext) -> u8
    ensures { result ≡ next_answer next }
{
    match next {
        SenderNext::Nothing => 0,
        SenderNext::Control(Command::Unlock) => 1,
        SenderNext::Control(Command::SetVr(_)) => 2,
        SenderNext::First(_) => 3,
        SenderNext::Again(_) => 4,
    }
}

fn number_with(next: SenderNext) -> u8
    ensures { result ≡ next_number next }
{
    match next {
        SenderNext::Nothing | SenderNext::Control(Command::Unlock) => 0,
        SenderNext::Control(Command::SetVr(number)) => number,
        SenderNext::First(number) | SenderNext::Again(number) => number,
    }
}
