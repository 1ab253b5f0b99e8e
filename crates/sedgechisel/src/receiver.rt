// The receiver, FARM-1, whose state the caller keeps.

ghost use Rattle.std.specs.Prelude.{◌≡◌};
ghost use Rattle.cop1.specs.Farm.{AdArrives, BdArrives, UnlockArrives, SetVrArrives, BufferReleased, verdict_of, new_farm};
ghost use Rattle.octets.specs.Outcome.{map_ok};
ghost use Rattle.sedgechisel.specs.Answers.{left_by, IsWritten};
ghost use Rattle.sedgechisel.specs.Receivers.{receiver_of, farm_described, farm_opened, farm_stepped, IsStepped, farm_report, answer_of, verdict_number, mode_number, flag_number};

use crate::numbers::DAMAGED;
use clcw::{Clcw, ClcwFault};
use cop1::{Farm, FarmFields, FarmMode, Verdict};

/// A receiver (CCSDS 232.1-B-2, 6.1): its window width, V(R), the flags, each 0 or 1, and FARM-B. For C it is
/// `struct sedge_farm`.
#[repr(C)]
#[derive(Clone, Copy)]
pub struct Receiver {
    /// The width of both windows together; each is half of it.
    pub width: u8,
    /// V(R), the number of the next frame to be accepted.
    pub vr: u8,
    /// The flags, 0 or 1.
    pub lockout: u8,
    pub wait: u8,
    pub retransmit: u8,
    /// FARM-B, the count of Type-B frames modulo 4.
    pub farm_b: u8,
}

/// Begins a receiver in state Open, with all flags 0 and FARM-B 0, that expects the number `vr`. Returns 0,
/// or `SEDGE_COP_WIDTH`.
#[unsafe(no_mangle)]
#[must_use]
pub extern "C" fn sedge_farm_open(receiver: &mut Receiver, width: u8, vr: u8) -> u8
    ensures { IsWritten receiver_of (farm_opened width vr) receiver.old receiver.new result }
{
    written!(Farm::new(width, vr), |farm| *receiver = kept(&farm))
}

/// Judges a Type-AD frame whose number N(S) is `n`; `buffer_free` states whether there is room for its data.
/// Returns the verdict, of `sedge_verdict`, or `SEDGE_DAMAGED`. If the verdict is `SEDGE_ACCEPTED`, pass on
/// the frame's data.
#[unsafe(no_mangle)]
#[must_use]
pub extern "C" fn sedge_farm_ad(receiver: &mut Receiver, n: u8, buffer_free: bool) -> u8
    ensures answer { result ≡ answer_of verdict_number
        (map_ok (λ s. verdict_of s n buffer_free) (farm_described receiver.old)) }
    ensures receiver { receiver.new
        ≡ left_by receiver_of (farm_stepped receiver.old (AdArrives n buffer_free)) receiver.old }
{
    match described(receiver) {
        Ok(mut farm) => {
            let verdict = farm.ad(n, buffer_free);
            match verdict {
                Verdict::Accepted => {
                    receiver.vr = farm.vr();
                    receiver.retransmit = 0;
                }
                Verdict::Ahead => receiver.retransmit = 1,
                Verdict::NoBuffer => {
                    receiver.retransmit = 1;
                    receiver.wait = 1;
                }
                Verdict::Outside => receiver.lockout = 1,
                Verdict::Behind | Verdict::Discarded => {}
            }
            number_of_verdict(verdict)
        }
        Err(number) => number,
    }
}

/// Counts a Type-BD frame; pass on its data in every state. Returns 0, or `SEDGE_DAMAGED`.
#[unsafe(no_mangle)]
pub extern "C" fn sedge_farm_bd(receiver: &mut Receiver) -> u8
    ensures { IsStepped BdArrives receiver.old receiver.new result }
{
    step!(receiver, |farm| farm.bd(), 0)
}

/// Executes the control command Unlock. Returns 0, or `SEDGE_DAMAGED`.
#[unsafe(no_mangle)]
pub extern "C" fn sedge_farm_unlock(receiver: &mut Receiver) -> u8
    ensures { IsStepped UnlockArrives receiver.old receiver.new result }
{
    step!(receiver, |farm| farm.unlock(), 0)
}

/// Executes the control command Set V(R); in Lockout it is only counted in FARM-B, and V(R) does not change.
/// Returns 0, or `SEDGE_DAMAGED`.
#[unsafe(no_mangle)]
pub extern "C" fn sedge_farm_set_vr(receiver: &mut Receiver, vr: u8) -> u8
    ensures { IsStepped (SetVrArrives vr) receiver.old receiver.new result }
{
    step!(receiver, |farm| farm.set_vr(vr), 0)
}

/// Records that there is room on board again. Returns 0, or `SEDGE_DAMAGED`.
#[unsafe(no_mangle)]
pub extern "C" fn sedge_farm_released(receiver: &mut Receiver) -> u8
    ensures { IsStepped BufferReleased receiver.old receiver.new result }
{
    step!(receiver, |farm| farm.released(), 0)
}

/// Writes the CLCW (232.0-B-4, 4.2) that reports the receiver's present state for the virtual channel `vcid`;
/// the flags for the radio channel and bit lock are 0. Returns 0, or `SEDGE_DAMAGED`, or `SEDGE_CLCW_RANGE`
/// if `vcid` is not below 64.
#[unsafe(no_mangle)]
#[must_use]
pub extern "C" fn sedge_farm_control_word(receiver: &Receiver, vcid: u8, word: &mut Clcw) -> u8
    ensures { IsWritten (λ found. found) (farm_report receiver.now vcid) word.old word.new result }
{
    let Ok(farm) = described(receiver) else {
        return DAMAGED;
    };
    if vcid >= 64 {
        return ClcwFault::Range.number();
    }
    *word = farm.report(vcid);
    0
}

/// Returns the receiver's state, of `sedge_farm_mode`, or `SEDGE_DAMAGED`.
#[unsafe(no_mangle)]
#[must_use]
pub extern "C" fn sedge_farm_state(receiver: &Receiver) -> u8
    ensures { result ≡ answer_of mode_number (map_ok (λ s. s.state) (farm_described receiver.now)) }
{
    match described(receiver) {
        Ok(farm) => number_of_mode(farm.state()),
        Err(number) => number,
    }
}

#[inline(always)]
fn number_of_verdict(verdict: Verdict) -> u8
    ensures { result ≡ verdict_number verdict }
{
    verdict as u8
}

fn number_of_mode(mode: FarmMode) -> u8
    ensures { result ≡ mode_number mode }
{
    mode as u8
}

#[inline(always)]
pub(crate) fn number_of_flag(flag: bool) -> u8
    ensures { result ≡ flag_number flag }
{
    u8::from(flag)
}

// What C keeps of a receiver.
#[inline(always)]
fn kept(farm: &Farm) -> Receiver
    ensures { result ≡ receiver_of farm.now }
{
    let state = farm.fields();
    Receiver {
        width: state.width,
        vr: state.vr,
        lockout: number_of_flag(state.lockout),
        wait: number_of_flag(state.wait),
        retransmit: number_of_flag(state.retransmit),
        farm_b: state.farm_b,
    }
}

// The receiver that the fields describe, unless they are damaged.
#[inline(always)]
fn described(fields: &Receiver) -> Result<Farm, u8>
    ensures { result ≡ farm_described fields.now }
{
    if fields.lockout > 1 || fields.wait > 1 || fields.retransmit > 1 {
        return Err(DAMAGED);
    }
    let restored = Farm::restore(FarmFields {
        width: fields.width,
        vr: fields.vr,
        lockout: fields.lockout == 1,
        wait: fields.wait == 1,
        retransmit: fields.retransmit == 1,
        farm_b: fields.farm_b,
    });
    match restored {
        Ok(farm) => Ok(farm),
        Err(_) => Err(DAMAGED),
    }
}
