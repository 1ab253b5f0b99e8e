// Reading octets as a frame.

ghost use Rattle.std.specs.Prelude.{◌≡◌, ◌≤◌, ◌+◌, ◌-◌, ◌%◌, length, IfOk, Ok};
ghost use Rattle.octets.specs.Outcome.{map_ok};
ghost use Rattle.tm_link.specs.Layout.{FrameView, frame_view, IsTmFrame};
ghost use Rattle.tm_link.specs.Decoding.{is_length_wrong, is_check_wrong, is_pointer_outside, pointer_at, four_at, frame_with, frame_at};

use crate::fault::TmFault;
use crate::frame::{Pointer, TmFrame};
use octets::{check_holds, first_two, low_eleven};

/// Reads all of the octets as one frame of `length` octets, 12 more than its data (CCSDS 132.0-B-3,
/// 4.1). Returns the frame, which borrows its data from the octets, or the first fault that
/// applies. A length outside 16 to 2,048 is the fault 1 `Length`.
/// Faults: 1 Length, 2 Version, 3 Check, 4 Status, 5 Pointer, 6 NoOcf. Cost: n.
#[tactic(auto, using(crate::proofs::Spelled::frame_again))]
pub fn decode(octets: &[u8], length: usize) -> Result<TmFrame<'_>, TmFault>
    ensures answer { map_ok frame_view result ≡ frame_at length octets.now }

    // The result is a frame exactly when the octets spell one.
    ensures found { IfOk result (λ f. IsTmFrame length (frame_view f) octets.now) }
    ensures only { (f : FrameView) → IsTmFrame length f octets.now
        → map_ok frame_view result ≡ Ok f }
{
    frame_of(octets, length)
}

#[tactic(auto, unfolding(crate::specs::Decoding::frame_at))]
fn frame_of(octets: &[u8], total: usize) -> Result<TmFrame<'_>, TmFault>
    ensures { map_ok frame_view result ≡ frame_at total octets.now }
{
    if is_wrong_length(total, octets.len()) {
        return Err(TmFault::Length);
    }
    let first = first_two(octets);
    let status = first_two(&octets[4..]);
    if first >> 14 != 0 {
        return Err(TmFault::Version);
    }
    if has_wrong_check(octets) {
        return Err(TmFault::Check);
    }
    if status >> 11 != 3 {
        return Err(TmFault::Status);
    }
    if is_out_of_data(low_eleven(status), total - 12) {
        return Err(TmFault::Pointer);
    }
    if first % 2 == 0 {
        return Err(TmFault::NoOcf);
    }
    Ok(fields_of(octets, total, first, status))
}

// Returns the fields of a frame with this many octets, from the numbers of octets 0 and 1 and of
// octets 4 and 5.
fn fields_of(octets: &[u8], total: usize, first: u16, status: u16) -> TmFrame<'_>
    requires least { 16 ≤ total }
    requires count { length octets.now ≡ total }
    ensures { frame_view result ≡ frame_with total first status octets.now }
{
    let front = &octets[..total - 6];
    TmFrame {
        scid: first >> 4,
        vcid: low_three(first >> 1),
        mc_count: octets[2],
        vc_count: octets[3],
        pointer: pointer_of(low_eleven(status)),
        payload: &front[6..],
        ocf: four_of(octets, total - 6),
    }
}

fn is_wrong_length(total: usize, count: usize) -> bool
    ensures { result ≡ is_length_wrong total count }
{
    count != total || total < 16 || 2048 < total
}

fn has_wrong_check(octets: &[u8]) -> bool
    requires { 2 ≤ length octets.now }
    ensures { result ≡ is_check_wrong octets.now }
{
    !check_holds(octets)
}

fn is_out_of_data(number: u16, size: usize) -> bool
    ensures { result ≡ is_pointer_outside number size }
{
    number < 2046 && size <= usize::from(number)
}

fn pointer_of(number: u16) -> Pointer
    ensures { result ≡ pointer_at number }
{
    match number {
        2046 => Pointer::OnlyIdle,
        2047 => Pointer::NoStart,
        _ => Pointer::At(number),
    }
}

fn four_of(octets: &[u8], place: usize) -> [u8; 4]
    requires { place + 4 ≤ length octets.now }
    ensures { result ≡ four_at octets.now place }
{
    [
        octets[place],
        octets[place + 1],
        octets[place + 2],
        octets[place + 3],
    ]
}

fn low_three(number: u16) -> u8
    ensures { result ≡ number % 8 }
{
    (number & 7) as u8
}
