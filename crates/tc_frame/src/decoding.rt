// Reading octets as a frame.

ghost use Rattle.std.specs.Prelude.{◌≡◌, ◌<◌, ◌≤◌, ◌/◌, ◌%◌, ◌^◌, ◌==◌, length, IfOk, Ok};
ghost use Rattle.octets.specs.Outcome.{map_ok};
ghost use Rattle.tc_frame.specs.Layout.{FrameView, frame_view, body_view, segment_view, check_length, IsTcFrame};
ghost use Rattle.tc_frame.specs.Decoding.{flags_at, segment_at, command_at, body_at, is_check_wrong, frame_at};

use crate::fault::TcFault;
use crate::frame::{Body, Check, Command, Segment, SegmentFlags, SegmentHeader, TcFrame};
use octets::{check_holds, first_two};

/// Reads all of the octets as one frame, with or without the FECF at its end (CCSDS 232.0-B-4, 4.1). The
/// frame borrows its data from the octets. Refuses with the first fault that applies.
/// Faults: 1 Short, 2 Version, 3 ReservedType, 4 Spare, 5 Length, 6 Check, 7 BypassNumber, 8 EmptyData,
/// 9 Command. Cost: n.
#[inline(always)]
#[tactic(auto, using(crate::proofs::Spelled::frame_again))]
pub fn decode(octets: &[u8], check: Check) -> Result<TcFrame<'_>, TcFault>
    ensures answer { map_ok frame_view result ≡ frame_at check octets.now }

    // It is a frame exactly when the octets spell one.
    ensures found { IfOk result (λ f. IsTcFrame check (frame_view f) octets.now) }
    ensures only { (f : FrameView) → IsTcFrame check f octets.now
        → map_ok frame_view result ≡ Ok f }
{
    frame_of(octets, check)
}

#[inline(always)]
#[tactic(auto, unfolding(crate::specs::Decoding::frame_at))]
fn frame_of(octets: &[u8], check: Check) -> Result<TcFrame<'_>, TcFault>
    ensures { map_ok frame_view result ≡ frame_at check octets.now }
{
    if octets.len() < 5 {
        return Err(TcFault::Short);
    }
    let first = first_two(octets);
    let second = first_two(&octets[2..]);
    if first >> 14 != 0 {
        return Err(TcFault::Version);
    }
    if (first >> 12) & 3 == 1 {
        return Err(TcFault::ReservedType);
    }
    if (first >> 10) & 3 != 0 {
        return Err(TcFault::Spare);
    }
    let total = low_ten(second) as usize + 1;
    let check_len = len_of_check(check);
    if total != octets.len() || total < 5 + check_len {
        return Err(TcFault::Length);
    }
    if has_wrong_check(octets, check) {
        return Err(TcFault::Check);
    }
    let bypass = flag_at(first, 13);
    let control = flag_at(first, 12);
    let front = &octets[..octets.len() - check_len];
    let body = body_of(bypass, control, octets[4], &front[5..])?;
    Ok(TcFrame {
        scid: low_ten(first),
        vcid: (second >> 10) as u8,
        body,
    })
}

#[inline(always)]
#[tactic(auto, unfolding(crate::specs::Decoding::body_at))]
fn body_of(bypass: bool, control: bool, n: u8, field: &[u8]) -> Result<Body<'_>, TcFault>
    ensures { map_ok body_view result ≡ body_at bypass control n field.now }
{
    if bypass && n != 0 {
        return Err(TcFault::BypassNumber);
    }
    if control {
        return Ok(Body::Bc(command_of(field)?));
    }
    let segment = segment_of(field)?;
    if bypass {
        Ok(Body::Bd { segment })
    } else {
        Ok(Body::Ad { n, segment })
    }
}

#[inline(always)]
#[tactic(auto, unfolding(crate::specs::Decoding::command_at))]
fn command_of(field: &[u8]) -> Result<Command, TcFault>
    ensures { result ≡ command_at field.now }
{
    match field {
        [] => Err(TcFault::EmptyData),
        [0x00] => Ok(Command::Unlock),
        [0x82, 0x00, number] => Ok(Command::SetVr(*number)),
        _ => Err(TcFault::Command),
    }
}

#[inline(always)]
#[tactic(auto, unfolding(crate::specs::Decoding::segment_at))]
fn segment_of(field: &[u8]) -> Result<Segment<'_>, TcFault>
    ensures { map_ok segment_view result ≡ segment_at field.now }
{
    match field {
        [] | [_] => Err(TcFault::EmptyData),
        [header, payload @ ..] => Ok(Segment {
            header: header_of(*header),
            payload,
        }),
    }
}

fn header_of(octet: u8) -> SegmentHeader
    ensures flags { result.flags ≡ flags_at (octet / 64) }
    ensures map { result.map ≡ octet % 64 }
{
    SegmentHeader {
        flags: SegmentFlags::with_code(octet >> 6),
        map: octet & 0x3f,
    }
}

fn flag_at(first: u16, place: u16) -> bool
    requires { place < 16 }
    ensures { result ≡ (first / 2 ^ place % 2 == 1) }
{
    (first >> place) & 1 == 1
}

pub(crate) fn low_ten(number: u16) -> u16
    ensures { result ≡ number % 1024 }
{
    number & 0x3ff
}

fn has_wrong_check(octets: &[u8], check: Check) -> bool
    requires { 2 ≤ length octets.now }
    ensures { result ≡ is_check_wrong check octets.now }
{
    match check {
        Check::On => !check_holds(octets),
        Check::Off => false,
    }
}

pub(crate) fn len_of_check(check: Check) -> usize
    ensures { result ≡ check_length check }
{
    match check {
        Check::On => 2,
        Check::Off => 0,
    }
}
