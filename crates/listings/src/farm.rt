// The line of each TC frame as a receiver takes it: the verdict, and the receiver's state after the
// frame.

ghost use Rattle.std.specs.Prelude.{◌≡◌, ◌+◌, ◌≤◌, ◌++◌, codes, decimal, length, take, OnOk, IfOk, is_ok};
ghost use Rattle.tc_frame.specs.Layout.{body_view, frame_view};
ghost use Rattle.tc_frame.specs.Decoding.{frame_at};
ghost use Rattle.tc_frame.specs.Splitter.{check_if};
ghost use Rattle.cop1.specs.Names.{verdict_row};
ghost use Rattle.listings.specs.Text.{Appends};
ghost use Rattle.cop1.specs.Names.{farm_mode_name};
ghost use Rattle.listings.specs.FarmLines.{flags_text, state_text, body_text, after_body, farm_line, after_record, farm_lines};

use crate::lines::{push_invalid, push_refused};
use crate::listing::Listing;
use crate::parts::{put_field, put_short_field, put_short_flag, put_word};
use crate::record_number::RecordNumber;
use crate::text::Text;
use cop1::{Farm, FarmMode, Verdict};
use octets::Splitter;
use std::alloc::AllocError;
use tc_frame::{Body, Command, FrameLayout, TcFault, check_if, decode};

#[inline(always)]
fn put_state(room: &mut [u8], at: usize, state: FarmMode) -> usize
    requires { at + 7 ≤ length room.old }
    ensures put { take result room.new ≡ take at room.old ++ farm_mode_name state }
    ensures next { result ≤ at + 7 }
{
    match state {
        FarmMode::Open => put_word::<4>(room, at, b"Open"),
        FarmMode::Wait => put_word::<4>(room, at, b"Wait"),
        FarmMode::Lockout => put_word::<4>(room, at, b"Lockout"),
    }
}

// Puts a verdict between spaces.
#[inline(always)]
fn put_verdict(room: &mut [u8], at: usize, verdict: Verdict) -> usize
    requires { at + 16 ≤ length room.old }
    ensures put { take result room.new ≡ take at room.old
        ++ (codes " " ++ ((verdict_row verdict).1 ++ codes " ")) }
    ensures next { result ≤ at + 11 }
{
    if verdict == Verdict::Accepted {
        return put_word::<8>(room, at, b" accepted ");
    }
    put_refusal(room, at, verdict)
}

#[inline(never)]
fn put_refusal(room: &mut [u8], at: usize, verdict: Verdict) -> usize
    requires { at + 16 ≤ length room.old }
    ensures put { take result room.new ≡ take at room.old
        ++ (codes " " ++ ((verdict_row verdict).1 ++ codes " ")) }
    ensures next { result ≤ at + 11 }
{
    match verdict {
        Verdict::Accepted => put_word::<8>(room, at, b" accepted "),
        Verdict::Ahead => put_word::<4>(room, at, b" ahead "),
        Verdict::NoBuffer => put_word::<8>(room, at, b" nobuffer "),
        Verdict::Behind => put_word::<8>(room, at, b" behind "),
        Verdict::Outside => put_word::<8>(room, at, b" outside "),
        Verdict::Discarded => put_word::<8>(room, at, b" discarded "),
    }
}

#[inline(always)]
fn put_flags(room: &mut [u8], at: usize, farm: &Farm) -> usize
    requires { at + 32 ≤ length room.old }
    ensures put { take result room.new ≡ take at room.old ++ flags_text farm.now }
    ensures next { result ≤ at + 32 }
{
    let next = put_short_flag(room, at, b" l=0", farm.lockout());
    let next = put_short_flag(room, next, b" w=0", farm.wait());
    let next = put_short_flag(room, next, b" t=0", farm.retransmit());
    let next = put_short_field(room, next, b" b=0", farm.farm_b());
    put_word::<1>(room, next, b"\n")
}

#[inline(always)]
fn put_receiver(room: &mut [u8], at: usize, farm: &Farm) -> usize
    requires { at + 64 ≤ length room.old }
    ensures put { take result room.new ≡ take at room.old ++ state_text farm.now }
    ensures next { result ≤ at + 64 }
{
    let next = put_state(room, at, farm.state());
    let next = put_field::<4>(room, next, b" vr=", farm.vr());
    put_flags(room, next, farm)
}

#[inline(always)]
fn put_ad(room: &mut [u8], at: usize, n: u8, verdict: Verdict) -> usize
    requires { at + 32 ≤ length room.old }
    ensures put { take result room.new ≡ take at room.old
        ++ (codes " AD " ++ (decimal n ++ (codes " " ++ ((verdict_row verdict).1 ++ codes " ")))) }
    ensures next { result ≤ at + 32 }
{
    let next = put_field::<4>(room, at, b" AD ", n);
    put_verdict(room, next, verdict)
}

#[inline(never)]
fn put_set_vr(room: &mut [u8], at: usize, vr: u8) -> usize
    requires { at + 32 ≤ length room.old }
    ensures put { take result room.new ≡ take at room.old
        ++ (codes " BC set " ++ (decimal vr ++ codes " ")) }
    ensures next { result ≤ at + 32 }
{
    let next = put_field::<8>(room, at, b" BC set ", vr);
    put_word::<1>(room, next, b" ")
}

/// Gives a frame to the receiver, whose buffer is free.
pub fn give(farm: &mut Farm, body: &Body)
    ensures { farm.new ≡ after_body farm.old (body_view body.now) }
{
    match body {
        Body::Ad { n, .. } => {
            farm.ad(*n, true);
        }
        Body::Bd { .. } => farm.bd(),
        Body::Bc(Command::Unlock) => farm.unlock(),
        Body::Bc(Command::SetVr(vr)) => farm.set_vr(*vr),
    }
}

/// Gives a frame to the receiver, whose buffer is free. Puts the record's number, and what the receiver did
/// with the frame. Each kind of frame puts the number itself, so that the kind is not tested twice.
#[inline(always)]
fn put_body(room: &mut [u8], at: usize, farm: &mut Farm, index: &RecordNumber, body: &Body) -> usize
    requires { at + 64 ≤ length room.old }
    ensures put { take result room.new ≡ take at room.old
        ++ (decimal index.now ++ (codes " " ++ body_text farm.old (body_view body.now))) }
    ensures farm { farm.new ≡ after_body farm.old (body_view body.now) }
    ensures next { result ≤ at + 64 }
{
    match body {
        Body::Ad { n, .. } => {
            let verdict = farm.ad(*n, true);
            let next = index.put(room, at);
            put_ad(room, next, *n, verdict)
        }
        Body::Bd { .. } => {
            farm.bd();
            let next = index.put(room, at);
            put_word::<4>(room, next, b" BD ")
        }
        Body::Bc(Command::Unlock) => {
            farm.unlock();
            let next = index.put(room, at);
            put_word::<8>(room, next, b" BC unlock ")
        }
        Body::Bc(Command::SetVr(vr)) => {
            farm.set_vr(*vr);
            let next = index.put(room, at);
            put_set_vr(room, next, *vr)
        }
    }
}

/// Gives a frame to the receiver, and puts its line.
#[inline(always)]
fn put_frame(
    room: &mut [u8],
    at: usize,
    farm: &mut Farm,
    index: &RecordNumber,
    body: &Body,
) -> usize
    requires { at + 128 ≤ length room.old }
    ensures put { take result room.new ≡ take at room.old ++ (decimal index.now ++ (codes " "
        ++ (body_text farm.old (body_view body.now) ++ state_text farm.new))) }
    ensures farm { farm.new ≡ after_body farm.old (body_view body.now) }
    ensures next { result ≤ at + 128 }
{
    let next = put_body(room, at, farm, index, body);
    put_receiver(room, next, farm)
}

/// Gives a record to the receiver, appends its line, and returns whether the record is a frame.
#[inline(always)]
fn push_frame<const CHECKED: bool>(
    text: &mut Text,
    farm: &mut Farm,
    index: &RecordNumber,
    octets: &[u8],
) -> Result<bool, AllocError>
    ensures text { Appends result text.old text.new (farm_line (check_if CHECKED) farm.old index.now octets.now) }
    ensures farm { OnOk result (farm.new ≡ after_record (check_if CHECKED) farm.old octets.now) }
    ensures good { IfOk result (λ good. good ≡ is_ok (frame_at (check_if CHECKED) octets.now)) }
{
    text.make_room(128)?;
    match decode(octets, check_if(CHECKED)) {
        Ok(frame) => {
            text.len = put_frame(
                text.octets.as_mut_slice(),
                text.len,
                farm,
                index,
                &frame.body,
            );
            Ok(true)
        }
        Err(fault) => push_refused(text, index, fault.number(), fault.name()),
    }
}

impl<const CHECKED: bool> Listing<Splitter<FrameLayout<CHECKED>>> for Farm {
    ghost lines = { farm_lines (check_if CHECKED) };

    #[inline(always)]
    fn take(
        &mut self,
        text: &mut Text,
        index: &RecordNumber,
        octets: &[u8],
    ) -> Result<bool, AllocError> {
        push_frame::<CHECKED>(text, self, index, octets)
    }

    fn refuse(text: &mut Text, index: &RecordNumber, fault: TcFault) -> Result<(), AllocError> {
        push_invalid(text, index, fault.number(), fault.name())
    }
}
