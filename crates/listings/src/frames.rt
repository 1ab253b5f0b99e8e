// The line of each TC frame: its fields.

ghost use Rattle.std.specs.Prelude.{◌≡◌, ◌+◌, ◌≤◌, ◌++◌, codes, decimal, length, take, vec_len, IfOk, is_ok, Ok};
ghost use Rattle.tc_frame.specs.Layout.{frame_view, flags_code, Bc};
ghost use Rattle.tc_frame.specs.Decoding.{frame_at};
ghost use Rattle.tc_frame.specs.Splitter.{check_if};
ghost use Rattle.listings.specs.Text.{Appends};
ghost use Rattle.listings.specs.Text.{line_end};
ghost use Rattle.listings.specs.FrameLines.{segment_text, body_line, frame_line, frame_lines};

use crate::lines::{push_invalid, push_octets, push_refused};
use crate::listing::Listing;
use crate::parts::{put_field, put_long_field, put_short_field, put_word};
use crate::record_number::RecordNumber;
use crate::text::Text;
use octets::Splitter;
use std::alloc::AllocError;
use std::marker::Model;
use tc_frame::{
    Body, Check, Command, FrameLayout, SegmentHeader, TcFault, TcFrame, check_if, decode,
};

/// Lists the fields of each frame. Nothing is kept between two frames.
#[derive(Drop)]
pub struct FrameListing;

impl Model for FrameListing {
    ghost Value = { Unit {0} };

    ghost view = { λ l. tt };
}

/// Appends the line of a record, and returns whether the record is a frame.
#[inline(always)]
fn push_frame(
    text: &mut Text,
    check: Check,
    index: &RecordNumber,
    octets: &[u8],
) -> Result<bool, AllocError>
    ensures text { Appends result text.old text.new
        (frame_line index.now (frame_at check octets.now)) }
    ensures good { IfOk result (λ good. good ≡ is_ok (frame_at check octets.now)) }
{
    text.make_room(128)?;
    match decode(octets, check) {
        Ok(frame) => {
            push_line(text, index, &frame)?;
            Ok(true)
        }
        Err(fault) => push_refused(text, index, fault.number(), fault.name()),
    }
}

// Puts the record's number, a frame's type between spaces, and the channel that it came on.
#[inline(always)]
fn put_channel(
    room: &mut [u8],
    at: usize,
    index: &RecordNumber,
    word: &[u8; 4],
    scid: u16,
    vcid: u8,
) -> usize
    requires { at + 64 ≤ length room.old }
    ensures put { take result room.new ≡ take at room.old ++ (decimal index.now ++ (word.now
        ++ (codes "scid=" ++ (decimal scid ++ (codes " vcid=" ++ decimal vcid))))) }
    ensures next { result ≤ at + 64 }
{
    let next = index.put(room, at);
    let next = put_word::<4>(room, next, word);
    let next = put_long_field::<4>(room, next, b"scid=", scid);
    put_field::<4>(room, next, b" vcid=", vcid)
}

#[inline(always)]
fn put_header(room: &mut [u8], at: usize, header: SegmentHeader) -> usize
    requires { at + 32 ≤ length room.old }
    ensures put { take result room.new ≡ take at room.old ++ (codes " seg="
        ++ (decimal (flags_code header.flags) ++ (codes " map=" ++ (decimal header.map ++ codes " data=")))) }
    ensures next { result ≤ at + 32 }
{
    let next = put_field::<4>(room, at, b" seg=", header.flags.code());
    let next = put_field::<4>(room, next, b" map=", header.map);
    put_word::<4>(room, next, b" data=")
}

#[inline(always)]
fn push_segment(text: &mut Text, header: SegmentHeader, octets: &[u8]) -> Result<(), AllocError>
    requires { text.old.len + 32 ≤ vec_len text.old.octets }
    ensures { Appends result text.old text.new (segment_text (record {
      header = header;
      payload = octets.now;
    })) }
{
    text.len = put_header(text.octets.as_mut_slice(), text.len, header);
    push_octets(text, octets)
}

#[inline(always)]
fn put_set_vr(room: &mut [u8], at: usize, vr: u8) -> usize
    requires { at + 32 ≤ length room.old }
    ensures put { take result room.new ≡ take at room.old
        ++ (codes " set " ++ (decimal vr ++ line_end)) }
    ensures next { result ≤ at + 32 }
{
    let next = put_field::<4>(room, at, b" set ", vr);
    put_word::<1>(room, next, b"\n")
}

#[inline(always)]
fn put_command(room: &mut [u8], at: usize, command: Command) -> usize
    requires { at + 32 ≤ length room.old }
    ensures put { take result room.new ≡ take at room.old ++ body_line (Bc command) }
    ensures next { result ≤ at + 32 }
{
    match command {
        Command::Unlock => put_word::<8>(room, at, b" unlock\n"),
        Command::SetVr(vr) => put_set_vr(room, at, vr),
    }
}

// Appends the line of a Type-BD frame. Such frames are few, and a call of its own keeps the code for the
// other frames short enough to be inlined.
#[inline(never)]
fn push_bypass(
    text: &mut Text,
    index: &RecordNumber,
    scid: u16,
    vcid: u8,
    header: SegmentHeader,
    octets: &[u8],
) -> Result<(), AllocError>
    requires { text.old.len + 128 ≤ vec_len text.old.octets }
    ensures { Appends result text.old text.new (decimal index.now ++ (codes " BD "
        ++ (codes "scid=" ++ (decimal scid ++ (codes " vcid=" ++ (decimal vcid
        ++ segment_text (record { header = header; payload = octets.now }))))))) }
{
    text.len = put_channel(
        text.octets.as_mut_slice(),
        text.len,
        index,
        b" BD ",
        scid,
        vcid,
    );
    push_segment(text, header, octets)
}

// Appends the line of a frame. Each kind of frame puts the whole line itself, so that the kind is
// not tested twice.
#[inline(always)]
fn push_line(text: &mut Text, index: &RecordNumber, frame: &TcFrame) -> Result<(), AllocError>
    requires { text.old.len + 128 ≤ vec_len text.old.octets }
    ensures { Appends result text.old text.new (frame_line index.now (Ok (frame_view frame.now))) }
{
    match &frame.body {
        Body::Ad { n, segment } => {
            let room = text.octets.as_mut_slice();
            let next = put_channel(room, text.len, index, b" AD ", frame.scid, frame.vcid);
            text.len = put_short_field(room, next, b" n=0", *n);
            push_segment(text, segment.header, segment.payload)
        }
        Body::Bd { segment } => push_bypass(
            text,
            index,
            frame.scid,
            frame.vcid,
            segment.header,
            segment.payload,
        ),
        Body::Bc(command) => {
            let room = text.octets.as_mut_slice();
            let next = put_channel(room, text.len, index, b" BC ", frame.scid, frame.vcid);
            text.len = put_command(room, next, *command);
            Ok(())
        }
    }
}

impl<const CHECKED: bool> Listing<Splitter<FrameLayout<CHECKED>>> for FrameListing {
    ghost lines = { frame_lines (check_if CHECKED) };

    #[inline(always)]
    fn take(
        &mut self,
        text: &mut Text,
        index: &RecordNumber,
        octets: &[u8],
    ) -> Result<bool, AllocError> {
        push_frame(text, check_if(CHECKED), index, octets)
    }

    fn refuse(text: &mut Text, index: &RecordNumber, fault: TcFault) -> Result<(), AllocError> {
        push_invalid(text, index, fault.number(), fault.name())
    }
}
