// The telecommand frame that a line spells.

ghost use Rattle.std.specs.Prelude.{◌≡◌, map, option_map, option_and_then, Some};
ghost use Rattle.tc_frame.specs.Layout.{frame_view, body_view, segment_view};
ghost use Rattle.encode_lines.specs.Frames.{frame_of, segment_of, sequence_line, bypass_line, unlock_line, set_line, frame_in, segment_decoded, body_decoded, frame_decoded};

use crate::fields::{after_key, number_after};
use streams::{is, number_in_word};
use tc_frame::{Body, Command, Segment, SegmentFlags, SegmentHeader, TcFrame};

// Returns the segment that these words spell, with the digits of its data instead of octets.
fn segment_of<'a>(flags: &[u8], map: &[u8], payload: &'a [u8]) -> Option<Segment<'a>>
    ensures { option_and_then segment_decoded (option_map segment_view result)
        ≡ segment_of flags.now map.now payload.now }
{
    let flags = number_after(flags, b"seg=", 3)?;
    let map = number_after(map, b"map=", 63)?;
    let payload = after_key(payload, b"data=")?;
    let header = SegmentHeader {
        flags: SegmentFlags::with_code(flags as u8),
        map: map as u8,
    };
    Some(Segment { header, payload })
}

// Returns the frame of this channel with this body.
fn frame_of<'a>(scid: &[u8], vcid: &[u8], body: Body<'a>) -> Option<TcFrame<'a>>
    ensures { option_and_then frame_decoded (option_map frame_view result)
        ≡ frame_of scid.now vcid.now (body_decoded (body_view body.entry)) }
{
    let scid = number_after(scid, b"scid=", 1023)?;
    let vcid = number_after(vcid, b"vcid=", 63)?;
    Some(TcFrame {
        scid: scid as u16,
        vcid: vcid as u8,
        body,
    })
}

// The lines of each type of frame, by their words.

#[tactic(auto, using(crate::proofs::Words::frame_of_none))]
fn sequence_line<'a>(
    kind: &[u8],
    scid: &[u8],
    vcid: &[u8],
    n: &[u8],
    flags: &[u8],
    map: &[u8],
    payload: &'a [u8],
) -> Option<TcFrame<'a>>
    ensures { option_and_then frame_decoded (option_map frame_view result)
        ≡ sequence_line kind.now scid.now vcid.now n.now flags.now map.now payload.now }
{
    if !is(kind, "AD") {
        return None;
    }
    let n = number_after(n, b"n=", 255)? as u8;
    let segment = segment_of(flags, map, payload)?;
    frame_of(scid, vcid, Body::Ad { n, segment })
}

#[tactic(auto, using(crate::proofs::Words::frame_of_none))]
fn bypass_line<'a>(
    kind: &[u8],
    scid: &[u8],
    vcid: &[u8],
    flags: &[u8],
    map: &[u8],
    payload: &'a [u8],
) -> Option<TcFrame<'a>>
    ensures { option_and_then frame_decoded (option_map frame_view result)
        ≡ bypass_line kind.now scid.now vcid.now flags.now map.now payload.now }
{
    if !is(kind, "BD") {
        return None;
    }
    let segment = segment_of(flags, map, payload)?;
    frame_of(scid, vcid, Body::Bd { segment })
}

fn unlock_line<'a>(kind: &[u8], scid: &[u8], vcid: &[u8], word: &[u8]) -> Option<TcFrame<'a>>
    ensures { option_and_then frame_decoded (option_map frame_view result)
        ≡ unlock_line kind.now scid.now vcid.now word.now }
{
    if is(kind, "BC") && is(word, "unlock") {
        frame_of(scid, vcid, Body::Bc(Command::Unlock))
    } else {
        None
    }
}

#[tactic(auto, using(crate::proofs::Words::frame_of_none))]
fn set_line<'a>(
    kind: &[u8],
    scid: &[u8],
    vcid: &[u8],
    word: &[u8],
    number: &[u8],
) -> Option<TcFrame<'a>>
    ensures { option_and_then frame_decoded (option_map frame_view result)
        ≡ set_line kind.now scid.now vcid.now word.now number.now }
{
    if is(kind, "BC") && is(word, "set") {
        let number = number_in_word(number, 255)? as u8;
        frame_of(scid, vcid, Body::Bc(Command::SetVr(number)))
    } else {
        None
    }
}

/// Returns the frame that the words of a line spell, with the digits of its data instead of octets.
pub fn frame_in<'a>(words: &[&'a [u8]]) -> Option<TcFrame<'a>>
    ensures { option_and_then frame_decoded (option_map frame_view result)
        ≡ frame_in (map (λ word. word.now) words.now) }
{
    match words {
        [kind, scid, vcid, n, flags, map, payload] => {
            sequence_line(kind, scid, vcid, n, flags, map, payload)
        }
        [kind, scid, vcid, flags, map, payload] => {
            bypass_line(kind, scid, vcid, flags, map, payload)
        }
        [kind, scid, vcid, word] => unlock_line(kind, scid, vcid, word),
        [kind, scid, vcid, word, number] => set_line(kind, scid, vcid, word, number),
        _ => None,
    }
}
