// Telecommand transfer frames.

ghost use Rattle.std.specs.Prelude.{◌≡◌, ◌≤◌, ◌*◌, ◌/◌, ◌%◌, ◌++◌, length, drop};
ghost use Rattle.octets.specs.Outcome.{map_ok};
ghost use Rattle.tc_frame.specs.Layout.{body_view, frame_view, segment_view};
ghost use Rattle.tc_frame.specs.Splitter.{check_if};
ghost use Rattle.tc_frame.specs.Encoding.{total_of, spelling};
ghost use Rattle.sedgechisel.specs.Answers.{IsRead, IsSpelled, IsWritten};
ghost use Rattle.sedgechisel.specs.CommandFrames.{segment_described, command_described, body_described, frame_described, fields_of, part_of, part_with, frame_read, frame_taken, total_declared, DescribesFrame};
ghost use Rattle.sedgechisel.specs.CommandFrames.{no_fields, whole_len, record_of, records_from, end_from};

use crate::assembly::add;
use crate::numbers::DAMAGED;
use crate::part::Part;
use octets::Wire;
use tc_frame::{
    Body, Checked, Command, Segment, SegmentFlags, SegmentHeader, TcFault, TcFrame, Unchecked,
    check_if,
};

/// A telecommand frame's fields (CCSDS 232.0-B-4, 4.1) without its data. The kind is 0 for Type-AD, 1 for
/// Type-BD and 2 for Type-BC; the command is 0 for Unlock and 1 for Set V(R). For C it is `struct
/// sedge_tc_frame`.
#[repr(C)]
#[derive(Clone, Copy)]
pub struct CommandFrame {
    /// The spacecraft identifier, below 1,024.
    pub scid: u16,
    /// The virtual channel identifier, below 64.
    pub vcid: u8,
    /// Of `sedge_tc_kind`.
    pub kind: u8,
    /// Type-AD: the sequence number N(S).
    pub n: u8,
    /// Type-AD and Type-BD: of `sedge_segment_flags`.
    pub flags: u8,
    /// Type-AD and Type-BD: the MAP identifier, below 64.
    pub map: u8,
    /// Type-BC: of `sedge_command`.
    pub command: u8,
    /// Type-BC, Set V(R): the number.
    pub vr: u8,
}

/// Reads all of the octets as one frame, which ends with its FECF if `checked` is true. Writes the frame's
/// fields, and where the data after the segment header are: `{0, 0}` for a control frame, which has none. The
/// frame may be of any spacecraft and virtual channel: compare scid and vcid with your own before you pass
/// the frame to a receiver. Returns 0, or the first of 1 to 9 of `sedge_tc_fault` that applies.
#[unsafe(no_mangle)]
#[must_use]
pub extern "C" fn sedge_tc_decode(
    octets: &[u8],
    checked: bool,
    frame: &mut CommandFrame,
    payload: &mut Part,
) -> u8
    ensures read { IsRead fields_of part_of (frame_read checked octets.now)
        frame.old frame.new payload.old payload.new result }

    // So `sedge_tc_encode` writes this frame from the fields and the data there.
    ensures describes { DescribesFrame checked octets.now frame.new payload.new }
{
    written!(tc_frame::decode(octets, check_if(checked)), |found| {
        *frame = fields_from(&found);
        *payload = part_from(&found.body);
    })
}

/// Writes the frame with these data (ignored for a control frame) to the beginning of `out`, with its FECF if
/// `checked` is true. Writes the frame's length in octets, 6 to 1,024, to `total`. Returns 0, or the first of
/// `SEDGE_DAMAGED` (the kind, the segment flags or the command is not in its enumeration),
/// `SEDGE_TC_FIELD_RANGE` and `SEDGE_TC_ROOM`.
#[unsafe(no_mangle)]
#[must_use]
pub extern "C" fn sedge_tc_encode(
    frame: &CommandFrame,
    payload: &[u8],
    checked: bool,
    out: &mut [u8],
    total: &mut usize,
) -> u8
    ensures { IsSpelled (spelling (check_if checked)) (total_of (check_if checked))
        (frame_taken checked frame.now payload.now (length out.old))
        out.old out.new total.old total.new result }
{
    match frame_from(frame, payload) {
        Ok(described) => written!(
            tc_frame::encode(&described, check_if(checked), out),
            |count| *total = count
        ),
        Err(number) => number,
    }
}

/// Reads the length of the frame that begins with these octets from its first 5 octets, and writes it to
/// `total`; use it to cut a stream (4.1.2.7). Returns 0, or `SEDGE_TC_SHORT` for fewer than 5 octets, or
/// `SEDGE_TC_LENGTH` if the frame declares fewer than 5 octets, or with its FECF fewer than 7.
#[unsafe(no_mangle)]
#[must_use]
pub extern "C" fn sedge_tc_declared(octets: &[u8], checked: bool, total: &mut usize) -> u8
    ensures { IsWritten (λ n. n) (total_declared checked octets.now) total.old total.new result }
{
    if octets.len() < 5 {
        return TcFault::Short.number();
    }
    let declared = if checked {
        Checked::extent(octets)
    } else {
        Unchecked::extent(octets)
    };
    written!(declared, |count| *total = count)
}

/// Reads the frames that follow one another in the octets, each as long as it declares (4.1.2.7), and writes
/// a record of 12 octets for each to `out`, in order. A record begins with the number of the frame's octets
/// and the number that `sedge_tc_decode` returns for the frame. Then come the scid, vcid, kind, n, flags,
/// map, command and vr that it writes, or 0 for each if it refuses the frame. The number of octets and the
/// scid take two octets each, the lower one first; the others take one. The data of a Type-AD or Type-BD
/// frame begin 6 octets after the frame does. Stops when `out` has no room for a record, or when no whole
/// frame follows; `sedge_tc_declared`, called with the octets there, shows whether their length is refused.
/// Writes the number of octets of all these frames to `total`. Returns the number of frames.
#[unsafe(no_mangle)]
pub extern "C" fn sedge_tc_frames(
    octets: &[u8],
    checked: bool,
    out: &mut [u8],
    total: &mut usize,
) -> usize
    ensures records { let records = records_from checked octets.now 0 (length out.old / 12) in
        out.new ≡ records ++ drop (length records) out.old }
    ensures frames { 12 * result
        ≡ length (records_from checked octets.now 0 (length out.old / 12)) }
    ensures total { total.new ≡ end_from checked octets.now 0 (length out.old / 12) }
{
    let most = out.len() / 12;
    let mut frames = 0;
    let mut from = 0;
    let mut at = 0;
    'frames: while frames < most {
        let count = whole_len(&octets[from..], checked);
        if count == 0 {
            *total = from;
            return frames;
        }
        let record = record_of(&octets[from..from + count], checked);
        at = add(at, &record, out);
        frames += 1;
        from += count;
    }
    *total = from;
    frames
}

// The length of the frame at the beginning of the octets, and 0 if no whole frame is there.
#[tactic(auto, using(crate::proofs::Pieces::few_octets))]
fn whole_len(octets: &[u8], checked: bool) -> usize
    ensures count { result ≡ whole_len checked octets.now }
    ensures within { result ≤ length octets.now }
    ensures most { result ≤ 1024 }
{
    let mut total = 0;
    if sedge_tc_declared(octets, checked, &mut total) == 0 && total <= octets.len() {
        return total;
    }
    0
}

// The record that is written for a frame.
fn record_of(octets: &[u8], checked: bool) -> [u8; 12]
    requires { length octets.now ≤ 1024 }
    ensures { result ≡ record_of checked octets.now }
{
    let mut frame = no_fields();
    let mut payload = Part { from: 0, count: 0 };
    let fault = sedge_tc_decode(octets, checked, &mut frame, &mut payload);
    let scid = halves(frame.scid);
    [
        (octets.len() % 256) as u8,
        (octets.len() / 256) as u8,
        fault,
        scid.0,
        scid.1,
        frame.vcid,
        frame.kind,
        frame.n,
        frame.flags,
        frame.map,
        frame.command,
        frame.vr,
    ]
}

// The two octets of a number, the lower one first.
pub(crate) fn halves(number: u16) -> (u8, u8)
    ensures low { result.0 ≡ number % 256 }
    ensures high { result.1 ≡ number / 256 }
{
    ((number % 256) as u8, (number / 256) as u8)
}

fn no_fields() -> CommandFrame
    ensures { result ≡ no_fields }
{
    CommandFrame {
        scid: 0,
        vcid: 0,
        kind: 0,
        n: 0,
        flags: 0,
        map: 0,
        command: 0,
        vr: 0,
    }
}

// ---- from fields and data to a frame

fn frame_from<'a>(fields: &CommandFrame, payload: &'a [u8]) -> Result<TcFrame<'a>, u8>
    ensures { map_ok frame_view result ≡ frame_described fields.now payload.now }
{
    let body = body_from(fields, payload)?;
    Ok(TcFrame {
        scid: fields.scid,
        vcid: fields.vcid,
        body,
    })
}

fn body_from<'a>(fields: &CommandFrame, payload: &'a [u8]) -> Result<Body<'a>, u8>
    ensures { map_ok body_view result ≡ body_described fields.now payload.now }
{
    match fields.kind {
        0 => Ok(Body::Ad {
            n: fields.n,
            segment: segment_from(fields, payload)?,
        }),
        1 => Ok(Body::Bd {
            segment: segment_from(fields, payload)?,
        }),
        2 => command_from(fields),
        _ => Err(DAMAGED),
    }
}

fn segment_from<'a>(fields: &CommandFrame, payload: &'a [u8]) -> Result<Segment<'a>, u8>
    ensures { map_ok segment_view result ≡ segment_described fields.now payload.now }
{
    if fields.flags >= 4 {
        return Err(DAMAGED);
    }
    Ok(Segment {
        header: SegmentHeader {
            flags: SegmentFlags::with_code(fields.flags),
            map: fields.map,
        },
        payload: payload,
    })
}

fn command_from<'a>(fields: &CommandFrame) -> Result<Body<'a>, u8>
    ensures { map_ok body_view result ≡ command_described fields.now }
{
    match fields.command {
        0 => Ok(Body::Bc(Command::Unlock)),
        1 => Ok(Body::Bc(Command::SetVr(fields.vr))),
        _ => Err(DAMAGED),
    }
}

// ---- from a frame to fields, and to the place of its data

fn fields_from(frame: &TcFrame) -> CommandFrame
    ensures { result ≡ fields_of (frame_view frame.now) }
{
    let bare = CommandFrame {
        scid: frame.scid,
        vcid: frame.vcid,
        kind: 2,
        n: 0,
        flags: 0,
        map: 0,
        command: 0,
        vr: 0,
    };
    match &frame.body {
        Body::Ad { n, segment } => CommandFrame {
            kind: 0,
            n: *n,
            flags: segment.header.flags.code(),
            map: segment.header.map,
            ..bare
        },
        Body::Bd { segment } => CommandFrame {
            kind: 1,
            flags: segment.header.flags.code(),
            map: segment.header.map,
            ..bare
        },
        Body::Bc(Command::Unlock) => bare,
        Body::Bc(Command::SetVr(vr)) => CommandFrame {
            command: 1,
            vr: *vr,
            ..bare
        },
    }
}

fn part_from(body: &Body) -> Part
    ensures { result ≡ part_with (body_view body.now) }
{
    match body {
        Body::Ad { segment, .. } | Body::Bd { segment } => Part {
            from: 6,
            count: segment.payload.len(),
        },
        Body::Bc(_) => Part { from: 0, count: 0 },
    }
}
