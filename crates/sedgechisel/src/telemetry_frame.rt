// Telemetry transfer frames.

ghost use Rattle.std.specs.Prelude.{◌≡◌, length};
ghost use Rattle.tm_link.specs.Layout.{frame_view, pointer_number};
ghost use Rattle.tm_link.specs.Decoding.{pointer_at};
ghost use Rattle.tm_link.specs.Encoding.{total_of, spelling};
ghost use Rattle.sedgechisel.specs.Answers.{IsRead, IsSpelled};
ghost use Rattle.sedgechisel.specs.TelemetryFrames.{frame_described, fields_of, part_of, frame_read, frame_taken, DescribesFrame};

use crate::part::Part;
use tm_link::{Pointer, TmFrame};

/// A telemetry frame's fields (CCSDS 132.0-B-3, 4.1) without its data. The pointer is the place where the
/// first packet starts, or 2047 for none, or 2046 for only idle data. For C it is `struct sedge_tm_frame`.
#[repr(C)]
#[derive(Clone, Copy)]
pub struct TelemetryFrame {
    /// The spacecraft identifier, below 1,024.
    pub scid: u16,
    /// The place in the data, from 0, where the first packet starts, or one of `sedge_pointer`.
    pub pointer: u16,
    /// The virtual channel identifier, below 8.
    pub vcid: u8,
    /// The master channel frame count.
    pub mc_count: u8,
    /// The virtual channel frame count.
    pub vc_count: u8,
    /// The operational control field, as `sedge_clcw_encode` writes it (4.1.5).
    pub ocf: [u8; 4],
}

/// Reads all of the octets as one frame of this length, and writes its fields and where its data are. The
/// frame may be of any spacecraft and virtual channel: compare scid and vcid with your own before you pass it
/// to an extractor, and scid before you use its CLCW. Returns 0, or the first of 1 to 6 of `sedge_tm_fault`.
#[unsafe(no_mangle)]
#[must_use]
pub extern "C" fn sedge_tm_decode(
    octets: &[u8],
    length: usize,
    frame: &mut TelemetryFrame,
    payload: &mut Part,
) -> u8
    ensures read { IsRead fields_of part_of (frame_read length octets.now)
        frame.old frame.new payload.old payload.new result }

    // So `sedge_tm_encode` writes this frame from the fields and the data there.
    ensures describes { DescribesFrame length octets.now frame.new payload.new }
{
    written!(tm_link::decode(octets, length), |found| {
        *frame = fields_from(&found);
        *payload = Part {
            from: 6,
            count: found.payload.len(),
        };
    })
}

/// Writes the frame with these data and its FECF to the beginning of `out`, and its length in octets, 12 more
/// than its data have, to `total`. Returns 0, or the first of `SEDGE_TM_FIELD_RANGE` and `SEDGE_TM_ROOM`.
#[unsafe(no_mangle)]
#[must_use]
pub extern "C" fn sedge_tm_encode(
    frame: &TelemetryFrame,
    payload: &[u8],
    out: &mut [u8],
    total: &mut usize,
) -> u8
    ensures { IsSpelled spelling total_of (frame_taken frame.now payload.now (length out.old))
        out.old out.new total.old total.new result }
{
    written!(
        tm_link::encode(&frame_from(frame, payload), out),
        |count| *total = count
    )
}

fn frame_from<'a>(fields: &TelemetryFrame, payload: &'a [u8]) -> TmFrame<'a>
    ensures { frame_view result ≡ frame_described fields.now payload.now }
{
    TmFrame {
        scid: fields.scid,
        vcid: fields.vcid,
        mc_count: fields.mc_count,
        vc_count: fields.vc_count,
        pointer: pointer_from(fields.pointer),
        payload: payload,
        ocf: fields.ocf,
    }
}

pub(crate) fn pointer_from(number: u16) -> Pointer
    ensures { result ≡ pointer_at number }
{
    match number {
        2046 => Pointer::OnlyIdle,
        2047 => Pointer::NoStart,
        _ => Pointer::At(number),
    }
}

pub(crate) fn fields_from(frame: &TmFrame) -> TelemetryFrame
    ensures { result ≡ fields_of (frame_view frame.now) }
{
    TelemetryFrame {
        scid: frame.scid,
        pointer: number_of_pointer(frame.pointer),
        vcid: frame.vcid,
        mc_count: frame.mc_count,
        vc_count: frame.vc_count,
        ocf: frame.ocf,
    }
}

fn number_of_pointer(pointer: Pointer) -> u16
    ensures { result ≡ pointer_number pointer }
{
    match pointer {
        Pointer::At(place) => place,
        Pointer::NoStart => 2047,
        Pointer::OnlyIdle => 2046,
    }
}
