// Writing a frame as octets.

ghost use Rattle.std.specs.Prelude.{◌≡◌, ◌≤◌, ◌<◌, ◌+◌, ◌++◌, length, take, drop, true, IfOk, OnErr};
ghost use Rattle.tm_link.specs.Layout.{frame_view, pointer_number, pointer_fits, IsTmFrame};
ghost use Rattle.tm_link.specs.Encoding.{total_of, header_octets, front_octets, spelling, frame_fits, encode_answer};

use crate::builder::can_build;
use crate::fault::TmFault;
use crate::frame::{Pointer, TmFrame};
use byteorder::{BigEndian, ByteOrder};
use octets::append_check;

/// Writes the frame at the beginning of `out` (CCSDS 132.0-B-3, 4.1). Returns how many octets it
/// has: 12 more than its data, so 16 to 2,048. The octets after it do not change. Refuses with 10
/// `FieldRange` a field out of range, a pointer not below the data's length, and data of fewer than
/// 4 or more than 2,036 octets. Then refuses with 9 `Room` an output that is too short.
/// Faults: 10 FieldRange, then 9 Room. Cost: n.
pub fn encode(frame: &TmFrame, out: &mut [u8]) -> Result<usize, TmFault>
    ensures answer { result ≡ encode_answer (frame_view frame.now) (length out.old) }
    ensures ok { IfOk result (λ n. out.new ≡ spelling (frame_view frame.now) ++ drop n out.old) }
    ensures err { OnErr result (out.new ≡ out.old) }

    // So `decode` reads them as this frame.
    ensures spells { IfOk result (λ n. IsTmFrame n (frame_view frame.now) (take n out.new)) }
{
    if !is_in_range(frame) {
        return Err(TmFault::FieldRange);
    }
    let total = frame.payload.len() + 12;
    let (room, _) = out.split_at_mut_checked(total).ok_or(TmFault::Room)?;
    put_frame(frame, room);
    Ok(total)
}

fn is_in_range(frame: &TmFrame) -> bool
    ensures { result ≡ frame_fits (frame_view frame.now) }
{
    let size = frame.payload.len();
    can_build(frame.scid, frame.vcid, size + 12) && is_pointer_in_range(frame.pointer, size)
}

fn is_pointer_in_range(pointer: Pointer, size: usize) -> bool
    ensures { result ≡ pointer_fits pointer size }
{
    match pointer {
        Pointer::At(place) => usize::from(place) < size,
        Pointer::NoStart | Pointer::OnlyIdle => true,
    }
}

pub(crate) fn put_frame(frame: &TmFrame, out: &mut [u8])
    requires fits { frame_fits (frame_view frame.now) ≡ true }
    requires room { length out.old ≡ total_of (frame_view frame.now) }
    ensures { out.new ≡ spelling (frame_view frame.now) }
{
    let front_len = out.len() - 2;
    put_front(frame, &mut out[..front_len]);
    append_check(out);
}

fn put_front(frame: &TmFrame, out: &mut [u8])
    requires fits { frame_fits (frame_view frame.now) ≡ true }
    requires room { length out.old ≡ length frame.now.payload.now + 10 }
    ensures { out.new ≡ front_octets (frame_view frame.now) }
{
    let (header, rest) = out.split_at_mut(6);
    let (payload, ocf) = rest.split_at_mut(frame.payload.len());
    put_header(frame, header);
    payload.copy_from_slice(frame.payload);
    ocf.copy_from_slice(&frame.ocf);
}

pub(crate) fn put_header(frame: &TmFrame, out: &mut [u8])
    requires fits { frame_fits (frame_view frame.now) ≡ true }
    requires room { length out.old ≡ 6 }
    ensures { out.new ≡ header_octets (frame_view frame.now) }
{
    let (first, rest) = out.split_at_mut(2);
    let (counts, status) = rest.split_at_mut(2);
    BigEndian::write_u16(first, 16 * frame.scid + 2 * u16::from(frame.vcid) + 1);
    counts[0] = frame.mc_count;
    counts[1] = frame.vc_count;
    BigEndian::write_u16(
        status,
        0x1800 + number_of(frame.pointer, frame.payload.len()),
    );
}

fn number_of(pointer: Pointer, size: usize) -> u16
    requires fits { pointer_fits pointer size ≡ true }
    requires most { size ≤ 2036 }
    ensures value { result ≡ pointer_number pointer }
    ensures below { result < 2048 }
{
    match pointer {
        Pointer::At(place) => place,
        Pointer::NoStart => 2047,
        Pointer::OnlyIdle => 2046,
    }
}
