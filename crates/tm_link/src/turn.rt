// The next frame of a builder, whose octets may be kept anywhere.

ghost use Rattle.std.specs.Prelude.{◌≡◌, ◌≤◌, ◌<◌, ◌+◌, ◌-◌, ◌^◌, length, true};
ghost use Rattle.tm_link.specs.Builder.{builder_fits, frame_built, field_with, pointer_with, state_with};
ghost use Rattle.tm_link.specs.Layout.{IsTmFrame};
ghost use Rattle.tm_link.specs.Encoding.{spelling, front_octets};

use crate::builder::start_after;
use crate::data_field::put_data;
use crate::encoding::put_header;
use crate::frame::{Pointer, TmFrame};
use octets::append_check;

/// What a builder holds in addition to the octets still to be sent, which it keeps elsewhere (CCSDS
/// 132.0-B-3, 4.2).
#[derive(Clone, Copy, Debug, PartialEq, Eq)]
pub struct Turn {
    /// The spacecraft identifier, below 1,024.
    pub scid: u16,
    /// The virtual channel identifier, below 8.
    pub vcid: u8,
    /// The next frame's count on the master channel (CCSDS 132.0-B-3, 4.1.2.5).
    pub mc_count: u8,
    /// The next frame's count on the virtual channel (4.1.2.6).
    pub vc_count: u8,
    /// The octets left of an idle packet, at most 6, which are sent first.
    pub idle_left: usize,
    /// The octets left of the packet that was begun, which are sent next.
    pub begun: usize,
}

/// Writes the next frame, with this operational control field, over all of `out` (CCSDS 132.0-B-3,
/// 4.1.4 and 4.2.2). It contains the octets that are to be sent, as far as it has room, and after
/// them an idle packet. If nothing is to be sent, it contains only idle data.
/// Cost: n.
pub fn put_next(turn: &Turn, pending: &[u8], ocf: [u8; 4], out: &mut [u8])
    requires fits { builder_fits turn.now.scid turn.now.vcid (length out.old) ≡ true }
    requires idle_left { turn.now.idle_left ≤ 6 }
    requires begun { turn.now.begun < 2 ^ 63 }
    ensures frame { out.new
        ≡ spelling (frame_built (state_with turn.now (length out.old) pending.now) ocf) }
    ensures spells { IsTmFrame (length out.old)
        (frame_built (state_with turn.now (length out.old) pending.now) ocf) out.new }
{
    let front_len = out.len() - 2;
    put_front(turn, pending, ocf, &mut out[..front_len]);
    append_check(out);
}

// Writes the octets before the check.
fn put_front(turn: &Turn, pending: &[u8], ocf: [u8; 4], out: &mut [u8])
    requires fits { builder_fits turn.now.scid turn.now.vcid (length out.old + 2) ≡ true }
    requires idle_left { turn.now.idle_left ≤ 6 }
    requires begun { turn.now.begun < 2 ^ 63 }
    ensures front { out.new
        ≡ front_octets (frame_built (state_with turn.now (length out.old + 2) pending.now) ocf) }
    ensures size { length (field_with turn.now.idle_left pending.now (length out.old + 2 - 12))
        ≡ length out.old - 10 }
{
    let (header, rest) = out.split_at_mut(6);
    let size = rest.len() - 4;
    let (field, last) = rest.split_at_mut(size);
    let pointer = put_field(turn, pending, field);
    let frame = TmFrame {
        scid: turn.scid,
        vcid: turn.vcid,
        mc_count: turn.mc_count,
        vc_count: turn.vc_count,
        pointer,
        payload: &field[..size],
        ocf,
    };
    put_header(&frame, header);
    last.copy_from_slice(&ocf);
}

// Fills the data field, and returns where the first packet starts in it.
fn put_field(turn: &Turn, pending: &[u8], field: &mut [u8]) -> Pointer
    requires most { length field.old ≤ 2036 }
    requires idle_left { turn.now.idle_left ≤ 6 }
    requires begun { turn.now.begun < 2 ^ 63 }
    ensures size { length (field_with turn.now.idle_left pending.now (length field.old))
        ≡ length field.old }
    ensures field { field.new ≡ field_with turn.now.idle_left pending.now (length field.old) }
    ensures pointer { result ≡ pointer_with turn.now.idle_left turn.now.begun pending.now
        (length field.old) }
{
    if turn.idle_left == 0 && pending.is_empty() {
        field.fill(0x55);
        return Pointer::OnlyIdle;
    }
    put_data(turn.idle_left, pending, field);
    start_after(turn.idle_left + turn.begun, field.len())
}
