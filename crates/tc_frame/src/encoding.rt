// Writing a frame as octets.

ghost use Rattle.std.specs.Prelude.{◌≡◌, ◌<◌, ◌≤◌, ◌+◌, ◌-◌, ◌*◌, ◌^◌, ◌++◌, length, take, drop, true, IfOk, OnErr};
ghost use Rattle.byteorder.specs.Endian.{big_bytes};
ghost use Rattle.tc_frame.specs.Layout.{frame_view, body_view, segment_view, bypass_flag, control_flag, segment_octets, command_octets, body_octets, body_fits, IsTcFrame};
ghost use Rattle.tc_frame.specs.Encoding.{total_of, first_number, second_number, front_octets, spelling, frame_fits, encode_answer};

use crate::decoding::len_of_check;
use crate::fault::TcFault;
use crate::frame::{Body, Check, Command, Segment, TcFrame};
use byteorder::{BigEndian, ByteOrder};
use octets::append_check;

/// Writes the frame, with or without its FECF, at the beginning of `out`, and returns its length:
/// at most 1,024 octets (CCSDS 232.0-B-4, 4.1). Refuses with 11 `FieldRange` a field out of range,
/// empty data or a longer frame, and then with 10 `Room` an output that is too short.
/// Faults: 11 FieldRange, then 10 Room. Cost: n.
pub fn encode(frame: &TcFrame, check: Check, out: &mut [u8]) -> Result<usize, TcFault>
    ensures answer { result ≡ encode_answer check (frame_view frame.now) (length out.old) }
    ensures ok { IfOk result (λ n. out.new
        ≡ spelling check (frame_view frame.now) ++ drop n out.old) }
    ensures err { OnErr result (out.new ≡ out.old) }

    // So `decode` reads them as this frame.
    ensures spells { IfOk result (λ n. IsTcFrame check (frame_view frame.now) (take n out.new)) }
{
    if !is_in_range(frame, check) {
        return Err(TcFault::FieldRange);
    }
    let total = frame.total(check);
    let (room, _) = out.split_at_mut_checked(total).ok_or(TcFault::Room)?;
    put_frame(frame, check, room);
    Ok(total)
}

fn is_in_range(frame: &TcFrame, check: Check) -> bool
    ensures { result ≡ frame_fits check (frame_view frame.now) }
{
    frame.scid < 1024
        && frame.vcid < 64
        && is_body_in_range(&frame.body)
        && frame.total(check) <= 1024
}

fn is_body_in_range(body: &Body) -> bool
    ensures { result ≡ body_fits (body_view body.now) }
{
    match body {
        Body::Ad { segment, .. } | Body::Bd { segment } => {
            segment.header.map < 64 && !segment.payload.is_empty()
        }
        Body::Bc(_) => true,
    }
}

impl TcFrame<'_> {
    ghost use Rattle.std.specs.Prelude.{◌≡◌};
    ghost use Rattle.tc_frame.specs.Layout.{frame_view};
    ghost use Rattle.tc_frame.specs.Encoding.{total_of};

    /// Returns the number of octets in the frame, with or without its FECF (CCSDS 232.0-B-4,
    /// 4.1.2.7).
    pub fn total(&self, check: Check) -> usize
        ensures { result ≡ total_of check (frame_view self.now) }
    {
        4 + len_of_body(&self.body) + len_of_check(check)
    }
}

fn len_of_body(body: &Body) -> usize
    ensures value { result ≡ length (body_octets (body_view body.now)) }
    ensures bound { result ≤ 2 ^ 63 + 2 }
{
    match body {
        Body::Ad { segment, .. } | Body::Bd { segment } => 2 + segment.payload.len(),
        Body::Bc(Command::Unlock) => 2,
        Body::Bc(Command::SetVr(_)) => 4,
    }
}

fn put_frame(frame: &TcFrame, check: Check, out: &mut [u8])
    requires fits { frame_fits check (frame_view frame.now) ≡ true }
    requires room { length out.old ≡ total_of check (frame_view frame.now) }
    ensures { out.new ≡ spelling check (frame_view frame.now) }
{
    let front_len = out.len() - len_of_check(check);
    put_front(frame, check, &mut out[..front_len]);
    if check == Check::On {
        append_check(out);
    }
}

fn put_front(frame: &TcFrame, check: Check, out: &mut [u8])
    requires fits { frame_fits check (frame_view frame.now) ≡ true }
    requires room { length out.old ≡ 4 + length (body_octets (body_view frame.now.body)) }
    ensures { out.new ≡ front_octets check (frame_view frame.now) }
{
    let (header, rest) = out.split_at_mut(4);
    put_header(frame, check, header);
    put_body(&frame.body, rest);
}

fn put_header(frame: &TcFrame, check: Check, out: &mut [u8])
    requires fits { frame_fits check (frame_view frame.now) ≡ true }
    requires room { length out.old ≡ 4 }
    ensures { let view = frame_view frame.now in
        out.new ≡ big_bytes 2 (first_number view) ++ big_bytes 2 (second_number check view) }
{
    let total = frame.total(check);
    let (first, second) = out.split_at_mut(2);
    BigEndian::write_u16(first, flags_of(&frame.body) + frame.scid);
    BigEndian::write_u16(second, (u16::from(frame.vcid) << 10) + (total - 1) as u16);
}

fn flags_of(body: &Body) -> u16
    ensures { let view = body_view body.now in
        result ≡ 8192 * bypass_flag view + 4096 * control_flag view }
{
    match body {
        Body::Ad { .. } => 0,
        Body::Bd { .. } => 0x2000,
        Body::Bc(_) => 0x3000,
    }
}

#[tactic(auto, using(octets::proofs::Checked::put_head))]
fn put_body(body: &Body, out: &mut [u8])
    requires fits { body_fits (body_view body.now) ≡ true }
    requires room { length out.old ≡ length (body_octets (body_view body.now)) }
    ensures { out.new ≡ body_octets (body_view body.now) }
{
    match body {
        Body::Ad { n, segment } => {
            out[0] = *n;
            put_segment(segment, &mut out[1..]);
        }
        Body::Bd { segment } => {
            out[0] = 0;
            put_segment(segment, &mut out[1..]);
        }
        Body::Bc(command) => {
            out[0] = 0;
            put_command(*command, &mut out[1..]);
        }
    }
}

#[tactic(auto, using(octets::proofs::Checked::put_head))]
fn put_segment(segment: &Segment, out: &mut [u8])
    requires map { segment.now.header.map < 64 }
    requires room { length out.old ≡ 1 + length segment.now.payload.now }
    ensures { out.new ≡ segment_octets (segment_view segment.now) }
{
    out[0] = segment.header.octet();
    out[1..].copy_from_slice(segment.payload);
}

fn put_command(command: Command, out: &mut [u8])
    requires { length out.old ≡ length (command_octets command) }
    ensures { out.new ≡ command_octets command }
{
    match command {
        Command::Unlock => out[0] = 0x00,
        Command::SetVr(number) => {
            out[0] = 0x82;
            out[1] = 0x00;
            out[2] = number;
        }
    }
}
