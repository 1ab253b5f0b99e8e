// The octets of a frame and of a packet.

ghost use Rattle.std.specs.Prelude.{◌≡◌, option_and_then};
ghost use Rattle.space_packet.specs.Layout.{packet_view};
ghost use Rattle.tc_frame.specs.Layout.{body_view, frame_view};
ghost use Rattle.encode_lines.specs.Frames.{digits_of, frame_decoded, frame_octets, with_octets};
ghost use Rattle.encode_lines.specs.Packets.{packet_decoded, packet_octets};
ghost use Rattle.encode_lines.specs.Octets.{Puts};

use crate::fields::octets_of_digits;
use space_packet::Packet;
use std::alloc::{AllocError, Global};
use tc_frame::{Body, Check, Segment, TcFrame};

// Appends the octets of a frame if its fields are in range, and returns whether they are.
fn put_whole_frame(frame: &TcFrame, check: Check, text: &mut Vec<u8>) -> Result<bool, AllocError>
    ensures { Puts result text.old.items text.new.items (frame_octets check (frame_view frame.now)) }
{
    let mut room = [0; 1024];
    match tc_frame::encode(frame, check, &mut room) {
        Ok(count) => {
            text.extend_from_slice(&room[..count])?;
            Ok(true)
        }
        Err(_) => Ok(false),
    }
}

// Returns the digits that a body has instead of octets.
fn digits_of<'a>(body: &Body<'a>) -> &'a [u8]
    ensures { result.now ≡ digits_of (body_view body.now) }
{
    match body {
        Body::Ad { segment, .. } | Body::Bd { segment } => segment.payload,
        Body::Bc(_) => b"",
    }
}

// Returns a body with these octets instead of digits.
fn with_octets<'a>(body: &Body, octets: &'a [u8]) -> Body<'a>
    ensures { body_view result ≡ with_octets (body_view body.now) octets.now }
{
    match body {
        Body::Ad { n, segment } => Body::Ad {
            n: *n,
            segment: Segment {
                header: segment.header,
                payload: octets,
            },
        },
        Body::Bd { segment } => Body::Bd {
            segment: Segment {
                header: segment.header,
                payload: octets,
            },
        },
        Body::Bc(command) => Body::Bc(*command),
    }
}

/// Appends the octets of a frame that has the digits of its data instead of octets, and returns whether
/// there are any.
pub fn put_frame(
    alloc: Global,
    frame: &TcFrame,
    check: Check,
    text: &mut Vec<u8>,
) -> Result<bool, AllocError>
    ensures { Puts result text.old.items text.new.items
        (option_and_then (frame_octets check) (frame_decoded (frame_view frame.now))) }
{
    let Some(octets) = octets_of_digits(alloc, digits_of(&frame.body))? else {
        return Ok(false);
    };
    let frame = TcFrame {
        scid: frame.scid,
        vcid: frame.vcid,
        body: with_octets(&frame.body, octets.as_slice()),
    };
    put_whole_frame(&frame, check, text)
}

// Appends the octets of a packet if its fields are in range, and returns whether they are.
fn put_whole_packet(alloc: Global, packet: &Packet, text: &mut Vec<u8>) -> Result<bool, AllocError>
    ensures { Puts result text.old.items text.new.items (packet_octets (packet_view packet.now)) }
{
    let mut room = vec![in alloc; 0; 6 + packet.payload.len()]?;
    match space_packet::encode(packet, room.as_mut_slice()) {
        Ok(_) => {
            text.extend_from_slice(room.as_slice())?;
            Ok(true)
        }
        Err(_) => Ok(false),
    }
}

/// Appends the octets of a packet that has the digits of its data instead of octets, and returns whether
/// there are any.
pub fn put_packet(alloc: Global, packet: &Packet, text: &mut Vec<u8>) -> Result<bool, AllocError>
    ensures { Puts result text.old.items text.new.items
        (option_and_then packet_octets (packet_decoded (packet_view packet.now))) }
{
    let Some(octets) = octets_of_digits(alloc, packet.payload)? else {
        return Ok(false);
    };
    let packet = Packet {
        kind: packet.kind,
        secondary: packet.secondary,
        apid: packet.apid,
        flags: packet.flags,
        count: packet.count,
        payload: octets.as_slice(),
    };
    put_whole_packet(alloc, &packet, text)
}
