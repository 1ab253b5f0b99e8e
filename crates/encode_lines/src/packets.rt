// The space packet that a line spells.

ghost use Rattle.std.specs.Prelude.{◌≡◌, map, option_map, option_and_then};
ghost use Rattle.space_packet.specs.Layout.{packet_view};
ghost use Rattle.encode_lines.specs.Packets.{kind_in, is_gap, packet_line, packet_in, packet_decoded};

use crate::fields::{after_key, number_after};
use space_packet::{Packet, PacketKind};
use streams::is;

fn kind_in(word: &[u8]) -> Option<PacketKind>
    ensures { result ≡ kind_in word.now }
{
    if is(word, "TC") {
        Some(PacketKind::Telecommand)
    } else if is(word, "TM") {
        Some(PacketKind::Telemetry)
    } else {
        None
    }
}

// Returns whether a word states how many packets are missing.
fn is_gap(word: &[u8]) -> bool
    ensures { result ≡ is_gap word.now }
{
    is(word, "gap=-") || number_after(word, b"gap=", 16383).is_some()
}

// Returns the packet that these words spell, with the digits of its data instead of octets.
fn packet_line<'a>(
    kind: &[u8],
    secondary: &[u8],
    apid: &[u8],
    flags: &[u8],
    count: &[u8],
    gap: &[u8],
    payload: &'a [u8],
) -> Option<Packet<'a>>
    ensures { option_and_then packet_decoded (option_map packet_view result)
        ≡ packet_line kind.now secondary.now apid.now flags.now count.now gap.now payload.now }
{
    if !is_gap(gap) {
        return None;
    }
    let kind = kind_in(kind)?;
    let secondary = number_after(secondary, b"secondary=", 1)?;
    let apid = number_after(apid, b"apid=", 2047)?;
    let flags = number_after(flags, b"flags=", 3)?;
    let count = number_after(count, b"count=", 16383)?;
    let payload = after_key(payload, b"data=")?;
    Some(Packet {
        kind,
        secondary: secondary == 1,
        apid: apid as u16,
        flags: flags as u8,
        count: count as u16,
        payload,
    })
}

/// Returns the packet that the words of a line spell, with the digits of its data instead of
/// octets.
pub fn packet_in<'a>(words: &[&'a [u8]]) -> Option<Packet<'a>>
    ensures { option_and_then packet_decoded (option_map packet_view result)
        ≡ packet_in (map (λ word. word.now) words.now) }
{
    match words {
        [kind, secondary, apid, flags, count, gap, payload] => {
            packet_line(kind, secondary, apid, flags, count, gap, payload)
        }
        _ => None,
    }
}
