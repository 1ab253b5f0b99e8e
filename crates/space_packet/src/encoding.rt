// Writing a packet as octets.

ghost use Rattle.std.specs.Prelude.{◌≡◌, ◌+◌, ◌*◌, ◌++◌, length, drop, true, IfOk, OnErr};
ghost use Rattle.space_packet.specs.Layout.{packet_view, type_bit, secondary_bit, IsFirstPacket};
ghost use Rattle.space_packet.specs.Encoding.{total_of, header_octets, spelling, packet_fits, encode_answer};

use crate::decoding::is_idle_with;
use crate::fault::PacketFault;
use crate::packet::{Packet, PacketKind};
use byteorder::{BigEndian, ByteOrder};

/// Writes the packet at the beginning of `out`, and returns its length: 7 to 65,542 octets (CCSDS
/// 133.0-B-2, 4.1). The octets after the packet stay unchanged. Refuses with 5 `FieldRange` a field
/// out of range, a payload of no octets or of more than 65,536, or an idle packet with a secondary
/// header. Then refuses with 4 `Room` an output that is too short.
/// Faults: 5 FieldRange, then 4 Room. Cost: n.
pub fn encode(packet: &Packet, out: &mut [u8]) -> Result<usize, PacketFault>
    ensures answer { result ≡ encode_answer (packet_view packet.now) (length out.old) }
    ensures ok { IfOk result (λ n. out.new ≡ spelling (packet_view packet.now) ++ drop n out.old) }
    ensures err { OnErr result (out.new ≡ out.old) }

    // So `decode` reads this packet, whatever follows.
    ensures spells { IfOk result (λ n. IsFirstPacket (packet_view packet.now) n out.new) }
{
    if !is_in_range(packet) {
        return Err(PacketFault::FieldRange);
    }
    let total = 6 + packet.payload.len();
    let (room, _) = out.split_at_mut_checked(total).ok_or(PacketFault::Room)?;
    put_packet(packet, room);
    Ok(total)
}

fn is_in_range(packet: &Packet) -> bool
    ensures { result ≡ packet_fits (packet_view packet.now) }
{
    packet.apid < 2048
        && packet.flags < 4
        && packet.count < 16384
        && !packet.payload.is_empty()
        && packet.payload.len() <= 65536
        && !is_idle_with(packet.apid, packet.secondary)
}

fn put_packet(packet: &Packet, out: &mut [u8])
    requires fits { packet_fits (packet_view packet.now) ≡ true }
    requires room { length out.old ≡ total_of (packet_view packet.now) }
    ensures { out.new ≡ spelling (packet_view packet.now) }
{
    let (header, rest) = out.split_at_mut(6);
    put_header(packet, header);
    rest.copy_from_slice(packet.payload);
}

fn put_header(packet: &Packet, out: &mut [u8])
    requires fits { packet_fits (packet_view packet.now) ≡ true }
    requires room { length out.old ≡ 6 }
    ensures { out.new ≡ header_octets (packet_view packet.now) }
{
    let (first, rest) = out.split_at_mut(2);
    let (second, third) = rest.split_at_mut(2);
    BigEndian::write_u16(
        first,
        type_of(packet.kind) + secondary_of(packet.secondary) + packet.apid,
    );
    BigEndian::write_u16(second, (u16::from(packet.flags) << 14) + packet.count);
    BigEndian::write_u16(third, (packet.payload.len() - 1) as u16);
}

fn type_of(kind: PacketKind) -> u16
    ensures { result ≡ 4096 * type_bit kind }
{
    match kind {
        PacketKind::Telemetry => 0,
        PacketKind::Telecommand => 0x1000,
    }
}

fn secondary_of(secondary: bool) -> u16
    ensures { result ≡ 2048 * secondary_bit secondary }
{
    if secondary { 0x0800 } else { 0 }
}
