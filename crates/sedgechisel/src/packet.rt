// Space packets.

ghost use Rattle.std.specs.Prelude.{◌≡◌, length};
ghost use Rattle.octets.specs.Outcome.{map_ok};
ghost use Rattle.space_packet.specs.Layout.{packet_view, type_bit, secondary_bit};
ghost use Rattle.space_packet.specs.Encoding.{total_of, spelling};
ghost use Rattle.sedgechisel.specs.Answers.{IsRead, IsSpelled, IsWritten};
ghost use Rattle.sedgechisel.specs.Packets.{packet_described, fields_of, part_of, packet_read, packet_taken, total_declared, gap_seen, new_gaps, gaps_after, DescribesPacket};

use crate::numbers::{ABSENT, DAMAGED};
use crate::part::Part;
use octets::Wire;
use space_packet::{Packet, PacketFault, PacketKind, Packets, gap_between};

/// A space packet's fields (CCSDS 133.0-B-2, 4.1) without its data. The kind is 0 for telemetry and 1 for
/// telecommand; the secondary header flag is 0 or 1. For C it is `struct sedge_packet`.
#[repr(C)]
#[derive(Clone, Copy)]
pub struct PacketFields {
    /// The application process identifier, below 2,048; idle packets have 2,047 (4.1.3.3.4).
    pub apid: u16,
    /// The sequence count or the packet's name, below 16,384 (4.1.3.4.3).
    pub count: u16,
    /// Of `sedge_packet_kind`.
    pub kind: u8,
    /// Whether the data field begins with a secondary header, 0 or 1 (4.1.3.3.3).
    pub secondary: u8,
    /// The sequence flags, of `sedge_sequence_flags` (4.1.3.4.2).
    pub flags: u8,
}

/// Reads the packet at the beginning of the octets, and writes its fields and where its data field is. The
/// packet ends with its data field, and octets after it are ignored. Returns 0, or the first of 1 to 3 of
/// `sedge_packet_fault` that applies; the declared length (`SEDGE_PACKET_TRUNCATED`) is checked last.
#[unsafe(no_mangle)]
#[must_use]
pub extern "C" fn sedge_packet_decode(
    octets: &[u8],
    packet: &mut PacketFields,
    payload: &mut Part,
) -> u8
    ensures read { IsRead fields_of part_of (packet_read octets.now)
        packet.old packet.new payload.old payload.new result }

    // So `sedge_packet_encode` writes this packet from the fields and the data there.
    ensures describes { DescribesPacket octets.now packet.new payload.new }
{
    written!(space_packet::decode(octets), |(found, _)| {
        *packet = fields_from(&found);
        *payload = Part {
            from: 6,
            count: found.payload.len(),
        };
    })
}

/// Writes the packet with this data field to the beginning of `out`, and its length in octets, 6 more than
/// its data have, to `total`. Returns 0, or the first of `SEDGE_DAMAGED` (the kind is not in its enumeration,
/// or the secondary header flag is above 1), `SEDGE_PACKET_FIELD_RANGE` and `SEDGE_PACKET_ROOM`.
#[unsafe(no_mangle)]
#[must_use]
pub extern "C" fn sedge_packet_encode(
    packet: &PacketFields,
    payload: &[u8],
    out: &mut [u8],
    total: &mut usize,
) -> u8
    ensures { IsSpelled spelling total_of (packet_taken packet.now payload.now (length out.old))
        out.old out.new total.old total.new result }
{
    match packet_from(packet, payload) {
        Ok(described) => written!(
            space_packet::encode(&described, out),
            |count| *total = count
        ),
        Err(number) => number,
    }
}

/// Reads the length of the packet that begins with these octets from its first 6 octets, and writes it to
/// `total`; use it to cut a stream (4.1.3.5). Returns 0, or `SEDGE_PACKET_TRUNCATED` for fewer than 6 octets,
/// or `SEDGE_PACKET_VERSION`, or `SEDGE_PACKET_IDLE_WITH_SECONDARY`.
#[unsafe(no_mangle)]
#[must_use]
pub extern "C" fn sedge_packet_declared(octets: &[u8], total: &mut usize) -> u8
    ensures { IsWritten (λ n. n) (total_declared octets.now) total.old total.new result }
{
    if octets.len() < 6 {
        return PacketFault::Truncated.number();
    }
    written!(Packets::extent(octets), |count| *total = count)
}

/// The last sequence count that was seen of each application process (CCSDS 133.0-B-2, 4.1.3.4.3). For C it
/// is `struct sedge_gap_check`.
#[repr(C)]
#[derive(Clone, Copy)]
pub struct KeptGaps {
    /// The last count that was seen, by APID; above 16,383 if no packet of the APID was seen.
    pub last: [u16; 2048],
}

/// Begins a check of sequence counts that has seen no packet.
#[unsafe(no_mangle)]
pub extern "C" fn sedge_gap_check_open(check: &mut KeptGaps)
    ensures { check.new ≡ new_gaps }
{
    check.last = [65535; 2048];
}

/// Records a packet of this APID with this count, as `sedge_packet_decode` writes them, and writes the number
/// of packets missing before it to `missing`: (count - last - 1) modulo 16,384. Returns 0, or `SEDGE_ABSENT`
/// for the first packet of the APID, which is recorded too, or `SEDGE_PACKET_FIELD_RANGE` if `apid` is not
/// below 2,048 or `count` not below 16,384.
#[unsafe(no_mangle)]
#[must_use]
pub extern "C" fn sedge_gap_check_see(
    check: &mut KeptGaps,
    apid: u16,
    count: u16,
    missing: &mut u16,
) -> u8
    ensures gap { IsWritten (λ n. n) (gap_seen check.old.last apid count)
        missing.old missing.new result }
    ensures after { check.new ≡ gaps_after check.old apid count }
{
    if apid >= 2048 || count >= 16384 {
        return PacketFault::FieldRange.number();
    }
    let place = apid as usize;
    let last = check.last[place];
    check.last[place] = count;
    if last >= 16384 {
        return ABSENT;
    }
    *missing = gap_between(last, count);
    0
}

fn packet_from<'a>(fields: &PacketFields, payload: &'a [u8]) -> Result<Packet<'a>, u8>
    ensures { map_ok packet_view result ≡ packet_described fields.now payload.now }
{
    if fields.kind >= 2 || fields.secondary >= 2 {
        return Err(DAMAGED);
    }
    Ok(Packet {
        kind: if fields.kind == 0 {
            PacketKind::Telemetry
        } else {
            PacketKind::Telecommand
        },
        secondary: fields.secondary == 1,
        apid: fields.apid,
        flags: fields.flags,
        count: fields.count,
        payload: payload,
    })
}

fn fields_from(packet: &Packet) -> PacketFields
    ensures { result ≡ fields_of (packet_view packet.now) }
{
    PacketFields {
        apid: packet.apid,
        count: packet.count,
        kind: number_of_kind(packet.kind),
        secondary: number_of_flag(packet.secondary),
        flags: packet.flags,
    }
}

fn number_of_kind(kind: PacketKind) -> u8
    ensures { result ≡ type_bit kind }
{
    match kind {
        PacketKind::Telemetry => 0,
        PacketKind::Telecommand => 1,
    }
}

fn number_of_flag(secondary: bool) -> u8
    ensures { result ≡ secondary_bit secondary }
{
    u8::from(secondary)
}
