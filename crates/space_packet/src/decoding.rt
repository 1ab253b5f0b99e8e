// Reading octets as a packet.

ghost use Rattle.std.specs.Prelude.{◌≡◌, ◌<◌, ◌≤◌, ◌/◌, ◌%◌, ◌^◌, ◌==◌, ℕ, length, take, IfOk, Ok};
ghost use Rattle.octets.specs.Outcome.{map_ok};
ghost use Rattle.space_packet.specs.Layout.{PacketView, packet_view, is_idle_with_secondary, IsFirstPacket};
ghost use Rattle.space_packet.specs.Decoding.{found_view, extent_at, kind_at, packet_at};

use crate::fault::PacketFault;
use crate::packet::{Packet, PacketKind, is_idle_apid};
use octets::{first_two, low_eleven};

/// Reads the packet that the octets begin with (CCSDS 133.0-B-2, 4.1), and returns it with its number of
/// octets. The packet borrows its data from the octets. Octets after the packet are not looked at. Refuses,
/// in this order: fewer than 6 octets (1 `Truncated`), a version other than 000 (2 `Version`), an idle packet
/// with a secondary header (3 `IdleWithSecondary`), and fewer octets than declared (1 `Truncated`).
/// Faults: 1 Truncated, 2 Version, 3 IdleWithSecondary.
#[tactic(auto, using(crate::proofs::Decoded::packet_again))]
pub fn decode(octets: &[u8]) -> Result<(Packet<'_>, usize), PacketFault>
    ensures answer { map_ok found_view result ≡ packet_at octets.now }

    // It is a packet and its length exactly when this many octets spell the packet.
    ensures found { IfOk result (λ f. IsFirstPacket (packet_view f.0) f.1 octets.now) }
    ensures only { (p : PacketView) (n : ℕ) → IsFirstPacket p n octets.now
        → map_ok found_view result ≡ Ok (p, n) }
{
    packet_of(octets)
}

#[tactic(auto, unfolding(crate::specs::Decoding::packet_at))]
fn packet_of(octets: &[u8]) -> Result<(Packet<'_>, usize), PacketFault>
    ensures { map_ok found_view result ≡ packet_at octets.now }
{
    if octets.len() < 6 {
        return Err(PacketFault::Truncated);
    }
    let len = declared_len(octets)?;
    if octets.len() < len {
        return Err(PacketFault::Truncated);
    }
    let first = first_two(octets);
    let second = first_two(&octets[2..]);
    let whole = &octets[..len];
    let packet = Packet {
        kind: kind_of(first),
        secondary: has_secondary(first),
        apid: low_eleven(first),
        flags: (second >> 14) as u8,
        count: low_fourteen(second),
        payload: &whole[6..],
    };
    Ok((packet, len))
}

#[tactic(auto, unfolding(crate::specs::Decoding::extent_at))]
pub(crate) fn declared_len(head: &[u8]) -> Result<usize, PacketFault>
    requires { 6 ≤ length head.now }
    ensures value { result ≡ extent_at (take 6 head.now) }
    ensures least { IfOk result (λ n. 7 ≤ n) }
{
    let first = first_two(head);
    if first >> 13 != 0 {
        return Err(PacketFault::Version);
    }
    if is_idle_with(low_eleven(first), has_secondary(first)) {
        return Err(PacketFault::IdleWithSecondary);
    }
    Ok(first_two(&head[4..]) as usize + 7)
}

pub(crate) fn is_idle_with(apid: u16, secondary: bool) -> bool
    ensures { result ≡ is_idle_with_secondary apid secondary }
{
    is_idle_apid(apid) && secondary
}

fn kind_of(first: u16) -> PacketKind
    ensures { result ≡ kind_at (first / 4096 % 2) }
{
    if (first >> 12) & 1 == 0 {
        PacketKind::Telemetry
    } else {
        PacketKind::Telecommand
    }
}

fn has_secondary(first: u16) -> bool
    ensures { result ≡ (first / 2048 % 2 == 1) }
{
    (first >> 11) & 1 == 1
}

fn low_fourteen(number: u16) -> u16
    ensures { result ≡ number % 16384 }
{
    number & 0x3fff
}
