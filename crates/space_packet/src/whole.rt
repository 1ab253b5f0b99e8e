// Octets as whole packets.

ghost use Rattle.std.specs.Prelude.{◌≡◌, ◌≤◌, length, take, IfSome, IsTrue, option_map};
ghost use Rattle.space_packet.specs.Packets.{first_packet, is_packet};

use crate::decoding::decode;

/// Returns the number of octets of the packet that these octets begin with; `None` if they begin
/// with no packet (CCSDS 133.0-B-2, 4.1.3.5).
pub fn packet_len(octets: &[u8]) -> Option<usize>
    ensures first { option_map (λ n. take n octets.now) result ≡ first_packet octets.now }
    ensures within { IfSome result (λ n. (1 ≤ n) × (n ≤ length octets.now)) }
    ensures range { IfSome result (λ n. (7 ≤ n) × (n ≤ 65542)) }
{
    match decode(octets) {
        Ok((_, len)) => Some(len),
        Err(_) => None,
    }
}

/// Returns whether the octets are exactly one whole packet, of either type, idle or not, with
/// nothing after it (CCSDS 133.0-B-2, 4.1).
pub fn is_packet(octets: &[u8]) -> bool
    ensures one { result ≡ is_packet octets.now }
    ensures range { IsTrue result → (7 ≤ length octets.now) × (length octets.now ≤ 65542) }
{
    match packet_len(octets) {
        Some(len) => len == octets.len(),
        None => false,
    }
}
