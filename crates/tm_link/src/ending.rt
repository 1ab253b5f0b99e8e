// Where packets end.

ghost use Rattle.std.specs.Prelude.{◌≡◌, ◌≤◌, ◌<◌, ◌+◌, ◌++◌, length, take};
ghost use Rattle.octets.specs.Records.{rest_of};
ghost use Rattle.space_packet.specs.Decoding.{extent_at};
ghost use Rattle.tm_link.specs.Extractor.{ending_by, ending_of, is_idle};

use octets::{Wire, first_two, low_eleven};
use space_packet::{Packets, is_idle_apid, packet_len};

/// Where octets end, if they begin with the start of a packet.
#[derive(Clone, Copy, Debug, PartialEq, Eq)]
pub enum Ending {
    /// With the packet.
    Whole,
    /// Before its end.
    Short,
    /// After its end, or its header is refused.
    Wrong,
}

/// Returns how the part of a packet, and more octets after it, compare with the length that the
/// packet declares.
pub fn ending_with(part: &[u8], more: &[u8]) -> Ending
    ensures value { result ≡ ending_of (part.now ++ more.now) }
    ensures short { result ≡ Ending.Short → length part.now + length more.now < 65542 }
{
    let count = part.len() + more.len();
    if count < 6 {
        return Ending::Short;
    }
    let mut header = [0; 6];
    put_front(part, more, &mut header);
    ending_for(&header, count)
}

fn ending_for(header: &[u8], count: usize) -> Ending
    requires { length header.now ≡ 6 }
    ensures value { result ≡ ending_by (extent_at header.now) count }
    ensures short { result ≡ Ending.Short → count < 65542 }
{
    match Packets::extent(header) {
        Ok(size) => {
            if size == count {
                Ending::Whole
            } else if count < size {
                Ending::Short
            } else {
                Ending::Wrong
            }
        }
        Err(_) => Ending::Wrong,
    }
}

/// Returns whether the packet that begins with the part, and more octets after it, is idle (CCSDS
/// 133.0-B-2, 4.1.3.3.4).
pub fn is_idle_with(part: &[u8], more: &[u8]) -> bool
    requires { 2 ≤ length part.now + length more.now }
    ensures { result ≡ is_idle (part.now ++ more.now) }
{
    let mut header = [0; 2];
    put_front(part, more, &mut header);
    is_idle_apid(low_eleven(first_two(&header)))
}

// Writes the first octets of the two parts joined.
fn put_front(part: &[u8], more: &[u8], out: &mut [u8])
    requires { length out.old ≤ length part.now + length more.now }
    ensures { out.new ≡ take (length out.old) (part.now ++ more.now) }
{
    let count = part.len().min(out.len());
    let (first, rest) = out.split_at_mut(count);
    first.copy_from_slice(&part[..count]);
    rest.copy_from_slice(&more[..rest.len()]);
}

/// Returns what is left after the whole packets at the beginning of the octets.
/// Cost: the number of packets.
pub fn rest_after_packets(octets: &[u8]) -> &[u8]
    ensures { result.now ≡ rest_of 6 extent_at octets.now }
{
    let mut rest = octets;
    while let Some(size) = packet_len(rest) {
        rest = &rest[size..];
    }
    rest
}
