// Numbers in octets, the most significant octet first.

ghost use Rattle.std.specs.Prelude.{◌≡◌, ◌≤◌, ◌%◌, length, take};
ghost use Rattle.octets.specs.Number.{number_of};

use byteorder::{BigEndian, ByteOrder};

/// Returns the number that the first two octets spell, the first the more significant (the bit
/// numbering of the CCSDS books: bit 0 is the most significant and is sent first).
pub fn first_two(octets: &[u8]) -> u16
    requires { 2 ≤ length octets.now }
    ensures { result ≡ number_of (take 2 octets.now) }
{
    BigEndian::read_u16(octets)
}

/// Returns the lowest eleven bits: an APID (CCSDS 133.0-B-2, 4.1.3.3.4), or a first header pointer
/// (CCSDS 132.0-B-3, 4.1.2.7.6).
pub fn low_eleven(number: u16) -> u16
    ensures { result ≡ number % 2048 }
{
    number & 0x7ff
}
