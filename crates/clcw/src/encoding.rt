// Writes a CLCW.

ghost use Rattle.std.specs.Prelude.{◌≡◌, Ok, IfOk};
ghost use Rattle.clcw.specs.Layout.{IsClcw};
ghost use Rattle.clcw.specs.Decoding.{clcw_at};
ghost use Rattle.clcw.specs.Encoding.{encode_answer};

use crate::fault::ClcwFault;
use crate::word::Clcw;
use bitflags::Flags;

/// Returns the four octets that spell a CLCW (CCSDS 232.0-B-4, 4.2.1). Refuses a field that is too
/// large for its bits, and a flag bit that has no name.
/// Faults: 5 Range.
pub fn encode(word: &Clcw) -> Result<[u8; 4], ClcwFault>
    ensures answer { result ≡ encode_answer word.now }
    ensures spells { IfOk result (λ octets. IsClcw word.now octets) }
    ensures back { IfOk result (λ octets. clcw_at octets ≡ Ok word.now) }
{
    if word.status >= 8 || word.vcid >= 64 || word.farm_b >= 4 || !word.flags.are_named() {
        return Err(ClcwFault::Range);
    }
    Ok([
        4 * word.status + 1,
        4 * word.vcid,
        word.flags.bits() + 2 * word.farm_b,
        word.value,
    ])
}
