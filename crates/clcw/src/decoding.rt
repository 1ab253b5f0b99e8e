// Reads a CLCW.

ghost use Rattle.std.specs.Prelude.{◌≡◌, Ok, IfOk};
ghost use Rattle.clcw.specs.Layout.{IsClcw};
ghost use Rattle.clcw.specs.Decoding.{clcw_at};
ghost use Rattle.clcw.specs.declared.word.Clcw.{Clcw};

use crate::fault::ClcwFault;
use crate::flags::ClcwFlags;
use crate::word::Clcw;

/// Returns the CLCW that four octets spell (CCSDS 232.0-B-4, 4.2.1). Refuses with the first fault
/// that applies.
/// Faults: 1 Kind, 2 Version, 3 Cop, 4 Spare.
#[tactic(auto, unfolding(crate::specs::Decoding::clcw_at))]
pub fn decode(octets: [u8; 4]) -> Result<Clcw, ClcwFault>
    ensures reading { result ≡ clcw_at octets }
    ensures found { IfOk result (λ word. IsClcw word octets) }
    ensures only { (word : Clcw) → IsClcw word octets → result ≡ Ok word }
{
    let [first, second, third, value] = octets;
    if first >> 7 != 0 {
        return Err(ClcwFault::Kind);
    }
    if first >> 5 != 0 {
        return Err(ClcwFault::Version);
    }
    if first % 4 != 1 {
        return Err(ClcwFault::Cop);
    }
    if second % 4 != 0 {
        return Err(ClcwFault::Spare);
    }
    if third % 2 != 0 {
        return Err(ClcwFault::Spare);
    }
    Ok(Clcw {
        status: first >> 2,
        vcid: second >> 2,
        flags: ClcwFlags::among(third),
        farm_b: third / 2 % 4,
        value,
    })
}
