// The communications link control word.

ghost use Rattle.std.specs.Prelude.{length};
ghost use Rattle.sedgechisel.specs.Answers.{IsWritten};
ghost use Rattle.sedgechisel.specs.TelemetryFrames.{word_read, word_written};

use crate::numbers::WRONG_COUNT;
use clcw::Clcw;

/// Reads four octets as a CLCW of any virtual channel: compare its vcid with your own before you use its
/// value or its flags (`sedge_fop_clcw` does so itself). Returns 0, or the first of 1 to 4 of
/// `sedge_clcw_fault` that applies, or `SEDGE_WRONG_COUNT` if the octets are not four.
#[unsafe(no_mangle)]
#[must_use]
pub extern "C" fn sedge_clcw_decode(octets: &[u8], word: &mut Clcw) -> u8
    ensures { IsWritten (λ found. found) (word_read octets.now) word.old word.new result }
{
    let four = match octets {
        [first, second, third, fourth] => [*first, *second, *third, *fourth],
        _ => return WRONG_COUNT,
    };
    written!(clcw::decode(four), |found| *word = found)
}

/// Writes a CLCW as four octets. Returns 0, `SEDGE_CLCW_RANGE`, or `SEDGE_WRONG_COUNT` if the buffer is not
/// four octets long.
#[unsafe(no_mangle)]
#[must_use]
pub extern "C" fn sedge_clcw_encode(word: &Clcw, out: &mut [u8]) -> u8
    ensures { IsWritten (λ octets. octets) (word_written word.now (length out.old)) out.old out.new result }
{
    if out.len() != 4 {
        return WRONG_COUNT;
    }
    written!(clcw::encode(word), |octets| out.copy_from_slice(&octets))
}
