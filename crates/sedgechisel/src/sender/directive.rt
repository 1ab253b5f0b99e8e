// The directives to the sender (CCSDS 232.1-B-2, 5.2.4).

ghost use Rattle.c_words.specs.Directives.{directive_named};
ghost use Rattle.sedgechisel.specs.Senders.{directed, IsAnswered};

use super::KeptSender;
use super::fields::{described, kept};
use crate::numbers::DAMAGED;
use c_words::directive_named;

/// Gives the sender a directive, of `sedge_directive`, with its value; a directive without a value ignores
/// it. Returns 0, or `SEDGE_COP_WRONG_STATE`, or for a value out of range `SEDGE_COP_WINDOW`,
/// `SEDGE_COP_LIMIT` or `SEDGE_COP_TIMER`. Returns `SEDGE_DAMAGED` also for a number that is not a directive,
/// and for a V(R) or V(S) above 255.
#[unsafe(no_mangle)]
#[must_use]
pub extern "C" fn sedge_fop_directive(sender: &mut KeptSender, directive: u8, value: u16) -> u8
    ensures { IsAnswered (directed sender.old (directive_named directive value)) sender.old sender.new result }
{
    let Some(directive) = directive_named(directive, value) else {
        return DAMAGED;
    };
    match described(sender) {
        Ok(mut machine) => written!(machine.directive(directive), |_| *sender = kept(&machine)),
        Err(number) => number,
    }
}
