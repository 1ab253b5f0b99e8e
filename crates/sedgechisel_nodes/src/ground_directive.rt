// The directives to the ground of a program in C (CCSDS 232.1-B-2, 5.2.4).

ghost use Rattle.c_words.specs.Directives.{directive_named};
ghost use Rattle.sedgechisel_nodes.specs.Ground.{IsDirected};

use crate::answers::CLOSED;
use crate::handles::GroundHandle;
use c_words::directive_named;
use std::alloc::Global;

/// Gives the ground's sender a directive, of `sedge_directive` (sedgechisel.h), with its value; a directive
/// without a value ignores it. Returns 0, or `SEDGE_COP_WRONG_STATE`, or for a value out of range
/// `SEDGE_COP_WINDOW`, `SEDGE_COP_LIMIT` or `SEDGE_COP_TIMER`. Returns `SEDGE_NODE_NONE` also for a number
/// that is not a directive, and for a V(R) or V(S) above 255.
#[unsafe(no_mangle)]
#[must_use]
pub extern "C" fn sedge_ground_directive(
    alloc: Global,
    ground: &mut GroundHandle,
    directive: u8,
    value: u16,
) -> u8
    ensures { IsDirected (directive_named directive value) ground.old.value ground.new.value result }
{
    let Some(directive) = directive_named(directive, value) else {
        return CLOSED;
    };
    held!(alloc, ground, |node| match node.directive(directive) {
        Ok(_) => 0,
        Err(fault) => fault.number(),
    })
}
