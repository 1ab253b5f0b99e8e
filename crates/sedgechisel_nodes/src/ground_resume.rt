// A session of a program in C resumes after an alert.

ghost use Rattle.sedgechisel_nodes.specs.Ground.{IsResumed, IsResumption};
ghost use Rattle.std.specs.Prelude.{◌≡◌};
ghost use Rattle.nodes.specs.Ground.{ground_step, Resume};

use crate::handles::GroundHandle;
use nodes::Ground;
use std::alloc::Global;

fn resumed(node: &mut Ground, value: u8, whole: &mut u64) -> u8
    ensures answer { IsResumption (ground_step node.old (Resume value)).answer result whole.old whole.new }
    ensures after { node.new ≡ (ground_step node.old (Resume value)).after }
{
    match node.resume(value) {
        Ok(count) => {
            *whole = count;
            0
        }
        Err(fault) => fault.number(),
    }
}

/// Begins the next session after an alert, where the ended one stopped. Sets V(S) to the value of a CLCW that
/// was made when nothing was in transit on the uplink, and begins by Unlock (232.1-B-2, 5.2.4). If V(S) is
/// NN(R), the call accepts any value, so compare the value with V(S) first. Writes how many of the ended
/// session's submissions, counted from the first, are on board whole; resubmit the rest. If a submission of
/// several packets has more octets than a segment takes (`part`), it is whole only with its last packet: some
/// of its packets may be on board already, and be delivered again. Returns 0. Changes nothing and returns
/// `SEDGE_NODE_NOT_KNOWN` (10) if the sender is not in S6, no session has begun, V(S) was set or an alert has
/// shown a broken condition since, or V(S) is not NN(R) and the value does not lie from NN(R) to V(S).
#[unsafe(no_mangle)]
#[must_use]
pub extern "C" fn sedge_ground_resume(
    alloc: Global,
    ground: &mut GroundHandle,
    value: u8,
    whole: &mut u64,
) -> u8
    ensures { IsResumed value ground.old.value ground.new.value result whole.old whole.new }
{
    held!(alloc, ground, |node| resumed(&mut node, value, whole))
}
