// What a program in C submits to its ground.

ghost use Rattle.std.specs.Prelude.{◌≡◌, ◌≢◌};
ghost use Rattle.nodes.specs.Ground.{Submit, ground_step, submit_fault};
ghost use Rattle.sedgechisel_nodes.specs.Ground.{number_of, IsAnswer, IsSubmission};

use crate::handles::GroundHandle;
use nodes::{Ground, LinkFault};
use std::alloc::Global;

fn submitted(node: &mut Ground, map: u8, octets: &[u8]) -> u8
    ensures answer { IsAnswer (submit_fault node.old map octets.now) result }
    ensures after { result ≡ 0 → node.new ≡ (ground_step node.old (Submit map octets.now)).after }
    ensures unchanged { result ≢ 0 → node.new ≡ node.old }
{
    number_of(node.submit(map, octets))
}

pub(crate) fn number_of(outcome: Result<(), LinkFault>) -> u8
    ensures { result ≡ number_of outcome }
{
    match outcome {
        Ok(()) => 0,
        Err(fault) => fault.number(),
    }
}

/// Submits one packet on a MAP under sequence control, or several if blocking is on. `sedge_map_count` writes
/// the number of their segments. `sedge_ground_resume` is promised to count correctly only the submissions
/// that are one packet, or packets that share one segment. Returns 0, or the first of 1 to 5 of
/// `sedge_node_status` that applies, or `SEDGE_NODE_MEMORY`.
#[unsafe(no_mangle)]
#[must_use]
pub extern "C" fn sedge_ground_submit(
    alloc: Global,
    ground: &mut GroundHandle,
    map: u8,
    octets: &[u8],
) -> u8
    ensures { IsSubmission (λ s. submit_fault s map octets.now) (Submit map octets.now)
        ground.old.value ground.new.value result }
{
    held!(alloc, ground, |node| submitted(&mut node, map, octets))
}
