// What a program in C keeps of a ground, and a ground that continues from it.

ghost use Rattle.std.specs.Prelude.{◌≡◌, Some};
ghost use Rattle.nodes.specs.KeptGround.{opened_at};
ghost use Rattle.sedgechisel_nodes.specs.Calls.{IsRead, IsOpenedAs};
ghost use Rattle.sedgechisel_nodes.specs.GroundKept.{record_of, record_read, IsRecord};

use crate::answers::{MEMORY, OUT_OF_RANGE};
use crate::handles::GroundHandle;
use crate::holds::open;
use nodes::{Config, Ground, KeptGround, LinkFault};
use std::alloc::Global;

/// The record of a ground: V(S) and NN(R) (CCSDS 232.1-B-2, 5.1), and the counts of the submissions that were
/// sent whole. The record has no padding, so its octets may be stored as they are, and read on the same
/// machine. For C it is `struct sedge_kept_ground`.
#[repr(C)]
#[derive(Clone, Copy)]
pub struct GroundKept {
    /// How many submissions are acknowledged whole, modulo 2^64.
    pub acknowledged: u64,
    /// V(S), the number of the next segment that is sent for the first time.
    pub vs: u8,
    /// NN(R), the number that the spacecraft was last known to expect.
    pub nn: u8,
    /// 1 if these numbers are a session's and no alert has shown a broken condition, otherwise 0.
    pub known: u8,
    /// The number of further submissions that were sent whole, 0 to 127.
    pub whole: u8,
    /// For each of these, the oldest first, the number of its segments that are not acknowledged; then zeros.
    pub segments: [u8; 127],
    /// Zeros, which are not read.
    pub zeros: [u8; 5],
}

fn record(node: &Ground) -> GroundKept
    ensures { result ≡ record_of node.now }
{
    let kept = node.kept();
    let segments = kept.segments;
    let zeros = [0; 5];
    GroundKept {
        acknowledged: kept.acknowledged,
        vs: kept.vs,
        nn: kept.nn,
        known: u8::from(kept.known),
        whole: kept.whole,
        segments,
        zeros,
    }
}

fn kept_in(written: &GroundKept) -> KeptGround
    ensures { result ≡ record_read written.now }
{
    let segments = written.segments;
    KeptGround {
        acknowledged: written.acknowledged,
        vs: written.vs,
        nn: written.nn,
        known: written.known == 1,
        whole: written.whole,
        segments,
    }
}

/// Writes the ground's record, which has a fixed size; the ground does not change. Store the record after
/// each call, and after `sedge_ground_pull` before the frame is sent. If the ground is lost,
/// `sedge_ground_open_kept` opens another one from the record. The record contains nothing of submissions
/// that were not sent whole, of bypass packets, of telemetry, or of what directives set. Returns 0.
#[unsafe(no_mangle)]
pub extern "C" fn sedge_ground_kept(
    alloc: Global,
    ground: &mut GroundHandle,
    kept: &mut GroundKept,
) -> u8
    ensures { IsRead (λ s. Some (record_of s)) ground.old.value ground.new.value result kept.old kept.new }
{
    read!(alloc, ground, kept, |node| record(&node))
}

/// Opens a ground that continues from the record of a lost one, which `sedge_ground_kept` wrote. It is in S6,
/// with the V(S), the NN(R) and the counts of submissions of the record. The new ground is the lost one after
/// Terminate, without what waited, and with the window, the limit and the timer of the configuration. So
/// `sedge_ground_resume` can begin the next session, as after an alert. A ground that the handle holds is
/// treated as by `sedge_ground_open`. Returns 0, `SEDGE_NODE_OUT_OF_RANGE` (also for a record that no ground
/// of this configuration writes) or `SEDGE_NODE_MEMORY`.
#[unsafe(no_mangle)]
#[must_use]
pub extern "C" fn sedge_ground_open_kept(
    alloc: Global,
    ground: &mut GroundHandle,
    config: &Config,
    kept: &GroundKept,
) -> u8
    ensures { IsOpenedAs (IsRecord config.now kept.now) (opened_at config.now (record_read kept.now))
        ground.old.value ground.new.value result }
{
    let Ok(valid) = config.valid() else {
        return OUT_OF_RANGE;
    };
    if kept.known > 1 {
        return OUT_OF_RANGE;
    }
    match Ground::open_at(alloc, &valid, &kept_in(kept)) {
        Ok(node) => open(ground, alloc, node),
        Err(LinkFault::NotKnown) => OUT_OF_RANGE,
        Err(_) => MEMORY,
    }
}
