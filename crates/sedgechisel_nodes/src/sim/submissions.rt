// The submissions of a session, in their order, each with its MAP.

ghost use Rattle.std.specs.Prelude.{◌≡◌, ◌≢◌, Some, None, IfSome, option_map, length};
ghost use Rattle.nodes.specs.Packets.{lent_packet};
ghost use Rattle.sedgechisel_nodes.specs.Calls.{closed, IsRead, entry_answer, octets_on, map_left, IsHanding};
ghost use Rattle.sedgechisel_nodes.specs.Links.{submission_of, IsPacketIfThere};

use crate::answers::ABSENT;
use crate::handles::SimHandle;
use crate::room::{describe, hand_out_on};
use std::alloc::Global;
use tc_link::Sim;

/// Writes how many submissions the session has: the calls of `sedge_sim_submit` that the ground accepted.
/// Returns 0.
#[unsafe(no_mangle)]
pub extern "C" fn sedge_sim_submissions(alloc: Global, sim: &mut SimHandle, count: &mut usize) -> u8
    ensures { IsRead (λ l. Some (length l.world.session.submissions))
        sim.old.value sim.new.value result count.old count.new }
{
    read!(alloc, sim, count, |link| link.sim().submissions().len())
}

// Submission k, if it is there.
fn submission_of(sim: &Sim, k: usize) -> Option<(u8, &[u8])>
    ensures { option_map lent_packet result ≡ submission_of sim.now.world k }
{
    match sim.submissions().get(k) {
        Some((map, octets)) => Some((*map, octets.as_slice())),
        None => None,
    }
}

/// Writes the MAP of submission `k`, in order from 0, and the number of its octets. Returns 0, or
/// `SEDGE_NODE_ABSENT` if there are not that many.
#[unsafe(no_mangle)]
#[must_use]
pub extern "C" fn sedge_sim_submission_length(
    alloc: Global,
    sim: &mut SimHandle,
    k: usize,
    map: &mut u8,
    count: &mut usize,
) -> u8
    ensures none { sim.old.value ≡ None
        → (result ≡ closed) × (map.new ≡ map.old) × (count.new ≡ count.old) }
    ensures answer { IfSome sim.old.value (λ l. IsPacketIfThere (submission_of l.world k) result
        map.old map.new count.old count.new) }
    ensures unchanged { sim.new.value ≡ sim.old.value }
{
    held!(alloc, sim, |link| match submission_of(link.sim(), k) {
        Some(packet) => {
            describe(Some(packet), map, count);
            0
        }
        None => ABSENT,
    })
}

/// Writes the MAP and the octets of submission `k`, and their number. Returns 0, or the first of
/// `SEDGE_NODE_ABSENT` and `SEDGE_NODE_ROOM`.
#[unsafe(no_mangle)]
#[must_use]
pub extern "C" fn sedge_sim_submission(
    alloc: Global,
    sim: &mut SimHandle,
    k: usize,
    map: &mut u8,
    out: &mut [u8],
    count: &mut usize,
) -> u8
    ensures octets { IsHanding entry_answer (λ l. octets_on (submission_of l.world k))
        sim.old.value result count.old count.new out.old out.new }
    ensures map { result ≡ 0 → IfSome sim.old.value
        (λ l. map.new ≡ map_left (submission_of l.world k) map.old) }
    ensures unmapped { result ≢ 0 → map.new ≡ map.old }
    ensures unchanged { sim.new.value ≡ sim.old.value }
{
    held!(alloc, sim, |link| match submission_of(link.sim(), k) {
        Some(packet) => hand_out_on(Some(packet), map, out, count),
        None => ABSENT,
    })
}
