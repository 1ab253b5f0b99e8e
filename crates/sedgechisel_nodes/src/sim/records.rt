// What a program in C reads from the records of a session.

ghost use Rattle.std.specs.Prelude.{◌≡◌, Some, option_map, option_copied, length, []};
ghost use Rattle.std.specs.Option.{unwrap_or};
ghost use Rattle.tm_link.specs.Extractor.{octets_of};
ghost use Rattle.sedgechisel_nodes.specs.Calls.{IsRead, entry_answer, IsHanding};
ghost use Rattle.sedgechisel_nodes.specs.Links.{record_of, entry_of};

use crate::answers::ABSENT;
use crate::handles::SimHandle;
use crate::room::{hand_out, write};
use std::alloc::Global;
use tc_link::Sim;

// The entries of the record with this number; none for any other number.
fn entries_of(sim: &Sim, number: u8, map: u8) -> Option<&[Vec<u8>]>
    ensures { unwrap_or (option_map (λ r. octets_of r.now) result) []
        ≡ record_of sim.now.world number map }
{
    match number {
        1 => Some(sim.submitted(map)),
        2 => Some(sim.delivered(map)),
        3 => Some(sim.sent()),
        4 => Some(sim.accepted()),
        _ => None,
    }
}

fn count_of_entries(sim: &Sim, number: u8, map: u8) -> usize
    ensures { result ≡ length (record_of sim.now.world number map) }
{
    match entries_of(sim, number, map) {
        Some(entries) => entries.len(),
        None => 0,
    }
}

// Entry k of a record, if it is there.
fn entry_of(sim: &Sim, number: u8, map: u8, k: usize) -> Option<&[u8]>
    ensures { option_copied result ≡ entry_of sim.now.world number map k }
{
    let Some(entries) = entries_of(sim, number, map) else {
        return None;
    };
    match entries.get(k) {
        Some(octets) => Some(octets.as_slice()),
        None => None,
    }
}

/// Writes how many entries a record has, of `sedge_record`; the MAP matters only for `SEDGE_SUBMITTED` and
/// `SEDGE_DELIVERED`. For any other number, writes 0. Returns 0.
#[unsafe(no_mangle)]
pub extern "C" fn sedge_sim_count(
    alloc: Global,
    sim: &mut SimHandle,
    record_number: u8,
    map: u8,
    entries: &mut usize,
) -> u8
    ensures { IsRead (λ l. Some (length (record_of l.world record_number map)))
        sim.old.value sim.new.value result entries.old entries.new }
{
    read!(
        alloc,
        sim,
        entries,
        |link| count_of_entries(link.sim(), record_number, map)
    )
}

fn length_of_entry(sim: &Sim, number: u8, map: u8, k: usize) -> Option<usize>
    ensures { result ≡ option_map length (entry_of sim.now.world number map k) }
{
    match entry_of(sim, number, map, k) {
        Some(octets) => Some(octets.len()),
        None => None,
    }
}

/// Writes how many octets entry `k` has, counted from 0. Returns 0, or `SEDGE_NODE_ABSENT` if there are not
/// that many entries.
#[unsafe(no_mangle)]
#[must_use]
pub extern "C" fn sedge_sim_entry_length(
    alloc: Global,
    sim: &mut SimHandle,
    record_number: u8,
    map: u8,
    k: usize,
    count: &mut usize,
) -> u8
    ensures { IsRead (λ l. option_map length (entry_of l.world record_number map k))
        sim.old.value sim.new.value result count.old count.new }
{
    held!(
        alloc,
        sim,
        |link| write(length_of_entry(link.sim(), record_number, map, k), count)
    )
}

/// Writes the octets of entry `k`, and their number. Returns 0, or the first of `SEDGE_NODE_ABSENT` and
/// `SEDGE_NODE_ROOM`.
#[unsafe(no_mangle)]
#[must_use]
pub extern "C" fn sedge_sim_entry(
    alloc: Global,
    sim: &mut SimHandle,
    record_number: u8,
    map: u8,
    k: usize,
    out: &mut [u8],
    count: &mut usize,
) -> u8
    ensures octets { IsHanding entry_answer (λ l. entry_of l.world record_number map k)
        sim.old.value result count.old count.new out.old out.new }
    ensures unchanged { sim.new.value ≡ sim.old.value }
{
    held!(
        alloc,
        sim,
        |link| match entry_of(link.sim(), record_number, map, k) {
            Some(octets) => hand_out(Some(octets), out, count),
            None => ABSENT,
        }
    )
}
