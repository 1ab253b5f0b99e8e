// A splitter over a layout of these tests. Each of its growths is refused in turn.

ghost use Rattle.std.specs.Prelude.{◌≡◌, ◌≤◌, List, ℕ, length, nat_lt, if◌then◌else◌, slice_index, Ok, Err};
ghost use Rattle.std.proofs.Common.{rules};
ghost use Rattle.std.proofs.lemmas.Grind.{common_steps};
ghost use Rattle.unit_tests.specs.declared.tests.splitter.BlockFault.TheVariants.{Empty, Truncated, Memory};

use super::equal::equal;
use super::refusals::says_refused;
use octets::{Splitter, Wire, remove_front};
use std::process::Abort;

#[derive(Clone, Copy, Debug, PartialEq, Eq)]
enum BlockFault {
    Empty,
    Truncated,
    Memory,
}

// A layout of records whose first octet is their length.
struct Blocks;

impl Wire for Blocks {
    type Fault = BlockFault;

    const HEAD: usize = 1;

    ghost HEAD = { 1 };

    ghost extent_of = { λ head. if nat_lt (slice_index head 0) 1 then Err Empty else Ok (slice_index head 0) };

    ghost Value = { List ℕ };

    ghost IsSpelling = { λ v octets. (octets ≡ v) × ((1 ≤ length octets) × (slice_index octets 0 ≡ length octets)) };

    ghost truncated_fault = { Truncated };

    ghost memory_fault = { Memory };

    fn extent(head: &[u8]) -> Result<usize, BlockFault> {
        if head[0] < 1 {
            return Err(BlockFault::Empty);
        }
        Ok(head[0] as usize)
    }

    fn truncated() -> BlockFault {
        BlockFault::Truncated
    }

    fn memory() -> BlockFault {
        BlockFault::Memory
    }

    ghost some_head = { Prim.search rules };

    ghost extent_has_head = { Prim.search (rules, common_steps) };

    ghost one_spelling = { λ v xs ys p q. Prim.cc };

    ghost own_extent = { Prim.search (rules, common_steps) };
}

#[test]
fn a_front_is_removed(rt: HostRuntime) {
    let mut octets = Vec::new(rt.alloc());
    if octets.extend_from_slice(&[1, 2, 3, 4]).is_ok() {
        remove_front(&mut octets, 3);
        equal(&rt, &octets.as_slice(), &[4].as_slice());
    } else {
        let _ = eprintln!(rt; "refused a growth");
    }
}

// Returns whether the splitter waits for octets, and whether the stream may end.
fn seen(splitter: &mut Splitter<Blocks>) -> (bool, Result<(), BlockFault>) {
    (splitter.next().is_none(), splitter.finish())
}

fn feed_once(splitter: &mut Splitter<Blocks>, octets: &[u8]) -> Result<(), BlockFault> {
    splitter.feed(octets)
}

// Feeds the octets. If memory is refused, nothing changes, and the repeated call succeeds.
fn feed(rt: &(impl Abort + Eprint), splitter: &mut Splitter<Blocks>, octets: &[u8]) {
    let before = seen(splitter);
    if let Err(fault) = feed_once(splitter, octets) {
        says_refused(rt, fault, BlockFault::Memory);
        equal(rt, &seen(splitter), &before);
        equal(rt, &feed_once(splitter, octets), &Ok(()));
    }
}

// Checks the next record, or the fault of its extent.
fn hands_out(
    rt: &impl Abort,
    splitter: &mut Splitter<Blocks>,
    record: Option<Result<&[u8], &BlockFault>>,
) {
    equal(rt, &splitter.next(), &record);
}

// Checks whether the stream may end here.
fn ends(rt: &impl Abort, splitter: &Splitter<Blocks>, answer: Result<(), BlockFault>) {
    equal(rt, &splitter.finish(), &answer);
}

// Three blocks and the beginning of a fourth.
const STREAM: [u8; 8] = [2, 7, 1, 3, 8, 9, 4, 1];

// Checks that the three blocks are delivered, and that the fourth is cut short.
fn hands_out_three(rt: &impl Abort, splitter: &mut Splitter<Blocks>) {
    for block in [&STREAM[..2], &STREAM[2..3], &STREAM[3..6]] {
        hands_out(rt, splitter, Some(Ok(block)));
    }
    hands_out(rt, splitter, None);
    ends(rt, splitter, Err(BlockFault::Truncated));
}

#[test]
fn a_stream_fed_whole(rt: HostRuntime) {
    let mut splitter: Splitter<Blocks> = Splitter::new(rt.alloc());
    ends(&rt, &splitter, Ok(()));
    feed(&rt, &mut splitter, &STREAM);
    hands_out_three(&rt, &mut splitter);
    feed(&rt, &mut splitter, &[5, 6]);
    hands_out(&rt, &mut splitter, Some(Ok(&[4, 1, 5, 6][..])));
    ends(&rt, &splitter, Ok(()));
}

#[test]
fn a_stream_fed_an_octet_at_a_time(rt: HostRuntime) {
    let mut splitter: Splitter<Blocks> = Splitter::new(rt.alloc());
    for (place, octet) in STREAM.iter().enumerate() {
        feed(&rt, &mut splitter, &[*octet]);
        let expected = match place {
            1 => Some(Ok(&STREAM[..2])),
            2 => Some(Ok(&STREAM[2..3])),
            5 => Some(Ok(&STREAM[3..6])),
            _ => None,
        };
        hands_out(&rt, &mut splitter, expected);
        hands_out(&rt, &mut splitter, None);
    }
    ends(&rt, &splitter, Err(BlockFault::Truncated));
}

#[test]
fn a_refused_extent_is_for_good(rt: HostRuntime) {
    let mut splitter: Splitter<Blocks> = Splitter::new(rt.alloc());
    feed(&rt, &mut splitter, &[1, 0, 2]);
    hands_out(&rt, &mut splitter, Some(Ok(&[1][..])));
    ends(&rt, &splitter, Err(BlockFault::Truncated));
    hands_out(&rt, &mut splitter, Some(Err(&BlockFault::Empty)));
    feed(&rt, &mut splitter, &[2, 7]);
    hands_out(&rt, &mut splitter, Some(Err(&BlockFault::Empty)));
    ends(&rt, &splitter, Ok(()));
}

// The splitter grows three times, the last time when octets already delivered are dropped. Each octet is
// 100, so each block has 100 octets.
#[test]
fn a_stream_outgrows_its_memory(rt: HostRuntime) {
    let mut splitter: Splitter<Blocks> = Splitter::new(rt.alloc());
    feed(&rt, &mut splitter, &[100; 30]);
    feed(&rt, &mut splitter, &[100; 90]);
    hands_out(&rt, &mut splitter, Some(Ok(&[100; 100][..])));
    feed(&rt, &mut splitter, &[100; 980]);
    for _ in 0..10u8 {
        hands_out(&rt, &mut splitter, Some(Ok(&[100; 100][..])));
    }
    hands_out(&rt, &mut splitter, None);
    ends(&rt, &splitter, Ok(()));
}

#[test]
fn handing_out_takes_no_memory(rt: HostRuntime) {
    let mut splitter: Splitter<Blocks> = Splitter::new(rt.alloc());
    if splitter.feed(&STREAM).is_err() {
        let _ = eprintln!(rt; "refused a growth");
        return;
    }
    let _ = eprintln!(rt; "set up");
    hands_out_three(&rt, &mut splitter);
}
