// How a run of the tool ends, as docs/PROFILE.md defines it: the status and the line for each outcome and
// each fault.

use super::common::equal;
use std::alloc::Global;
use std::process::Abort;
use stream_commands::{Outcome, ending};
use streams::{StreamFault, Writer};

type Dumped = Result<Outcome, StreamFault>;

static ENDINGS: [(Dumped, u8, &str); 9] = [
    (Ok(Outcome::Good), 0, ""),
    (Ok(Outcome::Faulty), 1, ""),
    (
        Ok(Outcome::Unreadable(1)),
        1,
        "tctool: line 1: unreadable\n",
    ),
    (
        Ok(Outcome::Unreadable(18_446_744_073_709_551_615)),
        1,
        "tctool: line 18446744073709551615: unreadable\n",
    ),
    (
        Ok(Outcome::OutOfRange("queue_slots")),
        1,
        "tctool: config out of range: queue_slots\n",
    ),
    (Err(StreamFault::Read), 3, "tctool: read failed\n"),
    (Err(StreamFault::Write), 3, "tctool: write failed\n"),
    (Err(StreamFault::Memory), 3, "tctool: no memory\n"),
    (Err(StreamFault::TooLong), 3, "tctool: input too long\n"),
];

#[test]
fn each_ending(rt: HostRuntime) {
    for (dumped, status, line) in &ENDINGS {
        ends(&rt, rt.alloc(), dumped, *status, line);
    }
}

fn ends(rt: &impl Abort, alloc: Global, dumped: &Dumped, status: u8, line: &str) {
    let mut written = Vec::new(alloc);
    equal(rt, &ending(dumped, &mut Writer::new(&mut written)), &status);
    equal(rt, &written.as_slice(), &line.as_bytes());
}

// The status is the same if standard error is closed, or closes within the line.
#[test]
fn endings_at_a_closed_sink(rt: HostRuntime) {
    for (dumped, status, line) in &ENDINGS {
        ends_in(&rt, dumped, *status, line, &mut []);
        ends_in(&rt, dumped, *status, line, &mut [b'.'; 20]);
    }
}

// Checks the ending in a buffer, which a longer line fills. Octets after the line do not change.
fn ends_in(rt: &impl Abort, dumped: &Dumped, status: u8, line: &str, room: &mut [u8]) {
    equal(rt, &ending(dumped, &mut Writer::new(&mut *room)), &status);
    let count = line.len().min(room.len());
    equal(rt, &&room[..count], &&line.as_bytes()[..count]);
    assert!(rt; room[count..].iter().all(|octet| *octet == b'.'));
}

#[test]
fn an_ending_takes_no_memory(rt: HostRuntime) {
    let _ = eprintln!(rt; "set up");
    for (dumped, status, line) in &ENDINGS {
        ends_in(&rt, dumped, *status, line, &mut [b'.'; 64]);
    }
}
