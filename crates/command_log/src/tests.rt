// Octets that Python's struct and zlib computed, and a board's first command.

use crate::*;
use std::fmt::Debug;
use std::process::Abort;

const RECORD: [u8; 50] = [
    0x00, 0x00, 0x00, 0x07, 0x00, 0x00, 0x01, 0x2c, 0xff, 0xff, 0xff, 0xff, 0xff, 0xff, 0xff, 0xfd,
    0x8a, 0x3b, 0x0c, 0x5d, 0x01, 0xf7, 0x81, 0x33, 0xad, 0x00, 0x00, 0x00, 0x07, 0x00, 0x00, 0x01,
    0x2c, 0xff, 0xff, 0xff, 0xff, 0xff, 0xff, 0xff, 0xfd, 0x8a, 0x3b, 0x0c, 0x5d, 0x01, 0xf7, 0x81,
    0x33, 0xad,
];

const STATUS: [u8; 27] = [
    0x00, 0x00, 0x00, 0x00, 0x07, 0x00, 0x00, 0x01, 0x2c, 0xff, 0xff, 0xff, 0xff, 0xff, 0xff, 0xff,
    0xfd, 0x8a, 0x3b, 0x0c, 0x5d, 0x01, 0x03, 0x39, 0x12, 0x75, 0xf5,
];

const LOST: [u8; 27] = [
    0x03, 0x12, 0x34, 0x56, 0x78, 0x00, 0x00, 0x00, 0x00, 0x00, 0x00, 0x00, 0x00, 0x00, 0x00, 0x00,
    0x00, 0x00, 0x00, 0x00, 0x00, 0x00, 0xff, 0x40, 0x47, 0x68, 0xef,
];

const COMMAND: [u8; 17] = [
    0x10, 0x05, 0xc0, 0x2c, 0x00, 0x0a, 0x00, 0x00, 0x01, 0x2d, 0x01, 0x02, 0x03, 0x83, 0x1d, 0x43,
    0xf2,
];

const RESTART: [u8; 23] = [
    0x10, 0x06, 0xc0, 0x2d, 0x00, 0x10, 0x01, 0x00, 0x00, 0x00, 0x07, 0x00, 0x00, 0x00, 0x00, 0x00,
    0x00, 0x00, 0x00, 0xe1, 0xcc, 0x51, 0xf8,
];

const REBUILD: [u8; 23] = [
    0x10, 0x06, 0xc0, 0x2e, 0x00, 0x10, 0x02, 0x00, 0x01, 0x00, 0x07, 0x00, 0x00, 0x01, 0x2d, 0x12,
    0x34, 0x56, 0x78, 0x2d, 0x00, 0xbf, 0x90,
];

// A history, and the one after COMMAND.
const BEFORE: u32 = 0x8a3b_0c5d;

const AFTER: u32 = 0x4313_d201;

// A comparison that is proved once, not at each use.
fn equal<A: PartialEq + Debug>(rt: &impl Abort, left: &A, right: &A) {
    assert_eq!(*rt; *left, *right);
}

fn same(rt: &impl Abort, left: &[u8], right: &[u8]) {
    assert!(*rt; *left == *right);
}

fn record(boot: u32, last: u32, known: u64, history: u32, begun: bool) -> Record {
    Record {
        boot,
        last,
        begun,
        known,
        history,
    }
}

fn checks(rt: &impl Abort, octets: &[u8], wanted: u32) {
    equal(rt, &check(octets), &wanted);
}

#[test]
fn the_check(rt: HostRuntime) {
    checks(&rt, b"123456789", 0xcbf4_3926);
    checks(&rt, b"", 0);
}

fn continues(rt: &impl Abort, history: u32, packet: &[u8], wanted: u32) {
    equal(rt, &history_after(history, packet), &wanted);
}

#[test]
fn the_history(rt: HostRuntime) {
    continues(&rt, 0, &COMMAND, 0x42b1_791c);
    continues(&rt, 0x42b1_791c, &COMMAND, 0x6652_7da1);
    continues(&rt, BEFORE, &COMMAND, AFTER);
    continues(&rt, 0x6652_7da1, &[1, 2], 0x2f64_a4e9);
}

fn reads_record(rt: &impl Abort, octets: &[u8], wanted: Result<Record, LogFault>) {
    equal(rt, &decode_record(octets), &wanted);
}

fn writes_record(rt: &impl Abort, kept: &Record, wanted: &[u8]) {
    same(rt, &encode_record(kept), wanted);
}

#[test]
fn a_record(rt: HostRuntime) {
    let kept = record(7, 300, 0xffff_ffff_ffff_fffd, BEFORE, true);
    writes_record(&rt, &kept, &RECORD);
    reads_record(&rt, &RECORD, Ok(kept));
    reads_record(&rt, &RECORD[..49], Err(LogFault::Layout));
    reads_record(&rt, &[0xff; 50], Err(LogFault::Check));
    reads_record(&rt, &[0; 50], Err(LogFault::Check));
}

fn reads_status(rt: &impl Abort, octets: &[u8], wanted: Result<(Status, u8), LogFault>) {
    equal(rt, &decode_status(octets), &wanted);
}

fn writes_status(rt: &impl Abort, status: &Status, waiting: usize, wanted: &[u8]) {
    same(rt, &encode_status(status, waiting), wanted);
}

#[test]
fn a_status(rt: HostRuntime) {
    let kept = Status::Says(record(7, 300, 0xffff_ffff_ffff_fffd, BEFORE, true));
    let lost = Status::Lost(0x1234_5678);
    writes_status(&rt, &kept, 3, &STATUS);
    writes_status(&rt, &lost, 1000, &LOST);
    reads_status(&rt, &STATUS, Ok((kept, 3)));
    reads_status(&rt, &LOST, Ok((lost, 255)));
    reads_status(&rt, &LOST[1..], Err(LogFault::Layout));
    reads_status(&rt, &[0; 27], Err(LogFault::Check));
}

fn reads_command(rt: &impl Abort, octets: &[u8], wanted: Result<Command<'_>, LogFault>) {
    equal(rt, &decode_command(octets), &wanted);
}

fn writes_command(
    rt: &impl Abort,
    command: &Command,
    out: &mut [u8],
    wanted: Result<usize, LogFault>,
) {
    equal(rt, &encode_command(command, out), &wanted);
}

#[test]
fn a_command(rt: HostRuntime) {
    let command = Command {
        apid: 5,
        count: 44,
        number: 301,
        content: &[1, 2, 3],
    };
    let mut out = [0; 17];
    writes_command(&rt, &command, &mut out, Ok(17));
    same(&rt, &out, &COMMAND);
    reads_command(&rt, &COMMAND, Ok(command));
    reads_command(&rt, &COMMAND[..16], Err(LogFault::Layout));
    writes_command(&rt, &command, &mut out[1..], Err(LogFault::Room));
    let none = Command {
        number: 0,
        ..command
    };
    writes_command(&rt, &none, &mut out, Err(LogFault::FieldRange));
    same(&rt, &out, &COMMAND);
}

fn reads_order(rt: &impl Abort, octets: &[u8], wanted: Result<Order, LogFault>) {
    equal(rt, &decode_order(octets), &wanted);
}

fn writes_order(rt: &impl Abort, count: u16, order: &Order, wanted: &[u8]) {
    let mut out = [0; 23];
    equal(rt, &encode_order(6, count, order, &mut out), &Ok(23));
    same(rt, &out, wanted);
}

#[test]
fn two_orders(rt: HostRuntime) {
    let restart = Order::Restart { boot: 7 };
    writes_order(&rt, 45, &restart, &RESTART);
    reads_order(&rt, &RESTART, Ok(restart));
    let rebuild = Order::Rebuild {
        mark: 0x1234_5678,
        boot: 65543,
        last: 301,
    };
    writes_order(&rt, 46, &rebuild, &REBUILD);
    reads_order(&rt, &REBUILD, Ok(rebuild));
    reads_order(&rt, &COMMAND, Err(LogFault::Layout));
}

fn acts(rt: &impl Abort, board: &mut Executor, wanted: Action) {
    let action = board.next();
    equal(rt, &action, &wanted);
    board.done(action);
}

fn writes(rt: &impl Abort, board: &mut Executor, kept: Record) {
    acts(rt, board, Action::Write(Place::First, kept));
    acts(rt, board, Action::Write(Place::Second, kept));
}

fn offers(rt: &impl Abort, board: &mut Executor, octets: &[u8], wanted: Result<&[u8], LogFault>) {
    equal(rt, &board.offer(octets), &wanted);
}

fn obeys(rt: &impl Abort, board: &mut Executor, octets: &[u8], wanted: Result<(), LogFault>) {
    equal(rt, &board.obey(octets), &wanted);
}

fn says(rt: &impl Abort, board: &Executor, wanted: &Status) {
    equal(rt, &board.status(), wanted);
}

#[test]
fn a_command_is_executed(rt: HostRuntime) {
    let kept = record(6, 300, 1, BEFORE, false);
    let mut board = Executor::start(None, Some(kept), 0);
    offers(&rt, &mut board, &COMMAND, Err(LogFault::Starting));
    says(&rt, &board, &Status::Starts);
    acts(&rt, &mut board, Action::Write(Place::First, kept));
    board.done(Action::Nothing);
    writes(&rt, &mut board, record(7, 300, 1, BEFORE, false));
    offers(&rt, &mut board, &COMMAND, Ok(&[1, 2, 3]));
    offers(&rt, &mut board, &COMMAND, Err(LogFault::Busy));
    writes(&rt, &mut board, record(7, 300, 1, AFTER, true));
    acts(&rt, &mut board, Action::Execute(301));
    says(&rt, &board, &Status::Changes);
    writes(&rt, &mut board, record(7, 301, 3, AFTER, false));
    offers(&rt, &mut board, &COMMAND, Err(LogFault::Behind));
    says(&rt, &board, &Status::Says(record(7, 301, 3, AFTER, false)));
    obeys(&rt, &mut board, &REBUILD, Err(LogFault::NotLost));
    obeys(&rt, &mut board, &RESTART, Ok(()));
    acts(&rt, &mut board, Action::Restart);
    obeys(&rt, &mut board, &RESTART, Err(LogFault::Busy));
}

#[test]
fn a_record_is_brought(rt: HostRuntime) {
    let mut other = Executor::start(None, None, 5);
    obeys(&rt, &mut other, &REBUILD, Err(LogFault::OtherMark));
    obeys(&rt, &mut other, &RESTART, Err(LogFault::Lost));
    let mut board = Executor::start(None, None, 0x1234_5678);
    says(&rt, &board, &Status::Lost(0x1234_5678));
    offers(&rt, &mut board, &COMMAND, Err(LogFault::Lost));
    obeys(&rt, &mut board, &REBUILD, Ok(()));
    writes(&rt, &mut board, record(65543, 301, 0, 0, false));
    obeys(&rt, &mut board, &RESTART, Err(LogFault::OtherBoot));
}

#[test]
fn a_new_board(rt: HostRuntime) {
    let kept = Record::new_board();
    let mut board = Executor::start(Some(kept), Some(kept), 0);
    acts(&rt, &mut board, Action::Write(Place::Second, kept));
    writes(&rt, &mut board, record(1, 0, 0, 0, false));
    offers(&rt, &mut board, &COMMAND, Err(LogFault::Ahead));
}
