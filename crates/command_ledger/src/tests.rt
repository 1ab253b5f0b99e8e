// Octets worked out by Python's struct and zlib, the fate of one command, and statuses that arrive late.

use crate::*;
use command_log::{Order, Status, encode_status};
use std::alloc::Global;
use std::fmt::Debug;
use std::process::Abort;

// A command with the tag 0x1122334455667788 on MAP 3: APID 5, count 44, number 1, the octets 1, 2, 3.
const GIVEN: [u8; 35] = [
    0x00, 0x00, 0x00, 0x23, 0x01, 0x11, 0x22, 0x33, 0x44, 0x55, 0x66, 0x77, 0x88, 0x03, 0x10, 0x05,
    0xc0, 0x2c, 0x00, 0x0a, 0x00, 0x00, 0x00, 0x01, 0x01, 0x02, 0x03, 0x54, 0x99, 0x7a, 0xc4, 0x13,
    0x51, 0x92, 0xf6,
];

const SAYS: [u8; 27] = [
    0x00, 0x00, 0x00, 0x00, 0x01, 0x00, 0x00, 0x00, 0x01, 0x00, 0x00, 0x00, 0x00, 0x00, 0x00, 0x00,
    0x01, 0xde, 0x30, 0x53, 0x43, 0x00, 0x00, 0x98, 0xbf, 0x22, 0x4c,
];

const HEARD: [u8; 30] = [
    0x00, 0x00, 0x00, 0x1e, 0x02, 0x00, 0x00, 0x00, 0x01, 0x00, 0x00, 0x00, 0x01, 0x00, 0x00, 0x00,
    0x00, 0x00, 0x00, 0x00, 0x01, 0xde, 0x30, 0x53, 0x43, 0x00, 0xa7, 0xfc, 0xf1, 0x26,
];

const OTHER: [u8; 27] = [
    0x00, 0x00, 0x00, 0x00, 0x01, 0x00, 0x00, 0x00, 0x01, 0x00, 0x00, 0x00, 0x00, 0x00, 0x00, 0x00,
    0x01, 0xde, 0x30, 0x53, 0x42, 0x00, 0x00, 0x99, 0x7d, 0x48, 0x7b,
];

const LOST: [u8; 27] = [
    0x03, 0x12, 0x34, 0x56, 0x78, 0x00, 0x00, 0x00, 0x00, 0x00, 0x00, 0x00, 0x00, 0x00, 0x00, 0x00,
    0x00, 0x00, 0x00, 0x00, 0x00, 0x00, 0xff, 0x40, 0x47, 0x68, 0xef,
];

const LOSS: [u8; 13] = [
    0x00, 0x00, 0x00, 0x0d, 0x03, 0x12, 0x34, 0x56, 0x78, 0x76, 0x7a, 0xac, 0x24,
];

const ORDERED: [u8; 21] = [
    0x00, 0x00, 0x00, 0x15, 0x04, 0x12, 0x34, 0x56, 0x78, 0x00, 0x01, 0x00, 0x00, 0x00, 0x00, 0x00,
    0x01, 0xbd, 0xd6, 0x2e, 0x37,
];

const TOLD: [u8; 9] = [0x00, 0x00, 0x00, 0x09, 0x05, 0x67, 0x8a, 0xb8, 0xdb];

const FRESH: [u8; 57] = [
    0x00, 0x00, 0x00, 0x39, 0x06, 0x00, 0x00, 0x00, 0x01, 0x00, 0x00, 0x00, 0x01, 0x00, 0x00, 0x00,
    0x01, 0x00, 0x00, 0x00, 0x00, 0x00, 0x00, 0x00, 0x01, 0xde, 0x30, 0x53, 0x43, 0x00, 0x00, 0x00,
    0x00, 0x00, 0x00, 0x00, 0x00, 0x00, 0x00, 0x00, 0x00, 0x00, 0x00, 0x00, 0x00, 0x00, 0x00, 0x00,
    0x00, 0x00, 0x00, 0x00, 0x00, 0x7c, 0x4e, 0x05, 0x68,
];

const BROUGHT: [u8; 27] = [
    0x00, 0x00, 0x01, 0x00, 0x00, 0x00, 0x00, 0x00, 0x01, 0x00, 0x00, 0x00, 0x00, 0x00, 0x00, 0x00,
    0x00, 0x00, 0x00, 0x00, 0x00, 0x00, 0x00, 0x54, 0x81, 0x7c, 0x32,
];

const TAG: u64 = 0x1122_3344_5566_7788;

// A comparison that is proved once, not at each place.
fn equal<A: PartialEq + Debug>(rt: &impl Abort, left: &A, right: &A) {
    assert_eq!(*rt; *left, *right);
}

fn same(rt: &impl Abort, left: &[u8], right: &[u8]) {
    assert!(*rt; *left == *right);
}

fn opened(rt: &impl Abort, alloc: Global, octets: &[u8], good: usize) -> Ledger {
    let (ledger, count) = Ledger::open(alloc, octets, 64).expect(rt, "memory");
    equal(rt, &count, &good);
    ledger
}

fn gives(rt: &impl Abort, ledger: &mut Ledger, wanted: Result<u32, LedgerFault>) {
    equal(rt, &ledger.command(TAG, 3, 5, 44, &[1, 2, 3]), &wanted);
}

fn hears(rt: &impl Abort, ledger: &mut Ledger, octets: &[u8], wanted: Result<(), LedgerFault>) {
    equal(rt, &ledger.hears(octets), &wanted);
}

fn stores(rt: &impl Abort, ledger: &mut Ledger, wanted: &[u8]) {
    equal(rt, &ledger.next(), &Next::Store(wanted));
    ledger.stored(wanted.len());
}

fn tells(rt: &impl Abort, ledger: &mut Ledger, wanted: Tell) {
    equal(rt, &ledger.next(), &Next::Tell(wanted));
    equal(rt, &ledger.told(wanted), &Ok(()));
}

fn rests(rt: &impl Abort, ledger: &Ledger) {
    equal(rt, &ledger.next(), &Next::Nothing);
}

fn goes_up(rt: &impl Abort, ledger: &Ledger, number: u32, wanted: Option<(u8, &[u8])>) {
    equal(rt, &ledger.packet(number), &wanted);
}

// A ledger whose only command is in the store.
fn with_command(rt: &impl Abort, alloc: Global) -> Ledger {
    let mut ledger = opened(rt, alloc, &[], 0);
    gives(rt, &mut ledger, Ok(1));
    goes_up(rt, &ledger, 1, None);
    stores(rt, &mut ledger, &GIVEN);
    goes_up(rt, &ledger, 1, Some((3, &GIVEN[14..31])));
    ledger
}

#[test]
fn a_command_is_executed(rt: HostRuntime) {
    let mut ledger = with_command(&rt, rt.alloc());
    hears(&rt, &mut ledger, &SAYS[1..], Err(LedgerFault::Layout));
    hears(&rt, &mut ledger, &[0; 27], Err(LedgerFault::Check));
    hears(&rt, &mut ledger, &SAYS, Ok(()));
    stores(&rt, &mut ledger, &HEARD);
    tells(&rt, &mut ledger, Tell::Restarted(1));
    tells(&rt, &mut ledger, Tell::Executed(TAG));
    hears(&rt, &mut ledger, &SAYS, Ok(()));
    let mut twice = [0; 18];
    twice[..9].copy_from_slice(&TOLD);
    twice[9..].copy_from_slice(&TOLD);
    stores(&rt, &mut ledger, &twice);
    rests(&rt, &ledger);
    goes_up(&rt, &ledger, 1, None);
    let fresh = ledger.fresh().expect(&rt, "memory");
    same(&rt, &fresh, &FRESH);
    gives(&rt, &mut ledger, Ok(2));
}

#[test]
fn a_history_is_another(rt: HostRuntime) {
    let mut ledger = with_command(&rt, rt.alloc());
    hears(&rt, &mut ledger, &OTHER, Ok(()));
    ledger.stored(30);
    tells(&rt, &mut ledger, Tell::Restarted(1));
    tells(&rt, &mut ledger, Tell::Foreign(1, 1));
    tells(&rt, &mut ledger, Tell::Unknown(TAG));
}

#[test]
fn a_record_is_lost(rt: HostRuntime) {
    let mut ledger = with_command(&rt, rt.alloc());
    equal(&rt, &ledger.rebuild(), &Err(LedgerFault::NotLost));
    hears(&rt, &mut ledger, &LOST, Ok(()));
    goes_up(&rt, &ledger, 1, None);
    stores(&rt, &mut ledger, &LOSS);
    tells(&rt, &mut ledger, Tell::RecordLost(0x1234_5678));
    ledger.stored(9);
    hears(&rt, &mut ledger, &LOST, Ok(()));
    rests(&rt, &ledger);
    equal(&rt, &ledger.rebuild(), &Ok(()));
    equal(&rt, &ledger.order(), &None);
    stores(&rt, &mut ledger, &ORDERED);
    let order = Order::Rebuild {
        mark: 0x1234_5678,
        boot: 65536,
        last: 1,
    };
    equal(&rt, &ledger.order(), &Some(order));
    hears(&rt, &mut ledger, &BROUGHT, Ok(()));
    ledger.stored(30);
    tells(&rt, &mut ledger, Tell::Restarted(65536));
    tells(&rt, &mut ledger, Tell::Unknown(TAG));
    equal(&rt, &ledger.order(), &None);
}

// The loss is told and stored, and then the report of it.
fn tells_the_loss(rt: &impl Abort, ledger: &mut Ledger) {
    hears(rt, ledger, &LOST, Ok(()));
    stores(rt, ledger, &LOSS);
    tells(rt, ledger, Tell::RecordLost(0x1234_5678));
    stores(rt, ledger, &TOLD);
}

#[test]
fn a_record_from_before_the_loss_arrives_late(rt: HostRuntime) {
    let mut ledger = with_command(&rt, rt.alloc());
    tells_the_loss(&rt, &mut ledger);
    equal(&rt, &ledger.rebuild(), &Ok(()));
    stores(&rt, &mut ledger, &ORDERED);
    let order = ledger.order();
    equal(&rt, &order.is_some(), &true);
    hears(&rt, &mut ledger, &SAYS, Ok(()));
    stores(&rt, &mut ledger, &HEARD);
    tells(&rt, &mut ledger, Tell::Restarted(1));
    tells(&rt, &mut ledger, Tell::Executed(TAG));
    ledger.stored(18);
    equal(&rt, &ledger.order(), &None);
    tells_the_loss(&rt, &mut ledger);
    equal(&rt, &ledger.order(), &order);
    equal(&rt, &ledger.rebuild(), &Ok(()));
    rests(&rt, &ledger);
    hears(&rt, &mut ledger, &BROUGHT, Ok(()));
    ledger.stored(30);
    tells(&rt, &mut ledger, Tell::Restarted(65536));
    ledger.stored(9);
    hears(&rt, &mut ledger, &LOST, Ok(()));
    rests(&rt, &ledger);
}

#[test]
fn a_loss_that_is_over_is_reported_late(rt: HostRuntime) {
    let mut ledger = with_command(&rt, rt.alloc());
    tells_the_loss(&rt, &mut ledger);
    hears(&rt, &mut ledger, &SAYS, Ok(()));
    stores(&rt, &mut ledger, &HEARD);
    tells(&rt, &mut ledger, Tell::Restarted(1));
    tells(&rt, &mut ledger, Tell::Executed(TAG));
    ledger.stored(18);
    hears(&rt, &mut ledger, &SAYS, Ok(()));
    rests(&rt, &ledger);
    tells_the_loss(&rt, &mut ledger);
    hears(&rt, &mut ledger, &SAYS, Ok(()));
    stores(&rt, &mut ledger, &HEARD);
    rests(&rt, &ledger);
    equal(&rt, &ledger.rebuild(), &Err(LedgerFault::NotLost));
}

// A second loss is told; only the lengths of its entries are compared.
fn tells_the_second_loss(rt: &impl Abort, ledger: &mut Ledger) {
    hears(rt, ledger, &encode_status(&Status::Lost(7), 0), Ok(()));
    ledger.stored(13);
    tells(rt, ledger, Tell::RecordLost(7));
    ledger.stored(9);
}

#[test]
fn a_record_shows_that_the_order_for_an_earlier_loss_was_obeyed(rt: HostRuntime) {
    let mut ledger = with_command(&rt, rt.alloc());
    tells_the_loss(&rt, &mut ledger);
    equal(&rt, &ledger.rebuild(), &Ok(()));
    stores(&rt, &mut ledger, &ORDERED);
    tells_the_second_loss(&rt, &mut ledger);
    hears(&rt, &mut ledger, &BROUGHT, Ok(()));
    ledger.stored(30);
    tells(&rt, &mut ledger, Tell::Restarted(65536));
    tells(&rt, &mut ledger, Tell::Unknown(TAG));
    ledger.stored(18);
    equal(&rt, &ledger.rebuild(), &Err(LedgerFault::NotLost));
    tells_the_second_loss(&rt, &mut ledger);
    equal(&rt, &ledger.rebuild(), &Ok(()));
}

#[test]
fn a_store_is_read_up_to_an_entry_that_was_cut_off(rt: HostRuntime) {
    let mut octets = [0; 60];
    octets[..35].copy_from_slice(&GIVEN);
    octets[35..].copy_from_slice(&HEARD[..25]);
    let ledger = opened(&rt, rt.alloc(), &octets, 35);
    goes_up(&rt, &ledger, 1, Some((3, &GIVEN[14..31])));
    let spoiled = opened(&rt, rt.alloc(), &octets[1..], 0);
    equal(&rt, &spoiled.highest(), &0);
}
