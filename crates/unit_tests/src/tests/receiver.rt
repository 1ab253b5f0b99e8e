// Runs of the receiver.

use super::equal::equal;
use clcw::encode;
use cop1::{CopFault, Farm, FarmFields, FarmMode, Verdict};
use std::process::Abort;

// A call, and the verdict on a frame.
#[derive(Clone, Copy)]
enum Call {
    Ad(u8, bool, Verdict),
    Bd,
    Unlock,
    SetVr(u8),
    Released,
    // The values that all reading calls return now.
    Stands(Standing),
    // The CLCW for virtual channel 2, as octets.
    Report([u8; 4]),
}

// The state, the flags Lockout, Wait and Retransmit, V(R) and FARM-B.
type Standing = (FarmMode, [bool; 3], u8, u8);

fn seen(farm: &Farm) -> Standing {
    let flags = [farm.lockout(), farm.wait(), farm.retransmit()];
    (farm.state(), flags, farm.vr(), farm.farm_b())
}

fn report(farm: &Farm) -> Option<[u8; 4]> {
    encode(&farm.report(2)).ok()
}

fn answers(rt: &impl Abort, farm: &mut Farm, call: Call) {
    match call {
        Call::Ad(n, free, verdict) => equal(rt, &farm.ad(n, free), &verdict),
        Call::Bd => farm.bd(),
        Call::Unlock => farm.unlock(),
        Call::SetVr(vr) => farm.set_vr(vr),
        Call::Released => farm.released(),
        Call::Stands(standing) => equal(rt, &seen(farm), &standing),
        Call::Report(octets) => equal(rt, &report(farm), &Some(octets)),
    }
}

fn is_restored(rt: &impl Abort, farm: &mut Farm) {
    let kept = farm.fields();
    if let Ok(restored) = Farm::restore(kept) {
        *farm = restored;
    }
    equal(rt, &Farm::restore(kept).err(), &None);
    equal(rt, &farm.fields(), &kept);
}

// Makes calls of a new receiver of width 10 with this V(R), and restores it from its fields after each.
fn run(rt: &impl Abort, vr: u8, calls: &[Call]) {
    let mut farm = Farm::new(10, vr).expect(rt, "a receiver");
    for call in calls {
        answers(rt, &mut farm, *call);
        is_restored(rt, &mut farm);
    }
}

// A width of 10 has a positive and a negative window of 5 each.
#[test]
fn a_receiver_locks_and_opens(rt: HostRuntime) {
    locks_and_opens(&rt);
}

fn locks_and_opens(rt: &impl Abort) {
    let calls = [
        Call::Ad(4, true, Verdict::Ahead),
        Call::Ad(251, true, Verdict::Behind),
        Call::Ad(5, true, Verdict::Outside),
        Call::Ad(0, true, Verdict::Discarded),
        Call::SetVr(7),
        Call::Stands((FarmMode::Lockout, [true, false, true], 0, 1)),
        Call::Unlock,
        Call::Stands((FarmMode::Open, [false; 3], 0, 2)),
        Call::Ad(0, true, Verdict::Accepted),
        Call::Stands((FarmMode::Open, [false; 3], 1, 2)),
    ];
    run(rt, 0, &calls);
}

#[test]
fn a_receiver_waits_for_a_buffer(rt: HostRuntime) {
    waits_for_a_buffer(&rt);
}

fn waits_for_a_buffer(rt: &impl Abort) {
    let calls = [
        Call::Ad(255, true, Verdict::Accepted),
        Call::Ad(255, true, Verdict::Behind),
        Call::Ad(0, false, Verdict::NoBuffer),
        Call::Stands((FarmMode::Wait, [false, true, true], 0, 0)),
        Call::Ad(0, true, Verdict::Discarded),
        Call::Released,
        Call::Stands((FarmMode::Open, [false, false, true], 0, 0)),
        Call::Bd,
        Call::SetVr(9),
        Call::Ad(9, true, Verdict::Accepted),
        Call::Stands((FarmMode::Open, [false; 3], 10, 2)),
    ];
    run(rt, 255, &calls);
}

#[test]
fn no_receiver_has_other_fields(rt: HostRuntime) {
    has_no_other_fields(&rt);
}

fn has_no_other_fields(rt: &impl Abort) {
    let kept = Farm::new(10, 7).expect(rt, "a receiver").fields();
    for fields in [
        FarmFields { width: 0, ..kept },
        FarmFields { width: 9, ..kept },
        FarmFields { wait: true, ..kept },
        FarmFields { farm_b: 4, ..kept },
    ] {
        equal(rt, &Farm::restore(fields).err(), &Some(CopFault::State));
    }
}

#[test]
fn a_receiver_reports(rt: HostRuntime) {
    reports(&rt);
}

fn reports(rt: &impl Abort) {
    let waits_and_opens = [
        Call::Ad(0, false, Verdict::NoBuffer),
        Call::Report([0x01, 0x08, 0x18, 0x00]),
        Call::Ad(0, true, Verdict::Discarded),
        Call::Unlock,
        Call::Report([0x01, 0x08, 0x02, 0x00]),
    ];
    let waits_and_locks = [
        Call::Ad(0, false, Verdict::NoBuffer),
        Call::Ad(5, true, Verdict::Outside),
        Call::Report([0x01, 0x08, 0x38, 0x00]),
        Call::Released,
        Call::Report([0x01, 0x08, 0x28, 0x00]),
        Call::SetVr(9),
        Call::Report([0x01, 0x08, 0x2a, 0x00]),
    ];
    run(rt, 0, &waits_and_opens);
    run(rt, 0, &waits_and_locks);
}

#[test]
fn no_receiver_has_another_width(rt: HostRuntime) {
    has_no_other_width(&rt);
}

fn has_no_other_width(rt: &impl Abort) {
    for width in [0, 3, 255] {
        let fault = Farm::new(width, 0).err();
        equal(rt, &fault, &Some(CopFault::Width));
    }
}

#[test]
fn a_receiver_takes_no_memory(rt: HostRuntime) {
    let _ = eprintln!(rt; "set up");
    locks_and_opens(&rt);
    waits_for_a_buffer(&rt);
    reports(&rt);
    has_no_other_fields(&rt);
    has_no_other_width(&rt);
}
