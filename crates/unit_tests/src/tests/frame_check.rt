// The FECF, and its table against the plain bitwise program.

use super::equal::equal;
use octets::{append_check, check, check_holds, first_two, low_eleven};
use std::process::Abort;

// Computes the FECF bit by bit, with a register preset to ones and shifted once for each bit.
fn plain_check(octets: &[u8]) -> u16 {
    let mut register: u16 = 0xffff;
    for octet in octets {
        register ^= u16::from(*octet) << 8;
        for _ in 0..8u8 {
            let out = register >> 15;
            register <<= 1;
            if out == 1 {
                register ^= 0x1021;
            }
        }
    }
    register
}

// The last three rows are the vectors of ECSS-E-ST-70-41C, annex B.
#[test]
fn known_checks(rt: HostRuntime) {
    has_known_checks(&rt);
}

fn has_known_checks(rt: &impl Abort) {
    for (octets, known) in [
        (&b"123456789"[..], 0x29b1),
        (&[0, 0][..], 0x1d0f),
        (&[][..], 0xffff),
        (&[0, 0, 0][..], 0xcc9c),
        (&[0xab, 0xcd, 0xef, 0x01][..], 0x04a2),
        (&[0x14, 0x56, 0xf8, 0x9a, 0x00, 0x01][..], 0x7fd5),
    ] {
        equal(rt, &check(octets), &known);
    }
}

// The FECF of one octet shows the entries of one table, and that of two octets the entries of the other. An
// octet that inverts the ones in the register makes them 0, and entry 0 is 0.
#[test]
fn known_entries(rt: HostRuntime) {
    for (place, entry) in [(0, 0), (1, 0x1021), (2, 0x2042), (255, 0x1ef0)] {
        equal(&rt, &(check(&[0xff ^ place]) ^ 0xff00), &entry);
    }
    for (place, entry) in [(0, 0), (1, 0x3331), (255, 0x03ff)] {
        equal(&rt, &check(&[0xff ^ place, 0xff]), &entry);
    }
}

// Covers every octet, and octets that look random in every length up to 64.
#[test]
fn the_table_is_the_plain_program(rt: HostRuntime) {
    for octet in 0..=255u8 {
        equal(&rt, &check(&[octet]), &plain_check(&[octet]));
    }
    let mut octets = [0u8; 64];
    let mut seed: u32 = 1;
    for len in 0..64usize {
        equal(&rt, &check(&octets[..len]), &plain_check(&octets[..len]));
        seed = seed.wrapping_mul(1_664_525).wrapping_add(1_013_904_223);
        octets[len] = (seed >> 24) as u8;
        equal(&rt, &check(&octets), &plain_check(&octets));
    }
}

#[test]
fn a_check_is_set_and_holds(rt: HostRuntime) {
    sets_a_check(&rt);
}

fn sets_a_check(rt: &impl Abort) {
    let mut octets = *b"123456789\x00\x00";
    assert!(rt; !check_holds(&octets));
    append_check(&mut octets);
    equal(rt, &first_two(&octets[9..]), &0x29b1);
    equal(rt, &low_eleven(0x29b1), &0x1b1);
    assert!(rt; check_holds(&octets));
    assert!(rt; !check_holds(&octets[..10]));
    assert!(rt; !check_holds(&[]));
}

#[test]
fn a_check_takes_no_memory(rt: HostRuntime) {
    let _ = eprintln!(rt; "set up");
    has_known_checks(&rt);
    sets_a_check(&rt);
}
