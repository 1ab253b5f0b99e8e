// CLCWs and their octets.

use super::equal::equal;
use bitflags::Flags;
use clcw::{Clcw, ClcwFault, ClcwFlags, decode, encode};

#[test]
fn words_and_their_octets(rt: HostRuntime) {
    let word = Clcw {
        status: 0,
        vcid: 2,
        flags: ClcwFlags::RETRANSMIT,
        farm_b: 1,
        value: 7,
    };
    equal(&rt, &encode(&word), &Ok([0x01, 0x08, 0x0a, 0x07]));
    equal(&rt, &decode([0x01, 0x08, 0x0a, 0x07]), &Ok(word));
    assert!(rt; ClcwFlags::from_name("RETRANSMIT") == Some(word.flags));
    for (octets, fault) in REFUSED {
        equal(&rt, &decode(octets).err(), &Some(fault));
    }
}

const REFUSED: [([u8; 4], ClcwFault); 3] = [
    ([0x01, 0x08, 0x0b, 0x07], ClcwFault::Spare),
    ([0x81, 0x08, 0x0a, 0x07], ClcwFault::Kind),
    ([0x00, 0x08, 0x0a, 0x07], ClcwFault::Cop),
];

#[test]
fn words_without_octets(rt: HostRuntime) {
    let word = Clcw {
        status: 7,
        vcid: 63,
        flags: ClcwFlags::all(),
        farm_b: 3,
        value: 255,
    };
    assert!(rt; encode(&word).is_ok());
    let no_name = Clcw {
        flags: ClcwFlags::from_bits_retain(1),
        ..word
    };
    equal(&rt, &encode(&no_name).err(), &Some(ClcwFault::Range));
}
