// The numbers and names of faults, and the other names.

use super::equal::equal;
use clcw::ClcwFault;
use cop1::{CopFault, Verdict};
use map_service::{Dropped, MapFault};
use space_packet::PacketFault;
use tc_frame::TcFault;
use tm_link::TmFault;

#[test]
fn numbers(rt: HostRuntime) {
    for (number, wanted) in [
        (ClcwFault::Range.number(), 5),
        (PacketFault::FieldRange.number(), 5),
        (TcFault::FieldRange.number(), 11),
        (MapFault::TooLong.number(), 2),
        (TmFault::FieldRange.number(), 10),
        (CopFault::WrongState.number(), 8),
        (CopFault::State.number(), 9),
    ] {
        equal(&rt, &number, &wanted);
    }
}

#[test]
fn names(rt: HostRuntime) {
    for (name, wanted) in [
        (ClcwFault::Range.name(), "Range"),
        (PacketFault::FieldRange.name(), "FieldRange"),
        (TcFault::FieldRange.name(), "FieldRange"),
        (MapFault::TooLong.name(), "TooLong"),
        (TmFault::NoOcf.name(), "NoOcf"),
        (CopFault::WrongState.name(), "WrongState"),
        (CopFault::State.name(), "State"),
        (Dropped::NoBeginning.name(), "NoBeginning"),
        (Verdict::Accepted.name(), "accepted"),
        (Verdict::NoBuffer.name(), "nobuffer"),
        (Verdict::Discarded.name(), "discarded"),
    ] {
        equal(&rt, &name, &wanted);
    }
}

#[test]
fn a_refusal_in_a_text(rt: HostRuntime) {
    let text = format!(in rt.alloc(); "{}", PacketFault::FieldRange);
    equal(&rt, &text.ok().as_deref(), &Some("5 FieldRange"));
}
