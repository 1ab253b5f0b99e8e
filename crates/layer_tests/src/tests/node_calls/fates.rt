// The progress of a session's submissions, and how the next session begins after an alert.

use super::ground::{Ask, asks};
use crate::tests::common::with_parts;
use crate::tests::frames::{P0, P1, P2, THREE, UNLOCK};
use cop1::{Alert, CopFault, Directive, FopMode};
use nodes::{HeardClcw, HeardReport, LinkFault};

const INIT: Ask<'static> = Ask::Directive(Directive::InitWithoutCheck, Ok(None));

const TERMINATE: Ask<'static> = Ask::Directive(Directive::Terminate, Ok(Some(Alert::Terminated)));

const NOT_KNOWN: Result<u64, LinkFault> = Err(LinkFault::NotKnown);

// A CLCW with this report value, which raises no alert.
fn report(value: u8) -> Ask<'static> {
    Ask::Clcw(
        [0x01, 0x08, 0x00, value],
        HeardClcw {
            report: HeardReport::Used,
            alert: None,
        },
    )
}

// The third octet of a CLCW with no flag or with one flag set (CCSDS 232.0-B-4, 4.2.1).
const NONE: u8 = 0x00;

const LOCKOUT: u8 = 0x20;

const WAIT: u8 = 0x10;

const RETRANSMIT: u8 = 0x08;

// A CLCW with such flags and this report value, which raises this alert.
fn alerts(flags: u8, value: u8, alert: Alert) -> Ask<'static> {
    Ask::Clcw(
        [0x01, 0x08, flags, value],
        HeardClcw {
            report: HeardReport::Used,
            alert: Some(alert),
        },
    )
}

// Each packet has two segments, with numbers 0 and 1, 2 and 3, 4 and 5. Three segments are acknowledged.
#[test]
fn submissions_of_two_segments(rt: HostRuntime) {
    use FopMode::{S1, S5, S6};
    let rows = [
        (Ask::Counts([0, 0, 0]), (S6, 0, 0, 0)),
        (Ask::KnownOnBoard(0, None), (S6, 0, 0, 0)),
        (Ask::Resume(0, NOT_KNOWN), (S6, 0, 0, 0)),
        (INIT, (S1, 0, 0, 0)),
        (Ask::KnownOnBoard(9, Some(0)), (S1, 0, 0, 0)),
        (Ask::Submit(&P0, Ok(())), (S1, 0, 0, 2)),
        (Ask::Submit(&P1, Ok(())), (S1, 0, 0, 4)),
        (Ask::Submit(&P2, Ok(())), (S1, 0, 0, 6)),
        (Ask::Counts([3, 0, 0]), (S1, 0, 0, 6)),
        (Ask::Advance, (S1, 1, 0, 6)),
        (Ask::Counts([3, 0, 0]), (S1, 1, 0, 6)),
        (Ask::Advance, (S1, 2, 0, 6)),
        (Ask::Counts([3, 1, 0]), (S1, 2, 0, 6)),
        (Ask::Advance, (S1, 3, 0, 6)),
        (Ask::Counts([3, 1, 0]), (S1, 3, 0, 6)),
        (Ask::KnownOnBoard(1, Some(0)), (S1, 3, 0, 6)),
        (Ask::KnownOnBoard(3, Some(1)), (S1, 3, 0, 6)),
        (Ask::KnownOnBoard(4, None), (S1, 3, 0, 6)),
        (report(1), (S1, 3, 1, 5)),
        (Ask::Counts([3, 1, 0]), (S1, 3, 1, 5)),
        (report(3), (S1, 3, 3, 3)),
        (Ask::Counts([3, 1, 1]), (S1, 3, 3, 3)),
        (Ask::KnownOnBoard(9, Some(1)), (S1, 3, 3, 3)),
        (Ask::Advance, (S1, 4, 3, 3)),
        (Ask::Counts([3, 2, 1]), (S1, 4, 3, 3)),
        (Ask::Advance, (S1, 5, 3, 3)),
        (Ask::Advance, (S1, 6, 3, 3)),
        (Ask::Counts([3, 3, 1]), (S1, 6, 3, 3)),
        (Ask::Resume(5, NOT_KNOWN), (S1, 6, 3, 3)),
        (TERMINATE, (S6, 6, 3, 0)),
        (Ask::Counts([3, 3, 1]), (S6, 6, 3, 0)),
        (Ask::KnownOnBoard(2, None), (S6, 6, 3, 0)),
        (Ask::KnownOnBoard(3, Some(1)), (S6, 6, 3, 0)),
        (Ask::KnownOnBoard(5, Some(2)), (S6, 6, 3, 0)),
        (Ask::KnownOnBoard(6, Some(3)), (S6, 6, 3, 0)),
        (Ask::Resume(2, NOT_KNOWN), (S6, 6, 3, 0)),
        (Ask::Resume(7, NOT_KNOWN), (S6, 6, 3, 0)),
        (Ask::Resume(5, Ok(2)), (S5, 5, 5, 0)),
        (Ask::Counts([0, 0, 0]), (S5, 5, 5, 0)),
        (Ask::KnownOnBoard(5, Some(0)), (S5, 5, 5, 0)),
        (Ask::Resume(5, NOT_KNOWN), (S5, 5, 5, 0)),
        (Ask::Pull(Some(&UNLOCK)), (S5, 5, 5, 0)),
        (report(5), (S1, 5, 5, 0)),
    ];
    asks(&rt, rt.alloc(), &with_parts(4, 0), &rows);
}

// Once V(S) is set, nothing is known until the next initiation. Neither a refused directive nor one that sets
// no number changes anything.
#[test]
fn a_number_is_set(rt: HostRuntime) {
    use FopMode::{S1, S5, S6};
    let refused = Ask::Directive(Directive::SetVs(9), Err(CopFault::WrongState));
    let rows = [
        (INIT, (S1, 0, 0, 0)),
        (Ask::Submit(&P0, Ok(())), (S1, 0, 0, 2)),
        (Ask::Submit(&P1, Ok(())), (S1, 0, 0, 4)),
        (Ask::Advance, (S1, 1, 0, 4)),
        (Ask::Advance, (S1, 2, 0, 4)),
        (refused, (S1, 2, 0, 4)),
        (
            Ask::Directive(Directive::SetWindow(1), Ok(None)),
            (S1, 2, 0, 4),
        ),
        (Ask::Counts([2, 1, 0]), (S1, 2, 0, 4)),
        (TERMINATE, (S6, 2, 0, 0)),
        (Ask::Counts([2, 1, 0]), (S6, 2, 0, 0)),
        (Ask::Directive(Directive::SetVs(9), Ok(None)), (S6, 9, 9, 0)),
        (Ask::Counts([0, 0, 0]), (S6, 9, 9, 0)),
        (Ask::KnownOnBoard(9, None), (S6, 9, 9, 0)),
        (Ask::Resume(9, NOT_KNOWN), (S6, 9, 9, 0)),
        (INIT, (S1, 9, 9, 0)),
        (TERMINATE, (S6, 9, 9, 0)),
        (Ask::KnownOnBoard(7, Some(0)), (S6, 9, 9, 0)),
        (Ask::Resume(7, Ok(0)), (S5, 7, 7, 0)),
    ];
    asks(&rt, rt.alloc(), &with_parts(4, 0), &rows);
}

// After an alert that shows a broken condition, nothing is known until the next initiation; the counts do not
// change. A CLCW raises such an alert if no CLCW of the session can have its report value, or if it requests
// nothing.
#[test]
fn a_condition_is_broken(rt: HostRuntime) {
    use FopMode::{S1, S5, S6};
    let rows = [
        (INIT, (S1, 0, 0, 0)),
        (Ask::Submit(&P0, Ok(())), (S1, 0, 0, 2)),
        (Ask::Submit(&P1, Ok(())), (S1, 0, 0, 4)),
        (Ask::Advance, (S1, 1, 0, 4)),
        (Ask::Advance, (S1, 2, 0, 4)),
        (report(2), (S1, 2, 2, 2)),
        (Ask::KnownOnBoard(2, Some(1)), (S1, 2, 2, 2)),
        (alerts(NONE, 5, Alert::NnR), (S6, 2, 2, 0)),
        (Ask::Counts([2, 1, 1]), (S6, 2, 2, 0)),
        (Ask::KnownOnBoard(2, None), (S6, 2, 2, 0)),
        (Ask::Resume(2, NOT_KNOWN), (S6, 2, 2, 0)),
        (INIT, (S1, 2, 2, 0)),
        (Ask::KnownOnBoard(2, Some(0)), (S1, 2, 2, 0)),
        (alerts(RETRANSMIT, 2, Alert::Synch), (S6, 2, 2, 0)),
        (Ask::Resume(2, NOT_KNOWN), (S6, 2, 2, 0)),
        (INIT, (S1, 2, 2, 0)),
        (alerts(LOCKOUT, 2, Alert::Lockout), (S6, 2, 2, 0)),
        (Ask::Resume(2, NOT_KNOWN), (S6, 2, 2, 0)),
        (INIT, (S1, 2, 2, 0)),
        (alerts(WAIT, 2, Alert::Clcw), (S6, 2, 2, 0)),
        (Ask::Resume(2, NOT_KNOWN), (S6, 2, 2, 0)),
        (INIT, (S1, 2, 2, 0)),
        (TERMINATE, (S6, 2, 2, 0)),
        (Ask::Resume(2, Ok(0)), (S5, 2, 2, 0)),
    ];
    asks(&rt, rt.alloc(), &with_parts(4, 0), &rows);
}

// A retransmission is requested of a segment that may be sent once. Losses suffice for this alert, so it is
// known what is on board.
#[test]
fn the_limit_is_reached(rt: HostRuntime) {
    use FopMode::{S1, S5, S6};
    let rows = [
        (
            Ask::Directive(Directive::SetLimit(1), Ok(None)),
            (S6, 0, 0, 0),
        ),
        (INIT, (S1, 0, 0, 0)),
        (Ask::Submit(&P0, Ok(())), (S1, 0, 0, 2)),
        (Ask::Submit(&P1, Ok(())), (S1, 0, 0, 4)),
        (Ask::Advance, (S1, 1, 0, 4)),
        (Ask::Advance, (S1, 2, 0, 4)),
        (Ask::Advance, (S1, 3, 0, 4)),
        (alerts(RETRANSMIT, 2, Alert::Limit), (S6, 3, 2, 0)),
        (Ask::KnownOnBoard(2, Some(1)), (S6, 3, 2, 0)),
        (Ask::Resume(2, Ok(1)), (S5, 2, 2, 0)),
    ];
    asks(&rt, rt.alloc(), &with_parts(4, 0), &rows);
}

// Three packets have two segments, one with two packets and one with one; the next submission has one
// segment. Packets sent by bypass are not counted.
#[test]
fn submissions_of_several_packets(rt: HostRuntime) {
    use FopMode::{S1, S5, S6};
    let rows = [
        (INIT, (S1, 0, 0, 0)),
        (Ask::Submit(&THREE, Ok(())), (S1, 0, 0, 2)),
        (Ask::Submit(&P1, Ok(())), (S1, 0, 0, 3)),
        (Ask::Bypass(&P2, Ok(())), (S1, 0, 0, 3)),
        (Ask::Counts([2, 0, 0]), (S1, 0, 0, 3)),
        (Ask::Advance, (S1, 0, 0, 3)),
        (Ask::Advance, (S1, 1, 0, 3)),
        (Ask::Counts([2, 0, 0]), (S1, 1, 0, 3)),
        (Ask::Advance, (S1, 2, 0, 3)),
        (Ask::Counts([2, 1, 0]), (S1, 2, 0, 3)),
        (Ask::Advance, (S1, 3, 0, 3)),
        (Ask::Counts([2, 2, 0]), (S1, 3, 0, 3)),
        (TERMINATE, (S6, 3, 0, 0)),
        (Ask::KnownOnBoard(1, Some(0)), (S6, 3, 0, 0)),
        (Ask::KnownOnBoard(2, Some(1)), (S6, 3, 0, 0)),
        (Ask::KnownOnBoard(3, Some(2)), (S6, 3, 0, 0)),
        (Ask::Resume(1, Ok(0)), (S5, 1, 1, 0)),
    ];
    asks(&rt, rt.alloc(), &with_parts(14, 1), &rows);
}
