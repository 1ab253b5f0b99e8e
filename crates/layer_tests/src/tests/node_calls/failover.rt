// A ground that continues from the record of another, which was lost.

use super::ground::{Ask, asks};
use super::{Node, Standing, plays};
use crate::tests::common::{ends_growths, equal, says_refused, with_parts};
use crate::tests::frames::{P0, P1, P2, UNLOCK};
use cop1::{Alert, Directive, FopMode};
use nodes::{HeardClcw, HeardReport, KeptGround, LinkFault, ValidConfig};
use std::alloc::Global;
use std::process::Abort;
use tc_link::{Config, Ground};

// Returns the record of a ground that sent three packets of two segments each. Three segments are
// acknowledged: one packet, and the first segment of the next.
fn record() -> KeptGround {
    let mut segments = [0; 127];
    segments[0] = 1;
    segments[1] = 2;
    KeptGround {
        acknowledged: 1,
        vs: 6,
        nn: 3,
        known: true,
        whole: 2,
        segments,
    }
}

// A ground that is opened at that record.
#[derive(Drop)]
struct Another {
    ground: Ground,
}

impl<'a> Node<(Ask<'a>, Standing)> for Another {
    fn create(alloc: Global, config: &ValidConfig) -> Result<Another, LinkFault> {
        let ground = Ground::open_at(alloc, config, &record())?;
        Ok(Another { ground })
    }

    fn length_of_frames(&self) -> usize {
        self.ground.frame_length()
    }

    fn answers(&mut self, rt: &(impl Abort + Eprint), call: &(Ask<'a>, Standing)) {
        self.ground.answers(rt, call);
    }
}

// The ground is like the lost one after an alert. It knows what is on board, resumes, and begins with Unlock.
#[test]
fn goes_on(rt: HostRuntime) {
    use FopMode::{S1, S5, S6};
    let not_known = Err(LinkFault::NotKnown);
    let rows = [
        (Ask::Kept(&record()), (S6, 6, 3, 0)),
        (Ask::Counts([3, 3, 1]), (S6, 6, 3, 0)),
        (Ask::Submit(&P0, Err(LinkFault::NotOpen)), (S6, 6, 3, 0)),
        (Ask::Pull(None), (S6, 6, 3, 0)),
        (Ask::Tick(None), (S6, 6, 3, 0)),
        (Ask::KnownOnBoard(2, None), (S6, 6, 3, 0)),
        (Ask::KnownOnBoard(3, Some(1)), (S6, 6, 3, 0)),
        (Ask::KnownOnBoard(5, Some(2)), (S6, 6, 3, 0)),
        (Ask::KnownOnBoard(6, Some(3)), (S6, 6, 3, 0)),
        (Ask::Resume(2, not_known), (S6, 6, 3, 0)),
        (Ask::Resume(7, not_known), (S6, 6, 3, 0)),
        (Ask::Resume(5, Ok(2)), (S5, 5, 5, 0)),
        (Ask::Counts([0, 0, 0]), (S5, 5, 5, 0)),
        (Ask::Pull(Some(&UNLOCK)), (S5, 5, 5, 0)),
        (
            Ask::Clcw(
                [0x01, 0x08, 0x00, 5],
                HeardClcw {
                    report: HeardReport::Used,
                    alert: None,
                },
            ),
            (S1, 5, 5, 0),
        ),
        (Ask::Submit(&P2, Ok(())), (S1, 5, 5, 2)),
    ];
    plays::<Another, (Ask<'_>, Standing)>(&rt, rt.alloc(), &with_parts(4, 0), &rows);
}

// Checks the record of a ground, which contains nothing of packets that were not sent whole.
#[test]
fn is_kept(rt: HostRuntime) {
    use FopMode::{S1, S6};
    let none = KeptGround {
        acknowledged: 0,
        vs: 0,
        nn: 0,
        known: false,
        whole: 0,
        segments: [0; 127],
    };
    let begun = KeptGround {
        known: true,
        ..none
    };
    let part_sent = KeptGround { vs: 1, ..begun };
    let mut one_sent = KeptGround {
        vs: 2,
        whole: 1,
        ..begun
    };
    one_sent.segments[0] = 2;
    let rows = [
        (Ask::Kept(&none), (S6, 0, 0, 0)),
        (
            Ask::Directive(Directive::InitWithoutCheck, Ok(None)),
            (S1, 0, 0, 0),
        ),
        (Ask::Submit(&P0, Ok(())), (S1, 0, 0, 2)),
        (Ask::Submit(&P1, Ok(())), (S1, 0, 0, 4)),
        (Ask::Submit(&P2, Ok(())), (S1, 0, 0, 6)),
        (Ask::Kept(&begun), (S1, 0, 0, 6)),
        (Ask::Advance, (S1, 1, 0, 6)),
        (Ask::Kept(&part_sent), (S1, 1, 0, 6)),
        (Ask::Advance, (S1, 2, 0, 6)),
        (Ask::Kept(&one_sent), (S1, 2, 0, 6)),
        (Ask::Advance, (S1, 3, 0, 6)),
        (Ask::Advance, (S1, 4, 0, 6)),
        (Ask::Advance, (S1, 5, 0, 6)),
        (Ask::Advance, (S1, 6, 0, 6)),
        (
            Ask::Clcw(
                [0x01, 0x08, 0x00, 3],
                HeardClcw {
                    report: HeardReport::Used,
                    alert: None,
                },
            ),
            (S1, 6, 3, 3),
        ),
        (Ask::Kept(&record()), (S1, 6, 3, 3)),
        (
            Ask::Directive(Directive::Terminate, Ok(Some(Alert::Terminated))),
            (S6, 6, 3, 0),
        ),
        (Ask::Kept(&record()), (S6, 6, 3, 0)),
    ];
    asks(&rt, rt.alloc(), &with_parts(4, 0), &rows);
}

// `open_at` refuses records that no ground returns: V(S) too far above NN(R) or below it, a wrong number of
// submissions for the segments or more than a record can have, and something after the last. It accepts the
// unchanged record.
#[test]
fn is_refused(rt: HostRuntime) {
    let config = Config {
        width: 6,
        window: 3,
        ..Config::default()
    };
    let valid = config.valid().expect(&rt, "a configuration");
    let given = record();
    let mut more = KeptGround { whole: 3, ..given };
    more.segments[2] = 1;
    let mut after = given;
    after.segments[126] = 1;
    let wrong = [
        KeptGround { vs: 7, ..given },
        KeptGround { vs: 2, ..given },
        more,
        KeptGround { whole: 3, ..given },
        KeptGround { whole: 1, ..given },
        KeptGround {
            whole: 128,
            ..given
        },
        after,
    ];
    for kept in &wrong {
        let fault = Ground::open_at(rt.alloc(), &valid, kept).err();
        equal(&rt, &fault, &Some(LinkFault::NotKnown));
    }
    if let Err(fault) = Ground::open_at(rt.alloc(), &valid, &given) {
        says_refused(&rt, fault.number(), 6);
    }
    ends_growths(&rt, rt.alloc());
}
