// Runs of the sender.

use super::equal::equal;
use super::refusals::{again, says_refused};
use bitflags::Flags;
use clcw::{Clcw, ClcwFlags};
use cop1::{
    Alert, Control, CopFault, Directive, Fop, FopMode, Pulled, Sender, SenderFields, SenderNext,
    accepted_beyond,
};
use std::alloc::Global;
use std::process::Abort;
use tc_frame::Command;

const LOCKOUT: u8 = 0x20;

const WAIT: u8 = 0x10;

const RETRANSMIT: u8 = 0x08;

// A call, and what it answers.
#[derive(Clone, Copy)]
enum Call {
    Submit(u8, Result<(), (CopFault, u8)>),
    Direct(Directive, Result<Option<Alert>, CopFault>),
    // The flags and the report value of a CLCW.
    Report(u8, u8, Option<Alert>),
    Tick(Option<Alert>),
    // The number and the unit, if one is pulled.
    Pull(Option<(u8, u8)>),
}

fn report(flags: u8, value: u8) -> Clcw {
    Clcw {
        status: 0,
        vcid: 2,
        flags: ClcwFlags::from_bits_retain(flags),
        farm_b: 0,
        value,
    }
}

// A sender of units and, next to it, the rules by themselves, which are restored after each call.
#[derive(Drop)]
struct Both {
    fop: Fop<u8>,
    sender: Sender,
}

fn new_both(rt: &impl Abort, alloc: Global, limit: u8, timer: u16) -> Both {
    Both {
        sender: Sender::new(254, 127, limit, timer).expect(rt, "the rules"),
        fop: Fop::new(alloc, 254, 127, limit, timer).expect(rt, "a sender"),
    }
}

fn peeked(fop: &Fop<u8>) -> Option<(u8, u8)> {
    match fop.peek() {
        Pulled::Sequence(number, unit) => Some((number, *unit)),
        _ => None,
    }
}

fn pulled(fop: &mut Fop<u8>) -> Option<(u8, u8)> {
    match fop.pull() {
        Pulled::Sequence(number, unit) => Some((number, *unit)),
        _ => None,
    }
}

fn number_of(next: SenderNext) -> Option<u8> {
    match next {
        SenderNext::First(number) | SenderNext::Again(number) => Some(number),
        _ => None,
    }
}

fn answer_of_fop(rt: &impl Abort, fop: &mut Fop<u8>, call: Call) {
    match call {
        Call::Submit(unit, answer) => equal(rt, &fop.submit(unit), &answer),
        Call::Direct(directive, answer) => equal(rt, &fop.directive(directive), &answer),
        Call::Report(flags, value, alert) => alerts(rt, fop.clcw(&report(flags, value)), alert),
        Call::Tick(alert) => alerts(rt, fop.tick(), alert),
        Call::Pull(answer) => pulls(rt, fop, answer),
    }
}

fn alerts(rt: &impl Abort, alert: Option<Alert>, wanted: Option<Alert>) {
    equal(rt, &alert, &wanted);
}

// Peeks at the unit, then pulls it.
fn pulls(rt: &impl Abort, fop: &mut Fop<u8>, answer: Option<(u8, u8)>) {
    equal(rt, &peeked(fop), &answer);
    equal(rt, &pulled(fop), &answer);
}

// Returns the answer as the rules give it, without the unit.
fn without_unit(answer: Result<(), (CopFault, u8)>) -> Result<(), CopFault> {
    match answer {
        Ok(()) => Ok(()),
        Err((fault, _)) => Err(fault),
    }
}

fn number_alone(answer: Option<(u8, u8)>) -> Option<u8> {
    match answer {
        Some((number, _)) => Some(number),
        None => None,
    }
}

fn pulls_number(rt: &impl Abort, sender: &mut Sender, number: Option<u8>) {
    equal(rt, &number_of(sender.peek()), &number);
    equal(rt, &number_of(sender.next()), &number);
}

fn answer_of_sender(rt: &impl Abort, sender: &mut Sender, call: Call) {
    match call {
        Call::Submit(_, answer) => equal(rt, &sender.submit(), &without_unit(answer)),
        Call::Direct(directive, answer) => equal(rt, &sender.directive(directive), &answer),
        Call::Report(flags, value, alert) => {
            alerts(rt, sender.report(&report(flags, value)).alert, alert)
        }
        Call::Tick(alert) => alerts(rt, sender.tick(), alert),
        Call::Pull(answer) => pulls_number(rt, sender, number_alone(answer)),
    }
}

fn is_restored(rt: &impl Abort, sender: &mut Sender) {
    let kept = sender.fields();
    if let Ok(restored) = Sender::restore(kept) {
        *sender = restored;
    }
    equal(rt, &Sender::restore(kept).err(), &None);
    equal(rt, &sender.fields(), &kept);
}

// The state, V(S), NN(R), whether a unit waits, and how many were sent.
type Standing = (FopMode, u8, u8, bool, usize);

fn seen(fop: &Fop<u8>) -> Standing {
    (fop.state(), fop.vs(), fop.nn(), fop.waiting(), fop.sent())
}

fn seen_of_sender(sender: &Sender) -> Standing {
    let kept = sender.fields();
    let sent = usize::from(kept.sent);
    (kept.state, kept.vs, kept.nn, kept.waiting, sent)
}

fn run(rt: &impl Abort, both: &mut Both, calls: &[Call]) {
    for call in calls {
        answer_of_fop(rt, &mut both.fop, *call);
        answer_of_sender(rt, &mut both.sender, *call);
        is_restored(rt, &mut both.sender);
        equal(rt, &seen_of_sender(&both.sender), &seen(&both.fop));
        equal(rt, &clock_of_sender(&both.sender), &clock(&both.fop));
    }
}

// How many units are due again, the transmission count, and the ticks that are left.
type Clock = (usize, u8, Option<u16>);

fn clock(fop: &Fop<u8>) -> Clock {
    (fop.due(), fop.count(), fop.ticks())
}

fn clock_of_sender(sender: &Sender) -> Clock {
    let kept = sender.fields();
    (usize::from(kept.due), kept.count, kept.ticks)
}

// A sender that has sent one unit, 10, with the number 0.
const ONE_SENT: [Call; 3] = [
    Call::Direct(Directive::InitWithoutCheck, Ok(None)),
    Call::Submit(10, Ok(())),
    Call::Pull(Some((0, 10))),
];

#[test]
fn a_window_is_at_most_half_the_width(rt: HostRuntime) {
    for (width, window, fault) in [
        (254, 127, None),
        (254, 128, Some(CopFault::Window)),
        (3, 1, Some(CopFault::Width)),
        (0, 1, Some(CopFault::Width)),
    ] {
        equal(
            &rt,
            &Fop::<u8>::new(rt.alloc(), width, window, 3, 10).err(),
            &fault,
        );
    }
}

// A sender that has sent a unit has these numbers; `restore` refuses those that differ.
#[test]
fn no_sender_has_other_numbers(rt: HostRuntime) {
    let kept = in_state(&rt, rt.alloc(), FopMode::S1).sender.fields();
    equal(
        &rt,
        &(kept.room, kept.sent, kept.ticks),
        &(127, 1, Some(10)),
    );
    for fields in others(kept) {
        equal(&rt, &Sender::restore(fields).err(), &Some(CopFault::State));
    }
}

fn others(kept: SenderFields) -> [SenderFields; 12] {
    [
        SenderFields { sent: 2, ..kept },
        SenderFields { due: 2, ..kept },
        SenderFields { room: 128, ..kept },
        SenderFields { window: 0, ..kept },
        SenderFields {
            ticks: Some(0),
            ..kept
        },
        SenderFields {
            ticks: None,
            ..kept
        },
        SenderFields {
            sent: 0,
            nn: kept.vs,
            ..kept
        },
        SenderFields {
            state: FopMode::S4,
            ..kept
        },
        SenderFields {
            state: FopMode::S5,
            control: Control::Due(Command::Unlock),
            ..kept
        },
        SenderFields {
            state: FopMode::S6,
            ..kept
        },
        SenderFields {
            state: FopMode::S6,
            sent: 0,
            vs: kept.nn.wrapping_add(128),
            ticks: None,
            ..kept
        },
        SenderFields {
            control: Control::Due(Command::Unlock),
            ..kept
        },
    ]
}

// Lets more ticks pass than a timer of 10 lasts that is started three times.
fn has_no_timer(rt: &impl Abort, both: &mut Both) {
    for _ in 0..40 {
        run(rt, both, &[Call::Tick(None)]);
    }
    equal(rt, &both.fop.state(), &FopMode::S1);
}

#[test]
fn a_sender_counts_past_255(rt: HostRuntime) {
    let mut both = new_both(&rt, rt.alloc(), 3, 10);
    run(
        &rt,
        &mut both,
        &[
            Call::Submit(10, Err((CopFault::NotOpen, 10))),
            Call::Direct(Directive::SetVs(255), Ok(None)),
            Call::Direct(Directive::InitWithoutCheck, Ok(None)),
            Call::Submit(10, Ok(())),
            Call::Submit(20, Err((CopFault::Busy, 20))),
            Call::Pull(Some((255, 10))),
            Call::Pull(None),
            Call::Direct(Directive::InitUnlock, Err(CopFault::WrongState)),
            Call::Direct(Directive::SetVs(3), Err(CopFault::WrongState)),
            Call::Direct(Directive::SetWindow(0), Err(CopFault::Window)),
            Call::Direct(Directive::SetLimit(0), Err(CopFault::Limit)),
            Call::Direct(Directive::SetTimer(0), Err(CopFault::Timer)),
            Call::Report(0, 0, None),
        ],
    );
    equal(
        &rt,
        &(
            both.fop.state(),
            both.fop.sent(),
            both.fop.nn(),
            both.fop.vs(),
        ),
        &(FopMode::S1, 0, 0, 0),
    );
    has_no_timer(&rt, &mut both);
}

#[test]
fn a_report_alerts(rt: HostRuntime) {
    for (flags, value, alert) in [
        (LOCKOUT, 2, Alert::Lockout),
        (0, 2, Alert::NnR),
        (WAIT, 1, Alert::Clcw),
        (RETRANSMIT, 1, Alert::Synch),
    ] {
        let mut both = in_state(&rt, rt.alloc(), FopMode::S1);
        run(&rt, &mut both, &[Call::Report(flags, value, Some(alert))]);
        equal(&rt, &both.fop.state(), &FopMode::S6);
    }
}

// With a limit of 2, the unit is retransmitted when the timer expires for the first time.
#[test]
fn a_timer_ends(rt: HostRuntime) {
    let again = [
        Call::Tick(None),
        Call::Tick(None),
        Call::Pull(Some((0, 10))),
    ];
    for (limit, before) in [(1, &again[..0]), (2, &again[..])] {
        let mut both = new_both(&rt, rt.alloc(), limit, 2);
        run(&rt, &mut both, &ONE_SENT);
        run(&rt, &mut both, before);
        run(
            &rt,
            &mut both,
            &[Call::Tick(None), Call::Tick(Some(Alert::Timer))],
        );
        equal(&rt, &both.fop.state(), &FopMode::S6);
    }
}

// The calls that lead a sender that has sent a unit to its next state.
const TO_S2: [Call; 1] = [Call::Report(RETRANSMIT, 0, None)];

const TO_S3: [Call; 1] = [Call::Report(RETRANSMIT + WAIT, 0, None)];

const TERMINATE: Call = Call::Direct(Directive::Terminate, Ok(Some(Alert::Terminated)));

const TO_S6: [Call; 1] = [TERMINATE];

const TO_S4: [Call; 2] = [TERMINATE, Call::Direct(Directive::InitWithCheck, Ok(None))];

const TO_S5: [Call; 2] = [TERMINATE, Call::Direct(Directive::InitUnlock, Ok(None))];

fn calls_to(state: FopMode) -> &'static [Call] {
    match state {
        FopMode::S1 => &[],
        FopMode::S2 => &TO_S2,
        FopMode::S3 => &TO_S3,
        FopMode::S4 => &TO_S4,
        FopMode::S5 => &TO_S5,
        FopMode::S6 => &TO_S6,
    }
}

fn in_state(rt: &impl Abort, alloc: Global, state: FopMode) -> Both {
    let mut both = new_both(rt, alloc, 3, 10);
    run(rt, &mut both, &ONE_SENT);
    run(rt, &mut both, calls_to(state));
    both
}

fn expected(directive: Directive, initial: bool) -> Result<Option<Alert>, CopFault> {
    match directive {
        Directive::SetWindow(_) | Directive::SetLimit(_) | Directive::SetTimer(_) => Ok(None),
        Directive::Terminate if initial => Err(CopFault::WrongState),
        Directive::Terminate => Ok(Some(Alert::Terminated)),
        _ if initial => Ok(None),
        _ => Err(CopFault::WrongState),
    }
}

#[test]
fn a_directive_has_its_states(rt: HostRuntime) {
    use FopMode::{S1, S2, S3, S4, S5, S6};
    for state in [S1, S2, S3, S4, S5, S6] {
        for directive in [
            Directive::InitWithoutCheck,
            Directive::InitWithCheck,
            Directive::InitUnlock,
            Directive::InitSetVr(7),
            Directive::Terminate,
            Directive::SetVs(3),
            Directive::SetWindow(1),
            Directive::SetLimit(1),
            Directive::SetTimer(1),
        ] {
            let mut both = in_state(&rt, rt.alloc(), state);
            equal(&rt, &both.fop.state(), &state);
            let answer = expected(directive, state == S6);
            run(&rt, &mut both, &[Call::Direct(directive, answer)]);
        }
    }
}

// The report value of a CLCW, and how many units from NN(R) to V(S) it shows to be accepted.
type Says = (u8, Option<u8>);

// NN(R), V(S), and what CLCWs show.
const SAYS: [(u8, u8, &[Says]); 4] = [
    (
        3,
        7,
        &[
            (5, Some(2)),
            (3, Some(0)),
            (7, Some(4)),
            (8, None),
            (2, None),
        ],
    ),
    (
        250,
        5,
        &[
            (250, Some(0)),
            (255, Some(5)),
            (0, Some(6)),
            (5, Some(11)),
            (6, None),
            (249, None),
        ],
    ),
    (
        9,
        9,
        &[(9, Some(0)), (10, Some(0)), (8, Some(0)), (137, Some(0))],
    ),
    (0, 127, &[(127, Some(127)), (128, None)]),
];

fn says(rt: &impl Abort, nn: u8, vs: u8, rows: &[Says]) {
    for (value, accepted) in rows {
        equal(rt, &accepted_beyond(nn, vs, *value), accepted);
    }
}

#[test]
fn a_report_says_what_was_accepted(rt: HostRuntime) {
    for (nn, vs, rows) in SAYS {
        says(&rt, nn, vs, rows);
    }
}

// An alert changes neither number, so later CLCWs show what was accepted. An initiation ends this.
#[test]
fn a_report_after_an_alert_says_what_was_accepted(rt: HostRuntime) {
    let mut both = in_state(&rt, rt.alloc(), FopMode::S6);
    for (calls, rows) in [
        (&[][..], &[(0, Some(0)), (1, Some(1)), (2, None)][..]),
        (
            &[Call::Direct(Directive::InitWithoutCheck, Ok(None))],
            &[(0, Some(0)), (1, Some(0)), (2, Some(0))],
        ),
    ] {
        run(&rt, &mut both, calls);
        says(&rt, both.fop.nn(), both.fop.vs(), rows);
    }
}

// If memory is refused, nothing changes, and the same call succeeds once there is memory.
#[test]
fn a_sender_does_without_memory(rt: HostRuntime) {
    let mut fop = new_fop(&rt, rt.alloc());
    for unit in 0..20 {
        bypasses(&rt, &mut fop, unit);
    }
    for unit in 0..20 {
        pulls_bypass(&rt, &mut fop, unit);
    }
    assert!(rt; !fop.waiting());
}

fn new_fop(rt: &(impl Abort + Eprint), alloc: Global) -> Fop<u8> {
    again(rt, CopFault::Memory, || Fop::new(alloc, 254, 127, 3, 10)).expect(rt, "a sender")
}

// Sends a unit by bypass; its value is its number among them.
fn bypasses(rt: &(impl Abort + Eprint), fop: &mut Fop<u8>, unit: u8) {
    if let Err(refused) = fop.bypass(unit) {
        says_refused(rt, refused, (CopFault::Memory, unit));
        equal(rt, &fop.bypassed(), &usize::from(unit));
        equal(rt, &fop.bypass(unit), &Ok(()));
    }
}

fn pulls_bypass(rt: &impl Abort, fop: &mut Fop<u8>, unit: u8) {
    assert!(rt; matches!(fop.peek(), Pulled::Bypass(peeked) if *peeked == unit));
    assert!(rt; matches!(fop.pull(), Pulled::Bypass(pulled) if pulled == unit));
}

#[test]
fn a_sender_that_is_made_takes_no_memory(rt: HostRuntime) {
    let mut both = new_both(&rt, rt.alloc(), 3, 10);
    let _ = eprintln!(rt; "set up");
    run(&rt, &mut both, &ONE_SENT);
    run(&rt, &mut both, &TO_S2);
    run(
        &rt,
        &mut both,
        &[
            Call::Pull(Some((0, 10))),
            Call::Report(0, 1, None),
            Call::Tick(None),
            Call::Submit(20, Ok(())),
        ],
    );
    run(&rt, &mut both, &TO_S4);
}
