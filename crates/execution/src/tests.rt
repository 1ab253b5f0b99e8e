// A run that `law_of_own_commands` leaves out: a second order is made before a status shows that the board
// obeyed the first.

use command_ledger::{Ledger, Next, Tell};
use command_log::{Record, Status, encode_status, history_after};
use std::process::Abort;

// What `next` returns is stored or reported, until nothing is left; whether a report was `Foreign`.
fn reports_foreign(ledger: &mut Ledger) -> bool {
    let mut foreign = false;
    for _call in 0..12 {
        let (count, tell) = match ledger.next() {
            Next::Store(octets) => (octets.len(), None),
            Next::Tell(tell) => (0, Some(tell)),
            Next::Nothing => (0, None),
        };
        if count > 0 {
            ledger.stored(count);
        }
        if let Some(tell) = tell {
            foreign = foreign || matches!(tell, Tell::Foreign(_, _));
            let _memory = ledger.told(tell);
        }
    }
    foreign
}

fn hears(rt: &impl Abort, ledger: &mut Ledger, status: Status) -> bool {
    ledger
        .hears(&encode_status(&status, 0))
        .expect(rt, "memory");
    reports_foreign(ledger)
}

fn says(boot: u32, known: u64, history: u32) -> Status {
    Status::Says(Record {
        boot,
        last: 1,
        begun: false,
        known,
        history,
    })
}

fn brings_a_record(rt: &impl Abort, ledger: &mut Ledger, mark: u32) {
    assert!(rt; !hears(rt, ledger, Status::Lost(mark)));
    ledger.rebuild().expect(rt, "memory");
    assert!(rt; !reports_foreign(ledger));
    assert!(rt; ledger.order().is_some());
}

#[test]
fn a_second_order_is_made_too_early(rt: HostRuntime) {
    let (mut ledger, _good) = Ledger::open(rt.alloc(), &[], 64).expect(&rt, "memory");
    ledger.command(7, 0, 5, 0, &[1, 2, 3]).expect(&rt, "memory");
    assert!(rt; !reports_foreign(&mut ledger));
    let (_map, packet) = ledger.packet(1).expect(&rt, "a stored command");
    let history = history_after(0, packet);
    assert!(rt; !hears(&rt, &mut ledger, says(1, 1, history)));
    brings_a_record(&rt, &mut ledger, 7);
    // the board obeys, and loses its record again before this status arrives
    let late = says(65537, 0, 0);
    brings_a_record(&rt, &mut ledger, 8);
    assert!(rt; hears(&rt, &mut ledger, late));
}
