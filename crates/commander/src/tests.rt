// Whole sessions with a board, over a link that loses frames, and each refusal.

use crate::*;
use command_ledger::{LedgerFault, Tell};
use command_log::{Action, Executor, Place, Record, encode_status};
use nodes::{Config, Spacecraft, ValidConfig};
use space_packet::{Packet, PacketKind};
use std::alloc::Global;
use std::fmt::Debug;
use std::process::Abort;

const MISSION: Mission = Mission {
    round_trip: 2,
    map: 0,
    orders: 1,
    status: 2,
    holds: false,
};

// A comparison that is proved once, and not at each place.
fn equal<A: PartialEq + Debug>(rt: &impl Abort, left: &A, right: &A) {
    assert_eq!(*rt; *left, *right);
}

fn config() -> ValidConfig {
    ValidConfig::of(&Config::default())
}

fn opened(rt: &impl Abort, alloc: Global, mission: &Mission) -> Commander {
    let (commander, good) = Commander::open(alloc, &config(), mission, &[]).expect(rt, "memory");
    equal(rt, &good, &0);
    commander
}

// A board, and what the ground's program has seen.
#[derive(Drop)]
struct World {
    alloc: Global,
    commander: Commander,
    node: Spacecraft,
    executor: Executor,
    first: Option<Record>,
    second: Option<Record>,
    // The number that was executed last, and how many frames were sent on both links.
    last: u32,
    executions: u32,
    frames: u32,
    // Of so many frames one is lost.
    loss: u32,
    // Whether the board drops the packets that it takes.
    drops: bool,
    told: u32,
    unknown: u32,
    alerts: u32,
    restarts: u32,
    losses: u32,
}

fn new_world(rt: &impl Abort, alloc: Global, mission: &Mission, loss: u32) -> World {
    let kept = Some(Record::new_board());
    World {
        alloc,
        commander: opened(rt, alloc, mission),
        node: Spacecraft::of(alloc, &config()).expect(rt, "memory"),
        executor: Executor::start(kept, kept, 1),
        first: kept,
        second: kept,
        last: 0,
        executions: 0,
        frames: 0,
        loss,
        drops: false,
        told: 0,
        unknown: 0,
        alerts: 0,
        restarts: 0,
        losses: 0,
    }
}

impl World {
    fn is_lost(&mut self) -> bool {
        self.frames = self.frames.wrapping_add(1);
        self.loss > 0 && self.frames % self.loss == 0
    }

    fn give(&mut self, rt: &impl Abort, count: u64) {
        for tag in 0..count {
            let given = self.commander.command(tag, 3, 5, 0, &[1, 2, 3]);
            equal(rt, &given.is_ok(), &true);
        }
    }

    fn tells(&mut self, rt: &impl Abort, tell: Tell) {
        match tell {
            Tell::Executed(_) => self.told = self.told.wrapping_add(1),
            Tell::Unknown(_) => self.unknown = self.unknown.wrapping_add(1),
            Tell::Restarted(_) => self.restarts = self.restarts.wrapping_add(1),
            Tell::RecordLost(_) => self.losses = self.losses.wrapping_add(1),
            Tell::Foreign(..) => equal(rt, &1, &0),
        }
        equal(rt, &self.commander.told(tell), &Ok(()));
    }

    fn ground_acts(&mut self, rt: &impl Abort) -> bool {
        let mut out = [0; 1024];
        match self.commander.next(&mut out).expect(rt, "memory") {
            Next::Nothing => return false,
            Next::Store => {
                let count = self.commander.unstored().len();
                self.commander.stored(count);
            }
            Next::Tell(tell) => self.tells(rt, tell),
            Next::Alert(_) => self.alerts = self.alerts.wrapping_add(1),
            Next::Telemetry => {
                let _ = self.commander.take_telemetry().expect(rt, "memory");
            }
            Next::Send(count) => {
                if !self.is_lost() && count <= 1024 {
                    let _ = self.node.receive(&out[..count]).expect(rt, "memory");
                }
            }
        }
        true
    }

    fn restart(&mut self, rt: &impl Abort) {
        self.node = Spacecraft::of(self.alloc, &config()).expect(rt, "memory");
        self.executor = Executor::start(self.first, self.second, 7);
    }

    fn takes(&mut self) -> bool {
        if let Some((_, order)) = self.node.take_bypass() {
            let _ = self.executor.obey(&order);
            return true;
        }
        let Some((_, packet)) = self.node.take() else {
            return false;
        };
        if !self.drops {
            let _ = self.executor.offer(&packet);
        }
        true
    }

    fn board_acts(&mut self, rt: &impl Abort) -> bool {
        let action = self.executor.next();
        match action {
            Action::Nothing => return self.takes(),
            Action::Write(Place::First, kept) => self.first = Some(kept),
            Action::Write(Place::Second, kept) => self.second = Some(kept),
            Action::Execute(number) => {
                equal(rt, &(number > self.last), &true);
                self.last = number;
                self.executions = self.executions.wrapping_add(1);
            }
            Action::Restart => {
                self.restart(rt);
                return true;
            }
        }
        self.executor.done(action);
        true
    }

    fn board_reports(&mut self, rt: &impl Abort) {
        let status = encode_status(&self.executor.status(), self.node.ready());
        let packet = Packet {
            kind: PacketKind::Telemetry,
            secondary: false,
            apid: 2,
            flags: 3,
            count: 0,
            payload: &status,
        };
        let mut octets = [0; 33];
        let _ = space_packet::encode(&packet, &mut octets).expect(rt, "room");
        self.node.telemetry(&octets).expect(rt, "memory");
        let mut frame = [0; 2048];
        let count = self.node.report(&mut frame);
        if !self.is_lost() && count <= 2048 {
            let _ = self.commander.hears(&frame[..count]).expect(rt, "memory");
        }
    }

    fn pass(&mut self, rt: &impl Abort, ticks: u32) {
        for _tick in 0..ticks {
            for _action in 0..100 {
                let _ = self.ground_acts(rt);
            }
            for _action in 0..100 {
                let _ = self.board_acts(rt);
            }
            self.board_reports(rt);
            self.commander.tick();
        }
    }
}

#[test]
fn commands_are_executed_over_a_lossy_link(rt: HostRuntime) {
    let mut world = new_world(&rt, rt.alloc(), &MISSION, 5);
    world.give(&rt, 100);
    world.pass(&rt, 300);
    has_executed(&rt, &world, 100, 100, 0);
    equal(&rt, &world.restarts, &1);
}

// A board whose record says that so many commands were executed, and what of them was told.
fn has_executed(rt: &impl Abort, world: &World, executions: u32, told: u32, unknown: u32) {
    equal(rt, &world.executions, &executions);
    equal(rt, &world.told, &told);
    equal(rt, &world.unknown, &unknown);
}

#[test]
fn commands_are_executed_over_restarts(rt: HostRuntime) {
    let mut world = new_world(&rt, rt.alloc(), &MISSION, 0);
    world.give(&rt, 20);
    world.pass(&rt, 6);
    world.restart(&rt);
    world.give(&rt, 20);
    world.pass(&rt, 60);
    has_executed(&rt, &world, 40, 40, 0);
    world.commander.restart_board();
    world.give(&rt, 1);
    world.pass(&rt, 60);
    has_executed(&rt, &world, 41, 41, 0);
    equal(&rt, &world.restarts, &3);
}

#[test]
fn a_pause_holds_commands_back(rt: HostRuntime) {
    let mission = Mission {
        holds: true,
        ..MISSION
    };
    let mut world = new_world(&rt, rt.alloc(), &mission, 0);
    world.give(&rt, 5);
    world.pass(&rt, 20);
    has_executed(&rt, &world, 0, 0, 0);
    world.commander.go_on();
    world.pass(&rt, 20);
    world.commander.pause();
    world.give(&rt, 5);
    world.pass(&rt, 20);
    has_executed(&rt, &world, 5, 5, 0);
    world.commander.go_on();
    world.pass(&rt, 20);
    has_executed(&rt, &world, 10, 10, 0);
}

#[test]
fn a_session_begins_after_an_alert(rt: HostRuntime) {
    let mut world = new_world(&rt, rt.alloc(), &MISSION, 0);
    world.give(&rt, 5);
    world.pass(&rt, 10);
    world.loss = 1;
    world.give(&rt, 5);
    world.pass(&rt, 100);
    has_executed(&rt, &world, 5, 5, 0);
    equal(&rt, &world.alerts, &1);
    world.loss = 0;
    world.pass(&rt, 20);
    has_executed(&rt, &world, 10, 10, 0);
}

#[test]
fn commands_that_the_board_has_dropped_go_up_again(rt: HostRuntime) {
    let mut world = new_world(&rt, rt.alloc(), &MISSION, 0);
    world.give(&rt, 5);
    equal(&rt, &world.commander.fate(1), &Some(Fate::Waits));
    world.drops = true;
    world.pass(&rt, 8);
    has_executed(&rt, &world, 0, 0, 0);
    equal(&rt, &world.commander.fate(5), &Some(Fate::OnBoard));
    world.drops = false;
    world.pass(&rt, 30);
    has_executed(&rt, &world, 5, 5, 0);
    equal(&rt, &world.commander.fate(5), &None);
}

#[test]
fn a_record_that_is_lost_is_brought_back(rt: HostRuntime) {
    let mut world = new_world(&rt, rt.alloc(), &MISSION, 0);
    world.give(&rt, 5);
    world.pass(&rt, 20);
    world.first = None;
    world.second = None;
    world.restart(&rt);
    world.give(&rt, 2);
    world.pass(&rt, 20);
    has_executed(&rt, &world, 5, 5, 0);
    equal(&rt, &world.losses, &1);
    equal(&rt, &world.commander.rebuild(), &Ok(()));
    world.give(&rt, 3);
    world.pass(&rt, 40);
    has_executed(&rt, &world, 8, 8, 2);
}

#[test]
fn refusals_are_named(rt: HostRuntime) {
    let mut commander = opened(&rt, rt.alloc(), &MISSION);
    let refused = Err(LedgerFault::FieldRange);
    equal(&rt, &commander.command(1, 64, 5, 0, &[]), &refused);
    equal(&rt, &commander.command(1, 3, 2047, 0, &[]), &refused);
    equal(&rt, &commander.command(1, 3, 5, 16384, &[]), &refused);
    equal(&rt, &commander.rebuild(), &Err(LedgerFault::NotLost));
    equal(&rt, &commander.status(&[0; 26]), &Err(LedgerFault::Layout));
    equal(&rt, &commander.status(&[0; 27]), &Err(LedgerFault::Check));
    let mission = Mission {
        orders: 2047,
        ..MISSION
    };
    let opened = Commander::open(rt.alloc(), &config(), &mission, &[]);
    equal(&rt, &opened.is_err(), &true);
}
