// A ground with the ledger of its commands.

ghost use Rattle.std.specs.Prelude.{◌≡◌};
ghost use Rattle.nodes.specs.Parameters.{limits_of};
ghost use Rattle.commander.specs.Opened.{new_session, mission_fault, longest};

use crate::mission::{Mission, wait};
use crate::session::{Session, silent};
use command_ledger::{Ledger, LedgerFault};
use cop1::{Alert, Directive, FopMode};
use map_service::Limits;
use nodes::{Ground, ValidConfig};
use std::alloc::Global;

/// The ground's half of commands that are executed on board once and in order: the ledger of the commands,
/// and the ground that sends them. Only the ledger and the board's executor decide what the board executes;
/// COP-1 makes it fast.
#[derive(Drop)]
pub struct Commander {
    pub(crate) ground_node: Ground,
    pub(crate) ledger: Ledger,
    pub(crate) mission: Mission,
    pub(crate) limits: Limits,
    pub(crate) session: Session,
}

fn limits_of(valid: &ValidConfig) -> Limits
    ensures { result ≡ limits_of valid.now }
{
    let config = valid.config();
    Limits {
        part: config.part,
        max_packet: config.max_packet,
        maps: config.maps,
        blocking: config.blocking == 1,
    }
}

// Returns the state without a session, before the first silence.
fn new_session(mission: &Mission) -> Session
    ensures { result ≡ new_session mission.now }
{
    Session {
        sent: 0,
        busy: wait(mission),
        value: None,
        paused: false,
        alert: None,
        restarts: false,
        held: 0,
    }
}

fn mission_fault(valid: &ValidConfig, mission: &Mission) -> Option<LedgerFault>
    ensures { result ≡ mission_fault valid.now mission.now }
{
    if !limits_of(valid).is_open(mission.map) || mission.orders >= 2047 {
        return Some(LedgerFault::FieldRange);
    }
    if valid.config().part < 23 || valid.config().max_packet < 23 {
        return Some(LedgerFault::TooLong);
    }
    None
}

// Returns the maximum length of a packet whose segments all fit in the queue.
fn longest(valid: &ValidConfig) -> usize
    ensures { result ≡ longest valid.now }
{
    let config = valid.config();
    let most = config.part as usize * config.queue_slots as usize;
    most.min(config.max_packet as usize)
}

impl Commander {
    ghost use Rattle.std.specs.Prelude.{◌≡◌, ◌+◌, true, false, length, Err, None, IfOk, IfErr, IfSome, OnOk, OnErr, IsOk, IsOkUnless};
    ghost use Rattle.command_ledger.specs.State.{highest, new_state};
    ghost use Rattle.command_ledger.specs.Store.{reading, read_on};
    ghost use Rattle.command_ledger.specs.Ledger.{given, rebuild_of, appended_if};
    ghost use Rattle.nodes.specs.Ground.{is_closed};
    ghost use Rattle.commander.specs.Commander.{noted, ended, command_fault};
    ghost use Rattle.commander.specs.Opened.{opened, mission_fault, longest, paused, restarting};

    /// Opens a commander from the octets of its store, with a ground in S6; a new store has none. Also
    /// returns how many of the octets are good: the program truncates the store to this length before it
    /// appends. Refuses by the first that applies: 3 FieldRange (the MAP of orders is not open, or their APID
    /// is above 2,046), 4 TooLong (no segment has room for an order), 9 Memory.
    /// Faults: 3 FieldRange, 4 TooLong, 9 Memory. Memory: yes. Cost: n.
    pub fn open(
        alloc: Global,
        valid: &ValidConfig,
        mission: &Mission,
        octets: &[u8],
    ) -> Result<(Commander, usize), LedgerFault>
        ensures refused { IfSome (mission_fault valid.now mission.now) (λ f. result ≡ Err f) }
        ensures memory { mission_fault valid.now mission.now ≡ None → IsOkUnless result LedgerFault.Memory }
        ensures opened { let all = read_on (length octets.now) (reading new_state 0) octets.now in
            IfOk result (λ r. (r.0 ≡ opened valid.now mission.now all) × (r.1 ≡ all.good)) }
    {
        if let Some(fault) = mission_fault(valid, mission) {
            return Err(fault);
        }
        let (ledger, good) = Ledger::open(alloc, octets, longest(valid))?;
        let Ok(ground_node) = Ground::of(alloc, valid) else {
            return Err(LedgerFault::Memory);
        };
        let commander = Commander {
            ground_node,
            ledger,
            mission: *mission,
            limits: limits_of(valid),
            session: new_session(mission),
        };
        Ok((commander, good))
    }

    /// Lends the ledger, for the fates of commands and for a fresh store.
    pub fn ledger(&self) -> &Ledger
        ensures { result.now ≡ self.now.ledger }
    {
        &self.ledger
    }

    /// Lends the ground, for the state of its sender and the progress of its submissions.
    pub fn ground_node(&self) -> &Ground
        ensures { result.now ≡ self.now.ground_node }
    {
        &self.ground_node
    }

    /// Adds a command after all others, and returns its number. `tag` is the caller's own; `apid` and `count`
    /// are the packet's APID and sequence count. Refuses by the first that applies: 3 FieldRange (a MAP that
    /// is not open, an APID above 2,046, a count above 16,383, more than 65,528 octets), 4 TooLong, 5
    /// NoNumber, 9 Memory.
    /// Faults: 3 FieldRange, 4 TooLong, 5 NoNumber, 9 Memory. Memory: yes. Cost: n.
    pub fn command(
        &mut self,
        tag: u64,
        map: u8,
        apid: u16,
        count: u16,
        content: &[u8],
    ) -> Result<u32, LedgerFault>
        ensures refused { IfSome (command_fault self.old map apid count (length content.now)) (λ f. result ≡ Err f) }
        ensures memory { command_fault self.old map apid count (length content.now) ≡ None
            → IsOkUnless result LedgerFault.Memory }
        ensures number { IfOk result (λ n. n ≡ highest self.old.ledger.state + 1) }
        ensures ok { OnOk result (self.new
            ≡ record self.old { ledger = given self.old.ledger tag map apid count content.now }) }
        ensures err { OnErr result (self.new ≡ self.old) }
    {
        if !self.limits.is_open(map) || apid == 2047 {
            return Err(LedgerFault::FieldRange);
        }
        self.ledger.command(tag, map, apid, count, content)
    }

    /// Makes the order that brings a record to a board that has lost its own; an operator decides this. Once
    /// a status shows that the board obeyed it, each command that was stored by now and has no fate is
    /// unknown, whether or not it was sent.
    /// Faults: 6 NotLost, then 7 NoBoot, 9 Memory. Memory: yes.
    pub fn rebuild(&mut self) -> Result<(), LedgerFault>
        ensures refused { IfErr (rebuild_of self.old.ledger) (λ f. result ≡ Err f) }
        ensures memory { IsOk (rebuild_of self.old.ledger) → IsOkUnless result LedgerFault.Memory }
        ensures ok { OnOk result (IfOk (rebuild_of self.old.ledger)
            (λ e. self.new ≡ record self.old { ledger = appended_if self.old.ledger e })) }
        ensures err { OnErr result (self.new ≡ self.old) }
    {
        self.ledger.rebuild()
    }

    /// Has the order to restart sent, until the board has another boot count.
    pub fn restart_board(&mut self)
        ensures { self.new ≡ restarting self.old }
    {
        self.session.restarts = true;
    }

    /// Stops the submission of commands to the ground until `go_on`. The ground still sends the commands that
    /// were submitted.
    pub fn pause(&mut self)
        ensures { self.new ≡ paused self.old true }
    {
        self.session.paused = true;
    }

    /// Resumes the submission of commands.
    pub fn go_on(&mut self)
        ensures { self.new ≡ paused self.old false }
    {
        self.session.paused = false;
    }

    pub(crate) fn is_closed(&self) -> bool
        ensures { result ≡ is_closed self.now.ground_node.fop.state }
    {
        self.ground_node.state() == FopMode::S6
    }

    // Notes the alert, if there is one, and ends the session.
    pub(crate) fn note(&mut self, alert: Option<Alert>)
        ensures { self.new ≡ noted self.old alert }
    {
        if let Some(alert) = alert {
            self.session = silent(&self.mission, &self.session);
            self.session.alert = Some(alert);
        }
    }

    // Ends the session.
    pub(crate) fn end(&mut self)
        ensures { self.new ≡ ended self.old }
    {
        let _ = self.ground_node.directive(Directive::Terminate);
        self.session = silent(&self.mission, &self.session);
    }
}
