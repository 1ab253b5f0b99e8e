// What arrives from the board.

ghost use Rattle.std.specs.Prelude.{◌≡◌, OnOk, OnErr, IsOkUnless};
ghost use Rattle.clcw.specs.Decoding.{clcw_at};
ghost use Rattle.tm_link.specs.Decoding.{frame_at};
ghost use Rattle.space_packet.specs.Decoding.{packet_at};
ghost use Rattle.command_log.specs.Status.{status_octets};
ghost use Rattle.command_log.specs.declared.status.Status.TheVariants as statuses;
ghost use Rattle.command_ledger.specs.Ledger.{status_fault, appended_if, news};
ghost use Rattle.commander.specs.Commander.{alert_of, value_used, value_heard, lacks, status_in};

use crate::commander::Commander;
use crate::session::ticked;
use command_ledger::{Ledger, LedgerFault};
use command_log::{LogFault, Record, Status, decode_status};
use cop1::Alert;
use nodes::{Heard, HeardClcw, HeardReport};

fn alert_of(heard: &Heard) -> Option<Alert>
    ensures { result ≡ alert_of heard.now }
{
    match heard {
        Heard::Frame { alert, .. } => *alert,
        _ => None,
    }
}

// Returns the value of the CLCW, if the sender used it.
fn value_used(report: HeardReport, octets: [u8; 4]) -> Option<u8>
    ensures { result ≡ value_used report (clcw_at octets) }
{
    if report != HeardReport::Used {
        return None;
    }
    match clcw::decode(octets) {
        Ok(word) => Some(word.value),
        Err(_) => None,
    }
}

fn value_heard(heard: &Heard, octets: &[u8], length: usize) -> Option<u8>
    ensures { result ≡ value_heard heard.now (frame_at length octets.now) }
{
    let Heard::Frame { report, .. } = heard else {
        return None;
    };
    match tm_link::decode(octets, length) {
        Ok(frame) => value_used(*report, frame.ocf),
        Err(_) => None,
    }
}

fn lacks(status: &Status, sent: u32, waiting: u8) -> bool
    ensures { result ≡ lacks status.now sent waiting }
{
    match status {
        Status::Says(kept) => !kept.begun && waiting == 0 && kept.last < sent,
        _ => false,
    }
}

// Returns the octets of the status that the packet contains, if any.
fn status_in(apid: u16, packet: &[u8]) -> Option<[u8; 27]>
    ensures { result ≡ status_in apid (packet_at packet.now) }
{
    let Ok((packet, _)) = space_packet::decode(packet) else {
        return None;
    };
    if packet.apid != apid || packet.payload.len() != 27 {
        return None;
    }
    let mut octets = [0; 27];
    octets.copy_from_slice(packet.payload);
    Some(octets)
}

fn status_fault(fault: LogFault) -> LedgerFault
    ensures { result ≡ status_fault fault }
{
    match fault {
        LogFault::Layout => LedgerFault::Layout,
        _ => LedgerFault::Check,
    }
}

// Passes the octets of this status to the ledger.
fn hear(ledger: &mut Ledger, status: Status, waiting: u8, octets: &[u8]) -> Result<(), LedgerFault>
    requires { octets.now ≡ status_octets status waiting }
    ensures ok { OnOk result (ledger.new ≡ appended_if ledger.old (news ledger.old status)) }
    ensures err { OnErr result (ledger.new ≡ ledger.old) }
    ensures fault { IsOkUnless result LedgerFault.Memory }
{
    match status {
        Status::Says(kept) => hear_record(ledger, kept, waiting, octets),
        Status::Lost(mark) => hear_loss(ledger, mark, waiting, octets),
        Status::Changes | Status::Starts => ledger.hears(octets),
    }
}

fn hear_record(
    ledger: &mut Ledger,
    kept: Record,
    waiting: u8,
    octets: &[u8],
) -> Result<(), LedgerFault>
    requires { octets.now ≡ status_octets (statuses.Says kept) waiting }
    ensures ok { OnOk result (ledger.new ≡ appended_if ledger.old (news ledger.old (statuses.Says kept))) }
    ensures err { OnErr result (ledger.new ≡ ledger.old) }
    ensures fault { IsOkUnless result LedgerFault.Memory }
{
    let Record {
        boot,
        last,
        known,
        history,
        ..
    } = kept;
    ledger.hears(octets)
}

fn hear_loss(ledger: &mut Ledger, mark: u32, waiting: u8, octets: &[u8]) -> Result<(), LedgerFault>
    requires { octets.now ≡ status_octets (statuses.Lost mark) waiting }
    ensures ok { OnOk result (ledger.new ≡ appended_if ledger.old (news ledger.old (statuses.Lost mark))) }
    ensures err { OnErr result (ledger.new ≡ ledger.old) }
    ensures fault { IsOkUnless result LedgerFault.Memory }
{
    ledger.hears(octets)
}

impl Commander {
    ghost use Rattle.std.specs.Prelude.{◌≡◌, IfOk, IfErr, OnOk, OnErr, IsOk, IsOkUnless, Err, option_map};
    ghost use Rattle.command_log.specs.Status.{status_spelled};
    ghost use Rattle.command_ledger.specs.Ledger.{status_fault};
    ghost use Rattle.nodes.specs.Ground.{ground_step, Telemetry, ControlWord, Tick, TakeTelemetry};
    ghost use Rattle.commander.specs.Commander.{after_tick, seen, after_hearing, after_word, is_short, status_taken, first_status, first_heard, packet_taken};

    /// Counts a tick of the clock.
    /// Cost: the number of segments released.
    pub fn tick(&mut self)
        ensures { self.new ≡ after_tick self.old (ground_step self.old.ground_node Tick) }
    {
        let alert = self.ground_node.tick();
        self.session = ticked(&self.session);
        self.note(alert);
    }

    /// Takes octets that came from the board: exactly one telemetry frame. `take_telemetry` then takes its
    /// packets, and a status among them.
    /// Faults: 9 Memory. Memory: only where a packet is finished. Cost: n.
    pub fn hears(&mut self, frame: &[u8]) -> Result<Heard, LedgerFault>
        ensures answer { IfOk result (λ h. h ≡ (ground_step self.old.ground_node (Telemetry frame.now)).answer) }
        ensures after { OnOk result (self.new
            ≡ after_hearing self.old frame.now (ground_step self.old.ground_node (Telemetry frame.now))) }
        ensures err { OnErr result (self.new ≡ self.old) }
        ensures fault { IsOkUnless result LedgerFault.Memory }
    {
        let length = self.ground_node.frame_length();
        let Ok(heard) = self.ground_node.telemetry(frame) else {
            return Err(LedgerFault::Memory);
        };
        self.note(alert_of(&heard));
        self.see(value_heard(&heard, frame, length));
        Ok(heard)
    }

    /// Takes a CLCW that came without a telemetry frame, as `Ground::clcw` does.
    /// Cost: the number of segments released.
    pub fn clcw(&mut self, octets: [u8; 4]) -> HeardClcw
        ensures answer { result ≡ (ground_step self.old.ground_node (ControlWord octets)).answer }
        ensures after { self.new ≡ after_word self.old octets (ground_step self.old.ground_node (ControlWord octets)) }
    {
        let heard = self.ground_node.clcw(octets);
        self.note(heard.alert);
        self.see(value_used(heard.report, octets));
        heard
    }

    // Keeps the value of a CLCW, if it was made in a silence without a session.
    fn see(&mut self, value: Option<u8>)
        ensures { self.new ≡ seen self.old value }
    {
        let Some(value) = value else {
            return;
        };
        if self.is_closed() && self.session.busy == 0 {
            self.session.value = Some(value);
        }
    }

    fn is_short(&self, status: &Status, waiting: u8) -> bool
        ensures { result ≡ is_short self.now status.now waiting }
    {
        !self.is_closed()
            && self.session.busy == 0
            && self.ground_node.outstanding() == 0
            && lacks(status, self.session.sent, waiting)
    }

    /// Takes the octets of a status that came without a packet. The session ends if the ground has everything
    /// acknowledged, but the board, in a silence, has not executed everything. Refuses by 1 `Layout` if there
    /// are not 27 octets, and then by 2 `Check` if they do not spell a status.
    /// Faults: 1 Layout, then 2 Check, 9 Memory. Memory: yes. Cost: n.
    pub fn status(&mut self, octets: &[u8]) -> Result<(), LedgerFault>
        ensures refused { IfErr (status_spelled octets.now) (λ f. result ≡ Err (status_fault f)) }
        ensures memory { IsOk (status_spelled octets.now) → IsOkUnless result LedgerFault.Memory }
        ensures ok { OnOk result (self.new ≡ status_taken self.old (status_spelled octets.now)) }
        ensures err { OnErr result (self.new ≡ self.old) }
    {
        let (status, waiting) = match decode_status(octets) {
            Ok(read) => read,
            Err(fault) => return Err(status_fault(fault)),
        };
        let short = self.is_short(&status, waiting);
        hear(&mut self.ledger, status, waiting, octets)?;
        if short {
            self.end();
        }
        Ok(())
    }

    fn first_status(&self) -> Option<[u8; 27]>
        ensures { result ≡ first_status self.now.mission.status
            (ground_step self.now.ground_node TakeTelemetry).answer }
    {
        match self.ground_node.peek_telemetry() {
            Some(packet) => status_in(self.mission.status, packet),
            None => None,
        }
    }

    /// Takes the oldest packet that telemetry frames carried. If it is a status of the board, also passes it
    /// to the ledger.
    /// Faults: 9 Memory. Memory: only for a status. Cost: n.
    pub fn take_telemetry(&mut self) -> Result<Option<Vec<u8>>, LedgerFault>
        ensures answer { IfOk result (λ p. option_map (λ v. v.items) p
            ≡ (ground_step (first_heard self.old).ground_node TakeTelemetry).answer) }
        ensures after { OnOk result (self.new ≡ packet_taken (first_heard self.old)) }
        ensures err { OnErr result (self.new ≡ self.old) }
        ensures fault { IsOkUnless result LedgerFault.Memory }
    {
        self.hear_first()?;
        Ok(self.ground_node.take_telemetry())
    }

    // Passes the status in the packet that is taken next to the ledger. A refused status changes nothing.
    fn hear_first(&mut self) -> Result<(), LedgerFault>
        ensures ok { OnOk result (self.new ≡ first_heard self.old) }
        ensures err { OnErr result (self.new ≡ self.old) }
        ensures fault { IsOkUnless result LedgerFault.Memory }
    {
        let Some(octets) = self.first_status() else {
            return Ok(());
        };
        match self.status(&octets) {
            Err(LedgerFault::Memory) => Err(LedgerFault::Memory),
            _ => Ok(()),
        }
    }
}
