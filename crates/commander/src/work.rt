// What the commander sends.

ghost use Rattle.std.specs.Prelude.{◌≡◌, IfOk, OnOk, OnErr, IsOkUnless, is_ok};
ghost use Rattle.nodes.specs.Ground.{ground_step, Submit};
ghost use Rattle.commander.specs.Next.{number_after, has_first, refusal_of, alert_told};

use crate::commander::Commander;
use crate::mission::wait;
use crate::next::Next;
use crate::session::silent;
use command_ledger::{Ledger, LedgerFault, Next as Owed};
use command_log::{Order, encode_order};
use cop1::Directive;
use nodes::{Ground, LinkFault};

fn number_after(below: u32, last: u32) -> Option<u32>
    ensures { result ≡ number_after below last }
{
    if last.saturating_sub(below) >= 64 || last == u32::MAX {
        return None;
    }
    Some(last + 1)
}

// Returns whether the first command without a fate may be sent.
fn has_first(ledger: &Ledger) -> bool
    ensures { result ≡ has_first ledger.now }
{
    let below = ledger.below();
    match number_after(below, below) {
        Some(number) => ledger.packet(number).is_some(),
        None => false,
    }
}

// Returns whether the ground takes the packet.
fn takes(ground_node: &mut Ground, map: u8, packet: &[u8]) -> Result<bool, LedgerFault>
    ensures answer { IfOk result (λ b. b ≡ is_ok (ground_step ground_node.old (Submit map packet.now)).answer) }
    ensures after { OnOk result (ground_node.new ≡ (ground_step ground_node.old (Submit map packet.now)).after) }
    ensures err { OnErr result (ground_node.new ≡ ground_node.old) }
    ensures fault { IsOkUnless result LedgerFault.Memory }
{
    match ground_node.submit(map, packet) {
        Ok(()) => Ok(true),
        Err(fault) => refusal_of(fault),
    }
}

// Returns out of memory as the commander's own fault; after any other refusal the ground is as it was.
fn refusal_of(fault: LinkFault) -> Result<bool, LedgerFault>
    ensures { result ≡ refusal_of fault }
{
    match fault {
        LinkFault::Memory => Err(LedgerFault::Memory),
        _ => Ok(false),
    }
}

impl Commander {
    ghost use Rattle.std.specs.Prelude.{◌≡◌, ◌<◌, IfOk, OnOk, OnErr, IsOkUnless};
    ghost use Rattle.nodes.specs.Frames.{written_over};
    ghost use Rattle.commander.specs.Next.{owed, order_due, restart_due, ordered, opening, begun, next_number, submitted, worked, pulled, frame_of, sending, next_answer, next_frame, after_next, unstored};
    ghost use Rattle.nodes.specs.Frames.{size_of};

    /// Returns the octets that must be appended to the store; there are none unless `next` returns `Store`.
    pub fn unstored(&self) -> &[u8]
        ensures { result.now ≡ unstored self.now }
    {
        match self.ledger.next() {
            Owed::Store(octets) => octets,
            _ => &[],
        }
    }

    /// Returns the program's next action. What must be stored, reported or taken comes before any frame.
    /// Writes a frame at the beginning of `out`, and leaves the octets after it as they were.
    /// Faults: 9 Memory. Memory: yes. Cost: n.
    pub fn next(&mut self, out: &mut [u8; 1024]) -> Result<Next, LedgerFault>
        ensures answer { IfOk result (λ n. n ≡ next_answer self.old (owed self.old)) }
        ensures after { OnOk result (self.new ≡ after_next self.old (owed self.old)) }
        ensures frame { OnOk result (out.new ≡ written_over out.old (next_frame self.old (owed self.old))) }
        ensures err { OnErr result (self.new ≡ self.old) }
        ensures same { OnErr result (out.new ≡ out.old) }
        ensures fault { IsOkUnless result LedgerFault.Memory }
    {
        if let Some(owed) = self.owed() {
            self.tell_alert(owed);
            return Ok(owed);
        }
        self.work()?;
        Ok(self.send(out))
    }

    fn owed(&self) -> Option<Next>
        ensures { result ≡ owed self.now }
    {
        match self.ledger.next() {
            Owed::Store(_) => return Some(Next::Store),
            Owed::Tell(tell) => return Some(Next::Tell(tell)),
            Owed::Nothing => {}
        }
        if let Some(alert) = self.session.alert {
            return Some(Next::Alert(alert));
        }
        match self.ground_node.peek_telemetry() {
            Some(_) => Some(Next::Telemetry),
            None => None,
        }
    }

    fn tell_alert(&mut self, owed: Next)
        ensures { self.new ≡ record self.old { session = alert_told owed self.old.session } }
    {
        if let Next::Alert(_) = owed {
            self.session.alert = None;
        }
    }

    // Passes an order to the ground, or begins a session, or submits a command.
    fn work(&mut self) -> Result<(), LedgerFault>
        ensures ok { OnOk result (self.new ≡ worked self.old) }
        ensures err { OnErr result (self.new ≡ self.old) }
        ensures fault { IsOkUnless result LedgerFault.Memory }
    {
        if let Some(order) = self.order_due() {
            return self.order(&order);
        }
        if let Some(value) = self.opening() {
            self.begin(value);
            return Ok(());
        }
        self.submit()
    }

    fn order_due(&self) -> Option<Order>
        ensures { result ≡ order_due self.now }
    {
        if self.session.held > 0 || self.mission.orders >= 2048 {
            return None;
        }
        match self.ledger.order() {
            Some(order) => Some(order),
            None => self.restart_due(),
        }
    }

    fn restart_due(&self) -> Option<Order>
        ensures { result ≡ restart_due self.now }
    {
        if self.session.restarts {
            Some(self.ledger.restart_board())
        } else {
            None
        }
    }

    fn order(&mut self, order: &Order) -> Result<(), LedgerFault>
        requires { self.old.mission.orders < 2048 }
        ensures ok { OnOk result (self.new ≡ ordered self.old order.now) }
        ensures err { OnErr result (self.new ≡ self.old) }
        ensures fault { IsOkUnless result LedgerFault.Memory }
    {
        let mut octets = [0; 23];
        let _written = encode_order(self.mission.orders, 0, order, &mut octets);
        match self.ground_node.bypass(self.mission.map, &octets) {
            Ok(()) => self.session.held = wait(&self.mission),
            Err(LinkFault::Memory) => return Err(LedgerFault::Memory),
            Err(_) => {}
        }
        Ok(())
    }

    fn opening(&self) -> Option<u8>
        ensures { result ≡ opening self.now }
    {
        if !self.is_closed() || self.session.paused || !has_first(&self.ledger) {
            return None;
        }
        self.session.value
    }

    fn begin(&mut self, value: u8)
        ensures { self.new ≡ begun self.old value }
    {
        let _ = self.ground_node.directive(Directive::SetVs(value));
        let _ = self.ground_node.directive(Directive::InitUnlock);
        self.session.sent = self.ledger.below();
        self.session.value = None;
    }

    fn next_number(&self) -> Option<u32>
        ensures { result ≡ next_number self.now }
    {
        if self.is_closed() || self.session.paused {
            return None;
        }
        let below = self.ledger.below();
        number_after(below, self.session.sent.max(below))
    }

    // Passes the next command to the ground, if there is one and the ground has room for it.
    fn submit(&mut self) -> Result<(), LedgerFault>
        ensures ok { OnOk result (self.new ≡ submitted self.old) }
        ensures err { OnErr result (self.new ≡ self.old) }
        ensures fault { IsOkUnless result LedgerFault.Memory }
    {
        let Some(number) = self.next_number() else {
            return Ok(());
        };
        let Some((map, packet)) = self.ledger.packet(number) else {
            return Ok(());
        };
        if takes(&mut self.ground_node, map, packet)? {
            self.session.sent = number;
        }
        Ok(())
    }

    // Writes the next frame, if there is one. A silence begins after it.
    fn send(&mut self, out: &mut [u8; 1024]) -> Next
        ensures answer { result ≡ sending (size_of (frame_of self.old)) }
        ensures frame { out.new ≡ written_over out.old (frame_of self.old) }
        ensures after { self.new ≡ pulled self.old }
    {
        match self.ground_node.pull(out) {
            Some(count) => {
                self.session = silent(&self.mission, &self.session);
                Next::Send(count)
            }
            None => Next::Nothing,
        }
    }
}
