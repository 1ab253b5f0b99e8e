// The ledger and its store.

ghost use Rattle.std.specs.Prelude.{◌≡◌, ◌≤◌, true, IfOk, IsOkUnless, vec_len};
ghost use Rattle.command_log.specs.Packets.{command_view, command_fits, command_octets};
ghost use Rattle.command_ledger.specs.State.{Gives};
ghost use Rattle.command_ledger.specs.Entries.{spelling};
ghost use Rattle.command_ledger.specs.Ledger.{status_fault, fresh_octets};

use crate::entry::{Written, spelling};
use crate::fault::LedgerFault;
use crate::given::Given;
use crate::known::{Rebuild, has_told, is_news, reach};
use crate::state::{State, Tell};
use crate::store::read;
use command_log::{Command, LogFault, Order, Record, Status, decode_status, encode_command};
use std::alloc::{AllocError, Global};
use std::marker::Model;

/// The program's next action. The program completes it, and then calls `stored` or `told`.
#[derive(Clone, Copy, Debug, PartialEq, Eq)]
pub enum Next<'a> {
    /// Nothing.
    Nothing,
    /// Append these octets to the store.
    Store(&'a [u8]),
    /// Report this to the user who gave the commands.
    Tell(Tell),
}

/// The commands without a fate, in the order of their numbers, and the ground's knowledge of the board. A
/// store keeps all of this: octets to which the program only appends.
#[derive(Drop)]
pub struct Ledger {
    alloc: Global,
    max_packet: usize,
    state: State,
    unstored: Vec<u8>,
    due: bool,
    safe: u32,
    stored: u64,
}

impl Model for Ledger {
    ghost use Rattle.command_ledger.specs.Ledger.{LedgerState};
    ghost use Rattle.command_ledger.specs.LedgerFields.{ledger_of};

    ghost Value = { LedgerState };

    ghost view = { ledger_of };
}

impl Ledger {
    ghost use Rattle.std.specs.Prelude.{◌≡◌, ℕ, ◌+◌, ◌<◌, ◌^◌, ◌==◌, length, true, false, None, Err, option_map};
    ghost use Rattle.std.specs.Prelude.{IfOk, IfErr, IfSome, OnOk, OnErr, IsOk, IsOkUnless, if◌then◌else◌};
    ghost use Rattle.octets.specs.Outcome.{map_ok};
    ghost use Rattle.command_log.specs.declared.status.Status.{Status};
    ghost use Rattle.command_log.specs.Status.{status_octets, IsStatusInRange};
    ghost use Rattle.command_log.specs.declared.status.Status.TheVariants as statuses;
    ghost use Rattle.command_log.specs.declared.packets.Order.TheVariants as orders;
    ghost use Rattle.command_ledger.specs.State.{new_state, highest, follows, Rebuilds, Tells};
    ghost use Rattle.command_ledger.specs.Waiting.{goes_up, sent_as};
    ghost use Rattle.command_ledger.specs.Entries.{entry_view, IsShort};
    ghost use Rattle.command_ledger.specs.Store.{reading, read_on};
    ghost use Rattle.command_ledger.specs.Ledger.{opened, appended, appended_if, give_fault, given, packet_of, news, order_of, rebuild_of};
    ghost use Rattle.command_ledger.specs.Ledger.{next_view, next_of, all_stored, is_worth, is_at_rest, fresh_octets, Says};

    /// Opens a ledger from the octets of its store; a new store has none. Also returns how many of the octets
    /// are good. An entry that was cut off may follow them: the program truncates the store to this length
    /// before it appends. `max_packet` is the maximum length of a packet.
    /// Faults: 9 Memory. Memory: yes. Cost: n.
    pub fn open(
        alloc: Global,
        octets: &[u8],
        max_packet: usize,
    ) -> Result<(Ledger, usize), LedgerFault>
        ensures ledger { let all = read_on (length octets.now) (reading new_state 0) octets.now in
            IfOk result (λ r. (r.0 ≡ opened max_packet all) × (r.1 ≡ all.good)) }
        ensures fault { IsOkUnless result LedgerFault.Memory }
    {
        let Ok((state, good)) = read(alloc, octets) else {
            return Err(LedgerFault::Memory);
        };
        let ledger = Ledger {
            alloc,
            max_packet,
            safe: state.highest(),
            state,
            unstored: Vec::new(alloc),
            due: false,
            stored: good as u64,
        };
        Ok((ledger, good))
    }

    fn append(&mut self, entry: &Written) -> Result<(), LedgerFault>
        requires follows { follows self.old.state (entry_view entry.now) ≡ true }
        requires short { IsShort (entry_view entry.now) }
        ensures ok { OnOk result (self.new ≡ appended self.old (entry_view entry.now)) }
        ensures err { OnErr result (self.new ≡ self.old) }
        ensures fault { IsOkUnless result LedgerFault.Memory }
    {
        let Ok(octets) = spelling(self.alloc, entry) else {
            return Err(LedgerFault::Memory);
        };
        if self.unstored.reserve(octets.len()).is_err() {
            return Err(LedgerFault::Memory);
        }
        if self.state.apply(self.alloc, entry).is_err() {
            return Err(LedgerFault::Memory);
        }
        let _there_is_room = self.unstored.extend_from_slice(&octets);
        self.due = self.due || !matches!(entry, Written::Tells);
        Ok(())
    }

    fn give_fault(&self, map: u8, apid: u16, count: u16, len: usize) -> Option<LedgerFault>
        ensures { result ≡ give_fault self.now map apid count len }
    {
        if map >= 64 || apid >= 2048 || count >= 16384 || len > 65528 {
            return Some(LedgerFault::FieldRange);
        }
        if len + 14 > self.max_packet {
            return Some(LedgerFault::TooLong);
        }
        if self.state.highest() == u32::MAX {
            return Some(LedgerFault::NoNumber);
        }
        None
    }

    /// Adds a command after all others, and returns its number. `tag` is the caller's own; `apid` and `count`
    /// are the packet's APID and sequence count. Refuses by the first that applies: 3 FieldRange (a MAP above
    /// 63, an APID above 2,047, a count above 16,383, more than 65,528 octets), 4 TooLong, 5 NoNumber, 9
    /// Memory.
    /// Faults: 3 FieldRange, 4 TooLong, 5 NoNumber, 9 Memory. Memory: yes. Cost: n.
    pub fn command(
        &mut self,
        tag: u64,
        map: u8,
        apid: u16,
        count: u16,
        content: &[u8],
    ) -> Result<u32, LedgerFault>
        ensures refused { IfSome (give_fault self.old map apid count (length content.now)) (λ f. result ≡ Err f) }
        ensures memory { give_fault self.old map apid count (length content.now) ≡ None
            → IsOkUnless result LedgerFault.Memory }
        ensures number { IfOk result (λ n. n ≡ highest self.old.state + 1) }
        ensures ok { OnOk result (self.new ≡ given self.old tag map apid count content.now) }
        ensures err { OnErr result (self.new ≡ self.old) }
    {
        if let Some(fault) = self.give_fault(map, apid, count, content.len()) {
            return Err(fault);
        }
        let number = self.state.highest() + 1;
        let command = Command {
            apid,
            count,
            number,
            content,
        };
        let packet = packet_of(self.alloc, &command)?;
        self.append(&Written::Gives {
            tag,
            map,
            packet: &packet,
        })?;
        Ok(number)
    }

    /// Returns the MAP and the packet of the command with this number, to be sent. Returns `None` unless the
    /// command is in the store and has no fate, and while the board has no record.
    pub fn packet(&self, number: u32) -> Option<(u8, &[u8])>
        ensures { option_map goes_up result ≡ option_map sent_as (packet_of self.now number) }
    {
        let standing = self.state.standing();
        if standing.is_lost || number > self.safe || number <= standing.below {
            return None;
        }
        let command = self.state.get((number - standing.below) as usize - 1)?;
        Some((command.map(), command.packet()))
    }

    /// Returns the number up to which every command has its fate.
    pub fn below(&self) -> u32
        ensures { result ≡ self.now.state.standing.below }
    {
        self.state.standing().below
    }

    /// Returns the highest number that was given, or that a command of another ground had on board.
    pub fn highest(&self) -> u32
        ensures { result ≡ highest self.now.state }
    {
        self.state.highest()
    }

    /// Takes the octets of a status. A status that contains nothing new, or that the board made while it
    /// wrote its record, changes nothing. Refuses by 1 `Layout` if there are not 27 octets, and then by 2
    /// `Check` if they do not spell a status.
    /// Faults: 1 Layout, then 2 Check, 9 Memory. Memory: yes. Cost: n.
    pub fn hears(&mut self, octets: &[u8]) -> Result<(), LedgerFault>
        ensures taken { (status : Status) (waiting : ℕ) → IsStatusInRange status → waiting < 2 ^ 8
            → octets.now ≡ status_octets status waiting
            → IsOkUnless result LedgerFault.Memory
            × OnOk result (self.new ≡ appended_if self.old (news self.old status)) }
        ensures found { OnOk result ((status : Status) × (waiting : ℕ)
            × (octets.now ≡ status_octets status waiting)
            × (self.new ≡ appended_if self.old (news self.old status))) }
        ensures layout { (length octets.now ≡ 27 → ⊥) → result ≡ Err LedgerFault.Layout }
        ensures check { length octets.now ≡ 27
            → ((status : Status) (waiting : ℕ) → octets.now ≡ status_octets status waiting → ⊥)
            → result ≡ Err LedgerFault.Check }
        ensures err { OnErr result (self.new ≡ self.old) }
    {
        match decode_status(octets) {
            Ok((status, _)) => self.hears_status(status),
            Err(fault) => Err(status_fault(fault)),
        }
    }

    fn hears_status(&mut self, status: Status) -> Result<(), LedgerFault>
        ensures ok { OnOk result (self.new ≡ appended_if self.old (news self.old status)) }
        ensures err { OnErr result (self.new ≡ self.old) }
        ensures fault { IsOkUnless result LedgerFault.Memory }
    {
        match status {
            Status::Says(kept) => self.hears_record(kept),
            Status::Lost(mark) => self.hears_loss(mark),
            Status::Changes | Status::Starts => Ok(()),
        }
    }

    fn hears_record(&mut self, kept: Record) -> Result<(), LedgerFault>
        ensures ok { OnOk result (self.new ≡ appended_if self.old (news self.old (statuses.Says kept))) }
        ensures err { OnErr result (self.new ≡ self.old) }
        ensures fault { IsOkUnless result LedgerFault.Memory }
    {
        if !is_news(&self.state.standing(), &kept) {
            return Ok(());
        }
        self.append(&Written::Hears(kept))
    }

    fn hears_loss(&mut self, mark: u32) -> Result<(), LedgerFault>
        ensures ok { OnOk result (self.new ≡ appended_if self.old (news self.old (statuses.Lost mark))) }
        ensures err { OnErr result (self.new ≡ self.old) }
        ensures fault { IsOkUnless result LedgerFault.Memory }
    {
        if has_told(self.state.standing().mark, mark) {
            return Ok(());
        }
        self.append(&Written::Loses(mark))
    }

    /// Returns the order to restart, for the last known boot count.
    pub fn restart_board(&self) -> Order
        ensures { result ≡ orders.Restart self.now.state.standing.board.boot }
    {
        Order::Restart {
            boot: self.state.standing().board.boot,
        }
    }

    /// Makes the order that brings a record to a board that has lost its own; an operator decides this.
    /// Nothing is known then of the commands that may have been sent and have no fate. `order` returns the
    /// order once it is stored.
    /// Faults: 6 NotLost, then 7 NoBoot, 9 Memory. Memory: yes.
    pub fn rebuild(&mut self) -> Result<(), LedgerFault>
        ensures refused { IfErr (rebuild_of self.old) (λ f. result ≡ Err f) }
        ensures memory { IsOk (rebuild_of self.old) → IsOkUnless result LedgerFault.Memory }
        ensures ok { OnOk result (IfOk (rebuild_of self.old) (λ e. self.new ≡ appended_if self.old e)) }
        ensures err { OnErr result (self.new ≡ self.old) }
    {
        match self.new_order()? {
            Some(order) => self.append(&Written::Rebuilds(order)),
            None => Ok(()),
        }
    }

    fn new_order(&self) -> Result<Option<Rebuild>, LedgerFault>
        ensures { map_ok (option_map (λ o. Rebuilds o)) result ≡ rebuild_of self.now }
    {
        let standing = self.state.standing();
        let Some(mark) = standing.mark else {
            return Err(LedgerFault::NotLost);
        };
        if !standing.is_lost {
            return Err(LedgerFault::NotLost);
        }
        let before = match standing.order {
            Some(order) if order.mark == mark => return Ok(None),
            Some(order) => order.boot,
            None => standing.board.boot,
        };
        let Some(boot) = before.checked_add(65536) else {
            return Err(LedgerFault::NoBoot);
        };
        let last = self.safe.max(reach(&standing.board));
        Ok(Some(Rebuild { mark, boot, last }))
    }

    /// Returns the order that brings a record, to be sent while the board has none. Returns `None` unless
    /// `rebuild` was called for this loss, and the order is stored.
    pub fn order(&self) -> Option<Order>
        ensures { result ≡ order_of self.now }
    {
        let standing = self.state.standing();
        if !standing.is_lost || self.due {
            return None;
        }
        match (standing.order, standing.mark) {
            (Some(order), Some(mark)) if order.mark == mark => Some(Order::Rebuild {
                mark: order.mark,
                boot: order.boot,
                last: order.last,
            }),
            _ => None,
        }
    }

    /// Returns the program's next action.
    pub fn next(&self) -> Next<'_>
        ensures { next_view result ≡ next_of self.now }
    {
        if self.due {
            return Next::Store(&self.unstored);
        }
        match self.state.tell() {
            Some(tell) => Next::Tell(tell),
            None if self.unstored.is_empty() => Next::Nothing,
            None => Next::Store(&self.unstored),
        }
    }

    /// Notes that all octets of `Next::Store` are in the store; `count` is their number. Changes nothing if
    /// it is another number.
    pub fn stored(&mut self, count: usize)
        ensures { self.new ≡ (if count == length self.old.unstored then all_stored self.old else self.old) }
    {
        if count != self.unstored.len() {
            return;
        }
        self.unstored.clear();
        self.due = false;
        self.safe = self.state.highest();
        self.stored = self.stored.saturating_add(count as u64);
    }

    /// Notes that this was reported. Changes nothing if `next` does not return it.
    /// Faults: 9 Memory. Memory: yes.
    pub fn told(&mut self, tell: Tell) -> Result<(), LedgerFault>
        ensures ok { next_of self.old ≡ Says tell → OnOk result (self.new ≡ appended self.old Tells) }
        ensures other { (next_of self.old ≡ Says tell → ⊥) → self.new ≡ self.old }
        ensures err { OnErr result (self.new ≡ self.old) }
        ensures fault { IsOkUnless result LedgerFault.Memory }
    {
        let Some(first) = self.state.tell() else {
            return Ok(());
        };
        if self.due || first != tell {
            return Ok(());
        }
        self.append(&Written::Tells)
    }

    /// Returns whether a fresh store would have less than half as many octets as this one. Returns false
    /// while anything is left to be stored or reported.
    pub fn is_worth(&self) -> bool
        ensures { result ≡ is_worth self.now }
    {
        self.is_at_rest() && self.state.live() < (self.stored / 2).saturating_sub(57)
    }

    fn is_at_rest(&self) -> bool
        ensures { result ≡ is_at_rest self.now }
    {
        self.unstored.is_empty() && !self.due && self.state.tell().is_none()
    }

    /// Returns the octets of a fresh store of the same state. The program writes them to a new file, replaces
    /// the store with it, and then calls `renewed`.
    /// Faults: 8 Owing, then 9 Memory. Memory: yes. Cost: n.
    pub fn fresh(&self) -> Result<Vec<u8>, LedgerFault>
        ensures owing { is_at_rest self.now ≡ false → result ≡ Err LedgerFault.Owing }
        ensures memory { is_at_rest self.now ≡ true → IsOkUnless result LedgerFault.Memory }
        ensures octets { IfOk result (λ v. v.items ≡ fresh_octets self.now.state) }
    {
        if !self.is_at_rest() {
            return Err(LedgerFault::Owing);
        }
        match fresh_octets(self.alloc, &self.state) {
            Ok(octets) => Ok(octets),
            Err(_) => Err(LedgerFault::Memory),
        }
    }

    /// Notes that the store now has this many octets, which begin with those of `fresh`.
    pub fn renewed(&mut self, count: usize)
        ensures { self.new ≡ record self.old { stored = count } }
    {
        self.stored = count as u64;
    }
}

fn status_fault(fault: LogFault) -> LedgerFault
    ensures { result ≡ status_fault fault }
{
    match fault {
        LogFault::Layout => LedgerFault::Layout,
        _ => LedgerFault::Check,
    }
}

fn packet_of(alloc: Global, command: &Command) -> Result<Vec<u8>, LedgerFault>
    requires { command_fits (command_view command.now) ≡ true }
    ensures octets { IfOk result (λ v. v.items ≡ command_octets (command_view command.now)) }
    ensures short { IfOk result (λ v. vec_len v ≤ 65542) }
    ensures fault { IsOkUnless result LedgerFault.Memory }
{
    let Ok(mut octets) = Vec::from_elem(alloc, 0u8, command.content.len() + 14) else {
        return Err(LedgerFault::Memory);
    };
    match encode_command(command, &mut octets) {
        Ok(_) => Ok(octets),
        Err(_) => Err(LedgerFault::Memory),
    }
}

fn fresh_octets(alloc: Global, state: &State) -> Result<Vec<u8>, AllocError>
    ensures { IfOk result (λ v. v.items ≡ fresh_octets state.now) }
{
    let mut octets = spelling(alloc, &Written::Stands(state.standing()))?;
    for i in 0..state.len() {
        let more = given_octets(alloc, state.get(i).unwrap())?;
        octets.extend_from_slice(&more)?;
    }
    Ok(octets)
}

fn given_octets(alloc: Global, command: &Given) -> Result<Vec<u8>, AllocError>
    ensures { IfOk result (λ v. v.items ≡ spelling (Gives command.now.tag command.now.on_map command.now.packet)) }
{
    spelling(
        alloc,
        &Written::Gives {
            tag: command.tag(),
            map: command.map(),
            packet: command.packet(),
        },
    )
}
