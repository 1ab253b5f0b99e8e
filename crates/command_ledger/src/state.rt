// The commands without a fate, the knowledge of the board, and the reports that are due.

ghost use Rattle.std.specs.Prelude.{◌≡◌, ℕ, ◌+◌, ◌-◌, ◌<◌, ◌≤◌, ◌^◌, ◌++◌, length, take, drop, option_to_list};
ghost use Rattle.std.specs.VecDeque.{deque_len, deque_capacity};
ghost use Rattle.command_ledger.specs.State.{history_over, fate, fates, less, new_standing, restarted, foreign, mark_after, heard_standing, passed, below_after};

use crate::entry::Written;
use crate::given::Given;
use crate::known::{Rebuild, Standing, is_marked, obeyed, reach};
use command_log::{Record, decode_command, history_after};
use std::alloc::{AllocError, Global};
use std::collections::VecDeque;
use std::marker::Model;

/// What the ledger reports to the user who gave the commands.
#[derive(Clone, Copy, Debug, PartialEq, Eq)]
pub enum Tell {
    /// The command with this tag was executed, whole.
    Executed(u64),
    /// Nothing is known of the command with this tag: its execution may have begun. It is not executed later.
    Unknown(u64),
    /// The board has this new boot count.
    Restarted(u32),
    /// The board has lost its record; the mark of the loss. The board executes nothing until an order brings
    /// a record.
    RecordLost(u32),
    /// The board has passed these numbers, from the first to the last, and their commands are not this
    /// ledger's.
    Foreign(u32, u32),
}

#[derive(Drop)]
pub(crate) struct State {
    standing: Standing,
    commands: VecDeque<Given>,
    tells: VecDeque<Tell>,
    live: u64,
}

impl Model for State {
    ghost use Rattle.command_ledger.specs.State.{State};
    ghost use Rattle.command_ledger.specs.Fields.{state_of, IsSound};

    ghost Value = { State };

    ghost view = { state_of };

    ghost invariant = { IsSound };
}

fn new_standing() -> Standing
    ensures { result ≡ new_standing }
{
    Standing {
        below: 0,
        board: Record::new_board(),
        doubt: 0,
        mark: None,
        is_lost: false,
        order: None,
    }
}

fn history_over(commands: &VecDeque<Given>, history: u32, first: usize, end: usize) -> u32
    requires { end ≤ length commands.now.items }
    ensures { result ≡ history_over history (drop first (take end commands.now.items)) }
{
    let mut over = history;
    for i in first..end {
        over = history_after(over, commands.get(i).unwrap().packet());
    }
    over
}

fn fate(kept: &Record, doubt: u32, number: u32, tag: u64) -> Tell
    ensures { result ≡ fate kept.now doubt number tag }
{
    if doubt < number && is_marked(kept, number) {
        Tell::Executed(tag)
    } else {
        Tell::Unknown(tag)
    }
}

// Moves the first `count` commands to the reports; the first of them has the number after `below`. Returns
// how many octets of the store give the remaining commands.
fn pass(
    commands: &mut VecDeque<Given>,
    tells: &mut VecDeque<Tell>,
    kept: &Record,
    doubt: u32,
    below: u32,
    count: usize,
    live: u64,
) -> u64
    requires room { deque_len tells.old + count ≤ deque_capacity tells.old }
    requires numbers { below + count < 2 ^ 32 }
    requires there { count ≤ length commands.old.items }
    ensures commands { commands.new.items ≡ drop count commands.old.items }
    ensures tells { tells.new.items
        ≡ tells.old.items ++ fates kept.now doubt (below + 1) (take count commands.old.items) }
    ensures live { result ≡ less live (take count commands.old.items) }
{
    let mut left = live;
    let mut number = below;
    for _passed in 0..count {
        let command = commands.pop_front().unwrap();
        number += 1;
        tells.push_back_reserved(fate(kept, doubt, number, command.tag()));
        left = left.saturating_sub(command.packet().len() as u64 + 18);
    }
    left
}

fn put(tells: &mut VecDeque<Tell>, tell: Option<Tell>)
    requires { deque_len tells.old < deque_capacity tells.old }
    ensures items { tells.new.items ≡ tells.old.items ++ option_to_list tell }
    ensures len { deque_len tells.new ≤ deque_len tells.old + 1 }
    ensures capacity { deque_capacity tells.new ≡ deque_capacity tells.old }
{
    if let Some(it) = tell {
        tells.push_back_reserved(it);
    }
}

fn restarted(board: &Record, kept: &Record) -> Option<Tell>
    ensures { result ≡ restarted board.now kept.now }
{
    if board.boot == kept.boot {
        None
    } else {
        Some(Tell::Restarted(kept.boot))
    }
}

fn foreign(agree: bool, board: &Record, kept: &Record) -> Option<Tell>
    ensures { result ≡ foreign agree board.now kept.now }
{
    if agree {
        None
    } else {
        Some(Tell::Foreign(reach(board).saturating_add(1), reach(kept)))
    }
}

// The mark that is kept after a record: none if the record ends a loss that no order has ended.
fn mark_after(known: &Standing) -> Option<u32>
    ensures { result ≡ mark_after known.now }
{
    if known.is_lost { None } else { known.mark }
}

// The knowledge after this record is accepted.
fn heard_standing(below: u32, agree: bool, known: &Standing, kept: &Record) -> Standing
    ensures { result ≡ heard_standing below agree known.now kept.now }
{
    Standing {
        below,
        board: *kept,
        doubt: if agree {
            known.doubt
        } else {
            known.doubt.max(reach(kept))
        },
        mark: mark_after(known),
        is_lost: false,
        order: known.order,
    }
}

// The number up to which every command then has its fate.
fn below_after(below: u32, many: usize, count: usize, kept: &Record) -> u32
    requires few { below + many < 2 ^ 32 }
    requires count { count ≡ passed below many kept.now }
    ensures { result ≡ below_after below many kept.now }
{
    if below + (many as u32) < reach(kept) {
        reach(kept)
    } else {
        below + count as u32
    }
}

impl State {
    ghost use Rattle.std.specs.Prelude.{◌≡◌, ◌+◌, ◌-◌, ◌<◌, ◌^◌, ◌↔◌, OnOk, OnErr, IfSome, IsSome, length, option_copied, slice_get, slice_index_or};
    ghost use Rattle.std.specs.Prelude.{true, ◌≤◌, ◌&&◌, ◌==◌, nat_le, nat_lt};
    ghost use Rattle.command_log.specs.Packets.{is_command, number_in};
    ghost use Rattle.command_ledger.specs.Entries.{entry_view};
    ghost use Rattle.command_ledger.specs.Waiting.{waiting};
    ghost use Rattle.command_ledger.specs.State.{new_state, highest, agrees, hears, gives, loses, passed, after_entry, follows, Rebuilds, Tells, Stands};

    pub(crate) fn new(alloc: Global) -> State
        ensures { result ≡ new_state }
    {
        State {
            standing: new_standing(),
            commands: VecDeque::new(alloc),
            tells: VecDeque::new(alloc),
            live: 0,
        }
    }

    pub(crate) fn standing(&self) -> Standing
        ensures { result ≡ self.now.standing }
    {
        self.standing
    }

    pub(crate) fn live(&self) -> u64
        ensures { result ≡ self.now.live }
    {
        self.live
    }

    pub(crate) fn highest(&self) -> u32
        ensures { result ≡ highest self.now }
    {
        self.standing.below + self.commands.len() as u32
    }

    // The first report that is due.
    pub(crate) fn tell(&self) -> Option<Tell>
        ensures { result ≡ slice_get self.now.tells 0 }
    {
        self.tells.front().copied()
    }

    // The number of commands without a fate.
    pub(crate) fn len(&self) -> usize
        ensures { result ≡ length self.now.commands }
    {
        self.commands.len()
    }

    // The command at this index of the list.
    pub(crate) fn get(&self, index: usize) -> Option<&Given>
        ensures value { option_copied result ≡ slice_get self.now.commands index }
        ensures variant { IsSome result ↔ (index < length self.now.commands) }
        ensures lookup { IfSome result (λ c. c.now ≡ slice_index_or self.now.commands index c.now) }
    {
        self.commands.get(index)
    }

    fn agrees(&self, board: &Record, kept: &Record) -> bool
        ensures { result ≡ agrees self.now.standing.below self.now.commands board.now kept.now }
    {
        let below = self.standing.below;
        if reach(kept) > self.highest() {
            return false;
        }
        let first = reach(board).saturating_sub(below) as usize;
        let end = reach(kept).saturating_sub(below) as usize;
        history_over(&self.commands, board.history, first, end) == kept.history
    }

    fn passed(&self, kept: &Record) -> usize
        ensures { result ≡ passed self.now.standing.below (length self.now.commands) kept.now }
    {
        let passed = kept.last.saturating_sub(self.standing.below) as usize;
        passed.min(self.commands.len())
    }

    // Adds a command, with the next number.
    pub(crate) fn give(
        &mut self,
        alloc: Global,
        tag: u64,
        map: u8,
        packet: &[u8],
    ) -> Result<(), AllocError>
        requires number { highest self.old + 1 < 2 ^ 32 }
        requires short { length packet.now ≤ 65542 }
        ensures ok { OnOk result (self.new ≡ gives self.old (waiting tag map packet.now)) }
        ensures err { OnErr result (self.new ≡ self.old) }
    {
        let command = Given::new(alloc, tag, map, packet)?;
        self.commands.reserve(1)?;
        self.commands.push_back_reserved(command);
        self.live = self.live.saturating_add(packet.len() as u64 + 18);
        Ok(())
    }

    // Takes a later record of the board.
    pub(crate) fn hear(&mut self, kept: &Record) -> Result<(), AllocError>
        ensures ok { OnOk result (self.new ≡ hears self.old kept.now) }
        ensures err { OnErr result (self.new ≡ self.old) }
    {
        let known = obeyed(&self.standing, kept);
        let agree = self.agrees(&known.board, kept);
        let below = self.standing.below;
        let count = self.passed(kept);
        self.tells.reserve(count + 2)?;
        put(&mut self.tells, restarted(&self.standing.board, kept));
        put(&mut self.tells, foreign(agree, &known.board, kept));
        let below_then = below_after(below, self.commands.len(), count, kept);
        let then = heard_standing(below_then, agree, &known, kept);
        self.live = pass(
            &mut self.commands,
            &mut self.tells,
            kept,
            then.doubt,
            below,
            count,
            self.live,
        );
        self.standing = then;
        Ok(())
    }

    // Takes the loss of the board's record.
    pub(crate) fn lose(&mut self, mark: u32) -> Result<(), AllocError>
        ensures ok { OnOk result (self.new ≡ loses self.old mark) }
        ensures err { OnErr result (self.new ≡ self.old) }
    {
        self.tells.reserve(1)?;
        self.tells.push_back_reserved(Tell::RecordLost(mark));
        self.standing.mark = Some(mark);
        self.standing.is_lost = true;
        Ok(())
    }

    // Keeps an order that brings a record.
    pub(crate) fn rebuild(&mut self, order: Rebuild)
        ensures { self.new ≡ after_entry self.old (Rebuilds order) }
    {
        self.standing.order = Some(order);
    }

    // Removes the first report, which was made.
    pub(crate) fn told(&mut self)
        ensures { self.new ≡ after_entry self.old Tells }
    {
        let _told = self.tells.pop_front();
    }

    // Takes all that a fresh store contains before the commands.
    pub(crate) fn stand(&mut self, standing: Standing)
        ensures { self.new ≡ after_entry self.old (Stands standing) }
    {
        self.standing = standing;
        self.commands.clear();
        self.tells.clear();
        self.live = 0;
    }

    /// Whether the entry may follow those before it.
    pub(crate) fn follows(&self, entry: &Written) -> bool
        ensures { result ≡ follows self.now (entry_view entry.now) }
    {
        match entry {
            Written::Gives { packet, .. } => self.is_next(packet),
            _ => true,
        }
    }

    // Whether this is a command packet with the next number.
    fn is_next(&self, packet: &[u8]) -> bool
        ensures { result ≡ (nat_lt (highest self.now) 4294967295 && (nat_le (length packet.now) 65542
            && (is_command packet.now && (number_in packet.now == highest self.now + 1)))) }
    {
        if self.highest() == u32::MAX || packet.len() > 65542 {
            return false;
        }
        match decode_command(packet) {
            Ok(command) => u64::from(command.number) == u64::from(self.highest()) + 1,
            Err(_) => false,
        }
    }

    /// Applies the entry to the state.
    pub(crate) fn apply(&mut self, alloc: Global, entry: &Written) -> Result<(), AllocError>
        requires { follows self.old (entry_view entry.now) ≡ true }
        ensures ok { OnOk result (self.new ≡ after_entry self.old (entry_view entry.now)) }
        ensures err { OnErr result (self.new ≡ self.old) }
    {
        match entry {
            Written::Gives { tag, map, packet } => self.give(alloc, *tag, *map, packet),
            Written::Hears(kept) => self.hear(kept),
            Written::Loses(mark) => self.lose(*mark),
            Written::Rebuilds(order) => Ok(self.rebuild(*order)),
            Written::Tells => Ok(self.told()),
            Written::Stands(standing) => Ok(self.stand(*standing)),
        }
    }
}
