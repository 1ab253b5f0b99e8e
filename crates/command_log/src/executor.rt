// What is executed next.

ghost use Rattle.std.specs.Prelude.{◌≡◌};

use crate::crc::history_after;
use crate::fault::LogFault;
use crate::packets::{Order, decode_command, decode_order};
use crate::record::Record;
use crate::status::Status;
use std::marker::Model;

/// One of the two places at which the record is kept.
#[derive(Clone, Copy, Debug, PartialEq, Eq)]
pub enum Place {
    First,
    Second,
}

/// What the program does next. The program completes the action, and then passes it to `Executor::done`.
#[derive(Debug, PartialEq, Eq, Drop)]
pub enum Action {
    /// Nothing: a command or an order may be passed in.
    Nothing,
    /// Write the record to this place.
    Write(Place, Record),
    /// Execute the command that was taken last. This is its number.
    Execute(u32),
    /// Restart: an order was obeyed.
    Restart,
}

/// How far the executor has got.
#[derive(Clone, Copy, Debug, PartialEq, Eq)]
pub enum Stage {
    /// No copy is good, and nothing is executed until an order brings a record. The value is the mark of this
    /// loss.
    Lost(u32),
    /// The second copy is written over the first.
    RepairsFirst,
    /// The first copy is written over the second.
    RepairsSecond,
    /// A changed record is written to the first place.
    WritesFirst,
    /// The same record is written to the second place.
    WritesSecond,
    /// The command is executed.
    Executes,
    /// A command may be offered.
    Rests,
    /// An order to restart was taken.
    Ordered,
}

/// Decides what is executed next on board: each command once and in order, across restarts at any moment. It
/// performs no input or output, and allocates no memory. The program completes what `next` returns before it
/// calls `next` again.
#[derive(Clone, Copy)]
pub struct Executor {
    kept: Record,
    stage: Stage,
}

impl Model for Executor {
    ghost use Rattle.command_log.specs.Executor.{ExecutorState};

    ghost Value = { ExecutorState };

    ghost view = { λ e. record { kept = e.kept; stage = e.stage } };

    ghost inverse = { λ s. record { kept = s.kept; stage = s.stage } };
}

impl Executor {
    ghost use Rattle.std.specs.Prelude.{◌≡◌, Ok, Err, IfOk, OnErr};
    ghost use Rattle.octets.specs.Outcome.{map_ok};
    ghost use Rattle.command_log.specs.declared.packets.Order.TheVariants as orders;
    ghost use Rattle.command_log.specs.Executor.{start, at_stage, action_of, status_of, executor_step, offer_answer, order_answer, obey_order, rest_at, rebuilt_at, Takes, Obeys, Done};
    ghost use Rattle.std.specs.Prelude.{◌<◌};
    ghost use Rattle.command_log.specs.Record.{passed};

    /// Starts with the records at the two places; `None` if a place has no record. The program passes a
    /// different mark at each start, from a clock or at random. If neither place has a record, the mark is
    /// that of this loss.
    pub fn start(first: Option<Record>, second: Option<Record>, mark: u32) -> Executor
        ensures { result ≡ start first second mark }
    {
        match (first, second) {
            (Some(kept), _) => Executor {
                kept,
                stage: Stage::RepairsSecond,
            },
            (None, Some(kept)) => Executor {
                kept,
                stage: Stage::RepairsFirst,
            },
            (None, None) => Executor {
                kept: Record::new_board(),
                stage: Stage::Lost(mark),
            },
        }
    }

    /// Continues with a record and a stage that `kept` and `stage` returned.
    pub fn restore(kept: Record, stage: Stage) -> Executor
        ensures { result ≡ at_stage kept stage }
    {
        Executor { kept, stage }
    }

    /// Returns the record, as it is at both places or as it is being written.
    pub fn kept(&self) -> Record
        ensures { result ≡ self.now.kept }
    {
        self.kept
    }

    /// Returns how far the executor has got.
    pub fn stage(&self) -> Stage
        ensures { result ≡ self.now.stage }
    {
        self.stage
    }

    /// Returns the action that the program performs now.
    pub fn next(&self) -> Action
        ensures { result ≡ action_of self.now }
    {
        match self.stage {
            Stage::RepairsFirst | Stage::WritesFirst => Action::Write(Place::First, self.kept),
            Stage::RepairsSecond | Stage::WritesSecond => Action::Write(Place::Second, self.kept),
            Stage::Executes => Action::Execute(self.kept.last.saturating_add(1)),
            Stage::Ordered => Action::Restart,
            Stage::Rests | Stage::Lost(_) => Action::Nothing,
        }
    }

    /// Accepts a completed action, and moves on. Changes nothing if the action is not what `next` returns.
    pub fn done(&mut self, action: Action)
        ensures done { action ≡ action_of self.old → self.new ≡ executor_step self.old Done }
        ensures other { (action ≡ action_of self.old → ⊥) → self.new ≡ self.old }
    {
        if action == self.next() {
            self.moves_on();
        }
    }

    #[inline(never)]
    fn moves_on(&mut self)
        ensures { self.new ≡ executor_step self.old Done }
    {
        match self.stage {
            Stage::RepairsFirst | Stage::RepairsSecond => {
                if self.kept.begun {
                    self.pass(0);
                }
                self.kept.boot = self.kept.boot.wrapping_add(1);
                self.stage = Stage::WritesFirst;
            }
            Stage::WritesFirst => {
                self.stage = Stage::WritesSecond;
            }
            Stage::WritesSecond => {
                self.stage = if self.kept.begun {
                    Stage::Executes
                } else {
                    Stage::Rests
                };
            }
            Stage::Executes => {
                self.pass(1);
                self.stage = Stage::WritesFirst;
            }
            Stage::Rests | Stage::Ordered | Stage::Lost(_) => {}
        }
    }

    #[inline(never)]
    fn pass(&mut self, bit: u64)
        requires { bit < 2 }
        ensures { self.new ≡ record self.old { kept = passed self.old.kept bit } }
    {
        self.kept.last = self.kept.last.saturating_add(1);
        self.kept.begun = false;
        self.kept.known = self.kept.known % (1 << 63) * 2 + bit;
    }

    /// Takes a packet that arrived if it is the next command, and returns the mission's octets. The command
    /// is executed when `next` returns `Execute`. Drops any other packet, and then changes nothing. No
    /// command is taken after the number 4,294,967,295.
    /// Faults: 1 Layout, then 2 Check, then 3 Starting, 4 Busy or 5 Lost, then 6 Behind or 7 Ahead. Cost: n.
    pub fn offer<'a>(&mut self, octets: &'a [u8]) -> Result<&'a [u8], LogFault>
        ensures answer { map_ok (λ content. content.now) result ≡ offer_answer self.old octets.now }
        ensures state { self.new ≡ executor_step self.old (Takes octets.now) }
    {
        let command = decode_command(octets)?;
        self.is_at_rest()?;
        if command.number <= self.kept.last {
            return Err(LogFault::Behind);
        }
        if command.number - 1 > self.kept.last {
            return Err(LogFault::Ahead);
        }
        self.kept.begun = true;
        self.kept.history = history_after(self.kept.history, octets);
        self.stage = Stage::WritesFirst;
        Ok(command.content)
    }

    fn is_at_rest(&self) -> Result<(), LogFault>
        ensures { result ≡ rest_at self.now.stage }
    {
        match self.stage {
            Stage::Rests => Ok(()),
            Stage::Lost(_) => Err(LogFault::Lost),
            Stage::RepairsFirst | Stage::RepairsSecond => Err(LogFault::Starting),
            _ => Err(LogFault::Busy),
        }
    }

    /// Takes an order that arrived. After an order to restart, `next` returns `Restart`. If the board has
    /// lost its record, and an order has the mark of this loss, the board continues with the order's record.
    /// Nothing is then known of the numbers up to the record's last, none of them is executed, and the
    /// history is 0. Drops any other packet, and then changes nothing.
    /// Faults: 1 Layout, then 2 Check; of a restart 3 Starting, 4 Busy or 5 Lost, then 8 OtherBoot; of a
    /// record 9 NotLost, then 10 OtherMark.
    pub fn obey(&mut self, octets: &[u8]) -> Result<(), LogFault>
        ensures answer { result ≡ order_answer self.old octets.now }
        ensures state { self.new ≡ executor_step self.old (Obeys octets.now) }
    {
        match decode_order(octets)? {
            Order::Restart { boot } => {
                self.is_at_rest()?;
                if boot != self.kept.boot {
                    return Err(LogFault::OtherBoot);
                }
                self.stage = Stage::Ordered;
                Ok(())
            }
            Order::Rebuild { mark, boot, last } => self.rebuild(mark, boot, last),
        }
    }

    fn rebuild(&mut self, mark: u32, boot: u32, last: u32) -> Result<(), LogFault>
        ensures answer { result ≡ rebuilt_at self.old.stage mark }
        ensures state { self.new ≡ obey_order self.old (orders.Rebuild mark boot last) }
    {
        let Stage::Lost(of_loss) = self.stage else {
            return Err(LogFault::NotLost);
        };
        if mark != of_loss {
            return Err(LogFault::OtherMark);
        }
        self.kept = Record {
            boot,
            last,
            begun: false,
            known: 0,
            history: 0,
        };
        self.stage = Stage::WritesFirst;
        Ok(())
    }

    /// Returns the status that telemetry reports.
    pub fn status(&self) -> Status
        ensures { result ≡ status_of self.now }
    {
        match self.stage {
            Stage::Rests | Stage::Executes | Stage::Ordered => Status::Says(self.kept),
            Stage::Lost(mark) => Status::Lost(mark),
            Stage::RepairsFirst | Stage::RepairsSecond => Status::Starts,
            Stage::WritesFirst | Stage::WritesSecond => Status::Changes,
        }
    }
}
