// What the program has stored and reported.

ghost use Rattle.std.specs.Prelude.{◌≡◌};

use crate::commander::Commander;
use command_ledger::{LedgerFault, Next as Owed, Tell};

impl Commander {
    ghost use Rattle.std.specs.Prelude.{◌≡◌, ◌↔◌, IsTrue, OnOk, OnErr, IsOkUnless};
    ghost use Rattle.command_ledger.specs.Ledger.{next_of, Says, all_stored};
    ghost use Rattle.commander.specs.Commander.{told, after_telling, held_back};
    ghost use Rattle.commander.specs.Opened.{stored, renewed};

    /// Notes that all octets of `unstored` are in the store; `count` is their number. Changes nothing if it
    /// is another number.
    pub fn stored(&mut self, count: usize)
        ensures { self.new ≡ stored self.old count }
    {
        self.ledger.stored(count);
    }

    /// Notes that the store now has this many octets, which begin with those of `Ledger::fresh`.
    pub fn renewed(&mut self, count: usize)
        ensures { self.new ≡ renewed self.old count }
    {
        self.ledger.renewed(count);
    }

    /// Notes that this was reported. A restart of the board, or the loss of its record, ends the session.
    /// Changes nothing if `next` does not return it.
    /// Faults: 9 Memory. Memory: yes.
    pub fn told(&mut self, tell: Tell) -> Result<(), LedgerFault>
        ensures ok { next_of self.old.ledger ≡ Says tell → OnOk result (self.new ≡ told self.old tell) }
        ensures other { (next_of self.old.ledger ≡ Says tell → ⊥) → self.new ≡ self.old }
        ensures err { OnErr result (self.new ≡ self.old) }
        ensures fault { IsOkUnless result LedgerFault.Memory }
    {
        if !self.tells(tell) {
            return Ok(());
        }
        self.ledger.told(tell)?;
        self.obey(tell);
        Ok(())
    }

    fn tells(&self, tell: Tell) -> bool
        ensures { IsTrue result ↔ next_of self.now.ledger ≡ Says tell }
    {
        match self.ledger.next() {
            Owed::Tell(first) => first == tell,
            _ => false,
        }
    }

    fn obey(&mut self, tell: Tell)
        ensures { self.new ≡ after_telling self.old tell }
    {
        if let Tell::Restarted(_) | Tell::RecordLost(_) = tell {
            self.end();
            self.session.paused = self.session.paused || self.mission.holds;
            self.session.restarts = false;
        }
    }
}
