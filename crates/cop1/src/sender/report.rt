// How the sender responds to a CLCW.

ghost use Rattle.std.specs.Prelude.{◌≡◌};

use super::Sender;
use super::words::acknowledged;
use crate::vocabulary::{Alert, Control, FopMode};
use bitflags::Flags;
use clcw::{Clcw, ClcwFlags};

/// The answer to a CLCW: which units the caller releases.
#[derive(Clone, Copy, Debug, PartialEq, Eq)]
pub struct ReportAnswer {
    /// How many units are acknowledged, the oldest of those sent; the caller releases them.
    pub released: u8,
    /// Why the sender gives up, if it does; the caller then releases all units.
    pub alert: Option<Alert>,
}

impl Sender {
    ghost use Rattle.std.specs.Prelude.{◌≡◌, ◌≢◌, ◌<◌, ◌≤◌, true, false};
    ghost use Rattle.cop1.specs.declared.vocabulary.FopMode.{FopMode};
    ghost use Rattle.cop1.specs.NumbersStep.{report_answer, sender_step, Report};
    ghost use Rattle.cop1.specs.FopReport.{report_while_active, report_in_S4, report_in_S5, nothing_new, move_on, ask_again, retransmits, ask_for_others, ask_for_all};
    ghost use Rattle.cop1.specs.FopVariables.{IsActive};
    ghost use Rattle.cop1.specs.FopWords.{is_outside, alerts};

    /// Processes a CLCW that arrived (CCSDS 232.1-B-2, table 5-1). The caller releases as many of
    /// the oldest units as the answer states, and all units at an alert.
    pub fn report(&mut self, report: &Clcw) -> ReportAnswer
        ensures after { self.new ≡ (sender_step self.old (Report report.now)).after }
        ensures answer { result ≡ report_answer (sender_step self.old (Report report.now)) }
    {
        match self.fields.state {
            FopMode::S1 | FopMode::S2 | FopMode::S3 => self.report_while_active(report),
            FopMode::S4 => unreleased(self.report_in_s4(report)),
            FopMode::S5 => {
                self.report_in_s5(report);
                unreleased(None)
            }
            FopMode::S6 => unreleased(None),
        }
    }

    // S1 to S3: the first of eight rules that applies, in this order, decides.
    fn report_while_active(&mut self, report: &Clcw) -> ReportAnswer
        requires { IsActive self.old.state }
        ensures after { self.new ≡ (report_while_active self.old report.now).after }
        ensures answer { result ≡ report_answer (report_while_active self.old report.now) }
    {
        let asks = report.flags.contains(ClcwFlags::RETRANSMIT);
        let waits = report.flags.contains(ClcwFlags::WAIT);
        if report.flags.contains(ClcwFlags::LOCKOUT) {
            return unreleased(self.alert(Alert::Lockout));
        }
        if self.is_outside(report.value) {
            return unreleased(self.alert(Alert::NnR));
        }
        if !asks && waits {
            return unreleased(self.alert(Alert::Clcw));
        }
        if asks && report.value == self.fields.vs {
            return unreleased(self.alert(Alert::Synch));
        }
        if !asks && report.value == self.fields.nn {
            return unreleased(self.nothing_new());
        }
        if !asks {
            return self.move_on(report.value);
        }
        if report.value != self.fields.nn {
            return self.ask_for_others(report.value, waits);
        }
        unreleased(self.ask_for_all(waits))
    }

    // Rule 5: nothing is acknowledged, and no retransmission is requested.
    fn nothing_new(&mut self) -> Option<Alert>
        requires { IsActive self.old.state }
        ensures after { self.new ≡ (nothing_new self.old self.old.state).after }
        ensures answer { result ≡ (nothing_new self.old self.old.state).answer }
    {
        match self.fields.state {
            FopMode::S1 => None,
            _ => self.alert(Alert::Synch),
        }
    }

    // Rule 6: units are acknowledged, and no retransmission is requested.
    fn move_on(&mut self, value: u8) -> ReportAnswer
        requires active { IsActive self.old.state }
        requires inside { is_outside self.old value ≡ false }
        ensures after { self.new ≡ (move_on self.old value).after }
        ensures answer { result ≡ report_answer (move_on self.old value) }
    {
        let released = value.wrapping_sub(self.fields.nn);
        self.fields = acknowledged(self.fields, value);
        self.fields.count = 1;
        self.fields.ticks = if self.fields.sent == 0 {
            None
        } else {
            Some(self.fields.timer)
        };
        self.fields.state = FopMode::S1;
        ReportAnswer {
            released,
            alert: None,
        }
    }

    // Rule 7: units are acknowledged, and retransmission of the others is requested.
    fn ask_for_others(&mut self, value: u8, wait: bool) -> ReportAnswer
        requires active { IsActive self.old.state }
        requires inside { is_outside self.old value ≡ false }
        requires others { value ≢ self.old.vs }
        ensures after { self.new ≡ (ask_for_others self.old value wait).after }
        ensures answer { result ≡ report_answer (ask_for_others self.old value wait) }
    {
        let released = value.wrapping_sub(self.fields.nn);
        self.fields = acknowledged(self.fields, value);
        self.fields.count = 1;
        let alert = self.ask_again(wait, true);
        ReportAnswer { released, alert }
    }

    // Rule 8: nothing is acknowledged, and retransmission of all units sent is requested.
    fn ask_for_all(&mut self, wait: bool) -> Option<Alert>
        requires active { IsActive self.old.state }
        requires sent { 1 ≤ self.old.sent.count }
        ensures after { self.new ≡ (ask_for_all self.old wait).after }
        ensures answer { result ≡ (ask_for_all self.old wait).answer }
    {
        let repeats = self.fields.state != FopMode::S2 && self.fields.count < self.fields.limit;
        self.ask_again(wait, repeats)
    }

    // Responds to a request for retransmission. The sender gives up if each unit may be sent only
    // once, and goes to S3 if the receiver waits. Otherwise it goes to S2, with or without Repeat.
    fn ask_again(&mut self, wait: bool, repeats: bool) -> Option<Alert>
        requires active { IsActive self.old.state }
        requires sent { 1 ≤ self.old.sent.count }
        requires countable { repeats ≡ true → self.old.count < 255 }
        ensures after { self.new ≡ (ask_again self.old wait (retransmits self.old repeats)).after }
        ensures answer { result ≡ (ask_again self.old wait (retransmits self.old repeats)).answer }
    {
        if self.fields.limit == 1 {
            return self.alert(Alert::Limit);
        }
        if wait {
            self.fields.state = FopMode::S3;
            return None;
        }
        if repeats {
            self.repeat();
        }
        self.fields.state = FopMode::S2;
        None
    }

    fn report_in_s4(&mut self, report: &Clcw) -> Option<Alert>
        requires { self.old.state ≡ FopMode.S4 }
        ensures after { self.new ≡ (report_in_S4 self.old report.now).after }
        ensures answer { result ≡ (report_in_S4 self.old report.now).answer }
    {
        if report.flags.contains(ClcwFlags::LOCKOUT) {
            return self.alert(Alert::Lockout);
        }
        if report.value != self.fields.vs {
            return self.alert(Alert::NnR);
        }
        if report.flags.contains(ClcwFlags::RETRANSMIT) {
            return self.alert(Alert::Synch);
        }
        if report.flags.contains(ClcwFlags::WAIT) {
            return self.alert(Alert::Clcw);
        }
        self.fields.state = FopMode::S1;
        self.fields.ticks = None;
        None
    }

    fn report_in_s5(&mut self, report: &Clcw)
        requires { self.old.state ≡ FopMode.S5 }
        ensures { self.new ≡ (report_in_S5 self.old report.now).after }
    {
        if report.flags.contains(ClcwFlags::LOCKOUT)
            || report.flags.contains(ClcwFlags::WAIT)
            || report.flags.contains(ClcwFlags::RETRANSMIT)
            || report.value != self.fields.vs
        {
            return;
        }
        self.fields.state = FopMode::S1;
        self.fields.ticks = None;
        self.fields.control = Control::Idle;
    }
}

// Nothing is acknowledged.
fn unreleased(alert: Option<Alert>) -> ReportAnswer
    ensures { result ≡ record { released = 0; alert = alert } }
{
    ReportAnswer { released: 0, alert }
}
