// How the sender responds to a directive.

ghost use Rattle.std.specs.Prelude.{◌≡◌};
ghost use Rattle.cop1.specs.FopDirective.{after_begin};
ghost use Rattle.cop1.specs.SenderFields.{numbers_of};

use super::{Sender, SenderFields};
use crate::fault::CopFault;
use crate::vocabulary::{Alert, Control, Directive, FopMode};
use tc_frame::Command;

impl Sender {
    ghost use Rattle.std.specs.Prelude.{◌≡◌};
    ghost use Rattle.cop1.specs.NumbersStep.{sender_step, Direct};

    /// Follows a directive (CCSDS 232.1-B-2, table 5-1). Returns an alert only for `Terminate`; the
    /// caller then releases all units. Refuses a value that is out of range. Also refuses an
    /// initiation or `SetVs` in any state other than S6, and `Terminate` in S6.
    /// Faults: 2 Window, 3 Limit, 4 Timer, 8 WrongState.
    pub fn directive(&mut self, directive: Directive) -> Result<Option<Alert>, CopFault>
        ensures after { self.new ≡ (sender_step self.old (Direct directive)).after }
        ensures answer { result ≡ (sender_step self.old (Direct directive)).answer }
    {
        match directive {
            Directive::SetWindow(window) if window == 0 || window > self.fields.room => {
                return Err(CopFault::Window);
            }
            Directive::SetWindow(window) => self.fields.window = window,
            Directive::SetLimit(0) => return Err(CopFault::Limit),
            Directive::SetLimit(limit) => self.fields.limit = limit,
            Directive::SetTimer(0) => return Err(CopFault::Timer),
            Directive::SetTimer(timer) => self.fields.timer = timer,
            Directive::Terminate if self.fields.state == FopMode::S6 => {
                return Err(CopFault::WrongState);
            }
            Directive::Terminate => return Ok(self.alert(Alert::Terminated)),
            _ if self.fields.state != FopMode::S6 => return Err(CopFault::WrongState),
            Directive::InitWithoutCheck => {
                self.fields = begun(self.fields, self.fields.vs, FopMode::S1, Control::Idle);
            }
            Directive::InitWithCheck => {
                self.fields = begun(self.fields, self.fields.vs, FopMode::S4, Control::Idle);
                self.fields.ticks = Some(self.fields.timer);
            }
            Directive::InitUnlock => {
                let due = Control::Due(Command::Unlock);
                self.fields = begun(self.fields, self.fields.vs, FopMode::S5, due);
            }
            Directive::InitSetVr(number) => {
                let due = Control::Due(Command::SetVr(number));
                self.fields = begun(self.fields, number, FopMode::S5, due);
            }
            Directive::SetVs(number) => {
                self.fields.vs = number;
                self.fields.nn = number;
            }
        }
        Ok(None)
    }
}

// Leaves S6 with this number for V(S) and NN(R).
fn begun(fields: SenderFields, number: u8, state: FopMode, control: Control) -> SenderFields
    ensures { numbers_of result ≡ record (after_begin (numbers_of fields)) {
      vs = number;
      nn = number;
      state = state;
      control = control;
    } }
{
    SenderFields {
        state,
        vs: number,
        nn: number,
        waiting: false,
        sent: 0,
        due: 0,
        count: 1,
        control,
        ..fields
    }
}
