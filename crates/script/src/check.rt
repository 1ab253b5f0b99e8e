// Checks a script before it is run.

ghost use Rattle.std.specs.Prelude.{◌≡◌, ◌<◌, ◌^◌, ◌-◌, ◌||◌, false, length};
ghost use Rattle.node_lines.specs.Lines.{line_view, IsWellRead};
ghost use Rattle.script.specs.Scripts.{is_action, is_refused, with_line};
ghost use Rattle.script.specs.Ending.{Ends};

use node_lines::{Ask, Line, cause_in, read_line};
use nodes::Config;
use streams::cut;
use thiserror::Error;

/// Why a script is not run.
#[derive(Clone, Copy, Debug, Drop, Error, PartialEq, Eq)]
pub enum ScriptFault {
    /// This line, counted from 1, is the first unreadable one, for this cause.
    #[error("line {0}: unreadable")]
    Unreadable(u64, &'static str),
    /// This field of the configuration is the first one out of range.
    #[error("config out of range: {0}")]
    OutOfRange(&'static str),
}

// What the lines of a script require, as far as they are checked.
#[derive(Drop)]
struct Seen {
    // The configuration, in which a field may be out of range.
    config: Config,
    // Whether a line was met that no setting may follow.
    begun: bool,
}

impl Seen {
    // Takes a line unless it is refused, and returns whether it is refused. A setting after an action is
    // refused.
    fn refuses(&mut self, line: Line<'_>) -> bool
        requires { IsWellRead line }
        ensures refused { result ≡ is_refused self.old.begun (line_view line.entry) }
        ensures begun { result ≡ false
            → self.new.begun ≡ self.old.begun || is_action (line_view line.entry) }
        ensures config { result ≡ false
            → self.new.config ≡ with_line self.old.config (line_view line.entry) }
    {
        match line {
            Line::Skipped => false,
            Line::Setting(parameter, number) => {
                if self.begun {
                    return true;
                }
                self.config.set(parameter, number);
                false
            }
            Line::Asking(Ask::Happening(_) | Ask::Show) => {
                self.begun = true;
                false
            }
            Line::Asking(_) | Line::Helping | Line::Unreadable => true,
        }
    }
}

/// Returns why a script is not run, if it is not: the first unreadable line, or else the first field of its
/// configuration that is out of range.
/// Cost: n.
pub fn fault_of(script: &[u8]) -> Option<ScriptFault>
    requires { length script.now < 2 ^ 64 - 1 }
    ensures { Ends result script.now }
{
    let mut seen = Seen {
        config: Config::default(),
        begun: false,
    };
    let mut number = 1;
    let mut rest = script;
    'lines: loop {
        let (line, after) = cut(rest, b'\n');
        if seen.refuses(read_line(line)) {
            return Some(ScriptFault::Unreadable(number, cause_in(line)));
        }
        let Some(after) = after else {
            return match seen.config.valid() {
                Ok(_) => None,
                Err(field) => Some(ScriptFault::OutOfRange(field)),
            };
        };
        rest = after;
        number += 1;
    }
}
