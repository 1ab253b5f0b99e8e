// Why a line is unreadable, in words.

ghost use Rattle.std.specs.Prelude.{◌≡◌};
ghost use Rattle.node_lines.specs.Causes.{cause_by, cause_in, forms};

use streams::{cut, is};

// Returns the cause for a line whose first word is this.
fn cause_by_word(word: &[u8]) -> &'static str
    ensures { result.now ≡ cause_by forms word.now }
{
    if is(word, "config") {
        return "it is not config FIELD N, before all others";
    }
    if is(word, "submit") {
        return "it is not submit M HEX";
    }
    if is(word, "bypass") {
        return "it is not bypass M HEX";
    }
    if is(word, "telemetry") {
        return "it is not telemetry HEX";
    }
    if is(word, "init") {
        return "it is not init none, init check, init unlock or init set X";
    }
    if is(word, "vs") {
        return "it is not vs X";
    }
    if is(word, "window") {
        return "it is not window X";
    }
    if is(word, "limit") {
        return "it is not limit X";
    }
    if is(word, "timer") {
        return "it is not timer X";
    }
    if is(word, "resume") {
        return "it is not resume X";
    }
    if is(word, "terminate") {
        return "it is not terminate alone";
    }
    if is(word, "send") {
        return "it is not send alone";
    }
    if is(word, "report") {
        return "it is not report alone";
    }
    if is(word, "tick") {
        return "it is not tick alone";
    }
    if is(word, "take") {
        return "it is not take alone";
    }
    if is(word, "takebypass") {
        return "it is not takebypass alone";
    }
    if is(word, "show") {
        return "it is not show alone";
    }
    if is(word, "up") {
        return "it is for the link, as up deliver, up lose or up damage HEX";
    }
    if is(word, "down") {
        return "it is for the link, as down deliver, down lose, down clcw or down damage HEX";
    }
    if is(word, "frame") {
        return "it is for a spacecraft alone, as frame HEX";
    }
    if is(word, "clcw") {
        return "it is for a ground alone, as clcw HEX";
    }
    if is(word, "help") {
        return "it is for a node alone, as help";
    }
    "no line begins with its first word"
}

/// Returns why a line of a script or for a node is unreadable, if it is.
pub fn cause_in(line: &[u8]) -> &'static str
    ensures { result.now ≡ cause_in line.now }
{
    if line.ends_with(b"\r") {
        return "it ends with a carriage return";
    }
    if line.starts_with(b" ") || line.ends_with(b" ") {
        return "it begins or ends with a space";
    }
    match cut(line, b' ') {
        (word, None) => cause_by_word(word),
        (word, Some(_)) => cause_by_word(word),
    }
}
