// Reads lines.

ghost use Rattle.std.specs.Prelude.{◌≡◌, map, option_map, Some, IfSome};
ghost use Rattle.std.specs.Map.{lookup};
ghost use Rattle.std.specs.Str.{bytes_eq};
ghost use Rattle.cop1.specs.declared.vocabulary.Directive.{Directive};
ghost use Rattle.streams.specs.Words.{number_in_word, octets_in_word};
ghost use Rattle.node_lines.specs.Lines.{ask_by, ask_in, ask_said, ask_with, directed, event_asks, line_in, line_view, link_asks, most_for, numbered_asks, octets_in, plain_asks, setting_in, worded_asks, IsWellRead};

use crate::line::{Ask, Line, octets_in};
use cop1::Directive;
use nodes::{Event, Parameter};
use streams::{is, is_octets, number_in_word, rest_after, two_words};

/// Reads a line of a script or for a node. The octets that it carries are lent as digits.
/// Cost: n.
pub fn read_line(line: &[u8]) -> Line<'_>
    ensures line { line_view result ≡ line_in line.now }
    ensures fits { IsWellRead result }
{
    match line {
        [] => return Line::Skipped,
        [b'#', ..] => return Line::Skipped,
        _ if is(line, "help") => return Line::Helping,
        _ => {}
    }
    if let Some(rest) = rest_after(line, "config ") {
        return setting_in(rest).unwrap_or(Line::Unreadable);
    }
    match ask_in(line) {
        Some(ask) => Line::Asking(ask),
        None => Line::Unreadable,
    }
}

// Returns the greatest readable number for a parameter.
fn most_for(parameter: Parameter) -> u64
    ensures { result ≡ most_for parameter }
{
    parameter.most().max(65542)
}

// Returns the line of a parameter's name and its value.
fn setting_in<'a>(rest: &[u8]) -> Option<Line<'a>>
    ensures line { option_map line_view result ≡ setting_in rest.now }
    ensures fits { IfSome result IsWellRead }
{
    let (name, word) = two_words(rest)?;
    let parameter = Parameter::named(name)?;
    let number = number_in_word(word, most_for(parameter))?;
    Some(Line::Setting(parameter, number))
}

// Returns what a line asks.
fn ask_in(line: &[u8]) -> Option<Ask<'_>>
    ensures { option_map ask_said result ≡ ask_in line.now }
{
    match plain_ask(line) {
        Some(ask) => Some(ask),
        None => worded_ask(line),
    }
}

fn directed<'a>(directive: Directive) -> Ask<'a>
    ensures { ask_said result ≡ directed directive }
{
    Ask::Happening(Event::Directive(directive))
}

// Returns what a line of the link asks.
fn link_ask(line: &[u8]) -> Option<Ask<'static>>
    ensures { option_map ask_said result ≡ lookup (bytes_eq line.now) link_asks }
{
    if is(line, "up deliver") {
        return Some(Ask::Happening(Event::UpDeliver));
    }
    if is(line, "up lose") {
        return Some(Ask::Happening(Event::UpLose));
    }
    if is(line, "down deliver") {
        return Some(Ask::Happening(Event::DownDeliver));
    }
    if is(line, "down lose") {
        return Some(Ask::Happening(Event::DownLose));
    }
    if is(line, "down clcw") {
        return Some(Ask::Happening(Event::DownClcw));
    }
    None
}

// Returns what a line that is an event by itself asks.
fn event_ask(line: &[u8]) -> Option<Ask<'static>>
    ensures { option_map ask_said result ≡ lookup (bytes_eq line.now) event_asks }
{
    if is(line, "send") {
        return Some(Ask::Happening(Event::Send));
    }
    if is(line, "report") {
        return Some(Ask::Happening(Event::Report));
    }
    if is(line, "tick") {
        return Some(Ask::Happening(Event::Tick));
    }
    if is(line, "take") {
        return Some(Ask::Happening(Event::Take));
    }
    if is(line, "takebypass") {
        return Some(Ask::Happening(Event::TakeBypass));
    }
    link_ask(line)
}

// Returns what a line with neither a number nor octets asks.
fn plain_ask(line: &[u8]) -> Option<Ask<'static>>
    ensures { option_map ask_said result ≡ lookup (bytes_eq line.now) plain_asks }
{
    if is(line, "show") {
        return Some(Ask::Show);
    }
    if is(line, "init none") {
        return Some(directed(Directive::InitWithoutCheck));
    }
    if is(line, "init check") {
        return Some(directed(Directive::InitWithCheck));
    }
    if is(line, "init unlock") {
        return Some(directed(Directive::InitUnlock));
    }
    if is(line, "terminate") {
        return Some(directed(Directive::Terminate));
    }
    event_ask(line)
}

fn byte_in(word: &[u8]) -> Option<u8>
    ensures { result ≡ number_in_word 255 word.now }
{
    let number = number_in_word(word, 255)?;
    Some(number as u8)
}

// Returns what a line that ends in a number asks.
fn numbered_ask(line: &[u8]) -> Option<Ask<'static>>
    ensures { option_map ask_said result ≡ ask_by numbered_asks line.now }
{
    if let Some(word) = rest_after(line, "init set ") {
        return Some(directed(Directive::InitSetVr(byte_in(word)?)));
    }
    if let Some(word) = rest_after(line, "vs ") {
        return Some(directed(Directive::SetVs(byte_in(word)?)));
    }
    if let Some(word) = rest_after(line, "window ") {
        return Some(directed(Directive::SetWindow(byte_in(word)?)));
    }
    if let Some(word) = rest_after(line, "limit ") {
        return Some(directed(Directive::SetLimit(byte_in(word)?)));
    }
    if let Some(word) = rest_after(line, "timer ") {
        let ticks = number_in_word(word, 65535)?;
        return Some(directed(Directive::SetTimer(ticks as u16)));
    }
    if let Some(word) = rest_after(line, "resume ") {
        return Some(Ask::Happening(Event::Resume(byte_in(word)?)));
    }
    None
}

// Returns an ask that carries octets, if what it has instead of them is their digits.
fn carrying(ask: Ask<'_>) -> Option<Ask<'_>>
    ensures { option_map ask_said result
        ≡ option_map (λ octets. ask_with ask.entry octets) (octets_in_word (octets_in ask.entry)) }
{
    if !is_octets(octets_in(ask)) {
        return None;
    }
    Some(ask)
}

// Returns what a line that ends in octets or in a number asks.
fn worded_ask(line: &[u8]) -> Option<Ask<'_>>
    ensures { option_map ask_said result ≡ ask_by worded_asks line.now }
{
    if let Some(rest) = rest_after(line, "submit ") {
        let (map, digits) = two_words(rest)?;
        return carrying(Ask::Happening(Event::Submit(byte_in(map)?, digits)));
    }
    if let Some(rest) = rest_after(line, "bypass ") {
        let (map, digits) = two_words(rest)?;
        return carrying(Ask::Happening(Event::Bypass(byte_in(map)?, digits)));
    }
    if let Some(digits) = rest_after(line, "up damage ") {
        return carrying(Ask::Happening(Event::UpDamage(digits)));
    }
    if let Some(digits) = rest_after(line, "down damage ") {
        return carrying(Ask::Happening(Event::DownDamage(digits)));
    }
    if let Some(digits) = rest_after(line, "telemetry ") {
        return carrying(Ask::Happening(Event::Telemetry(digits)));
    }
    if let Some(digits) = rest_after(line, "frame ") {
        return carrying(Ask::Frame(digits));
    }
    if let Some(digits) = rest_after(line, "clcw ") {
        return carrying(Ask::ControlWord(digits));
    }
    numbered_ask(line)
}
