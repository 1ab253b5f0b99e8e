// A ground that is run line by line.

ghost use Rattle.std.specs.Prelude.{◌≡◌, ◌≢◌, ◌++◌, codes, OnOk, None, Some};
ghost use Rattle.octets.specs.Beginning.{Appends};
ghost use Rattle.nodes.specs.Ground as calls;
ghost use Rattle.nodes.specs.declared.fault.LinkFault.{LinkFault as Fault};
ghost use Rattle.nodes.specs.Faults as link;
ghost use Rattle.node_lines.specs.Answers.{fault_text, heard_text};
ghost use Rattle.node_lines.specs.Lines.{ControlWord};
ghost use Rattle.node_lines.specs.Nodes.{Takes, turned};
ghost use Rattle.node_lines.specs.Ground.{count_text, done_text, ground_rules, ground_asked, ground_call, ground_show, obeyed_text, pulled_text, queues_text, resumed_text, sender_text, submissions_text, taken_text, timer_text};

use crate::answers::{push_alert, push_digits, push_fault, push_heard, push_reported, push_sent};
use crate::line::Ask;
use crate::node::Node;
use cop1::Directive;
use nodes::{Event, Ground, LinkFault, ValidConfig};
use std::alloc::{AllocError, Global};
use std::fmt::Write;

impl Node for Ground {
    ghost rules = { ground_rules };

    fn made(alloc: Global, config: &ValidConfig) -> Result<Ground, AllocError> {
        match Ground::of(alloc, config) {
            Ok(node) => Ok(node),
            Err(_) => Err(AllocError),
        }
    }

    fn takes(ask: Ask<'_>) -> bool {
        match ask {
            Ask::Happening(event) => match event {
                Event::Submit(..) | Event::Bypass(..) | Event::Directive(_) => true,
                Event::Resume(_) | Event::Send | Event::Tick => true,
                Event::Take | Event::Telemetry(_) => true,
                _ => false,
            },
            Ask::ControlWord(octets) => octets.len() == 4,
            Ask::Frame(_) => false,
            Ask::Show => true,
        }
    }

    fn others() -> &'static str {
        "it is for a spacecraft, or its control word has other than 4 octets"
    }

    fn lines() -> &'static str {
        concat!(
            "config FIELD N, submit M HEX, bypass M HEX, init none, init check, init unlock, init set X, ",
            "terminate, resume X, vs X, window X, limit X, timer X, send, tick, telemetry HEX, clcw HEX, ",
            "take, show, help"
        )
    }

    fn answer(&mut self, alloc: Global, ask: Ask<'_>, text: &mut String) -> Result<(), AllocError> {
        match ask {
            Ask::Happening(Event::Submit(map, octets)) => submit(self, text, map, octets),
            Ask::Happening(Event::Bypass(map, octets)) => bypass(self, text, map, octets),
            Ask::Happening(Event::Directive(directive)) => direct(self, text, directive),
            Ask::Happening(Event::Resume(value)) => resume(self, text, value),
            Ask::Happening(Event::Send) => send(self, alloc, text),
            Ask::Happening(Event::Tick) => push_alert(text, self.tick()),
            Ask::Happening(Event::Take) => take(self, alloc, text),
            Ask::Happening(Event::Telemetry(octets)) => telemetry(self, text, octets),
            Ask::ControlWord(octets) => control_word(self, text, octets),
            Ask::Show => push_show(text, self),
            Ask::Happening(_) | Ask::Frame(_) => Ok(()),
        }
    }
}

// Appends why the ground refused a call. Out of memory is not an answer.
fn push_refusal(text: &mut String, fault: LinkFault) -> Result<(), AllocError>
    ensures text { Appends result text.old text.new
        (fault_text (codes "refused") (link.fault_row fault)) }
    ensures known { OnOk result (fault ≢ Fault.Memory) }
{
    if fault == LinkFault::Memory {
        return Err(AllocError);
    }
    push_fault(text, "refused", fault.number(), fault.name())
}

fn submit(node: &mut Ground, text: &mut String, map: u8, octets: &[u8]) -> Result<(), AllocError>
    ensures { Takes (ground_call (calls.Submit map octets.now) done_text node.old) result
        text.old text.new node.new }
{
    match node.submit(map, octets) {
        Ok(()) => text.push_str("ok"),
        Err(fault) => push_refusal(text, fault),
    }
}

fn bypass(node: &mut Ground, text: &mut String, map: u8, octets: &[u8]) -> Result<(), AllocError>
    ensures { Takes (ground_call (calls.Bypass map octets.now) done_text node.old) result
        text.old text.new node.new }
{
    match node.bypass(map, octets) {
        Ok(()) => text.push_str("ok"),
        Err(fault) => push_refusal(text, fault),
    }
}

fn direct(node: &mut Ground, text: &mut String, directive: Directive) -> Result<(), AllocError>
    ensures { Takes (ground_call (calls.Direct directive) obeyed_text node.old) result
        text.old text.new node.new }
{
    match node.directive(directive) {
        Ok(alert) => push_alert(text, alert),
        Err(fault) => push_fault(text, "refused", fault.number(), fault.name()),
    }
}

fn resume(node: &mut Ground, text: &mut String, value: u8) -> Result<(), AllocError>
    ensures { Takes (ground_call (calls.Resume value) resumed_text node.old) result
        text.old text.new node.new }
{
    match node.resume(value) {
        Ok(on_board) => write!(text, "resumed {on_board}"),
        Err(fault) => push_fault(text, "refused", fault.number(), fault.name()),
    }
}

fn send(node: &mut Ground, alloc: Global, text: &mut String) -> Result<(), AllocError>
    ensures { Takes (ground_call calls.Pull pulled_text node.old) result text.old text.new node.new }
{
    let mut frame = [0u8; 1024];
    match node.pull(&mut frame) {
        Some(count) => push_sent(text, alloc, &frame[..count]),
        None => text.push_str("nothing"),
    }
}

fn take(node: &mut Ground, alloc: Global, text: &mut String) -> Result<(), AllocError>
    ensures { Takes (ground_call calls.TakeTelemetry taken_text node.old) result text.old text.new node.new }
{
    match node.take_telemetry() {
        Some(packet) => push_taken(text, alloc, packet.as_slice()),
        None => text.push_str("nothing"),
    }
}

fn push_taken(text: &mut String, alloc: Global, packet: &[u8]) -> Result<(), AllocError>
    ensures { Appends result text.old text.new (taken_text (Some packet.now)) }
{
    text.push_str("packet ")?;
    push_digits(text, alloc, packet)
}

fn telemetry(node: &mut Ground, text: &mut String, octets: &[u8]) -> Result<(), AllocError>
    ensures { Takes (ground_call (calls.Telemetry octets.now) heard_text node.old) result
        text.old text.new node.new }
{
    match node.telemetry(octets) {
        Ok(heard) => push_heard(text, &heard),
        Err(_) => Err(AllocError),
    }
}

// Gives octets to the ground as a CLCW, if there are four.
fn control_word(node: &mut Ground, text: &mut String, octets: &[u8]) -> Result<(), AllocError>
    ensures { Takes (turned (ground_asked (ControlWord octets.now)) node.old) result
        text.old text.new node.new }
{
    match octets {
        [a, b, c, d] => {
            let heard = node.clcw([*a, *b, *c, *d]);
            push_reported(text, heard)
        }
        _ => Ok(()),
    }
}

fn push_sender(text: &mut String, node: &Ground) -> Result<(), AllocError>
    ensures { Appends result text.old text.new (sender_text node.now) }
{
    let (state, vs, nn) = (node.state().name(), node.vs(), node.nn());
    write!(text, "state={state} vs={vs} nn={nn}")
}

fn push_submissions(text: &mut String, node: &Ground) -> Result<(), AllocError>
    ensures { Appends result text.old text.new (submissions_text node.now) }
{
    let (submitted, sent) = (node.submitted(), node.sent_whole());
    let (acknowledged, outstanding) = (node.acknowledged_whole(), node.outstanding());
    write!(
        text,
        " submitted={submitted} sent={sent} acknowledged={acknowledged} outstanding={outstanding}"
    )
}

fn push_timer(text: &mut String, ticks: Option<u16>) -> Result<(), AllocError>
    ensures { Appends result text.old text.new (timer_text ticks) }
{
    match ticks {
        Some(ticks) => write!(text, "{ticks}"),
        None => text.push_str("off"),
    }
}

fn push_count(text: &mut String, node: &Ground) -> Result<(), AllocError>
    ensures { Appends result text.old text.new (count_text node.now) }
{
    let count = node.count();
    write!(text, " count={count} timer=")?;
    push_timer(text, node.ticks())
}

fn push_queues(text: &mut String, node: &Ground) -> Result<(), AllocError>
    ensures { Appends result text.old text.new (queues_text node.now) }
{
    let (due, unsent, bypass) = (node.due(), node.unsent(), node.bypassed());
    write!(text, " due={due} unsent={unsent} bypass={bypass}")
}

fn push_show(text: &mut String, node: &Ground) -> Result<(), AllocError>
    ensures { Appends result text.old text.new (ground_show node.now) }
{
    push_sender(text, node)?;
    push_count(text, node)?;
    push_queues(text, node)?;
    push_submissions(text, node)
}
