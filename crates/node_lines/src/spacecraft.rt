// A spacecraft that is run line by line.

ghost use Rattle.std.specs.Prelude.{◌≡◌, ℕ};
ghost use Rattle.cop1.specs.Farm.{FarmState};
ghost use Rattle.cop1.specs.Report.{report_of};
ghost use Rattle.std.specs.Int.{from_bool};
ghost use Rattle.octets.specs.Beginning.{Appends};
ghost use Rattle.nodes.specs.Spacecraft as calls;
ghost use Rattle.node_lines.specs.Answers.{received_text};
ghost use Rattle.node_lines.specs.Nodes.{Takes};
ghost use Rattle.node_lines.specs.Spacecraft.{handed_text, queued_text, spacecraft_rules, spacecraft_call, spacecraft_show, telemetry_text, word_text, receiver_text, farm_flags_text, waiting_text};

use crate::answers::{push_fault, push_packet, push_received, push_report, push_sent};
use crate::line::Ask;
use crate::node::Node;
use bitflags::Flags;
use clcw::{Clcw, ClcwFlags};
use nodes::{Event, Spacecraft, ValidConfig};
use std::alloc::{AllocError, Global};
use std::fmt::Write;
use tm_link::TmFault;

impl Node for Spacecraft {
    ghost rules = { spacecraft_rules };

    fn made(alloc: Global, config: &ValidConfig) -> Result<Spacecraft, AllocError> {
        match Spacecraft::of(alloc, config) {
            Ok(node) => Ok(node),
            Err(_) => Err(AllocError),
        }
    }

    fn takes(ask: Ask<'_>) -> bool {
        match ask {
            Ask::Happening(event) => match event {
                Event::Telemetry(_) | Event::Send | Event::Report => true,
                Event::Take | Event::TakeBypass => true,
                _ => false,
            },
            Ask::Frame(_) | Ask::Show => true,
            Ask::ControlWord(_) => false,
        }
    }

    fn others() -> &'static str {
        "it is for a ground"
    }

    fn lines() -> &'static str {
        "config FIELD N, frame HEX, telemetry HEX, send, report, take, takebypass, show, help"
    }

    fn answer(&mut self, alloc: Global, ask: Ask<'_>, text: &mut String) -> Result<(), AllocError> {
        match ask {
            Ask::Happening(Event::Telemetry(packet)) => queue(self, text, packet),
            Ask::Happening(Event::Send) => send(self, alloc, text),
            Ask::Happening(Event::Report) => push_report(text, alloc, &self.control_word()),
            Ask::Happening(Event::Take) => take(self, alloc, text),
            Ask::Happening(Event::TakeBypass) => take_bypass(self, alloc, text),
            Ask::Frame(octets) => receive(self, text, octets),
            Ask::Show => push_show(text, self),
            Ask::Happening(_) | Ask::ControlWord(_) => Ok(()),
        }
    }
}

fn receive(node: &mut Spacecraft, text: &mut String, octets: &[u8]) -> Result<(), AllocError>
    ensures { Takes (spacecraft_call (calls.Receive octets.now) received_text node.old) result
        text.old text.new node.new }
{
    match node.receive(octets) {
        Ok(received) => push_received(text, &received),
        Err(_) => Err(AllocError),
    }
}

fn queue(node: &mut Spacecraft, text: &mut String, packet: &[u8]) -> Result<(), AllocError>
    ensures { Takes (spacecraft_call (calls.Telemetry packet.now) queued_text node.old) result
        text.old text.new node.new }
{
    match node.telemetry(packet) {
        Ok(()) => text.push_str("ok"),
        Err(TmFault::Memory) => Err(AllocError),
        Err(fault) => push_fault(text, "refused", fault.number(), fault.name()),
    }
}

fn send(node: &mut Spacecraft, alloc: Global, text: &mut String) -> Result<(), AllocError>
    ensures { Takes (spacecraft_call calls.Report telemetry_text node.old) result text.old text.new node.new }
{
    let mut frame = [0u8; 2048];
    let count = node.report(&mut frame);
    push_sent(text, alloc, &frame[..count])
}

fn take(node: &mut Spacecraft, alloc: Global, text: &mut String) -> Result<(), AllocError>
    ensures { Takes (spacecraft_call calls.Take handed_text node.old) result text.old text.new node.new }
{
    match node.take() {
        Some((map, packet)) => push_packet(text, alloc, map, packet.as_slice()),
        None => text.push_str("nothing"),
    }
}

fn take_bypass(node: &mut Spacecraft, alloc: Global, text: &mut String) -> Result<(), AllocError>
    ensures { Takes (spacecraft_call calls.TakeBypass handed_text node.old) result text.old text.new node.new }
{
    match node.take_bypass() {
        Some((map, packet)) => push_packet(text, alloc, map, packet.as_slice()),
        None => text.push_str("nothing"),
    }
}

fn push_receiver(text: &mut String, node: &Spacecraft) -> Result<(), AllocError>
    ensures { Appends result text.old text.new (receiver_text node.now.farm) }
{
    let (state, vr) = (node.state().name(), node.control_word().value);
    write!(text, "state={state} vr={vr}")
}

// Returns the flags lockout, wait and retransmit as 0 or 1.
fn flag_numbers(word: Clcw) -> (u8, u8, u8)
    ensures { (farm : FarmState) (vcid : ℕ) → word ≡ report_of farm vcid → (result.0 ≡ from_bool farm.lockout)
        × (result.1 ≡ from_bool farm.wait) × (result.2 ≡ from_bool farm.retransmit) }
{
    (
        u8::from(word.flags.contains(ClcwFlags::LOCKOUT)),
        u8::from(word.flags.contains(ClcwFlags::WAIT)),
        u8::from(word.flags.contains(ClcwFlags::RETRANSMIT)),
    )
}

fn push_flags(text: &mut String, node: &Spacecraft) -> Result<(), AllocError>
    ensures { Appends result text.old text.new (farm_flags_text node.now.farm) }
{
    let word = node.control_word();
    let (lockout, wait, retransmit) = flag_numbers(word);
    let farm_b = word.farm_b;
    write!(text, " l={lockout} w={wait} t={retransmit} b={farm_b}")
}

fn push_waiting(text: &mut String, node: &Spacecraft) -> Result<(), AllocError>
    ensures { Appends result text.old text.new (waiting_text node.now) }
{
    let (ready, bypass) = (node.ready(), node.bypassed());
    write!(text, " ready={ready} bypass={bypass}")
}

fn push_show(text: &mut String, node: &Spacecraft) -> Result<(), AllocError>
    ensures { Appends result text.old text.new (spacecraft_show node.now) }
{
    push_receiver(text, node)?;
    push_flags(text, node)?;
    push_waiting(text, node)
}
