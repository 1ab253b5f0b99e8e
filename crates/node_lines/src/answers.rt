// The answer to each call, as a text.

ghost use Rattle.std.specs.Prelude.{◌≡◌, ◌++◌, codes, option_map};
ghost use Rattle.hex.specs.Hex.{encode_upper};
ghost use Rattle.clcw.specs.Encoding.{encode_answer};
ghost use Rattle.octets.specs.Beginning.{Appends};
ghost use Rattle.nodes.specs.Packets.{packet_on};
ghost use Rattle.node_lines.specs.Answers.{fault_text, ready_text, named_text, received_text, frame_gap_text, heard_text, report_text, reported_text, sent_text, packet_text, tick_text};

use clcw::Clcw;
use cop1::Alert;
use nodes::{Heard, HeardClcw, HeardReport, Received};
use std::alloc::{AllocError, Global};
use std::fmt::Write;
use tc_frame::Command;
use tm_link::Gap;

/// Appends a word, and a fault by its number and its name.
/// Faults: AllocError. Memory: yes. Cost: n*.
pub fn push_fault(text: &mut String, word: &str, number: u8, name: &str) -> Result<(), AllocError>
    ensures { Appends result text.old text.new (fault_text word.now (number, name.now)) }
{
    write!(text, "{word} {number} {name}")
}

/// Appends octets as upper-case hexadecimal digits.
/// Faults: AllocError. Memory: yes. Cost: n*.
pub fn push_digits(text: &mut String, alloc: Global, octets: &[u8]) -> Result<(), AllocError>
    ensures { Appends result text.old text.new (encode_upper octets.now) }
{
    let digits = hex::encode_upper(alloc, octets)?;
    text.push_str(digits.as_str())
}

/// Appends a word and a name, if there is one.
/// Faults: AllocError. Memory: yes. Cost: n*.
pub fn push_named(text: &mut String, word: &str, name: Option<&str>) -> Result<(), AllocError>
    ensures { Appends result text.old text.new
        (named_text word.now (option_map (λ named. named.now) name.entry)) }
{
    match name {
        Some(name) => write!(text, "{word}{name}"),
        None => Ok(()),
    }
}

/// Appends the octets of a frame that was sent.
/// Faults: AllocError. Memory: yes. Cost: n*.
pub fn push_sent(text: &mut String, alloc: Global, octets: &[u8]) -> Result<(), AllocError>
    ensures { Appends result text.old text.new (sent_text octets.now) }
{
    text.push_str("sent ")?;
    push_digits(text, alloc, octets)
}

/// Appends a packet that was taken on board, with its MAP.
/// Faults: AllocError. Memory: yes. Cost: n*.
pub fn push_packet(
    text: &mut String,
    alloc: Global,
    map: u8,
    octets: &[u8],
) -> Result<(), AllocError>
    ensures { Appends result text.old text.new (packet_text (packet_on map octets.now)) }
{
    write!(text, "packet {map} ")?;
    push_digits(text, alloc, octets)
}

/// Appends the alert that came, or else that the call is done.
/// Faults: AllocError. Memory: yes. Cost: 1*.
pub fn push_alert(text: &mut String, alert: Option<Alert>) -> Result<(), AllocError>
    ensures { Appends result text.old text.new (tick_text alert) }
{
    match alert {
        Some(alert) => push_named(text, "alert ", Some(alert.name())),
        None => text.push_str("ok"),
    }
}

fn push_ready(text: &mut String, ready: usize) -> Result<(), AllocError>
    ensures { Appends result text.old text.new (ready_text ready) }
{
    match ready {
        0 => Ok(()),
        1 => text.push_str(" ready"),
        _ => write!(text, " ready {ready}"),
    }
}

/// Appends what a spacecraft makes of octets that it received.
/// Faults: AllocError. Memory: yes. Cost: 1*.
pub fn push_received(text: &mut String, received: &Received) -> Result<(), AllocError>
    ensures { Appends result text.old text.new (received_text received.now) }
{
    match received {
        Received::Invalid(fault) => push_fault(text, "invalid", fault.number(), fault.name()),
        Received::Foreign => text.push_str("foreign"),
        Received::Sequence {
            n,
            verdict,
            ready,
            dropped,
        } => {
            let word = verdict.name();
            write!(text, "AD {n} {word}")?;
            push_ready(text, *ready)?;
            push_named(text, " dropped ", dropped.map(|cause| cause.name()))
        }
        Received::Bypass { kept: true } => text.push_str("BD kept"),
        Received::Bypass { kept: false } => text.push_str("BD dropped"),
        Received::Control(Command::Unlock) => text.push_str("BC unlock"),
        Received::Control(Command::SetVr(vr)) => write!(text, "BC set {vr}"),
    }
}

fn push_gap(text: &mut String, gap: Gap) -> Result<(), AllocError>
    ensures { Appends result text.old text.new (codes "gap=" ++ frame_gap_text gap) }
{
    match gap {
        Gap::First => text.push_str("gap=-"),
        Gap::Lost(count) => write!(text, "gap={count}"),
    }
}

/// Appends what a ground makes of octets that it received.
/// Faults: AllocError. Memory: yes. Cost: 1*.
pub fn push_heard(text: &mut String, heard: &Heard) -> Result<(), AllocError>
    ensures { Appends result text.old text.new (heard_text heard.now) }
{
    match heard {
        Heard::Invalid(fault) => push_fault(text, "invalid", fault.number(), fault.name()),
        Heard::Foreign => text.push_str("foreign"),
        Heard::Frame {
            gap,
            packets,
            alert,
            ..
        } => {
            push_gap(text, *gap)?;
            write!(text, " packets={packets}")?;
            push_named(text, " alert ", alert.map(|alert| alert.name()))
        }
    }
}

/// Appends what a ground makes of a CLCW that arrived by itself.
/// Faults: AllocError. Memory: yes. Cost: 1*.
pub fn push_reported(text: &mut String, heard: HeardClcw) -> Result<(), AllocError>
    ensures { Appends result text.old text.new (reported_text heard.report heard.alert) }
{
    match heard.report {
        HeardReport::Used => push_alert(text, heard.alert),
        HeardReport::Refused(fault) => push_fault(text, "invalid", fault.number(), fault.name()),
        HeardReport::OtherChannel => text.push_str("foreign"),
    }
}

/// Appends `report` and the octets of a CLCW.
/// Faults: AllocError. Memory: yes. Cost: 1*.
pub fn push_report(text: &mut String, alloc: Global, report: &Clcw) -> Result<(), AllocError>
    ensures { Appends result text.old text.new
        (codes "report " ++ report_text (encode_answer report.now)) }
{
    text.push_str("report ")?;
    match clcw::encode(report) {
        Ok(octets) => push_digits(text, alloc, &octets),
        Err(_) => Ok(()),
    }
}
