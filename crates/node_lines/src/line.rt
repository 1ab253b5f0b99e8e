// The meaning of a line of a script or for a node.

ghost use Rattle.std.specs.Prelude.{◌≡◌};
ghost use Rattle.streams.specs.Words.{octets_of_digits};
ghost use Rattle.node_lines.specs.Lines.{ask_said, ask_view, octets_in};

use nodes::{Event, Parameter};

/// What a line asks of a node, or of the simulated link.
#[derive(Clone, Copy, Drop)]
pub enum Ask<'a> {
    /// An event happens. At a ground, `Telemetry` means octets that arrive as a telemetry frame.
    Happening(Event<'a>),
    /// Octets arrive as a telecommand frame.
    Frame(&'a [u8]),
    /// Octets arrive as a CLCW by itself.
    ControlWord(&'a [u8]),
    /// The node shows its state, or the link its records.
    Show,
}

/// The meaning of a line. An ask that carries octets has their digits instead.
#[derive(Clone, Copy, Drop)]
pub enum Line<'a> {
    /// It is empty, or a note.
    Skipped,
    /// A managed parameter gets this value.
    Setting(Parameter, u64),
    /// This is asked.
    Asking(Ask<'a>),
    /// The lines that the node reads are listed.
    Helping,
    /// It is none of these.
    Unreadable,
}

/// Returns the octets of an ask, or their digits instead; none if it carries none.
pub fn octets_in(ask: Ask<'_>) -> &[u8]
    ensures { result.now ≡ octets_in ask.entry }
{
    match ask {
        Ask::Happening(event) => match event {
            Event::Submit(_, octets) | Event::Bypass(_, octets) => octets,
            Event::UpDamage(octets) | Event::DownDamage(octets) | Event::Telemetry(octets) => {
                octets
            }
            _ => b"",
        },
        Ask::Frame(octets) | Ask::ControlWord(octets) => octets,
        Ask::Show => b"",
    }
}

/// Returns the ask with the octets that its digits spell.
pub fn with_octets<'a>(ask: Ask<'a>, octets: &'a [u8]) -> Ask<'a>
    requires { octets.now ≡ octets_of_digits (octets_in ask) }
    ensures { ask_view result ≡ ask_said ask.entry }
{
    match ask {
        Ask::Happening(event) => Ask::Happening(match event {
            Event::Submit(map, _) => Event::Submit(map, octets),
            Event::Bypass(map, _) => Event::Bypass(map, octets),
            Event::UpDamage(_) => Event::UpDamage(octets),
            Event::DownDamage(_) => Event::DownDamage(octets),
            Event::Telemetry(_) => Event::Telemetry(octets),
            event => event,
        }),
        Ask::Frame(_) => Ask::Frame(octets),
        Ask::ControlWord(_) => Ask::ControlWord(octets),
        Ask::Show => Ask::Show,
    }
}
