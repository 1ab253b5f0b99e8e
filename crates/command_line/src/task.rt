// What the arguments of a command line request.

use clap::Error;

/// The records that are listed, if not all are: those whose headers name this spacecraft and this
/// virtual channel. An identifier that is not given may be any.
#[derive(Clone, Copy, Debug, Drop, PartialEq, Eq)]
pub struct Channel {
    pub scid: Option<u16>,
    pub vcid: Option<u8>,
}

/// What a receiver takes, if that is not everything from a given number on: the frames of this channel,
/// and whether the receiver begins at the number of the first of these frames.
#[derive(Clone, Copy, Debug, Drop, PartialEq, Eq)]
pub struct Part {
    pub channel: Channel,
    pub from_first: bool,
}

/// What a receiver takes, and the MAP whose packets are listed, if it is not all MAPs.
#[derive(Clone, Copy, Debug, Drop, PartialEq, Eq)]
pub struct MapPart {
    pub part: Part,
    pub map: Option<u8>,
}

/// What is listed for the good frames of a channel, if octets between them may be damaged. It is
/// what `Task::Farm`, `Task::Map`, `Task::Tc` and `Task::Check` list.
#[derive(Clone, Copy, Debug, Drop, PartialEq, Eq)]
pub enum Searched {
    Farm {
        width: u8,
        vr: u8,
        from_first: bool,
    },
    Map {
        width: u8,
        vr: u8,
        from_first: bool,
        blocking: bool,
        map: Option<u8>,
    },
    Tc,
    Check,
}

/// What to do with the file. `check` states whether frames end with their FECF. If no part of the file
/// is named, all of it is listed.
#[derive(Clone, Copy, Debug, Drop, PartialEq, Eq)]
pub enum Task {
    /// Lists what a receiver does with each frame. The receiver has this window width, even, 2 to
    /// 254, and expects the number `vr` first.
    Farm {
        check: bool,
        width: u8,
        vr: u8,
        part: Option<Part>,
    },
    /// Lists the packets from the frames that such a receiver accepts. A segment may hold several
    /// packets, or one without `blocking`.
    Map {
        check: bool,
        width: u8,
        vr: u8,
        blocking: bool,
        part: Option<MapPart>,
    },
    /// Lists the fields of each telecommand frame.
    Tc {
        check: bool,
        channel: Option<Channel>,
    },
    /// Lists the fields of each telemetry frame of this length, 16 to 2,048 octets, on request what its
    /// CLCW reports, and the packets that it finishes.
    Tm {
        length: u16,
        report: bool,
        channel: Option<Channel>,
    },
    /// Lists what each CLCW of this virtual channel reports.
    Clcw {
        vcid: Option<u8>,
    },
    /// Lists the refused frames among frames that end with their FECF.
    Check {
        channel: Option<Channel>,
    },
    /// Lists the good frames of this channel, wherever they begin, and what is skipped between them. The
    /// frames end with their FECF.
    Resync {
        listed: Searched,
        scid: u16,
        vcid: u8,
    },
    /// Lists the fields of each space packet of this application process.
    Packets {
        apid: Option<u16>,
    },
    /// Writes the octets of lines: those of `Tc` and of `Packets`, and those that hold octets. With
    /// `skips`, other lines have none.
    Encode {
        check: bool,
        skips: bool,
    },
    /// Runs a script of the simulated link.
    Sim,
    /// Runs a ground, line by line.
    Ground,
    /// Runs a spacecraft, line by line.
    Spacecraft,
}

/// What the arguments request.
#[derive(Clone, Copy, Debug, Drop, PartialEq, Eq)]
pub struct Options<'a> {
    pub task: Task,
    /// Whether totals are written instead of lines, if a file is listed.
    pub count: bool,
    /// The name of the file, as it was given.
    pub file: &'a str,
}

/// Why the arguments request nothing.
#[derive(Debug, Drop, thiserror::Error)]
pub enum UsageFault {
    /// What the parser of the arguments answers, including a text of help that was requested.
    #[error(transparent)]
    Words(Error),
    /// The width of the window is odd.
    #[error("width is odd")]
    OddWidth { width: u8 },
}

impl From<Error> for UsageFault {
    ghost use Rattle.std.specs.Prelude.{◌≡◌};
    ghost use Rattle.command_line.specs.declared.task.UsageFault.TheVariants as faults;

    ghost from_gives = { λ error fault. fault ≡ faults.Words error };

    fn from(error: Error) -> UsageFault {
        UsageFault::Words(error)
    }
}
