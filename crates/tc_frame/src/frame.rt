// The telecommand transfer frame as a value.

ghost use Rattle.std.specs.Prelude.{◌≡◌, ◌<◌};

/// Whether a frame ends with its FECF, the frame error control field of two octets (CCSDS
/// 232.0-B-4, 4.1.4).
#[derive(Clone, Copy, Debug, PartialEq, Eq)]
pub enum Check {
    /// It does.
    On,
    /// It does not.
    Off,
}

/// A segment's sequence flags: its position among the segments of its data (CCSDS 232.0-B-4,
/// 4.1.3.2.2.2).
#[derive(Clone, Copy, Debug, PartialEq, Eq)]
pub enum SegmentFlags {
    /// Neither the first nor the last of several.
    Continuing,
    /// The first of several.
    First,
    /// The last of several.
    Last,
    /// The only one.
    Alone,
}

impl SegmentFlags {
    ghost use Rattle.tc_frame.specs.Layout.{flags_code};
    ghost use Rattle.tc_frame.specs.Decoding.{flags_at};

    /// Returns the two bits that encode the flags in a segment header: 0 continuing, 1 first, 2
    /// last, 3 alone (CCSDS 232.0-B-4, 4.1.3.2.2.2).
    pub fn code(self) -> u8
        ensures { result ≡ flags_code self }
    {
        match self {
            SegmentFlags::Continuing => 0,
            SegmentFlags::First => 1,
            SegmentFlags::Last => 2,
            SegmentFlags::Alone => 3,
        }
    }

    /// Returns the flags with this code; a code above 3 yields `Alone`.
    pub fn with_code(code: u8) -> SegmentFlags
        ensures { result ≡ flags_at code }
    {
        match code {
            0 => SegmentFlags::Continuing,
            1 => SegmentFlags::First,
            2 => SegmentFlags::Last,
            _ => SegmentFlags::Alone,
        }
    }
}

/// The octet before a segment's data: two bits of flags and six bits of MAP identifier (CCSDS
/// 232.0-B-4, 4.1.3.2.2).
#[derive(Clone, Copy, Debug, PartialEq, Eq)]
pub struct SegmentHeader {
    /// The segment's position in its packet.
    pub flags: SegmentFlags,
    /// The MAP identifier, below 64.
    pub map: u8,
}

impl SegmentHeader {
    ghost use Rattle.tc_frame.specs.Layout.{header_octet};

    /// Returns the header as an octet.
    pub fn octet(self) -> u8
        requires { self.map < 64 }
        ensures { result ≡ header_octet self }
    {
        64 * self.flags.code() + self.map
    }
}

/// The data field of a Type-D frame: a segment header, and at least one octet after it (CCSDS
/// 232.0-B-4, 4.1.3.2.2).
#[derive(Clone, Copy, Debug, PartialEq, Eq)]
pub struct Segment<'a> {
    /// The octet before the data.
    pub header: SegmentHeader,
    /// The data, at least one octet.
    pub payload: &'a [u8],
}

/// A control command, an order to the receiving end of the link itself (CCSDS 232.0-B-4, 4.1.3.3).
#[derive(Clone, Copy, Debug, PartialEq, Eq)]
pub enum Command {
    /// End a lockout: the octet 00.
    Unlock,
    /// Expect this number next: the octets 82 00 and the number.
    SetVr(u8),
}

/// What a frame carries, by its bypass and control command flags (CCSDS 232.0-B-4, 4.1.2.3).
#[derive(Clone, Copy, Debug, PartialEq, Eq)]
pub enum Body<'a> {
    /// Sequence-controlled data, with the frame sequence number N(S).
    Ad { n: u8, segment: Segment<'a> },
    /// Data that bypass sequence control.
    Bd { segment: Segment<'a> },
    /// A control command, which also bypasses sequence control.
    Bc(Command),
}

/// A telecommand transfer frame of at most 1,024 octets (CCSDS 232.0-B-4, 4.1).
#[derive(Clone, Copy, Debug, PartialEq, Eq)]
pub struct TcFrame<'a> {
    /// The spacecraft identifier, below 1,024.
    pub scid: u16,
    /// The virtual channel identifier, below 64.
    pub vcid: u8,
    /// What the frame carries, which determines its flags.
    pub body: Body<'a>,
}
