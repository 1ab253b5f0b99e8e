// The managed parameters by their names.

ghost use Rattle.std.specs.Prelude.{◌≡◌};
ghost use Rattle.std.specs.Str.{bytes_eq};

/// A managed parameter of the link: a field of `Config`.
#[derive(Clone, Copy, Debug, Drop, PartialEq, Eq)]
pub enum Parameter {
    Scid,
    Vcid,
    TmVcid,
    Width,
    Window,
    Limit,
    Timer,
    Part,
    MaxPacket,
    Maps,
    ReadySlots,
    BypassSlots,
    QueueSlots,
    FrameLength,
    Blocking,
}

/// All parameters, in the order in which they are checked.
pub const PARAMETERS: [Parameter; 15] = [
    Parameter::Scid,
    Parameter::Vcid,
    Parameter::TmVcid,
    Parameter::Width,
    Parameter::Window,
    Parameter::Limit,
    Parameter::Timer,
    Parameter::Part,
    Parameter::MaxPacket,
    Parameter::Maps,
    Parameter::ReadySlots,
    Parameter::BypassSlots,
    Parameter::QueueSlots,
    Parameter::FrameLength,
    Parameter::Blocking,
];

// A parameter's name, and its least and its greatest value.
#[derive(Clone, Copy, Drop)]
struct Row {
    name: &'static str,
    least: u64,
    most: u64,
}

impl Parameter {
    ghost use Rattle.nodes.specs.Parameters.{row_of, parameter_named, is_within};

    // Returns the parameter's row of the table.
    fn row(self) -> Row
        ensures name { result.name.now ≡ (row_of self).name }
        ensures least { result.least ≡ (row_of self).least }
        ensures most { result.most ≡ (row_of self).most }
    {
        match self {
            Parameter::Scid => new_row("scid", 0, 1023),
            Parameter::Vcid => new_row("vcid", 0, 63),
            Parameter::TmVcid => new_row("tm_vcid", 0, 7),
            Parameter::Width => new_row("width", 2, 254),
            Parameter::Window => new_row("window", 1, 127),
            Parameter::Limit => new_row("limit", 1, 255),
            Parameter::Timer => new_row("timer", 1, 65535),
            Parameter::Part => new_row("part", 1, 1016),
            Parameter::MaxPacket => new_row("max_packet", 7, 65542),
            Parameter::Maps => new_row("maps", 0, u64::MAX),
            Parameter::ReadySlots => new_row("ready_slots", 1, 64),
            Parameter::BypassSlots => new_row("bypass_slots", 1, 64),
            Parameter::QueueSlots => new_row("queue_slots", 1, 65535),
            Parameter::FrameLength => new_row("frame_length", 16, 2048),
            Parameter::Blocking => new_row("blocking", 0, 1),
        }
    }

    /// Returns the parameter's name, which is also that of its field in `Config` and its word in scripts.
    pub fn name(self) -> &'static str
        ensures { result.now ≡ (row_of self).name }
    {
        self.row().name
    }

    /// Returns the greatest value of its range. For `window`, half of `width` is a further bound.
    pub fn most(self) -> u64
        ensures { result ≡ (row_of self).most }
    {
        self.row().most
    }

    // Returns whether this value is within the bounds of its row.
    pub(crate) fn has(self, value: u64) -> bool
        ensures { result ≡ is_within value (row_of self) }
    {
        let row = self.row();
        row.least <= value && value <= row.most
    }

    /// Returns the parameter with this name, as in scripts.
    /// Cost: n.
    pub fn named(name: &[u8]) -> Option<Parameter>
        ensures { result ≡ parameter_named name.now }
    {
        PARAMETERS
            .iter()
            .find(|parameter| is(name, parameter.name()))
            .copied()
    }
}

fn new_row(name: &'static str, least: u64, most: u64) -> Row
    ensures name { result.name.now ≡ name.now }
    ensures least { result.least ≡ least }
    ensures most { result.most ≡ most }
{
    Row { name, least, most }
}

fn is(name: &[u8], text: &str) -> bool
    ensures { result ≡ bytes_eq name.now text.now }
{
    name == text.as_bytes()
}
