// Which records of a stream are listed, by what their headers name.

ghost use Rattle.std.specs.Prelude.{◌≡◌, ℕ, Bool, List, take, drop};
ghost use Rattle.octets.specs.Number.{number_of};
ghost use Rattle.listings.specs.Filters.{is_asked, frame_scid, frame_vcid, telemetry_scid, telemetry_vcid};
ghost use Rattle.listings.specs.Filters.{keeps_frame, keeps_telemetry, keeps_packet, keeps_word, NamesItsFields};

use octets::first_two;

/// Decides by a record's header whether the record is listed.
pub trait Filter: Copy {
    ghost keeps: { Self → List ℕ → Bool };

    /// Returns whether the record is listed.
    fn keeps(&self, octets: &[u8]) -> bool
        ensures { result ≡ keeps self.now octets.now };
}

/// The telecommand frames of this spacecraft and this virtual channel, if they are given.
#[derive(Clone, Copy, Drop)]
pub struct FramesOf {
    pub scid: Option<u16>,
    pub vcid: Option<u8>,
}

/// The telemetry frames of this spacecraft and this virtual channel, if they are given.
#[derive(Clone, Copy, Drop)]
pub struct TelemetryOf {
    pub scid: Option<u16>,
    pub vcid: Option<u8>,
}

/// The space packets of this application process.
#[derive(Clone, Copy, Drop)]
pub struct PacketsOf {
    pub apid: u16,
}

/// The CLCWs that report on this virtual channel.
#[derive(Clone, Copy, Drop)]
pub struct WordsOf {
    pub vcid: u8,
}

/// The octets that spell a frame, a CLCW or a packet name the identifiers in its fields: the spacecraft,
/// the virtual channel and the application process.
pub fn law_of_named_channels()
    ensures { NamesItsFields }
{}

// Returns the number that the first two octets spell, or fewer if there are fewer.
#[inline(always)]
fn first_number(octets: &[u8]) -> u16
    ensures { result ≡ number_of (take 2 octets.now) }
{
    match octets {
        [] => 0,
        [octet] => u16::from(*octet),
        _ => first_two(octets),
    }
}

// Returns the number that the two octets after the first two spell.
#[inline(always)]
fn second_number(octets: &[u8]) -> u16
    ensures { result ≡ number_of (take 2 (drop 2 octets.now)) }
{
    if octets.len() < 2 {
        return 0;
    }
    first_number(&octets[2..])
}

// Each of these reads the header only if an identifier is requested.
#[inline(always)]
fn is_frame_scid(asked: Option<u16>, octets: &[u8]) -> bool
    ensures { result ≡ is_asked asked (frame_scid octets.now) }
{
    match asked {
        None => true,
        Some(asked) => first_number(octets) % 1024 == asked,
    }
}

#[inline(always)]
fn is_frame_vcid(asked: Option<u8>, octets: &[u8]) -> bool
    ensures { result ≡ is_asked asked (frame_vcid octets.now) }
{
    match asked {
        None => true,
        Some(asked) => second_number(octets) / 1024 == u16::from(asked),
    }
}

#[inline(always)]
fn is_telemetry_scid(asked: Option<u16>, octets: &[u8]) -> bool
    ensures { result ≡ is_asked asked (telemetry_scid octets.now) }
{
    match asked {
        None => true,
        Some(asked) => first_number(octets) / 16 % 1024 == asked,
    }
}

#[inline(always)]
fn is_telemetry_vcid(asked: Option<u8>, octets: &[u8]) -> bool
    ensures { result ≡ is_asked asked (telemetry_vcid octets.now) }
{
    match asked {
        None => true,
        Some(asked) => first_number(octets) / 2 % 8 == u16::from(asked),
    }
}

impl Filter for FramesOf {
    ghost keeps = { λ f octets. keeps_frame f.scid f.vcid octets };

    #[inline(always)]
    fn keeps(&self, octets: &[u8]) -> bool {
        is_frame_scid(self.scid, octets) && is_frame_vcid(self.vcid, octets)
    }
}

impl Filter for TelemetryOf {
    ghost keeps = { λ f octets. keeps_telemetry f.scid f.vcid octets };

    #[inline(always)]
    fn keeps(&self, octets: &[u8]) -> bool {
        is_telemetry_scid(self.scid, octets) && is_telemetry_vcid(self.vcid, octets)
    }
}

impl Filter for PacketsOf {
    ghost keeps = { λ f octets. keeps_packet f.apid octets };

    #[inline(always)]
    fn keeps(&self, octets: &[u8]) -> bool {
        first_number(octets) % 2048 == self.apid
    }
}

impl Filter for WordsOf {
    ghost keeps = { λ f octets. keeps_word f.vcid octets };

    #[inline(always)]
    fn keeps(&self, octets: &[u8]) -> bool {
        first_number(octets) / 4 % 64 == u16::from(self.vcid)
    }
}
