// Whether a good frame begins at a place.

ghost use Rattle.std.specs.Prelude.{◌≡◌, ◌≤◌, ◌/◌, ◌%◌, ◌==◌, ◌&&◌, length, take, drop};
ghost use Rattle.octets.specs.Number.{number_of};
ghost use Rattle.tc_frame.specs.Decoding.{frame_at};
ghost use Rattle.tc_frame.specs.declared.frame.Check.TheVariants.{On};
ghost use Rattle.frame_search.specs.Search.{header_names, names, IsPlace};

use octets::{Wire, first_two};
use tc_frame::{Check, Checked, decode};

/// What is at a place in a stream.
#[derive(Clone, Copy, Debug, Drop, PartialEq, Eq)]
pub enum Place {
    /// A good frame of the channel, of this many octets.
    Frame(usize),
    /// No good frame of the channel, whatever octets follow.
    Nothing,
    /// Too few octets to decide, fewer than the longest frame has.
    Open,
}

// Whether octets have the header of a frame of this channel.
#[inline(always)]
fn has_header(octets: &[u8], scid: u16, vcid: u8) -> bool
    requires { 5 ≤ length octets.now }
    ensures { result ≡ header_names scid vcid octets.now }
{
    first_two(octets) % 1024 == scid && first_two(&octets[2..]) / 1024 == u16::from(vcid)
}

// Whether these octets are a frame of this channel with a correct FECF.
#[inline(always)]
fn is_good(octets: &[u8], scid: u16, vcid: u8) -> bool
    ensures { result ≡ names scid vcid (frame_at On octets.now) }
{
    match decode(octets, Check::On) {
        Ok(frame) => frame.scid == scid && frame.vcid == vcid,
        Err(_) => false,
    }
}

/// Determines whether a good frame of this channel begins with the first of the octets. The FECF is computed
/// only if the header names the channel.
/// Cost: the octets of a frame.
pub fn place_at(octets: &[u8], scid: u16, vcid: u8) -> Place
    ensures { IsPlace scid vcid octets.now result }
{
    if octets.len() < 5 {
        return Place::Open;
    }
    if !has_header(octets, scid, vcid) {
        return Place::Nothing;
    }
    let Ok(total) = Checked::extent(octets) else {
        return Place::Nothing;
    };
    if octets.len() < total {
        return Place::Open;
    }
    if is_good(&octets[..total], scid, vcid) {
        Place::Frame(total)
    } else {
        Place::Nothing
    }
}
