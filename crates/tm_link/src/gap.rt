// Frames that are missing.

ghost use Rattle.std.specs.Prelude.{◌≡◌};
ghost use Rattle.tm_link.specs.Extractor.{gap_of, part_over_gap, is_any_lost};

/// How many frames of the virtual channel are missing before a frame (CCSDS 132.0-B-3, 4.1.2.6).
#[derive(Clone, Copy, Debug, PartialEq, Eq)]
pub enum Gap {
    /// The frame is the first one.
    First,
    /// This number of frames is missing, modulo 256.
    Lost(u8),
}

/// Returns the gap before a frame with this count, after a frame with the count `last`, if there
/// was one.
pub fn gap_before(last: Option<u8>, count: u8) -> Gap
    ensures { result ≡ gap_of last count }
{
    match last {
        None => Gap::First,
        Some(last) => Gap::Lost(count.wrapping_sub(last).wrapping_sub(1)),
    }
}

/// Returns whether frames are missing.
pub fn is_lost(gap: Gap) -> bool
    ensures { result ≡ is_any_lost gap }
{
    match gap {
        Gap::First => false,
        Gap::Lost(count) => count != 0,
    }
}

// Returns the part if no frame is missing after it, and otherwise no octets.
pub(crate) fn part_kept(gap: Gap, part: &[u8]) -> &[u8]
    ensures { result.now ≡ part_over_gap gap part.now }
{
    if is_lost(gap) { &part[..0] } else { part }
}
