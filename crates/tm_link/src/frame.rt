// The telemetry transfer frame as a value.

ghost use Rattle.std.specs.Prelude.{◌≡◌};
ghost use Rattle.clcw.specs.Decoding.{clcw_at};

use clcw::{Clcw, ClcwFault};

/// The first header pointer (CCSDS 132.0-B-3, 4.1.2.7.6).
#[derive(Clone, Copy, Debug, PartialEq, Eq)]
pub enum Pointer {
    /// The place in the data field, from 0, of the first octet of the first packet that starts
    /// there.
    At(u16),
    /// No packet starts in the data field: 2047.
    NoStart,
    /// The data field contains only idle data: 2046.
    OnlyIdle,
}

/// A telemetry transfer frame with an operational control field and an FECF, of 16 to 2,048 octets,
/// 12 more than its data (CCSDS 132.0-B-3, 4.1).
#[derive(Clone, Copy, Debug, PartialEq, Eq)]
pub struct TmFrame<'a> {
    /// The spacecraft identifier, below 1,024.
    pub scid: u16,
    /// The virtual channel identifier, below 8.
    pub vcid: u8,
    /// The master channel frame count.
    pub mc_count: u8,
    /// The virtual channel frame count.
    pub vc_count: u8,
    /// Where the first packet starts in the data field.
    pub pointer: Pointer,
    /// The data field, of 4 to 2,036 octets.
    pub payload: &'a [u8],
    /// The operational control field (4.1.5).
    pub ocf: [u8; 4],
}

impl<'a> TmFrame<'a> {
    /// Reads the CLCW in the operational control field with the CLCW's own decoder (CCSDS
    /// 232.0-B-4, 4.2.1).
    /// Faults: those of `ClcwFault`, 1 Kind, 2 Version, 3 Cop, 4 Spare.
    pub fn report(&self) -> Result<Clcw, ClcwFault>
        ensures { result ≡ clcw_at self.now.ocf }
    {
        clcw::decode(self.ocf)
    }
}
