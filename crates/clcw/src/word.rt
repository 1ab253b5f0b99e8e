// A CLCW's fields.

use crate::flags::ClcwFlags;

/// A communications link control word (CLCW) for COP-1 (CCSDS 232.0-B-4, 4.2). In C the fields have the order
/// that they have here.
#[repr(C)]
#[derive(Clone, Copy, Debug, Default, PartialEq, Eq)]
pub struct Clcw {
    /// The status field, 3 bits, which is carried and not interpreted.
    pub status: u8,
    /// The virtual channel that the CLCW reports on, 6 bits.
    pub vcid: u8,
    /// The flags.
    pub flags: ClcwFlags,
    /// The FARM-B counter, 2 bits.
    pub farm_b: u8,
    /// The report value, V(R) of the receiver.
    pub value: u8,
}
