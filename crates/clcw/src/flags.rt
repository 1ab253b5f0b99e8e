// The flags of a CLCW.

ghost use Rattle.std.specs.Prelude.{◌≡◌, ◌*◌, ◌/◌, ◌%◌, ◌↔◌, IsTrue, ⊤};
ghost use Rattle.clcw.specs.Flags.{flag_table, flags_number};

use bitflags::{Flag, Flags};

/// The flags of a CLCW, as the bits of its third octet (CCSDS 232.0-B-4, 4.2.1.8). Contracts see
/// them as the sum of their values, `flags_number`.
#[repr(C)]
#[derive(Clone, Copy, Debug, Default, PartialEq, Eq)]
pub struct ClcwFlags(u8);

impl ClcwFlags {
    /// The radio frequency physical channel is not available.
    pub const NO_RF_AVAILABLE: ClcwFlags = ClcwFlags(0x80);

    /// The receiver has no bit lock.
    pub const NO_BIT_LOCK: ClcwFlags = ClcwFlags(0x40);

    /// FARM-1 is in state Lockout.
    pub const LOCKOUT: ClcwFlags = ClcwFlags(0x20);

    /// FARM-1 has no room for another frame.
    pub const WAIT: ClcwFlags = ClcwFlags(0x10);

    /// Frames must be retransmitted, from the reported number on.
    pub const RETRANSMIT: ClcwFlags = ClcwFlags(0x08);

    /// All flags, with their names.
    pub const FLAGS: &'static [Flag<ClcwFlags>] = &[
        Flag {
            name: "NO_RF_AVAILABLE",
            value: ClcwFlags::NO_RF_AVAILABLE,
        },
        Flag {
            name: "NO_BIT_LOCK",
            value: ClcwFlags::NO_BIT_LOCK,
        },
        Flag {
            name: "LOCKOUT",
            value: ClcwFlags::LOCKOUT,
        },
        Flag {
            name: "WAIT",
            value: ClcwFlags::WAIT,
        },
        Flag {
            name: "RETRANSMIT",
            value: ClcwFlags::RETRANSMIT,
        },
    ];

    // The flags among an octet's bits.
    pub(crate) fn among(octet: u8) -> ClcwFlags
        ensures { flags_number result ≡ octet / 8 * 8 }
    {
        ClcwFlags::from_bits_truncate(octet)
    }

    // Whether each bit that is set is a flag.
    pub(crate) fn are_named(self) -> bool
        ensures { IsTrue result ↔ (flags_number self % 8 ≡ 0) }
    {
        ClcwFlags::from_bits(self.bits()).is_some()
    }
}

impl Flags for ClcwFlags {
    type Bits = u8;

    ghost exact = { ⊤ };

    ghost table = { flag_table };

    ghost set_of = { flags_number };

    fn flags<'a>() -> &'a [Flag<ClcwFlags>] {
        ClcwFlags::FLAGS
    }

    fn bits(&self) -> u8 {
        self.0
    }

    fn from_bits_retain(bits: u8) -> ClcwFlags {
        ClcwFlags(bits)
    }
}
