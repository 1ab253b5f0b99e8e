// The settings of a mission.

ghost use Rattle.std.specs.Prelude.{◌≡◌};
ghost use Rattle.commander.specs.Commander.{wait};

/// The settings of a mission.
#[derive(Clone, Copy, Debug, PartialEq, Eq)]
pub struct Mission {
    /// The longest time in ticks from sending a frame to the arrival of a CLCW that was made after it.
    pub round_trip: u32,
    /// The MAP of orders.
    pub map: u8,
    /// The APID of orders, below 2,047.
    pub orders: u16,
    /// The APID of the board's status.
    pub status: u16,
    /// Whether sending stops after a restart of the board, or the loss of its record, until `go_on` is
    /// called. The first status of a board counts as a restart.
    pub holds: bool,
}

// Returns the number of ticks after which a round trip has passed.
pub(crate) fn wait(mission: &Mission) -> u32
    ensures { result ≡ wait mission.now }
{
    mission.round_trip.saturating_add(1)
}
