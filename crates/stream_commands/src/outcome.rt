// How a dump that has reached the end of its input ends.

ghost use Rattle.std.specs.Prelude.{◌≡◌};

/// How a dump that has reached the end of its input ends.
#[derive(Clone, Copy, Debug, Drop, PartialEq, Eq)]
pub enum Outcome {
    /// Every record is good, and nothing is left after them.
    Good,
    /// A record is refused, or octets are left that do not form a record.
    Faulty,
    /// This line of a script, counted from 1, is the first unreadable one.
    Unreadable(u64),
    /// This field of a script's configuration is the first one out of range.
    OutOfRange(&'static str),
}

impl Outcome {
    ghost use Rattle.stream_commands.specs.Outcome.{outcome_if};

    /// Returns `Good` if all is good, else `Faulty`.
    pub fn of(all_good: bool) -> Outcome
        ensures { result ≡ outcome_if all_good }
    {
        if all_good {
            Outcome::Good
        } else {
            Outcome::Faulty
        }
    }
}
