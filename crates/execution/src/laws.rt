// What holds of a ground and a board over any link.

ghost use Rattle.execution.specs.Execution.{EachSystemCarriesOut};
ghost use Rattle.execution.specs.Own.{EachCommandIsOwn};

/// The board executes commands that the ground gave, in the order of their numbers and each at most once,
/// whatever the link does to packets, orders and statuses, and whenever the board restarts or the ground
/// program ends and opens its store again. Each report is true: a command that the ground reports as executed
/// was executed completely, one that it reports as unknown does not begin later, and no command is reported
/// in two ways, before those with lower numbers, or dropped without a report. This holds under the
/// assumptions `AreOwed`.
pub fn law_of_execution()
    ensures { EachSystemCarriesOut }
{}

/// Under the same assumptions, the ground never reports that commands on board are not its own. This requires
/// that no order to bring a record is made, and that the boot count does not begin at 0 again.
pub fn law_of_own_commands()
    ensures { EachCommandIsOwn }
{}
