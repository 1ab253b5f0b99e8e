// What holds of a board over time.

ghost use Rattle.command_log.specs.Board.{EachIsCarriedOut};
ghost use Rattle.command_log.specs.CarriedOut.{EachPairCarriesOut};
ghost use Rattle.command_log.specs.Exact.{EachCommandIsRead, EachOrderIsRead, EachReadIsACommand, EachReadIsAnOrder};
ghost use Rattle.command_log.specs.History.{EachHistoryIsACheck};
ghost use Rattle.command_log.specs.KnowsMost.{EachKnowsMost};
ghost use Rattle.command_log.specs.NeverLost.{EachKeepsItsRecord};
ghost use Rattle.command_log.specs.Progress.{EachComesToRest, EachNextIsExecuted};
ghost use Rattle.command_log.specs.Tearing.{EachErasedIsNone, EachTornIsOneOfBoth};

/// No command on board begins twice or out of order, and each status is true. This holds whatever packets are
/// offered, whatever copies are spoiled, and whenever the board restarts, if each order is sound
/// (`AreSound`).
pub fn law_of_execution()
    ensures { EachIsCarriedOut }
{}

/// The board executes commands that the ground has stored, in order and each once, whatever the link does to
/// commands and orders. This holds whenever the board restarts or the ground is lost, under the assumptions
/// `AreOwed`. A command that a status reports as executed was executed.
pub fn law_of_carrying_out()
    ensures { EachPairCarriesOut }
{}

/// A board never loses its record, whenever it restarts and in whichever write it is cut off. This requires
/// that a copy is spoiled only while both are good, and that no action is cut off in its middle until both
/// are good again.
pub fn law_of_keeping()
    ensures { EachKeepsItsRecord }
{}

/// A status leaves open, of the latest 64 numbers up to the last, at most one for each restart of the board
/// and 64 for each order that arrives to bring a record. Each order must be sound (`AreSound`).
pub fn law_of_knowing()
    ensures { EachKnowsMost }
{}

/// A board that has a record, and has not been ordered to restart, is at rest after five actions. At rest it
/// takes the next command. After five actions this command has been executed completely, and the status
/// reports this.
pub fn law_of_rest()
    ensures rest { EachComesToRest }
    ensures next { EachNextIsExecuted }
{}

/// After a write that is cut off, a place contains the old record, the new one or no record, if the memory
/// takes octets in order. This does not rely on the check.
pub fn law_of_tearing()
    ensures { EachTornIsOneOfBoth }
{}

/// Erased memory, all zeros or all ones, does not form a record.
pub fn law_of_erasing()
    ensures { EachErasedIsNone }
{}

/// A command packet that was written is read back, and no other octets are read as a command packet.
pub fn law_of_commands()
    ensures read { EachCommandIsRead }
    ensures only { EachReadIsACommand }
{}

/// An order that was written is read back, and no other octets are read as an order.
pub fn law_of_orders()
    ensures read { EachOrderIsRead }
    ensures only { EachReadIsAnOrder }
{}

/// The history of packets, taken one by one, is the check of their checks in this order.
pub fn law_of_history()
    ensures { EachHistoryIsACheck }
{}
