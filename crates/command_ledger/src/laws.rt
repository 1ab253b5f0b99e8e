// What holds of a ledger over all its entries.

ghost use Rattle.command_ledger.specs.Fates.{EachFateIsSaid};
ghost use Rattle.command_ledger.specs.Kept.{EachStoreIsRead};
ghost use Rattle.command_ledger.specs.Numbers.{EachNumberIsNew};

/// If an entry adds the report that a command was executed, that command is the ledger's, and a record of the
/// board shows that it was executed. The history of that record is that of this ledger's commands. If an
/// entry adds the report that nothing is known of a command, the board has passed that command.
pub fn law_of_fates()
    ensures { EachFateIsSaid }
{}

/// A store is read as it was written: the state is that after all of its entries. If the last append was cut
/// off, in whichever octet, the state is that after the entries before it, and only their octets are good.
/// This holds for entries that a ledger may append: each fits its fields and may follow those before it.
pub fn law_of_store()
    ensures { EachStoreIsRead }
{}

/// No number is given twice, nor after the board has reached it: each number that a store gives is above all
/// numbers that the store gave before, and above the reach of each record before. This holds for all entries
/// that are appended to a store.
pub fn law_of_numbers()
    ensures { EachNumberIsNew }
{}
