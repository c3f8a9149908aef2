ghost use Rattle.fm_problem.specs.Tabled.{ClosedHaveTables};

/// The clause table of closed assertions says no more than they do: each model of the assertions gives an interpretation of
/// the table's symbols, of the same sizes, that satisfies all clauses. So the claim of a block that is good over the table
/// holds of the assertions. It is a law of the definitions and does nothing.
pub fn tables_say_no_more()
    ensures { ClosedHaveTables }
{}
