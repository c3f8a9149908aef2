ghost use Rattle.fm_clauses.specs.GroundLaw.{GroundTermsAgree};
ghost use Rattle.fm_clauses.specs.SortLaw.{NormalFormsAreSorted, TablesAreSorted, TablesNameSorts, TablesTakeNoTruths};
ghost use Rattle.fm_clauses.specs.TableLaw.{ClausesSayTheSame, ModelsAreExpansions, ModelsExpand, TablesHaveShape};

/// An interpretation makes a normal form true exactly where it has an expansion by the proxies, of the same sizes, that
/// satisfies the clauses. It is a law of the definitions and does nothing.
pub fn clauses_say_the_same()
    ensures { ClausesSayTheSame }
{}

/// An interpretation is a model of the assertions exactly where it has an expansion of the same sizes that satisfies all
/// clauses of their table; so each model gives an interpretation of the table's symbols in which they hold. It is a law
/// of the definitions and does nothing.
pub fn table_says_the_same()
    ensures models { ModelsAreExpansions }
    ensures expand { ModelsExpand }
    ensures shape { TablesHaveShape }
{}

/// The clauses of a table are well sorted over its signature, where the assertions are closed and well sorted over
/// theirs; the normal forms on the way are, too; and the symbols that are made name the signature's sorts and take no
/// truth values. It is a law of the definitions and does nothing.
pub fn table_is_well_sorted()
    ensures forms { NormalFormsAreSorted }
    ensures clauses { TablesAreSorted }
    ensures names { TablesNameSorts }
    ensures truths { TablesTakeNoTruths }
{}

/// A sort has a ground term in well sorted clauses, by which fresh constants are made, exactly where the terms that a
/// bank gets for the clauses have one of the sort. It is a law of the definitions and does nothing.
pub fn ground_terms_agree()
    ensures { GroundTermsAgree }
{}
