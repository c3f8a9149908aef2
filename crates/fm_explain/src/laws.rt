ghost use Rattle.fm_explain.specs.Laws.{GoingBackKeeps, GrowingKeeps, NothingIsKnown, OpeningKeeps, ReadingKeeps, RegisteringKeeps, SettlingKeeps};

/// What `explain` asks of the bank is kept by each step of a search: by terms registered, literals read, late terms
/// entered, terms and atoms added to the bank, and levels opened and closed.
pub fn graphs_stay_known()
    ensures nothing { NothingIsKnown }
    ensures registering { RegisteringKeeps }
    ensures reading { ReadingKeeps }
    ensures settling { SettlingKeeps }
    ensures growing { GrowingKeeps }
    ensures opening { OpeningKeeps }
    ensures going_back { GoingBackKeeps }
{}
