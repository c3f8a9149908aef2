ghost use Rattle.fm_lines.specs.Laws.{LearnRowsAreKnown, LearntStepsAreKnown, LemmasGoOn, LemmasSettle, LinesGoOn, LinesStay};

/// The lines of a state go on with those of each event whose row is met: with the lines of its row, or with one line that
/// makes the clause that is added; and where neither a term nor a clause is added they stay. It is a law of the definitions
/// and does nothing.
pub fn lines_go_on()
    ensures rows { LinesGoOn }
    ensures lemmas { LemmasGoOn }
    ensures settled { LemmasSettle }
    ensures same { LinesStay }
{}

/// The literals that are resolved in learning are over known atoms. It is a law of the definitions and does nothing.
pub fn learnt_steps_are_known()
    ensures learnt { LearntStepsAreKnown }
    ensures rows { LearnRowsAreKnown }
{}
