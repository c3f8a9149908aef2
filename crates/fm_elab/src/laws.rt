ghost use Rattle.fm_elab.specs.NameLaw.{IsNamedState, ProblemsAreNamed, StepsKeepNames};
ghost use Rattle.fm_elab.specs.SortLaw.{IsSortedState, ProblemsAreSorted, StepsStaySorted};
ghost use Rattle.fm_elab.specs.Stacks.{start};

/// All that stands in an assertion stack is closed and well sorted over what is declared there, from the start and after
/// every command, and so is what is in force at a command. It is a law of the definitions and does nothing.
pub fn stacks_stay_sorted()
    ensures start { IsSortedState start }
    ensures steps { StepsStaySorted }
    ensures problems { ProblemsAreSorted }
{}

/// Names are distinct within their kind, from the start and after every command, and so are the names of what is declared
/// at a command. It is a law of the definitions and does nothing.
pub fn names_stay_distinct()
    ensures start { IsNamedState start }
    ensures steps { StepsKeepNames }
    ensures problems { ProblemsAreNamed }
{}
