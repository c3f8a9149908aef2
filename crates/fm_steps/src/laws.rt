ghost use Rattle.fm_steps.specs.Bounds.{BoundIsFirst, BoundIsOpen, DecisionsAreLarge, InstancesStand, SizesAreInRow, StartStays, ZeroIsImplied};
ghost use Rattle.fm_steps.specs.Facts.{AtomsAreKnown, ClausesAreGuarded, HeadsAreWithin, InstancesAreCounted, IsLawful, PicksAreKnown, SizesAreAssumed, SmallerAreRefuted, TrailIsExplained};
ghost use Rattle.fm_steps.specs.Fitting.{DecisionsAreAtoms, InstancesAreTyped, SplitsAreAtoms};
ghost use Rattle.fm_steps.specs.Going.{BoundsAreCounted, MenusAreNotEmpty, RunsAreWithinBudget, RunsBegin, StatesSettle, StepsExist, StepsGoOn};
ghost use Rattle.fm_steps.specs.Grounded.{TestsAreTyped};
ghost use Rattle.fm_steps.specs.Lines.{BoundsAreWritten, LemmasAreLines, RowsAreWritten, RunsFollow, RunsHaveLines, RunsStayHeld, SettlingWritesNothing, StartIsWritten, StartsHeld, StepsStayHeld};
ghost use Rattle.fm_steps.specs.Offered.{AreClausesDistinct, FalseLemmasAreNew, ImplyIsDue, InstanceFails, LemmaIsDue, PicksHold, RaiseIsMet, SatIsMet, UnitLemmasAreNew, UnitLemmasAreNewInRuns};
ghost use Rattle.fm_steps.specs.Progress.{RunsSpend, StepsLeaveLess, StretchesEnd, TurnsAreFew};
ghost use Rattle.fm_steps.specs.Readers.{ReadersCloseLevels, ReadersGoBack, ReadersStay};
ghost use Rattle.fm_steps.specs.Ready.{DecideIsReady, InstanceIsReady, LearnIsReady, RaiseIsReady, SatIsReady, SplitIsReady, TakeIsReady, TurnIsReady, UnitIsReady, UnsatIsReady};
ghost use Rattle.fm_steps.specs.Searchable.{AddedAreTerms, ContentsAreGrounded, InstanceIsMet, InstancesHold, LastStandsAlone, RunsHaveStartTerms, SatIsExact, SearchableAreSorted, SumIsWithin};
ghost use Rattle.fm_steps.specs.Soundness.{HoldsInModels, NoneIsRefuted, SumIsReached, ZeroIsTrue};
ghost use Rattle.fm_steps.specs.Laws.{AnswersEndRuns, EachIsKnown, HasAtStart, HoldsInRuns, IsKeptByMoves, IsKeptBySteps, IsLeftByMoves, RunsAreCounted, WrongEventsEndNoRun};

/// The start is lawful, no positive size literal stands at level 0, and the equalities of its cliques are known. It is a
/// law of the definitions and does nothing.
pub fn start_is_lawful()
    ensures lawful { HasAtStart IsLawful }
    ensures sizes { HasAtStart (λ p s. SizesAreAssumed s) }
    ensures picks { HasAtStart (λ p s. PicksAreKnown s) }
{}

/// What each event leaves whose row is met in a lawful state, offered or not. It is a law of the definitions and does
/// nothing.
pub fn events_keep()
    ensures trail { IsLeftByMoves (λ p s. TrailIsExplained s) }
    ensures heads { IsLeftByMoves (λ p s. HeadsAreWithin s) }
    ensures instances { IsLeftByMoves (λ p s. InstancesAreCounted s) }
    ensures atoms { IsLeftByMoves (λ p s. AtomsAreKnown s) }
    ensures bounds { IsLeftByMoves (λ p s. SmallerAreRefuted p.sig.sorts s) }
    ensures guards { IsLeftByMoves (λ p s. ClausesAreGuarded s) }
    ensures picks { IsLeftByMoves (λ p s. PicksAreKnown s) }
{}

/// Each step, which the menu offers, leaves no positive size literal at level 0, and none in the free phase. It is a law
/// of the definitions and does nothing.
pub fn steps_keep()
    ensures { IsKeptBySteps SizesAreAssumed }
{}

/// What holds in every state of a run. It is a law of the definitions and does nothing.
pub fn runs_are_lawful()
    ensures trail { HoldsInRuns (λ p s. TrailIsExplained s) }
    ensures heads { HoldsInRuns (λ p s. HeadsAreWithin s) }
    ensures instances { HoldsInRuns (λ p s. InstancesAreCounted s) }
    ensures atoms { HoldsInRuns (λ p s. AtomsAreKnown s) }
    ensures bounds { HoldsInRuns (λ p s. SmallerAreRefuted p.sig.sorts s) }
    ensures guards { HoldsInRuns (λ p s. ClausesAreGuarded s) }
    ensures sizes { HoldsInRuns (λ p s. SizesAreAssumed s) }
    ensures picks { HoldsInRuns (λ p s. PicksAreKnown s) }
    ensures counts { RunsAreCounted }
{}

/// A run that a wrong event ends isn't one, nor is one that goes on after its answer. It is a law of the definitions and
/// does nothing.
pub fn runs_follow_the_menu()
    ensures offered { WrongEventsEndNoRun }
    ensures answered { AnswersEndRuns }
{}

/// What a reader has read goes back with the trail: a level that is open for it closes, and where it isn't open nothing
/// changes. It is a law of the definitions and does nothing.
pub fn readers_go_back()
    ensures read { ReadersGoBack }
    ensures closed { ReadersCloseLevels }
    ensures same { ReadersStay }
{}

/// What the menu offers can be done: of each offer, what its row asks for by the clauses, the trail and the candidate. It is
/// a law of the definitions and does nothing.
pub fn offers_are_ready()
    ensures learn { LearnIsReady }
    ensures unsat { UnsatIsReady }
    ensures unit { UnitIsReady }
    ensures take { TakeIsReady }
    ensures turn { TurnIsReady }
    ensures decide { DecideIsReady }
    ensures split { SplitIsReady }
    ensures instance { InstanceIsReady }
    ensures sat { SatIsReady }
    ensures raise { RaiseIsReady }
{}

/// In each state there are tests that say what the two readers of equalities know, since congruence closure can be computed;
/// and in a run that of Congruence is a congruence that keeps types. It is a law of the definitions and does nothing.
pub fn states_are_known()
    ensures known { EachIsKnown }
    ensures typed { TestsAreTyped }
{}

/// A lemma that is due is the clause of a good line of a certificate: of congruence closure, of a cardinality, of the sum or
/// of order. It is a law of the definitions and does nothing.
pub fn lemmas_are_lines()
    ensures { LemmasAreLines }
{}

/// What each event whose row is met adds to the terms and to the clause list is what its lines make: a resolution, the line of
/// a lemma, or an instance behind its new terms. It is a law of the definitions and does nothing.
pub fn rows_are_written()
    ensures { RowsAreWritten }
{}

/// The lines of the start make its terms and clauses, and the choice of tests adds nothing to them. It is a law of the
/// definitions and does nothing.
pub fn start_is_written()
    ensures lines { StartIsWritten }
    ensures settled { SettlingWritesNothing }
{}

/// Terms, atoms and tests are over the problem's signature at the start and stay so. It is a law of the definitions and does
/// nothing.
pub fn terms_stay_held()
    ensures start { StartsHeld }
    ensures steps { StepsStayHeld }
    ensures runs { RunsStayHeld }
{}

/// Every state of a run has lines that make its terms and its clause list, where the numbers in its atoms can be written; so
/// its clauses follow from the problem's. It is a law of the definitions and does nothing.
pub fn runs_are_written()
    ensures lines { RunsHaveLines }
    ensures follow { RunsFollow }
    ensures numbers { BoundsAreWritten }
{}

/// The lemmas of the start, that no sort is empty and that the sum isn't below the number of sorts, stay in the clause list.
/// It is a law of the definitions and does nothing.
pub fn the_start_stays()
    ensures start { HasAtStart StartStays }
    ensures moves { IsKeptByMoves StartStays }
    ensures runs { HoldsInRuns StartStays }
{}

/// In every state of a run entries of level 0 are implied; where a decision stands no sort is empty and no bound below the
/// number of sorts open at level 0; and in the bounded phase the first decision is that of the bound, so the bound has no
/// value, is false at level 0, or is that decision. It is a law of the definitions and does nothing.
pub fn runs_decide_the_bound()
    ensures zero_level { HoldsInRuns (λ p s. ZeroIsImplied s) }
    ensures large { HoldsInRuns DecisionsAreLarge }
    ensures first { HoldsInRuns (λ p s. BoundIsFirst s) }
    ensures bound { HoldsInRuns (λ p s. BoundIsOpen s) }
{}

/// The known size atoms of every state of a run stand in a row, and the test of a sort is of a true one. It is a law of the
/// definitions and does nothing.
pub fn sizes_are_in_row()
    ensures row { HoldsInRuns SizesAreInRow }
    ensures tests { HoldsInRuns (λ p s. PicksHold s) }
{}

/// Where Raise is offered in a run its row is met: every clause has a true literal, and nothing is due. A lemma that is false
/// or unit isn't in the list, where no clause is. Answer Sat is met where it is offered, and an instance that is offered fails
/// in the candidate. It is a law of the definitions and does nothing.
pub fn offers_are_met()
    ensures raise { RaiseIsMet }
    ensures false_lemma { FalseLemmasAreNew }
    ensures unit_lemma { UnitLemmasAreNew }
    ensures sat { SatIsMet }
    ensures instance { InstanceFails }
{}

/// A lemma that is offered in a run is due: there is one, its atoms are known, and it is false, or unit for Imply. It is a law
/// of the definitions and does nothing.
pub fn lemmas_are_due()
    ensures lemma { LemmaIsDue }
    ensures imply { ImplyIsDue }
{}

/// What a run has shown of every interpretation that satisfies its problem's clauses: literals of level 0 are true in it, its
/// sum isn't below the bound, and no clause is false at level 0. It is a law of the definitions and does nothing.
pub fn runs_are_sound()
    ensures zero_level { HoldsInModels ZeroIsTrue }
    ensures sum { HoldsInModels SumIsReached }
    ensures refuted { HoldsInModels NoneIsRefuted }
{}

/// An instance that was added in a run is of a clause, over terms of its variables' sorts, and its clause stands in the list.
/// It is a law of the definitions and does nothing.
pub fn instances_stand()
    ensures { InstancesStand }
{}

/// Why a search ends. Each step of a run but a decision, an instance and an answer makes less what can still be done before
/// the next of these, so a stretch of such steps is no longer than that, and has no more of Turn and Raise than can come, which
/// are two at most; and decisions and instances alone take of the budgets. It is a law of the definitions and does nothing.
pub fn steps_leave_less()
    ensures steps { StepsLeaveLess }
    ensures stretches { StretchesEnd }
    ensures turns { TurnsAreFew }
    ensures budgets { RunsSpend }
{}

/// No clause of a state of a run has a literal twice; so a lemma that is unit isn't in the list, where no clause is unit. It
/// is a law of the definitions and does nothing.
pub fn clauses_stay_distinct()
    ensures start { HasAtStart (λ p s. AreClausesDistinct s) }
    ensures moves { IsKeptByMoves (λ p s. AreClausesDistinct s) }
    ensures runs { HoldsInRuns (λ p s. AreClausesDistinct s) }
    ensures unit_lemma { UnitLemmasAreNewInRuns }
{}

/// What a run knows of the candidate, where the clauses are as a search asks for: the terms at the start are registered, what
/// was added is over terms, and what the candidate is made of fits together. It is a law of the definitions and does nothing.
pub fn contents_are_grounded()
    ensures sorted { SearchableAreSorted }
    ensures start { RunsHaveStartTerms }
    ensures added { AddedAreTerms }
    ensures grounded { ContentsAreGrounded }
{}

/// Where groups 1 to 6 of the menu are empty in the bounded phase of a run, the added instances over representatives are true
/// in the candidate; so an instance that is offered is new, and its row is met where the budget isn't spent. It is a law of the
/// definitions and does nothing.
pub fn offered_instances_are_met()
    ensures alone { LastStandsAlone }
    ensures added { InstancesHold }
    ensures instance { InstanceIsMet }
{}

/// Where groups 1 to 6 of the menu are empty in the bounded phase of a run, the candidate's sizes don't add up to more than the
/// bound; and where Answer Sat is offered they add up to it, and the bound below is false at level 0. It is a law of the
/// definitions and does nothing.
pub fn sat_is_exact()
    ensures within { SumIsWithin }
    ensures exact { SatIsExact }
{}

/// In every state of a run the menu has an offer, and the row of what is carried out for an offer is met; no count passes its
/// budget, and the bound no more than the number of sorts and the decisions together. The tests can be chosen in each state, so
/// a run can begin, and each offer is a step. It is a law of the definitions and does nothing.
pub fn steps_go_on()
    ensures menu { MenusAreNotEmpty }
    ensures budget { RunsAreWithinBudget }
    ensures bounds { BoundsAreCounted }
    ensures rows { StepsGoOn }
    ensures settled { StatesSettle }
    ensures start { RunsBegin }
    ensures steps { StepsExist }
{}

/// What is carried out is over the registered terms: what stands for the variables of an instance has their sorts, and what is
/// decided or split is an atom over the terms. It is a law of the definitions and does nothing.
pub fn events_fit()
    ensures instances { InstancesAreTyped }
    ensures splits { SplitsAreAtoms }
    ensures decisions { DecisionsAreAtoms }
{}
