ghost use Rattle.fm_rounds.specs.Fresh.{FreshConstantsFit};
ghost use Rattle.fm_rounds.specs.Soundness.{AddedAreTrue, CandidatesHold, ClausesAgree, FailingIsNew, FirstFailingIsLeast, InstanceTermsHold, InstancesAreReached, StartTermsHold, StartsAreInhabited, TablesAreWritten, TablesHaveOneForm, TablesReadAlike};

/// The first failing clause and its tuple are what the textbook says of them, and there are none exactly where each clause
/// holds; and where the added instances are true, the first failing one is none of them. It is a law of the definitions and
/// does nothing.
pub fn first_failing_is_least()
    ensures least { FirstFailingIsLeast }
    ensures new { FailingIsNew }
{}

/// An interpretation written as tables fits its signature and reads as itself; and a table has one form. It is a law of the
/// definitions and does nothing.
pub fn tables_are_written()
    ensures written { TablesAreWritten }
    ensures form { TablesHaveOneForm }
{}

/// What the candidate of a congruence is good for. It is a law of the definitions and does nothing.
pub fn candidate_holds()
    ensures { CandidatesHold }
{}

/// Interpretations that agree at tuples of elements agree on well sorted clauses. It is a law of the definitions and does
/// nothing.
pub fn clauses_agree()
    ensures { ClausesAgree }
{}

/// The terms of an instance, and those at the start, are terms with their arguments, and have the terms of the instance's
/// literals. It is a law of the definitions and does nothing.
pub fn instance_terms_hold()
    ensures instance { InstanceTermsHold }
    ensures start { StartTermsHold }
{}

/// With the fresh constants each sort has a term at the start; and what is put behind the symbols of well sorted clauses, one
/// constant for each sort without a ground term, are the fresh constants. It is a law of the definitions and does nothing.
pub fn starts_are_inhabited()
    ensures inhabited { StartsAreInhabited }
    ensures fresh { FreshConstantsFit }
{}

/// Rounds come to an end, so the terms of an added instance over representatives are reached; and where the test makes a
/// literal of it true, it is true in the candidate. It is a law of the definitions and does nothing.
pub fn instances_are_reached()
    ensures reached { InstancesAreReached }
    ensures added { AddedAreTrue }
{}

/// The candidate and its tables have one sum of sizes, and are alike in what fails and in which added instances are true. It
/// is a law of the definitions and does nothing.
pub fn tables_read_alike()
    ensures { TablesReadAlike }
{}
