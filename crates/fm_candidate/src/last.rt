ghost use Rattle.std.specs.Prelude.{◌≡◌, IfOk};
ghost use Rattle.fm_bank.specs.Tests.{Tests};
ghost use Rattle.fm_candidate.specs.Found.{IsFound, IsLast, outcome_of};
ghost use Rattle.fm_cong.specs.Held.{IsSettled};
ghost use Rattle.fm_cong.specs.Tests.{AreTestsOf};
ghost use Rattle.fm_rounds.specs.Failing.{numbered};
ghost use Rattle.fm_rounds.specs.Rounds.{content_of};
ghost use Rattle.fm_steps.specs.Searchable.{IsSearchable};

use crate::found::Found;
use fm_bank::{Bank, ClauseSet};
use fm_base::{Memory, TermId};
use fm_build::candidate;
use fm_cong::Egraph;
use fm_inst::failing;
use fm_rounds::{Candidate, Failing, tables_read_alike};
use fm_steps::{
    contents_are_grounded, offered_instances_are_met, states_are_known, terms_stay_held,
};
use sqlite_items::Items;
use std::alloc::Global;

fn outcome(suggested: Candidate, failing: Option<Failing>) -> Found
    ensures { result ≡ outcome_of suggested.interp failing }
{
    match failing {
        None => Found::Model(suggested.interp),
        Some(Failing { clause, terms }) => Found::Instance { clause, terms },
    }
}

/// The candidate of the graph of Congruence, if it satisfies the clauses, else the first instance that is false in it. It
/// answers for all tests of the graph, which agree. An added instance is a place in the clauses and a term for each
/// variable, in the order in which they were added.
pub fn first_failing(
    alloc: Global,
    clauses: &ClauseSet,
    bank: &Bank,
    graph: &Egraph,
    added: &[(usize, Items<TermId>)],
) -> Result<Found, Memory>
    requires clauses { IsSearchable clauses.now }
    requires settled { IsSettled graph.now }
    requires last { IsLast clauses.now bank.now graph.now (numbered added.now) }
    ensures { IfOk result (λ f. (t : Tests) → AreTestsOf graph.now t → IsFound clauses.now (content_of clauses.now bank.now.terms t.same (numbered added.now)) f) }
{
    states_are_known();
    contents_are_grounded();
    offered_instances_are_met();
    terms_stay_held();
    tables_read_alike();
    graph.has_tests();
    let suggested = candidate(alloc, clauses, bank, graph, added)?;
    let first = failing(alloc, clauses, &suggested, added)?;
    Ok(outcome(suggested, first))
}
