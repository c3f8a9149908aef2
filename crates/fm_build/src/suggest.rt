ghost use Rattle.std.specs.Prelude.{◌≡◌, true, IfOk, OnOk};
ghost use Rattle.fm_base.specs.Interpretations.{is_fit};
ghost use Rattle.fm_cong.specs.Held.{IsSettled};
ghost use Rattle.fm_rounds.specs.Failing.{numbered};
ghost use Rattle.fm_build.specs.Parts.{AreFirstOrder, AreInstancesOver, CandidateHoldsBy};
ghost use Rattle.fm_build.specs.Parts.{IsBankFor, IsCandidateBy, IsGraphOver};

use crate::assembly::assembled;
use crate::classes::{classes_of, truths_of, types_of};
use crate::instances::put_instances;
use crate::start::start_of;
use fm_bank::{Bank, ClauseSet};
use fm_base::{Memory, TermId};
use fm_cong::Egraph;
use fm_rounds::Candidate;
use sqlite_items::Items;
use std::alloc::Global;

/// The candidate that the classes of the graph suggest, round by round: round 0 has the ground terms of the clauses and the
/// fresh constants, and each next round the terms of the added instances over representatives. It stands for all tests of the
/// graph, which agree. An added instance is a place in the clauses and a term for each variable; one whose place is behind
/// the clauses has no terms. Nothing is interned.
pub fn candidate(
    alloc: Global,
    clauses: &ClauseSet,
    bank: &Bank,
    graph: &Egraph,
    added: &[(usize, Items<TermId>)],
) -> Result<Candidate, Memory>
    requires clauses { AreFirstOrder clauses.now }
    requires bank { IsBankFor clauses.now bank.now }
    requires settled { IsSettled graph.now }
    requires graph { IsGraphOver bank.now graph.now }
    requires added { AreInstancesOver bank.now (numbered added.now) }
    ensures candidate { IfOk result (IsCandidateBy clauses.now bank.now graph.now (numbered added.now)) }
    ensures fits { IfOk result (λ k. is_fit clauses.now.sig k.interp ≡ true) }
    ensures holds { OnOk result (CandidateHoldsBy clauses.now bank.now graph.now (numbered added.now)) }
{
    bank.one_number_per_term();
    graph.has_tests();
    let start = start_of(alloc, clauses, bank)?;
    let mut instances = Vec::new(alloc);
    put_instances(alloc, clauses, bank, added, &mut instances)?;
    let class = classes_of(alloc, bank, graph)?;
    let types = types_of(alloc, bank)?;
    let holds = truths_of(alloc, bank, graph)?;
    let built = assembled(
        alloc,
        bank,
        class.as_slice(),
        types.as_slice(),
        holds.as_slice(),
        start.as_slice(),
        instances.as_slice(),
    )?;
    Ok(built)
}
