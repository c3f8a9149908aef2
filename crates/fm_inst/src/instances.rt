ghost use Rattle.std.specs.Prelude.{◌≡◌, map, length, slice_get, true, IfOk};
ghost use Rattle.std.specs.Option.{option_map};
ghost use Rattle.fm_base.specs.Interpretations.{is_fit, reading_of};
ghost use Rattle.fm_inst.specs.Answers.{AnswersLeastIn, AreTrueIn, IsNew, are_sorted, first_failing_in, found_instance, term_in, terms_of as terms_of_elements};
ghost use Rattle.fm_inst.specs.Depths.{AreReady, IsReady, IsWithin, literal_depth};
ghost use Rattle.fm_inst.specs.Lookup.{tables_ascend};
ghost use Rattle.fm_rounds.specs.Failing.{failing_instance, failing_tuple as failing_tuple_of, numbered, numbered_reps, sizes_of};

use crate::depths::atom_depth;
use crate::linked::levels_of;
use crate::lookup::size;
use crate::search::least_failing;
use fm_bank::{Clause, ClauseSet, Plit};
use fm_base::{Interp, Memory, SortId, TermId};
use fm_rounds::{Candidate, Failing};
use sqlite_items::Items;
use std::alloc::Global;

fn sort_sizes(alloc: Global, interp: &Interp, vars: &[SortId]) -> Result<Vec<u64>, Memory>
    ensures { IfOk result (λ v. v.items ≡ sizes_of (reading_of interp.now) vars.now) }
{
    let mut sizes = Vec::new(alloc);
    for sort in vars {
        sizes.push(size(interp, *sort))?;
    }
    Ok(sizes)
}

fn depths(alloc: Global, lits: &[Plit], limit: usize) -> Result<Vec<usize>, Memory>
    requires { IsWithin lits.now limit }
    ensures { IfOk result (λ v. v.items ≡ map literal_depth lits.now) }
{
    let mut depths = Vec::new(alloc);
    for lit in lits {
        depths.push(atom_depth(&lit.atom))?;
    }
    Ok(depths)
}

// The least tuple of elements at which no literal of the clause is true.
fn failing_tuple(
    alloc: Global,
    interp: &Interp,
    clause: &Clause,
) -> Result<Option<Vec<u64>>, Memory>
    requires tables { tables_ascend interp.now ≡ true }
    requires ready { IsReady (reading_of interp.now) clause.now }
    ensures { IfOk result (λ o. option_map (λ v. v.items) o ≡ failing_tuple_of (reading_of interp.now) clause.now) }
{
    let lits = clause.lits.as_slice();
    let sizes = sort_sizes(alloc, interp, clause.vars.as_slice())?;
    let depths = depths(alloc, lits, sizes.len())?;
    let levels = levels_of(alloc, depths.as_slice(), sizes.len())?;
    let mut env = vec![in alloc; 0; sizes.len()]?;
    let mut args = Vec::new(alloc);
    let found = least_failing(
        interp,
        lits,
        &levels,
        sizes.as_slice(),
        env.as_mut_slice(),
        &mut args,
    )?;
    Ok(if found { Some(env) } else { None })
}

fn term_of(reps: &Items<Items<TermId>>, sort: SortId, element: u64) -> TermId
    ensures { result ≡ term_in (slice_get reps.now sort.0) element }
{
    match reps.as_slice().get(sort.0) {
        None => TermId(0),
        Some(terms) => terms
            .as_slice()
            .get(element as usize)
            .copied()
            .unwrap_or(TermId(0)),
    }
}

// The terms that stand for the elements.
fn terms_of(
    alloc: Global,
    reps: &Items<Items<TermId>>,
    vars: &[SortId],
    tuple: &[u64],
) -> Result<Items<TermId>, Memory>
    requires { length tuple.now ≡ length vars.now }
    ensures { IfOk result (λ ts. ts ≡ terms_of_elements reps.now vars.now tuple.now) }
{
    let mut terms = Items::new(alloc);
    for (place, sort) in vars.iter().enumerate() {
        terms.push(term_of(reps, *sort, tuple[place]))?;
    }
    Ok(terms)
}

// The first clause that fails, with its least tuple as terms.
fn first_failing(
    alloc: Global,
    interp: &Interp,
    reps: &Items<Items<TermId>>,
    clauses: &[Clause],
) -> Result<Option<Failing>, Memory>
    requires tables { tables_ascend interp.now ≡ true }
    requires ready { AreReady (reading_of interp.now) clauses.now }
    ensures { IfOk result (λ o. found_instance o ≡ failing_instance (reading_of interp.now) (numbered_reps reps.now) clauses.now) }
{
    for (place, clause) in clauses.iter().enumerate() {
        if let Some(tuple) = failing_tuple(alloc, interp, clause)? {
            let terms = terms_of(alloc, reps, clause.vars.as_slice(), tuple.as_slice())?;
            return Ok(Some(Failing {
                clause: place,
                terms,
            }));
        }
    }
    Ok(None)
}

/// The first clause that is false in the candidate, with the least tuple of elements at which it is, as terms. None where the
/// candidate satisfies all clauses. The instances that were added are looked at by the contract alone: where they are true,
/// the answer is none of them.
pub fn failing(
    alloc: Global,
    clauses: &ClauseSet,
    candidate: &Candidate,
    added: &[(usize, Items<TermId>)],
) -> Result<Option<Failing>, Memory>
    requires fits { is_fit clauses.now.sig candidate.now.interp ≡ true }
    requires sorted { are_sorted clauses.now ≡ true }
    requires added { AreTrueIn clauses.now candidate.now added.now }
    ensures first { IfOk result (λ o. found_instance o ≡ first_failing_in clauses.now candidate.now) }
    ensures least { IfOk result (AnswersLeastIn clauses.now candidate.now) }
    ensures new { IfOk result (λ o. IsNew (numbered added.now) (found_instance o)) }
{
    let _added = added;
    first_failing(
        alloc,
        &candidate.interp,
        &candidate.reps,
        clauses.clauses.as_slice(),
    )
}
