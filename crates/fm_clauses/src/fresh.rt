ghost use Rattle.std.specs.Prelude.{◌≡◌, ◌==◌, ◌&&◌, ◌++◌, ◌∷◌, [], ℕ, cond, slice_get, IfOk};
ghost use Rattle.fm_clauses.specs.Assertions.{all_ground, all_grounds, atom_has_ground, constant_of, fresh_constants, grounds, has_ground, is_result, is_type, some_of_sort};
ghost use Rattle.fm_clauses.specs.Marked.{Marks, clauses_have, literals_have, marked};

use fm_bank::{Clause, Plit};
use fm_base::{Memory, Patom, Pterm, Rank, Sig, SortId, SymId, Ty};
use sqlite_items::Items;
use std::alloc::Global;

fn mark(s: usize, marks: &mut Vec<bool>)
    ensures { Marks (λ k. s == k) marks.old.items marks.new.items }
{
    if s < marks.len() {
        marks[s] = true;
    }
}

fn mark_type(ty: Ty, marks: &mut Vec<bool>)
    ensures { Marks (is_type ty) marks.old.items marks.new.items }
{
    match ty {
        Ty::Bool => {}
        Ty::Of(sort) => mark(sort.0, marks),
    }
}

fn mark_result(sig: &Sig, symbol: SymId, marks: &mut Vec<bool>)
    ensures { Marks (is_result (slice_get sig.now.ranks symbol.0)) marks.old.items marks.new.items }
{
    match sig.ranks.get(symbol.0) {
        None => {}
        Some(rank) => mark_type(rank.result, marks),
    }
}

fn both(a: bool, b: bool) -> bool
    ensures { result ≡ (a && b) }
{
    a && b
}

// The result's sort, where all arguments are ground.
fn mark_applied(sig: &Sig, symbol: SymId, all: bool, marks: &mut Vec<bool>)
    ensures { Marks (λ s. all && is_result (slice_get sig.now.ranks symbol.0) s) marks.old.items marks.new.items }
{
    if all {
        mark_result(sig, symbol, marks);
    }
}

// Marks the sorts of the ground terms that stand in a term, and tells whether it is ground itself.
#[cycle(mark)]
fn mark_term(sig: &Sig, term: &Pterm, marks: &mut Vec<bool>) -> bool
    ensures ground { result ≡ (grounds sig.now term.now).ground }
    ensures sorts { Marks ((grounds sig.now term.now).of_sort) marks.old.items marks.new.items }
{
    match term {
        Pterm::Var(_) => false,
        Pterm::App(symbol, terms) => {
            let all = mark_terms(sig, terms.as_slice(), marks);
            mark_applied(sig, *symbol, all, marks);
            all
        }
    }
}

#[cycle(mark)]
fn mark_terms(sig: &Sig, terms: &[Pterm], marks: &mut Vec<bool>) -> bool
    ensures ground { result ≡ all_ground (all_grounds sig.now terms.now) }
    ensures sorts { Marks (some_of_sort (all_grounds sig.now terms.now)) marks.old.items marks.new.items }
{
    let mut all = true;
    for term in terms {
        let ground = mark_term(sig, term, marks);
        all = both(all, ground);
    }
    all
}

fn mark_atom(sig: &Sig, atom: &Patom, marks: &mut Vec<bool>)
    ensures { Marks (λ s. atom_has_ground sig.now s atom.now) marks.old.items marks.new.items }
{
    match atom {
        Patom::Pred(_, terms) => {
            mark_terms(sig, terms.as_slice(), marks);
        }
        Patom::Equal(left, right) => {
            mark_term(sig, right, marks);
            mark_term(sig, left, marks);
        }
    }
}

fn mark_literals(sig: &Sig, lits: &[Plit], marks: &mut Vec<bool>)
    ensures { Marks (literals_have sig.now lits.now) marks.old.items marks.new.items }
{
    for lit in lits {
        mark_atom(sig, &lit.atom, marks);
    }
}

fn mark_clauses(sig: &Sig, clauses: &[Clause], marks: &mut Vec<bool>)
    ensures { Marks (clauses_have sig.now clauses.now) marks.old.items marks.new.items }
{
    for clause in clauses {
        mark_literals(sig, clause.lits.as_slice(), marks);
    }
}

fn push_constant(alloc: Global, sort: usize, ranks: &mut Vec<Rank>) -> Result<(), Memory>
    ensures { IfOk result (λ _. ranks.new.items ≡ ranks.old.items ++ constant_of sort ∷ []) }
{
    let args = Items::from_vec(Vec::new(alloc));
    ranks.push(Rank {
        args,
        result: Ty::Of(SortId(sort)),
    })?;
    Ok(())
}

fn is_marked(marks: &[bool], sort: usize) -> bool
    ensures { result ≡ marked marks.now sort }
{
    match marks.get(sort) {
        None => true,
        Some(mark) => *mark,
    }
}

fn push_unmarked(
    alloc: Global,
    marks: &[bool],
    sort: usize,
    ranks: &mut Vec<Rank>,
) -> Result<(), Memory>
    ensures { IfOk result (λ _. ranks.new.items ≡ ranks.old.items ++ cond (marked marks.now sort) []
        (constant_of sort ∷ [])) }
{
    if is_marked(marks, sort) {
        return Ok(());
    }
    push_constant(alloc, sort, ranks)?;
    Ok(())
}

fn push_all_unmarked(
    alloc: Global,
    sorts: usize,
    marks: &[bool],
    ranks: &mut Vec<Rank>,
) -> Result<(), Memory>
    ensures { IfOk result (λ _. ranks.new.items ≡ ranks.old.items ++ fresh_constants sorts (marked marks.now)) }
{
    for sort in 0..sorts {
        push_unmarked(alloc, marks, sort, ranks)?;
    }
    Ok(())
}

// Constants for the sorts of which no ground term stands in the clauses.
pub(crate) fn push_fresh(
    alloc: Global,
    sig: &Sig,
    clauses: &[Clause],
    ranks: &mut Vec<Rank>,
) -> Result<(), Memory>
    ensures { IfOk result (λ _. ranks.new.items ≡ ranks.old.items ++ fresh_constants sig.now.sorts
        (has_ground sig.now clauses.now)) }
{
    let mut marks = Vec::new(alloc);
    marks.resize(sig.sorts, false)?;
    mark_clauses(sig, clauses, &mut marks);
    push_all_unmarked(alloc, sig.sorts, marks.as_slice(), ranks)?;
    Ok(())
}
