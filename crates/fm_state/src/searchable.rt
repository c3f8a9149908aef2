ghost use Rattle.std.specs.Prelude.{◌≡◌, ◌&&◌, ◌↔◌, true, map, IfOk};
ghost use Rattle.std.specs.List.{filter, list_all, range_with_len};
ghost use Rattle.fm_base.specs.Interpretations.{is_sort_of, names_its_sorts};
ghost use Rattle.fm_bank.specs.Sorted.{is_sorted_clause};
ghost use Rattle.fm_rounds.specs.Fresh.{HasFreshConstants, constant_of};
ghost use Rattle.fm_rounds.specs.Grounds.{is_declared};
ghost use Rattle.fm_state.specs.Begins.{is_bare_in};
ghost use Rattle.fm_state.specs.Searched.{IsWellSorted, takes_declared};
ghost use Rattle.fm_steps.specs.Searchable.{IsSearchable};

use crate::start::{bare_sorts, has_none_of, is_of, put_clauses};
use fm_bank::{Bank, Clause, ClauseSet};
use fm_base::{Memory, Rank, Sig, SortId, Ty};
use std::alloc::Global;

/// Whether a search can be asked for a model of the clauses: ranks name sorts of the signature, no symbol has an argument of
/// sort Bool, clauses are well sorted, and the last symbols are the fresh constants, one for each sort of which the clauses
/// have no term without variables, in the order of the sorts.
pub fn is_searchable(alloc: Global, clauses: &ClauseSet) -> Result<bool, Memory>
    ensures { IfOk result (λ b. (b ≡ true) ↔ IsSearchable clauses.now) }
{
    if !are_well_sorted(clauses) {
        return Ok(false);
    }
    has_fresh_constants(alloc, clauses)
}

fn are_well_sorted(clauses: &ClauseSet) -> bool
    ensures { (result ≡ true) ↔ IsWellSorted clauses.now }
{
    names_sorts(&clauses.sig)
        && take_declared(clauses.sig.ranks.as_slice())
        && are_sorted(&clauses.sig, clauses.clauses.as_slice())
}

fn is_sort(sorts: usize, ty: Ty) -> bool
    ensures { result ≡ is_sort_of sorts ty }
{
    match ty {
        Ty::Bool => true,
        Ty::Of(sort) => sort.0 < sorts,
    }
}

fn are_sorts(sorts: usize, types: &[Ty]) -> bool
    ensures { result ≡ list_all (is_sort_of sorts) types.now }
{
    types.iter().all(|ty| is_sort(sorts, *ty))
}

fn rank_names_sorts(sorts: usize, rank: &Rank) -> bool
    ensures { result ≡ (list_all (is_sort_of sorts) rank.now.args && is_sort_of sorts rank.now.result) }
{
    are_sorts(sorts, rank.args.as_slice()) && is_sort(sorts, rank.result)
}

fn names_sorts(sig: &Sig) -> bool
    ensures { result ≡ names_its_sorts sig.now }
{
    sig.ranks
        .as_slice()
        .iter()
        .all(|rank| rank_names_sorts(sig.sorts, rank))
}

fn is_declared_sort(ty: Ty) -> bool
    ensures { result ≡ is_declared ty }
{
    match ty {
        Ty::Bool => false,
        Ty::Of(_) => true,
    }
}

fn has_declared_arguments(rank: &Rank) -> bool
    ensures { result ≡ takes_declared rank.now }
{
    rank.args.as_slice().iter().all(|ty| is_declared_sort(*ty))
}

fn take_declared(ranks: &[Rank]) -> bool
    ensures { result ≡ list_all takes_declared ranks.now }
{
    ranks.iter().all(|rank| has_declared_arguments(rank))
}

fn are_sorted(sig: &Sig, clauses: &[Clause]) -> bool
    ensures { result ≡ list_all (is_sorted_clause sig.now) clauses.now }
{
    clauses.iter().all(|clause| clause.is_sorted(sig))
}

fn is_constant(rank: &Rank, sort: SortId) -> bool
    ensures { (result ≡ true) ↔ (rank.now ≡ constant_of sort.0) }
{
    rank.args.is_empty() && is_of(rank.result, sort)
}

// Whether these are constants, one for each sort that has no term.
fn are_fresh(bank: &Bank, ranks: &[Rank]) -> bool
    ensures { (result ≡ true) ↔ (ranks.now ≡ map constant_of (filter (is_bare_in bank.now.sig bank.now.terms) (range_with_len 0 bank.now.sig.sorts))) }
{
    let mut left = ranks;
    for sort in 0..bank.sig().sorts {
        if has_none_of(bank, SortId(sort)) {
            let Some((rank, behind)) = left.split_first() else {
                return false;
            };
            if !is_constant(rank, SortId(sort)) {
                return false;
            }
            left = behind;
        }
    }
    left.is_empty()
}

fn has_fresh_constants(alloc: Global, clauses: &ClauseSet) -> Result<bool, Memory>
    requires { list_all (is_sorted_clause clauses.now.sig) clauses.now.clauses ≡ true }
    ensures { IfOk result (λ b. (b ≡ true) ↔ HasFreshConstants clauses.now) }
{
    let mut bank = Bank::new(alloc, &clauses.sig)?;
    put_clauses(&mut bank, clauses.clauses.as_slice())?;
    let ranks = clauses.sig.ranks.as_slice();
    let first = ranks.len().saturating_sub(bare_sorts(&bank));
    Ok(are_fresh(&bank, &ranks[first..]))
}
