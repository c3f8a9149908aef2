ghost use Rattle.std.specs.Prelude.{◌≡◌, ◌-◌, ◌≤◌, true, length, ◌++◌, Some, IfOk, OnOk};
ghost use Rattle.std.specs.List.{list_all, list_any};
ghost use Rattle.fm_base.specs.declared.signature.Ty.{Ty as TheTy};
ghost use Rattle.fm_bank.specs.Sorted.{is_sorted_clause};
ghost use Rattle.fm_bank.specs.Terms.{is_type};
ghost use Rattle.fm_rounds.specs.InstanceTerms.{clauses_ground_grown, ground_terms, is_term_of, start_terms};
ghost use Rattle.fm_build.specs.Fresh.{bare_count as bare_count_of, bare_count_in, constants_from, is_bare_in};

use crate::gathering::{put_literals, put_own};
use fm_bank::{Bank, Clause, ClauseSet};
use fm_base::{Memory, SortId, SymId, TermId, Ty};
use std::alloc::Global;

fn put_clauses(bank: &mut Bank, clauses: &[Clause]) -> Result<(), Memory>
    requires sorted { list_all (is_sorted_clause bank.old.sig) clauses.now ≡ true }
    ensures terms { OnOk result (bank.new.terms ≡ clauses_ground_grown clauses.now bank.old.terms) }
    ensures sig { OnOk result (bank.new.sig ≡ bank.old.sig) }
{
    for clause in clauses {
        bank.ground_terms(clause)?;
    }
    Ok(())
}

fn is_of(ty: Ty, sort: SortId) -> bool
    ensures { result ≡ is_type (Some ty) (TheTy.Of sort) }
{
    match ty {
        Ty::Of(other) => other.0 == sort.0,
        Ty::Bool => false,
    }
}

fn has_term_of(bank: &Bank, sort: SortId) -> bool
    ensures { result ≡ list_any (is_term_of bank.now.sig sort.0) bank.now.terms }
{
    for term in 0..bank.terms() {
        if is_of(bank.ty(TermId(term)), sort) {
            return true;
        }
    }
    false
}

fn has_none_of(bank: &Bank, sort: SortId) -> bool
    ensures { result ≡ is_bare_in bank.now.sig bank.now.terms sort.0 }
{
    !has_term_of(bank, sort)
}

fn bare_sorts(bank: &Bank) -> usize
    ensures { result ≡ bare_count_in bank.now.sig bank.now.terms }
{
    let mut count = 0;
    for sort in 0..bank.sig().sorts {
        if has_none_of(bank, SortId(sort)) {
            count += 1;
        }
    }
    count
}

// How many sorts have no ground term in the clauses.
fn bare_count(alloc: Global, clauses: &ClauseSet) -> Result<usize, Memory>
    requires { list_all (is_sorted_clause clauses.now.sig) clauses.now.clauses ≡ true }
    ensures { IfOk result (λ n. n ≡ bare_count_of clauses.now) }
{
    let mut bank = Bank::new(alloc, &clauses.sig)?;
    put_clauses(&mut bank, clauses.clauses.as_slice())?;
    Ok(bare_sorts(&bank))
}

fn put_constants(
    bank: &Bank,
    first: usize,
    all: usize,
    found: &mut Vec<usize>,
) -> Result<(), Memory>
    ensures { OnOk result (found.new.items ≡ found.old.items ++ constants_from bank.now.terms first all) }
{
    for symbol in first..all {
        put_own(bank.find(SymId(symbol), &[]), found)?;
    }
    Ok(())
}

fn put_ground(
    alloc: Global,
    bank: &Bank,
    clauses: &[Clause],
    found: &mut Vec<usize>,
) -> Result<(), Memory>
    ensures { OnOk result (found.new.items ≡ found.old.items ++ ground_terms clauses.now bank.now.terms) }
{
    for clause in clauses {
        put_literals(alloc, bank, clause.lits.as_slice(), &[], found)?;
    }
    Ok(())
}

// The terms at the start, by their numbers: the ground terms of the clauses, then the fresh constants.
pub(crate) fn start_of(
    alloc: Global,
    clauses: &ClauseSet,
    bank: &Bank,
) -> Result<Vec<usize>, Memory>
    requires { list_all (is_sorted_clause clauses.now.sig) clauses.now.clauses ≡ true }
    ensures { IfOk result (λ v. v.items ≡ start_terms clauses.now bank.now.terms) }
{
    let bare = bare_count(alloc, clauses)?;
    let all = clauses.sig.ranks.len();
    let mut found = Vec::new(alloc);
    put_ground(alloc, bank, clauses.clauses.as_slice(), &mut found)?;
    put_constants(bank, all.saturating_sub(bare), all, &mut found)?;
    Ok(found)
}
