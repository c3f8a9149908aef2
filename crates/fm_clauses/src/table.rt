ghost use Rattle.std.specs.Prelude.{◌≡◌, ◌<◌, ◌+◌, ◌^◌, ◌++◌, length, IfOk};
ghost use Rattle.fm_clauses.specs.Adding.{AddsIn};
ghost use Rattle.fm_clauses.specs.Assertions.{assertion_made, assertions_made, clause_table, form_made, forms_made};
ghost use Rattle.fm_nnf.specs.LiftLaw.{with_ranks};

use crate::fresh::push_fresh;
use crate::making::clausify;
use fm_bank::{Clause, ClauseSet};
use fm_base::{Formula, Memory, Rank, Sig};
use fm_nnf::{lift, normal};
use sqlite_items::Items;
use std::alloc::Global;

/// Assertions over a signature, each closed and well sorted, without defined functions.
#[derive(Clone, Copy)]
pub struct Problem<'a> {
    pub sig: &'a Sig,
    pub assertions: &'a [Formula],
}

// The number of the next symbol, if it is an index; that many ranks find no room.
fn next_symbol(first: usize, count: usize) -> Result<usize, Memory>
    ensures { IfOk result (λ next. (next ≡ first + count) × (next < 2 ^ 63)) }
{
    let next = first.checked_add(count).ok_or(Memory)?;
    if next > 9_223_372_036_854_775_807 {
        return Err(Memory);
    }
    Ok(next)
}

fn push_ranks(alloc: Global, more: &[Rank], ranks: &mut Vec<Rank>) -> Result<(), Memory>
    ensures { IfOk result (λ _. ranks.new.items ≡ ranks.old.items ++ more.now) }
{
    for rank in more {
        ranks.push(rank.copy(alloc)?)?;
    }
    Ok(())
}

// The clauses of a formula without term `ite`.
fn push_form(
    alloc: Global,
    formula: &Formula,
    first: usize,
    clauses: &mut Vec<Clause>,
    ranks: &mut Vec<Rank>,
) -> Result<(), Memory>
    requires { first < 2 ^ 63 }
    ensures { IfOk result (λ _. AddsIn (form_made formula.now) first clauses.old ranks.old clauses.new ranks.new) }
{
    let next = next_symbol(first, ranks.len())?;
    let (tree, skolem) = normal(alloc, formula, next)?;
    push_ranks(alloc, skolem.as_slice(), ranks)?;
    clausify(alloc, &tree, &[], &[], first, clauses, ranks)?;
    Ok(())
}

fn push_forms(
    alloc: Global,
    formulas: &[Formula],
    first: usize,
    clauses: &mut Vec<Clause>,
    ranks: &mut Vec<Rank>,
) -> Result<(), Memory>
    requires { first < 2 ^ 63 }
    ensures { IfOk result (λ _. AddsIn (forms_made formulas.now) first clauses.old ranks.old clauses.new ranks.new) }
{
    for formula in formulas {
        push_form(alloc, formula, first, clauses, ranks)?;
    }
    Ok(())
}

fn push_assertion(
    alloc: Global,
    sig: &Sig,
    formula: &Formula,
    first: usize,
    clauses: &mut Vec<Clause>,
    ranks: &mut Vec<Rank>,
) -> Result<(), Memory>
    requires { first < 2 ^ 63 }
    ensures { IfOk result (λ _. AddsIn (assertion_made sig.now formula.now) first clauses.old ranks.old
        clauses.new ranks.new) }
{
    let next = next_symbol(first, ranks.len())?;
    let lifted = lift(alloc, sig, formula, next)?;
    push_ranks(alloc, lifted.ranks.as_slice(), ranks)?;
    push_form(alloc, &lifted.formula, first, clauses, ranks)?;
    push_forms(alloc, lifted.definitions.as_slice(), first, clauses, ranks)?;
    Ok(())
}

fn push_assertions(
    alloc: Global,
    sig: &Sig,
    formulas: &[Formula],
    first: usize,
    clauses: &mut Vec<Clause>,
    ranks: &mut Vec<Rank>,
) -> Result<(), Memory>
    requires { first < 2 ^ 63 }
    ensures { IfOk result (λ _. AddsIn (assertions_made sig.now formulas.now) first clauses.old ranks.old
        clauses.new ranks.new) }
{
    for formula in formulas {
        push_assertion(alloc, sig, formula, first, clauses, ranks)?;
    }
    Ok(())
}

// The signature with further symbols.
fn grown(alloc: Global, sig: &Sig, made: &[Rank]) -> Result<Sig, Memory>
    ensures { IfOk result (λ grown. grown ≡ with_ranks sig.now made.now) }
{
    let mut ranks = Vec::new(alloc);
    push_ranks(alloc, sig.ranks.as_slice(), &mut ranks)?;
    push_ranks(alloc, made, &mut ranks)?;
    Ok(Sig {
        sorts: sig.sorts,
        ranks: Items::from_vec(ranks),
    })
}

/// The clause table of a problem: each assertion is lifted, then the lifted formula and each of its definitions is
/// brought into normal form and into clauses, in which a proxy predicate stands for each member of a disjunction that
/// is no literal (Plaisted and Greenbaum). New symbols are numbered on from the declared functions in the order in which
/// they are made; last come constants for the sorts of which no ground term stands in a clause.
pub fn clauses_of(alloc: Global, problem: &Problem) -> Result<ClauseSet, Memory>
    ensures { IfOk result (λ set. set ≡ clause_table problem.now.sig.now problem.now.assertions.now) }
{
    let user = next_symbol(0, problem.sig.ranks.len())?;
    let mut clauses = Vec::new(alloc);
    let mut made = Vec::new(alloc);
    push_assertions(
        alloc,
        problem.sig,
        problem.assertions,
        user,
        &mut clauses,
        &mut made,
    )?;
    let symbols = grown(alloc, problem.sig, made.as_slice())?;
    let mut fresh = Vec::new(alloc);
    push_fresh(alloc, &symbols, clauses.as_slice(), &mut fresh)?;
    let sig = grown(alloc, &symbols, fresh.as_slice())?;
    Ok(ClauseSet {
        sig,
        user,
        clauses: Items::from_vec(clauses),
    })
}
