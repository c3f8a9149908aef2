ghost use Rattle.std.specs.Prelude.{◌≡◌, ◌+◌, ◌<◌, ◌≤◌, ◌^◌, ◌++◌, [], ◌∷◌, length, map, false, IfOk};
ghost use Rattle.fm_clauses.specs.Adding.{AddsIn, AddsBehindIn};
ghost use Rattle.fm_clauses.specs.Table.{all_parts, has_always as has_always_in, node, proxy as proxy_of, proxy_ranks, run_all, run_some};

use crate::copies::{copy_atom, copy_literals};
use crate::members::{proxy, push_all_heads, some_always};
use crate::scoped::narrow;
use fm_bank::{Clause, Plit};
use fm_base::{Memory, Nnf, Rank, SortId};
use std::alloc::Global;

// A scope with further variables.
fn joined(alloc: Global, scope: &[SortId], vars: &[SortId]) -> Result<Vec<SortId>, Memory>
    ensures { IfOk result (λ v. v.items ≡ scope.now ++ vars.now) }
{
    let mut all = Vec::new(alloc);
    all.extend_from_slice(scope)?;
    all.extend_from_slice(vars)?;
    Ok(all)
}

// Pushes the clauses of a normal form under the variables in scope and the literals so far, and the ranks of
// the new symbols.
#[cycle(clauses)]
pub(crate) fn clausify(
    alloc: Global,
    formula: &Nnf,
    scope: &[SortId],
    sofar: &[Plit],
    first: usize,
    clauses: &mut Vec<Clause>,
    ranks: &mut Vec<Rank>,
) -> Result<(), Memory>
    requires { first < 2 ^ 63 }
    ensures { IfOk result (λ _. AddsIn ((node formula.now).run scope.now sofar.now) first clauses.old ranks.old
        clauses.new ranks.new) }
{
    match formula {
        Nnf::Lit { positive, atom } => {
            let mut lits = copy_literals(alloc, sofar)?;
            let atom = copy_atom(alloc, atom)?;
            lits.push(Plit {
                positive: *positive,
                atom,
            })?;
            clauses.push(narrow(alloc, scope, lits.as_slice())?)?;
            Ok(())
        }
        Nnf::And(formulas) => {
            clausify_all(
                alloc,
                formulas.as_slice(),
                scope,
                sofar,
                first,
                clauses,
                ranks,
            )?;
            Ok(())
        }
        Nnf::Or(formulas) => {
            if some_always(formulas.as_slice()) {
                return Ok(());
            }
            clausify_some(
                alloc,
                formulas.as_slice(),
                scope,
                sofar,
                first,
                clauses,
                ranks,
            )?;
            Ok(())
        }
        Nnf::All(vars, body) => {
            let longer = joined(alloc, scope, vars.as_slice())?;
            clausify(
                alloc,
                body.get(),
                longer.as_slice(),
                sofar,
                first,
                clauses,
                ranks,
            )?;
            Ok(())
        }
    }
}

#[cycle(clauses)]
fn clausify_all(
    alloc: Global,
    formulas: &[Nnf],
    scope: &[SortId],
    sofar: &[Plit],
    first: usize,
    clauses: &mut Vec<Clause>,
    ranks: &mut Vec<Rank>,
) -> Result<(), Memory>
    requires { first < 2 ^ 63 }
    ensures { IfOk result (λ _. AddsIn (run_all (map node formulas.now) scope.now sofar.now) first clauses.old
        ranks.old clauses.new ranks.new) }
{
    for formula in formulas {
        clausify(alloc, formula, scope, sofar, first, clauses, ranks)?;
    }
    Ok(())
}

// An Or of which no member is an And of nothing.
#[cycle(clauses)]
fn clausify_some(
    alloc: Global,
    formulas: &[Nnf],
    scope: &[SortId],
    sofar: &[Plit],
    first: usize,
    clauses: &mut Vec<Clause>,
    ranks: &mut Vec<Rank>,
) -> Result<(), Memory>
    requires first { first < 2 ^ 63 }
    requires none { has_always_in (all_parts (map node formulas.now)) ≡ false }
    ensures { IfOk result (λ _. AddsIn (run_some (all_parts (map node formulas.now)) scope.now sofar.now) first
        clauses.old ranks.old clauses.new ranks.new) }
{
    let symbol = first + ranks.len();
    let mut lits = copy_literals(alloc, sofar)?;
    push_all_heads(alloc, formulas, scope, first, &mut lits, ranks)?;
    clauses.push(narrow(alloc, scope, lits.as_slice())?)?;
    behind_all(alloc, formulas, scope, symbol, first, clauses, ranks)?;
    Ok(())
}

// The clauses of what the proxies stand for; the symbol after these proxies.
#[cycle(clauses)]
fn behind(
    alloc: Global,
    formula: &Nnf,
    scope: &[SortId],
    symbol: usize,
    first: usize,
    clauses: &mut Vec<Clause>,
    ranks: &mut Vec<Rank>,
) -> Result<usize, Memory>
    requires first { first < 2 ^ 63 }
    requires known { symbol + length (proxy_ranks (node formula.now).parts scope.now) ≤ first + length ranks.old.items }
    ensures { IfOk result (λ next. AddsBehindIn (node formula.now).parts scope.now symbol first clauses.old
        ranks.old clauses.new ranks.new next) }
{
    match formula {
        Nnf::Lit { .. } => Ok(symbol),
        Nnf::And(formulas) => match formulas.as_slice().split_first() {
            None => Ok(symbol),
            Some((only, rest)) => {
                if rest.is_empty() {
                    let next = behind(alloc, only, scope, symbol, first, clauses, ranks)?;
                    Ok(next)
                } else {
                    guarded(alloc, formula, scope, symbol, first, clauses, ranks)?;
                    Ok(symbol + 1)
                }
            }
        },
        Nnf::Or(formulas) => {
            let next = behind_all(
                alloc,
                formulas.as_slice(),
                scope,
                symbol,
                first,
                clauses,
                ranks,
            )?;
            Ok(next)
        }
        Nnf::All(_, _) => {
            guarded(alloc, formula, scope, symbol, first, clauses, ranks)?;
            Ok(symbol + 1)
        }
    }
}

#[cycle(clauses)]
fn behind_all(
    alloc: Global,
    formulas: &[Nnf],
    scope: &[SortId],
    symbol: usize,
    first: usize,
    clauses: &mut Vec<Clause>,
    ranks: &mut Vec<Rank>,
) -> Result<usize, Memory>
    requires first { first < 2 ^ 63 }
    requires known { symbol + length (proxy_ranks (all_parts
        (map node formulas.now)) scope.now) ≤ first + length ranks.old.items }
    ensures { IfOk result (λ next. AddsBehindIn (all_parts (map node formulas.now)) scope.now symbol first
        clauses.old ranks.old clauses.new ranks.new next) }
{
    let mut next = symbol;
    for formula in formulas {
        next = behind(alloc, formula, scope, next, first, clauses, ranks)?;
    }
    Ok(next)
}

// The clauses of a member under its negated proxy.
#[cycle(clauses)]
fn guarded(
    alloc: Global,
    formula: &Nnf,
    scope: &[SortId],
    symbol: usize,
    first: usize,
    clauses: &mut Vec<Clause>,
    ranks: &mut Vec<Rank>,
) -> Result<(), Memory>
    requires { first < 2 ^ 63 }
    ensures { IfOk result (λ _. AddsIn ((node formula.now).run scope.now
        (proxy_of false scope.now symbol ∷ [])) first clauses.old ranks.old clauses.new ranks.new) }
{
    let mut sofar = Vec::new(alloc);
    sofar.push(proxy(alloc, false, scope, symbol)?)?;
    clausify(
        alloc,
        formula,
        scope,
        sofar.as_slice(),
        first,
        clauses,
        ranks,
    )?;
    Ok(())
}
