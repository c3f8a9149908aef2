ghost use Rattle.std.specs.Prelude.{◌≡◌, ◌+◌, ◌<◌, ◌^◌, ◌++◌, [], ◌∷◌, length, map, true, IfOk};
ghost use Rattle.fm_clauses.specs.Adding.{AddsHeadsIn};
ghost use Rattle.fm_clauses.specs.Table.{all_parts, has_always as has_always_in, node, proxy as proxy_of, proxy_rank};
ghost use Rattle.fm_nnf.specs.NormalForm.{all_variables};

use crate::copies::copy_atom;
use fm_bank::Plit;
use fm_base::{Memory, Nnf, Patom, Pterm, Rank, SortId, SymId, Ty};
use sqlite_items::Items;
use std::alloc::Global;

// All variables of a scope, as terms.
fn variables(alloc: Global, scope: &[SortId]) -> Result<Items<Pterm>, Memory>
    ensures { IfOk result (λ v. v ≡ all_variables 0 scope.now) }
{
    let mut made = Vec::new(alloc);
    for i in 0..scope.len() {
        made.push(Pterm::Var(i))?;
    }
    Ok(Items::from_vec(made))
}

// A proxy predicate of a scope, applied to its variables.
pub(crate) fn proxy(
    alloc: Global,
    positive: bool,
    scope: &[SortId],
    symbol: usize,
) -> Result<Plit, Memory>
    ensures { IfOk result (λ l. l ≡ proxy_of positive scope.now symbol) }
{
    let args = variables(alloc, scope)?;
    Ok(Plit {
        positive,
        atom: Patom::Pred(SymId(symbol), args),
    })
}

fn rank_of_proxy(alloc: Global, scope: &[SortId]) -> Result<Rank, Memory>
    ensures { IfOk result (λ r. r ≡ proxy_rank scope.now) }
{
    let mut args = Vec::new(alloc);
    for sort in scope {
        args.push(Ty::Of(*sort))?;
    }
    Ok(Rank {
        args: Items::from_vec(args),
        result: Ty::Bool,
    })
}

// Whether a member of the Or that this stands in is an And of nothing.
#[tactic(auto, using(crate::proofs::Parts::has_always_append))]
#[cycle(always)]
fn is_always(formula: &Nnf) -> bool
    ensures { result ≡ has_always_in (node formula.now).parts }
{
    match formula {
        Nnf::Lit { .. } => false,
        Nnf::And(formulas) => match formulas.as_slice().split_first() {
            None => true,
            Some((first, rest)) => rest.is_empty() && is_always(first),
        },
        Nnf::Or(formulas) => some_always(formulas.as_slice()),
        Nnf::All(_, _) => false,
    }
}

#[tactic(auto, using(crate::proofs::Parts::has_always_append))]
#[cycle(always)]
pub(crate) fn some_always(formulas: &[Nnf]) -> bool
    ensures { result ≡ has_always_in (all_parts (map node formulas.now)) }
{
    for formula in formulas {
        if is_always(formula) {
            return true;
        }
    }
    false
}

// A proxy for a member, and its rank.
fn push_proxy(
    alloc: Global,
    scope: &[SortId],
    first: usize,
    lits: &mut Vec<Plit>,
    ranks: &mut Vec<Rank>,
) -> Result<(), Memory>
    requires { first < 2 ^ 63 }
    ensures literals { IfOk result (λ _. lits.new.items ≡ lits.old.items ++ proxy_of true scope.now
        (first + length ranks.old.items) ∷ []) }
    ensures proxies { IfOk result (λ _. ranks.new.items ≡ ranks.old.items ++ proxy_rank scope.now ∷ []) }
{
    let symbol = first + ranks.len();
    lits.push(proxy(alloc, true, scope, symbol)?)?;
    ranks.push(rank_of_proxy(alloc, scope)?)?;
    Ok(())
}

// What the members of an Or put into its clause: literals, and proxies for the others.
#[cycle(heads)]
fn push_heads(
    alloc: Global,
    formula: &Nnf,
    scope: &[SortId],
    first: usize,
    lits: &mut Vec<Plit>,
    ranks: &mut Vec<Rank>,
) -> Result<(), Memory>
    requires { first < 2 ^ 63 }
    ensures { IfOk result (λ _. AddsHeadsIn (node formula.now).parts scope.now first lits.old ranks.old lits.new ranks.new) }
{
    match formula {
        Nnf::Lit { positive, atom } => {
            let atom = copy_atom(alloc, atom)?;
            lits.push(Plit {
                positive: *positive,
                atom,
            })?;
            Ok(())
        }
        Nnf::And(formulas) => match formulas.as_slice().split_first() {
            None => Ok(()),
            Some((only, rest)) => {
                if rest.is_empty() {
                    push_heads(alloc, only, scope, first, lits, ranks)?;
                    Ok(())
                } else {
                    push_proxy(alloc, scope, first, lits, ranks)?;
                    Ok(())
                }
            }
        },
        Nnf::Or(formulas) => {
            push_all_heads(alloc, formulas.as_slice(), scope, first, lits, ranks)?;
            Ok(())
        }
        Nnf::All(_, _) => {
            push_proxy(alloc, scope, first, lits, ranks)?;
            Ok(())
        }
    }
}

#[cycle(heads)]
pub(crate) fn push_all_heads(
    alloc: Global,
    formulas: &[Nnf],
    scope: &[SortId],
    first: usize,
    lits: &mut Vec<Plit>,
    ranks: &mut Vec<Rank>,
) -> Result<(), Memory>
    requires { first < 2 ^ 63 }
    ensures { IfOk result (λ _. AddsHeadsIn (all_parts (map node formulas.now)) scope.now first lits.old
        ranks.old lits.new ranks.new) }
{
    for formula in formulas {
        push_heads(alloc, formula, scope, first, lits, ranks)?;
    }
    Ok(())
}
