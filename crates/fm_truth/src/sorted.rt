ghost use Rattle.std.specs.Prelude.{◌≡◌, [], ◌++◌, true, map, slice_get, IfOk};
ghost use Rattle.std.specs.List.{list_all};
ghost use Rattle.fm_base.specs.Truth.{is_closed as is_closed_over, is_well_sorted, sort_of, are_arguments, all_sorted};

use fm_base::{Formula, Fterm, Memory, Sig, SortId, Ty, have_one_sort};
use std::alloc::Global;

/// Whether the formula is well sorted over the signature and has no free variables: each symbol has arguments of its
/// types, the sides of an equality are of one sort, and blocks are over sorts of the signature. `holds` and
/// `first_failing` ask for such formulas.
pub fn is_closed(alloc: Global, sig: &Sig, formula: &Formula) -> Result<bool, Memory>
    ensures { IfOk result (λ b. b ≡ is_closed_over formula.now sig.now) }
{
    formula_sorted(alloc, sig, formula, &[])
}

/// Whether each of the formulas is closed, in the same way.
pub fn are_closed(alloc: Global, sig: &Sig, formulas: &[Formula]) -> Result<bool, Memory>
    ensures { IfOk result (λ b. b ≡ list_all (λ f. is_closed_over f sig.now) formulas.now) }
{
    for formula in formulas {
        if !is_closed(alloc, sig, formula)? {
            return Ok(false);
        }
    }
    Ok(true)
}

/// The sort of a term that is well sorted over the signature and has no free variables; None for any other term.
/// `value` asks for such terms.
pub fn closed_sort(alloc: Global, sig: &Sig, term: &Fterm) -> Result<Option<SortId>, Memory>
    ensures { IfOk result (λ s. s ≡ sort_of term.now sig.now []) }
{
    term_sort(alloc, sig, term, &[])
}

#[cycle(sorted)]
fn formula_sorted(
    alloc: Global,
    sig: &Sig,
    formula: &Formula,
    scope: &[SortId],
) -> Result<bool, Memory>
    ensures { IfOk result (λ b. b ≡ is_well_sorted formula.now sig.now scope.now) }
{
    match formula {
        Formula::Truth(_) => Ok(true),
        Formula::Pred(symbol, terms) => match sig.ranks.get(symbol.0) {
            Some(rank) => {
                let args = rank.args.as_slice();
                let fit = terms_fit(alloc, sig, terms.as_slice(), args, scope)?;
                Ok(rank.result.is_bool() && fit)
            }
            None => Ok(false),
        },
        Formula::Equal(left, right) => {
            let left = term_sort(alloc, sig, left, scope)?;
            let right = term_sort(alloc, sig, right, scope)?;
            Ok(have_one_sort(left, right))
        }
        Formula::Not(body) => formula_sorted(alloc, sig, body.get(), scope),
        Formula::And(members) => formulas_sorted(alloc, sig, members.as_slice(), scope),
        Formula::Or(members) => formulas_sorted(alloc, sig, members.as_slice(), scope),
        Formula::Iff(left, right) => {
            let left = formula_sorted(alloc, sig, left.get(), scope)?;
            let right = formula_sorted(alloc, sig, right.get(), scope)?;
            Ok(left && right)
        }
        Formula::Ite(test, left, right) => {
            let test = formula_sorted(alloc, sig, test.get(), scope)?;
            let left = formula_sorted(alloc, sig, left.get(), scope)?;
            let right = formula_sorted(alloc, sig, right.get(), scope)?;
            Ok(test && (left && right))
        }
        Formula::Quant { all: _, vars, body } => {
            let mut inner = Vec::from_slice(alloc, scope)?;
            inner.extend_from_slice(vars.as_slice())?;
            let body = formula_sorted(alloc, sig, body.get(), inner.as_slice())?;
            Ok(sig.has_sorts(vars.as_slice()) && body)
        }
    }
}

#[cycle(sorted)]
fn term_sort(
    alloc: Global,
    sig: &Sig,
    term: &Fterm,
    scope: &[SortId],
) -> Result<Option<SortId>, Memory>
    ensures { IfOk result (λ s. s ≡ sort_of term.now sig.now scope.now) }
{
    match term {
        Fterm::Var(variable) => Ok(variable_sort(scope, *variable)),
        Fterm::App(symbol, terms) => match sig.ranks.get(symbol.0) {
            Some(rank) => {
                let args = rank.args.as_slice();
                let fit = terms_fit(alloc, sig, terms.as_slice(), args, scope)?;
                Ok(if fit { rank.result.sort() } else { None })
            }
            None => Ok(None),
        },
        Fterm::Ite(test, left, right) => {
            let test = formula_sorted(alloc, sig, test.get(), scope)?;
            let left = term_sort(alloc, sig, left.get(), scope)?;
            let right = term_sort(alloc, sig, right.get(), scope)?;
            Ok(if test && have_one_sort(left, right) {
                left
            } else {
                None
            })
        }
    }
}

#[cycle(sorted)]
fn formulas_sorted(
    alloc: Global,
    sig: &Sig,
    formulas: &[Formula],
    scope: &[SortId],
) -> Result<bool, Memory>
    ensures { IfOk result (λ b. b ≡ all_sorted (map is_well_sorted formulas.now) sig.now scope.now) }
{
    for formula in formulas {
        if !formula_sorted(alloc, sig, formula, scope)? {
            return Ok(false);
        }
    }
    Ok(true)
}

#[cycle(sorted)]
fn terms_fit(
    alloc: Global,
    sig: &Sig,
    terms: &[Fterm],
    types: &[Ty],
    scope: &[SortId],
) -> Result<bool, Memory>
    ensures { IfOk result (λ b. b ≡ are_arguments (map sort_of terms.now) types.now sig.now scope.now) }
{
    if terms.len() != types.len() {
        return Ok(false);
    }
    for (i, term) in terms.iter().enumerate() {
        if !types[i].takes(term_sort(alloc, sig, term, scope)?) {
            return Ok(false);
        }
    }
    Ok(true)
}

fn variable_sort(scope: &[SortId], variable: usize) -> Option<SortId>
    ensures { result ≡ slice_get scope.now variable }
{
    scope.get(variable).copied()
}
