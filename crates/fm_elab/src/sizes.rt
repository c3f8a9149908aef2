ghost use Rattle.std.specs.Prelude.{◌≡◌, length, map, IfOk, IfSome};
ghost use Rattle.std.specs.List.{list_any};
ghost use Rattle.fm_base.specs.declared.signature.Sig.{Sig as TheSig};
ghost use Rattle.fm_nnf.specs.Counting.{variables_of};
ghost use Rattle.fm_nnf.specs.NormalSize.{total};
ghost use Rattle.fm_elab.specs.Sizes.{is_large as is_large_of, is_large_form as is_large_form_of};

use fm_base::{Formula, Memory, Sig};
use fm_nnf::{lift, normal_size};
use sqlite_items::Items;
use std::alloc::Global;

// How many variables the quantifiers of a formula bind, if it is a number of the machine.
#[cycle(variables)]
fn variables(formula: &Formula) -> Option<usize>
    ensures { IfSome result (λ n. n ≡ variables_of formula.now) }
{
    match formula {
        Formula::Truth(_) | Formula::Pred(_, _) | Formula::Equal(_, _) => Some(0),
        Formula::Not(body) => variables(body.get()),
        Formula::And(formulas) | Formula::Or(formulas) => all_variables(formulas.as_slice()),
        Formula::Iff(a, b) => variables(a.get())?.checked_add(variables(b.get())?),
        Formula::Ite(c, a, b) => {
            let branches = variables(a.get())?.checked_add(variables(b.get())?)?;
            variables(c.get())?.checked_add(branches)
        }
        Formula::Quant { all: _, vars, body } => vars.len().checked_add(variables(body.get())?),
    }
}

#[cycle(variables)]
fn all_variables(formulas: &[Formula]) -> Option<usize>
    ensures { IfSome result (λ n. n ≡ total (map variables_of formulas.now)) }
{
    let mut sum: usize = 0;
    for formula in formulas {
        sum = sum.checked_add(variables(formula)?)?;
    }
    Some(sum)
}

// Whether the normal form of a formula has more than 1,000,000 nodes.
fn is_large_form(formula: &Formula) -> Result<bool, Memory>
    ensures { IfOk result (λ b. b ≡ is_large_form_of formula.now) }
{
    match variables(formula) {
        Some(count) if count < 1 << 63 => Ok(normal_size(formula) > 1_000_000),
        _ => Err(Memory),
    }
}

// Whether one of some formulas has such a normal form.
fn has_large_form(formulas: &[Formula]) -> Result<bool, Memory>
    ensures { IfOk result (λ b. b ≡ list_any is_large_form_of formulas.now) }
{
    for formula in formulas {
        if is_large_form(formula)? {
            return Ok(true);
        }
    }
    Ok(false)
}

/// Whether an assertion is too large, where so many functions are declared. What stands in the place of its term `ite`s
/// doesn't depend on their ranks, so none are given.
pub(crate) fn is_large(alloc: Global, formula: &Formula, declared: usize) -> Result<bool, Memory>
    ensures { (sig : TheSig) → length sig.ranks ≡ declared → IfOk result (λ b. b ≡ is_large_of sig formula.now) }
{
    if declared >= 1 << 63 {
        return Err(Memory);
    }
    let none = Sig {
        sorts: 0,
        ranks: Items::new(alloc),
    };
    let lifted = lift(alloc, &none, formula, declared)?;
    if is_large_form(&lifted.formula)? {
        return Ok(true);
    }
    has_large_form(lifted.definitions.as_slice())
}
