ghost use Rattle.std.specs.Prelude.{◌≡◌, IfSome, map};
ghost use Rattle.fm_nnf.specs.Counting.{variables_of};
ghost use Rattle.fm_nnf.specs.NormalSize.{total};

use crate::normal_size;
use fm_base::Formula;

// How many variables the quantifiers of a formula bind, or None where a sum doesn't fit.
#[cycle(variables)]
fn variables(formula: &Formula) -> Option<usize>
    ensures { IfSome result (λ count. count ≡ variables_of formula.now) }
{
    match formula {
        Formula::Truth(_) | Formula::Pred(_, _) | Formula::Equal(_, _) => Some(0),
        Formula::Not(body) => variables(body.get()),
        Formula::And(members) => all_variables(members.as_slice()),
        Formula::Or(members) => all_variables(members.as_slice()),
        Formula::Iff(a, b) => variables(a.get())?.checked_add(variables(b.get())?),
        Formula::Ite(c, a, b) => {
            let branches = variables(a.get())?.checked_add(variables(b.get())?)?;
            variables(c.get())?.checked_add(branches)
        }
        Formula::Quant { vars, body, .. } => vars.len().checked_add(variables(body.get())?),
    }
}

#[cycle(variables)]
fn all_variables(formulas: &[Formula]) -> Option<usize>
    ensures { IfSome result (λ count. count ≡ total (map variables_of formulas.now)) }
{
    let mut sum = 0usize;
    for formula in formulas {
        sum = sum.checked_add(variables(formula)?)?;
    }
    Some(sum)
}

// The size of the normal form, or None where the formula binds a million variables or more.
pub(crate) fn size_of(formula: &Formula) -> Option<u64> {
    match variables(formula) {
        None => None,
        Some(count) => {
            if count >= 1_000_000 {
                None
            } else {
                Some(normal_size(formula))
            }
        }
    }
}
