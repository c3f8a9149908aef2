// Evaluations behind tests of what they require: that the interpretation fits, and that what is evaluated is closed
// and well sorted.
use crate::{Env, Falsity, are_closed, closed_sort, first_failing, fits, holds, value};
use fm_base::{Formula, Fterm, Interp, Memory, Sig};
use std::alloc::Global;

// The truth of each formula, or None where something doesn't fit.
pub(crate) fn truths(
    alloc: Global,
    sig: &Sig,
    interp: &Interp,
    formulas: &[Formula],
) -> Result<Option<Vec<bool>>, Memory> {
    if !fits(sig, interp) || !are_closed(alloc, sig, formulas)? {
        return Ok(None);
    }
    let mut env = Env::for_formulas(alloc, formulas)?;
    let mut answers = Vec::new(alloc);
    for formula in formulas {
        answers.push(holds(interp, formula, &mut env))?;
    }
    Ok(Some(answers))
}

// The value of the term, or None where something doesn't fit.
pub(crate) fn closed_value(
    alloc: Global,
    sig: &Sig,
    interp: &Interp,
    term: &Fterm,
) -> Result<Option<u64>, Memory> {
    let sort = closed_sort(alloc, sig, term)?;
    if !fits(sig, interp) || sort.is_none() {
        return Ok(None);
    }
    let mut env = Env::for_closed(alloc, term)?;
    Ok(Some(value(interp, term, &mut env)))
}

// The first false assertion, or None where something doesn't fit.
pub(crate) fn falsity(
    alloc: Global,
    sig: &Sig,
    interp: &Interp,
    assertions: &[Formula],
) -> Result<Option<Option<Falsity>>, Memory> {
    if !fits(sig, interp) || !are_closed(alloc, sig, assertions)? {
        return Ok(None);
    }
    let found = first_failing(alloc, interp, assertions)?;
    Ok(Some(found))
}
