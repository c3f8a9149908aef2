ghost use Rattle.std.specs.Prelude.{◌≡◌, ◌==◌, ℕ, map, IfOk};
ghost use Rattle.fm_nnf.specs.Lifting.{any_has, formula_has, stays, term_has};
ghost use Rattle.fm_nnf.specs.Marked.{Marks, marked};

use fm_base::{Formula, Fterm, Memory};
use std::alloc::Global;

// Marks the variables in scope that stand in a formula.
#[cycle(mark)]
fn mark(formula: &Formula, marks: &mut Vec<bool>)
    ensures { Marks (formula_has formula.now) marks.old.items marks.new.items }
{
    match formula {
        Formula::Truth(_) => {}
        Formula::Pred(_, terms) => mark_terms(terms.as_slice(), marks),
        Formula::Equal(left, right) => {
            mark_term(left, marks);
            mark_term(right, marks);
        }
        Formula::Not(body) => mark(body.get(), marks),
        Formula::And(members) => mark_all(members.as_slice(), marks),
        Formula::Or(members) => mark_all(members.as_slice(), marks),
        Formula::Iff(left, right) => {
            mark(left.get(), marks);
            mark(right.get(), marks);
        }
        Formula::Ite(test, left, right) => {
            mark(test.get(), marks);
            mark(left.get(), marks);
            mark(right.get(), marks);
        }
        Formula::Quant { body, .. } => mark(body.get(), marks),
    }
}

#[cycle(mark)]
fn mark_all(formulas: &[Formula], marks: &mut Vec<bool>)
    ensures { Marks (any_has (map formula_has formulas.now)) marks.old.items marks.new.items }
{
    for formula in formulas {
        mark(formula, marks);
    }
}

#[cycle(mark)]
fn mark_term(term: &Fterm, marks: &mut Vec<bool>)
    ensures { Marks (term_has term.now) marks.old.items marks.new.items }
{
    match term {
        Fterm::Var(v) => mark_variable(*v, marks),
        Fterm::App(_, terms) => mark_terms(terms.as_slice(), marks),
        Fterm::Ite(test, left, right) => {
            mark(test.get(), marks);
            mark_term(left.get(), marks);
            mark_term(right.get(), marks);
        }
    }
}

#[cycle(mark)]
fn mark_terms(terms: &[Fterm], marks: &mut Vec<bool>)
    ensures { Marks (any_has (map term_has terms.now)) marks.old.items marks.new.items }
{
    for term in terms {
        mark_term(term, marks);
    }
}

fn mark_variable(v: usize, marks: &mut Vec<bool>)
    ensures { Marks (λ k. v == k) marks.old.items marks.new.items }
{
    if v < marks.len() {
        marks[v] = true;
    }
}

// Which variables in scope stand in the parts of a term `ite`.
pub(crate) fn marks_of(
    alloc: Global,
    depth: usize,
    test: &Formula,
    left: &Fterm,
    right: &Fterm,
) -> Result<Vec<bool>, Memory>
    ensures { IfOk result (λ marks. (k : ℕ) → marked marks.items k ≡ stays depth (test.now, (left.now, right.now)) k) }
{
    let mut marks = Vec::new(alloc);
    marks.resize(depth, false)?;
    mark_term(right, &mut marks);
    mark_term(left, &mut marks);
    mark(test, &mut marks);
    Ok(marks)
}
