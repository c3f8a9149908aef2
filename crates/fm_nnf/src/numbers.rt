ghost use Rattle.std.specs.Prelude.{◌≡◌, ◌∷◌, [], map, zero, IfOk};
ghost use Rattle.fm_base.specs.declared.formula.Formula as formula;
ghost use Rattle.fm_nnf.specs.Lifting.{all_renamed, formula_renamed, term_renamed, term_variables};
ghost use Rattle.fm_nnf.specs.Marked.{dropped_of, marked, new_number, numbers_from};
ghost use Rattle.fm_nnf.specs.Places.{kept};

use fm_base::{Formula, Fterm, Memory, SortId};
use sqlite_items::{Boxed, Items};
use std::alloc::Global;

// The new number of each variable in scope.
pub(crate) fn numbers_of(alloc: Global, marks: &[bool]) -> Result<Vec<usize>, Memory>
    ensures { IfOk result (λ numbers. numbers.items ≡ numbers_from 0 marks.now) }
{
    let mut numbers = Vec::new(alloc);
    let mut next = 0usize;
    for mark in marks {
        numbers.push(next)?;
        if *mark {
            next += 1;
        }
    }
    Ok(numbers)
}

// How many variables in scope go.
pub(crate) fn count_dropped(marks: &[bool]) -> usize
    ensures { result ≡ dropped_of marks.now }
{
    let mut count = 0usize;
    for mark in marks {
        if !*mark {
            count += 1;
        }
    }
    count
}

pub(crate) fn kept_sorts(
    alloc: Global,
    marks: &[bool],
    scope: &[SortId],
) -> Result<Vec<SortId>, Memory>
    ensures { IfOk result (λ sorts. sorts.items ≡ kept (marked marks.now) scope.now) }
{
    let mut sorts = Vec::new(alloc);
    for i in 0..scope.len() {
        if is_marked(marks, i) {
            sorts.push(scope[i])?;
        }
    }
    Ok(sorts)
}

pub(crate) fn kept_variables(
    alloc: Global,
    marks: &[bool],
    scope: &[SortId],
) -> Result<Items<Fterm>, Memory>
    ensures { IfOk result (λ terms. terms ≡ kept (marked marks.now) (term_variables zero scope.now)) }
{
    let mut terms = Vec::new(alloc);
    for i in 0..scope.len() {
        if is_marked(marks, i) {
            terms.push(Fterm::Var(i))?;
        }
    }
    Ok(Items::from_vec(terms))
}

fn is_marked(marks: &[bool], i: usize) -> bool
    ensures { result ≡ marked marks.now i }
{
    match marks.get(i) {
        None => true,
        Some(mark) => *mark,
    }
}

// The variables of a block alone, as terms.
pub(crate) fn own_variables(alloc: Global, vars: &[SortId]) -> Result<Items<Fterm>, Memory>
    ensures { IfOk result (λ terms. terms ≡ term_variables zero vars.now) }
{
    let mut terms = Vec::new(alloc);
    for i in 0..vars.len() {
        terms.push(Fterm::Var(i))?;
    }
    Ok(Items::from_vec(terms))
}

fn number(numbers: &[usize], dropped: usize, v: usize) -> usize
    ensures { result ≡ new_number numbers.now dropped v }
{
    match numbers.get(v) {
        None => v.saturating_sub(dropped),
        Some(number) => *number,
    }
}

// A block over a body.
pub(crate) fn quantified(
    alloc: Global,
    all: bool,
    vars: &[SortId],
    body: Formula,
) -> Result<Formula, Memory>
    ensures { IfOk result (λ f. f ≡ formula.Quant all vars.now body) }
{
    let vars = Items::from_slice(alloc, vars)?;
    let body = Boxed::new(alloc, body)?;
    Ok(Formula::Quant { all, vars, body })
}

// A formula with its variables renumbered, in memory of its own.
#[cycle(renamed)]
pub(crate) fn renamed(
    alloc: Global,
    formula: &Formula,
    numbers: &[usize],
    dropped: usize,
) -> Result<Formula, Memory>
    ensures { IfOk result (λ made. made ≡ formula_renamed formula.now (new_number numbers.now dropped)) }
{
    match formula {
        Formula::Truth(holds) => Ok(Formula::Truth(*holds)),
        Formula::Pred(symbol, terms) => {
            let args = renamed_terms(alloc, terms.as_slice(), numbers, dropped)?;
            Ok(Formula::Pred(*symbol, args))
        }
        Formula::Equal(left, right) => {
            let left = renamed_term(alloc, left, numbers, dropped)?;
            let right = renamed_term(alloc, right, numbers, dropped)?;
            Ok(Formula::Equal(left, right))
        }
        Formula::Not(body) => Ok(Formula::Not(renamed_box(alloc, body.get(), numbers, dropped)?)),
        Formula::And(members) => {
            let members = renamed_all(alloc, members.as_slice(), numbers, dropped)?;
            Ok(Formula::And(members))
        }
        Formula::Or(members) => {
            let members = renamed_all(alloc, members.as_slice(), numbers, dropped)?;
            Ok(Formula::Or(members))
        }
        Formula::Iff(left, right) => {
            let left = renamed_box(alloc, left.get(), numbers, dropped)?;
            let right = renamed_box(alloc, right.get(), numbers, dropped)?;
            Ok(Formula::Iff(left, right))
        }
        Formula::Ite(test, left, right) => {
            let test = renamed_box(alloc, test.get(), numbers, dropped)?;
            let left = renamed_box(alloc, left.get(), numbers, dropped)?;
            let right = renamed_box(alloc, right.get(), numbers, dropped)?;
            Ok(Formula::Ite(test, left, right))
        }
        Formula::Quant { all, vars, body } => {
            let body = renamed(alloc, body.get(), numbers, dropped)?;
            Ok(quantified(alloc, *all, vars.as_slice(), body)?)
        }
    }
}

#[cycle(renamed)]
fn renamed_box(
    alloc: Global,
    formula: &Formula,
    numbers: &[usize],
    dropped: usize,
) -> Result<Boxed<Formula>, Memory>
    ensures { IfOk result (λ made. made ≡ formula_renamed formula.now (new_number numbers.now dropped)) }
{
    let made = renamed(alloc, formula, numbers, dropped)?;
    Ok(Boxed::new(alloc, made)?)
}

#[cycle(renamed)]
fn renamed_all(
    alloc: Global,
    formulas: &[Formula],
    numbers: &[usize],
    dropped: usize,
) -> Result<Items<Formula>, Memory>
    ensures { IfOk result (λ made. made ≡ all_renamed (map formula_renamed formulas.now) (new_number numbers.now dropped)) }
{
    let mut made = Vec::new(alloc);
    for formula in formulas {
        made.push(renamed(alloc, formula, numbers, dropped)?)?;
    }
    Ok(Items::from_vec(made))
}

// A term likewise.
#[cycle(renamed)]
pub(crate) fn renamed_term(
    alloc: Global,
    term: &Fterm,
    numbers: &[usize],
    dropped: usize,
) -> Result<Fterm, Memory>
    ensures { IfOk result (λ made. made ≡ term_renamed term.now (new_number numbers.now dropped)) }
{
    match term {
        Fterm::Var(v) => Ok(Fterm::Var(number(numbers, dropped, *v))),
        Fterm::App(symbol, terms) => {
            let args = renamed_terms(alloc, terms.as_slice(), numbers, dropped)?;
            Ok(Fterm::App(*symbol, args))
        }
        Fterm::Ite(test, left, right) => {
            let test = renamed_box(alloc, test.get(), numbers, dropped)?;
            let left = Boxed::new(alloc, renamed_term(alloc, left.get(), numbers, dropped)?)?;
            let right = Boxed::new(alloc, renamed_term(alloc, right.get(), numbers, dropped)?)?;
            Ok(Fterm::Ite(test, left, right))
        }
    }
}

#[cycle(renamed)]
fn renamed_terms(
    alloc: Global,
    terms: &[Fterm],
    numbers: &[usize],
    dropped: usize,
) -> Result<Items<Fterm>, Memory>
    ensures { IfOk result (λ made. made ≡ all_renamed (map term_renamed terms.now) (new_number numbers.now dropped)) }
{
    let mut made = Vec::new(alloc);
    for term in terms {
        made.push(renamed_term(alloc, term, numbers, dropped)?)?;
    }
    Ok(Items::from_vec(made))
}
