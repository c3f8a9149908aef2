ghost use Rattle.std.specs.Prelude.{◌≡◌, ◌<◌, ◌^◌, ◌++◌, ◌+◌, List, [], ◌∷◌, length, map, get_or, true, IfOk};
ghost use Rattle.fm_base.specs.declared.formula.Nnf as nnf;
ghost use Rattle.fm_base.specs.declared.formula.Pterm as pterm;
ghost use Rattle.fm_base.specs.declared.signature.Ty.{Ty as Kind};
ghost use Rattle.fm_nnf.specs.NormalForm.{all_variables, normal as normal_of, normal_form, normal_term, skolem_ranks, skolem_terms, terms_at};
ghost use Rattle.fm_nnf.specs.Bindings.{MakesIn, all_of, each_of, equation_at, first_variables as first_variables_of, iff_of, ite_of, junction_of, or_of, predicate_at, some_of, term_of, terms_of};

use fm_base::{Formula, Fterm, Memory, Nnf, Patom, Pterm, Rank, SortId, SymId, Ty};
use sqlite_items::{Boxed, Items};
use std::alloc::Global;

/// What stands for a variable in scope: a universal variable of the normal form, or a Skolem symbol applied to the
/// first so many of them.
#[derive(Clone, Copy)]
pub enum Binding {
    Universal(usize),
    Applied(SymId, usize),
}

/// The negation normal form of a closed formula without term `ite`, with Skolem functions in place of existential
/// variables, and the ranks of the Skolem symbols, which are numbered from `first` on as the form is written from
/// left to right. A quantifier makes one for each variable of its block, also for one that doesn't occur, and each
/// takes all universal variables in scope; what is written twice has symbols of its own. A variable that isn't in
/// scope, and a term `ite`, would become the first variable.
pub fn normal(alloc: Global, formula: &Formula, first: usize) -> Result<(Nnf, Items<Rank>), Memory>
    requires { first < 2 ^ 63 }
    ensures { IfOk result (λ made. made ≡ normal_of formula.now first) }
{
    let mut ranks = Vec::new(alloc);
    let tree = make(alloc, formula, true, &[], &[], first, &mut ranks)?;
    Ok((tree, Items::from_vec(ranks)))
}

fn first_variables(alloc: Global, count: usize) -> Result<Items<Pterm>, Memory>
    ensures { IfOk result (λ terms. terms ≡ first_variables_of count) }
{
    let mut made = Vec::new(alloc);
    for i in 0..count {
        made.push(Pterm::Var(i))?;
    }
    Ok(Items::from_vec(made))
}

fn bound_term(alloc: Global, binding: Binding) -> Result<Pterm, Memory>
    ensures { IfOk result (λ term. term ≡ term_of binding) }
{
    match binding {
        Binding::Universal(v) => Ok(Pterm::Var(v)),
        Binding::Applied(symbol, count) => {
            let args = first_variables(alloc, count)?;
            Ok(Pterm::App(symbol, args))
        }
    }
}

// What stands for a variable.
fn variable(alloc: Global, bindings: &[Binding], v: usize) -> Result<Pterm, Memory>
    ensures { IfOk result (λ term. term ≡ get_or (terms_of bindings.now) v (pterm.Var 0)) }
{
    match bindings.get(v) {
        None => Ok(Pterm::Var(0)),
        Some(binding) => {
            let term = bound_term(alloc, *binding)?;
            Ok(term)
        }
    }
}

#[cycle(plain)]
fn plain(alloc: Global, term: &Fterm, bindings: &[Binding]) -> Result<Pterm, Memory>
    ensures { IfOk result (λ made. made ≡ normal_term term.now (terms_of bindings.now)) }
{
    match term {
        Fterm::Var(v) => {
            let term = variable(alloc, bindings, *v)?;
            Ok(term)
        }
        Fterm::App(symbol, terms) => {
            let args = plain_all(alloc, terms.as_slice(), bindings)?;
            Ok(Pterm::App(*symbol, args))
        }
        Fterm::Ite(_, _, _) => Ok(Pterm::Var(0)),
    }
}

#[cycle(plain)]
fn plain_all(alloc: Global, terms: &[Fterm], bindings: &[Binding]) -> Result<Items<Pterm>, Memory>
    ensures { IfOk result (λ made. made ≡ terms_at (map normal_term terms.now) (terms_of bindings.now)) }
{
    let mut made = Vec::new(alloc);
    for term in terms {
        made.push(plain(alloc, term, bindings)?)?;
    }
    Ok(Items::from_vec(made))
}

fn predicate(
    alloc: Global,
    positive: bool,
    symbol: SymId,
    terms: &[Fterm],
    bindings: &[Binding],
) -> Result<Nnf, Memory>
    ensures { IfOk result (λ tree. tree ≡ nnf.Lit positive (predicate_at symbol terms.now bindings.now)) }
{
    let args = plain_all(alloc, terms, bindings)?;
    let atom = Patom::Pred(symbol, args);
    Ok(Nnf::Lit { positive, atom })
}

fn equation(
    alloc: Global,
    positive: bool,
    left: &Fterm,
    right: &Fterm,
    bindings: &[Binding],
) -> Result<Nnf, Memory>
    ensures { IfOk result (λ tree. tree ≡ nnf.Lit positive (equation_at left.now right.now bindings.now)) }
{
    let left = plain(alloc, left, bindings)?;
    let right = plain(alloc, right, bindings)?;
    let atom = Patom::Equal(left, right);
    Ok(Nnf::Lit { positive, atom })
}

fn pair(alloc: Global, left: Nnf, right: Nnf) -> Result<Items<Nnf>, Memory>
    ensures { IfOk result (λ made. made ≡ left ∷ right ∷ []) }
{
    let mut made = Vec::new(alloc);
    made.push(left)?;
    made.push(right)?;
    Ok(Items::from_vec(made))
}

// A scope with further variables.
pub(crate) fn joined(
    alloc: Global,
    scope: &[SortId],
    vars: &[SortId],
) -> Result<Vec<SortId>, Memory>
    ensures { IfOk result (λ all. all.items ≡ scope.now ++ vars.now) }
{
    let mut all = Vec::new(alloc);
    all.extend_from_slice(scope)?;
    all.extend_from_slice(vars)?;
    Ok(all)
}

// The variables of a block, which come after those in scope, behind the bindings.
fn with_variables(
    alloc: Global,
    bindings: &[Binding],
    scope: &[SortId],
    vars: &[SortId],
) -> Result<Vec<Binding>, Memory>
    ensures { IfOk result (λ all. terms_of all.items ≡ terms_of bindings.now ++ all_variables (length scope.now) vars.now) }
{
    let mut all = Vec::new(alloc);
    all.extend_from_slice(bindings)?;
    for i in 0..vars.len() {
        all.push(Binding::Universal(scope.len() + i))?;
    }
    Ok(all)
}

// The rank of a symbol that takes the variables in scope.
fn rank_of(alloc: Global, scope: &[SortId], sort: SortId) -> Result<Rank, Memory>
    ensures { IfOk result (λ rank. rank ≡ record { args = map (λ s. Kind.Of s) scope.now; result = Kind.Of sort }) }
{
    let mut args = Vec::new(alloc);
    for sort in scope {
        args.push(Ty::Of(*sort))?;
    }
    Ok(Rank {
        args: Items::from_vec(args),
        result: Ty::Of(sort),
    })
}

// A Skolem symbol for each variable of a block, behind the bindings, and its rank behind the ranks.
fn with_symbols(
    alloc: Global,
    bindings: &[Binding],
    scope: &[SortId],
    vars: &[SortId],
    first: usize,
    ranks: &mut Vec<Rank>,
) -> Result<Vec<Binding>, Memory>
    requires { first < 2 ^ 63 }
    ensures terms { IfOk result (λ all.
        terms_of all.items ≡ terms_of bindings.now ++ skolem_terms scope.now (first + length ranks.old.items) vars.now) }
    ensures ranks { IfOk result (λ _. ranks.new.items ≡ ranks.old.items ++ skolem_ranks scope.now vars.now) }
{
    let mut all = Vec::new(alloc);
    all.extend_from_slice(bindings)?;
    for sort in vars {
        let symbol = SymId(first + ranks.len());
        all.push(Binding::Applied(symbol, scope.len()))?;
        ranks.push(rank_of(alloc, scope, *sort)?)?;
    }
    Ok(all)
}

#[cycle(make)]
fn make(
    alloc: Global,
    formula: &Formula,
    positive: bool,
    bindings: &[Binding],
    scope: &[SortId],
    first: usize,
    ranks: &mut Vec<Rank>,
) -> Result<Nnf, Memory>
    requires { first < 2 ^ 63 }
    ensures { IfOk result (λ tree.
        MakesIn (normal_form formula.now positive) bindings.now scope.now first ranks.old ranks.new tree) }
{
    match formula {
        Formula::Truth(holds) => {
            let same = *holds == positive;
            Ok(make_junction(alloc, &[], same, positive, bindings, scope, first, ranks)?)
        }
        Formula::Pred(symbol, terms) => {
            Ok(predicate(alloc, positive, *symbol, terms.as_slice(), bindings)?)
        }
        Formula::Equal(left, right) => Ok(equation(alloc, positive, left, right, bindings)?),
        Formula::Not(body) => {
            Ok(make(alloc, body.get(), !positive, bindings, scope, first, ranks)?)
        }
        Formula::And(members) => {
            let (all, same) = (members.as_slice(), positive);
            Ok(make_junction(alloc, all, same, positive, bindings, scope, first, ranks)?)
        }
        Formula::Or(members) => {
            let (any, dual) = (members.as_slice(), !positive);
            Ok(make_junction(alloc, any, dual, positive, bindings, scope, first, ranks)?)
        }
        Formula::Iff(a, b) => {
            let (a, b) = (a.get(), b.get());
            Ok(make_iff(alloc, a, b, positive, bindings, scope, first, ranks)?)
        }
        Formula::Ite(c, a, b) => {
            let (c, a, b) = (c.get(), a.get(), b.get());
            Ok(make_ite(alloc, c, a, b, positive, bindings, scope, first, ranks)?)
        }
        Formula::Quant { all, vars, body } => {
            let (vars, body) = (vars.as_slice(), body.get());
            if *all == positive {
                Ok(make_each(alloc, vars, body, positive, bindings, scope, first, ranks)?)
            } else {
                Ok(make_some(alloc, vars, body, positive, bindings, scope, first, ranks)?)
            }
        }
    }
}

// An And of formulas under one sign, or an Or.
#[cycle(make)]
fn make_junction(
    alloc: Global,
    formulas: &[Formula],
    conjunctive: bool,
    positive: bool,
    bindings: &[Binding],
    scope: &[SortId],
    first: usize,
    ranks: &mut Vec<Rank>,
) -> Result<Nnf, Memory>
    requires { first < 2 ^ 63 }
    ensures { IfOk result (λ tree.
        MakesIn (junction_of formulas.now conjunctive positive) bindings.now scope.now first ranks.old ranks.new tree) }
{
    let made = make_all(alloc, formulas, positive, bindings, scope, first, ranks)?;
    if conjunctive {
        Ok(Nnf::And(made))
    } else {
        Ok(Nnf::Or(made))
    }
}

// An equivalence is an And of two clauses under either sign.
#[cycle(make)]
fn make_iff(
    alloc: Global,
    a: &Formula,
    b: &Formula,
    positive: bool,
    bindings: &[Binding],
    scope: &[SortId],
    first: usize,
    ranks: &mut Vec<Rank>,
) -> Result<Nnf, Memory>
    requires { first < 2 ^ 63 }
    ensures { IfOk result (λ tree.
        MakesIn (iff_of a.now b.now positive) bindings.now scope.now first ranks.old ranks.new tree) }
{
    let one = make_or(alloc, a, !positive, b, true, bindings, scope, first, ranks)?;
    let two = make_or(alloc, a, positive, b, false, bindings, scope, first, ranks)?;
    Ok(Nnf::And(pair(alloc, one, two)?))
}

#[cycle(make)]
fn make_ite(
    alloc: Global,
    c: &Formula,
    a: &Formula,
    b: &Formula,
    positive: bool,
    bindings: &[Binding],
    scope: &[SortId],
    first: usize,
    ranks: &mut Vec<Rank>,
) -> Result<Nnf, Memory>
    requires { first < 2 ^ 63 }
    ensures { IfOk result (λ tree.
        MakesIn (ite_of c.now a.now b.now positive) bindings.now scope.now first ranks.old ranks.new tree) }
{
    let one = make_or(alloc, c, false, a, positive, bindings, scope, first, ranks)?;
    let two = make_or(alloc, c, true, b, positive, bindings, scope, first, ranks)?;
    Ok(Nnf::And(pair(alloc, one, two)?))
}

// An Or of two, each under a sign of its own.
#[cycle(make)]
fn make_or(
    alloc: Global,
    left: &Formula,
    left_positive: bool,
    right: &Formula,
    right_positive: bool,
    bindings: &[Binding],
    scope: &[SortId],
    first: usize,
    ranks: &mut Vec<Rank>,
) -> Result<Nnf, Memory>
    requires { first < 2 ^ 63 }
    ensures { IfOk result (λ tree.
        MakesIn (or_of left.now left_positive right.now right_positive) bindings.now scope.now first ranks.old ranks.new tree) }
{
    let one = make(alloc, left, left_positive, bindings, scope, first, ranks)?;
    let two = make(alloc, right, right_positive, bindings, scope, first, ranks)?;
    Ok(Nnf::Or(pair(alloc, one, two)?))
}

#[cycle(make)]
fn make_all(
    alloc: Global,
    formulas: &[Formula],
    positive: bool,
    bindings: &[Binding],
    scope: &[SortId],
    first: usize,
    ranks: &mut Vec<Rank>,
) -> Result<Items<Nnf>, Memory>
    requires { first < 2 ^ 63 }
    ensures { IfOk result (λ trees.
        MakesIn (all_of formulas.now positive) bindings.now scope.now first ranks.old ranks.new trees) }
{
    let mut made = Vec::new(alloc);
    for formula in formulas {
        made.push(make(alloc, formula, positive, bindings, scope, first, ranks)?)?;
    }
    Ok(Items::from_vec(made))
}

// A block that is universal under its sign.
#[cycle(make)]
fn make_each(
    alloc: Global,
    vars: &[SortId],
    body: &Formula,
    positive: bool,
    bindings: &[Binding],
    scope: &[SortId],
    first: usize,
    ranks: &mut Vec<Rank>,
) -> Result<Nnf, Memory>
    requires { first < 2 ^ 63 }
    ensures { IfOk result (λ tree.
        MakesIn (each_of vars.now body.now positive) bindings.now scope.now first ranks.old ranks.new tree) }
{
    let inner = with_variables(alloc, bindings, scope, vars)?;
    let longer = joined(alloc, scope, vars)?;
    let tree = make(
        alloc,
        body,
        positive,
        inner.as_slice(),
        longer.as_slice(),
        first,
        ranks,
    )?;
    let sorts = Items::from_slice(alloc, vars)?;
    Ok(Nnf::All(sorts, Boxed::new(alloc, tree)?))
}

// A block that is existential under its sign.
#[cycle(make)]
fn make_some(
    alloc: Global,
    vars: &[SortId],
    body: &Formula,
    positive: bool,
    bindings: &[Binding],
    scope: &[SortId],
    first: usize,
    ranks: &mut Vec<Rank>,
) -> Result<Nnf, Memory>
    requires { first < 2 ^ 63 }
    ensures { IfOk result (λ tree.
        MakesIn (some_of vars.now body.now positive) bindings.now scope.now first ranks.old ranks.new tree) }
{
    let inner = with_symbols(alloc, bindings, scope, vars, first, ranks)?;
    let tree = make(alloc, body, positive, inner.as_slice(), scope, first, ranks)?;
    Ok(tree)
}
