ghost use Rattle.std.specs.Prelude.{◌≡◌, ◌<◌, ◌^◌, ◌++◌, ◌∷◌, [], slice_get, IfOk};
ghost use Rattle.fm_base.specs.declared.formula.Formula as formula;
ghost use Rattle.fm_nnf.specs.Lifting.{choice_of, closed_over, is_choice, lift_formula as lift_formula_of, lift_term as lift_term_of, lifted, own_term, parts_renamed, rank_over, type_of_symbol as symbol_type, type_of_variable as variable_type};
ghost use Rattle.fm_nnf.specs.Made.{Lifts, equation_of, equivalence_of, formulas_of, ite_of, parts_of, term_ite_of, terms_of};
ghost use Rattle.fm_nnf.specs.Marked.{definition_by, new_number, parts_by, rank_by};

use crate::making::joined;
use crate::marks::marks_of;
use crate::numbers::{
    count_dropped, kept_sorts, kept_variables, numbers_of, own_variables, quantified, renamed,
    renamed_term,
};
use fm_base::{Formula, Fterm, Memory, Rank, Sig, SortId, SymId, Ty};
use sqlite_items::{Boxed, Items};
use std::alloc::Global;

/// What `lift` makes of a formula: the formula without term `ite`s, a definition for each new symbol that stands in
/// the place of one, and the rank of each. Definitions and ranks stand in the order in which the symbols are made and
/// numbered. A rank has the sorts of the variables that the symbol takes; a definition is a formula without term
/// `ite`s too, with one universal quantifier over these variables, or none where there are none.
#[derive(Drop)]
pub struct Lifted {
    pub formula: Formula,
    pub definitions: Items<Formula>,
    pub ranks: Items<Rank>,
}

/// The definitions and ranks so far.
#[derive(Drop)]
pub struct Made {
    pub definitions: Vec<Formula>,
    pub ranks: Vec<Rank>,
}

/// Takes the term `ite`s out of a closed, well sorted formula, as the textbooks do for subformulas: each gets a name,
/// and a definition says what it is. SMT-LIB has a conditional at terms; clauses have none.
///
/// In a formula parts go from left to right, and of a term `ite` first the condition, then the branches, then the
/// `ite` itself. Each occurrence gets a function symbol of its own, numbered from `first` on, which is past the
/// symbols of `sig` and all others in use. Its arguments are the bound variables that stand free in the `ite`, in
/// order of binding, and its result is the sort of the branches. Its definition, universally closed over these,
/// says that the condition fails or the symbol equals the one branch, and that it holds or the symbol equals the
/// other.
pub fn lift(alloc: Global, sig: &Sig, formula: &Formula, first: usize) -> Result<Lifted, Memory>
    requires { first < 2 ^ 63 }
    ensures formula { IfOk result (λ l. l.formula ≡ (lifted sig.now formula.now first).made) }
    ensures definitions { IfOk result (λ l. l.definitions ≡ (lifted sig.now formula.now first).definitions) }
    ensures ranks { IfOk result (λ l. l.ranks ≡ (lifted sig.now formula.now first).ranks) }
{
    let mut made = Made {
        definitions: Vec::new(alloc),
        ranks: Vec::new(alloc),
    };
    let formula = lift_formula(alloc, sig, formula, &[], first, &mut made)?;
    Ok(Lifted {
        formula,
        definitions: Items::from_vec(made.definitions),
        ranks: Items::from_vec(made.ranks),
    })
}

fn type_of_variable(scope: &[SortId], v: usize) -> Ty
    ensures { result ≡ variable_type (slice_get scope.now v) }
{
    match scope.get(v) {
        None => Ty::Bool,
        Some(sort) => Ty::Of(*sort),
    }
}

fn type_of_symbol(ranks: &[Rank], symbol: usize) -> Ty
    ensures { result ≡ symbol_type (slice_get ranks.now symbol) }
{
    match ranks.get(symbol) {
        None => Ty::Bool,
        Some(rank) => rank.result,
    }
}

// The type of a term; Bool stands for that of one that isn't well sorted.
fn type_of(sig: &Sig, term: &Fterm, scope: &[SortId]) -> Ty
    ensures { result ≡ (lift_term_of sig.now term.now).type scope.now }
{
    match term {
        Fterm::Var(v) => type_of_variable(scope, *v),
        Fterm::App(symbol, _) => type_of_symbol(sig.ranks.as_slice(), symbol.0),
        Fterm::Ite(_, left, _) => type_of(sig, left.get(), scope),
    }
}

fn rank_of(alloc: Global, vars: &[SortId], ty: Ty) -> Result<Rank, Memory>
    ensures { IfOk result (λ rank. rank ≡ rank_over vars.now ty) }
{
    let mut args = Vec::new(alloc);
    for sort in vars {
        args.push(Ty::Of(*sort))?;
    }
    Ok(Rank {
        args: Items::from_vec(args),
        result: ty,
    })
}

fn pair(alloc: Global, left: Formula, right: Formula) -> Result<Formula, Memory>
    ensures { IfOk result (λ or. or ≡ formula.Or (left ∷ right ∷ [])) }
{
    let mut members = Vec::new(alloc);
    members.push(left)?;
    members.push(right)?;
    Ok(Formula::Or(Items::from_vec(members)))
}

fn both_hold(alloc: Global, left: Formula, right: Formula) -> Result<Formula, Memory>
    ensures { IfOk result (λ and. and ≡ formula.And (left ∷ right ∷ [])) }
{
    let mut members = Vec::new(alloc);
    members.push(left)?;
    members.push(right)?;
    Ok(Formula::And(Items::from_vec(members)))
}

fn closed(alloc: Global, vars: Vec<SortId>, body: Formula) -> Result<Formula, Memory>
    ensures { IfOk result (λ all. all ≡ closed_over vars.items body) }
{
    if vars.is_empty() {
        Ok(body)
    } else {
        let body = Boxed::new(alloc, body)?;
        Ok(Formula::Quant {
            all: true,
            vars: Items::from_vec(vars),
            body,
        })
    }
}

// What the new symbol equals, under the condition or its negation.
fn symbol_is(
    alloc: Global,
    symbol: usize,
    vars: &[SortId],
    branch: Fterm,
) -> Result<Formula, Memory>
    ensures { IfOk result (λ equal. equal ≡ formula.Equal (own_term symbol vars.now) branch) }
{
    let args = own_variables(alloc, vars)?;
    Ok(Formula::Equal(Fterm::App(SymId(symbol), args), branch))
}

/// The parts of a term `ite`, without such terms.
#[derive(Drop)]
pub struct Parts {
    pub test: Formula,
    pub left: Fterm,
    pub right: Fterm,
}

// That a condition holds or the symbol is a branch.
fn or_is(
    alloc: Global,
    test: Formula,
    symbol: usize,
    vars: &[SortId],
    branch: Fterm,
) -> Result<Formula, Memory>
    ensures { IfOk result (λ or. or ≡ formula.Or (test ∷ formula.Equal (own_term symbol vars.now) branch ∷ [])) }
{
    let equal = symbol_is(alloc, symbol, vars, branch)?;
    let or = pair(alloc, test, equal)?;
    Ok(or)
}

fn renamed_parts(
    alloc: Global,
    parts: &Parts,
    numbers: &[usize],
    dropped: usize,
) -> Result<Parts, Memory>
    ensures { IfOk result (λ moved. parts_of moved ≡ parts_renamed (parts_of parts.now) (new_number numbers.now dropped)) }
{
    let test = renamed(alloc, &parts.test, numbers, dropped)?;
    let left = renamed_term(alloc, &parts.left, numbers, dropped)?;
    let right = renamed_term(alloc, &parts.right, numbers, dropped)?;
    Ok(Parts { test, left, right })
}

// The symbol is the one branch or the other; `test` is the parts' own once more.
fn choice(
    alloc: Global,
    symbol: usize,
    vars: &[SortId],
    test: Formula,
    parts: Parts,
) -> Result<Formula, Memory>
    requires { test ≡ parts.test }
    ensures { IfOk result (λ f. f ≡ is_choice (own_term symbol vars.now) (parts_of parts)) }
{
    let not = Formula::Not(Boxed::new(alloc, test)?);
    let first = or_is(alloc, not, symbol, vars, parts.left)?;
    let second = or_is(alloc, parts.test, symbol, vars, parts.right)?;
    let both = both_hold(alloc, first, second)?;
    Ok(both)
}

// What the symbol is, over the variables that stay.
fn moved_choice(
    alloc: Global,
    symbol: usize,
    parts: &Parts,
    marks: &[bool],
    vars: &[SortId],
) -> Result<Formula, Memory>
    ensures { IfOk result (λ f. f ≡ is_choice (own_term symbol vars.now) (parts_by marks.now (parts_of parts.now))) }
{
    let numbers = numbers_of(alloc, marks)?;
    let dropped = count_dropped(marks);
    let moved = renamed_parts(alloc, parts, numbers.as_slice(), dropped)?;
    let test = renamed(alloc, &parts.test, numbers.as_slice(), dropped)?;
    let body = choice(alloc, symbol, vars, test, moved)?;
    Ok(body)
}

// The definition of the symbol of a term `ite` with these parts.
fn definition(
    alloc: Global,
    symbol: usize,
    parts: &Parts,
    marks: &[bool],
    scope: &[SortId],
) -> Result<Formula, Memory>
    ensures { IfOk result (λ f. f ≡ definition_by marks.now (parts_of parts.now) scope.now symbol) }
{
    let vars = kept_sorts(alloc, marks, scope)?;
    let body = moved_choice(alloc, symbol, parts, marks, vars.as_slice())?;
    let formula = closed(alloc, vars, body)?;
    Ok(formula)
}

fn kept_rank(alloc: Global, marks: &[bool], scope: &[SortId], ty: Ty) -> Result<Rank, Memory>
    ensures { IfOk result (λ rank. rank ≡ rank_by marks.now scope.now ty) }
{
    let vars = kept_sorts(alloc, marks, scope)?;
    let rank = rank_of(alloc, vars.as_slice(), ty)?;
    Ok(rank)
}

fn add(made: &mut Made, definition: Formula, rank: Rank) -> Result<(), Memory>
    ensures definitions { IfOk result (λ _. made.new.definitions.items ≡ made.old.definitions.items ++ definition ∷ []) }
    ensures ranks { IfOk result (λ _. made.new.ranks.items ≡ made.old.ranks.items ++ rank ∷ []) }
{
    made.definitions.push(definition)?;
    made.ranks.push(rank)?;
    Ok(())
}

// A new symbol for a term `ite` with these parts, its definition and its rank, and the term that stands for it.
fn define(
    alloc: Global,
    parts: &Parts,
    ty: Ty,
    scope: &[SortId],
    first: usize,
    made: &mut Made,
) -> Result<Fterm, Memory>
    requires { first < 2 ^ 63 }
    ensures { IfOk result (λ t. Lifts (choice_of (parts_of parts.now) ty) scope.now first made.old made.new t) }
{
    let symbol = first + made.ranks.len();
    let marks = marks_of(alloc, scope.len(), &parts.test, &parts.left, &parts.right)?;
    let marks = marks.as_slice();
    let formula = definition(alloc, symbol, parts, marks, scope)?;
    let rank = kept_rank(alloc, marks, scope, ty)?;
    let args = kept_variables(alloc, marks, scope)?;
    add(made, formula, rank)?;
    Ok(Fterm::App(SymId(symbol), args))
}

#[cycle(lift)]
fn lift_formula(
    alloc: Global,
    sig: &Sig,
    formula: &Formula,
    scope: &[SortId],
    first: usize,
    made: &mut Made,
) -> Result<Formula, Memory>
    requires { first < 2 ^ 63 }
    ensures { IfOk result (λ f. Lifts (lift_formula_of sig.now formula.now) scope.now first made.old made.new f) }
{
    match formula {
        Formula::Truth(holds) => Ok(Formula::Truth(*holds)),
        Formula::Pred(symbol, terms) => {
            let args = lift_terms(alloc, sig, terms.as_slice(), scope, first, made)?;
            Ok(Formula::Pred(*symbol, args))
        }
        Formula::Equal(left, right) => Ok(lift_equal(alloc, sig, left, right, scope, first, made)?),
        Formula::Not(body) => {
            let body = lift_formula(alloc, sig, body.get(), scope, first, made)?;
            Ok(Formula::Not(Boxed::new(alloc, body)?))
        }
        Formula::And(members) => {
            let members = lift_formulas(alloc, sig, members.as_slice(), scope, first, made)?;
            Ok(Formula::And(members))
        }
        Formula::Or(members) => {
            let members = lift_formulas(alloc, sig, members.as_slice(), scope, first, made)?;
            Ok(Formula::Or(members))
        }
        Formula::Iff(left, right) => {
            Ok(lift_iff(alloc, sig, left.get(), right.get(), scope, first, made)?)
        }
        Formula::Ite(test, left, right) => {
            let (test, left, right) = (test.get(), left.get(), right.get());
            Ok(lift_ite(alloc, sig, test, left, right, scope, first, made)?)
        }
        Formula::Quant { all, vars, body } => {
            let longer = joined(alloc, scope, vars.as_slice())?;
            let body = lift_formula(alloc, sig, body.get(), longer.as_slice(), first, made)?;
            Ok(quantified(alloc, *all, vars.as_slice(), body)?)
        }
    }
}

#[cycle(lift)]
fn lift_equal(
    alloc: Global,
    sig: &Sig,
    left: &Fterm,
    right: &Fterm,
    scope: &[SortId],
    first: usize,
    made: &mut Made,
) -> Result<Formula, Memory>
    requires { first < 2 ^ 63 }
    ensures { IfOk result (λ f. Lifts (equation_of sig.now left.now right.now) scope.now first made.old made.new f) }
{
    let one = lift_term(alloc, sig, left, scope, first, made)?;
    let two = lift_term(alloc, sig, right, scope, first, made)?;
    Ok(Formula::Equal(one, two))
}

#[cycle(lift)]
fn lift_iff(
    alloc: Global,
    sig: &Sig,
    left: &Formula,
    right: &Formula,
    scope: &[SortId],
    first: usize,
    made: &mut Made,
) -> Result<Formula, Memory>
    requires { first < 2 ^ 63 }
    ensures { IfOk result (λ f. Lifts (equivalence_of sig.now left.now right.now) scope.now first made.old made.new f) }
{
    let one = lift_formula(alloc, sig, left, scope, first, made)?;
    let two = lift_formula(alloc, sig, right, scope, first, made)?;
    let left_box = Boxed::new(alloc, one)?;
    let right_box = Boxed::new(alloc, two)?;
    Ok(Formula::Iff(left_box, right_box))
}

#[cycle(lift)]
fn lift_ite(
    alloc: Global,
    sig: &Sig,
    test: &Formula,
    left: &Formula,
    right: &Formula,
    scope: &[SortId],
    first: usize,
    made: &mut Made,
) -> Result<Formula, Memory>
    requires { first < 2 ^ 63 }
    ensures { IfOk result (λ f. Lifts (ite_of sig.now test.now left.now right.now) scope.now first made.old made.new f) }
{
    let one = lift_formula(alloc, sig, test, scope, first, made)?;
    let two = lift_formula(alloc, sig, left, scope, first, made)?;
    let three = lift_formula(alloc, sig, right, scope, first, made)?;
    let test_box = Boxed::new(alloc, one)?;
    let left_box = Boxed::new(alloc, two)?;
    let right_box = Boxed::new(alloc, three)?;
    Ok(Formula::Ite(test_box, left_box, right_box))
}

#[cycle(lift)]
fn lift_formulas(
    alloc: Global,
    sig: &Sig,
    formulas: &[Formula],
    scope: &[SortId],
    first: usize,
    made: &mut Made,
) -> Result<Items<Formula>, Memory>
    requires { first < 2 ^ 63 }
    ensures { IfOk result (λ fs. Lifts (formulas_of sig.now formulas.now) scope.now first made.old made.new fs) }
{
    let mut list = Vec::new(alloc);
    for formula in formulas {
        list.push(lift_formula(alloc, sig, formula, scope, first, made)?)?;
    }
    Ok(Items::from_vec(list))
}

#[cycle(lift)]
fn lift_term(
    alloc: Global,
    sig: &Sig,
    term: &Fterm,
    scope: &[SortId],
    first: usize,
    made: &mut Made,
) -> Result<Fterm, Memory>
    requires { first < 2 ^ 63 }
    ensures { IfOk result (λ t. Lifts (lift_term_of sig.now term.now).lift scope.now first made.old made.new t) }
{
    match term {
        Fterm::Var(v) => Ok(Fterm::Var(*v)),
        Fterm::App(symbol, terms) => {
            let args = lift_terms(alloc, sig, terms.as_slice(), scope, first, made)?;
            Ok(Fterm::App(*symbol, args))
        }
        Fterm::Ite(test, left, right) => {
            let (test, left, right) = (test.get(), left.get(), right.get());
            Ok(choose(alloc, sig, test, left, right, scope, first, made)?)
        }
    }
}

#[cycle(lift)]
fn lift_terms(
    alloc: Global,
    sig: &Sig,
    terms: &[Fterm],
    scope: &[SortId],
    first: usize,
    made: &mut Made,
) -> Result<Items<Fterm>, Memory>
    requires { first < 2 ^ 63 }
    ensures { IfOk result (λ ts. Lifts (terms_of sig.now terms.now) scope.now first made.old made.new ts) }
{
    let mut list = Vec::new(alloc);
    for term in terms {
        list.push(lift_term(alloc, sig, term, scope, first, made)?)?;
    }
    Ok(Items::from_vec(list))
}

// A term `ite`: its parts without such terms, then its symbol.
#[cycle(lift)]
fn choose(
    alloc: Global,
    sig: &Sig,
    test: &Formula,
    left: &Fterm,
    right: &Fterm,
    scope: &[SortId],
    first: usize,
    made: &mut Made,
) -> Result<Fterm, Memory>
    requires { first < 2 ^ 63 }
    ensures { IfOk result (λ t. Lifts (term_ite_of sig.now test.now left.now right.now) scope.now first made.old made.new t) }
{
    let one = lift_formula(alloc, sig, test, scope, first, made)?;
    let two = lift_term(alloc, sig, left, scope, first, made)?;
    let three = lift_term(alloc, sig, right, scope, first, made)?;
    let parts = Parts {
        test: one,
        left: two,
        right: three,
    };
    let ty = type_of(sig, left, scope);
    Ok(define(alloc, &parts, ty, scope, first, made)?)
}
