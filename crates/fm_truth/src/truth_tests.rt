use crate::checked::{closed_value, falsity, truths};
use crate::tests::table;
use fm_base::{Formula, Fterm, Interp, Memory, Rank, Sig, SortId, SymId, Ty};
use sqlite_items::{Boxed, Items};
use std::alloc::Global;
use std::test::Fail;

// Two sorts U and V; f from U to U, predicates p and r on U, g from V to U, and a constant c of U.
pub(crate) const U: SortId = SortId(0);

pub(crate) const V: SortId = SortId(1);

fn rank(alloc: Global, args: &[Ty], value: Ty) -> Result<Rank, Memory> {
    Ok(Rank {
        args: Items::from_slice(alloc, args)?,
        result: value,
    })
}

pub(crate) fn signature(alloc: Global) -> Result<Sig, Memory> {
    let u = Ty::Of(U);
    let mut ranks = Vec::new(alloc);
    ranks.push(rank(alloc, &[u], u)?)?;
    ranks.push(rank(alloc, &[u], Ty::Bool)?)?;
    ranks.push(rank(alloc, &[u, u], Ty::Bool)?)?;
    ranks.push(rank(alloc, &[Ty::Of(V)], u)?)?;
    ranks.push(rank(alloc, &[], u)?)?;
    Ok(Sig {
        sorts: 2,
        ranks: Items::from_vec(ranks),
    })
}

// `size` elements of U and one of V. p is true of 1 alone and r of 0 and 1 alone, g gives 0, and c is 1.
fn interpretation(alloc: Global, size: u64, f: &[u64]) -> Result<Interp, Memory> {
    with_pairs(alloc, size, f, &[0, 1, 1])
}

// The same, but for the exceptions of r.
pub(crate) fn with_pairs(alloc: Global, size: u64, f: &[u64], r: &[u64]) -> Result<Interp, Memory> {
    let mut tables = Vec::new(alloc);
    tables.push(table(alloc, 0, 1, f)?)?;
    tables.push(table(alloc, 0, 1, &[1, 1])?)?;
    tables.push(table(alloc, 0, 2, r)?)?;
    tables.push(table(alloc, 0, 1, &[])?)?;
    tables.push(table(alloc, 1, 0, &[])?)?;
    Ok(Interp {
        sizes: Items::from_slice(alloc, &[size, 1])?,
        tables: Items::from_vec(tables),
    })
}

fn constant(alloc: Global) -> Fterm {
    Fterm::App(SymId(4), Items::new(alloc))
}

pub(crate) fn apply(alloc: Global, symbol: usize, argument: Fterm) -> Result<Fterm, Memory> {
    let mut arguments = Vec::new(alloc);
    arguments.push(argument)?;
    Ok(Fterm::App(SymId(symbol), Items::from_vec(arguments)))
}

fn f(alloc: Global, argument: Fterm) -> Result<Fterm, Memory> {
    apply(alloc, 0, argument)
}

fn p(alloc: Global, argument: Fterm) -> Result<Formula, Memory> {
    let mut arguments = Vec::new(alloc);
    arguments.push(argument)?;
    Ok(Formula::Pred(SymId(1), Items::from_vec(arguments)))
}

pub(crate) fn r(alloc: Global, left: Fterm, right: Fterm) -> Result<Formula, Memory> {
    let mut arguments = Vec::new(alloc);
    arguments.push(left)?;
    arguments.push(right)?;
    Ok(Formula::Pred(SymId(2), Items::from_vec(arguments)))
}

pub(crate) fn not(alloc: Global, body: Formula) -> Result<Formula, Memory> {
    Ok(Formula::Not(Boxed::new(alloc, body)?))
}

fn both(alloc: Global, left: Formula, right: Formula) -> Result<Formula, Memory> {
    let mut members = Vec::new(alloc);
    members.push(left)?;
    members.push(right)?;
    Ok(Formula::And(Items::from_vec(members)))
}

fn either(alloc: Global, left: Formula, right: Formula) -> Result<Formula, Memory> {
    let mut members = Vec::new(alloc);
    members.push(left)?;
    members.push(right)?;
    Ok(Formula::Or(Items::from_vec(members)))
}

fn quantified(alloc: Global, all: bool, vars: &[SortId], body: Formula) -> Result<Formula, Memory> {
    Ok(Formula::Quant {
        all,
        vars: Items::from_slice(alloc, vars)?,
        body: Boxed::new(alloc, body)?,
    })
}

pub(crate) fn forall(alloc: Global, vars: &[SortId], body: Formula) -> Result<Formula, Memory> {
    quantified(alloc, true, vars, body)
}

pub(crate) fn exists(alloc: Global, vars: &[SortId], body: Formula) -> Result<Formula, Memory> {
    quantified(alloc, false, vars, body)
}

// Each element of U is a fixed point of f.
fn is_identity(alloc: Global) -> Result<Formula, Memory> {
    let body = Formula::Equal(f(alloc, Fterm::Var(0))?, Fterm::Var(0));
    forall(alloc, &[U], body)
}

// Each element of U is a value of f.
fn is_onto(alloc: Global) -> Result<Formula, Memory> {
    let body = Formula::Equal(f(alloc, Fterm::Var(1))?, Fterm::Var(0));
    forall(alloc, &[U], exists(alloc, &[U], body)?)
}

// Elements of U with one value of f are the same.
fn is_one_to_one(alloc: Global) -> Result<Formula, Memory> {
    let same_value = Formula::Equal(f(alloc, Fterm::Var(0))?, f(alloc, Fterm::Var(1))?);
    let same = Formula::Equal(Fterm::Var(0), Fterm::Var(1));
    let body = either(alloc, not(alloc, same_value)?, same)?;
    forall(alloc, &[U, U], body)
}

// Some element of U is in p and has r to no element.
fn is_last(alloc: Global) -> Result<Formula, Memory> {
    let none = not(alloc, r(alloc, Fterm::Var(0), Fterm::Var(1))?)?;
    let body = both(alloc, p(alloc, Fterm::Var(0))?, forall(alloc, &[U], none)?)?;
    exists(alloc, &[U], body)
}

// For each x of U, f of (x where it is in p, else f of x) is what g gives the element of V.
fn choice_of_terms(alloc: Global) -> Result<Formula, Memory> {
    let chosen = Fterm::Ite(
        Boxed::new(alloc, p(alloc, Fterm::Var(1))?)?,
        Boxed::new(alloc, Fterm::Var(1))?,
        Boxed::new(alloc, f(alloc, Fterm::Var(1))?)?,
    );
    let body = Formula::Equal(f(alloc, chosen)?, apply(alloc, 3, Fterm::Var(0))?);
    forall(alloc, &[V, U], body)
}

// An element of U is in p exactly where r holds of some element and it.
fn definition_of_p(alloc: Global) -> Result<Formula, Memory> {
    let some = exists(alloc, &[U], r(alloc, Fterm::Var(1), Fterm::Var(0))?)?;
    let body = Formula::Iff(
        Boxed::new(alloc, p(alloc, Fterm::Var(0))?)?,
        Boxed::new(alloc, some)?,
    );
    forall(alloc, &[U], body)
}

// For each x of U, r of (f of x and x) where x is in p, else r of (x and f of x).
fn choice_of_formulas(alloc: Global) -> Result<Formula, Memory> {
    let back = r(alloc, f(alloc, Fterm::Var(0))?, Fterm::Var(0))?;
    let on = r(alloc, Fterm::Var(0), f(alloc, Fterm::Var(0))?)?;
    let body = Formula::Ite(
        Boxed::new(alloc, p(alloc, Fterm::Var(0))?)?,
        Boxed::new(alloc, back)?,
        Boxed::new(alloc, on)?,
    );
    forall(alloc, &[U], body)
}

// All elements of the sort are the same.
fn all_one(alloc: Global, sort: SortId) -> Result<Formula, Memory> {
    let same = Formula::Equal(Fterm::Var(0), Fterm::Var(1));
    forall(alloc, &[sort, sort], same)
}

// No two elements stand in r the other way round.
fn is_never_back(alloc: Global) -> Result<Formula, Memory> {
    let back = r(alloc, Fterm::Var(1), Fterm::Var(0))?;
    forall(alloc, &[U, U], not(alloc, back)?)
}

fn some_in_p(alloc: Global) -> Result<Formula, Memory> {
    exists(alloc, &[U], p(alloc, Fterm::Var(0))?)
}

fn all_in_p(alloc: Global) -> Result<Formula, Memory> {
    forall(alloc, &[U], p(alloc, Fterm::Var(0))?)
}

fn some_to_itself(alloc: Global) -> Result<Formula, Memory> {
    exists(alloc, &[U], r(alloc, Fterm::Var(0), Fterm::Var(0))?)
}

fn formula(alloc: Global, number: usize) -> Result<Formula, Memory> {
    match number {
        0 => Ok(Formula::And(Items::new(alloc))),
        1 => Ok(Formula::Or(Items::new(alloc))),
        2 => is_onto(alloc),
        3 => is_identity(alloc),
        4 => is_one_to_one(alloc),
        5 => some_in_p(alloc),
        6 => all_in_p(alloc),
        7 => is_last(alloc),
        8 => choice_of_terms(alloc),
        9 => definition_of_p(alloc),
        10 => choice_of_formulas(alloc),
        11 => all_one(alloc, U),
        12 => all_one(alloc, V),
        13 => r(alloc, f(alloc, constant(alloc))?, constant(alloc)),
        14 => r(alloc, constant(alloc), f(alloc, constant(alloc))?),
        15 => is_never_back(alloc),
        16 => some_to_itself(alloc),
        _ => not(alloc, some_in_p(alloc)?),
    }
}

#[test]
fn evaluates_formulas(rt: HostRuntime) -> Result<(), Fail> {
    let sig = signature(rt.alloc())?;
    // f exchanges the two elements.
    let interp = interpretation(rt.alloc(), 2, &[0, 1])?;
    let wanted = [
        true, false, true, false, true, true, false, true, true, true, true, false, true, true,
        false, false, false, false,
    ];
    for (number, wanted) in wanted.iter().enumerate() {
        let formulas = [formula(rt.alloc(), number)?];
        let found = truths(rt.alloc(), &sig, &interp, &formulas)?.ok_or("they fit")?;
        assert_eq!(rt; found.as_slice(), [*wanted].as_slice(), "formula {number}");
    }
    Ok(())
}

// f of (c where all elements are in p, else f of c).
fn chosen(alloc: Global) -> Result<Fterm, Memory> {
    let all = Boxed::new(alloc, all_in_p(alloc)?)?;
    let yes = Boxed::new(alloc, constant(alloc))?;
    let no = Boxed::new(alloc, f(alloc, constant(alloc))?)?;
    f(alloc, Fterm::Ite(all, yes, no))
}

fn term(alloc: Global, number: usize) -> Result<Fterm, Memory> {
    match number {
        0 => Ok(constant(alloc)),
        1 => f(alloc, constant(alloc)),
        2 => chosen(alloc),
        _ => Ok(Fterm::Var(0)),
    }
}

#[test]
fn evaluates_terms(rt: HostRuntime) -> Result<(), Fail> {
    let sig = signature(rt.alloc())?;
    let interp = interpretation(rt.alloc(), 2, &[0, 1])?;
    for (number, wanted) in [Some(1), Some(0), Some(1), None].iter().enumerate() {
        let term = term(rt.alloc(), number)?;
        let found = closed_value(rt.alloc(), &sig, &interp, &term)?;
        assert_eq!(rt; found, *wanted, "term {number}");
    }
    Ok(())
}

#[test]
fn finds_the_first_failing(rt: HostRuntime) -> Result<(), Fail> {
    let sig = signature(rt.alloc())?;
    // f is the identity on three elements but for 1, which it sends to 0.
    let interp = interpretation(rt.alloc(), 3, &[2, 2])?;
    let rows: [(usize, bool, &[u64]); 8] = [
        (4, true, &[0, 1]),
        (3, true, &[1]),
        (2, true, &[1]),
        (15, true, &[1, 0]),
        (1, true, &[]),
        (16, true, &[]),
        (17, true, &[]),
        (12, false, &[]),
    ];
    for (number, fails, tuple) in rows {
        // The first assertion is true.
        let assertions = [is_last(rt.alloc())?, formula(rt.alloc(), number)?];
        let found = falsity(rt.alloc(), &sig, &interp, &assertions)?.ok_or("they fit")?;
        assert_eq!(rt; found.is_some(), fails, "formula {number}");
        if let Some(falsity) = found {
            assert_eq!(rt; falsity.assertion, 1, "formula {number}");
            assert_eq!(rt; falsity.tuple.as_slice(), tuple, "formula {number}");
        }
    }
    Ok(())
}

// One sort U with f from U to U, or with two constants of U.
fn small_signature(alloc: Global, unary: bool) -> Result<Sig, Memory> {
    let u = Ty::Of(U);
    let mut ranks = Vec::new(alloc);
    if unary {
        ranks.push(rank(alloc, &[u], u)?)?;
    } else {
        ranks.push(rank(alloc, &[], u)?)?;
        ranks.push(rank(alloc, &[], u)?)?;
    }
    Ok(Sig {
        sorts: 1,
        ranks: Items::from_vec(ranks),
    })
}

// One element, so 0 is each value.
fn one_element(alloc: Global, symbols: usize) -> Result<Interp, Memory> {
    let mut tables = Vec::new(alloc);
    for _symbol in 0..symbols {
        tables.push(table(alloc, 0, 0, &[])?)?;
    }
    Ok(Interp {
        sizes: Items::from_slice(alloc, &[1])?,
        tables: Items::from_vec(tables),
    })
}

// No element of U is a fixed point of f.
fn moves_all(alloc: Global) -> Result<Formula, Memory> {
    let fixed = Formula::Equal(f(alloc, Fterm::Var(0))?, Fterm::Var(0));
    forall(alloc, &[U], not(alloc, fixed)?)
}

fn constants_differ(alloc: Global) -> Result<Formula, Memory> {
    let first = Fterm::App(SymId(0), Items::new(alloc));
    let second = Fterm::App(SymId(1), Items::new(alloc));
    not(alloc, Formula::Equal(first, second))
}

fn small_assertion(alloc: Global, unary: bool) -> Result<Formula, Memory> {
    if unary {
        moves_all(alloc)
    } else {
        constants_differ(alloc)
    }
}

#[test]
fn fails_on_one_element(rt: HostRuntime) -> Result<(), Fail> {
    let rows: [(bool, &[u64]); 2] = [(true, &[0]), (false, &[])];
    for (unary, tuple) in rows {
        let sig = small_signature(rt.alloc(), unary)?;
        let interp = one_element(rt.alloc(), sig.ranks.len())?;
        let assertions = [small_assertion(rt.alloc(), unary)?];
        let found = falsity(rt.alloc(), &sig, &interp, &assertions)?.ok_or("they fit")?;
        let falsity = found.ok_or("it fails")?;
        assert_eq!(rt; falsity.assertion, 0);
        assert_eq!(rt; falsity.tuple.as_slice(), tuple);
    }
    Ok(())
}
