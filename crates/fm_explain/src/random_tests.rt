// Random problems, small ones: the e-graph and its explanations against congruence closure by its definition.
ghost use Rattle.std.specs.Prelude.{IfOk};
ghost use Rattle.fm_bank.specs.Terms.{AreTerms};
ghost use Rattle.fm_explain.specs.Explanations.{IsKnownBy};

use crate::tests::{read, register_all};
use crate::{Explanation, explain};
use fm_bank::{Atom, Bank};
use fm_base::{AtomId, Lit, Memory, Rank, Sig, SortId, SymId, TermId, Ty};
use fm_closure::{Equations, equal_in};
use fm_cong::Egraph;
use sqlite_items::Items;
use std::alloc::Global;
use std::process::Abort;
use std::test::Fail;

const U: Ty = Ty::Of(SortId(0));

// Four constants, a unary function and a binary one.
const ARITIES: [usize; 6] = [0, 0, 0, 0, 1, 2];

// The terms: a symbol, and the numbers of its arguments among the terms before.
const TERMS: [(usize, usize, usize); 12] = [
    (0, 0, 0),
    (1, 0, 0),
    (2, 0, 0),
    (3, 0, 0),
    (4, 0, 0),
    (4, 1, 0),
    (4, 4, 0),
    (5, 0, 1),
    (5, 1, 2),
    (5, 2, 0),
    (4, 7, 0),
    (5, 4, 5),
];

const PROBLEMS: usize = 40;

const LITERALS: usize = 6;

fn put_rank(alloc: Global, ranks: &mut Vec<Rank>, arity: usize) -> Result<(), Memory> {
    let mut args = Vec::new(alloc);
    for _ in 0..arity {
        args.push(U)?;
    }
    ranks.push(Rank {
        args: Items::from_vec(args),
        result: U,
    })?;
    Ok(())
}

fn signature(alloc: Global) -> Result<Sig, Memory> {
    let mut ranks = Vec::new(alloc);
    for arity in &ARITIES {
        put_rank(alloc, &mut ranks, *arity)?;
    }
    Ok(Sig {
        sorts: 1,
        ranks: Items::from_vec(ranks),
    })
}

fn put_term(
    rt: &impl Abort,
    bank: &mut Bank,
    symbol: usize,
    args: &[TermId],
) -> Result<(), Memory> {
    assert!(rt; bank.is_term(SymId(symbol), args));
    bank.intern(SymId(symbol), args)?;
    Ok(())
}

fn fill(rt: &impl Abort, bank: &mut Bank) -> Result<(), Memory> {
    for row in 0..TERMS.len() {
        let (symbol, first, second) = TERMS[row];
        let args = [TermId(first), TermId(second)];
        match symbol {
            4 => put_term(rt, bank, symbol, &args[..1])?,
            5 => put_term(rt, bank, symbol, &args)?,
            _ => put_term(rt, bank, symbol, &[])?,
        }
    }
    Ok(())
}

// The next number of a linear congruential generator (Knuth's MMIX), of which the upper bits are taken.
fn next(seed: &mut u64, below: usize) -> usize {
    *seed = seed
        .wrapping_mul(6_364_136_223_846_793_005)
        .wrapping_add(1_442_695_040_888_963_407);
    let upper = usize::try_from(*seed >> 33).unwrap_or(0);
    upper.checked_rem(below).unwrap_or(0)
}

// A random equality of two terms, the smaller first.
fn random_atom(rt: &impl Abort, bank: &mut Bank, seed: &mut u64) -> Result<AtomId, Memory> {
    let a = next(seed, TERMS.len());
    let b = next(seed, TERMS.len());
    let atom = Atom::Equal(TermId(a.min(b)), TermId(a.max(b)));
    assert!(rt; bank.is_atom(atom));
    bank.atom(atom)
}

fn random_literals(
    rt: &impl Abort,
    alloc: Global,
    bank: &mut Bank,
    seed: &mut u64,
) -> Result<Vec<Lit>, Memory> {
    let mut lits = Vec::new(alloc);
    for _ in 0..LITERALS {
        let atom = random_atom(rt, bank, seed)?;
        let positive = next(seed, 4) > 0;
        lits.push(Lit { atom, positive })?;
    }
    Ok(lits)
}

fn read_all(graph: &mut Egraph, bank: &Bank, lits: &[Lit]) -> Result<(), Memory>
    requires { IsKnownBy graph.old bank.now }
    ensures { IsKnownBy graph.new bank.now }
{
    for lit in lits {
        read(graph, bank, lit.atom, lit.positive)?;
    }
    Ok(())
}

// The pairs of the true equalities among the literals.
fn equations(alloc: Global, bank: &Bank, lits: &[Lit]) -> Result<Equations, Memory> {
    let mut pairs = Vec::new(alloc);
    for lit in lits {
        if lit.positive && lit.atom.0 < bank.atoms() {
            if let Atom::Equal(a, b) = bank.atom_of(lit.atom) {
                pairs.push((a, b))?;
            }
        }
    }
    Ok(Equations {
        pairs: Items::from_vec(pairs),
        yes: Items::new(alloc),
        no: Items::new(alloc),
    })
}

// The terms of the bank among these.
fn there(alloc: Global, bank: &Bank, terms: &[TermId]) -> Result<Vec<TermId>, Memory>
    ensures { IfOk result (λ ids. AreTerms bank.now.terms ids.items) }
{
    let mut ids = Vec::new(alloc);
    for term in terms {
        if term.0 < bank.terms() {
            ids.push(*term)?;
        }
    }
    Ok(ids)
}

fn all_terms(alloc: Global) -> Result<Vec<TermId>, Memory> {
    let mut ids = Vec::new(alloc);
    for i in 0..TERMS.len() {
        ids.push(TermId(i))?;
    }
    Ok(ids)
}

// Whether the literals say by congruence over the terms that two are equal.
fn follows(
    alloc: Global,
    bank: &Bank,
    lits: &[Lit],
    over: &[TermId],
    asked: (TermId, TermId),
) -> Result<bool, Memory> {
    let (a, b) = asked;
    let eqs = equations(alloc, bank, lits)?;
    let over = there(alloc, bank, over)?;
    equal_in(alloc, bank, &eqs, &over, a, b)
}

// The explanation of two terms, where the graph has them equal.
fn answer(
    rt: &impl Abort,
    alloc: Global,
    graph: &Egraph,
    bank: &Bank,
    asked: (TermId, TermId),
) -> Result<Option<Explanation>, Memory>
    requires { IsKnownBy graph.now bank.now }
{
    let (a, b) = asked;
    assert!(rt; graph.is_settled() && graph.is_registered(a) && graph.is_registered(b));
    if graph.same(a, b) {
        let found = explain(alloc, graph, bank, a, b)?;
        return Ok(Some(found));
    }
    Ok(None)
}

// Whether the explanation's literals were read, and show the equality over its support.
fn shows(
    alloc: Global,
    bank: &Bank,
    lits: &[Lit],
    found: &Explanation,
    asked: (TermId, TermId),
) -> Result<bool, Memory> {
    let were_read = found.lits.iter().all(|lit| lits.contains(lit));
    let follows = follows(alloc, bank, &found.lits, &found.support, asked)?;
    Ok(were_read && follows)
}

// Whether the graph and the definition agree on two terms, and the explanation shows what it says.
fn agree_on(
    rt: &impl Abort,
    alloc: Global,
    graph: &Egraph,
    bank: &Bank,
    lits: &[Lit],
    asked: (TermId, TermId),
) -> Result<bool, Memory>
    requires { IsKnownBy graph.now bank.now }
{
    let over = all_terms(alloc)?;
    let is_equal = follows(alloc, bank, lits, &over, asked)?;
    match answer(rt, alloc, graph, bank, asked)? {
        Some(found) => Ok(is_equal && shows(alloc, bank, lits, &found, asked)?),
        None => Ok(!is_equal),
    }
}

fn agree(
    rt: &impl Abort,
    alloc: Global,
    graph: &Egraph,
    bank: &Bank,
    lits: &[Lit],
) -> Result<bool, Memory>
    requires { IsKnownBy graph.now bank.now }
{
    for a in 0..TERMS.len() {
        for b in 0..TERMS.len() {
            if !agree_on(rt, alloc, graph, bank, lits, (TermId(a), TermId(b)))? {
                return Ok(false);
            }
        }
    }
    Ok(true)
}

fn solves(rt: &impl Abort, alloc: Global, bank: &Bank, lits: &[Lit]) -> Result<bool, Memory> {
    let mut graph = Egraph::new(alloc)?;
    register_all(rt, &mut graph, bank)?;
    read_all(&mut graph, bank, lits)?;
    agree(rt, alloc, &graph, bank, lits)
}

fn check_one(
    rt: &impl Abort,
    alloc: Global,
    bank: &mut Bank,
    seed: &mut u64,
) -> Result<bool, Memory> {
    let lits = random_literals(rt, alloc, bank, seed)?;
    solves(rt, alloc, bank, &lits)
}

#[test]
fn agrees_with_the_definition(rt: HostRuntime) -> Result<(), Fail> {
    let mut bank = Bank::new(rt.alloc(), &signature(rt.alloc())?)?;
    fill(&rt, &mut bank)?;
    let mut seed = 1;
    for problem in 0..PROBLEMS {
        assert!(rt;
            check_one(&rt, rt.alloc(), &mut bank, &mut seed)?,
            "problem {problem}"
        );
    }
    Ok(())
}
