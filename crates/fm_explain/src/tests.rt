ghost use Rattle.std.specs.Prelude.{IsTrue};
ghost use Rattle.std.specs.List.{All};
ghost use Rattle.fm_bank.specs.Terms.{numbers};
ghost use Rattle.fm_cong.specs.Held.{IsRegistered, JoinsRegistered};
ghost use Rattle.fm_explain.specs.Explanations.{IsKnownBy};

use crate::{explain, explain_truth};
use fm_bank::{Atom, Bank};
use fm_base::{AtomId, Lit, Memory, Rank, Sig, SortId, SymId, TermId, Ty};
use fm_cong::Egraph;
use sqlite_items::Items;
use std::alloc::Global;
use std::process::Abort;
use std::test::Fail;

const U: Ty = Ty::Of(SortId(0));

// Constants a, b, c and d, a unary f, and a predicate p.
const SYMBOLS: &[u8] = b"abcdfp";

// The letters of the terms, and what each is: a symbol and the letter of its argument. So 1 is f(a), and 4 is f(f(a)).
const NAMES: &[u8] = b"abcd123456pq";

const TERMS: &[u8] = b"a.b.c.d.fafbfcf1f2f3papb";

// The atoms by their numbers: equalities of two terms, and predicate terms.
const ATOMS: &[u8] = b"abbccd12p.q.";

// The literals read, by number and sign; the two terms, or a term and its truth; and the literals that explain it.
const CASES: [(&[u8], &[u8], &[u8]); 8] = [
    // both literals show that f(a) and f(c) are equal
    (b"0+1+", b"13", b"0+1+"),
    // what was read and isn't on the paths is left out
    (b"0+2+1+", b"12", b"0+"),
    // congruences within congruences
    (b"0+1+", b"46", b"0+1+"),
    // an equality that was read comes before a congruence
    (b"3+0+", b"12", b"3+"),
    (b"3+0+", b"45", b"3+"),
    // a term and itself
    (b"0+1+", b"22", b""),
    // truth goes over to equal terms
    (b"2+4+0+", b"qT", b"4+0+"),
    (b"0+5-", b"pF", b"5-0+"),
];

fn rank(alloc: Global, symbol: u8) -> Result<Rank, Memory> {
    let mut args = Vec::new(alloc);
    if symbol == b'f' || symbol == b'p' {
        args.push(U)?;
    }
    Ok(Rank {
        args: Items::from_vec(args),
        result: if symbol == b'p' { Ty::Bool } else { U },
    })
}

fn push_rank(alloc: Global, ranks: &mut Vec<Rank>, symbol: u8) -> Result<(), Memory> {
    let rank = rank(alloc, symbol)?;
    ranks.push(rank)?;
    Ok(())
}

fn signature(alloc: Global) -> Result<Sig, Memory> {
    let mut ranks = Vec::new(alloc);
    for symbol in SYMBOLS {
        push_rank(alloc, &mut ranks, *symbol)?;
    }
    Ok(Sig {
        sorts: 1,
        ranks: Items::from_vec(ranks),
    })
}

fn place(letters: &[u8], letter: u8) -> usize {
    letters
        .iter()
        .position(|other| *other == letter)
        .unwrap_or(letters.len())
}

fn term(letter: u8) -> TermId {
    TermId(place(NAMES, letter))
}

fn arguments(alloc: Global, item: &[u8]) -> Result<Vec<TermId>, Memory> {
    let mut args = Vec::new(alloc);
    for letter in item.iter().skip(1) {
        if *letter != b'.' {
            args.push(term(*letter))?;
        }
    }
    Ok(args)
}

fn put_term(rt: &impl Abort, alloc: Global, bank: &mut Bank, item: &[u8]) -> Result<(), Memory> {
    let args = arguments(alloc, item)?;
    let symbol = SymId(place(SYMBOLS, item.first().copied().unwrap_or(b'.')));
    assert!(rt; bank.is_term(symbol, args.as_slice()));
    bank.intern(symbol, args.as_slice())?;
    Ok(())
}

fn put_atom(rt: &impl Abort, bank: &mut Bank, item: &[u8]) -> Result<(), Memory> {
    let atom = match item {
        [a, b'.', ..] => Atom::Pred(term(*a)),
        [a, b, ..] => Atom::Equal(term(*a), term(*b)),
        _ => Atom::Bound(0),
    };
    assert!(rt; bank.is_atom(atom));
    bank.atom(atom)?;
    Ok(())
}

fn fill(rt: &impl Abort, alloc: Global, bank: &mut Bank) -> Result<(), Memory> {
    for item in TERMS.chunks(2) {
        put_term(rt, alloc, bank, item)?;
    }
    for item in ATOMS.chunks(2) {
        put_atom(rt, bank, item)?;
    }
    Ok(())
}

fn are_registered(graph: &Egraph, terms: &[TermId]) -> bool
    ensures { IsTrue result → All (IsRegistered graph.now.shapes) (numbers terms.now) }
{
    for term in terms {
        if !graph.is_registered(*term) {
            return false;
        }
    }
    true
}

fn joins(graph: &Egraph, atom: Atom) -> bool
    ensures { IsTrue result → JoinsRegistered graph.now.shapes atom }
{
    match atom {
        Atom::Equal(a, b) => graph.is_registered(a) && graph.is_registered(b),
        Atom::Pred(term) => graph.is_registered(term),
        Atom::Card(_sort, _k) => false,
        Atom::Bound(_n) => false,
    }
}

fn register(rt: &impl Abort, graph: &mut Egraph, bank: &Bank, term: TermId) -> Result<(), Memory>
    requires { IsKnownBy graph.old bank.now }
    ensures { IsKnownBy graph.new bank.now }
{
    assert!(rt; term.0 < bank.terms());
    let (_symbol, args) = bank.term(term);
    if are_registered(graph, args) {
        graph.add_term(bank, term)
    } else {
        Ok(())
    }
}

pub(crate) fn register_all(rt: &impl Abort, graph: &mut Egraph, bank: &Bank) -> Result<(), Memory>
    requires { IsKnownBy graph.old bank.now }
    ensures { IsKnownBy graph.new bank.now }
{
    for i in 0..bank.terms() {
        register(rt, graph, bank, TermId(i))?;
    }
    Ok(())
}

pub(crate) fn read(
    graph: &mut Egraph,
    bank: &Bank,
    atom: AtomId,
    positive: bool,
) -> Result<(), Memory>
    requires { IsKnownBy graph.old bank.now }
    ensures { IsKnownBy graph.new bank.now }
{
    if atom.0 >= bank.atoms() || !joins(graph, bank.atom_of(atom)) {
        return Ok(());
    }
    if positive {
        graph.merge(bank, atom)
    } else {
        graph.unequal(bank, atom)
    }
}

fn literal(item: &[u8]) -> Lit {
    match item {
        [digit, sign, ..] => Lit {
            atom: AtomId(usize::from(digit.saturating_sub(b'0'))),
            positive: *sign == b'+',
        },
        _ => Lit {
            atom: AtomId(0),
            positive: true,
        },
    }
}

fn read_all(graph: &mut Egraph, bank: &Bank, facts: &[u8]) -> Result<(), Memory>
    requires { IsKnownBy graph.old bank.now }
    ensures { IsKnownBy graph.new bank.now }
{
    for item in facts.chunks(2) {
        let lit = literal(item);
        read(graph, bank, lit.atom, lit.positive)?;
    }
    Ok(())
}

pub(crate) fn of_terms(
    rt: &impl Abort,
    alloc: Global,
    graph: &Egraph,
    bank: &Bank,
    a: TermId,
    b: TermId,
) -> Result<Vec<Lit>, Memory>
    requires { IsKnownBy graph.now bank.now }
{
    assert!(rt; graph.is_settled() && graph.is_registered(a) && graph.is_registered(b));
    if graph.same(a, b) {
        let answer = explain(alloc, graph, bank, a, b)?;
        return Ok(answer.lits);
    }
    assert!(rt; false, "they aren't equal");
    Ok(Vec::new(alloc))
}

fn of_truth(
    rt: &impl Abort,
    alloc: Global,
    graph: &Egraph,
    bank: &Bank,
    term: TermId,
    truth: bool,
) -> Result<Vec<Lit>, Memory>
    requires { IsKnownBy graph.now bank.now }
{
    assert!(rt; graph.is_settled() && graph.is_registered(term));
    match graph.truth(term) {
        Some(told) if told == truth => {
            let answer = explain_truth(alloc, graph, bank, term, told)?;
            Ok(answer.lits)
        }
        _ => Ok(Vec::new(alloc)),
    }
}

// Whether these are the literals, in any order.
fn are_literals(lits: &[Lit], wanted: &[u8]) -> bool {
    for item in wanted.chunks(2) {
        if !lits.contains(&literal(item)) {
            return false;
        }
    }
    lits.len() == wanted.len() / 2
}

fn explains(
    rt: &impl Abort,
    alloc: Global,
    bank: &Bank,
    (facts, asked, wanted): (&[u8], &[u8], &[u8]),
) -> Result<bool, Memory> {
    let mut graph = Egraph::new(alloc)?;
    register_all(rt, &mut graph, bank)?;
    read_all(&mut graph, bank, facts)?;
    let lits = match asked {
        [a, truth @ (b'T' | b'F'), ..] => {
            of_truth(rt, alloc, &graph, bank, term(*a), *truth == b'T')?
        }
        [a, b, ..] => of_terms(rt, alloc, &graph, bank, term(*a), term(*b))?,
        _ => Vec::new(alloc),
    };
    Ok(are_literals(&lits, wanted))
}

#[test]
fn explains_by_the_links_on_the_paths(rt: HostRuntime) -> Result<(), Fail> {
    let mut bank = Bank::new(rt.alloc(), &signature(rt.alloc())?)?;
    fill(&rt, rt.alloc(), &mut bank)?;
    for row in 0..CASES.len() {
        assert!(rt; explains(&rt, rt.alloc(), &bank, CASES[row])?, "row {row}");
    }
    Ok(())
}
