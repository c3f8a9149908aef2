ghost use Rattle.std.specs.Prelude.{◌≡◌, IfOk, OnOk};
ghost use Rattle.fm_readers.specs.Tested.{HasReadSome};
ghost use Rattle.fm_trail.specs.declared.entry.Why.{Why as TheWhy};

use crate::{Lemma, clash_lemma, decided, graph_over, graphs_stay, read, value_lemma};
use fm_bank::{Atom, Bank, Literal};
use fm_base::{AtomId, Lit, Memory, Rank, Sig, SortId, SymId, TermId, Ty};
use fm_cong::Egraph;
use fm_trail::{Entry, Why};
use sqlite_items::Items;
use std::alloc::Global;
use std::process::Abort;
use std::test::Fail;

const U: Ty = Ty::Of(SortId(0));

// Constants a, b and c, a unary f, and a predicate p.
const SYMBOLS: &[u8] = b"abcfp";

// The letters of the terms, and what each is: a symbol and the letter of its argument. So 1 is f(a), and P is p(a).
const NAMES: &[u8] = b"abc12PQ";

const TERMS: &[u8] = b"a.b.c.fafbpapb";

// The atoms by their numbers: equalities of two terms, predicate terms, and a bound on the sum.
const ATOMS: &[u8] = b"abbc12P.Q.ac..";

// The literals read, the atom asked about, the lemma that shows its value, or the clash where none is asked, and the support.
const CASES: [(&[u8], u8, &[u8], &[u8]); 8] = [
    // f(a) and f(b) are equal where a and b are
    (b"0+", b'2', b"2+0-", b"12ab"),
    // a and c are apart where b is equal to a and unequal to c
    (b"0+1-", b'5', b"5-1+0-", b"abc"),
    // truth goes over to equal terms
    (b"3+0+", b'4', b"4+3-0-", b"PQab"),
    (b"0+4-", b'3', b"3-4+0-", b"PQab"),
    // a bound on the sum says nothing of terms, and nothing is decided
    (b"6+1-", b'2', b"", b""),
    // clashes: two truths, and unequal terms that are equal
    (b"3+4-0+", b'?', b"3-4+0-", b"PQab"),
    (b"2-0+", b'?', b"2+0-", b"12ab"),
    (b"0+1+", b'?', b"", b""),
];

fn place(letters: &[u8], letter: u8) -> usize {
    letters
        .iter()
        .position(|other| *other == letter)
        .unwrap_or(letters.len())
}

fn term(letter: u8) -> TermId {
    TermId(place(NAMES, letter))
}

fn push_rank(alloc: Global, ranks: &mut Vec<Rank>, symbol: u8) -> Result<(), Memory> {
    let mut args = Vec::new(alloc);
    if symbol == b'f' || symbol == b'p' {
        args.push(U)?;
    }
    ranks.push(Rank {
        args: Items::from_vec(args),
        result: if symbol == b'p' { Ty::Bool } else { U },
    })?;
    Ok(())
}

fn signature(alloc: Global) -> Result<Sig, Memory> {
    let mut ranks = Vec::new(alloc);
    for symbol in SYMBOLS {
        push_rank(alloc, &mut ranks, *symbol)?;
    }
    Ok(Sig {
        sorts: 1,
        ranks: Items::from_vec(ranks),
    })
}

fn put_term(rt: &impl Abort, alloc: Global, bank: &mut Bank, item: &[u8]) -> Result<(), Memory> {
    let mut args = Vec::new(alloc);
    for letter in item.iter().skip(1) {
        if *letter != b'.' {
            args.push(term(*letter))?;
        }
    }
    let symbol = SymId(place(SYMBOLS, item.first().copied().unwrap_or(b'.')));
    assert!(rt; bank.is_term(symbol, args.as_slice()));
    bank.intern(symbol, args.as_slice())?;
    Ok(())
}

fn put_atom(rt: &impl Abort, bank: &mut Bank, item: &[u8]) -> Result<(), Memory> {
    let atom = match item {
        [b'.', ..] => Atom::Bound(1),
        [a, b'.', ..] => Atom::Pred(term(*a)),
        [a, b, ..] => Atom::Equal(term(*a), term(*b)),
        _ => Atom::Bound(0),
    };
    assert!(rt; bank.is_atom(atom));
    bank.atom(atom)?;
    Ok(())
}

fn filled(rt: &impl Abort, alloc: Global) -> Result<Bank, Memory> {
    let sig = signature(alloc)?;
    let mut bank = Bank::new(alloc, &sig)?;
    for item in TERMS.chunks(2) {
        put_term(rt, alloc, &mut bank, item)?;
    }
    for item in ATOMS.chunks(2) {
        put_atom(rt, &mut bank, item)?;
    }
    Ok(bank)
}

fn entry(item: &[u8]) -> Entry
    ensures level { result.level ≡ 0 }
    ensures why { result.why ≡ TheWhy.Clause 0 }
{
    let lit = match item {
        [digit, sign, ..] => Lit {
            atom: AtomId(usize::from(digit.saturating_sub(b'0'))),
            positive: *sign == b'+',
        },
        _ => Lit {
            atom: AtomId(0),
            positive: true,
        },
    };
    Entry {
        lit,
        level: 0,
        why: Why::Clause(0),
    }
}

fn read_all(rt: &impl Abort, graph: &mut Egraph, bank: &Bank, facts: &[u8]) -> Result<(), Memory>
    requires { HasReadSome bank.now graph.old }
    ensures { OnOk result (HasReadSome bank.now graph.new) }
{
    for item in facts.chunks(2) {
        let entry = entry(item);
        assert!(rt; entry.lit.atom.0 < bank.atoms());
        read(graph, bank, entry)?;
    }
    Ok(())
}

fn read_graph(rt: &impl Abort, alloc: Global, bank: &Bank, facts: &[u8]) -> Result<Egraph, Memory>
    ensures { IfOk result (HasReadSome bank.now) }
{
    let mut graph = graph_over(alloc, bank)?;
    read_all(rt, &mut graph, bank, facts)?;
    Ok(graph)
}

fn no_lemma(alloc: Global) -> Lemma {
    Lemma {
        lits: Vec::new(alloc),
        support: Vec::new(alloc),
    }
}

// The lemma that shows a clash, or the value of an atom; none where there is nothing to show.
fn lemma(
    rt: &impl Abort,
    alloc: Global,
    graph: &Egraph,
    bank: &Bank,
    asked: u8,
) -> Result<Lemma, Memory>
    requires { HasReadSome bank.now graph.now }
{
    graphs_stay();
    if asked == b'?' {
        return match graph.clash() {
            Some(clash) => clash_lemma(alloc, graph, bank, clash),
            None => Ok(no_lemma(alloc)),
        };
    }
    let atom = AtomId(usize::from(asked.saturating_sub(b'0')));
    assert!(rt; atom.0 < bank.atoms());
    match decided(graph, bank, atom) {
        Some(value) => value_lemma(alloc, graph, bank, atom, value),
        None => Ok(no_lemma(alloc)),
    }
}

fn literal(bank: &Bank, item: &[u8]) -> Option<Literal> {
    let lit = entry(item).lit;
    if lit.atom.0 < bank.atoms() {
        Some(Literal {
            positive: lit.positive,
            atom: bank.atom_of(lit.atom),
        })
    } else {
        None
    }
}

// Whether these are the literals, in any order.
fn are_literals(bank: &Bank, lits: &[Literal], wanted: &[u8]) -> bool {
    for item in wanted.chunks(2) {
        match literal(bank, item) {
            Some(lit) if lits.contains(&lit) => {}
            _ => return false,
        }
    }
    lits.len() == wanted.len() / 2
}

// Whether these are the terms, in any order.
fn are_terms(terms: &[TermId], wanted: &[u8]) -> bool {
    for letter in wanted {
        if !terms.contains(&term(*letter)) {
            return false;
        }
    }
    terms.len() == wanted.len()
}

#[test]
fn lemmas_show_what_was_read(rt: HostRuntime) -> Result<(), Fail> {
    let bank = filled(&rt, rt.alloc())?;
    for row in 0..CASES.len() {
        let (facts, asked, wanted, support) = CASES[row];
        let graph = read_graph(&rt, rt.alloc(), &bank, facts)?;
        let lemma = lemma(&rt, rt.alloc(), &graph, &bank, asked)?;
        assert!(rt;
            are_literals(&bank, lemma.lits.as_slice(), wanted),
            "row {row}"
        );
        assert!(rt;
            are_terms(lemma.support.as_slice(), support),
            "support of row {row}"
        );
    }
    Ok(())
}
