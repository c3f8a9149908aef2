ghost use Rattle.std.specs.Prelude.{IsTrue};
ghost use Rattle.std.specs.List.{All};
ghost use Rattle.fm_bank.specs.Terms.{numbers};
ghost use Rattle.fm_cong.specs.Held.{IsRegistered, JoinsRegistered};

use crate::{Clash, Egraph, Node};
use fm_bank::{Atom, Bank};
use fm_base::{AtomId, Memory, Rank, Sig, SortId, SymId, TermId, Ty, Undo};
use sqlite_items::Items;
use std::alloc::Global;
use std::process::Abort;
use std::test::Fail;

const U: Ty = Ty::Of(SortId(0));

// Constants a, b and c, a unary f, and a predicate p.
const SYMBOLS: &[u8] = b"abcfp";

// The letters of the terms, and what each is: a symbol and the letter of its argument. So 1 is f(a), and 2 is f(f(a)).
const NAMES: &[u8] = b"abc1234pqr";

const TERMS: &[u8] = b"a.b.c.faf1f2fbpapbpc";

// Registers a term (r), reads an equation (=) or its negation (/), a true (y) or a false (n) predicate term, opens a level
// (m), goes back to one (u), settles (s); and asks: are two terms equal (?) or not (#), apart (|) or not (:), is a term
// true (T), false (F) or neither (0), is there no clash (_), or one (!) of an atom (=) or of two terms, which are the oldest
// of their classes (c), of which there are three at most, which is the oldest of a class (o), which one pair is unequal (p)
// or none (.), and to which node does one link (>), or to none (.).
const CASES: [&[u8]; 11] = [
    // f applied three times and twice to a leaves a
    b"r a r 1 r 2 r 3 =a3 #a1 =a2 ?a1 ?12",
    // terms that are registered above a level are joined again after an undo below it
    b"r a r b =ab m   r 1 r 4 ?14 u 0 s   ?14 #a1",
    // a fact above a level goes, and the terms stay
    b"r a r b m   =ab r 1 r 4 ?14 u 0 s   #14 #ab",
    // apart by the equals of the sides, until these are equal
    b"r a r b r c /ab |ab |ba :ac =bc |ac :bc _   =ac !=0",
    // truth goes over to equal terms, until a true one and a false one are equal
    b"r a r b r c r p r q r r y p n r Tp  0q  Fr  =ab Tq  #pr _   =ac !pr",
    // the oldest terms of the classes, in order of age, through joins and undos
    b"r a r b r c cabcm   =bc cab.=ac ca..u 0 cabc",
    // and those of terms that are registered above a level
    b"r c m   r a =ac ca..u 0 s   cac.r b cabc",
    // the oldest of a class whose terms are registered in another order, and one that is joined with yes
    b"r c r b r a occ =bc ocb obb oaa =ac oca oba m   r p y p opp r 1 =a1 o1a u 0 s   o11 opp",
    // the pair of a level goes with it
    b"r a r b r c p.  /bc pbc m   /ab u 0 pbc :ab |bc",
    // the links of the forest: a way up is turned round where its node is hung elsewhere, and an undo turns it back
    b"r a r b r c r 1 r p >a. =ab >ab >b. =c1 >c1 m   =a1 >ba >a1 >c1 y p >pY >Y. u 0 >ab >b. >c1 >p.",
    // two levels
    b"r a r b r c m   =ab m   =bc ?ac u 1 ?ab #bc u 0 #ab",
];

fn rank(alloc: Global, symbol: u8) -> Result<Rank, Memory> {
    let mut args = Vec::new(alloc);
    if symbol == b'f' || symbol == b'p' {
        args.push(U)?;
    }
    Ok(Rank {
        args: Items::from_vec(args),
        result: if symbol == b'p' { Ty::Bool } else { U },
    })
}

fn signature(alloc: Global) -> Result<Sig, Memory> {
    let mut ranks = Vec::new(alloc);
    for symbol in SYMBOLS {
        ranks.push(rank(alloc, *symbol)?)?;
    }
    Ok(Sig {
        sorts: 1,
        ranks: Items::from_vec(ranks),
    })
}

fn place(letters: &[u8], letter: u8) -> usize {
    letters
        .iter()
        .position(|other| *other == letter)
        .unwrap_or(letters.len())
}

fn term(letter: u8) -> TermId {
    TermId(place(NAMES, letter))
}

fn put(rt: &impl Abort, alloc: Global, bank: &mut Bank, item: &[u8]) -> Result<(), Memory> {
    let mut args = Vec::new(alloc);
    for letter in item.iter().skip(1) {
        if *letter != b'.' {
            args.push(term(*letter))?;
        }
    }
    let symbol = SymId(place(SYMBOLS, item.first().copied().unwrap_or(b'.')));
    assert!(rt; bank.is_term(symbol, args.as_slice()));
    bank.intern(symbol, args.as_slice())?;
    Ok(())
}

fn terms(rt: &impl Abort, alloc: Global) -> Result<Bank, Memory> {
    let mut bank = Bank::new(alloc, &signature(alloc)?)?;
    for item in TERMS.chunks(2) {
        put(rt, alloc, &mut bank, item)?;
    }
    Ok(bank)
}

fn are_registered(graph: &Egraph, terms: &[TermId]) -> bool
    ensures { IsTrue result → All (IsRegistered graph.now.shapes) (numbers terms.now) }
{
    for term in terms {
        if !graph.is_registered(*term) {
            return false;
        }
    }
    true
}

fn joins(graph: &Egraph, atom: Atom) -> bool
    ensures { IsTrue result → JoinsRegistered graph.now.shapes atom }
{
    match atom {
        Atom::Equal(a, b) => graph.is_registered(a) && graph.is_registered(b),
        Atom::Pred(term) => graph.is_registered(term),
        Atom::Card(_sort, _k) => false,
        Atom::Bound(_n) => false,
    }
}

pub(crate) fn add(
    rt: &impl Abort,
    graph: &mut Egraph,
    bank: &Bank,
    term: TermId,
) -> Result<(), Memory> {
    assert!(rt; term.0 < bank.terms());
    let (_symbol, args) = bank.term(term);
    if are_registered(graph, args) {
        graph.add_term(bank, term)?;
    }
    assert!(rt; graph.is_registered(term));
    Ok(())
}

pub(crate) fn read_atom(
    rt: &impl Abort,
    graph: &mut Egraph,
    bank: &Bank,
    atom: AtomId,
    positive: bool,
) -> Result<(), Memory> {
    assert!(rt; atom.0 < bank.atoms());
    assert!(rt; joins(graph, bank.atom_of(atom)));
    if positive {
        graph.merge(bank, atom)
    } else {
        graph.unequal(bank, atom)
    }
}

fn read(
    rt: &impl Abort,
    graph: &mut Egraph,
    bank: &mut Bank,
    atom: Atom,
    positive: bool,
) -> Result<(), Memory> {
    assert!(rt; bank.is_atom(atom));
    let id = bank.atom(atom)?;
    read_atom(rt, graph, bank, id, positive)
}

// Whether two terms are equal, and whether they are apart, as a step says.
fn compare(rt: &impl Abort, graph: &Egraph, step: &[u8], a: TermId, b: TermId) {
    assert!(rt; graph.is_settled() && graph.is_registered(a) && graph.is_registered(b));
    match step {
        [kind @ (b'?' | b'#'), ..] => assert_eq!(rt; graph.same(a, b), *kind == b'?'),
        [kind, ..] => assert_eq!(rt; graph.apart(a, b), *kind == b'|'),
        _ => {}
    }
}

fn tell(rt: &impl Abort, graph: &Egraph, step: &[u8], term: TermId) {
    assert!(rt; graph.is_settled() && graph.is_registered(term));
    let wanted = match step {
        [b'T', ..] => Some(true),
        [b'F', ..] => Some(false),
        _ => None,
    };
    assert_eq!(rt; graph.truth(term), wanted);
}

fn look_for_clash(rt: &impl Abort, graph: &Egraph, step: &[u8]) {
    assert!(rt; graph.is_settled());
    let wanted = match step {
        [b'!', b'=', digit, ..] => {
            let number = usize::from(digit.saturating_sub(b'0'));
            Some(Clash::Facts(AtomId(number)))
        }
        [b'!', x, y, ..] => Some(Clash::Truth(term(*x), term(*y))),
        _ => None,
    };
    assert_eq!(rt; graph.clash(), wanted);
}

// Whether the terms have these letters, where a point stands for none.
fn have_letters(list: &[TermId], letters: &[u8]) -> bool {
    for (i, letter) in letters.iter().enumerate() {
        let found = match list.get(i) {
            Some(term) => NAMES.get(term.0).copied().unwrap_or(b'?'),
            None => b'.',
        };
        if found != *letter {
            return false;
        }
    }
    true
}

fn list_classes(rt: &impl Abort, graph: &Egraph, step: &[u8]) -> Result<(), Memory> {
    assert!(rt; graph.is_settled());
    let oldest = graph.classes(SortId(0))?;
    assert!(rt; have_letters(oldest.as_slice(), step.get(1..).unwrap_or(&[])));
    Ok(())
}

fn look_for_oldest(rt: &impl Abort, graph: &Egraph, of: TermId, oldest: TermId) {
    assert!(rt; graph.is_settled() && graph.is_registered(of));
    assert_eq!(rt; graph.oldest_of(of), oldest);
}

// Whether the sides of the pairs of unequal terms have these letters.
fn have_sides(pairs: &[(TermId, TermId)], letters: &[u8]) -> bool {
    match (pairs, letters) {
        ([(a, b)], [x, y, ..]) => *a == term(*x) && *b == term(*y),
        ([], [b'.', ..]) => true,
        _ => false,
    }
}

// A level of the graph by its digit; the graph tells how many are open by the number of the next one alone.
pub(crate) fn go_back(rt: &impl Abort, graph: &mut Egraph, digit: u8) -> Result<(), Memory> {
    let level = usize::from(digit.saturating_sub(b'0'));
    let top = graph.mark()?;
    assert!(rt; level <= top);
    graph.undo_to(level);
    Ok(())
}

// The node of a letter: yes (Y), no (N) or a term.
fn node(letter: u8) -> Node {
    match letter {
        b'Y' => Node::Yes,
        b'N' => Node::No,
        _ => Node::Term(term(letter)),
    }
}

// Whether the link of a node leads to another one, or is none where that is a point.
fn look_at_link(rt: &impl Abort, graph: &Egraph, from: u8, to: u8) {
    let leads = graph.link(node(from)).map(|link| link.to);
    let wanted = if to == b'.' { None } else { Some(node(to)) };
    assert_eq!(rt; leads, wanted);
}

fn run(rt: &impl Abort, graph: &mut Egraph, bank: &mut Bank, step: &[u8]) -> Result<(), Memory> {
    match step {
        [b'r', _, x, ..] => add(rt, graph, bank, term(*x)),
        [b'=', x, y, ..] => read(rt, graph, bank, Atom::Equal(term(*x), term(*y)), true),
        [b'/', x, y, ..] => read(rt, graph, bank, Atom::Equal(term(*x), term(*y)), false),
        [b'y', _, x, ..] => read(rt, graph, bank, Atom::Pred(term(*x)), true),
        [b'n', _, x, ..] => read(rt, graph, bank, Atom::Pred(term(*x)), false),
        [b's', ..] => graph.settle(bank),
        [b'm', ..] => {
            graph.mark()?;
            Ok(())
        }
        [b'u', _, digit, ..] => go_back(rt, graph, *digit),
        [b'T' | b'F' | b'0', x, ..] => {
            tell(rt, graph, step, term(*x));
            Ok(())
        }
        [b'c', ..] => list_classes(rt, graph, step),
        [b'o', x, y, ..] => {
            look_for_oldest(rt, graph, term(*x), term(*y));
            Ok(())
        }
        [b'p', ..] => {
            assert!(rt; have_sides(graph.unequal_pairs(), step.get(1..).unwrap_or(&[])));
            Ok(())
        }
        [b'>', x, y, ..] => {
            look_at_link(rt, graph, *x, *y);
            Ok(())
        }
        [b'_' | b'!', ..] => {
            look_for_clash(rt, graph, step);
            Ok(())
        }
        [_, x, y, ..] => {
            compare(rt, graph, step, term(*x), term(*y));
            Ok(())
        }
        _ => Ok(()),
    }
}

#[test]
fn follows_equal(rt: HostRuntime) -> Result<(), Fail> {
    let alloc = rt.alloc();
    for case in CASES {
        let mut bank = terms(&rt, alloc)?;
        let mut graph = Egraph::new(alloc)?;
        for step in case.chunks(4) {
            run(&rt, &mut graph, &mut bank, step)?;
        }
    }
    Ok(())
}
