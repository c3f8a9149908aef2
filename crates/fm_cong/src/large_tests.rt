// A hundred thousand terms, and a million merges that are taken back, beside a plain union-find with undo that unites as
// many nodes. A benchmark too: `./bench congruence` at the top.
use crate::Egraph;
use crate::tests::{add, go_back, read_atom};
use fm_bank::{Atom, Bank};
use fm_base::{AtomId, Memory, Rank, Sig, SortId, SymId, TermId, Ty, Undo};
use sqlite_items::Items;
use std::alloc::Global;
use std::process::Abort;
use std::test::Fail;

const U: Ty = Ty::Of(SortId(0));

const CONSTANTS: usize = 50_000;

const ROUNDS: usize = 20;

fn put_rank(alloc: Global, ranks: &mut Vec<Rank>, arity: usize) -> Result<(), Memory> {
    let mut args = Vec::new(alloc);
    for _ in 0..arity {
        args.push(U)?;
    }
    ranks.push(Rank {
        args: Items::from_vec(args),
        result: U,
    })?;
    Ok(())
}

// So many constants, and a unary function behind them.
fn signature(alloc: Global) -> Result<Sig, Memory> {
    let mut ranks = Vec::new(alloc);
    for _ in 0..CONSTANTS {
        put_rank(alloc, &mut ranks, 0)?;
    }
    put_rank(alloc, &mut ranks, 1)?;
    Ok(Sig {
        sorts: 1,
        ranks: Items::from_vec(ranks),
    })
}

fn put_term(
    rt: &impl Abort,
    bank: &mut Bank,
    symbol: usize,
    args: &[TermId],
) -> Result<(), Memory> {
    assert!(rt; bank.is_term(SymId(symbol), args));
    bank.intern(SymId(symbol), args)?;
    Ok(())
}

fn put_atom(rt: &impl Abort, bank: &mut Bank, left: usize, right: usize) -> Result<(), Memory> {
    let atom = Atom::Equal(TermId(left), TermId(right));
    assert!(rt; bank.is_atom(atom));
    bank.atom(atom)?;
    Ok(())
}

// The constants, the function of each, and the equalities of neighbouring constants.
fn fill(rt: &impl Abort, bank: &mut Bank) -> Result<(), Memory> {
    for i in 0..CONSTANTS {
        put_term(rt, bank, i, &[])?;
    }
    for i in 0..CONSTANTS {
        put_term(rt, bank, CONSTANTS, &[TermId(i)])?;
    }
    for i in 1..CONSTANTS {
        put_atom(rt, bank, i - 1, i)?;
    }
    Ok(())
}

fn register(rt: &impl Abort, graph: &mut Egraph, bank: &Bank) -> Result<(), Memory> {
    for i in 0..bank.terms() {
        add(rt, graph, bank, TermId(i))?;
    }
    Ok(())
}

// Reads each equality, and takes all of them back.
fn read_and_go_back(rt: &impl Abort, graph: &mut Egraph, bank: &Bank) -> Result<(), Memory> {
    graph.mark()?;
    for i in 0..bank.atoms() {
        read_atom(rt, graph, bank, AtomId(i), true)?;
    }
    go_back(rt, graph, b'0')
}

fn are_equal(rt: &impl Abort, graph: &Egraph, a: TermId, b: TermId) -> bool {
    assert!(rt; graph.is_settled() && graph.is_registered(a) && graph.is_registered(b));
    graph.same(a, b)
}

#[test]
fn merges_a_million_times(rt: HostRuntime) -> Result<(), Fail> {
    let mut bank = Bank::new(rt.alloc(), &signature(rt.alloc())?)?;
    fill(&rt, &mut bank)?;
    let mut graph = Egraph::new(rt.alloc())?;
    register(&rt, &mut graph, &bank)?;
    for _ in 0..ROUNDS {
        read_and_go_back(&rt, &mut graph, &bank)?;
    }
    graph.settle(&bank)?;
    assert!(rt; !are_equal(&rt, &graph, TermId(0), TermId(1)));
    Ok(())
}

// A union-find by size without path compression, with a log of the roots that were hung.
#[derive(Drop)]
struct UnionFind {
    parents: Vec<usize>,
    sizes: Vec<usize>,
    log: Vec<usize>,
}

fn at(list: &[usize], place: usize) -> usize {
    list.get(place).copied().unwrap_or(place)
}

fn put(list: &mut [usize], place: usize, value: usize) {
    if let Some(cell) = list.get_mut(place) {
        *cell = value;
    }
}

// A tree by size is at most as high as the number of bits.
fn root(sets: &UnionFind, node: usize) -> usize {
    let mut node = node;
    for _ in 0..64 {
        let parent = at(&sets.parents, node);
        if parent == node {
            return node;
        }
        node = parent;
    }
    node
}

fn hang(sets: &mut UnionFind, low: usize, high: usize) -> Result<(), Memory> {
    let size = at(&sets.sizes, low).saturating_add(at(&sets.sizes, high));
    put(&mut sets.parents, low, high);
    put(&mut sets.sizes, high, size);
    sets.log.push(low)?;
    Ok(())
}

fn unite(sets: &mut UnionFind, a: usize, b: usize) -> Result<(), Memory> {
    let a = root(sets, a);
    let b = root(sets, b);
    if a == b {
        return Ok(());
    }
    if at(&sets.sizes, a) <= at(&sets.sizes, b) {
        hang(sets, a, b)
    } else {
        hang(sets, b, a)
    }
}

fn take_back(sets: &mut UnionFind) {
    for _ in 0..sets.log.len() {
        if let Some(low) = sets.log.pop() {
            let high = at(&sets.parents, low);
            let size = at(&sets.sizes, high).saturating_sub(at(&sets.sizes, low));
            put(&mut sets.sizes, high, size);
            put(&mut sets.parents, low, low);
        }
    }
}

fn sets(alloc: Global, count: usize) -> Result<UnionFind, Memory> {
    let mut parents = Vec::new(alloc);
    let mut sizes = Vec::new(alloc);
    for i in 0..count {
        parents.push(i)?;
        sizes.push(1)?;
    }
    Ok(UnionFind {
        parents,
        sizes,
        log: Vec::new(alloc),
    })
}

fn unite_and_go_back(sets: &mut UnionFind) -> Result<(), Memory> {
    for i in 1..CONSTANTS {
        unite(sets, i - 1, i)?;
        unite(sets, CONSTANTS + i - 1, CONSTANTS + i)?;
    }
    take_back(sets);
    Ok(())
}

#[test]
fn unites_plainly(rt: HostRuntime) -> Result<(), Fail> {
    let mut nodes = sets(rt.alloc(), CONSTANTS * 2)?;
    for _ in 0..ROUNDS {
        unite_and_go_back(&mut nodes)?;
    }
    assert_eq!(rt; root(&nodes, 1), 1);
    Ok(())
}
