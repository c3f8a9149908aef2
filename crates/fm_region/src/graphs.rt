// E-graphs over constants of one sort, for tests.
ghost use Rattle.std.specs.Prelude.{◌≡◌, IsTrue, OnOk};
ghost use Rattle.fm_cong.specs.Held.{IsSettled, JoinsRegistered};
ghost use Rattle.fm_region.specs.Answers.{IsStrongOf};

use crate::{Regions, Strong};
use fm_bank::{Atom, Bank};
use fm_base::{Memory, Rank, Sig, SortId, SymId, TermId, Ty};
use fm_cong::Egraph;
use sqlite_items::Items;
use std::alloc::Global;
use std::process::Abort;

fn signature(alloc: Global, constants: usize) -> Result<Sig, Memory> {
    let mut ranks = Vec::new(alloc);
    for _constant in 0..constants {
        ranks.push(Rank {
            args: Items::new(alloc),
            result: Ty::Of(SortId(0)),
        })?;
    }
    let ranks = Items::from_vec(ranks);
    Ok(Sig { sorts: 1, ranks })
}

/// So many constants, by their numbers.
pub(crate) fn bank(rt: &impl Abort, alloc: Global, constants: usize) -> Result<Bank, Memory> {
    let sig = signature(alloc, constants)?;
    let mut bank = Bank::new(alloc, &sig)?;
    for constant in 0..constants {
        assert!(rt; bank.is_term(SymId(constant), &[]));
        bank.intern(SymId(constant), &[])?;
    }
    Ok(bank)
}

fn add(rt: &impl Abort, graph: &mut Egraph, bank: &Bank, number: usize) -> Result<(), Memory> {
    assert!(rt; number < bank.terms());
    let (_symbol, args) = bank.term(TermId(number));
    if args.is_empty() {
        graph.add_term(bank, TermId(number))?;
    }
    Ok(())
}

/// All constants are registered.
pub(crate) fn graph(rt: &impl Abort, alloc: Global, bank: &Bank) -> Result<Egraph, Memory> {
    let mut graph = Egraph::new(alloc)?;
    for number in 0..bank.terms() {
        add(rt, &mut graph, bank, number)?;
    }
    Ok(graph)
}

fn joins(graph: &Egraph, atom: Atom) -> bool
    ensures { IsTrue result → JoinsRegistered graph.now.shapes atom }
{
    match atom {
        Atom::Equal(a, b) => graph.is_registered(a) && graph.is_registered(b),
        Atom::Pred(term) => graph.is_registered(term),
        Atom::Card(_sort, _k) => false,
        Atom::Bound(_n) => false,
    }
}

/// Reads that two constants are equal, or unequal.
pub(crate) fn read(
    rt: &impl Abort,
    graph: &mut Egraph,
    bank: &mut Bank,
    pair: (usize, usize),
    equal: bool,
) -> Result<(), Memory> {
    let atom = Atom::Equal(TermId(pair.0), TermId(pair.1));
    assert!(rt; bank.is_atom(atom));
    let id = bank.atom(atom)?;
    assert!(rt; id.0 < bank.atoms());
    assert!(rt; joins(graph, bank.atom_of(id)));
    if equal {
        graph.merge(bank, id)
    } else {
        graph.unequal(bank, id)
    }
}

pub(crate) fn follow(
    rt: &impl Abort,
    regions: &mut Regions,
    graph: &Egraph,
    k: u64,
) -> Result<(), Memory> {
    assert!(rt; graph.is_settled());
    regions.follow(graph, k)
}

pub(crate) fn follow_strong(
    rt: &impl Abort,
    regions: &mut Regions,
    graph: &Egraph,
    k: u64,
) -> Result<Strong, Memory> {
    assert!(rt; graph.is_settled());
    regions.follow(graph, k)?;
    regions.strong(graph, k)
}
