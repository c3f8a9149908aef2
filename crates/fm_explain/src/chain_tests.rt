// A chain of a hundred equalities: all of them show that its ends are equal.
ghost use Rattle.fm_explain.specs.Explanations.{IsKnownBy};

use crate::tests::{of_terms, read, register_all};
use fm_bank::{Atom, Bank};
use fm_base::{AtomId, Memory, Rank, Sig, SortId, SymId, TermId, Ty};
use fm_cong::Egraph;
use sqlite_items::Items;
use std::alloc::Global;
use std::process::Abort;
use std::test::Fail;

const LINKS: usize = 100;

// So many constants of one sort.
fn signature(alloc: Global, count: usize) -> Result<Sig, Memory> {
    let mut ranks = Vec::new(alloc);
    for _ in 0..count {
        ranks.push(Rank {
            args: Items::new(alloc),
            result: Ty::Of(SortId(0)),
        })?;
    }
    Ok(Sig {
        sorts: 1,
        ranks: Items::from_vec(ranks),
    })
}

fn put_term(rt: &impl Abort, bank: &mut Bank, number: usize) -> Result<(), Memory> {
    assert!(rt; bank.is_term(SymId(number), &[]));
    bank.intern(SymId(number), &[])?;
    Ok(())
}

fn put_atom(rt: &impl Abort, bank: &mut Bank, left: TermId, right: TermId) -> Result<(), Memory> {
    let atom = Atom::Equal(left, right);
    assert!(rt; bank.is_atom(atom));
    bank.atom(atom)?;
    Ok(())
}

fn fill(rt: &impl Abort, bank: &mut Bank) -> Result<(), Memory> {
    put_term(rt, bank, 0)?;
    for i in 0..LINKS {
        put_term(rt, bank, i + 1)?;
        put_atom(rt, bank, TermId(i), TermId(i + 1))?;
    }
    Ok(())
}

fn read_atoms(graph: &mut Egraph, bank: &Bank) -> Result<(), Memory>
    requires { IsKnownBy graph.old bank.now }
    ensures { IsKnownBy graph.new bank.now }
{
    for i in 0..bank.atoms() {
        read(graph, bank, AtomId(i), true)?;
    }
    Ok(())
}

fn count_literals(rt: &impl Abort, alloc: Global, bank: &Bank) -> Result<usize, Memory> {
    let mut graph = Egraph::new(alloc)?;
    register_all(rt, &mut graph, bank)?;
    read_atoms(&mut graph, bank)?;
    let lits = of_terms(rt, alloc, &graph, bank, TermId(0), TermId(LINKS))?;
    Ok(lits.len())
}

#[test]
fn explains_a_chain(rt: HostRuntime) -> Result<(), Fail> {
    let mut bank = Bank::new(rt.alloc(), &signature(rt.alloc(), LINKS + 1)?)?;
    fill(&rt, &mut bank)?;
    assert_eq!(rt; count_literals(&rt, rt.alloc(), &bank)?, LINKS);
    Ok(())
}
