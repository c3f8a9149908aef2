// A million entries pushed, implied by unit clauses and taken back, and a clause learnt in a thousand steps. A
// benchmark too: `./bench sat` at the top.
use crate::checked::{add, back_to, decide, learn, propagate};
use crate::{Learnt, Store};
use fm_base::{AtomId, Lit, Memory};
use fm_trail::Trail;
use std::alloc::Global;
use std::test::Fail;

fn lit(atom: usize, positive: bool) -> Lit {
    Lit {
        atom: AtomId(atom),
        positive,
    }
}

// The atom 0 implies the atom 1, any two neighbours imply the next one, and the last two aren't both true.
fn ladder(alloc: Global, last: usize) -> Result<Store, Memory> {
    let mut store = Store::new(alloc);
    add(&mut store, &[lit(0, false), lit(1, true)])?;
    for atom in 2..last {
        let before = lit(atom.saturating_sub(2), false);
        let clause = [before, lit(atom.saturating_sub(1), false), lit(atom, true)];
        add(&mut store, &clause)?;
    }
    let top = lit(last.saturating_sub(1), false);
    add(&mut store, &[lit(last.saturating_sub(2), false), top])?;
    Ok(store)
}

// Entries pushed and taken back.
fn go_up_and_down(alloc: Global, store: &Store, rounds: usize) -> Result<usize, Memory> {
    let mut trail = Trail::new(alloc);
    let mut entries: usize = 0;
    for _ in 0..rounds {
        decide(store, &mut trail, lit(0, true))?;
        propagate(store, &mut trail, store.len().saturating_sub(1))?;
        entries = entries.saturating_add(trail.len());
        back_to(store, &mut trail, 0);
    }
    Ok(entries)
}

fn learn_once(alloc: Global, store: &Store) -> Result<Option<Learnt>, Memory> {
    let mut trail = Trail::new(alloc);
    decide(store, &mut trail, lit(0, true))?;
    propagate(store, &mut trail, store.len().saturating_sub(1))?;
    learn(store, &trail)
}

#[test]
fn propagates_a_million_entries(rt: HostRuntime) -> Result<(), Fail> {
    let short = ladder(rt.alloc(), 100)?;
    assert_eq!(rt; go_up_and_down(rt.alloc(), &short, 10_000)?, 1_000_000);
    let long = ladder(rt.alloc(), 1001)?;
    let learnt = learn_once(rt.alloc(), &long)?.ok_or("there is a conflict")?;
    assert_eq!(rt; learnt.chain.steps.len(), 1000);
    assert_eq!(rt; learnt.lits.as_slice(), [lit(0, false)].as_slice());
    Ok(())
}
