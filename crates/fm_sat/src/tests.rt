ghost use Rattle.std.specs.Prelude.{IfOk};
ghost use Rattle.fm_sat.specs.Learning.{Explains};

use crate::checked::{add, decide, derive, learn, learn_from, propagate, refute};
use crate::scan::unit_of;
use crate::{Store, Unit};
use fm_base::{AtomId, Lit, Memory};
use fm_trail::Trail;
use std::alloc::Global;
use std::test::Fail;

// As in DIMACS: k is the atom k, -k its negation, and 0 ends a clause.
fn lit(number: isize) -> Lit {
    Lit {
        atom: AtomId(number.unsigned_abs()),
        positive: number > 0,
    }
}

fn store_of(alloc: Global, clauses: &[isize]) -> Result<Store, Memory> {
    let mut store = Store::new(alloc);
    let mut lits = Vec::new(alloc);
    for number in clauses {
        if *number == 0 {
            add(&mut store, lits.as_slice())?;
            lits.clear();
        } else {
            lits.push(lit(*number))?;
        }
    }
    Ok(store)
}

// The trail after all units, then these decisions, and then all units.
fn trail_of(alloc: Global, store: &Store, decisions: &[isize]) -> Result<Trail, Memory>
    ensures { IfOk result (λ t. Explains store.now.clauses t.entries) }
{
    let mut trail = Trail::new(alloc);
    propagate(store, &mut trail, 9)?;
    for number in decisions {
        decide(store, &mut trail, lit(*number))?;
    }
    propagate(store, &mut trail, 9)?;
    Ok(trail)
}

// A literal and the number of a clause, one after the other.
fn steps(alloc: Global, numbers: &[isize]) -> Result<Vec<(Lit, usize)>, Memory> {
    let mut steps = Vec::new(alloc);
    for pair in numbers.chunks(2) {
        if let [number, clause] = pair {
            steps.push((lit(*number), clause.unsigned_abs()))?;
        }
    }
    Ok(steps)
}

// The decisions alone make the trail here.
#[test]
fn finds_the_first(rt: HostRuntime) -> Result<(), Fail> {
    let none = store_of(rt.alloc(), &[])?;
    let rows: [(&[isize], &[isize], Option<usize>, Option<(usize, isize)>); 13] = [
        (&[1, 2, 0, -1, 2, 0], &[], None, None),
        (&[1, 2, 0, -1, 2, 0], &[-1], None, Some((0, 2))),
        (&[1, 2, 0, -1, 2, 0], &[1], None, Some((1, 2))),
        (&[1, 2, 0, -2, 0], &[], None, Some((1, -2))),
        (&[1, 2, 0, -1, 2, 0], &[-2, 1], Some(1), None),
        (&[1, 2, 3, 0], &[-1, -3], None, Some((0, 2))),
        (&[1, 2, 3, 0], &[-1, 2], None, None),
        (&[1, 2, 3, 0], &[-1, -3, -2], Some(0), None),
        (&[1, -1, 0], &[], None, None),
        (&[1, -1, 0], &[1], None, None),
        (&[0, 1, 0], &[], Some(0), Some((1, 1))),
        (&[1, 0, 2, 0], &[-2, -1], Some(0), None),
        (&[1, 0, 2, 0], &[-2], Some(1), Some((0, 1))),
    ];
    for (clauses, decisions, falsified, unit) in rows {
        let store = store_of(rt.alloc(), clauses)?;
        let trail = trail_of(rt.alloc(), &none, decisions)?;
        let unit = unit.map(|(clause, number)| Unit {
            clause,
            lit: lit(number),
        });
        assert_eq!(rt; store.falsified(&trail), falsified);
        assert_eq!(rt; store.next_unit(&trail), unit);
    }
    Ok(())
}

// A clause that says a literal twice is never unit, and `add` doesn't take it.
#[test]
fn counts_occurrences(rt: HostRuntime) -> Result<(), Fail> {
    let none = store_of(rt.alloc(), &[])?;
    let trail = trail_of(rt.alloc(), &none, &[-2])?;
    assert_eq!(rt; unit_of(&trail, &[lit(1), lit(1)]), None);
    assert_eq!(rt; unit_of(&trail, &[lit(2), lit(1), lit(2)]), Some(lit(1)));
    Ok(())
}

// The example of the Handbook of Satisfiability's chapter on conflict-driven clause learning.
const TEXTBOOK: &[isize] = &[
    1, 31, -2, 0, 1, -3, 0, 2, 3, 4, 0, -4, -5, 0, 21, -4, -6, 0, 5, 6, 0,
];

#[test]
fn learns(rt: HostRuntime) -> Result<(), Fail> {
    let rows: [(&[isize], &[isize], usize, &[isize], &[isize], usize); 5] = [
        (
            TEXTBOOK,
            &[20, -21, -31, 40, -1],
            5,
            &[6, 4, 5, 3],
            &[21, -4],
            2,
        ),
        // one literal alone is of the highest level: no step
        (&[1, 2, 0], &[-1, -2, 3], 0, &[], &[1, 2], 1),
        // a literal of level 0 stays
        (
            &[-3, 0, 1, 3, 2, 0, 1, -2, 3, 0],
            &[-1],
            2,
            &[-2, 1],
            &[3, 1],
            0,
        ),
        // back to the decision, and past an entry that has no part in it
        (
            &[-1, 2, 0, -1, 7, 0, -1, -2, 3, 0, -2, -3, 0],
            &[1],
            3,
            &[-3, 2, -2, 0],
            &[-1],
            0,
        ),
        // a repeat of a lower level is there once
        (
            &[9, -1, 2, 0, 9, -2, 3, 0, 9, -2, -3, 0],
            &[-9, 1],
            2,
            &[-3, 1],
            &[9, -2],
            1,
        ),
    ];
    for (clauses, decisions, start, wanted, lits, level) in rows {
        let store = store_of(rt.alloc(), clauses)?;
        let trail = trail_of(rt.alloc(), &store, decisions)?;
        let learnt = learn(&store, &trail)?.ok_or("there is a conflict")?;
        assert_eq!(rt; learnt.chain.start, start);
        assert_eq!(rt;
            learnt.chain.steps.as_slice(),
            steps(rt.alloc(), wanted)?.as_slice()
        );
        assert_eq!(rt; learnt.level, level);
        assert_eq!(rt; Some(learnt.lit), lits.last().map(|number| lit(*number)));
        assert_eq!(rt; learnt.lits.len(), lits.len());
        assert!(rt;
            lits.iter()
                .all(|number| learnt.lits.contains(&lit(*number)))
        );
    }
    Ok(())
}

// After learning the trail is at the clause's level, and the clause is the reason of its literal.
#[test]
fn goes_on(rt: HostRuntime) -> Result<(), Fail> {
    let rows: [(&[isize], &[isize], isize, usize, usize); 2] = [
        (TEXTBOOK, &[20, -21, -31, 40, -1], -4, 2, 7),
        (&[1, 2, 0], &[-1, -2, 3], 2, 1, 1),
    ];
    for (clauses, decisions, number, level, count) in rows {
        let mut store = store_of(rt.alloc(), clauses)?;
        let mut trail = trail_of(rt.alloc(), &store, decisions)?;
        learn_from(&mut store, &mut trail)?;
        assert_eq!(rt; trail.level(), level);
        assert_eq!(rt; trail.value(lit(number).atom), Some(number > 0));
        assert_eq!(rt; store.len(), count);
    }
    Ok(())
}

// The trail is at level 1 when the clause of level 0 is refuted.
#[test]
fn refutes(rt: HostRuntime) -> Result<(), Fail> {
    let rows: [(&[isize], usize, &[isize]); 4] = [
        (&[1, 0, -1, 2, 0, -2, 0], 2, &[-2, 1, -1, 0]),
        (&[1, 0, 0], 1, &[]),
        (&[1, 0, -1, 0], 1, &[-1, 0]),
        (
            &[1, 0, -1, 2, 0, -1, 3, 0, -2, -3, 0],
            3,
            &[-3, 2, -2, 1, -1, 0],
        ),
    ];
    for (clauses, start, wanted) in rows {
        let store = store_of(rt.alloc(), clauses)?;
        let trail = trail_of(rt.alloc(), &store, &[9])?;
        let chain = refute(&store, &trail)?.ok_or("it is false at level 0")?;
        assert_eq!(rt; chain.start, start);
        assert_eq!(rt;
            chain.steps.as_slice(),
            steps(rt.alloc(), wanted)?.as_slice()
        );
    }
    Ok(())
}

#[test]
fn derives(rt: HostRuntime) -> Result<(), Fail> {
    let store = store_of(rt.alloc(), &[1, 0, -1, 2, 0, -1, 3, 0, -2, -3, 4, 0])?;
    let trail = trail_of(rt.alloc(), &store, &[9])?;
    let rows: [(usize, &[isize]); 4] = [
        (0, &[]),
        (1, &[-1, 0]),
        (2, &[-1, 0]),
        (3, &[-3, 2, -2, 1, -1, 0]),
    ];
    for (place, wanted) in rows {
        let chain = derive(&store, &trail, place)?.ok_or("it is of level 0")?;
        assert_eq!(rt; chain.start, place);
        assert_eq!(rt;
            chain.steps.as_slice(),
            steps(rt.alloc(), wanted)?.as_slice()
        );
    }
    assert!(rt; derive(&store, &trail, 4)?.is_none());
    Ok(())
}
