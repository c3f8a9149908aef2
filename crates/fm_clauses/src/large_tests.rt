// A hundred thousand clauses, of many assertions or of one: benchmarks too, by `./bench clauses` at the top.
use crate::built::built;
use crate::tests::signature;
use crate::{Problem, clauses_of};
use fm_base::{Formula, Memory};
use sqlite_items::Items;
use std::alloc::Global;
use std::test::Fail;

fn add_formula(alloc: Global, letters: &[u8], list: &mut Vec<Formula>) -> Result<(), Memory> {
    let formula = built(alloc, letters)?;
    list.push(formula)?;
    Ok(())
}

fn formulas(alloc: Global, letters: &[u8], count: usize) -> Result<Vec<Formula>, Memory> {
    let mut list = Vec::new(alloc);
    for _ in 0..count {
        add_formula(alloc, letters, &mut list)?;
    }
    Ok(list)
}

fn count_clauses(alloc: Global, assertions: &[Formula]) -> Result<usize, Memory> {
    let sig = signature(alloc, 1)?;
    let problem = Problem {
        sig: &sig,
        assertions,
    };
    let set = clauses_of(alloc, &problem)?;
    Ok(set.clauses.len())
}

// Each has a proxy of its variable, and three clauses.
const MEMBER: &[u8] = b"0paq&r|A";

#[test]
fn makes_clauses_of_many_assertions(rt: HostRuntime) -> Result<(), Fail> {
    let assertions = formulas(rt.alloc(), MEMBER, 33_334)?;
    assert_eq!(rt; count_clauses(rt.alloc(), assertions.as_slice())?, 100_002);
    Ok(())
}

#[test]
fn makes_clauses_of_one_assertion(rt: HostRuntime) -> Result<(), Fail> {
    let members = formulas(rt.alloc(), MEMBER, 33_334)?;
    let mut list = Vec::new(rt.alloc());
    list.push(Formula::And(Items::from_vec(members)))?;
    assert_eq!(rt; count_clauses(rt.alloc(), list.as_slice())?, 100_002);
    Ok(())
}
