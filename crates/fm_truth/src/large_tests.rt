// Formulas of many tuples, members and variables, on the stack as it is given.
use crate::checked::truths;
use crate::truth_tests::{U, V, apply, exists, forall, not, r, signature, with_pairs};
use fm_base::{Formula, Fterm, Memory, SortId};
use sqlite_items::Items;
use std::alloc::Global;
use std::test::Fail;

// The exceptions of the order of the elements, three numbers each.
fn ascending_pairs(alloc: Global, size: u64) -> Result<Vec<u64>, Memory> {
    let mut numbers = Vec::new(alloc);
    for left in 0..size {
        push_pairs(&mut numbers, left, size)?;
    }
    Ok(numbers)
}

fn push_pairs(numbers: &mut Vec<u64>, left: u64, size: u64) -> Result<(), Memory> {
    for right in left..size {
        if left < right {
            numbers.push(left)?;
            numbers.push(right)?;
            numbers.push(1)?;
        }
    }
    Ok(())
}

fn is_transitive(alloc: Global) -> Result<Formula, Memory> {
    let mut members = Vec::new(alloc);
    members.push(not(alloc, r(alloc, Fterm::Var(0), Fterm::Var(1))?)?)?;
    members.push(not(alloc, r(alloc, Fterm::Var(1), Fterm::Var(2))?)?)?;
    members.push(r(alloc, Fterm::Var(0), Fterm::Var(2))?)?;
    forall(alloc, &[U, U, U], Formula::Or(Items::from_vec(members)))
}

// The last of the members alone is false.
fn long_conjunction(alloc: Global, count: usize) -> Result<Formula, Memory> {
    let mut members = Vec::new(alloc);
    for _i in 0..count {
        members.push(Formula::Truth(true))?;
    }
    members.push(Formula::Truth(false))?;
    Ok(Formula::And(Items::from_vec(members)))
}

fn variables(alloc: Global, count: usize) -> Result<Vec<SortId>, Memory> {
    let mut sorts = Vec::new(alloc);
    for _i in 0..count {
        sorts.push(V)?;
    }
    Ok(sorts)
}

// What g gives the first and the last of the variables is the same, or isn't.
fn wide_block(alloc: Global, same: bool, last: usize) -> Result<Formula, Memory> {
    let sorts = variables(alloc, last.saturating_add(1))?;
    let first = apply(alloc, 3, Fterm::Var(0))?;
    let equal = Formula::Equal(first, apply(alloc, 3, Fterm::Var(last))?);
    if same {
        forall(alloc, sorts.as_slice(), equal)
    } else {
        exists(alloc, sorts.as_slice(), not(alloc, equal)?)
    }
}

// 8 million tuples. A benchmark too: after `rt test`, `time out/fm_truth_tests large_tests::reads_every_tuple`.
#[test]
fn reads_every_tuple(rt: HostRuntime) -> Result<(), Fail> {
    let sig = signature(rt.alloc())?;
    let pairs = ascending_pairs(rt.alloc(), 200)?;
    let interp = with_pairs(rt.alloc(), 200, &[], pairs.as_slice())?;
    let formulas = [is_transitive(rt.alloc())?];
    let found = truths(rt.alloc(), &sig, &interp, &formulas)?.ok_or("they fit")?;
    assert_eq!(rt; found.as_slice(), [true].as_slice());
    Ok(())
}

fn long_formula(alloc: Global, number: usize) -> Result<Formula, Memory> {
    match number {
        0 => long_conjunction(alloc, 1_000_000),
        1 => wide_block(alloc, true, 99_999),
        _ => wide_block(alloc, false, 99_999),
    }
}

#[test]
fn evaluates_long_formulas(rt: HostRuntime) -> Result<(), Fail> {
    let sig = signature(rt.alloc())?;
    let interp = with_pairs(rt.alloc(), 2, &[], &[])?;
    for (number, wanted) in [false, true, false].iter().enumerate() {
        let formulas = [long_formula(rt.alloc(), number)?];
        let found = truths(rt.alloc(), &sig, &interp, &formulas)?.ok_or("they fit")?;
        assert_eq!(rt; found.as_slice(), [*wanted].as_slice(), "formula {number}");
    }
    Ok(())
}
