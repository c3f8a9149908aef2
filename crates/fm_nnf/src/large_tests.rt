// A million nodes lifted, a million brought into normal form, and thirty nested equivalences counted: benchmarks too,
// by `./bench normal` at the top. And formulas of the greatest depth, 400.
use crate::bounds::size_of;
use crate::built::built;
use crate::normal;
use crate::tests::{lifted_of, nested_size};
use fm_base::{Formula, Memory};
use sqlite_items::Items;
use std::alloc::Global;
use std::test::Fail;

fn add_member(alloc: Global, letters: &[u8], list: &mut Vec<Formula>) -> Result<(), Memory> {
    let member = built(alloc, letters)?;
    list.push(member)?;
    Ok(())
}

fn conjunction(alloc: Global, letters: &[u8], members: usize) -> Result<Formula, Memory> {
    let mut list = Vec::new(alloc);
    for _ in 0..members {
        add_member(alloc, letters, &mut list)?;
    }
    Ok(Formula::And(Items::from_vec(list)))
}

fn count_definitions(alloc: Global, formula: &Formula) -> Result<usize, Memory> {
    let lifted = lifted_of(alloc, formula)?;
    Ok(lifted.definitions.as_slice().len())
}

fn count_symbols(alloc: Global, formula: &Formula) -> Result<usize, Memory> {
    let (_form, ranks) = normal(alloc, formula, 12)?;
    Ok(ranks.as_slice().len())
}

// Each member says of every element that `p` holds of it or of a constant, as it is one of which `q` holds: 7 nodes.
#[test]
fn lifts_a_million_nodes(rt: HostRuntime) -> Result<(), Fail> {
    let formula = conjunction(rt.alloc(), b"0q0aipA", 140_000)?;
    assert_eq!(rt; count_definitions(rt.alloc(), &formula)?, 140_000);
    Ok(())
}

// Each member says of every element that it is an element of which `p` fails: 9 nodes, and 8 in normal form.
#[test]
fn forms_a_million_nodes(rt: HostRuntime) -> Result<(), Fail> {
    let formula = conjunction(rt.alloc(), b"01=0p!&EA", 110_000)?;
    assert_eq!(rt; count_symbols(rt.alloc(), &formula)?, 110_000);
    assert_eq!(rt; size_of(&formula), Some(880_001));
    Ok(())
}

#[test]
fn counts_nested_equivalences(rt: HostRuntime) -> Result<(), Fail> {
    assert_eq!(rt; nested_size(rt.alloc(), 30)?, Some(1_000_001));
    Ok(())
}

fn add_times(letters: &mut Vec<u8>, part: &[u8], times: usize) -> Result<(), Memory> {
    for _ in 0..times {
        letters.extend_from_slice(part)?;
    }
    Ok(())
}

// Choices nested in their last branches: of formulas, or of terms of one atom.
fn nested(
    alloc: Global,
    front: &[u8],
    last: &[u8],
    choice: &[u8],
    end: &[u8],
) -> Result<Formula, Memory> {
    let mut letters = Vec::new(alloc);
    add_times(&mut letters, front, 397)?;
    letters.extend_from_slice(last)?;
    add_times(&mut letters, choice, 397)?;
    letters.extend_from_slice(end)?;
    built(alloc, letters.as_slice())
}

fn goes_deep(alloc: Global, formula: &Formula, definitions: usize) -> Result<bool, Memory> {
    let count = count_definitions(alloc, formula)?;
    let symbols = count_symbols(alloc, formula)?;
    Ok(count == definitions && symbols == 0)
}

#[test]
fn goes_four_hundred_deep(rt: HostRuntime) -> Result<(), Fail> {
    let formulas = nested(rt.alloc(), b"rr", b"ap", b"?", b"ap&")?;
    assert!(rt; goes_deep(rt.alloc(), &formulas, 0)?);
    let terms = nested(rt.alloc(), b"ra", b"b", b"i", b"pap&")?;
    assert!(rt; goes_deep(rt.alloc(), &terms, 397)?);
    Ok(())
}
