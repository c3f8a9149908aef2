use crate::{answer, are_thin};
use fm_base::{Formula, Fterm, Memory, Rank, Sig, SortId, SymId, Ty};
use fm_cert::Claim;
use sqlite_items::Items;
use std::alloc::Global;

// Two sorts, the constants 0 and 1 of sort 0 and 2 of sort 1, and the function 3 from sort 0 to a sort.
fn signature(alloc: Global, sort_of_function: usize) -> Result<Sig, Memory> {
    let mut ranks = Vec::new(alloc);
    for sort in [0, 0, 1] {
        ranks.push(Rank {
            args: Items::new(alloc),
            result: Ty::Of(SortId(sort)),
        })?;
    }
    ranks.push(Rank {
        args: Items::from_slice(alloc, &[Ty::Of(SortId(0))])?,
        result: Ty::Of(SortId(sort_of_function)),
    })?;
    Ok(Sig {
        sorts: 2,
        ranks: Items::from_vec(ranks),
    })
}

fn equation(alloc: Global, left: usize, right: usize) -> Formula {
    Formula::Equal(
        Fterm::App(SymId(left), Items::new(alloc)),
        Fterm::App(SymId(right), Items::new(alloc)),
    )
}

// An equation, or a truth value where the symbols are 8 and 0 or 1.
fn formula(alloc: Global, row: (usize, usize)) -> Formula {
    if row.0 == 8 {
        Formula::Truth(row.1 == 1)
    } else {
        equation(alloc, row.0, row.1)
    }
}

fn formulas(alloc: Global, rows: &[(usize, usize)]) -> Result<Vec<Formula>, Memory> {
    let mut list = Vec::new(alloc);
    for place in 0..rows.len() {
        let row = rows[place];
        list.push(formula(alloc, row))?;
    }
    Ok(list)
}

// What each is: not thin, unsat, or sat.
fn outcome(alloc: Global, sort_of_function: usize, rows: &[(usize, usize)]) -> Result<u64, Memory> {
    let sig = signature(alloc, sort_of_function)?;
    let list = formulas(alloc, rows)?;
    if !are_thin(&sig, list.as_slice()) {
        return Ok(0);
    }
    let block = answer(alloc, 0, &sig, list.as_slice())?;
    match block.claim {
        Claim::Unsat => Ok(1),
        Claim::Sat { sum, .. } => Ok(sum),
        Claim::Unknown { .. } => Ok(9),
    }
}

#[test]
fn thin_assertions(rt: HostRuntime) -> Result<(), Memory> {
    let rows: [(usize, &[(usize, usize)], u64); 9] = [
        (0, &[], 2),
        (2, &[], 0),
        (0, &[(0, 1), (2, 2)], 2),
        (0, &[(0, 2)], 0),
        (0, &[(3, 0)], 0),
        (0, &[(0, 4)], 0),
        (0, &[(8, 1)], 2),
        (0, &[(8, 0)], 1),
        (0, &[(0, 1), (8, 1), (8, 0), (8, 0)], 1),
    ];
    for place in 0..rows.len() {
        let row = rows[place];
        if outcome(rt.alloc(), row.0, row.1)? != row.2 {
            return Err(Memory);
        }
    }
    Ok(())
}
