use crate::tables::fits;
use fm_base::{Interp, Rank, Sig, SortId, Table, Ty};
use sqlite_items::Items;
use std::alloc::{AllocError, Global};
use std::test::Fail;

// A function from the first of two sorts to the second, and a predicate on both.
fn signature(alloc: Global) -> Result<Sig, AllocError> {
    let mut ranks = Vec::new(alloc);
    let from = Ty::Of(SortId(0));
    let to = Ty::Of(SortId(1));
    ranks.push(Rank {
        args: Items::from_slice(alloc, &[from])?,
        result: to,
    })?;
    ranks.push(Rank {
        args: Items::from_slice(alloc, &[from, to])?,
        result: Ty::Bool,
    })?;
    Ok(Sig {
        sorts: 2,
        ranks: Items::from_vec(ranks),
    })
}

// The exceptions stand one after another in `numbers`, each a tuple of `arity` numbers and its value.
pub fn table(
    alloc: Global,
    default: u64,
    arity: usize,
    numbers: &[u64],
) -> Result<Table, AllocError> {
    let mut entries = Vec::new(alloc);
    for entry in numbers.chunks_exact(arity.saturating_add(1)) {
        if let Some((value, tuple)) = entry.split_last() {
            entries.push((Items::from_slice(alloc, tuple)?, *value))?;
        }
    }
    Ok(Table {
        default,
        except: Items::from_vec(entries),
    })
}

fn interpretation(
    alloc: Global,
    sizes: &[u64],
    first: Table,
    second: Table,
) -> Result<Interp, AllocError> {
    let mut tables = Vec::new(alloc);
    tables.push(first)?;
    tables.push(second)?;
    Ok(Interp {
        sizes: Items::from_slice(alloc, sizes)?,
        tables: Items::from_vec(tables),
    })
}

#[test]
fn fits_signatures(rt: HostRuntime) -> Result<(), Fail> {
    let sig = signature(rt.alloc())?;
    let none = [].as_slice();
    let rows: [(&[u64], u64, &[u64], u64, &[u64], bool); 13] = [
        (&[2, 3], 0, &[1, 2], 0, &[0, 1, 1, 1, 0, 1], true),
        (&[2, 3], 2, none, 1, &[1, 2, 0], true),
        (&[2], 0, none, 0, none, false),
        (&[2, 3, 1], 0, none, 0, none, false),
        (&[0, 3], 0, none, 0, none, false),
        (&[2, 3], 3, none, 0, none, false),
        (&[2, 3], 0, &[2, 1], 0, none, false),
        (&[2, 3], 0, &[1, 3], 0, none, false),
        (&[2, 3], 0, &[1, 0], 0, none, false),
        (&[2, 3], 0, none, 2, none, false),
        (&[2, 3], 0, none, 0, &[1, 3, 1], false),
        (&[2, 3], 0, none, 0, &[1, 0, 1, 0, 1, 1], false),
        (&[2, 3], 0, none, 0, &[1, 0, 1, 1, 0, 1], false),
    ];
    for (sizes, first, first_except, second, second_except, wanted) in rows {
        let first = table(rt.alloc(), first, 1, first_except)?;
        let second = table(rt.alloc(), second, 2, second_except)?;
        let interp = interpretation(rt.alloc(), sizes, first, second)?;
        assert_eq!(rt; fits(&sig, &interp), wanted);
    }
    Ok(())
}
