use crate::{Logged, Sorts, find};
use fm_base::{Memory, SortId, TermId};
use std::alloc::Global;
use std::test::Fail;

// Cells with the numbers 10 to 12.
fn tens(alloc: Global) -> Result<Logged<usize>, Memory> {
    let mut list = Logged::new(alloc);
    for value in [10, 11, 12] {
        list.push(value)?;
    }
    Ok(list)
}

// Writes a cell that is there.
fn write(list: &mut Logged<usize>, place: usize, value: usize) -> Result<(), Memory> {
    if place < list.len() {
        list.set(place, value)?;
    }
    Ok(())
}

// The writes of cell 1, cell 1 again and cell 0, and a cell more, down to a length of the log.
fn taken_back(alloc: Global, to: usize) -> Result<Logged<usize>, Memory> {
    let mut list = tens(alloc)?;
    for (place, value) in [(1, 7), (1, 8), (0, 5)] {
        write(&mut list, place, value)?;
    }
    list.push(13)?;
    if to <= list.mark() {
        list.rewind(to);
    }
    Ok(list)
}

#[test]
fn takes_writes_back(rt: HostRuntime) -> Result<(), Fail> {
    let rows: [(usize, &[usize]); 4] = [
        (3, &[5, 8, 12, 13]),
        (2, &[10, 8, 12, 13]),
        (1, &[10, 7, 12, 13]),
        (0, &[10, 11, 12, 13]),
    ];
    for (to, cells) in rows {
        assert_eq!(rt;
            taken_back(rt.alloc(), to)?.cells.as_slice(),
            cells,
            "down to {to}"
        );
    }
    Ok(())
}

// Terms of a sort that are noted in this order.
fn noted(alloc: Global, numbers: &[usize]) -> Result<Sorts, Memory> {
    let mut sorts = Sorts::new(alloc);
    for number in numbers {
        sorts.announce(alloc, SortId(1))?;
        sorts.note(TermId(*number), SortId(1));
    }
    Ok(sorts)
}

// Whether the terms of a sort stand at these places, and no others do.
fn stand_at(sorts: &Sorts, sort: SortId, places: &[Option<usize>]) -> bool {
    let terms = sorts.terms(sort);
    for (number, place) in places.iter().enumerate() {
        if find(terms, number) != *place {
            return false;
        }
    }
    true
}

#[test]
fn lists_terms_in_order(rt: HostRuntime) -> Result<(), Fail> {
    let sorts = noted(rt.alloc(), &[4, 1, 3, 1])?;
    let places = [None, Some(0), None, Some(1), Some(2), None];
    assert!(rt; stand_at(&sorts, SortId(1), places.as_slice()));
    assert!(rt; stand_at(&sorts, SortId(0), [None; 6].as_slice()));
    assert!(rt; stand_at(&sorts, SortId(2), [None; 6].as_slice()));
    Ok(())
}
