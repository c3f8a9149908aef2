use crate::is_searchable;
use fm_bank::{Clause, ClauseSet, Plit};
use fm_base::{Memory, Patom, Pterm, Rank, Sig, SortId, SymId, Ty};
use sqlite_items::Items;
use std::alloc::Global;
use std::test::Fail;

const U: Ty = Ty::Of(SortId(0));

const V: Ty = Ty::Of(SortId(1));

type Row<'a> = (&'a [Ty], Ty);

// How many sorts there are, the ranks, a clause by its letter, and whether it can be searched.
const CASES: [(usize, &[Row], u8, bool); 15] = [
    (0, &[], b'-', true),
    (1, &[(&[], U)], b'a', true),
    (1, &[(&[], U), (&[], U)], b'a', true),
    // the fresh constant is there, or isn't
    (1, &[(&[], U)], b'x', true),
    (1, &[(&[U], U), (&[], U)], b'x', true),
    (1, &[(&[], U), (&[U], U)], b'x', false),
    (1, &[], b'x', false),
    (1, &[], b'-', false),
    // a symbol of an argument Bool, and a result of a sort that isn't there
    (1, &[(&[Ty::Bool], U), (&[], U)], b'x', false),
    (1, &[(&[], V), (&[], U)], b'x', false),
    // no variable y is declared
    (1, &[(&[], U)], b'y', false),
    // fresh constants in the order of the sorts
    (2, &[(&[], U), (&[], V)], b'x', true),
    (2, &[(&[], V), (&[], U)], b'x', false),
    (2, &[(&[], U), (&[], V)], b'a', true),
    (2, &[(&[], U), (&[], U)], b'a', false),
];

fn signature(alloc: Global, sorts: usize, rows: &[Row]) -> Result<Sig, Memory> {
    let mut ranks = Vec::new(alloc);
    for (args, result) in rows {
        ranks.push(Rank {
            args: Items::from_slice(alloc, args)?,
            result: *result,
        })?;
    }
    let ranks = Items::from_vec(ranks);
    Ok(Sig { sorts, ranks })
}

fn term(alloc: Global, letter: u8) -> Pterm {
    match letter {
        b'a' => Pterm::App(SymId(0), Items::new(alloc)),
        b'x' => Pterm::Var(0),
        _ => Pterm::Var(1),
    }
}

// The term is itself. One variable of the first sort is declared, but for the constant.
fn clause(alloc: Global, letter: u8) -> Result<Clause, Memory> {
    let mut vars = Vec::new(alloc);
    if letter != b'a' {
        vars.push(SortId(0))?;
    }
    let mut lits = Vec::new(alloc);
    lits.push(Plit {
        positive: true,
        atom: Patom::Equal(term(alloc, letter), term(alloc, letter)),
    })?;
    Ok(Clause {
        vars: Items::from_vec(vars),
        lits: Items::from_vec(lits),
    })
}

fn clauses(alloc: Global, sorts: usize, rows: &[Row], letter: u8) -> Result<ClauseSet, Memory> {
    let mut clauses = Vec::new(alloc);
    if letter != b'-' {
        clauses.push(clause(alloc, letter)?)?;
    }
    Ok(ClauseSet {
        sig: signature(alloc, sorts, rows)?,
        user: 0,
        clauses: Items::from_vec(clauses),
    })
}

#[test]
fn tells_what_can_be_searched(rt: HostRuntime) -> Result<(), Fail> {
    for row in 0..CASES.len() {
        let (sorts, rows, letter, wanted) = CASES[row];
        let clauses = clauses(rt.alloc(), sorts, rows, letter)?;
        assert!(rt; is_searchable(rt.alloc(), &clauses)? == wanted, "row {row}");
    }
    Ok(())
}
