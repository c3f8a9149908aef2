ghost use Rattle.std.specs.Prelude.{◌≡◌};
ghost use Rattle.std.specs.List.{list_all};
ghost use Rattle.fm_bank.specs.Sorted.{is_sorted_clause};

use crate::instances::failing;
use fm_bank::{Clause, ClauseSet, Plit};
use fm_base::{Interp, Memory, Patom, Pterm, Rank, Sig, SortId, SymId, Table, TermId, Ty};
use fm_rounds::{Candidate, Failing};
use fm_truth::fits;
use sqlite_items::Items;
use std::alloc::Global;
use std::test::Fail;

const U: SortId = SortId(0);

const V: SortId = SortId(1);

// The symbols, by number: f from U to itself, p on U and V, a constant a of U and one of V, and q without arguments.
const F: usize = 0;

const P: usize = 1;

const A: usize = 2;

const Q: usize = 4;

const RANKS: [(&[Ty], Ty); 5] = [
    (&[Ty::Of(U)], Ty::Of(U)),
    (&[Ty::Of(U), Ty::Of(V)], Ty::Bool),
    (&[], Ty::Of(U)),
    (&[], Ty::Of(V)),
    (&[], Ty::Bool),
];

fn signature(alloc: Global) -> Result<Sig, Memory> {
    let mut ranks = Vec::new(alloc);
    for (args, result) in &RANKS {
        let args = Items::from_slice(alloc, args)?;
        ranks.push(Rank {
            args,
            result: *result,
        })?;
    }
    let ranks = Items::from_vec(ranks);
    Ok(Sig { sorts: 2, ranks })
}

fn one(alloc: Global, term: Pterm) -> Result<Items<Pterm>, Memory> {
    let mut terms = Vec::new(alloc);
    terms.push(term)?;
    Ok(Items::from_vec(terms))
}

fn f(alloc: Global, term: Pterm) -> Result<Pterm, Memory> {
    let terms = one(alloc, term)?;
    Ok(Pterm::App(SymId(F), terms))
}

fn p(alloc: Global, first: usize, second: usize) -> Result<Patom, Memory> {
    let mut terms = Vec::new(alloc);
    terms.push(Pterm::Var(first))?;
    terms.push(Pterm::Var(second))?;
    let terms = Items::from_vec(terms);
    Ok(Patom::Pred(SymId(P), terms))
}

fn constant(alloc: Global, symbol: usize) -> Pterm {
    let none = Items::new(alloc);
    Pterm::App(SymId(symbol), none)
}

fn q(alloc: Global) -> Patom {
    let none = Items::new(alloc);
    Patom::Pred(SymId(Q), none)
}

// The variable is its own image.
fn is_fixed(alloc: Global, variable: usize) -> Result<Patom, Memory> {
    let image = f(alloc, Pterm::Var(variable))?;
    Ok(Patom::Equal(image, Pterm::Var(variable)))
}

fn constant_is_fixed(alloc: Global) -> Result<Patom, Memory> {
    let image = f(alloc, constant(alloc, A))?;
    let itself = constant(alloc, A);
    Ok(Patom::Equal(image, itself))
}

fn clause(alloc: Global, vars: &[SortId], positive: bool, atom: Patom) -> Result<Clause, Memory> {
    let vars = Items::from_slice(alloc, vars)?;
    let mut lits = Vec::new(alloc);
    lits.push(Plit { positive, atom })?;
    let lits = Items::from_vec(lits);
    Ok(Clause { vars, lits })
}

// An element of U, behind one of V, is its own image, or p holds of them.
fn fixed_or_paired(alloc: Global) -> Result<Clause, Memory> {
    let vars = Items::from_slice(alloc, &[V, U])?;
    let positive = true;
    let mut lits = Vec::new(alloc);
    let atom = is_fixed(alloc, 1)?;
    lits.push(Plit { positive, atom })?;
    let atom = p(alloc, 1, 0)?;
    lits.push(Plit { positive, atom })?;
    let lits = Items::from_vec(lits);
    Ok(Clause { vars, lits })
}

fn clause_of(alloc: Global, number: usize) -> Result<Clause, Memory> {
    match number {
        0 => clause(alloc, &[U], false, is_fixed(alloc, 0)?),
        1 => clause(alloc, &[U, V], true, p(alloc, 0, 1)?),
        2 => clause(alloc, &[], true, q(alloc)),
        3 => clause(alloc, &[], false, q(alloc)),
        4 => fixed_or_paired(alloc),
        _ => clause(alloc, &[], true, constant_is_fixed(alloc)?),
    }
}

fn set_of(alloc: Global, numbers: &[usize]) -> Result<ClauseSet, Memory> {
    let mut clauses = Vec::new(alloc);
    for number in numbers {
        let clause = clause_of(alloc, *number)?;
        clauses.push(clause)?;
    }
    let clauses = Items::from_vec(clauses);
    let sig = signature(alloc)?;
    Ok(ClauseSet {
        sig,
        user: 5,
        clauses,
    })
}

// The exceptions stand one after another in `numbers`, each a tuple of `arity` numbers and its value.
fn table(alloc: Global, default: u64, arity: usize, numbers: &[u64]) -> Result<Table, Memory> {
    let mut entries = Vec::new(alloc);
    for entry in numbers.chunks_exact(arity.saturating_add(1)) {
        if let Some((value, tuple)) = entry.split_last() {
            entries.push((Items::from_slice(alloc, tuple)?, *value))?;
        }
    }
    let except = Items::from_vec(entries);
    Ok(Table { default, except })
}

// The tables of f and of p by their exceptions; q is the last of the constants' values.
fn interpretation(
    alloc: Global,
    sizes: &[u64],
    f: &[u64],
    p: &[u64],
    q: u64,
) -> Result<Interp, Memory> {
    let mut tables = Vec::new(alloc);
    tables.push(table(alloc, 0, 1, f)?)?;
    tables.push(table(alloc, 0, 2, p)?)?;
    for value in [0, 0, q] {
        tables.push(table(alloc, value, 0, &[])?)?;
    }
    let sizes = Items::from_slice(alloc, sizes)?;
    let tables = Items::from_vec(tables);
    Ok(Interp { sizes, tables })
}

// The terms from 10 on stand for the elements of U, and those from 20 on for the elements of V.
fn representatives(alloc: Global) -> Result<Items<Items<TermId>>, Memory> {
    let mut reps = Vec::new(alloc);
    reps.push(Items::from_slice(alloc, &[TermId(10), TermId(11), TermId(12)])?)?;
    reps.push(Items::from_slice(alloc, &[TermId(20), TermId(21)])?)?;
    Ok(Items::from_vec(reps))
}

fn are_sorted(sig: &Sig, clauses: &[Clause]) -> bool
    ensures { result ≡ list_all (is_sorted_clause sig.now) clauses.now }
{
    clauses.iter().all(|clause| clause.is_sorted(sig))
}

// None where the clauses aren't well sorted or the tables don't fit.
fn first_of(
    alloc: Global,
    set: &ClauseSet,
    candidate: &Candidate,
) -> Result<Option<Option<Failing>>, Memory> {
    if !fits(&set.sig, &candidate.interp) || !are_sorted(&set.sig, set.clauses.as_slice()) {
        return Ok(None);
    }
    let found = failing(alloc, set, candidate, &[])?;
    Ok(Some(found))
}

type Instance<'a> = Option<(usize, &'a [usize])>;

fn are_terms(terms: &[TermId], numbers: &[usize]) -> bool {
    if terms.len() != numbers.len() {
        return false;
    }
    for place in 0..terms.len() {
        if terms[place].0 != numbers[place] {
            return false;
        }
    }
    true
}

fn is_instance(found: &Option<Option<Failing>>, wanted: Instance<'_>) -> bool {
    match (found, wanted) {
        (Some(None), None) => true,
        (Some(Some(failing)), Some((place, terms))) => {
            failing.clause == place && are_terms(failing.terms.as_slice(), terms)
        }
        _ => false,
    }
}

// The sizes, the exceptions of f and of p, the value of q, the clauses, and the instance that fails.
type Row<'a> = (
    &'a [u64],
    &'a [u64],
    &'a [u64],
    u64,
    &'a [usize],
    Instance<'a>,
);

const EVERY_PAIR: &[u64] = &[0, 0, 1, 0, 1, 1, 1, 0, 1, 1, 1, 1];

// The rows are worked out by hand: f without exceptions gives 0, and p without exceptions is false.
const ROWS: [Row<'static>; 16] = [
    (&[1, 1], &[], &[], 0, &[0], Some((0, &[10]))),
    (&[2, 1], &[0, 1], &[], 0, &[0], None),
    (&[3, 1], &[0, 1], &[], 0, &[0], None),
    (&[3, 1], &[0, 1, 2, 2], &[], 0, &[0], Some((0, &[12]))),
    (&[2, 2], &[], &[0, 0, 1], 0, &[1], Some((0, &[10, 21]))),
    (
        &[2, 2],
        &[],
        &[0, 0, 1, 0, 1, 1, 1, 1, 1],
        0,
        &[1],
        Some((0, &[11, 20])),
    ),
    (&[2, 2], &[], EVERY_PAIR, 0, &[1], None),
    (&[1, 1], &[], &[], 0, &[2], Some((0, &[]))),
    (&[1, 1], &[], &[], 1, &[2], None),
    (&[1, 1], &[], &[], 1, &[2, 3], Some((1, &[]))),
    (&[1, 1], &[], &[], 0, &[3, 2], Some((1, &[]))),
    (
        &[2, 2],
        &[0, 1],
        &[0, 0, 1, 0, 1, 1, 1, 0, 1],
        0,
        &[4],
        Some((0, &[21, 11])),
    ),
    (&[2, 2], &[1, 1], &[0, 0, 1, 0, 1, 1], 0, &[4], None),
    (&[2, 1], &[0, 1], &[], 0, &[3, 5], Some((1, &[]))),
    (&[1, 1], &[], &[], 0, &[5, 0, 1], Some((1, &[10]))),
    (&[1, 1], &[], &[], 0, &[1, 0], Some((0, &[10, 20]))),
];

fn is_right(alloc: Global, row: usize) -> Result<bool, Memory> {
    let (sizes, f, p, q, clauses, wanted) = ROWS[row.min(15)];
    let set = set_of(alloc, clauses)?;
    let interp = interpretation(alloc, sizes, f, p, q)?;
    let reps = representatives(alloc)?;
    let found = first_of(alloc, &set, &Candidate { interp, reps })?;
    Ok(is_instance(&found, wanted))
}

#[test]
fn finds_the_least_failing_instance(rt: HostRuntime) -> Result<(), Fail> {
    for row in 0..ROWS.len() {
        assert!(rt; is_right(rt.alloc(), row)?, "row {row}");
    }
    Ok(())
}
