ghost use Rattle.std.specs.Prelude.{◌≡◌, length, IsTrue};
ghost use Rattle.std.specs.List.{list_all};
ghost use Rattle.fm_bank.specs.Sorted.{is_sorted_clause};
ghost use Rattle.fm_build.specs.Marks.{AreBelow};
ghost use Rattle.fm_build.specs.Reached.{AreInstancesBelow, IsInstanceBelow};

use crate::assembly::assembled;
use crate::classes::types_of;
use crate::instance::Instance;
use crate::instances::put_instances;
use crate::start::start_of;
use fm_bank::{Bank, Clause, ClauseSet, Plit};
use fm_base::{Interp, Memory, Patom, Pterm, Rank, Sig, SortId, SymId, Table, TermId, Ty};
use fm_rounds::Candidate;
use sqlite_items::Items;
use std::alloc::Global;
use std::process::Abort;
use std::test::Fail;

const U: SortId = SortId(0);

// The symbols, by number: f from U to itself, p on U, constants a and b, and g from U to itself.
const RANKS: [(&[Ty], Ty); 5] = [
    (&[Ty::Of(U)], Ty::Of(U)),
    (&[Ty::Of(U)], Ty::Bool),
    (&[], Ty::Of(U)),
    (&[], Ty::Of(U)),
    (&[Ty::Of(U)], Ty::Of(U)),
];

// The terms, by number: a, b, p of a, f of a, f of that, f of b.
const TERMS: [(usize, &[TermId]); 6] = [
    (2, &[]),
    (3, &[]),
    (1, &[TermId(0)]),
    (0, &[TermId(0)]),
    (0, &[TermId(3)]),
    (0, &[TermId(1)]),
];

fn signature(alloc: Global, ranks: &[(&[Ty], Ty)]) -> Result<Sig, Memory> {
    let mut kept = Vec::new(alloc);
    for (args, result) in ranks {
        let args = Items::from_slice(alloc, args)?;
        kept.push(Rank {
            args,
            result: *result,
        })?;
    }
    let ranks = Items::from_vec(kept);
    Ok(Sig { sorts: 1, ranks })
}

fn bank_of(
    rt: &impl Abort,
    alloc: Global,
    ranks: &[(&[Ty], Ty)],
    terms: &[(usize, &[TermId])],
) -> Result<Bank, Memory> {
    let sig = signature(alloc, ranks)?;
    let mut bank = Bank::new(alloc, &sig)?;
    for (symbol, args) in terms {
        assert!(rt; bank.is_term(SymId(*symbol), args));
        bank.intern(SymId(*symbol), args)?;
    }
    Ok(bank)
}

fn are_below(terms: &[usize], count: usize) -> bool
    ensures { IsTrue result → AreBelow terms.now count }
{
    for term in terms {
        if *term >= count {
            return false;
        }
    }
    true
}

fn is_below(instance: &Instance, count: usize) -> bool
    ensures { IsTrue result → IsInstanceBelow count instance.now }
{
    are_below(instance.subst.as_slice(), count) && are_below(instance.terms.as_slice(), count)
}

fn instances_below(added: &[Instance], count: usize) -> bool
    ensures { IsTrue result → AreInstancesBelow count added.now }
{
    for instance in added {
        if !is_below(instance, count) {
            return false;
        }
    }
    true
}

// None where a number isn't one of a term.
fn built(
    alloc: Global,
    bank: &Bank,
    class: &[usize],
    holds: &[bool],
    start: &[usize],
    added: &[Instance],
) -> Result<Option<Candidate>, Memory> {
    let types = types_of(alloc, bank)?;
    let count = class.len();
    if !are_below(class, count) || !are_below(start, count) || !instances_below(added, count) {
        return Ok(None);
    }
    let candidate = assembled(alloc, bank, class, types.as_slice(), holds, start, added)?;
    Ok(Some(candidate))
}

fn copied(alloc: Global, numbers: &[usize]) -> Result<Vec<usize>, Memory> {
    let mut copy = Vec::new(alloc);
    copy.extend_from_slice(numbers)?;
    Ok(copy)
}

fn instances(alloc: Global, added: &[(&[usize], &[usize])]) -> Result<Vec<Instance>, Memory> {
    let mut all = Vec::new(alloc);
    for (subst, terms) in added {
        let subst = copied(alloc, subst)?;
        let terms = copied(alloc, terms)?;
        all.push(Instance { subst, terms })?;
    }
    Ok(all)
}

// A table by its default and its exceptions, each the one argument and the value.
type Wanted<'a> = (u64, &'a [(u64, u64)]);

fn has_entries(table: &Table, wanted: &[(u64, u64)]) -> bool {
    if table.except.len() != wanted.len() {
        return false;
    }
    for place in 0..wanted.len() {
        match table.except.get(place) {
            None => return false,
            Some(entry) => {
                if entry.0.as_slice() != [wanted[place].0].as_slice()
                    || entry.1 != wanted[place].1
                {
                    return false;
                }
            }
        }
    }
    true
}

fn has_tables(interp: &Interp, wanted: &[Wanted<'_>]) -> bool {
    if interp.tables.len() != wanted.len() {
        return false;
    }
    for place in 0..wanted.len() {
        match interp.tables.get(place) {
            None => return false,
            Some(table) => {
                if table.default != wanted[place].0 || !has_entries(table, wanted[place].1) {
                    return false;
                }
            }
        }
    }
    true
}

fn has_reps(reps: &[Items<TermId>], wanted: &[TermId]) -> bool {
    match reps.first() {
        None => false,
        Some(terms) => reps.len() == 1 && terms.as_slice() == wanted,
    }
}

fn is_right(candidate: &Option<Candidate>, reps: &[TermId], tables: &[Wanted<'_>]) -> bool {
    match candidate {
        None => false,
        Some(candidate) => {
            has_reps(candidate.reps.as_slice(), reps)
                && candidate.interp.sizes.as_slice() == [reps.len() as u64].as_slice()
                && has_tables(&candidate.interp, tables)
        }
    }
}

// The classes, whether p of a is joined with yes, the instances, the representatives, and the tables.
type Row<'a> = (
    &'a [usize],
    bool,
    &'a [(&'a [usize], &'a [usize])],
    &'a [TermId],
    &'a [Wanted<'a>],
);

const NONE: Wanted<'static> = (0, &[]);

// The rows are worked out by hand. At the start a, b and p of a are reached.
const ROWS: [Row<'static>; 7] = [
    (
        &[0, 1, 2, 3, 4, 5],
        false,
        &[],
        &[TermId(0), TermId(1)],
        &[NONE, NONE, NONE, (1, &[]), NONE],
    ),
    // the class of f of a is met by f of b, one round before it, and f of f of a isn't reached
    (
        &[0, 1, 2, 3, 4, 3],
        false,
        &[(&[5], &[3]), (&[1], &[5])],
        &[TermId(0), TermId(1), TermId(5)],
        &[(0, &[(0, 2), (1, 2)]), NONE, NONE, (1, &[]), NONE],
    ),
    // both are met in one round, by f of b first, and f of a is older
    (
        &[0, 1, 2, 3, 4, 3],
        false,
        &[(&[1], &[5, 3])],
        &[TermId(0), TermId(1), TermId(3)],
        &[(0, &[(0, 2), (1, 2)]), NONE, NONE, (1, &[]), NONE],
    ),
    // p of a is joined with yes
    (
        &[0, 1, 2, 3, 4, 5],
        true,
        &[(&[0], &[0, 3])],
        &[TermId(0), TermId(1), TermId(3)],
        &[(0, &[(0, 2)]), (0, &[(0, 1)]), NONE, (1, &[]), NONE],
    ),
    // a and b are one class, so that b stands for nothing, and an instance at it isn't over representatives
    (
        &[0, 0, 2, 3, 4, 3],
        false,
        &[(&[1], &[5])],
        &[TermId(0)],
        &[NONE, NONE, NONE, NONE, NONE],
    ),
    // f of f of a is a, and comes in the second round
    (
        &[0, 1, 2, 3, 0, 5],
        false,
        &[(&[3], &[3, 4]), (&[0], &[0, 3])],
        &[TermId(0), TermId(1), TermId(3)],
        &[(0, &[(0, 2)]), NONE, NONE, (1, &[]), NONE],
    ),
    // three rounds, the later instances first
    (
        &[0, 1, 2, 3, 4, 3],
        false,
        &[(&[4], &[1, 5]), (&[3], &[3, 4]), (&[0], &[0, 3])],
        &[TermId(0), TermId(1), TermId(3), TermId(4)],
        &[(0, &[(0, 2), (1, 2), (2, 3)]), NONE, NONE, (1, &[]), NONE],
    ),
];

fn is_row_right(rt: &impl Abort, alloc: Global, row: usize) -> Result<bool, Memory> {
    let (class, yes, added, reps, tables) = ROWS[row.min(6)];
    let bank = bank_of(rt, alloc, &RANKS, &TERMS)?;
    let added = instances(alloc, added)?;
    let holds = [false, false, yes, false, false, false];
    let candidate = built(alloc, &bank, class, &holds, &[0, 1, 0, 2], added.as_slice())?;
    Ok(is_right(&candidate, reps, tables))
}

#[test]
fn builds_by_rounds(rt: HostRuntime) -> Result<(), Fail> {
    for row in 0..ROWS.len() {
        assert!(rt; is_row_right(&rt, rt.alloc(), row)?, "row {row}");
    }
    Ok(())
}

// No element is its own image: f from U to itself, and a fresh constant.
const FRESH: [(&[Ty], Ty); 2] = [(&[Ty::Of(U)], Ty::Of(U)), (&[], Ty::Of(U))];

fn differs(alloc: Global) -> Result<ClauseSet, Memory> {
    let sig = signature(alloc, &FRESH)?;
    let mut args = Vec::new(alloc);
    args.push(Pterm::Var(0))?;
    let image = Pterm::App(SymId(0), Items::from_vec(args));
    let atom = Patom::Equal(image, Pterm::Var(0));
    let mut lits = Vec::new(alloc);
    lits.push(Plit {
        positive: false,
        atom,
    })?;
    let mut clauses = Vec::new(alloc);
    clauses.push(Clause {
        vars: Items::from_slice(alloc, &[U])?,
        lits: Items::from_vec(lits),
    })?;
    Ok(ClauseSet {
        sig,
        user: 1,
        clauses: Items::from_vec(clauses),
    })
}

fn are_sorted(sig: &Sig, clauses: &[Clause]) -> bool
    ensures { result ≡ list_all (is_sorted_clause sig.now) clauses.now }
{
    clauses.iter().all(|clause| clause.is_sorted(sig))
}

fn substitutions(
    alloc: Global,
    added: &[(usize, &[TermId])],
) -> Result<Vec<(usize, Items<TermId>)>, Memory> {
    let mut all = Vec::new(alloc);
    for (place, terms) in added {
        all.push((*place, Items::from_slice(alloc, terms)?))?;
    }
    Ok(all)
}

// None where the clauses aren't well sorted.
fn built_of(
    rt: &impl Abort,
    alloc: Global,
    terms: &[(usize, &[TermId])],
    class: &[usize],
    added: &[(usize, &[TermId])],
) -> Result<Option<Candidate>, Memory> {
    let set = differs(alloc)?;
    let bank = bank_of(rt, alloc, &FRESH, terms)?;
    if !are_sorted(&set.sig, set.clauses.as_slice()) {
        return Ok(None);
    }
    let start = start_of(alloc, &set, &bank)?;
    let added = substitutions(alloc, added)?;
    let mut instances = Vec::new(alloc);
    put_instances(alloc, &set, &bank, added.as_slice(), &mut instances)?;
    let holds = [false, false, false];
    built(
        alloc,
        &bank,
        class,
        &holds,
        start.as_slice(),
        instances.as_slice(),
    )
}

// How many of the terms there are, the terms at which instances were added, the representatives, and the exceptions of f.
type Step<'a> = (
    usize,
    &'a [(usize, &'a [TermId])],
    &'a [TermId],
    &'a [(u64, u64)],
);

const STEPS: [Step<'static>; 5] = [
    (1, &[], &[TermId(0)], &[]),
    (2, &[(0, &[TermId(0)])], &[TermId(0), TermId(1)], &[(0, 1)]),
    (
        3,
        &[(0, &[TermId(0)]), (0, &[TermId(1)])],
        &[TermId(0), TermId(1), TermId(2)],
        &[(0, 1), (1, 2)],
    ),
    // an instance that isn't over representatives, and one of no clause
    (2, &[(0, &[TermId(1)])], &[TermId(0)], &[]),
    (2, &[(1, &[TermId(0)])], &[TermId(0)], &[]),
];

// The constant, its image, and the image of that, each of a class of its own.
const CHAIN: [(usize, &[TermId]); 3] = [(1, &[]), (0, &[TermId(0)]), (0, &[TermId(1)])];

fn is_step_right(rt: &impl Abort, alloc: Global, step: usize) -> Result<bool, Memory> {
    let (count, added, reps, entries) = STEPS[step.min(4)];
    let (terms, _rest) = CHAIN.split_at(count.min(3));
    let (class, _others) = [0, 1, 2].split_at(count.min(3));
    let candidate = built_of(rt, alloc, terms, class, added)?;
    Ok(is_right(&candidate, reps, &[(0, entries), NONE]))
}

#[test]
fn builds_from_clauses(rt: HostRuntime) -> Result<(), Fail> {
    for step in 0..STEPS.len() {
        assert!(rt; is_step_right(&rt, rt.alloc(), step)?, "step {step}");
    }
    Ok(())
}
