ghost use Rattle.std.specs.Prelude.{◌≡◌, ◌&&◌, IfSome};
ghost use Rattle.std.specs.List.{list_all};
ghost use Rattle.fm_base.specs.Interpretations.{is_sort_of, names_its_sorts};
ghost use Rattle.fm_blocks.specs.Progress.{IsReading};

use crate::progress::{Step, check_end, check_next};
use crate::verdict::{Fault, Rule};
use fm_bank::{Clause, ClauseSet, Plit};
use fm_base::{Formula, Fterm, Memory, Patom, Pterm, Rank, Sig, SortId, SymId, Ty};
use fm_cert::{Blocks, first_outside};
use fm_truth::are_closed;
use sqlite_items::{Boxed, Items};
use std::alloc::Global;
use std::test::Fail;

const U: Ty = Ty::Of(SortId(0));

fn is_sort(sorts: usize, ty: Ty) -> bool
    ensures { result ≡ is_sort_of sorts ty }
{
    match ty {
        Ty::Bool => true,
        Ty::Of(sort) => sort.0 < sorts,
    }
}

fn are_sorts(sorts: usize, types: &[Ty]) -> bool
    ensures { result ≡ list_all (is_sort_of sorts) types.now }
{
    types.iter().all(|ty| is_sort(sorts, *ty))
}

fn rank_names_sorts(sorts: usize, rank: &Rank) -> bool
    ensures { result ≡ (list_all (is_sort_of sorts) rank.now.args && is_sort_of sorts rank.now.result) }
{
    are_sorts(sorts, rank.args.as_slice()) && is_sort(sorts, rank.result)
}

fn names_sorts(sig: &Sig) -> bool
    ensures { result ≡ names_its_sorts sig.now }
{
    sig.ranks
        .as_slice()
        .iter()
        .all(|rank| rank_names_sorts(sig.sorts, rank))
}

fn reader_of(text: &[u8]) -> Option<Blocks>
    ensures { IfSome result (λ b. IsReading b) }
{
    Blocks::of(text)
}

// The fault that is found of one problem, and line 0 where `check_next` may not be asked.
fn fault_of_one(
    alloc: Global,
    reader: &mut Blocks,
    sig: &Sig,
    assertions: &[Formula],
    table: &ClauseSet,
) -> Result<Option<Fault>, Memory>
    requires { IsReading reader.old }
{
    if !names_sorts(sig) {
        return Ok(fault(0, Rule::Text));
    }
    if !are_closed(alloc, sig, assertions)? {
        return Ok(fault(0, Rule::Text));
    }
    match check_next(alloc, reader, 0, sig, assertions, table)? {
        Step::Bad(found) => Ok(Some(found)),
        Step::Good(_) => check_end(alloc, reader),
        Step::End => Ok(None),
    }
}

fn fault(line: u64, rule: Rule) -> Option<Fault> {
    Some(Fault { line, rule })
}

// The first fault of a certificate for one problem.
fn first_fault(
    alloc: Global,
    text: &[u8],
    sig: &Sig,
    assertions: &[Formula],
    table: &ClauseSet,
) -> Result<Option<Fault>, Memory> {
    if let Some(line) = first_outside(alloc, text)? {
        return Ok(fault(line, Rule::Text));
    }
    let Some(mut reader) = reader_of(text) else {
        return Ok(fault(1, Rule::Text));
    };
    let found = fault_of_one(alloc, &mut reader, sig, assertions, table)?;
    Ok(found)
}

// Whether this is what a row says: the line and the rule of a fault, or line 0 where there is none.
fn is_said(found: Option<Fault>, line: u64, rule: Rule) -> bool {
    match found {
        None => line == 0,
        Some(fault) => line != 0 && fault == Fault { line, rule },
    }
}

// Three constants of one sort.
fn signature(alloc: Global) -> Result<Sig, Memory> {
    let mut ranks = Vec::new(alloc);
    for _ in 0..3 {
        push_rank(&mut ranks, alloc, 0, U)?;
    }
    Ok(Sig {
        sorts: 1,
        ranks: Items::from_vec(ranks),
    })
}

fn push_rank(
    ranks: &mut Vec<Rank>,
    alloc: Global,
    args: usize,
    result_type: Ty,
) -> Result<(), Memory> {
    let mut types = Vec::new(alloc);
    for _ in 0..args {
        types.push(U)?;
    }
    ranks.push(Rank {
        args: Items::from_vec(types),
        result: result_type,
    })?;
    Ok(())
}

fn constant(alloc: Global, symbol: usize) -> Pterm {
    Pterm::App(SymId(symbol), Items::new(alloc))
}

// That two constants differ.
fn push_differ(clauses: &mut Vec<Clause>, alloc: Global, a: usize, b: usize) -> Result<(), Memory> {
    let mut lits = Vec::new(alloc);
    lits.push(Plit {
        positive: false,
        atom: Patom::Equal(constant(alloc, a), constant(alloc, b)),
    })?;
    clauses.push(Clause {
        vars: Items::new(alloc),
        lits: Items::from_vec(lits),
    })?;
    Ok(())
}

fn push_formula(
    assertions: &mut Vec<Formula>,
    alloc: Global,
    a: usize,
    b: usize,
) -> Result<(), Memory> {
    let left = Fterm::App(SymId(a), Items::new(alloc));
    let right = Fterm::App(SymId(b), Items::new(alloc));
    let equal = Boxed::new(alloc, Formula::Equal(left, right))?;
    assertions.push(Formula::Not(equal))?;
    Ok(())
}

// That the three constants differ.
fn assertions(alloc: Global) -> Result<Vec<Formula>, Memory> {
    let mut assertions = Vec::new(alloc);
    for (a, b) in [(0, 1), (0, 2), (1, 2)] {
        push_formula(&mut assertions, alloc, a, b)?;
    }
    Ok(assertions)
}

fn table(alloc: Global) -> Result<ClauseSet, Memory> {
    let mut clauses = Vec::new(alloc);
    for (a, b) in [(0, 1), (0, 2), (1, 2)] {
        push_differ(&mut clauses, alloc, a, b)?;
    }
    Ok(ClauseSet {
        sig: signature(alloc)?,
        user: 3,
        clauses: Items::from_vec(clauses),
    })
}

// The lines of a good certificate, from 1.
const LINES: [&[u8]; 16] = [
    b"fmfcert 1",
    b"b 0",
    b"t 0",
    b"t 1",
    b"t 2",
    b"i 0",
    b"i 1",
    b"i 2",
    b"c 0 2 0 1 2",
    b"s 2 2",
    b"r 3 +E0,1 0 +E0,2 1 +E1,2 2 -C0,2 4",
    b"q sat 3",
    b"z 3",
    b"d 0",
    b"d 1",
    b"d 2",
];

// The certificate with one line in the place of another, where 0 is none.
fn changed(alloc: Global, place: usize, line: &[u8]) -> Result<Vec<u8>, Memory> {
    let mut text = Vec::new(alloc);
    for i in 0..16 {
        let other = LINES[i];
        text.extend_from_slice(if i + 1 == place { line } else { other })?;
        text.push(b'\n')?;
    }
    if place > 16 {
        text.extend_from_slice(line)?;
    }
    Ok(text)
}

// A line in the place of another, and the line and the rule of the fault.
const CHANGES: [(usize, &[u8], u64, Rule); 32] = [
    (0, b"", 0, Rule::Text),
    (9, b"c 0 2 0 1", 9, Rule::C),
    (11, b"r 3 +E0,1 0", 12, Rule::Q),
    (13, b"z 4", 12, Rule::Q),
    (16, b"d 3", 16, Rule::M),
    (1, b"fmfcert 2", 1, Rule::Text),
    (2, b"b 1", 2, Rule::B),
    (5, b"t 0", 5, Rule::T),
    (8, b"i 3", 8, Rule::I),
    (10, b"s 2 1", 10, Rule::S),
    (10, b"s 3 2", 10, Rule::S),
    (10, b"s 2 1 1", 10, Rule::S),
    (11, b"r 3 +E0,1 1", 11, Rule::R),
    (11, b"r 5 +E0,1 1", 11, Rule::R),
    (12, b"q unsat", 13, Rule::Text),
    (13, b"z 0", 13, Rule::M),
    (13, b"z 3 3", 13, Rule::M),
    (14, b"d 00", 14, Rule::Text),
    (14, b"d 1", 12, Rule::Q),
    (17, b"x 0 0\n", 17, Rule::M),
    (17, b"b 1\nq unknown 0 0\n", 17, Rule::B),
    (17, b"d 0\n", 13, Rule::M),
    (3, b"t 3", 3, Rule::T),
    (3, b"t 0 0", 3, Rule::T),
    (5, b"o z 1", 5, Rule::O),
    (5, b"o c 0 18446744073709551615", 5, Rule::O),
    (5, b"o b 18446744073709551615", 5, Rule::O),
    (5, b"e +E0,1 /", 5, Rule::E),
    (5, b"e +E0,0 / 7", 5, Rule::E),
    (5, b"e +P0 /", 5, Rule::E),
    (12, b"q sat 2", 12, Rule::Q),
    (12, b"q sat 0", 12, Rule::Q),
];

fn is_change_said(
    alloc: Global,
    sig: &Sig,
    assertions: &[Formula],
    table: &ClauseSet,
    row: usize,
) -> Result<bool, Memory> {
    if row >= 32 {
        return Ok(false);
    }
    let (place, line, at, rule) = CHANGES[row];
    let text = changed(alloc, place, line)?;
    let found = first_fault(alloc, text.as_slice(), sig, assertions, table)?;
    Ok(is_said(found, at, rule))
}

// The first row whose fault is another one.
fn first_wrong_change(
    alloc: Global,
    sig: &Sig,
    assertions: &[Formula],
    table: &ClauseSet,
) -> Result<usize, Memory> {
    for row in 0..32 {
        if !is_change_said(alloc, sig, assertions, table, row)? {
            return Ok(row);
        }
    }
    Ok(32)
}

#[test]
fn names_the_first_fault(rt: HostRuntime) -> Result<(), Fail> {
    let sig = signature(rt.alloc())?;
    let table = table(rt.alloc())?;
    let assertions = assertions(rt.alloc())?;
    let wrong = first_wrong_change(rt.alloc(), &sig, assertions.as_slice(), &table)?;
    assert_eq!(rt; wrong, 32);
    Ok(())
}

// Constants a and b, a function f, a predicate p, and a truth value q.
fn wide_signature(alloc: Global) -> Result<Sig, Memory> {
    let mut ranks = Vec::new(alloc);
    for (args, result_type) in [(0, U), (0, U), (1, U), (1, Ty::Bool), (0, Ty::Bool)] {
        push_rank(&mut ranks, alloc, args, result_type)?;
    }
    Ok(Sig {
        sorts: 1,
        ranks: Items::from_vec(ranks),
    })
}

// Lines from line 3 on, where there are no assertions and no clauses, and the line and the rule of the fault.
const BLOCKS: [(&[u8], u64, Rule); 24] = [
    (
        b"t 0\nt 1\nt 2 0\nt 2 1\ne -E0,1 +E2,3 /\nq unknown 0 0\n",
        0,
        Rule::Text,
    ),
    (
        b"t 0\nt 1\nt 2 0\nt 2 1\ne +E2,3 / 0 1\nq unknown 0 0\n",
        7,
        Rule::E,
    ),
    (
        b"t 0\nt 1\ne -E0,1 +E0,0 / 1\nq unknown 0 0\n",
        0,
        Rule::Text,
    ),
    (
        b"t 0\nt 1\nt 3 0\nt 3 1\ne -P2 +P3 -E0,1 /\nq unknown 0 0\n",
        0,
        Rule::Text,
    ),
    (
        b"t 0\nt 1\nt 3 0\nt 3 1\ne -P2 +P3 /\nq unknown 0 0\n",
        7,
        Rule::E,
    ),
    (b"t 0\nt 3 0\ne +E0,1 /\nq unknown 0 0\n", 5, Rule::E),
    (b"t 0\ne +P0 /\nq unknown 0 0\n", 4, Rule::E),
    (b"e /\nq unknown 0 0\n", 3, Rule::E),
    (b"t 0\ne +E0,0 +C0,1 /\nq unknown 0 0\n", 4, Rule::E),
    (b"t 2\nq unknown 0 0\n", 3, Rule::T),
    (b"t 0\nt 3 0\nt 2 1\nq unknown 0 0\n", 5, Rule::T),
    (b"i 0\nq unsat\n", 3, Rule::I),
    (b"o z 0\no c 0 0\no b 0\nq unsat\n", 6, Rule::Q),
    (
        b"s 0 0\no z 0\nr 0 +C0,0 1\nq sat 1\nz 1\nd 0\nd 0\nd 0\nd 0\nd 1\n",
        0,
        Rule::Text,
    ),
    (
        b"s 0 0\no z 0\nr 0 +C0,0 1\nq sat 2\nz 2\nd 0\nd 0\nd 0\nd 0\nd 1\n",
        6,
        Rule::Q,
    ),
    (
        b"s 0 0\no z 0\nr 0 +C0,0 1\nq sat 1\nz 1\nd 0\nd 0\nd 0\nd 0\nd 2\n",
        12,
        Rule::M,
    ),
    (
        b"s 0 0\no z 0\nr 0 +C0,0 1\nq sat 1\nz 1\nd 0\nd 0\nd 0\nd 0\nx 0 1\nd 1\n",
        0,
        Rule::Text,
    ),
    (
        b"s 0 0\no z 0\nr 0 +C0,0 1\nq sat 1\nz 1\nd 0\nd 0\nd 0\nd 0\nx 0 0\nd 1\n",
        12,
        Rule::M,
    ),
    (
        b"s 0 0\no z 0\nr 0 +C0,0 1\nq sat 1\nz 2\nd 0\nd 0\nd 0\nx 1 1\nx 0 1\nd 0\nd 1\n",
        12,
        Rule::M,
    ),
    (
        b"s 0 0\no z 0\nr 0 +C0,0 1\nq sat 1\nz 2\nd 0\nd 0\nd 0\nx 0 1\nx 1 1\nd 0\nd 1\n",
        6,
        Rule::Q,
    ),
    (
        b"t 4\ne +P0 -P0 /\nr 0 +P0 0\nr 1 -P0 1\nq unsat\n",
        7,
        Rule::Q,
    ),
    (b"o z 0\ns 0 0\nr 1 +C0,0 1\nq unsat\n", 5, Rule::R),
    (b"o z 0\nr 1 +C0,0 0\nq unsat\n", 4, Rule::R),
    (b"q unknown 7 8\n", 0, Rule::Text),
];

fn is_block_said(alloc: Global, sig: &Sig, table: &ClauseSet, row: usize) -> Result<bool, Memory> {
    if row >= 24 {
        return Ok(false);
    }
    let (lines, at, rule) = BLOCKS[row];
    let mut text = Vec::new(alloc);
    text.extend_from_slice(b"fmfcert 1\nb 0\n")?;
    text.extend_from_slice(lines)?;
    let found = first_fault(alloc, text.as_slice(), sig, &[], table)?;
    Ok(is_said(found, at, rule))
}

fn first_wrong_block(alloc: Global, sig: &Sig, table: &ClauseSet) -> Result<usize, Memory> {
    for row in 0..24 {
        if !is_block_said(alloc, sig, table, row)? {
            return Ok(row);
        }
    }
    Ok(24)
}

#[test]
fn judges_lines(rt: HostRuntime) -> Result<(), Fail> {
    let sig = wide_signature(rt.alloc())?;
    let table = ClauseSet {
        sig: wide_signature(rt.alloc())?,
        user: 5,
        clauses: Items::new(rt.alloc()),
    };
    let wrong = first_wrong_block(rt.alloc(), &sig, &table)?;
    assert_eq!(rt; wrong, 24);
    Ok(())
}
