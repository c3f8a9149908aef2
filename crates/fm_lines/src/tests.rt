ghost use Rattle.std.specs.Prelude.{◌≡◌, ◌<◌, true, length};
ghost use Rattle.std.specs.List.{list_any};
ghost use Rattle.fm_bank.specs.Interning.{find_atom};
ghost use Rattle.fm_bank.specs.declared.atom.Atom.{Atom as TheAtom};
ghost use Rattle.fm_base.specs.Resolution.{Has};
ghost use Rattle.fm_base.specs.declared.ids.Lit.{Lit as TheLit};
ghost use Rattle.fm_lines.specs.Naming.{AreStepsOver};
ghost use Rattle.fm_sat.specs.Learning.{Explains};
ghost use Rattle.fm_steps.specs.Facts.{AreClausesOver};
ghost use Rattle.fm_steps.specs.Sizes.{is_refuted_by, is_refuting as refutes};

use crate::{
    put_cardinality, put_equality, put_instance, put_learnt, put_least, put_refutation, put_sum,
    put_terms, sat_block, start_lines, unsat_block,
};
use fm_bank::{Atom, Bank, ClauseSet, Literal};
use fm_base::{AtomId, Interp, Lit, Memory, Rank, Sig, SortId, SymId, Table, TermId, Ty};
use fm_cert::{Claim, Line};
use fm_sat::{Store, learning_goes_on, trails_stay_explained};
use fm_trail::{Entry, Trail};
use sqlite_items::Items;
use std::alloc::Global;
use std::test::Fail;

fn digit(number: usize) -> u8 {
    b'0'.saturating_add((number % 10) as u8)
}

fn sign(positive: bool) -> u8 {
    if positive { b'+' } else { b'-' }
}

fn put_ids(text: &mut Vec<u8>, terms: &[TermId]) -> Result<(), Memory> {
    for term in terms {
        text.push(digit(term.0))?;
    }
    Ok(())
}

fn atom_letters(atom: Atom) -> [u8; 2] {
    match atom {
        Atom::Equal(_, _) => [b'E', b' '],
        Atom::Pred(term) => [b'P', digit(term.0)],
        Atom::Card(sort, _) => [b'C', digit(sort.0)],
        Atom::Bound(n) => [b'B', digit(n as usize)],
    }
}

fn put_step(text: &mut Vec<u8>, positive: bool, atom: Atom, clause: usize) -> Result<(), Memory> {
    text.push(sign(positive))?;
    text.extend_from_slice(&atom_letters(atom))?;
    text.push(digit(clause))?;
    Ok(())
}

// A line in letters and digits.
fn put_line(text: &mut Vec<u8>, line: &Line) -> Result<(), Memory> {
    match line {
        Line::Term { symbol, args } => {
            text.extend_from_slice(&[b't', digit(symbol.0)])?;
            put_ids(text, args.as_slice())
        }
        Line::Instance { clause, terms } => {
            text.extend_from_slice(&[b'i', digit(*clause)])?;
            put_ids(text, terms.as_slice())
        }
        Line::Resolution { first, steps } => {
            text.extend_from_slice(&[b'r', digit(*first)])?;
            for step in steps.as_slice() {
                put_step(text, step.0.positive, step.0.atom, step.1)?;
            }
            Ok(())
        }
        Line::Equality { lits, support } => {
            text.extend_from_slice(&[b'e', digit(lits.len())])?;
            put_ids(text, support.as_slice())
        }
        Line::Cardinality { sort, k, terms } => {
            text.extend_from_slice(&[b'c', digit(sort.0), digit(*k as usize)])?;
            put_ids(text, terms.as_slice())
        }
        Line::Sum { n, ks } => {
            text.extend_from_slice(&[b's', digit(*n as usize), digit(ks.len())])?;
            Ok(())
        }
        _ => Ok(()),
    }
}

fn spelled(alloc: Global, lines: &[Line]) -> Result<Vec<u8>, Memory> {
    let mut text = Vec::new(alloc);
    for line in lines {
        put_line(&mut text, line)?;
        text.push(b';')?;
    }
    Ok(text)
}

// Constants 0 and 1 of one sort, and a predicate 2 without arguments.
fn signature(alloc: Global) -> Result<Sig, Memory> {
    let mut ranks = Vec::new(alloc);
    for result in [Ty::Of(SortId(0)), Ty::Of(SortId(0)), Ty::Bool] {
        ranks.push(Rank {
            args: Items::new(alloc),
            result,
        })?;
    }
    Ok(Sig {
        sorts: 1,
        ranks: Items::from_vec(ranks),
    })
}

fn put_atom(bank: &mut Bank, atom: Atom) -> Result<(), Memory> {
    if bank.is_atom(atom) {
        bank.atom(atom)?;
    }
    Ok(())
}

fn put_constant(bank: &mut Bank, symbol: usize) -> Result<(), Memory> {
    if bank.is_term(SymId(symbol), &[]) {
        bank.intern(SymId(symbol), &[])?;
    }
    Ok(())
}

// Both constants and the predicate are terms; the atoms are the predicate, the bound 0, and the equality of the constants.
fn filled(alloc: Global) -> Result<Bank, Memory> {
    let sig = signature(alloc)?;
    let mut bank = Bank::new(alloc, &sig)?;
    for symbol in 0..3 {
        put_constant(&mut bank, symbol)?;
    }
    put_atom(&mut bank, Atom::Pred(TermId(2)))?;
    put_atom(&mut bank, Atom::Bound(0))?;
    put_atom(&mut bank, Atom::Equal(TermId(0), TermId(1)))?;
    Ok(bank)
}

fn are_over(bank: &Bank, steps: &[(Lit, usize)]) -> bool
    ensures { result ≡ true → AreStepsOver (length bank.now.atoms) steps.now }
{
    match steps.split_first() {
        None => true,
        Some((step, rest)) => step.0.atom.0 < bank.atoms() && are_over(bank, rest),
    }
}

fn put_steps(
    alloc: Global,
    lines: &mut Vec<Line>,
    bank: &Bank,
    clause: usize,
    steps: &[(Lit, usize)],
) -> Result<(), Memory> {
    if are_over(bank, steps) {
        put_learnt(alloc, lines, bank, clause, steps)?;
    }
    Ok(())
}

fn lit(atom: usize, positive: bool) -> Lit {
    Lit {
        atom: AtomId(atom),
        positive,
    }
}

#[test]
fn puts_lines_behind_others(rt: HostRuntime) -> Result<(), Fail> {
    let bank = filled(rt.alloc())?;
    let mut lines = Vec::new(rt.alloc());
    put_terms(rt.alloc(), &mut lines, &bank, 1)?;
    put_instance(rt.alloc(), &mut lines, 4, &[TermId(1), TermId(0)])?;
    put_steps(rt.alloc(), &mut lines, &bank, 3, &[])?;
    put_steps(
        rt.alloc(),
        &mut lines,
        &bank,
        3,
        &[(lit(2, false), 5), (lit(0, true), 1)],
    )?;
    let text = spelled(rt.alloc(), lines.as_slice())?;
    assert_eq!(rt; text.as_slice(), b"t1;t2;i410;r3-E 5+P21;".as_slice());
    Ok(())
}

fn are_below(lits: &[Lit], atoms: usize) -> bool
    ensures { result ≡ true → (l : TheLit) → Has lits.now l → l.atom.0 < atoms }
{
    match lits.split_first() {
        None => true,
        Some((lit, rest)) => lit.atom.0 < atoms && are_below(rest, atoms),
    }
}

// Whether the clauses are over the first atoms.
fn are_clauses_over(store: &Store, atoms: usize) -> bool
    ensures { result ≡ true → AreClausesOver atoms store.now.clauses }
{
    for clause in 0..store.len() {
        if !are_below(store.clause(clause), atoms) {
            return false;
        }
    }
    true
}

// Implies the literal of the first unit clause.
fn imply_first(store: &Store, trail: &mut Trail) -> Result<(), Memory>
    requires { Explains store.now.clauses trail.old.entries }
    ensures { Explains store.now.clauses trail.new.entries }
{
    trails_stay_explained();
    if let Some(unit) = store.next_unit(trail) {
        trail.imply(unit.lit, unit.clause)?;
    }
    Ok(())
}

fn refute(
    alloc: Global,
    lines: &mut Vec<Line>,
    bank: &Bank,
    store: &Store,
    trail: &Trail,
) -> Result<(), Memory>
    requires { Explains store.now.clauses trail.now.entries }
{
    learning_goes_on();
    match store.falsified(trail) {
        Some(clause)
            if store.top_level(trail, clause) == 0 && are_clauses_over(store, bank.atoms()) => {
            put_refutation(alloc, lines, bank, store, trail, clause)
        }
        _ => Ok(()),
    }
}

fn is_refuting(entry: Entry, atom: usize) -> bool
    ensures { result ≡ refutes atom entry }
{
    entry.lit.atom.0 == atom && !entry.lit.positive && entry.level == 0
}

// Whether an entry of level 0 makes the atom false.
#[tactic(auto, using(crate::proofs::Tested::any_at))]
fn is_refuted_atom(trail: &Trail, atom: usize) -> bool
    ensures { result ≡ true → list_any (refutes atom) trail.now.entries ≡ true }
{
    for place in 0..trail.len() {
        if is_refuting(trail.entry(place), atom) {
            return true;
        }
    }
    false
}

fn is_refuted(bank: &Bank, trail: &Trail, bound: u64) -> bool
    ensures { result ≡ true → is_refuted_by trail.now.entries (find_atom bank.now.atoms (TheAtom.Bound bound)) ≡ true }
{
    match bank.find_atom(Atom::Bound(bound)) {
        Some(atom) => is_refuted_atom(trail, atom.0),
        None => false,
    }
}

fn bound_below(
    alloc: Global,
    lines: &mut Vec<Line>,
    bank: &Bank,
    store: &Store,
    trail: &Trail,
) -> Result<(), Memory>
    requires { Explains store.now.clauses trail.now.entries }
{
    if is_refuted(bank, trail, 0) && are_clauses_over(store, bank.atoms()) {
        put_least(alloc, lines, bank, store, trail, 0)?;
    }
    Ok(())
}

// Adds a clause of two literals with different atoms.
fn add_pair(store: &mut Store, first: Lit, second: Lit) -> Result<(), Memory> {
    if first.atom.0 != second.atom.0 {
        store.add(&[first, second])?;
    }
    Ok(())
}

// The predicate and its negation; the empty clause; the predicate, and that it makes the bound false; and the false bound.
fn store_of(alloc: Global, row: usize) -> Result<Store, Memory> {
    let mut store = Store::new(alloc);
    match row {
        0 => {
            store.add(&[lit(0, true)])?;
            store.add(&[lit(0, false)])?;
        }
        1 => {
            store.add(&[])?;
        }
        2 => {
            store.add(&[lit(0, true)])?;
            add_pair(&mut store, lit(0, false), lit(1, false))?;
        }
        _ => {
            store.add(&[lit(1, false)])?;
        }
    }
    Ok(store)
}

// The last lines, after two units.
fn ended(alloc: Global, bank: &Bank, store: &Store) -> Result<Vec<u8>, Memory> {
    let mut trail = Trail::new(alloc);
    imply_first(store, &mut trail)?;
    imply_first(store, &mut trail)?;
    let mut lines = Vec::new(alloc);
    refute(alloc, &mut lines, bank, store, &trail)?;
    bound_below(alloc, &mut lines, bank, store, &trail)?;
    spelled(alloc, lines.as_slice())
}

#[test]
fn ends_with_what_is_refuted(rt: HostRuntime) -> Result<(), Fail> {
    let bank = filled(rt.alloc())?;
    let rows: [&[u8]; 4] = [b"r1-P20;", b"", b"r1-P20;", b""];
    for row in 0..rows.len() {
        let store = store_of(rt.alloc(), row)?;
        let text = ended(rt.alloc(), &bank, &store)?;
        assert_eq!(rt; text.as_slice(), rows[row]);
    }
    Ok(())
}

#[test]
fn puts_lines_of_lemmas(rt: HostRuntime) -> Result<(), Fail> {
    let mut lines = Vec::new(rt.alloc());
    let bound = Literal {
        positive: false,
        atom: Atom::Bound(3),
    };
    let terms = [TermId(4), TermId(0), TermId(2)];
    put_equality(rt.alloc(), &mut lines, &[bound, bound], &terms)?;
    put_cardinality(rt.alloc(), &mut lines, SortId(1), &terms)?;
    put_sum(rt.alloc(), &mut lines, 5, &[1, 0])?;
    let text = spelled(rt.alloc(), lines.as_slice())?;
    assert_eq!(rt; text.as_slice(), b"e2402;c12402;s52;".as_slice());
    Ok(())
}

// Without sorts, symbols and clauses a search begins with no line.
#[test]
fn begins_with_no_line(rt: HostRuntime) -> Result<(), Fail> {
    let clauses = ClauseSet {
        sig: Sig {
            sorts: 0,
            ranks: Items::new(rt.alloc()),
        },
        user: 0,
        clauses: Items::new(rt.alloc()),
    };
    let bank = Bank::new(rt.alloc(), &clauses.sig)?;
    let lines = start_lines(rt.alloc(), &clauses, &bank)?;
    assert_eq!(rt; lines.len(), 0);
    Ok(())
}

fn table(alloc: Global, default: u64) -> Table {
    Table {
        default,
        except: Items::new(alloc),
    }
}

fn interp(alloc: Global) -> Result<Interp, Memory> {
    let mut tables = Vec::new(alloc);
    tables.push(table(alloc, 1))?;
    tables.push(table(alloc, 2))?;
    let sizes = Items::from_slice(alloc, &[3, 4])?;
    Ok(Interp {
        sizes,
        tables: Items::from_vec(tables),
    })
}

// Whether the claim is of this sum, with so many sizes and tables.
fn claims(claim: &Claim, wanted: u64, sizes: usize, tables: usize) -> bool {
    match claim {
        Claim::Sat { sum, model } => {
            *sum == wanted && model.sizes.len() == sizes && model.tables.len() == tables
        }
        _ => false,
    }
}

#[test]
fn answers_with_blocks(rt: HostRuntime) -> Result<(), Fail> {
    let unsat = unsat_block(Vec::new(rt.alloc()));
    assert!(rt; matches!(&unsat.claim, Claim::Unsat));
    let interp = interp(rt.alloc())?;
    let mut lines = Vec::new(rt.alloc());
    put_sum(rt.alloc(), &mut lines, 5, &[1])?;
    let sat = sat_block(rt.alloc(), lines, 7, &interp, 1)?;
    assert_eq!(rt; sat.number, 0);
    assert_eq!(rt; sat.lines.len(), 1);
    assert!(rt; claims(&sat.claim, 7, 2, 1));
    Ok(())
}
