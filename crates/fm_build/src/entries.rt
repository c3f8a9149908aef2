ghost use Rattle.std.specs.Prelude.{◌≡◌, ℕ, ◌<◌, ◌≤◌, true, not, List, length, map, slice_get, slice_index, IfOk, OnOk};
ghost use Rattle.std.specs.List.{position};
ghost use Rattle.std.specs.Cmp.Lexicographic.{slice_cmp};
ghost use Rattle.std.specs.Ordering.{is_lt, nat_cmp};
ghost use Rattle.fm_base.specs.Interpretations.{ascends};
ghost use Rattle.fm_bank.specs.Terms.{numbers};
ghost use Rattle.fm_build.specs.Entries.{AreEntries, IsPut, PutsTerm, entry_place, is_entry_of, is_listed};

use fm_bank::Bank;
use fm_base::{Memory, SymId, TermId};
use sqlite_items::Items;
use std::alloc::Global;
use std::cmp::Ordering;

fn precedes(tuple: &[u64], other: &[u64]) -> bool
    ensures { result ≡ is_lt (slice_cmp nat_cmp tuple.now other.now) }
{
    match tuple.cmp(other) {
        Ordering::Less => true,
        Ordering::Equal => false,
        Ordering::Greater => false,
    }
}

fn first_behind(entries: &[(Items<u64>, u64)], tuple: &[u64]) -> Option<usize>
    ensures { result ≡ position (λ (e : List ℕ × ℕ). not (is_lt (slice_cmp nat_cmp e.0 tuple.now))) entries.now }
{
    entries
        .iter()
        .position(|entry| !precedes(entry.0.as_slice(), tuple))
}

fn place_of(entries: &[(Items<u64>, u64)], tuple: &[u64]) -> usize
    ensures place { result ≡ entry_place entries.now tuple.now }
    ensures within { result ≤ length entries.now }
{
    match first_behind(entries, tuple) {
        Some(place) => place,
        None => entries.len(),
    }
}

fn is_there(entries: &[(Items<u64>, u64)], place: usize, tuple: &[u64]) -> bool
    ensures { result ≡ is_entry_of tuple.now (slice_get entries.now place) }
{
    match entries.get(place) {
        None => false,
        Some(entry) => entry.0.as_slice() == tuple,
    }
}

// Puts an entry in its place, unless one with its tuple is there.
fn put(entries: &mut Vec<(Items<u64>, u64)>, tuple: Items<u64>, value: u64) -> Result<(), Memory>
    requires { ascends entries.old.items ≡ true }
    ensures { OnOk result (IsPut entries.old.items tuple value entries.new.items) }
{
    let place = place_of(entries.as_slice(), tuple.as_slice());
    if is_there(entries.as_slice(), place, tuple.as_slice()) {
        return Ok(());
    }
    entries.insert(place, (tuple, value))?;
    Ok(())
}

fn element_in(elements: &[u64], term: usize) -> u64
    ensures { result ≡ slice_index elements.now term }
{
    elements.get(term).copied().unwrap_or(0)
}

fn tuple_of(alloc: Global, elements: &[u64], args: &[TermId]) -> Result<Items<u64>, Memory>
    ensures { IfOk result (λ xs. xs ≡ map (λ n. slice_index elements.now n) (numbers args.now)) }
{
    let mut tuple = Items::new(alloc);
    for arg in args {
        tuple.push(element_in(elements, arg.0))?;
    }
    Ok(tuple)
}

// Whether the value of a reached term has to be listed.
fn has_entry(bank: &Bank, marks: &[bool], elements: &[u64], symbol: SymId, term: usize) -> bool
    requires { term < length bank.now.terms }
    ensures { result ≡ is_listed bank.now.terms marks.now elements.now symbol.0 term }
{
    let (head, _args) = bank.term(TermId(term));
    let value = element_in(elements, term);
    head.0 == symbol.0 && marks.get(term).copied().unwrap_or(false) && value != 0
}

fn put_term(
    alloc: Global,
    bank: &Bank,
    elements: &[u64],
    term: usize,
    entries: &mut Vec<(Items<u64>, u64)>,
) -> Result<(), Memory>
    requires term { term < length bank.now.terms }
    requires order { ascends entries.old.items ≡ true }
    ensures { OnOk result (PutsTerm bank.now.terms elements.now term entries.old.items entries.new.items) }
{
    let (_head, args) = bank.term(TermId(term));
    let tuple = tuple_of(alloc, elements, args)?;
    let value = element_in(elements, term);
    put(entries, tuple, value)?;
    Ok(())
}

// The entries of a symbol: the elements of the arguments of each marked term that has it, with the term's own element.
pub(crate) fn entries_of(
    alloc: Global,
    bank: &Bank,
    marks: &[bool],
    elements: &[u64],
    symbol: SymId,
) -> Result<Vec<(Items<u64>, u64)>, Memory>
    ensures { IfOk result (λ v. AreEntries bank.now.terms marks.now elements.now symbol.0 (length bank.now.terms) v.items) }
{
    let mut entries = Vec::new(alloc);
    for term in 0..bank.terms() {
        if has_entry(bank, marks, elements, symbol, term) {
            put_term(alloc, bank, elements, term, &mut entries)?;
        }
    }
    Ok(entries)
}
