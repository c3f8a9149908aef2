ghost use Rattle.std.specs.Prelude.{◌≡◌, ◌↔◌, ◌<◌, ◌≤◌, ◌+◌, ◌++◌, ◌∷◌, ◌^◌, [], ℕ, List, length, map, take, sum, slice_get, Some, IfOk, OnOk, OnErr, IsTrue};
ghost use Rattle.std.specs.List.{range_with_len};
ghost use Rattle.fm_sum.specs.declared.bound.Sum.{Sum as TheSum};
ghost use Rattle.fm_bank.specs.declared.literal.Literal.{Literal as TheLiteral};
ghost use Rattle.fm_sum.specs.Sums.{AreValues, CanPass, IsBoundOf, IsLeast, IsWithin, asked, before_of, least_of, least_sum, nothing_read, raised, restored, with_literal};

use fm_bank::{Atom, Literal};
use fm_base::{Memory, SortId, Undo};
use std::alloc::Global;
use std::marker::Model;

// A literal read, and what the value of its sort was before.
#[derive(Clone, Copy, Debug, PartialEq, Eq)]
struct Entry {
    lit: Literal,
    before: u64,
}

/// The reader of size bounds: by sort the least number of elements that the literals read leave it, and how to go back.
/// A false bound `C(s,k)` leaves the sort s at least k + 1 elements, and each sort has one; what else is read leaves all as
/// it is. Going back takes no memory.
#[derive(Drop)]
pub struct SumBound {
    values: Vec<u64>,
    entries: Vec<Entry>,
    opened: Vec<usize>,
}

/// Whether the least sizes of all sorts together fit under a bound of the sum, or a lemma is due that says they don't.
#[derive(Clone, Copy, Debug, PartialEq, Eq)]
pub enum Sum {
    Fits,
    Lemma,
}

impl Model for SumBound {
    ghost use Rattle.fm_sum.specs.Sums.{Held};

    ghost Value = { Held };

    ghost use Rattle.fm_sum.specs.Sums.{IsSum, held_in, read_of};

    ghost view = { λ b. held_in b.values.items (read_of b.entries.items) b.opened.items };

    ghost invariant = { λ b. IsSum b.values.items b.entries.items b.opened.items };
}

// What a literal asks for: a sort and its least number of elements.
fn asked_by(lit: Literal) -> Option<(usize, u64)>
    requires { CanPass lit.atom }
    ensures { result ≡ asked lit }
{
    match lit.atom {
        Atom::Card(sort, k) if !lit.positive => Some((sort.0, k + 1)),
        _ => None,
    }
}

fn value_before(values: &[u64], asked: Option<(usize, u64)>) -> u64
    ensures { result ≡ before_of values.now asked }
{
    match asked {
        Some((sort, _least)) => values.get(sort).copied().unwrap_or(0),
        None => 0,
    }
}

// Raises the value of the sort that is asked for.
fn raise(values: &mut Vec<u64>, asked: Option<(usize, u64)>)
    requires { IsWithin (length values.old.items) asked }
    ensures { values.new.items ≡ raised values.old.items asked }
{
    match asked {
        Some((sort, least)) => values[sort] = values[sort].max(least),
        None => {}
    }
}

fn restore(values: &mut Vec<u64>, entry: Entry)
    requires { IsWithin (length values.old.items) (asked entry.lit) }
    ensures { values.new.items ≡ restored values.old.items (asked entry.lit) entry.before }
{
    match entry.lit.atom {
        Atom::Card(sort, _k) if !entry.lit.positive => values[sort.0] = entry.before,
        _ => {}
    }
}

// Takes the literals read back down to so many.
fn rewind(values: &mut Vec<u64>, entries: &mut Vec<Entry>, to: usize)
    requires values { AreValues values.old.items entries.old.items }
    requires to { to ≤ length entries.old.items }
    ensures values { AreValues values.new.items entries.new.items }
    ensures length { length values.new.items ≡ length values.old.items }
    ensures entries { entries.new.items ≡ take to entries.old.items }
{
    while entries.len() > to {
        match entries.pop() {
            Some(entry) => restore(values, entry),
            None => return,
        }
    }
}

// Whether numbers add up to more than n. No sum of them is formed.
fn pass(values: &[u64], n: u64) -> bool
    ensures { IsTrue result ↔ (n < sum values.now) }
{
    let mut left = n;
    for value in values {
        if *value > left {
            return true;
        }
        left -= *value;
    }
    false
}

fn ones(alloc: Global, count: usize) -> Result<Vec<u64>, Memory>
    ensures { IfOk result (λ v. v.items ≡ map (least_of []) (range_with_len 0 count)) }
{
    let mut values = Vec::new(alloc);
    for _sort in 0..count {
        values.push(1)?;
    }
    Ok(values)
}

impl SumBound {
    /// For so many sorts, numbered from 0, with nothing read and no level open.
    pub fn new(alloc: Global, sorts: usize) -> Result<SumBound, Memory>
        ensures { IfOk result (λ b. b ≡ nothing_read sorts) }
    {
        let values = ones(alloc, sorts)?;
        Ok(SumBound {
            values,
            entries: Vec::new(alloc),
            opened: Vec::new(alloc),
        })
    }

    /// Reads a literal on a bound of one of the sorts, whose number is below 2^64 - 1, or of the sum.
    pub fn read(&mut self, atom: Atom, positive: bool) -> Result<(), Memory>
        requires kind { IsBoundOf self.old.sorts atom }
        requires number { CanPass atom }
        ensures read { OnOk result (self.new ≡ with_literal self.old atom positive) }
        ensures err { OnErr result (self.new ≡ self.old) }
    {
        let lit = Literal { positive, atom };
        let asked = asked_by(lit);
        let before = value_before(self.values.as_slice(), asked);
        self.entries.push(Entry { lit, before })?;
        raise(&mut self.values, asked);
        Ok(())
    }

    /// The least number of elements that the literals read leave the sort. It takes no memory.
    pub fn least(&self, sort: SortId) -> u64
        requires { sort.0 < self.now.sorts }
        ensures value { result ≡ least_of self.now.read sort.0 }
        ensures least { IsLeast self.now.read sort.0 result }
    {
        self.values[sort.0]
    }

    /// A lemma is due exactly where the least numbers of elements of all sorts add up to more than n. No sum is formed, so
    /// none can pass 64 bits, and it takes no memory.
    pub fn check(&self, n: u64) -> Sum
        ensures { (result ≡ TheSum.Lemma) ↔ (n < least_sum self.now.read self.now.sorts) }
    {
        if pass(self.values.as_slice(), n) {
            Sum::Lemma
        } else {
            Sum::Fits
        }
    }
}

impl Undo for SumBound {
    ghost Content = { List TheLiteral };

    ghost content = { λ b. b.read };

    ghost levels = { λ b. b.levels };

    fn mark(&mut self) -> Result<usize, Memory>
        ensures number { IfOk result (λ n. n ≡ length self.old.levels) }
        ensures opened { OnOk result (self.new.levels ≡ self.old.levels ++ self.old.read ∷ []) }
        ensures same { self.new.read ≡ self.old.read }
        ensures err { OnErr result (self.new.levels ≡ self.old.levels) }
        ensures sorts { self.new.sorts ≡ self.old.sorts }
    {
        let level = self.opened.len();
        self.opened.push(self.entries.len())?;
        Ok(level)
    }

    fn undo_to(&mut self, level: usize)
        requires { level < length self.old.levels }
        ensures levels { self.new.levels ≡ take level self.old.levels }
        ensures content { slice_get self.old.levels level ≡ Some self.new.read }
        ensures sorts { self.new.sorts ≡ self.old.sorts }
    {
        let at = self.opened[level];
        rewind(&mut self.values, &mut self.entries, at);
        self.opened.truncate(level);
    }
}
