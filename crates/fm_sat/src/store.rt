ghost use Rattle.std.specs.Prelude.{◌≡◌, ◌<◌, ◌≤◌, ◌-◌, [], take, drop, length, slice_get, Some, IfOk, OnOk, OnErr};
ghost use Rattle.fm_base.specs.Resolution.{AreDistinct};
ghost use Rattle.fm_sat.specs.Store.{with_clause};

use fm_base::{Lit, Memory};
use std::alloc::Global;
use std::marker::Model;

// Where a clause stands among all literals.
#[derive(Clone, Copy)]
pub(crate) struct Span {
    pub start: usize,
    pub end: usize,
}

/// Clauses by number, from 0 in the order in which they were added.
#[derive(Drop)]
pub struct Store {
    pub(crate) alloc: Global,
    // The literals of all clauses, one clause after another.
    lits: Vec<Lit>,
    spans: Vec<Span>,
}

impl Model for Store {
    ghost use Rattle.fm_sat.specs.Store.{Stored};

    ghost Value = { Stored };

    ghost use Rattle.fm_sat.specs.Store.{AreSpans, clauses_of};

    ghost view = { λ s. record { clauses = clauses_of s.lits.items s.spans.items } };

    ghost invariant = { λ s. AreSpans s.lits.items s.spans.items };
}

/// A clause whose literals are all false but one, which has no value, and that literal.
#[derive(Clone, Copy, Debug, PartialEq, Eq)]
pub struct Unit {
    pub clause: usize,
    pub lit: Lit,
}

impl Store {
    /// A store without clauses.
    pub fn new(alloc: Global) -> Store
        ensures { result ≡ record { clauses = [] } }
    {
        Store {
            alloc,
            lits: Vec::new(alloc),
            spans: Vec::new(alloc),
        }
    }

    /// How many clauses there are.
    pub fn len(&self) -> usize
        ensures { result ≡ length self.now.clauses }
    {
        self.spans.len()
    }

    /// The literals of a clause, in the order in which they were added.
    pub fn clause(&self, number: usize) -> &[Lit]
        requires { number < length self.now.clauses }
        ensures { slice_get self.now.clauses number ≡ Some result.now }
    {
        let span = self.spans[number];
        part(self.lits.as_slice(), span.start, span.end)
    }

    /// Adds a clause, in which no literal is to stand twice, and answers its number. A clause without literals is a
    /// clause too, which is always false. After want of memory nothing has changed.
    pub fn add(&mut self, lits: &[Lit]) -> Result<usize, Memory>
        requires { AreDistinct lits.now }
        ensures number { IfOk result (λ n. n ≡ length self.old.clauses) }
        ensures added { OnOk result (self.new ≡ with_clause self.old lits.now) }
        ensures err { OnErr result (self.new ≡ self.old) }
    {
        self.spans.reserve(1)?;
        let number = self.spans.len();
        let start = self.lits.len();
        self.lits.extend_from_slice(lits)?;
        self.spans.push_reserved(Span {
            start,
            end: self.lits.len(),
        });
        Ok(number)
    }
}

fn part(lits: &[Lit], start: usize, end: usize) -> &[Lit]
    requires order { start ≤ end }
    requires within { end ≤ length lits.now }
    ensures { result.now ≡ take (end - start) (drop start lits.now) }
{
    &lits[start..end]
}
