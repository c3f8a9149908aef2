ghost use Rattle.std.specs.Prelude.{◌≡◌, ◌<◌, ◌≤◌, [], false, true, length, vec_capacity, vec_len, OnOk, OnErr};
ghost use Rattle.std.proofs.Props.{props};
ghost use Rattle.fm_cells.specs.Ascending.{IsAscending, IsFound, IsPlace, KeepsOthers, is_in};

use fm_base::{Memory, TermId};
use std::alloc::Global;

/// Some terms, in ascending order of their numbers.
#[derive(Drop)]
pub struct Ascending {
    pub items: Vec<TermId>,
    pub ghost ascending: { IsAscending items.items } by { Prim.hlevel props },
}

// Where a term of this number stands among terms in ascending order, or belongs.
fn place(terms: &[TermId], number: usize) -> usize
    requires { IsAscending terms.now }
    ensures { IsPlace terms.now number result }
{
    let mut low = 0;
    let mut high = terms.len();
    while low < high {
        let middle = low + (high - low) / 2;
        if terms[middle].0 < number {
            low = middle + 1;
        } else {
            high = middle;
        }
    }
    low
}

// Whether the term stands at its place.
fn is_at(terms: &[TermId], place: usize, number: usize) -> bool
    requires ascending { IsAscending terms.now }
    requires place { IsPlace terms.now number place }
    ensures { result ≡ is_in terms.now number }
{
    if place < terms.len() {
        terms[place].0 == number
    } else {
        false
    }
}

/// The place of the term of a number among terms in ascending order; None where it isn't there. It takes no memory.
pub fn find(terms: &[TermId], number: usize) -> Option<usize>
    requires { IsAscending terms.now }
    ensures { IsFound terms.now number result }
{
    let place = place(terms, number);
    if is_at(terms, place, number) {
        Some(place)
    } else {
        None
    }
}

impl Ascending {
    /// No terms.
    pub fn new(alloc: Global) -> Ascending
        ensures { result.items.items ≡ [] }
    {
        Ascending {
            items: Vec::new(alloc),
        }
    }

    /// Makes room for one term more.
    pub fn reserve(&mut self) -> Result<(), Memory>
        ensures items { self.new.items.items ≡ self.old.items.items }
        ensures room { OnOk result (vec_len self.new.items < vec_capacity self.new.items) }
    {
        self.items.reserve(1)?;
        Ok(())
    }

    fn insert(&mut self, place: usize, term: TermId)
        requires place { IsPlace self.old.items.items term.0 place }
        requires absent { is_in self.old.items.items term.0 ≡ false }
        requires room { vec_len self.old.items < vec_capacity self.old.items }
        ensures there { is_in self.new.items.items term.0 ≡ true }
        ensures others { KeepsOthers term.0 self.old.items.items self.new.items.items }
    {
        let _ = self.items.insert(place, term);
    }

    /// Puts a term at its place, if it isn't there, where there is room for it.
    pub fn put(&mut self, term: TermId)
        requires { vec_len self.old.items < vec_capacity self.old.items }
        ensures there { is_in self.new.items.items term.0 ≡ true }
        ensures others { KeepsOthers term.0 self.old.items.items self.new.items.items }
    {
        let place = place(self.items.as_slice(), term.0);
        if !is_at(self.items.as_slice(), place, term.0) {
            self.insert(place, term);
        }
    }
}
