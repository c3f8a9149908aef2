ghost use Rattle.std.specs.Prelude.{◌≡◌, ◌<◌, ℕ, [], length, slice_get, OnOk, IfOk};
ghost use Rattle.std.specs.List.{filter};
ghost use Rattle.fm_cells.specs.Ascending.{IsAscending};
ghost use Rattle.fm_cells.specs.Sorts.{AreNodes, HasRoomFor, HasTerm, SaysTheSame, is_first, list_of, terms_of};

use crate::ascending::Ascending;
use crate::rings::Classes;
use fm_base::{Memory, SortId, TermId};
use std::alloc::Global;

/// Terms by their sorts: those of each sort in ascending order.
#[derive(Drop)]
pub struct Sorts {
    pub lists: Vec<Ascending>,
}

// Makes a list for a sort, if there is none.
fn reach_list(alloc: Global, lists: &mut Vec<Ascending>, sort: usize) -> Result<(), Memory>
    ensures same { (s : ℕ) → terms_of (slice_get lists.new.items s) ≡ terms_of (slice_get lists.old.items s) }
    ensures there { OnOk result (sort < length lists.new.items) }
{
    while lists.len() <= sort {
        lists.push(Ascending::new(alloc))?;
    }
    Ok(())
}

impl Sorts {
    /// No terms.
    pub fn new(alloc: Global) -> Sorts
        ensures { result.lists.items ≡ [] }
    {
        Sorts {
            lists: Vec::new(alloc),
        }
    }

    /// Makes room for a term of a sort, so that `note` needs no memory.
    pub fn announce(&mut self, alloc: Global, sort: SortId) -> Result<(), Memory>
        ensures lists { SaysTheSame self.old self.new }
        ensures room { OnOk result (HasRoomFor self.new sort.0) }
    {
        reach_list(alloc, &mut self.lists, sort.0)?;
        let list = &mut self.lists[sort.0];
        list.reserve()?;
        Ok(())
    }

    /// Puts a term that was announced among those of its sort.
    pub fn note(&mut self, term: TermId, sort: SortId)
        requires room { HasRoomFor self.old sort.0 }
        ensures { HasTerm self.old self.new term.0 sort.0 }
    {
        let list = &mut self.lists[sort.0];
        list.put(term);
    }

    /// The terms of a sort.
    pub fn terms(&self, sort: SortId) -> &[TermId]
        ensures terms { result.now ≡ list_of self.now sort.0 }
        ensures ascending { IsAscending result.now }
    {
        match self.lists.get(sort.0) {
            Some(list) => list.items.as_slice(),
            None => &[],
        }
    }
}

/// Those of some terms that are the first of their classes by their numbers. The node of a term is its number and 2.
pub fn first_terms(
    alloc: Global,
    classes: &Classes,
    terms: &[TermId],
) -> Result<Vec<TermId>, Memory>
    requires { AreNodes classes.now terms.now }
    ensures { IfOk result (λ v. v.items ≡ filter (is_first classes.now) terms.now) }
{
    let mut list = Vec::new(alloc);
    for term in terms {
        if classes.is_least(term.0 + 2) {
            list.push(*term)?;
        }
    }
    Ok(list)
}
