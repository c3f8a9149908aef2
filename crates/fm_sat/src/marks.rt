ghost use Rattle.std.specs.Prelude.{◌≡◌, ◌<◌, ◌≤◌, ◌+◌, ◌∷◌, [], ℕ, false, length, replicate, slice_get, Some, IfOk, OnOk};
ghost use Rattle.fm_trail.specs.declared.entry.Entry.{Entry as TheEntry};
ghost use Rattle.fm_trail.specs.Trail.{HasOneEntry};
ghost use Rattle.fm_sat.specs.Marks.{AreJoined, AreLow, IsCounted, IsEntryUpTo, IsLastMark, IsMarked, IsMarkedFrom, IsUnmarked};

use fm_base::{Lit, Memory};
use fm_trail::Trail;
use std::alloc::Global;

// A clause that is false on a trail, as marks on the entries that make its literals false, with the count of those at
// the highest level, and the literals of lower levels.
#[derive(Drop)]
pub(crate) struct Marks {
    pub marks: Vec<bool>,
    pub count: usize,
    pub lower: Vec<Lit>,
}

impl Marks {
    /// No marks, for a trail of this length.
    pub fn none(alloc: Global, len: usize) -> Result<Marks, Memory>
        ensures marks { IfOk result (λ m. m.marks.items ≡ replicate len false) }
        ensures count { IfOk result (λ m. m.count ≡ 0) }
        ensures lower { IfOk result (λ m. m.lower.items ≡ []) }
    {
        Ok(Marks {
            marks: Vec::from_elem(alloc, false, len)?,
            count: 0,
            lower: Vec::new(alloc),
        })
    }

    // Marks an entry.
    fn mark(&mut self, trail: &Trail, place: usize, top: usize) -> Result<(), Memory>
        requires once { HasOneEntry trail.now.entries }
        requires counted { IsCounted trail.now.entries top self.old }
        requires entry { IsEntryUpTo trail.now.entries place top }
        ensures counted { OnOk result (IsCounted trail.now.entries top self.new) }
        ensures marked { OnOk result (IsMarkedFrom self.old.marks.items place self.new.marks.items) }
        ensures more { OnOk result (self.old.count ≤ self.new.count) }
    {
        if !self.marks[place] {
            self.marks[place] = true;
            let entry = trail.entry(place);
            if entry.level == top {
                self.count += 1;
            } else {
                self.lower.push(entry.lit.opposite())?;
            }
        }
        Ok(())
    }

    /// Takes the mark of an entry of the highest level away.
    pub fn unmark(&mut self, trail: &Trail, place: usize, top: usize)
        requires once { HasOneEntry trail.now.entries }
        requires counted { IsCounted trail.now.entries top self.old }
        requires marked { IsMarked self.old.marks.items place }
        requires entry { (e : TheEntry) × (slice_get trail.now.entries place ≡ Some e) × (e.level ≡ top) }
        ensures counted { IsCounted trail.now.entries top self.new }
        ensures unmarked { IsUnmarked self.old.marks.items place self.new.marks.items }
        ensures fewer { self.new.count + 1 ≡ self.old.count }
    {
        self.marks[place] = false;
        self.count -= 1;
    }

    /// Marks the entries below the bound that have an atom of the clause.
    pub fn mark_clause(
        &mut self,
        trail: &Trail,
        lits: &[Lit],
        bound: usize,
        top: usize,
    ) -> Result<(), Memory>
        requires once { HasOneEntry trail.now.entries }
        requires counted { IsCounted trail.now.entries top self.old }
        requires low { AreLow trail.now.entries lits.now bound top }
        ensures counted { OnOk result (IsCounted trail.now.entries top self.new) }
        ensures joined { OnOk result (AreJoined trail.now.entries lits.now bound self.old.marks.items self.new.marks.items) }
        ensures more { OnOk result (self.old.count ≤ self.new.count) }
    {
        for lit in lits {
            self.mark_literal(trail, *lit, bound, top)?;
        }
        Ok(())
    }

    // Marks the entry with the atom, if it is below the bound.
    fn mark_literal(
        &mut self,
        trail: &Trail,
        lit: Lit,
        bound: usize,
        top: usize,
    ) -> Result<(), Memory>
        requires once { HasOneEntry trail.now.entries }
        requires counted { IsCounted trail.now.entries top self.old }
        requires low { AreLow trail.now.entries (lit ∷ []) bound top }
        ensures counted { OnOk result (IsCounted trail.now.entries top self.new) }
        ensures joined { OnOk result (AreJoined trail.now.entries (lit ∷ []) bound self.old.marks.items self.new.marks.items) }
        ensures more { OnOk result (self.old.count ≤ self.new.count) }
    {
        match trail.place(lit.atom) {
            Some(place) if place < bound => self.mark(trail, place, top),
            _ => Ok(()),
        }
    }

    /// The last mark below the bound.
    pub fn last_below(&self, bound: usize) -> usize
        requires within { bound ≤ length self.now.marks.items }
        requires some { (p : ℕ) × IsMarked self.now.marks.items p × (p < bound) }
        ensures { IsLastMark self.now.marks.items bound result }
    {
        let mut place = bound;
        while place > 0 {
            place -= 1;
            if self.marks[place] {
                return place;
            }
        }
        unreachable!()
    }
}
