ghost use Rattle.std.specs.Prelude.{◌≡◌, ◌<◌, ◌==◌, Some, length, slice_get, IfOk};
ghost use Rattle.std.specs.List.{position};
ghost use Rattle.fm_base.specs.declared.ids.TermId.{TermId};
ghost use Rattle.fm_bank.specs.Terms.{numbers};
ghost use Rattle.fm_rounds.specs.Failing.{numbered_reps};
ghost use Rattle.fm_build.specs.Elements.{all_reps_by, element_by, elements_by, is_of_sort as is_of, place_in, reps_by};
ghost use Rattle.fm_build.specs.Marks.{AreBelow, class_at};
ghost use Rattle.fm_build.specs.Slots.{AreSlots, IsPlacedBy};

use crate::slots::{Slot, slot, slots_of};
use fm_base::{Memory, SortId, TermId, Ty};
use sqlite_items::Items;
use std::alloc::Global;

fn is_of_sort(types: &[Ty], sort: SortId, term: usize) -> bool
    ensures { result ≡ is_of types.now sort term }
{
    match types.get(term) {
        Some(Ty::Of(other)) => other.0 == sort.0,
        Some(Ty::Bool) => false,
        None => false,
    }
}

// The representatives of a sort, in their order.
fn reps_of_sort(
    alloc: Global,
    types: &[Ty],
    reps: &[usize],
    sort: SortId,
) -> Result<Items<TermId>, Memory>
    ensures { IfOk result (λ ts. numbers ts ≡ reps_by types.now reps.now sort.0) }
{
    let mut found = Items::new(alloc);
    for rep in reps {
        if is_of_sort(types, sort, *rep) {
            found.push(TermId(*rep))?;
        }
    }
    Ok(found)
}

pub(crate) fn reps_by_sort(
    alloc: Global,
    types: &[Ty],
    reps: &[usize],
    sorts: usize,
) -> Result<Items<Items<TermId>>, Memory>
    ensures { IfOk result (λ all. numbered_reps all ≡ all_reps_by types.now reps.now sorts) }
{
    let mut all = Items::new(alloc);
    for sort in 0..sorts {
        let found = reps_of_sort(alloc, types, reps, SortId(sort))?;
        all.push(found)?;
    }
    Ok(all)
}

pub(crate) fn class_of(class: &[usize], term: usize) -> usize
    ensures { result ≡ class_at class.now term }
{
    class.get(term).copied().unwrap_or(0)
}

fn first_place(class: &[usize], reps: &[TermId], own: usize) -> Option<usize>
    ensures { result ≡ position (λ (r : TermId). class_at class.now r.0 == own) reps.now }
{
    reps.iter().position(|rep| class_of(class, rep.0) == own)
}

// The place of the term's class among representatives, or their number.
fn place(class: &[usize], reps: &[TermId], term: usize) -> usize
    ensures { result ≡ place_in class.now term (Some reps.now) }
{
    match first_place(class, reps, class_of(class, term)) {
        Some(place) => place,
        None => reps.len(),
    }
}

// The same by the slot of the class. A class whose slot is of another sort, which no graph has, is looked for.
fn place_by(class: &[usize], slot: Slot, sort: SortId, reps: &[TermId], term: usize) -> usize
    requires { IsPlacedBy class.now term slot sort.0 reps.now }
    ensures { result ≡ place_in class.now term (Some reps.now) }
{
    match slot {
        None => reps.len(),
        Some((other, at)) => {
            if other == sort.0 {
                at
            } else {
                place(class, reps, term)
            }
        }
    }
}

fn place_at(
    class: &[usize],
    reps: &[Items<TermId>],
    slots: &[Slot],
    sort: SortId,
    term: usize,
) -> usize
    requires term { term < length class.now }
    requires slots { AreSlots class.now reps.now slots.now }
    ensures { result ≡ place_in class.now term (slice_get reps.now sort.0) }
{
    match reps.get(sort.0) {
        None => 0,
        Some(reps) => {
            let own = slot(slots, class_of(class, term));
            place_by(class, own, sort, reps.as_slice(), term)
        }
    }
}

fn element(
    class: &[usize],
    types: &[Ty],
    holds: &[bool],
    reps: &[Items<TermId>],
    slots: &[Slot],
    term: usize,
) -> u64
    requires term { term < length class.now }
    requires slots { AreSlots class.now reps.now slots.now }
    ensures { result ≡ element_by class.now types.now holds.now reps.now term }
{
    match types.get(term) {
        None => 0,
        Some(Ty::Bool) => {
            if holds.get(term).copied().unwrap_or(false) {
                1
            } else {
                0
            }
        }
        Some(Ty::Of(sort)) => place_at(class, reps, slots, *sort, term) as u64,
    }
}

// The element of each term's class; of a predicate term whether it is joined with yes.
pub(crate) fn all_elements(
    alloc: Global,
    class: &[usize],
    types: &[Ty],
    holds: &[bool],
    reps: &[Items<TermId>],
) -> Result<Vec<u64>, Memory>
    requires { AreBelow class.now (length class.now) }
    ensures { IfOk result (λ v. v.items ≡ elements_by class.now types.now holds.now reps.now) }
{
    let slots = slots_of(alloc, class, reps)?;
    let mut elements = Vec::new(alloc);
    for term in 0..class.len() {
        let element = element(class, types, holds, reps, slots.as_slice(), term);
        elements.push(element)?;
    }
    Ok(elements)
}
