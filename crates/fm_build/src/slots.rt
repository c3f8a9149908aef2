ghost use Rattle.std.specs.Prelude.{◌≡◌, ◌<◌, ℕ, None, length, replicate, IfOk};
ghost use Rattle.fm_build.specs.Marks.{AreBelow};
ghost use Rattle.fm_build.specs.Slots.{or_slot, slot_at, slot_from, slot_of, AreSlots};

use crate::elements::class_of;
use fm_base::{Memory, TermId};
use sqlite_items::Items;
use std::alloc::Global;

// By class, the number of a sort and a place among its representatives.
pub(crate) type Slot = Option<(usize, usize)>;

// The slot of a class.
pub(crate) fn slot(slots: &[Slot], class: usize) -> Slot
    ensures { result ≡ slot_at slots.now class }
{
    slots.get(class).copied().unwrap_or(None)
}

// Fills the slot of a class, unless it is full.
fn fill(slots: &mut Vec<Slot>, class: usize, place: (usize, usize))
    ensures each { (k : ℕ) → k < length slots.old.items → slot_at slots.new.items k ≡ or_slot (slot_at slots.old.items k) (slot_of class k place) }
    ensures room { length slots.new.items ≡ length slots.old.items }
{
    if class < slots.len() && slot(slots.as_slice(), class).is_none() {
        slots[class] = Some(place);
    }
}

// Fills the slots of the classes of representatives of a sort.
fn fill_sort(slots: &mut Vec<Slot>, class: &[usize], sort: usize, reps: &[TermId])
    ensures each { (k : ℕ) → k < length slots.old.items → slot_at slots.new.items k ≡ or_slot (slot_at slots.old.items k) (slot_from class.now k sort 0 reps.now) }
    ensures room { length slots.new.items ≡ length slots.old.items }
{
    for place in 0..reps.len() {
        fill(slots, class_of(class, reps[place].0), (sort, place));
    }
}

fn empty(alloc: Global, count: usize) -> Result<Vec<Slot>, Memory>
    ensures { IfOk result (λ v. v.items ≡ replicate count None) }
{
    Ok(vec![in alloc; None; count]?)
}

// The slot of each class: the sort and the place of its first representative.
pub(crate) fn slots_of(
    alloc: Global,
    class: &[usize],
    reps: &[Items<TermId>],
) -> Result<Vec<Slot>, Memory>
    requires { AreBelow class.now (length class.now) }
    ensures { IfOk result (λ v. AreSlots class.now reps.now v.items) }
{
    let mut slots = empty(alloc, class.len())?;
    for sort in 0..reps.len() {
        fill_sort(&mut slots, class, sort, reps[sort].as_slice());
    }
    Ok(slots)
}
