ghost use Rattle.std.specs.Prelude.{◌≡◌, ◌==◌, ◌<◌, ◌++◌, ◌∷◌, [], false, length, map, Some, IfOk, OnOk, OnErr, slice_get, slice_index, slice_index_or, slice_set};
ghost use Rattle.std.specs.List.{Contains, range_with_len};
ghost use Rattle.fm_closure.specs.Classes.{relabelled};
ghost use Rattle.fm_closure.specs.Members.{AreListed, AreUnited, IsEmptied};

use crate::classes::{relabelled, singletons};
use fm_base::Memory;
use sqlite_items::Items;
use std::alloc::Global;
use std::marker::Model;

// The classes of objects by place. A join goes over the members of the smaller class alone, so an object is moved at most
// as often as its class can double.
#[derive(Drop)]
pub(crate) struct Classes {
    alloc: Global,
    // By place, the number of the class, which is the place of one of its objects.
    numbers: Vec<usize>,
    // By number of a class, the places that were moved to it.
    members: Vec<Items<usize>>,
}

impl Model for Classes {
    ghost use Rattle.std.specs.Prelude.{List, ℕ};
    ghost use Rattle.fm_closure.specs.Members.{AreListed};

    ghost Value = { List ℕ };

    ghost view = { λ c. c.numbers.items };

    ghost invariant = { λ c. AreListed c.numbers.items c.members.items };
}

// An empty list for each number below the count.
fn no_members(alloc: Global, count: usize) -> Result<Vec<Items<usize>>, Memory>
    ensures { IfOk result (λ members. length members.items ≡ count) }
{
    let mut members = Vec::new(alloc);
    for _ in 0..count {
        members.push(Items::new(alloc))?;
    }
    Ok(members)
}

// Writes one class over another at one place.
fn relabel_at(numbers: &mut Vec<usize>, place: usize, from: usize, to: usize)
    ensures { numbers.new.items ≡ slice_set numbers.old.items place (relabelled from to (slice_index numbers.old.items place)) }
{
    if place < numbers.len() {
        numbers[place] = relabelled(numbers[place], from, to);
    }
}

fn note_member(members: &mut Vec<Items<usize>>, class: usize, place: usize) -> Result<(), Memory>
    requires { class < length members.old.items }
    ensures ok { OnOk result (members.new.items ≡ slice_set members.old.items class (slice_index_or members.old.items class [] ++ place ∷ [])) }
    ensures err { OnErr result (members.new.items ≡ members.old.items) }
{
    let list = &mut members[class];
    list.push(place)?;
    Ok(())
}

// A member of a class by its place in the list.
fn member(members: &Vec<Items<usize>>, class: usize, at: usize) -> usize
    requires class { class < length members.now.items }
    requires at { at < length (slice_index_or members.now.items class []) }
    ensures { slice_get (slice_index_or members.now.items class []) at ≡ Some result }
{
    members[class].as_slice()[at]
}

// Moves a place from one class to another.
fn move_place(
    numbers: &mut Vec<usize>,
    members: &mut Vec<Items<usize>>,
    place: usize,
    from: usize,
    to: usize,
) -> Result<(), Memory>
    requires { to < length members.old.items }
    ensures numbers { OnOk result (numbers.new.items ≡ slice_set numbers.old.items place (relabelled from to (slice_index numbers.old.items place))) }
    ensures members { OnOk result (members.new.items ≡ slice_set members.old.items to (slice_index_or members.old.items to [] ++ place ∷ [])) }
    ensures same_numbers { OnErr result (numbers.new.items ≡ numbers.old.items) }
    ensures same_members { OnErr result (members.new.items ≡ members.old.items) }
{
    note_member(members, to, place)?;
    relabel_at(numbers, place, from, to);
    Ok(())
}

// Moves all members of one class to another.
fn move_members(
    numbers: &mut Vec<usize>,
    members: &mut Vec<Items<usize>>,
    from: usize,
    to: usize,
) -> Result<(), Memory>
    requires from { from < length members.old.items }
    requires to { to < length members.old.items }
    requires differ { (from == to) ≡ false }
    requires listed { AreListed numbers.old.items members.old.items }
    ensures listed { AreListed numbers.new.items members.new.items }
    ensures length { length members.new.items ≡ length members.old.items }
    ensures moved { OnOk result (numbers.new.items ≡ map (relabelled from to) numbers.old.items) }
    ensures emptied { OnOk result (IsEmptied numbers.new.items from) }
{
    let count = members[from].len();
    move_place(numbers, members, from, from, to)?;
    for at in 0..count {
        let place = member(members, from, at);
        move_place(numbers, members, place, from, to)?;
    }
    Ok(())
}

// The same, and the class has no members any more.
fn move_class(
    alloc: Global,
    numbers: &mut Vec<usize>,
    members: &mut Vec<Items<usize>>,
    from: usize,
    to: usize,
) -> Result<(), Memory>
    requires from { from < length members.old.items }
    requires to { to < length members.old.items }
    requires differ { (from == to) ≡ false }
    requires listed { AreListed numbers.old.items members.old.items }
    ensures listed { AreListed numbers.new.items members.new.items }
    ensures moved { OnOk result (numbers.new.items ≡ map (relabelled from to) numbers.old.items) }
{
    move_members(numbers, members, from, to)?;
    members[from] = Items::new(alloc);
    Ok(())
}

impl Classes {
    // Each number below the count: each object in a class of its own.
    pub fn singletons(alloc: Global, count: usize) -> Result<Classes, Memory>
        ensures { IfOk result (λ classes. classes ≡ range_with_len 0 count) }
    {
        let numbers = singletons(alloc, count)?;
        let members = no_members(alloc, count)?;
        Ok(Classes {
            alloc,
            numbers,
            members,
        })
    }

    pub fn as_slice(&self) -> &[usize]
        ensures { result.now ≡ self.now }
    {
        self.numbers.as_slice()
    }

    // Makes one class of two: the smaller one is moved. After want of memory some of it may have been.
    pub fn join(&mut self, c: usize, d: usize) -> Result<(), Memory>
        requires left { Contains self.old c }
        requires right { Contains self.old d }
        requires differ { (c == d) ≡ false }
        ensures { OnOk result (AreUnited c d self.old self.new) }
    {
        if self.members[c].len() < self.members[d].len() {
            move_class(self.alloc, &mut self.numbers, &mut self.members, c, d)
        } else {
            move_class(self.alloc, &mut self.numbers, &mut self.members, d, c)
        }
    }
}
