ghost use Rattle.std.specs.Prelude.{◌≡◌, ◌<◌, ◌++◌, length, map, IfOk, OnOk, OnErr};
ghost use Rattle.std.specs.List.{All};
ghost use Rattle.fm_bank.specs.Closure.{object};
ghost use Rattle.fm_cells.specs.Rings.{HasRing, own_or, root_or};
ghost use Rattle.fm_cong.specs.Tables.{AreAgain, HasGrown, IsAgain, IsClassAgain, IsEntered, IsKnown, KeepsEntering, KeepsEnteringOf};
ghost use Rattle.fm_cong.specs.Tables.{find_in, moved, new_entry, signature, uses_at};

use crate::key::{Args, Key};
use crate::member::Member;
use fm_base::Memory;
use fm_cells::{Classes, Logged, Places};
use indexmap::IndexMap;
use smallvec::SmallVec;
use std::alloc::Global;

// The class of a node once the class `from` has the number `to`.
fn class_after(class: &Logged<usize>, from: usize, to: usize, node: usize) -> usize
    requires { node < length class.now.cells.items }
    ensures { result ≡ moved from to class.now.cells.items node }
{
    let number = class.get(node);
    if number == from { to } else { number }
}

// The signature of a term.
fn key_of(
    alloc: Global,
    class: &Logged<usize>,
    from: usize,
    to: usize,
    member: &Member,
) -> Result<Key, Memory>
    requires known { IsKnown (length class.now.cells.items) member.now }
    ensures { IfOk result (λ key. key ≡ signature (moved from to class.now.cells.items) member.now) }
{
    let symbol = member.symbol();
    let args = classes_of(alloc, class, from, to, member.args())?;
    Ok(Key::new(symbol, args))
}

fn classes_of(
    alloc: Global,
    class: &Logged<usize>,
    from: usize,
    to: usize,
    terms: &[usize],
) -> Result<Args, Memory>
    requires known { All (λ a. object a < length class.now.cells.items) terms.now }
    ensures { IfOk result (λ args. args.items ≡ map (λ a. moved from to class.now.cells.items (object a)) terms.now) }
{
    let mut args = SmallVec::new(alloc);
    for term in terms {
        args.push(class_after(class, from, to, *term + 2))?;
    }
    Ok(args)
}

// Puts a node into the table where its signature isn't there yet, and answers what stood there.
fn put(table: &mut IndexMap<Key, usize>, key: Key, node: usize) -> Result<Option<usize>, Memory>
    ensures found { IfOk result (λ found. found ≡ find_in table.old.entries key) }
    ensures entries { OnOk result (table.new.entries ≡ table.old.entries ++ new_entry
        (find_in table.old.entries key) key node) }
    ensures err { OnErr result (table.new.entries ≡ table.old.entries) }
{
    match table.get(&key) {
        Some(other) => Ok(Some(*other)),
        None => {
            table.insert(key, node)?;
            Ok(None)
        }
    }
}

// Enters a term: its signature into the table, or the pair of it and of the term that is there into what waits.
pub(crate) fn enter(
    alloc: Global,
    table: &mut IndexMap<Key, usize>,
    waiting: &mut Vec<(usize, usize)>,
    class: &Logged<usize>,
    from: usize,
    to: usize,
    member: &Member,
) -> Result<(), Memory>
    requires known { IsKnown (length class.now.cells.items) member.now }
    ensures table { HasGrown table.old.entries table.new.entries }
    ensures waiting { HasGrown waiting.old.items waiting.new.items }
    ensures entered { OnOk result (IsEntered (moved from to class.now.cells.items) (find_in
        table.new.entries) waiting.new.items member.now) }
    ensures sound { OnOk result (KeepsEnteringOf member.now (moved from to class.now.cells.items)
        table.old.entries waiting.old.items table.new.entries waiting.new.items) }
{
    let node = member.number() + 2;
    let key = key_of(alloc, class, from, to, member)?;
    match put(table, key, node)? {
        None => Ok(()),
        Some(other) => {
            waiting.push((other, node))?;
            Ok(())
        }
    }
}

// Enters the term at a place.
fn enter_at(
    alloc: Global,
    table: &mut IndexMap<Key, usize>,
    waiting: &mut Vec<(usize, usize)>,
    class: &Logged<usize>,
    from: usize,
    to: usize,
    members: &[Member],
    place: usize,
) -> Result<(), Memory>
    requires known { All (IsKnown (length class.now.cells.items)) members.now }
    ensures table { HasGrown table.old.entries table.new.entries }
    ensures waiting { HasGrown waiting.old.items waiting.new.items }
    ensures entered { OnOk result (IsAgain members.now (moved from to class.now.cells.items)
        table.new.entries waiting.new.items place) }
    ensures sound { OnOk result (KeepsEntering members.now (moved from to class.now.cells.items)
        table.old.entries waiting.old.items table.new.entries waiting.new.items) }
{
    if let Some(member) = members.get(place) {
        enter(alloc, table, waiting, class, from, to, member)?;
    }
    Ok(())
}

// Enters the terms at some places.
fn enter_uses(
    alloc: Global,
    table: &mut IndexMap<Key, usize>,
    waiting: &mut Vec<(usize, usize)>,
    class: &Logged<usize>,
    from: usize,
    to: usize,
    members: &[Member],
    places: &[usize],
) -> Result<(), Memory>
    requires known { All (IsKnown (length class.now.cells.items)) members.now }
    ensures table { HasGrown table.old.entries table.new.entries }
    ensures waiting { HasGrown waiting.old.items waiting.new.items }
    ensures entered { OnOk result (AreAgain members.now (moved from to class.now.cells.items)
        table.new.entries waiting.new.items places.now) }
    ensures sound { OnOk result (KeepsEntering members.now (moved from to class.now.cells.items)
        table.old.entries waiting.old.items table.new.entries waiting.new.items) }
{
    for place in places {
        enter_at(alloc, table, waiting, class, from, to, members, *place)?;
    }
    Ok(())
}

// Enters the terms that have a node as an argument.
fn enter_node(
    alloc: Global,
    table: &mut IndexMap<Key, usize>,
    waiting: &mut Vec<(usize, usize)>,
    class: &Logged<usize>,
    from: usize,
    to: usize,
    members: &[Member],
    uses: &[Places],
    node: usize,
) -> Result<(), Memory>
    requires known { All (IsKnown (length class.now.cells.items)) members.now }
    ensures table { HasGrown table.old.entries table.new.entries }
    ensures waiting { HasGrown waiting.old.items waiting.new.items }
    ensures entered { OnOk result (AreAgain members.now (moved from to class.now.cells.items)
        table.new.entries waiting.new.items (uses_at uses.now node)) }
    ensures sound { OnOk result (KeepsEntering members.now (moved from to class.now.cells.items)
        table.old.entries waiting.old.items table.new.entries waiting.new.items) }
{
    if let Some(list) = uses.get(node) {
        enter_uses(
            alloc,
            table,
            waiting,
            class,
            from,
            to,
            members,
            list.as_slice(),
        )?;
    }
    Ok(())
}

// Enters all terms with an argument of a class, by their signatures once the class has another number.
pub(crate) fn enter_class(
    alloc: Global,
    table: &mut IndexMap<Key, usize>,
    waiting: &mut Vec<(usize, usize)>,
    classes: &Classes,
    from: usize,
    to: usize,
    members: &[Member],
    uses: &[Places],
) -> Result<(), Memory>
    requires ring { HasRing (own_or classes.now.next.cells.items) (own_or classes.now.class.cells.items)
        (root_or classes.now.size.cells.items) from }
    requires from { from < length classes.now.class.cells.items }
    requires nexts { length classes.now.next.cells.items ≡ length classes.now.class.cells.items }
    requires sizes { length classes.now.size.cells.items ≡ length classes.now.class.cells.items }
    requires known { All (IsKnown (length classes.now.class.cells.items)) members.now }
    ensures table { HasGrown table.old.entries table.new.entries }
    ensures waiting { HasGrown waiting.old.items waiting.new.items }
    ensures entered { OnOk result (IsClassAgain members.now uses.now from to classes.now.class.cells.items
        table.new.entries waiting.new.items) }
    ensures sound { OnOk result (KeepsEntering members.now (moved from to classes.now.class.cells.items)
        table.old.entries waiting.old.items table.new.entries waiting.new.items) }
{
    let mut at = from;
    let root = classes.size.get(from);
    for _i in 0..root.size {
        enter_node(
            alloc,
            table,
            waiting,
            &classes.class,
            from,
            to,
            members,
            uses,
            at,
        )?;
        at = classes.next.get(at);
    }
    Ok(())
}
