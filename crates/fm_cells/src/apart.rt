ghost use Rattle.std.specs.Prelude.{◌≡◌, ◌<◌, ◌≤◌, ◌++◌, ◌∷◌, ℕ, [], drop, false, length, slice_get, take, true, vec_capacity, vec_len};
ghost use Rattle.std.specs.Prelude.{IfOk, OnOk};
ghost use Rattle.std.specs.List.{Contains};
ghost use Rattle.fm_cells.specs.Apart.{AreEnteredAt, AreEnteredBehind, ArePairsWithin, FollowsJoins, HasPopped, HasSides, IsEntered, IsIndexed, IsIndexedAt, IsKeyOr, IsLonger};
ghost use Rattle.fm_cells.specs.Apart.{IsPairWithin, KeepsCuts, KeepsIndex, KeepsIndexOf, KeepsPlaces, KeepsSound, is_key, places_at};
ghost use Rattle.fm_cells.specs.Rings.{own_or};

use crate::cells::Logged;
use crate::places::Places;
use fm_base::{Memory, TermId};
use indexmap::IndexSet;
use std::alloc::Global;

/// The numbers of the classes of the two sides of a pair.
#[derive(Clone, Copy, Debug, PartialEq, Eq, Hash)]
pub struct Between {
    pub left: usize,
    pub right: usize,
}

/// Which classes are apart: the pairs of terms that are said to be unequal, and for each of them the numbers of the classes
/// of its sides, as they are and as they were. `joined` is set where the sides of a pair are of one class. A change of the
/// classes is followed afterwards, by the log of their cells; where memory for it was wanting, `whole` isn't set until an
/// undo, and a reader goes over the pairs instead. The node of a term is its number and 2.
#[derive(Drop)]
pub struct Apart {
    pub pairs: Vec<(TermId, TermId)>,
    pub sides: Vec<Places>,
    pub keys: IndexSet<Between>,
    pub joined: bool,
    pub whole: bool,
}

/// How much of the pairs and of their keys there was at some time, and what was told then: what `rewind` takes.
#[derive(Clone, Copy)]
pub struct Cut {
    pub pairs: usize,
    pub keys: usize,
    pub joined: bool,
    pub whole: bool,
}

// Enters a pair by the classes of its sides, and answers whether they are one.
fn enter(
    keys: &mut IndexSet<Between>,
    class: &Logged<usize>,
    pair: (TermId, TermId),
) -> Result<bool, Memory>
    requires within { IsPairWithin (length class.now.cells.items) pair }
    ensures keys { IsLonger keys.old.keys keys.new.keys }
    ensures entered { IfOk result (λ j. IsEntered (own_or class.now.cells.items) keys.new.keys j pair) }
    ensures sound { (c d : ℕ) → is_key keys.new.keys c d ≡ true →
        IsKeyOr (own_or class.now.cells.items) keys.old.keys pair c d }
{
    let left = class.get(pair.0.0 + 2);
    let right = class.get(pair.1.0 + 2);
    keys.insert(Between { left, right })?;
    Ok(left == right)
}

// Enters the pair at a place.
fn enter_at(
    keys: &mut IndexSet<Between>,
    class: &Logged<usize>,
    pairs: &[(TermId, TermId)],
    place: usize,
) -> Result<bool, Memory>
    requires within { ArePairsWithin (length class.now.cells.items) pairs.now }
    ensures keys { IsLonger keys.old.keys keys.new.keys }
    ensures entered { IfOk result (λ j. AreEnteredAt (own_or class.now.cells.items) pairs.now keys.new.keys j (place ∷ [])) }
    ensures sound { KeepsSound (own_or class.now.cells.items) pairs.now keys.old.keys keys.new.keys }
{
    match pairs.get(place) {
        Some(pair) => enter(keys, class, *pair),
        None => Ok(false),
    }
}

// Enters the pairs at some places.
fn enter_pairs(
    keys: &mut IndexSet<Between>,
    class: &Logged<usize>,
    pairs: &[(TermId, TermId)],
    places: &[usize],
) -> Result<bool, Memory>
    requires within { ArePairsWithin (length class.now.cells.items) pairs.now }
    ensures keys { IsLonger keys.old.keys keys.new.keys }
    ensures entered { IfOk result (λ j. AreEnteredAt (own_or class.now.cells.items) pairs.now keys.new.keys j places.now) }
    ensures sound { KeepsSound (own_or class.now.cells.items) pairs.now keys.old.keys keys.new.keys }
{
    let mut joined = false;
    for place in places {
        joined |= enter_at(keys, class, pairs, *place)?;
    }
    Ok(joined)
}

// Enters the pairs of each node whose class was written behind a length of the log.
fn enter_moved(
    keys: &mut IndexSet<Between>,
    class: &Logged<usize>,
    pairs: &[(TermId, TermId)],
    sides: &[Places],
    from: usize,
) -> Result<bool, Memory>
    requires within { ArePairsWithin (length class.now.cells.items) pairs.now }
    requires from { from ≤ length class.now.log.items }
    ensures keys { IsLonger keys.old.keys keys.new.keys }
    ensures entered { IfOk result (λ j. AreEnteredBehind (own_or class.now.cells.items)
        pairs.now sides.now keys.new.keys j (drop from class.now.log.items)) }
    ensures sound { KeepsSound (own_or class.now.cells.items) pairs.now keys.old.keys keys.new.keys }
{
    let mut joined = false;
    for at in from..class.log.len() {
        let (node, _before) = class.log[at];
        joined |= enter_node(keys, class, pairs, sides, node)?;
    }
    Ok(joined)
}

// Enters the pairs that have a node as a side.
fn enter_node(
    keys: &mut IndexSet<Between>,
    class: &Logged<usize>,
    pairs: &[(TermId, TermId)],
    sides: &[Places],
    node: usize,
) -> Result<bool, Memory>
    requires within { ArePairsWithin (length class.now.cells.items) pairs.now }
    ensures keys { IsLonger keys.old.keys keys.new.keys }
    ensures entered { IfOk result (λ j. AreEnteredAt (own_or class.now.cells.items)
        pairs.now keys.new.keys j (places_at sides.now node)) }
    ensures sound { KeepsSound (own_or class.now.cells.items) pairs.now keys.old.keys keys.new.keys }
{
    match sides.get(node) {
        Some(places) => enter_pairs(keys, class, pairs, places.as_slice()),
        None => Ok(false),
    }
}

// Makes a list of places for a node, if there is none.
fn reach_sides(alloc: Global, sides: &mut Vec<Places>, node: usize) -> Result<(), Memory>
    ensures same { (x : ℕ) → places_at sides.new.items x ≡ places_at sides.old.items x }
    ensures there { OnOk result (node < length sides.new.items) }
{
    while sides.len() <= node {
        sides.push(Places::new(alloc))?;
    }
    Ok(())
}

// Notes the place of a pair at a node that is a side of it.
fn note_side(
    alloc: Global,
    sides: &mut Vec<Places>,
    node: usize,
    place: usize,
) -> Result<(), Memory>
    ensures kept { (x i : ℕ) → Contains (places_at sides.old.items x) i → Contains (places_at sides.new.items x) i }
    ensures there { OnOk result (Contains (places_at sides.new.items node) place) }
{
    reach_sides(alloc, sides, node)?;
    let list = &mut sides[node];
    list.push(place)?;
    Ok(())
}

// Takes the places of a pair back at a node.
fn drop_side(sides: &mut Vec<Places>, node: usize, bound: usize)
    ensures { HasPopped bound node sides.old.items sides.new.items }
{
    if node < sides.len() {
        let list = &mut sides[node];
        list.pop_from(bound);
    }
}

fn put_pair(pairs: &mut Vec<(TermId, TermId)>, pair: (TermId, TermId))
    requires room { vec_len pairs.old < vec_capacity pairs.old }
    ensures { pairs.new.items ≡ pairs.old.items ++ pair ∷ [] }
{
    let _ = pairs.push(pair);
}

impl Apart {
    /// No pairs.
    pub fn new(alloc: Global) -> Apart
        ensures pairs { result.pairs.items ≡ [] }
        ensures indexed { (class : ℕ → ℕ) → IsIndexed class result }
    {
        Apart {
            pairs: Vec::new(alloc),
            sides: Vec::new(alloc),
            keys: IndexSet::new(alloc),
            joined: false,
            whole: true,
        }
    }

    /// Makes room for a pair, so that `note` puts it in.
    pub fn reserve(&mut self) -> Result<(), Memory>
        ensures pairs { self.new.pairs.items ≡ self.old.pairs.items }
        ensures room { OnOk result (vec_len self.new.pairs < vec_capacity self.new.pairs) }
        ensures cuts { KeepsCuts self.old self.new }
        ensures indexed { KeepsIndex self.old self.new }
    {
        self.pairs.reserve(1)?;
        Ok(())
    }

    // Enters a pair that is put in next.
    fn enter_new(
        &mut self,
        alloc: Global,
        class: &Logged<usize>,
        pair: (TermId, TermId),
    ) -> Result<bool, Memory>
        requires within { IsPairWithin (length class.now.cells.items) pair }
        ensures pairs { self.new.pairs ≡ self.old.pairs }
        ensures joined { self.new.joined ≡ self.old.joined }
        ensures whole { self.new.whole ≡ self.old.whole }
        ensures keys { IsLonger self.old.keys.keys self.new.keys.keys }
        ensures kept { (x i : ℕ) → Contains (places_at self.old.sides.items x) i →
            Contains (places_at self.new.sides.items x) i }
        ensures sides { OnOk result (HasSides self.new.sides.items (length self.old.pairs.items) pair) }
        ensures entered { IfOk result (λ j. IsEntered (own_or class.now.cells.items) self.new.keys.keys j pair) }
        ensures sound { (c d : ℕ) → is_key self.new.keys.keys c d ≡ true →
            IsKeyOr (own_or class.now.cells.items) self.old.keys.keys pair c d }
    {
        let place = self.pairs.len();
        note_side(alloc, &mut self.sides, pair.0.0 + 2, place)?;
        note_side(alloc, &mut self.sides, pair.1.0 + 2, place)?;
        enter(&mut self.keys, class, pair)
    }

    /// Puts a pair in, where there is room for it.
    pub fn note(&mut self, alloc: Global, class: &Logged<usize>, pair: (TermId, TermId))
        requires room { vec_len self.old.pairs < vec_capacity self.old.pairs }
        requires within { IsPairWithin (length class.now.cells.items) pair }
        ensures pairs { self.new.pairs.items ≡ self.old.pairs.items ++ pair ∷ [] }
        ensures cuts { KeepsCuts self.old self.new }
        ensures indexed { KeepsIndexOf (own_or class.now.cells.items) self.old self.new }
    {
        match self.enter_new(alloc, class, pair) {
            Ok(joined) => self.joined |= joined,
            Err(_) => self.whole = false,
        }
        put_pair(&mut self.pairs, pair);
    }

    /// Follows what was written of the classes, which were joined, by what stands in their log behind a length.
    pub fn follow(&mut self, class: &Logged<usize>, from: usize)
        requires within { ArePairsWithin (length class.now.cells.items) self.old.pairs.items }
        requires from { from ≤ length class.now.log.items }
        ensures pairs { self.new.pairs ≡ self.old.pairs }
        ensures cuts { KeepsCuts self.old self.new }
        ensures right { FollowsJoins self.old self.new class.now.cells.items (drop from class.now.log.items) }
    {
        if self.whole {
            match enter_moved(
                &mut self.keys,
                class,
                self.pairs.as_slice(),
                self.sides.as_slice(),
                from,
            ) {
                Ok(joined) => self.joined |= joined,
                Err(_) => self.whole = false,
            }
        }
    }

    /// Whether the first side of a pair is of one class and the second of another, by their numbers.
    pub fn stands_from(&self, c: usize, d: usize) -> bool
        ensures { result ≡ is_key self.now.keys.keys c d }
    {
        self.keys.contains(&Between { left: c, right: d })
    }

    /// How much there is.
    pub fn cut(&self) -> Cut
        ensures pairs { result.pairs ≡ length self.now.pairs.items }
        ensures keys { result.keys ≡ length self.now.keys.keys }
        ensures right { (class : ℕ → ℕ) → IsIndexed class self.now → IsIndexedAt class self.now result }
    {
        Cut {
            pairs: self.pairs.len(),
            keys: self.keys.len(),
            joined: self.joined,
            whole: self.whole,
        }
    }

    // Takes the places of the last pairs back, and these pairs.
    fn drop_pairs(&mut self, to: usize)
        ensures pairs { self.new.pairs.items ≡ take to self.old.pairs.items }
        ensures sides { KeepsPlaces to self.old.sides.items self.new.sides.items }
        ensures keys { self.new.keys ≡ self.old.keys }
    {
        while self.pairs.len() > to {
            match self.pairs.pop() {
                Some((a, b)) => {
                    drop_side(&mut self.sides, a.0.saturating_add(2), to);
                    drop_side(&mut self.sides, b.0.saturating_add(2), to);
                }
                None => return,
            }
        }
    }

    /// Goes back to a cut. It takes no memory.
    pub fn rewind(&mut self, cut: Cut)
        ensures pairs { self.new.pairs.items ≡ take cut.pairs self.old.pairs.items }
        ensures keys { self.new.keys.keys ≡ take cut.keys self.old.keys.keys }
        ensures right { (class : ℕ → ℕ) → IsIndexedAt class self.old cut → IsIndexed class self.new }
        ensures below { (class : ℕ → ℕ) (c : Cut) → c.pairs ≤ cut.pairs → c.keys ≤ cut.keys →
            IsIndexedAt class self.old c → IsIndexedAt class self.new c }
    {
        self.drop_pairs(cut.pairs);
        self.keys.truncate(cut.keys);
        self.joined = cut.joined;
        self.whole = cut.whole;
    }
}
