ghost use Rattle.std.specs.Prelude.{◌≡◌, ◌<◌, ◌≤◌, ◌+◌, length, IfSome};
ghost use Rattle.fm_cells.specs.Apart.{HasRoots, IsIndexed};
ghost use Rattle.fm_cong.specs.Facts.{AreAtomsBelow, IsAtomBelow, are_parted, is_parted, unequal_by};
ghost use Rattle.fm_cong.specs.Graphs.{IsPairBelow};
ghost use Rattle.fm_cong.specs.States.{IsNode, class_in, count_of, truth_by};
ghost use Rattle.fm_cong.specs.Tracked.{HasPairsOf};

use crate::fact::Fact;
use crate::state::State;
use fm_bank::Atom;
use fm_cells::{Apart, Logged};

// The sides of a false equality.
pub(crate) fn unequal_sides(fact: Fact) -> Option<(usize, usize)>
    ensures { result ≡ unequal_by fact }
{
    match fact.atom {
        Atom::Equal(a, b) => {
            if fact.lit.positive {
                None
            } else {
                Some((a.0, b.0))
            }
        }
        Atom::Pred(_term) => None,
        Atom::Card(_sort, _k) => None,
        Atom::Bound(_n) => None,
    }
}

// Whether a literal says that the classes of two nodes are unequal.
fn parts(class: &Logged<usize>, fact: Fact, node: usize, other: usize) -> bool
    requires atom { IsAtomBelow (length class.now.cells.items) fact.atom }
    requires node { node < length class.now.cells.items }
    requires other { other < length class.now.cells.items }
    ensures { result ≡ is_parted class.now.cells.items node other (unequal_by fact) }
{
    match unequal_sides(fact) {
        None => false,
        Some(pair) => {
            let a = class.get(node);
            let b = class.get(other);
            let left = class.get(pair.0 + 2);
            let right = class.get(pair.1 + 2);
            (a == left && b == right) || (b == left && a == right)
        }
    }
}

// Whether a literal read says that the classes of two nodes are unequal, by going over all of them.
fn is_apart_by_facts(state: &State, node: usize, other: usize) -> bool
    requires atoms { AreAtomsBelow (count_of state.now) state.now.facts.items }
    requires node { IsNode state.now node }
    requires other { IsNode state.now other }
    ensures { result ≡ are_parted state.now.classes.class.cells.items node other state.now.facts.items }
{
    for fact in &state.facts {
        if parts(&state.classes.class, *fact, node, other) {
            return true;
        }
    }
    false
}

// The same by the index of the false equalities, unless memory for it was wanting.
pub(crate) fn is_apart(state: &State, apart: &Apart, node: usize, other: usize) -> bool
    requires atoms { AreAtomsBelow (count_of state.now) state.now.facts.items }
    requires pairs { HasPairsOf state.now.facts.items apart.now }
    requires indexed { IsIndexed (class_in state.now) apart.now }
    requires roots { HasRoots (class_in state.now) }
    requires node { IsNode state.now node }
    requires other { IsNode state.now other }
    ensures { result ≡ are_parted state.now.classes.class.cells.items node other state.now.facts.items }
{
    let class = &state.classes.class;
    if apart.whole {
        let c = class.get(node);
        let d = class.get(other);
        apart.stands_from(c, d) || apart.stands_from(d, c)
    } else {
        is_apart_by_facts(state, node, other)
    }
}

// Whether a node is of the class of yes, else of the class of no.
pub(crate) fn truth_of(state: &State, node: usize) -> Option<bool>
    requires node { IsNode state.now node }
    requires objects { 2 ≤ count_of state.now }
    ensures { result ≡ truth_by (class_in state.now) node }
{
    let class = state.classes.class.get(node);
    if class == state.classes.class.get(0) {
        Some(true)
    } else if class == state.classes.class.get(1) {
        Some(false)
    } else {
        None
    }
}
