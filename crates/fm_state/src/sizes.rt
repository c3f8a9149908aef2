ghost use Rattle.std.specs.Prelude.{◌≡◌, ◌==◌, ◌++◌, ◌<◌, ◌+◌, ◌^◌, ◌&&◌, [], ℕ, List, if◌then◌else◌, false, length, not, slice_get, Some};
ghost use Rattle.fm_steps.specs.Bounds.{IsInRow};
ghost use Rattle.fm_steps.specs.Lemmas.{is_known as is_known_in};
ghost use Rattle.fm_steps.specs.Sizes.{greatest as greatest_in, greatest_false as greatest_false_in, greatest_with as greatest_of, holds as holds_in, is_refuted as is_refuted_in, is_unvalued as is_unvalued_in, least_open as least_open_in, number_in as numbers_in};
ghost use Rattle.fm_steps.specs.State.{atom_value};
ghost use Rattle.fm_state.specs.Groups.{listed};

use crate::standing::State;
use fm_bank::Atom;
use fm_base::{AtomId, SortId};
use fm_trail::Entry;

// The value of an atom, none where it isn't known.
pub(crate) fn value_of(state: &State, atom: Atom) -> Option<bool>
    ensures { result ≡ atom_value state.now atom }
{
    match state.bank().find_atom(atom) {
        Some(id) => state.trail().value(id),
        None => None,
    }
}

// The same for an atom of which the number is at hand.
pub(crate) fn value_at(state: &State, id: AtomId, atom: Atom) -> Option<bool>
    requires { slice_get state.now.held.atoms id.0 ≡ Some atom }
    ensures { result ≡ atom_value state.now atom }
{
    let _ = atom;
    state.bank().one_number_per_term();
    state.trail().value(id)
}

pub(crate) fn holds(state: &State, value: bool, atom: Atom) -> bool
    ensures { result ≡ holds_in state.now value atom }
{
    match value_of(state, atom) {
        Some(found) => found == value,
        None => false,
    }
}

pub(crate) fn is_unvalued(state: &State, atom: Atom) -> bool
    ensures { result ≡ is_unvalued_in state.now atom }
{
    value_of(state, atom).is_none()
}

pub(crate) fn is_known(state: &State, atom: Atom) -> bool
    ensures { result ≡ is_known_in state.now atom }
{
    state.bank().find_atom(atom).is_some()
}

fn is_negative_at_zero(entry: Entry) -> bool
    ensures { result ≡ (not entry.lit.positive && entry.level == 0) }
{
    !entry.lit.positive && entry.level == 0
}

// Whether the atom is false at level 0.
pub(crate) fn is_refuted(state: &State, atom: Atom) -> bool
    ensures { result ≡ is_refuted_in state.now atom }
{
    let trail = state.trail();
    trail.entries_are_levelled();
    match state.bank().find_atom(atom) {
        None => false,
        Some(id) => match trail.place(id) {
            None => false,
            Some(place) => is_negative_at_zero(trail.entry(place)),
        },
    }
}

fn number_in(sort: SortId, atom: Atom) -> Option<u64>
    ensures { listed result ≡ numbers_in sort.0 atom }
{
    match atom {
        Atom::Card(other, k) if other.0 == sort.0 => Some(k),
        _ => None,
    }
}

// The number of an atom that is a false bound on the sort.
fn false_number(state: &State, sort: SortId, id: AtomId, atom: Atom) -> Option<u64>
    requires { slice_get state.now.held.atoms id.0 ≡ Some atom }
    ensures { listed result ≡ (if holds_in state.now false atom then numbers_in sort.0 atom else []) }
{
    match value_at(state, id, atom) {
        Some(false) => number_in(sort, atom),
        _ => None,
    }
}

fn greatest_with(number: u64, greatest: Option<u64>) -> u64
    ensures { result ≡ greatest_of number greatest }
{
    match greatest {
        None => number,
        Some(other) => number.max(other),
    }
}

fn greatest_or(number: Option<u64>, greatest: Option<u64>) -> Option<u64>
    ensures { (ns : List ℕ) → greatest ≡ greatest_in ns → result ≡ greatest_in (listed number ++ ns) }
{
    match number {
        None => greatest,
        Some(number) => Some(greatest_with(number, greatest)),
    }
}

// The greatest k whose bound on the sort is false. It goes once through the known atoms, from the last one on.
pub(crate) fn greatest_false(state: &State, sort: SortId) -> Option<u64>
    ensures { result ≡ greatest_false_in state.now sort.0 }
{
    let mut greatest = None;
    let mut left = state.bank().atoms();
    while left > 0 {
        left -= 1;
        let id = AtomId(left);
        let number = false_number(state, sort, id, state.bank().atom_of(id));
        greatest = greatest_or(number, greatest);
    }
    greatest
}

// The least k from 1 on whose bound on the sort isn't false.
pub(crate) fn least_open(state: &State, sort: SortId) -> u64
    requires row { IsInRow state.now sort.0 }
    requires room { state.now.bound + 1 < 2 ^ 64 }
    ensures { result ≡ least_open_in state.now sort.0 }
{
    let mut found = 1;
    for _number in 0..state.bank().atoms() {
        if !holds(state, false, Atom::Card(sort, found)) {
            return found;
        }
        found += 1;
    }
    found
}
