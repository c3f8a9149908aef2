ghost use Rattle.std.specs.Prelude.{◌≡◌, ◌<◌, ◌≤◌, length, IfSome};
ghost use Rattle.fm_bank.specs.Closure.{object};
ghost use Rattle.fm_cells.specs.Apart.{IsIndexed};
ghost use Rattle.fm_cong.specs.Clashes.{AreHeld, first_clash, first_equal, first_term, is_joined, term_read, truths_by, two_truths};
ghost use Rattle.fm_cong.specs.Facts.{AreAtomsBelow, IsAtomBelow, unequal_by};
ghost use Rattle.fm_cong.specs.States.{class_in, count_of};
ghost use Rattle.fm_cong.specs.Tracked.{HasPairsOf};

use crate::clash::Clash;
use crate::fact::Fact;
use crate::queries::unequal_sides;
use crate::state::State;
use fm_bank::Atom;
use fm_base::{AtomId, TermId};
use fm_cells::{Apart, Logged};

// Whether a literal is a false equality whose sides are of one class.
fn has_equal_sides(class: &Logged<usize>, fact: Fact) -> bool
    requires atom { IsAtomBelow (length class.now.cells.items) fact.atom }
    ensures { result ≡ is_joined class.now.cells.items (unequal_by fact) }
{
    match unequal_sides(fact) {
        None => false,
        Some(pair) => class.get(pair.0 + 2) == class.get(pair.1 + 2),
    }
}

// The atom of the first false equality whose sides are of one class.
fn equal_sides(class: &Logged<usize>, facts: &[Fact]) -> Option<AtomId>
    requires atoms { AreAtomsBelow (length class.now.cells.items) facts.now }
    ensures { result ≡ first_equal class.now.cells.items facts.now }
{
    for fact in facts {
        if has_equal_sides(class, *fact) {
            return Some(fact.lit.atom);
        }
    }
    None
}

// The term of a literal of this sign on a predicate term.
fn read_term(fact: Fact, sign: bool) -> Option<TermId>
    ensures { result ≡ term_read sign fact }
{
    match fact.atom {
        Atom::Pred(term) => {
            if fact.lit.positive == sign {
                Some(term)
            } else {
                None
            }
        }
        Atom::Equal(_a, _b) => None,
        Atom::Card(_sort, _k) => None,
        Atom::Bound(_n) => None,
    }
}

// The first predicate term that was read with this sign.
fn first_read(facts: &[Fact], sign: bool) -> Option<TermId>
    ensures { result ≡ first_term sign facts.now }
{
    for fact in facts {
        if let Some(term) = read_term(*fact, sign) {
            return Some(term);
        }
    }
    None
}

// A clash of two predicate terms, if they are of one class. The node of each is one of those that have a class.
fn truths_clash(
    class: &Logged<usize>,
    holds: Option<TermId>,
    fails: Option<TermId>,
) -> Option<Clash>
    requires holds { IfSome holds (λ t. object t.0 < length class.now.cells.items) }
    requires fails { IfSome fails (λ t. object t.0 < length class.now.cells.items) }
    ensures { result ≡ two_truths class.now.cells.items holds fails }
{
    match (holds, fails) {
        (Some(p), Some(q)) => {
            if class.get(p.0 + 2) == class.get(q.0 + 2) {
                Some(Clash::Truth(p, q))
            } else {
                None
            }
        }
        _ => None,
    }
}

// A clash of the predicate terms read: there is none where yes and no are of two classes.
fn truths_clash_of(state: &State) -> Option<Clash>
    requires atoms { AreAtomsBelow (count_of state.now) state.now.facts.items }
    requires holds { AreHeld state.now.classes.class.cells.items state.now.facts.items }
    requires objects { 2 ≤ count_of state.now }
    ensures { result ≡ truths_by state.now.classes.class.cells.items state.now.facts.items }
{
    let class = &state.classes.class;
    if class.get(0) != class.get(1) {
        return None;
    }
    let facts = state.facts.as_slice();
    truths_clash(class, first_read(facts, true), first_read(facts, false))
}

// The atom of the first false equality whose sides are of one class, by the index of the false equalities unless memory for
// it was wanting.
fn equal_sides_of(state: &State, apart: &Apart) -> Option<AtomId>
    requires atoms { AreAtomsBelow (count_of state.now) state.now.facts.items }
    requires pairs { HasPairsOf state.now.facts.items apart.now }
    requires indexed { IsIndexed (class_in state.now) apart.now }
    ensures { result ≡ first_equal state.now.classes.class.cells.items state.now.facts.items }
{
    if apart.whole && !apart.joined {
        return None;
    }
    equal_sides(&state.classes.class, state.facts.as_slice())
}

// A clash of the literals read, if there is one. It goes over them where there is one, and else takes a few reads.
pub(crate) fn clash_of(state: &State, apart: &Apart) -> Option<Clash>
    requires atoms { AreAtomsBelow (count_of state.now) state.now.facts.items }
    requires holds { AreHeld state.now.classes.class.cells.items state.now.facts.items }
    requires objects { 2 ≤ count_of state.now }
    requires pairs { HasPairsOf state.now.facts.items apart.now }
    requires indexed { IsIndexed (class_in state.now) apart.now }
    ensures { result ≡ first_clash state.now.classes.class.cells.items state.now.facts.items }
{
    match equal_sides_of(state, apart) {
        Some(atom) => Some(Clash::Facts(atom)),
        None => truths_clash_of(state),
    }
}
