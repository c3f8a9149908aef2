ghost use Rattle.std.specs.Prelude.{◌≡◌, ◌<◌, length, slice_get, true, Some, if◌then◌else◌, [], IfOk};
ghost use Rattle.std.specs.List.{cons_option};
ghost use Rattle.fm_bank.specs.declared.atom.Atom.{Atom as TheAtom};
ghost use Rattle.fm_cong.specs.Held.{IsSettled};
ghost use Rattle.fm_machine.specs.Ties.{IsTied};
ghost use Rattle.fm_machine.specs.Settling.{ArePicksBy, IsPickBy, both};
ghost use Rattle.fm_steps.specs.Sizes.{holds, least_true as least_true_of, number_in};

use crate::held::Search;
use fm_bank::Atom;
use fm_base::{AtomId, Memory, SortId};
use fm_cong::Egraph;
use fm_region::{Pick, pick_of};
use fm_state::State;
use std::alloc::Global;

// Whether an atom is true by the trail.
fn is_true(state: &State, id: AtomId) -> bool
    requires { id.0 < length state.now.held.atoms }
    ensures { (a : TheAtom) → slice_get state.now.held.atoms id.0 ≡ Some a → result ≡ holds state.now true a }
{
    state.bank().one_number_per_term();
    match state.trail().value(id) {
        None => false,
        Some(value) => value,
    }
}

// The number of a bound on the sort's size.
fn number_of(sort: SortId, atom: Atom) -> Option<u64>
    ensures { cons_option result [] ≡ number_in sort.0 atom }
{
    match atom {
        Atom::Card(of, k) => { if of.0 == sort.0 { Some(k) } else { None } }
        Atom::Equal(..) | Atom::Pred(..) | Atom::Bound(..) => None,
    }
}

// The number of a true bound on the sort's size, where the atom is one.
fn true_bound(state: &State, sort: SortId, id: AtomId) -> Option<u64>
    requires { id.0 < length state.now.held.atoms }
    ensures { (a : TheAtom) → slice_get state.now.held.atoms id.0 ≡ Some a → cons_option result [] ≡ (if holds state.now true a then number_in sort.0 a else []) }
{
    let atom = state.bank().atom_of(id);
    if is_true(state, id) {
        number_of(sort, atom)
    } else {
        None
    }
}

// The smaller of two numbers, where there are two.
fn lesser(a: Option<u64>, b: Option<u64>) -> Option<u64>
    ensures { result ≡ both a b }
{
    match (a, b) {
        (Some(a), Some(b)) => Some(a.min(b)),
        (None, b) => b,
        (a, None) => a,
    }
}

// The least number whose bound on the sort's size is true.
fn least_true(state: &State, sort: SortId) -> Option<u64>
    ensures { result ≡ least_true_of state.now sort.0 }
{
    let mut found = None;
    for id in 0..state.bank().atoms() {
        let bound = true_bound(state, sort, AtomId(id));
        found = lesser(found, bound);
    }
    found
}

// The test of a sort, by its least true bound.
fn pick_by(
    alloc: Global,
    graph: &Egraph,
    sort: SortId,
    bound: Option<u64>,
) -> Result<Option<Pick>, Memory>
    requires { IsSettled graph.now }
    ensures { IfOk result (IsPickBy graph.now sort bound) }
{
    match bound {
        Some(k) => pick_of(alloc, graph, sort, k),
        None => Ok(None),
    }
}

// The tests of the sorts.
pub(crate) fn picks(alloc: Global, search: &Search) -> Result<Vec<Option<Pick>>, Memory>
    requires tied { IsTied search.now }
    ensures { IfOk result (λ v. ArePicksBy search.now.state search.now.regions v.items) }
{
    let mut picks = Vec::new(alloc);
    for sort in 0..search.state.bank().sig().sorts {
        let bound = least_true(&search.state, SortId(sort));
        let pick = pick_by(alloc, &search.regions, SortId(sort), bound)?;
        picks.push(pick)?;
    }
    Ok(picks)
}
