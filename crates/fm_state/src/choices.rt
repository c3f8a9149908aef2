ghost use Rattle.std.specs.Prelude.{◌≡◌, ◌++◌, ◌∷◌, ◌<◌, ◌+◌, ◌^◌, ◌&&◌, [], ℕ, if◌then◌else◌, true, false, not, length, slice_get, take, Option, Some, IfOk, OnOk};
ghost use Rattle.fm_steps.specs.Bounds.{IsInRow};
ghost use Rattle.fm_steps.specs.Content.{is_size as is_size_of};
ghost use Rattle.fm_steps.specs.Menu.{clause_atoms, decisions_of, free_decision, free_decisions, pair_offers, size_decision, size_decisions, split_offers, splits_of};
ghost use Rattle.fm_steps.specs.Rows.{Offer as TheOffer};
ghost use Rattle.fm_steps.specs.Sizes.{is_unvalued as is_unvalued_in, lit};
ghost use Rattle.fm_steps.specs.State.{Pick};
ghost use Rattle.fm_state.specs.Groups.{AreWanted, IsPutBehind, both_if, first_decisions, pair_of, split_all};
ghost use Rattle.fm_state.specs.Offers.{offers_in};
ghost use Rattle.fm_state.specs.Stands.{pair_in};

use crate::groups::{cut, put};
use crate::lemmas::{equality, pick_count};
use crate::offer::Offer;
use crate::sizes::{is_known, is_unvalued, least_open, value_at};
use crate::standing::State;
use crate::wanted::wanted;
use fm_bank::{Atom, Literal};
use fm_base::{AtomId, Memory, SortId, TermId};

fn put_decision(offers: &mut Vec<Offer>, positive: bool, atom: Atom) -> Result<(), Memory>
    ensures { OnOk result (offers_in offers.new.items ≡ offers_in offers.old.items ++ TheOffer.Decide (lit positive atom) ∷ []) }
{
    put(offers, Offer::Decide(Literal { positive, atom }))
}

// A decision of the atom one way, and then the other.
fn put_both(offers: &mut Vec<Offer>, first: bool, atom: Atom) -> Result<(), Memory>
    ensures { OnOk result (offers_in offers.new.items ≡ offers_in offers.old.items ++ TheOffer.Decide (lit first atom) ∷ (TheOffer.Decide (lit (not first) atom) ∷ [])) }
{
    put_decision(offers, first, atom)?;
    put_decision(offers, !first, atom)
}

fn put_both_ways(
    state: &State,
    offers: &mut Vec<Offer>,
    id: AtomId,
    atom: Atom,
    is_wanted: bool,
) -> Result<(), Memory>
    requires { slice_get state.now.held.atoms id.0 ≡ Some atom }
    ensures { OnOk result (offers_in offers.new.items ≡ offers_in offers.old.items ++ both_if (is_unvalued_in state.now atom && is_wanted) atom) }
{
    if value_at(state, id, atom).is_none() && is_wanted {
        return put_both(offers, false, atom);
    }
    Ok(())
}

fn put_wanted(
    state: &State,
    offers: &mut Vec<Offer>,
    limit: usize,
    marks: &[bool],
) -> Result<(), Memory>
    requires { AreWanted state.now marks.now }
    ensures { OnOk result (IsPutBehind limit offers.old.items offers.new.items (clause_atoms state.now)) }
{
    for number in 0..state.bank().atoms() {
        if offers.len() >= limit {
            return Ok(());
        }
        let id = AtomId(number);
        put_both_ways(state, offers, id, state.bank().atom_of(id), marks[number])?;
    }
    Ok(())
}

// The atoms without value of the clauses without a true literal.
fn put_clause_atoms(state: &State, offers: &mut Vec<Offer>, limit: usize) -> Result<(), Memory>
    ensures { OnOk result (IsPutBehind limit offers.old.items offers.new.items (clause_atoms state.now)) }
{
    let marks = wanted(state)?;
    put_wanted(state, offers, limit, marks.as_slice())
}

fn is_size(atom: Atom) -> bool
    ensures { result ≡ is_size_of atom }
{
    matches!(atom, Atom::Card(_, _) | Atom::Bound(_))
}

fn put_free(state: &State, offers: &mut Vec<Offer>, id: AtomId, atom: Atom) -> Result<(), Memory>
    requires { slice_get state.now.held.atoms id.0 ≡ Some atom }
    ensures { OnOk result (offers_in offers.new.items ≡ offers_in offers.old.items ++ free_decision state.now atom) }
{
    if is_size(atom) && value_at(state, id, atom).is_none() {
        return put_decision(offers, false, atom);
    }
    Ok(())
}

fn put_free_decisions(state: &State, offers: &mut Vec<Offer>, limit: usize) -> Result<(), Memory>
    ensures { OnOk result (IsPutBehind limit offers.old.items offers.new.items (free_decisions state.now)) }
{
    for number in 0..state.bank().atoms() {
        if offers.len() >= limit {
            return Ok(());
        }
        let id = AtomId(number);
        put_free(state, offers, id, state.bank().atom_of(id))?;
    }
    Ok(())
}

fn put_size(state: &State, offers: &mut Vec<Offer>, sort: SortId) -> Result<(), Memory>
    requires row { IsInRow state.now sort.0 }
    requires room { state.now.bound + 1 < 2 ^ 64 }
    ensures { OnOk result (offers_in offers.new.items ≡ offers_in offers.old.items ++ size_decision state.now sort.0) }
{
    let atom = Atom::Card(sort, least_open(state, sort));
    if is_unvalued(state, atom) {
        return put_decision(offers, true, atom);
    }
    Ok(())
}

fn put_sizes(state: &State, offers: &mut Vec<Offer>, limit: usize) -> Result<(), Memory>
    requires rows { (u : ℕ) → u < state.now.held.sig.sorts → IsInRow state.now u }
    requires room { state.now.bound + 1 < 2 ^ 64 }
    ensures { OnOk result (IsPutBehind limit offers.old.items offers.new.items (size_decisions state.now)) }
{
    for sort in 0..state.bank().sig().sorts {
        if offers.len() >= limit {
            return Ok(());
        }
        put_size(state, offers, SortId(sort))?;
    }
    Ok(())
}

// The decisions of sizes that come before those of other atoms.
fn put_first(state: &State, offers: &mut Vec<Offer>, limit: usize) -> Result<(), Memory>
    requires rows { (u : ℕ) → u < state.now.held.sig.sorts → IsInRow state.now u }
    requires room { state.now.bound + 1 < 2 ^ 64 }
    ensures { OnOk result (IsPutBehind limit offers.old.items offers.new.items (first_decisions state.now)) }
{
    if state.is_free() {
        return put_free_decisions(state, offers, limit);
    }
    let bound = Atom::Bound(state.bound());
    if is_unvalued(state, bound) {
        return put_decision(offers, true, bound);
    }
    put_sizes(state, offers, limit)
}

// The atoms of clauses, where no size is to be decided.
fn put_others(state: &State, offers: &mut Vec<Offer>, limit: usize) -> Result<(), Memory>
    requires { take limit (offers_in offers.old.items) ≡ take limit (first_decisions state.now) }
    ensures { OnOk result (take limit (offers_in offers.new.items) ≡ take limit (decisions_of state.now)) }
{
    if !offers.is_empty() {
        return Ok(());
    }
    put_clause_atoms(state, offers, limit)
}

fn pair_at(state: &State, sort: usize) -> Option<(TermId, TermId)>
    requires { sort < length state.now.picks }
    ensures { (p : Option Pick) → slice_get state.now.picks sort ≡ Some p → pair_in result ≡ pair_of p }
{
    match &state.picks[sort] {
        None => None,
        Some(pick) => pick.pair,
    }
}

fn put_pair(state: &State, offers: &mut Vec<Offer>, a: TermId, b: TermId) -> Result<(), Memory>
    ensures { OnOk result (offers_in offers.new.items ≡ offers_in offers.old.items ++ pair_offers state.now (Some (a.0, b.0))) }
{
    let atom = equality(a, b);
    if !is_known(state, atom) {
        return put(offers, Offer::Split(a, b));
    }
    if is_unvalued(state, atom) {
        return put_both(offers, true, atom);
    }
    Ok(())
}

fn put_split(state: &State, offers: &mut Vec<Offer>, sort: usize) -> Result<(), Memory>
    requires { sort < length state.now.picks }
    ensures { OnOk result ((p : Option Pick) → slice_get state.now.picks sort ≡ Some p → offers_in offers.new.items ≡ offers_in offers.old.items ++ split_offers state.now p) }
{
    match pair_at(state, sort) {
        None => Ok(()),
        Some((a, b)) => put_pair(state, offers, a, b),
    }
}

fn put_splits(state: &State, offers: &mut Vec<Offer>, limit: usize) -> Result<(), Memory>
    ensures { OnOk result (IsPutBehind limit offers.old.items offers.new.items (split_all state.now)) }
{
    for sort in 0..pick_count(state) {
        if offers.len() >= limit {
            return Ok(());
        }
        put_split(state, offers, sort)?;
    }
    Ok(())
}

impl State {
    /// What may be decided: sizes first, and where there are none, atoms of clauses without a true literal.
    pub fn decisions_offered(&self, limit: usize) -> Result<Vec<Offer>, Memory>
        requires rows { (u : ℕ) → u < self.now.held.sig.sorts → IsInRow self.now u }
        requires room { self.now.bound + 1 < 2 ^ 64 }
        ensures { IfOk result (λ v. offers_in v.items ≡ take limit (decisions_of self.now)) }
    {
        let mut offers = Vec::new(self.alloc);
        put_first(self, &mut offers, limit)?;
        put_others(self, &mut offers, limit)?;
        Ok(cut(offers, limit))
    }

    /// The pairs of the tests that aren't cliques, where the sizes are bounded: to be known, or else decided.
    pub fn splits(&self, limit: usize) -> Result<Vec<Offer>, Memory>
        ensures { IfOk result (λ v. offers_in v.items ≡ take limit (splits_of self.now)) }
    {
        let mut offers = Vec::new(self.alloc);
        if self.free {
            return Ok(offers);
        }
        put_splits(self, &mut offers, limit)?;
        Ok(cut(offers, limit))
    }
}
