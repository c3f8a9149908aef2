ghost use Rattle.std.specs.Prelude.{◌≡◌, ◌++◌, ◌<◌, ◌+◌, ◌^◌, ℕ, length, slice_get, take, Option, Some, IfOk, OnOk};
ghost use Rattle.fm_steps.specs.Bounds.{IsInRow};
ghost use Rattle.fm_steps.specs.Lemmas.{bounds_from};
ghost use Rattle.fm_steps.specs.Menu.{bound_order_at, bound_orders, card_order_at, card_orders, clique_offer, cliques_from, offer_for, sum_offers_at};
ghost use Rattle.fm_steps.specs.State.{Pick};
ghost use Rattle.fm_state.specs.Groups.{IsPutBehind, card_orders_of};
ghost use Rattle.fm_state.specs.Offers.{due_in, offers_in};

use crate::groups::{cut, put};
use crate::lemmas::{
    asks_for, bound_order, bounds, card_order, clique_at, clique_lemma, is_sum_due, pick_count,
    sum_lemma,
};
use crate::offer::{Due, Offer};
use crate::sizes::{holds, is_known};
use crate::standing::State;
use fm_bank::{Atom, Literal};
use fm_base::{Memory, Reader, SortId};

// A lemma that is false, or unit.
fn put_lemma(
    state: &State,
    offers: &mut Vec<Offer>,
    reader: Reader,
    due: Due,
    literals: &[Literal],
) -> Result<(), Memory>
    ensures { OnOk result (offers_in offers.new.items ≡ offers_in offers.old.items ++ offer_for state.now reader (due_in due) literals.now) }
{
    match asks_for(state, literals) {
        None => Ok(()),
        Some(true) => put(offers, Offer::Imply(reader, due)),
        Some(false) => put(offers, Offer::Lemma(reader, due)),
    }
}

fn put_clique(state: &State, offers: &mut Vec<Offer>, sort: usize) -> Result<(), Memory>
    requires { sort < length state.now.picks }
    ensures { OnOk result ((p : Option Pick) → slice_get state.now.picks sort ≡ Some p → offers_in offers.new.items ≡ offers_in offers.old.items ++ clique_offer state.now sort p) }
{
    match clique_at(state, sort) {
        None => Ok(()),
        Some(terms) => {
            let literals = clique_lemma(state.alloc, SortId(sort), terms)?;
            let due = Due::Clique(SortId(sort));
            put_lemma(state, offers, Reader::Regions, due, literals.as_slice())
        }
    }
}

fn put_cliques(state: &State, offers: &mut Vec<Offer>, limit: usize) -> Result<(), Memory>
    ensures { OnOk result (IsPutBehind limit offers.old.items offers.new.items (cliques_from state.now 0 state.now.picks)) }
{
    for sort in 0..pick_count(state) {
        if offers.len() >= limit {
            return Ok(());
        }
        put_clique(state, offers, sort)?;
    }
    Ok(())
}

fn put_sum_of(state: &State, offers: &mut Vec<Offer>, numbers: &[u64]) -> Result<(), Memory>
    ensures { OnOk result (offers_in offers.new.items ≡ offers_in offers.old.items ++ sum_offers_at state.now (Some numbers.now)) }
{
    if !is_sum_due(state, numbers) {
        return Ok(());
    }
    let literals = sum_lemma(state, numbers)?;
    put_lemma(
        state,
        offers,
        Reader::Sum,
        Due::SumBound,
        literals.as_slice(),
    )
}

fn put_sum(state: &State, offers: &mut Vec<Offer>) -> Result<(), Memory>
    ensures { OnOk result (offers_in offers.new.items ≡ offers_in offers.old.items ++ sum_offers_at state.now (bounds_from state.now 0 state.now.held.sig.sorts)) }
{
    if !holds(state, true, Atom::Bound(state.bound())) {
        return Ok(());
    }
    match bounds(state)? {
        None => Ok(()),
        Some(numbers) => put_sum_of(state, offers, numbers.as_slice()),
    }
}

fn put_card_order(
    state: &State,
    offers: &mut Vec<Offer>,
    sort: SortId,
    k: u64,
) -> Result<(), Memory>
    requires { k + 1 < 2 ^ 64 }
    ensures { OnOk result (offers_in offers.new.items ≡ offers_in offers.old.items ++ card_order_at state.now sort.0 k) }
{
    if is_known(state, Atom::Card(sort, k)) && is_known(state, Atom::Card(sort, k + 1)) {
        let literals = card_order(sort, k);
        return put_lemma(
            state,
            offers,
            Reader::Sum,
            Due::CardOrder(sort, k),
            &literals,
        );
    }
    Ok(())
}

// The order lemmas of a sort; behind the first number that isn't known none is.
fn put_card_orders_of(
    state: &State,
    offers: &mut Vec<Offer>,
    limit: usize,
    sort: SortId,
) -> Result<(), Memory>
    requires { IsInRow state.now sort.0 }
    ensures { OnOk result (IsPutBehind limit offers.old.items offers.new.items (card_orders_of state.now sort.0)) }
{
    for k in 0..state.bank().atoms() {
        if offers.len() >= limit {
            return Ok(());
        }
        if !is_known(state, Atom::Card(sort, k as u64)) {
            return Ok(());
        }
        put_card_order(state, offers, sort, k as u64)?;
    }
    Ok(())
}

fn put_card_orders(state: &State, offers: &mut Vec<Offer>, limit: usize) -> Result<(), Memory>
    requires { (u : ℕ) → u < state.now.held.sig.sorts → IsInRow state.now u }
    ensures { OnOk result (IsPutBehind limit offers.old.items offers.new.items (card_orders state.now)) }
{
    for sort in 0..state.bank().sig().sorts {
        put_card_orders_of(state, offers, limit, SortId(sort))?;
    }
    Ok(())
}

fn put_bound_order(state: &State, offers: &mut Vec<Offer>, n: u64) -> Result<(), Memory>
    requires { n + 1 < 2 ^ 64 }
    ensures { OnOk result (offers_in offers.new.items ≡ offers_in offers.old.items ++ bound_order_at state.now n) }
{
    if is_known(state, Atom::Bound(n)) && is_known(state, Atom::Bound(n + 1)) {
        let literals = bound_order(n);
        return put_lemma(state, offers, Reader::Sum, Due::BoundOrder(n), &literals);
    }
    Ok(())
}

fn put_bound_orders(state: &State, offers: &mut Vec<Offer>, limit: usize) -> Result<(), Memory>
    ensures { OnOk result (IsPutBehind limit offers.old.items offers.new.items (bound_orders state.now)) }
{
    for n in 0..state.bound() {
        if offers.len() >= limit {
            return Ok(());
        }
        put_bound_order(state, offers, n)?;
    }
    Ok(())
}

impl State {
    /// The first clique whose lemma is false or unit.
    pub fn clique_offers(&self) -> Result<Vec<Offer>, Memory>
        ensures { IfOk result (λ v. offers_in v.items ≡ take 1 (cliques_from self.now 0 self.now.picks)) }
    {
        let mut offers = Vec::new(self.alloc);
        put_cliques(self, &mut offers, 1)?;
        Ok(cut(offers, 1))
    }

    /// The lemma of the sum, or else the first order lemma, that is due and false or unit.
    pub fn sum_offers(&self) -> Result<Vec<Offer>, Memory>
        requires rows { (u : ℕ) → u < self.now.held.sig.sorts → IsInRow self.now u }
        ensures { IfOk result (λ v. offers_in v.items ≡ take 1 (sum_offers_at self.now (bounds_from self.now 0 self.now.held.sig.sorts) ++ (card_orders self.now ++ bound_orders self.now))) }
    {
        let mut offers = Vec::new(self.alloc);
        put_sum(self, &mut offers)?;
        put_card_orders(self, &mut offers, 1)?;
        put_bound_orders(self, &mut offers, 1)?;
        Ok(cut(offers, 1))
    }
}
