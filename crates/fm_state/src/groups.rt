ghost use Rattle.std.specs.Prelude.{◌≡◌, ◌++◌, ◌∷◌, ◌<◌, [], IfOk, OnOk, length, slice_get, take, Some};
ghost use Rattle.fm_trail.specs.Trail.{is_false as is_false_in, unit_of as unit_of_in};
ghost use Rattle.fm_steps.specs.Menu.{conflict_at as conflict_in, conflicts_from, takes_of, turns_of, unit_at, units_from};
ghost use Rattle.fm_steps.specs.State.{Clause};
ghost use Rattle.fm_state.specs.Groups.{IsPutBehind, take_by};
ghost use Rattle.fm_state.specs.Offers.{offer_in, offers_in};

use crate::offer::Offer;
use crate::sizes::is_refuted;
use crate::standing::State;
use fm_bank::Atom;
use fm_base::{Lit, Memory, Reader};
use fm_guide::Word;
use fm_trail::Trail;

pub(crate) fn put(offers: &mut Vec<Offer>, offer: Offer) -> Result<(), Memory>
    ensures { OnOk result (offers_in offers.new.items ≡ offers_in offers.old.items ++ offer_in offer ∷ []) }
{
    offers.push(offer)?;
    Ok(())
}

pub(crate) fn cut(offers: Vec<Offer>, limit: usize) -> Vec<Offer>
    ensures { offers_in result.items ≡ take limit (offers_in offers.items) }
{
    let mut offers = offers;
    offers.truncate(limit);
    offers
}

fn is_false(trail: &Trail, lit: Lit) -> bool
    ensures { result ≡ is_false_in trail.now.entries lit }
{
    match trail.value(lit.atom) {
        Some(value) => value != lit.positive,
        None => false,
    }
}

// The literal without value, where all others are false.
fn unit_of(trail: &Trail, lits: &[Lit]) -> Option<Lit>
    ensures { result ≡ unit_of_in trail.now.entries lits.now }
{
    let mut left = None;
    for lit in lits {
        if !is_false(trail, *lit) {
            if left.is_some() || trail.value(lit.atom).is_some() {
                return None;
            }
            left = Some(*lit);
        }
    }
    left
}

fn put_unit(
    trail: &Trail,
    offers: &mut Vec<Offer>,
    number: usize,
    lits: &[Lit],
) -> Result<(), Memory>
    ensures { OnOk result (offers_in offers.new.items ≡ offers_in offers.old.items ++ unit_at number (unit_of_in trail.now.entries lits.now)) }
{
    match unit_of(trail, lits) {
        None => Ok(()),
        Some(_) => put(offers, Offer::Unit(number)),
    }
}

fn put_units(state: &State, offers: &mut Vec<Offer>, limit: usize) -> Result<(), Memory>
    ensures { OnOk result (IsPutBehind limit offers.old.items offers.new.items (units_from 0 state.now.trail.entries state.now.clauses)) }
{
    for number in 0..state.store().len() {
        if offers.len() >= limit {
            return Ok(());
        }
        let lits = state.store().clause(number);
        put_unit(state.trail(), offers, number, lits)?;
    }
    Ok(())
}

fn put_take(state: &State, offers: &mut Vec<Offer>, reader: Reader) -> Result<(), Memory>
    ensures { OnOk result (offers_in offers.new.items ≡ offers_in offers.old.items ++ take_by state.now reader) }
{
    let trail = state.trail();
    if trail.head(reader) < trail.len() {
        return put(offers, Offer::Take(reader));
    }
    Ok(())
}

fn put_takes(state: &State, offers: &mut Vec<Offer>) -> Result<(), Memory>
    ensures { OnOk result (offers_in offers.new.items ≡ offers_in offers.old.items ++ takes_of state.now) }
{
    put_take(state, offers, Reader::Congruence)?;
    put_take(state, offers, Reader::Regions)?;
    put_take(state, offers, Reader::Sum)?;
    put_take(state, offers, Reader::Instances)
}

fn conflict_at(state: &State, number: usize) -> Offer
    requires { number < length state.now.clauses }
    ensures { (c : Clause) → slice_get state.now.clauses number ≡ Some c → offer_in result ≡ conflict_in number state.now.trail.entries c }
{
    if state.store().top_level(state.trail(), number) == 0 {
        Offer::Answer(Word::Unsat)
    } else {
        Offer::Learn(number)
    }
}

fn put_conflict(state: &State, offers: &mut Vec<Offer>) -> Result<(), Memory>
    ensures { OnOk result (offers_in offers.new.items ≡ offers_in offers.old.items ++ conflicts_from 0 state.now.trail.entries state.now.clauses) }
{
    match state.store().falsified(state.trail()) {
        None => Ok(()),
        Some(number) => put(offers, conflict_at(state, number)),
    }
}

impl State {
    /// The first false clause, as Answer Unsat where all its literals are of level 0, else as Learn.
    pub fn conflicts(&self) -> Result<Vec<Offer>, Memory>
        ensures { IfOk result (λ v. offers_in v.items ≡ conflicts_from 0 self.now.trail.entries self.now.clauses) }
    {
        let mut offers = Vec::new(self.alloc);
        put_conflict(self, &mut offers)?;
        Ok(offers)
    }

    /// The unit clauses in order, and then the readers that haven't read all.
    pub fn units_and_takes(&self, limit: usize) -> Result<Vec<Offer>, Memory>
        ensures { IfOk result (λ v. offers_in v.items ≡ take limit (units_from 0 self.now.trail.entries self.now.clauses ++ takes_of self.now)) }
    {
        let mut offers = Vec::new(self.alloc);
        put_units(self, &mut offers, limit)?;
        put_takes(self, &mut offers)?;
        Ok(cut(offers, limit))
    }

    /// Turn, where the bound is false at level 0.
    pub fn turns(&self) -> Result<Vec<Offer>, Memory>
        ensures { IfOk result (λ v. offers_in v.items ≡ turns_of self.now) }
    {
        let mut offers = Vec::new(self.alloc);
        if !self.free && is_refuted(self, Atom::Bound(self.bound)) {
            offers.push(Offer::Turn)?;
        }
        Ok(offers)
    }
}
