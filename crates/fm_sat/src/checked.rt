// Calls behind tests of what they require, as a search makes them: the store explains the trail throughout.
ghost use Rattle.std.specs.Prelude.{◌≡◌, true, false, OnOk};
ghost use Rattle.fm_base.specs.Resolution.{AreDistinct, Has};
ghost use Rattle.fm_sat.specs.Learning.{Explains};

use crate::{Chain, Learnt, Store, learning_goes_on, trails_stay_explained};
use fm_base::{Lit, Memory};
use fm_trail::Trail;

// Adds the literals without repeats.
pub(crate) fn add(store: &mut Store, lits: &[Lit]) -> Result<(), Memory> {
    if are_distinct(lits) {
        store.add(lits)?;
    }
    Ok(())
}

fn are_distinct(lits: &[Lit]) -> bool
    ensures { result ≡ true → AreDistinct lits.now }
{
    match lits.split_first() {
        None => true,
        Some((lit, rest)) => !has(rest, *lit) && are_distinct(rest),
    }
}

fn has(lits: &[Lit], lit: Lit) -> bool
    ensures { result ≡ false → Has lits.now lit → ⊥ }
{
    match lits.split_first() {
        None => false,
        Some((first, rest)) => {
            (first.atom.0 == lit.atom.0 && first.positive == lit.positive) || has(rest, lit)
        }
    }
}

pub(crate) fn decide(store: &Store, trail: &mut Trail, lit: Lit) -> Result<(), Memory>
    requires { Explains store.now.clauses trail.old.entries }
    ensures { Explains store.now.clauses trail.new.entries }
{
    trails_stay_explained();
    if trail.value(lit.atom).is_none() {
        trail.decide(lit)?;
    }
    Ok(())
}

// Implies the literal of the first unit clause, so many times at most.
pub(crate) fn propagate(store: &Store, trail: &mut Trail, most: usize) -> Result<(), Memory>
    requires { Explains store.now.clauses trail.old.entries }
    ensures { Explains store.now.clauses trail.new.entries }
{
    for _ in 0..most {
        imply_first(store, trail)?;
    }
    Ok(())
}

fn imply_first(store: &Store, trail: &mut Trail) -> Result<(), Memory>
    requires { Explains store.now.clauses trail.old.entries }
    ensures { Explains store.now.clauses trail.new.entries }
{
    trails_stay_explained();
    if let Some(unit) = store.next_unit(trail) {
        trail.imply(unit.lit, unit.clause)?;
    }
    Ok(())
}

pub(crate) fn back_to(store: &Store, trail: &mut Trail, level: usize)
    requires { Explains store.now.clauses trail.old.entries }
    ensures { Explains store.now.clauses trail.new.entries }
{
    trails_stay_explained();
    trail.entries_are_levelled();
    if level < trail.level() {
        trail.undo_to(level);
    }
}

// What is learnt from the first false clause, if it has a literal above level 0.
pub(crate) fn learn(store: &Store, trail: &Trail) -> Result<Option<Learnt>, Memory>
    requires { Explains store.now.clauses trail.now.entries }
{
    learning_goes_on();
    match store.falsified(trail) {
        Some(clause) if store.top_level(trail, clause) > 0 => {
            let learnt = store.learn(trail, clause)?;
            Ok(Some(learnt))
        }
        _ => Ok(None),
    }
}

// What is learnt from the first false clause is added, the trail goes back, and the literal is implied.
pub(crate) fn learn_from(store: &mut Store, trail: &mut Trail) -> Result<(), Memory>
    requires { Explains store.old.clauses trail.old.entries }
    ensures { OnOk result (Explains store.new.clauses trail.new.entries) }
{
    learning_goes_on();
    trail.entries_are_levelled();
    match store.falsified(trail) {
        Some(clause) if store.top_level(trail, clause) > 0 => {
            let learnt = store.learn(trail, clause)?;
            let reason = if learnt.chain.steps.is_empty() {
                clause
            } else {
                store.add(learnt.lits.as_slice())?
            };
            trail.undo_to(learnt.level);
            trail.imply(learnt.lit, reason)?;
        }
        _ => {}
    }
    Ok(())
}

// The refutation of the first false clause, if all its literals are of level 0.
pub(crate) fn refute(store: &Store, trail: &Trail) -> Result<Option<Chain>, Memory>
    requires { Explains store.now.clauses trail.now.entries }
{
    learning_goes_on();
    match store.falsified(trail) {
        Some(clause) if store.top_level(trail, clause) == 0 => {
            let chain = store.refute(trail, clause)?;
            Ok(Some(chain))
        }
        _ => Ok(None),
    }
}

// The chain of the entry, if it is of level 0.
pub(crate) fn derive(store: &Store, trail: &Trail, place: usize) -> Result<Option<Chain>, Memory>
    requires { Explains store.now.clauses trail.now.entries }
{
    if place < trail.len() && trail.entry(place).level == 0 {
        let chain = store.derive(trail, place)?;
        return Ok(Some(chain));
    }
    Ok(None)
}
