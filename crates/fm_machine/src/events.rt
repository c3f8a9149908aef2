ghost use Rattle.std.specs.Prelude.{◌≡◌, ◌<◌, ◌+◌, ◌^◌, length, true, OnOk};
ghost use Rattle.std.specs.List.{list_all};
ghost use Rattle.fm_base.specs.Resolution.{AreDistinct};
ghost use Rattle.fm_base.specs.declared.ids.Lit.{Lit as TheLit};
ghost use Rattle.fm_bank.specs.Instances.{equality as equality_of};
ghost use Rattle.fm_bank.specs.Interning.{is_atom};
ghost use Rattle.fm_bank.specs.declared.literal.Literal.{Literal as TheLiteral};
ghost use Rattle.fm_machine.specs.Moves.{IsDecided, IsImplied, IsWithLemma, Moves};
ghost use Rattle.fm_machine.specs.Ties.{IsTied};
ghost use Rattle.fm_sat.specs.Store.{HasNoFalse, IsUnit};
ghost use Rattle.fm_steps.specs.Facts.{AtomsAreKnown, HeadsAreWithin, TrailIsExplained};
ghost use Rattle.fm_steps.specs.Lemmas.{IsUnitLemma, are_known};
ghost use Rattle.fm_steps.specs.Rows.{UnitRow};
ghost use Rattle.fm_steps.specs.Sizes.{is_unvalued};
ghost use Rattle.fm_steps.specs.State.{know};

use crate::held::Search;
use crate::settling::settle;
use fm_bank::Literal;
use fm_base::{Lit, Memory, TermId};
use std::alloc::Global;

/// Unit: the literal of a unit clause is put on.
pub fn imply_unit(alloc: Global, search: &mut Search, clause: usize) -> Result<(), Memory>
    requires tied { IsTied search.old }
    requires known { AtomsAreKnown search.old.state }
    requires heads { HeadsAreWithin search.old.state }
    requires explained { TrailIsExplained search.old.state }
    requires quiet { HasNoFalse search.old.state.clauses search.old.state.trail.entries }
    requires unit { (l : TheLit) × IsUnit search.old.state.clauses search.old.state.trail.entries clause l }
    ensures moved { OnOk result (Moves (λ s t. UnitRow s clause t) search.old.state search.new.state) }
    ensures tied { OnOk result (IsTied search.new) }
{
    search.state.imply_unit(clause)?;
    settle(alloc, search)?;
    Ok(())
}

/// Lemma: a lemma on known atoms is added, none of whose literals stands there twice.
pub fn add_lemma(alloc: Global, search: &mut Search, lits: &[Literal]) -> Result<(), Memory>
    requires tied { IsTied search.old }
    requires known { AtomsAreKnown search.old.state }
    requires atoms { list_all (λ (l : TheLiteral). is_atom search.old.state.held.sig search.old.state.held.terms l.atom) lits.now ≡ true }
    requires once { AreDistinct lits.now }
    ensures moved { OnOk result (Moves (IsWithLemma lits.now) search.old.state search.new.state) }
    ensures tied { OnOk result (IsTied search.new) }
{
    search.state.add_lemma(lits)?;
    settle(alloc, search)?;
    Ok(())
}

/// Imply: a lemma on known atoms is added that is unit by the literal, which is put on by it.
pub fn imply_lemma(
    alloc: Global,
    search: &mut Search,
    lits: &[Literal],
    lit: Literal,
) -> Result<(), Memory>
    requires tied { IsTied search.old }
    requires known { AtomsAreKnown search.old.state }
    requires heads { HeadsAreWithin search.old.state }
    requires atoms { list_all (λ (l : TheLiteral). is_atom search.old.state.held.sig search.old.state.held.terms l.atom) lits.now ≡ true }
    requires once { AreDistinct lits.now }
    requires there { are_known search.old.state lits.now ≡ true }
    requires unit { IsUnitLemma search.old.state lits.now lit }
    ensures moved { OnOk result (Moves (IsImplied lits.now lit) search.old.state search.new.state) }
    ensures tied { OnOk result (IsTied search.new) }
{
    search.state.imply_lemma(lits, lit)?;
    settle(alloc, search)?;
    Ok(())
}

/// Decide: a literal whose atom has no value is put on as a decision, and counted. Its answer is the literal by its number.
pub fn decide(alloc: Global, search: &mut Search, lit: Literal) -> Result<Lit, Memory>
    requires tied { IsTied search.old }
    requires known { AtomsAreKnown search.old.state }
    requires heads { HeadsAreWithin search.old.state }
    requires atom { is_atom search.old.state.held.sig search.old.state.held.terms lit.atom ≡ true }
    requires unset { is_unvalued search.old.state lit.atom ≡ true }
    requires room { search.old.state.decisions + 1 < 2 ^ 64 }
    ensures moved { OnOk result (Moves (IsDecided lit) search.old.state search.new.state) }
    ensures tied { OnOk result (IsTied search.new) }
{
    let number = search.state.decide(lit)?;
    settle(alloc, search)?;
    Ok(number)
}

/// Split: the equality of two terms becomes known.
pub fn split(alloc: Global, search: &mut Search, a: TermId, b: TermId) -> Result<(), Memory>
    requires tied { IsTied search.old }
    requires known { AtomsAreKnown search.old.state }
    requires atom { is_atom search.old.state.held.sig search.old.state.held.terms (equality_of a.0 b.0) ≡ true }
    ensures moved { OnOk result (Moves (λ s t. t ≡ know (equality_of a.0 b.0) s) search.old.state search.new.state) }
    ensures tied { OnOk result (IsTied search.new) }
{
    search.state.split(a, b)?;
    settle(alloc, search)?;
    Ok(())
}
