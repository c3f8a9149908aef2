ghost use Rattle.std.specs.Prelude.{◌≡◌, ◌<◌, ◌+◌, ◌^◌, false, true, length, IfOk, OnOk};
ghost use Rattle.fm_base.specs.declared.ids.Reader.{Reader as TheReader};
ghost use Rattle.fm_bank.specs.declared.atom.Atom.{Atom as TheAtom};
ghost use Rattle.fm_machine.specs.Moves.{IsLearnt, Moves};
ghost use Rattle.fm_machine.specs.Ties.{HasBothTerms, IsTied};
ghost use Rattle.fm_readers.specs.Graphs.{GoesBack};
ghost use Rattle.fm_sat.specs.Learning.{IsConflict};
ghost use Rattle.fm_steps.specs.Facts.{AtomsAreKnown, HeadsAreWithin, TrailIsExplained};
ghost use Rattle.fm_steps.specs.Offered.{raised};
ghost use Rattle.fm_steps.specs.Rows.{TurnRow};
ghost use Rattle.fm_steps.specs.Sizes.{is_refuted};
ghost use Rattle.fm_steps.specs.State.{read_by};
ghost use Rattle.fm_trail.specs.Trail.{level_of};

use crate::held::Search;
use crate::reading::levels_read;
use crate::settling::settle;
use fm_base::{Lit, Memory, Reader};
use fm_state::State;
use std::alloc::Global;

// How many levels are open for the two readers of equalities.
fn levels_open(state: &State) -> (usize, usize)
    requires { TrailIsExplained state.now }
    ensures congruence { result.0 ≡ level_of (read_by TheReader.Congruence state.now) }
    ensures regions { result.1 ≡ level_of (read_by TheReader.Regions state.now) }
{
    let congruence = levels_read(state, Reader::Congruence);
    let regions = levels_read(state, Reader::Regions);
    (congruence, regions)
}

// The graphs go back to a level, to which the state has gone.
fn graphs_back(
    search: &mut Search,
    congruence: usize,
    regions: usize,
    level: usize,
) -> Result<(), Memory>
    requires congruence { congruence ≡ length search.old.congruence.levels }
    requires regions { regions ≡ length search.old.regions.levels }
    requires terms { HasBothTerms search.old }
    ensures state { OnOk result (search.new.state ≡ search.old.state) }
    ensures terms { OnOk result (HasBothTerms search.new) }
    ensures first { OnOk result (GoesBack search.old.state.held level search.old.congruence search.new.congruence) }
    ensures second { OnOk result (GoesBack search.old.state.held level search.old.regions search.new.regions) }
{
    let bank = search.state.bank();
    fm_readers::go_back(&mut search.congruence, bank, congruence, level)?;
    fm_readers::go_back(&mut search.regions, bank, regions, level)?;
    Ok(())
}

/// Learn: what a false clause with a literal above level 0 makes of itself is learnt, the trail goes back, and the literal is
/// put on. Its answer are the steps of resolution.
pub fn learn(alloc: Global, search: &mut Search, clause: usize) -> Result<Vec<(Lit, usize)>, Memory>
    requires tied { IsTied search.old }
    requires known { AtomsAreKnown search.old.state }
    requires explained { TrailIsExplained search.old.state }
    requires heads { HeadsAreWithin search.old.state }
    requires conflict { IsConflict search.old.state.clauses search.old.state.trail.entries clause }
    ensures moved { IfOk result (λ v. Moves (IsLearnt clause v.items) search.old.state search.new.state) }
    ensures tied { OnOk result (IsTied search.new) }
{
    let (congruence, regions) = levels_open(&search.state);
    let steps = search.state.learn(clause)?;
    let level = search.state.trail().level();
    graphs_back(search, congruence, regions, level)?;
    settle(alloc, search)?;
    Ok(steps)
}

/// Turn: where the bound is false at level 0 the phase is free, and the trail goes back to level 0.
pub fn turn(alloc: Global, search: &mut Search) -> Result<(), Memory>
    requires tied { IsTied search.old }
    requires known { AtomsAreKnown search.old.state }
    requires explained { TrailIsExplained search.old.state }
    requires heads { HeadsAreWithin search.old.state }
    requires bounded { search.old.state.free ≡ false }
    requires refuted { is_refuted search.old.state (TheAtom.Bound search.old.state.bound) ≡ true }
    ensures moved { OnOk result (Moves TurnRow search.old.state search.new.state) }
    ensures tied { OnOk result (IsTied search.new) }
{
    let (congruence, regions) = levels_open(&search.state);
    search.state.turn();
    graphs_back(search, congruence, regions, 0)?;
    settle(alloc, search)?;
    Ok(())
}

/// Raise: the bound is one more and known, the phase is bounded, and the trail goes back to level 0.
pub fn raise(alloc: Global, search: &mut Search) -> Result<(), Memory>
    requires tied { IsTied search.old }
    requires known { AtomsAreKnown search.old.state }
    requires explained { TrailIsExplained search.old.state }
    requires heads { HeadsAreWithin search.old.state }
    requires room { search.old.state.bound + 1 < 2 ^ 64 }
    ensures moved { OnOk result (Moves (λ s t. t ≡ raised s) search.old.state search.new.state) }
    ensures tied { OnOk result (IsTied search.new) }
{
    let (congruence, regions) = levels_open(&search.state);
    search.state.raise()?;
    graphs_back(search, congruence, regions, 0)?;
    settle(alloc, search)?;
    Ok(())
}
