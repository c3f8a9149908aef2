ghost use Rattle.std.specs.Prelude.{◌≡◌, ◌≤◌, ◌<◌, ◌↔◌, ◌+◌, ◌++◌, ◌∷◌, [], length, take, Some, OnOk, OnErr, IsTrue};
ghost use Rattle.fm_cong.specs.Graphs.{cells_of};
ghost use Rattle.fm_cong.specs.Levels.{IsAfter, IsInside, IsKept, IsMarkOf, IsRewound, IsComplete, IsSteady, KeepsClasses, RestoresClasses};
ghost use Rattle.fm_cong.specs.Levels.{KeepsMarks, KeepsMarksBefore, LogsClasses};
ghost use Rattle.fm_cong.specs.States.{AreRelated, IsAtWork, IsNode, KeepsJoined, count_of};
ghost use Rattle.fm_cong.specs.Paths.{joined_by};
ghost use Rattle.fm_cong.specs.Tables.{AreUses};

use crate::fact::Fact;
use crate::join::{join, run};
use crate::mark::Mark;
use crate::member::Member;
use crate::state::State;
use crate::table::enter;
use fm_base::Memory;
use fm_cells::{Cause, Places};
use std::alloc::Global;

// Where a state is now.
pub(crate) fn mark_of(state: &State) -> Mark
    ensures { IsMarkOf state.now result }
{
    Mark {
        class: state.classes.class.mark(),
        next: state.classes.next.mark(),
        size: state.classes.size.mark(),
        links: state.links.mark(),
        table: state.table.len(),
        facts: state.facts.len(),
        entered: state.entered,
    }
}

// Takes back all that was written since a mark. It takes no memory.
pub(crate) fn rewind(state: &mut State, mark: Mark)
    requires { IsInside state.old mark }
    ensures { IsRewound state.old mark state.new }
{
    state.classes.class.rewind(mark.class);
    state.classes.next.rewind(mark.next);
    state.classes.size.rewind(mark.size);
    state.links.rewind(mark.links);
    state.table.truncate(mark.table);
    state.facts.truncate(mark.facts);
    state.waiting.truncate(0);
    state.entered = mark.entered;
}

fn read_on(
    alloc: Global,
    state: &mut State,
    members: &[Member],
    uses: &[Places],
    fact: Fact,
    node: usize,
    to: usize,
) -> Result<(), Memory>
    requires steady { IsSteady members.now (cells_of state.old) }
    requires quiet { state.old.waiting.items ≡ [] }
    requires uses { AreUses members.now uses.now }
    requires node { IsNode state.old node }
    requires to { IsNode state.old to }
    requires sides { joined_by fact ≡ Some (node, to) }
    ensures steady { OnOk result (IsSteady members.now (cells_of state.new)) }
    ensures quiet { OnOk result (state.new.waiting.items ≡ []) }
    ensures facts { OnOk result (state.new.facts.items ≡ state.old.facts.items ++ fact ∷ []) }
    ensures entered { OnOk result (state.new.entered ≡ state.old.entered) }
    ensures coarser { OnOk result (KeepsJoined state.old state.new) }
    ensures after { IsAfter state.old state.new }
{
    state.facts.push(fact)?;
    join(alloc, state, members, uses, node, to, Cause::Fact(fact.lit))?;
    run(alloc, state, members, uses)?;
    Ok(())
}

// Reads a fact that joins two nodes. At want of memory all is as before.
pub(crate) fn read(
    alloc: Global,
    state: &mut State,
    members: &[Member],
    uses: &[Places],
    fact: Fact,
    node: usize,
    to: usize,
) -> Result<(), Memory>
    requires steady { IsSteady members.now (cells_of state.old) }
    requires quiet { state.old.waiting.items ≡ [] }
    requires uses { AreUses members.now uses.now }
    requires node { IsNode state.old node }
    requires to { IsNode state.old to }
    requires sides { joined_by fact ≡ Some (node, to) }
    ensures steady { IsSteady members.now (cells_of state.new) }
    ensures quiet { state.new.waiting.items ≡ [] }
    ensures facts { OnOk result (state.new.facts.items ≡ state.old.facts.items ++ fact ∷ []) }
    ensures entered { state.new.entered ≡ state.old.entered }
    ensures err { OnErr result (cells_of state.new ≡ cells_of state.old) }
    ensures kept { KeepsMarks state.old state.new }
    ensures nodes { count_of state.new ≡ count_of state.old }
    ensures logged { OnOk result (LogsClasses state.old state.new) }
    ensures coarser { OnOk result (KeepsJoined state.old state.new) }
    ensures classes { KeepsClasses state.old state.new }
{
    let mark = mark_of(state);
    match read_on(alloc, state, members, uses, fact, node, to) {
        Ok(()) => Ok(()),
        Err(error) => {
            rewind(state, mark);
            Err(error)
        }
    }
}

// Enters the next term.
fn enter_next(alloc: Global, state: &mut State, members: &[Member]) -> Result<(), Memory>
    requires steady { IsSteady members.now (cells_of state.old) }
    requires quiet { state.old.waiting.items ≡ [] }
    requires more { state.old.entered < length members.now }
    ensures working { OnOk result (IsAtWork members.now state.new) }
    ensures class { state.new.classes.class.cells.items ≡ state.old.classes.class.cells.items }
    ensures facts { state.new.facts.items ≡ state.old.facts.items }
    ensures entered { OnOk result (state.new.entered ≡ state.old.entered + 1) }
    ensures after { IsAfter state.old state.new }
{
    let member = &members[state.entered];
    enter(
        alloc,
        &mut state.table,
        &mut state.waiting,
        &state.classes.class,
        0,
        0,
        member,
    )?;
    state.entered += 1;
    Ok(())
}

fn settle_on(
    alloc: Global,
    state: &mut State,
    members: &[Member],
    uses: &[Places],
) -> Result<(), Memory>
    requires steady { IsSteady members.now (cells_of state.old) }
    requires quiet { state.old.waiting.items ≡ [] }
    requires uses { AreUses members.now uses.now }
    requires entered { state.old.entered ≤ length members.now }
    ensures settled { OnOk result (IsComplete members.now (cells_of state.new)) }
    ensures quiet { OnOk result (state.new.waiting.items ≡ []) }
    ensures facts { state.new.facts.items ≡ state.old.facts.items }
    ensures coarser { OnOk result (KeepsJoined state.old state.new) }
    ensures after { IsAfter state.old state.new }
{
    while state.entered < members.len() {
        enter_next(alloc, state, members)?;
        run(alloc, state, members, uses)?;
    }
    Ok(())
}

// Enters the terms that came late, and joins all that is congruent. At want of memory all is as before.
pub(crate) fn settle(
    alloc: Global,
    state: &mut State,
    members: &[Member],
    uses: &[Places],
) -> Result<(), Memory>
    requires steady { IsSteady members.now (cells_of state.old) }
    requires quiet { state.old.waiting.items ≡ [] }
    requires uses { AreUses members.now uses.now }
    requires entered { state.old.entered ≤ length members.now }
    ensures settled { OnOk result (IsComplete members.now (cells_of state.new)) }
    ensures steady { IsSteady members.now (cells_of state.new) }
    ensures quiet { state.new.waiting.items ≡ [] }
    ensures entered { OnOk result (state.new.entered ≡ length members.now) }
    ensures facts { state.new.facts.items ≡ state.old.facts.items }
    ensures err { OnErr result (cells_of state.new ≡ cells_of state.old) }
    ensures kept { KeepsMarks state.old state.new }
    ensures nodes { count_of state.new ≡ count_of state.old }
    ensures logged { OnOk result (LogsClasses state.old state.new) }
    ensures coarser { OnOk result (KeepsJoined state.old state.new) }
    ensures classes { KeepsClasses state.old state.new }
{
    let mark = mark_of(state);
    match settle_on(alloc, state, members, uses) {
        Ok(()) => Ok(()),
        Err(error) => {
            rewind(state, mark);
            Err(error)
        }
    }
}

// Goes back to a mark. It takes no memory.
pub(crate) fn undo(state: &mut State, members: &[Member], mark: Mark)
    requires kept { IsKept members.now state.old mark }
    ensures steady { IsSteady members.now (cells_of state.new) }
    ensures quiet { state.new.waiting.items ≡ [] }
    ensures facts { state.new.facts.items ≡ take mark.facts state.old.facts.items }
    ensures entered { state.new.entered ≡ mark.entered }
    ensures kept { KeepsMarksBefore mark state.old state.new }
    ensures classes { RestoresClasses state.old mark state.new }
    ensures nodes { count_of state.new ≡ count_of state.old }
{
    let _members = members;
    rewind(state, mark);
}

// Whether two nodes of a settled state are of one class: exactly where the closure of the facts read joins them.
pub(crate) fn are_same(state: &State, members: &[Member], node: usize, other: usize) -> bool
    requires settled { IsComplete members.now (cells_of state.now) }
    requires node { IsNode state.now node }
    requires other { IsNode state.now other }
    ensures { IsTrue result ↔ AreRelated members.now state.now node other }
{
    let _members = members;
    state.classes.class.get(node) == state.classes.class.get(other)
}
