ghost use Rattle.std.specs.Prelude.{◌≡◌, [], length, OnOk, IfSome, IfNone};
ghost use Rattle.std.specs.List.{All, Contains};
ghost use Rattle.fm_cells.specs.Rings.{own_or};
ghost use Rattle.fm_cong.specs.Graphs.{Extends, IsPairBelow, IsWorking, cells_of};
ghost use Rattle.fm_cong.specs.States.{AreOfOneClass, AreRelated, HasFewerClasses, IsAtWork, IsNode, IsReason, KeepsJoined};
ghost use Rattle.fm_cong.specs.Tables.{AreUses, IsLeft};

use crate::member::Member;
use crate::state::State;
use crate::table::enter_class;
use fm_base::Memory;
use fm_cells::{Cause, Edge, Logged, Places, hang};
use std::alloc::Global;

// Makes one class of those of two nodes: that of the first becomes part of that of the second.
fn merge_into(
    alloc: Global,
    state: &mut State,
    members: &[Member],
    uses: &[Places],
    node: usize,
    to: usize,
    cause: Cause,
) -> Result<(), Memory>
    requires working { IsAtWork members.now state.old }
    requires uses { AreUses members.now uses.now }
    requires node { IsNode state.old node }
    requires to { IsNode state.old to }
    requires differ { AreOfOneClass state.old node to → ⊥ }
    requires justified { IsReason members.now state.old cause node to }
    requires follows { AreRelated members.now state.old node to }
    ensures working { OnOk result (IsAtWork members.now state.new) }
    ensures coarser { OnOk result (KeepsJoined state.old state.new) }
    ensures joined { OnOk result (AreOfOneClass state.new node to) }
    ensures fewer { OnOk result (HasFewerClasses state.old state.new) }
    ensures extends { Extends state.old state.new }
{
    let from = state.classes.class.get(node);
    let onto = state.classes.class.get(to);
    enter_class(
        alloc,
        &mut state.table,
        &mut state.waiting,
        &state.classes,
        from,
        onto,
        members,
        uses,
    )?;
    let time = state.links.mark();
    hang(&mut state.links, node, Edge { to, cause, time })?;
    state.classes.union(from, onto)?;
    Ok(())
}

// Makes one class of those of two nodes, of which the smaller is moved.
fn merge(
    alloc: Global,
    state: &mut State,
    members: &[Member],
    uses: &[Places],
    node: usize,
    to: usize,
    cause: Cause,
) -> Result<(), Memory>
    requires working { IsAtWork members.now state.old }
    requires uses { AreUses members.now uses.now }
    requires node { IsNode state.old node }
    requires to { IsNode state.old to }
    requires differ { AreOfOneClass state.old node to → ⊥ }
    requires justified { IsReason members.now state.old cause node to }
    requires follows { AreRelated members.now state.old node to }
    ensures working { OnOk result (IsAtWork members.now state.new) }
    ensures coarser { OnOk result (KeepsJoined state.old state.new) }
    ensures joined { OnOk result (AreOfOneClass state.new node to) }
    ensures fewer { OnOk result (HasFewerClasses state.old state.new) }
    ensures extends { Extends state.old state.new }
{
    let a = state.classes.class.get(node);
    let b = state.classes.class.get(to);
    let first = state.classes.size.get(a);
    let second = state.classes.size.get(b);
    if first.size <= second.size {
        merge_into(alloc, state, members, uses, node, to, cause)?;
    } else {
        merge_into(alloc, state, members, uses, to, node, cause)?;
    }
    Ok(())
}

// Joins two nodes, where they are of two classes.
pub(crate) fn join(
    alloc: Global,
    state: &mut State,
    members: &[Member],
    uses: &[Places],
    node: usize,
    to: usize,
    cause: Cause,
) -> Result<(), Memory>
    requires working { IsAtWork members.now state.old }
    requires uses { AreUses members.now uses.now }
    requires node { IsNode state.old node }
    requires to { IsNode state.old to }
    requires justified { IsReason members.now state.old cause node to }
    requires follows { AreRelated members.now state.old node to }
    ensures working { OnOk result (IsAtWork members.now state.new) }
    ensures coarser { OnOk result (KeepsJoined state.old state.new) }
    ensures joined { OnOk result (AreOfOneClass state.new node to) }
    ensures extends { Extends state.old state.new }
{
    if state.classes.class.get(node) == state.classes.class.get(to) {
        return Ok(());
    }
    merge(alloc, state, members, uses, node, to, cause)?;
    Ok(())
}

// The last pair that waits and whose nodes are of two classes. It stays; those behind it go.
fn last_open(waiting: &mut Vec<(usize, usize)>, class: &Logged<usize>) -> Option<(usize, usize)>
    requires within { All (IsPairBelow (length class.now.cells.items)) waiting.old.items }
    ensures open { IfSome result (λ p. own_or class.now.cells.items p.0 ≡ own_or class.now.cells.items p.1 → ⊥) }
    ensures there { IfSome result (λ p. Contains waiting.new.items p) }
    ensures none { IfNone result (waiting.new.items ≡ []) }
    ensures left { IsLeft (own_or class.now.cells.items) waiting.old.items waiting.new.items }
{
    while let Some(pair) = waiting.last().copied() {
        if class.get(pair.0) != class.get(pair.1) {
            return Some(pair);
        }
        waiting.pop();
    }
    None
}

// Joins the pairs that wait, and those that come to wait, until none is left.
pub(crate) fn run(
    alloc: Global,
    state: &mut State,
    members: &[Member],
    uses: &[Places],
) -> Result<(), Memory>
    requires working { IsAtWork members.now state.old }
    requires uses { AreUses members.now uses.now }
    ensures working { OnOk result (IsWorking members.now (cells_of state.new) []) }
    ensures waiting { OnOk result (state.new.waiting.items ≡ []) }
    ensures coarser { OnOk result (KeepsJoined state.old state.new) }
    ensures extends { Extends state.old state.new }
{
    while let Some(pair) = last_open(&mut state.waiting, &state.classes.class) {
        merge(
            alloc,
            state,
            members,
            uses,
            pair.0,
            pair.1,
            Cause::Congruence,
        )?;
    }
    Ok(())
}
