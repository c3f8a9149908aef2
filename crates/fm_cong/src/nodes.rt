ghost use Rattle.std.specs.Prelude.{◌≡◌, ◌<◌, ◌+◌, IfOk, OnOk};
ghost use Rattle.fm_cong.specs.Levels.{IsNothing, KeepsAll};
ghost use Rattle.fm_cong.specs.States.{IsNode, count_of};

use crate::state::State;
use fm_base::Memory;
use fm_cells::{Classes, Logged};
use indexmap::IndexMap;
use std::alloc::Global;

// One node more, a class of its own without a link. No undo takes it away.
fn add_node(state: &mut State) -> Result<(), Memory>
    ensures keeps { KeepsAll state.old state.new }
    ensures one { OnOk result (count_of state.new ≡ count_of state.old + 1) }
{
    state.classes.reserve()?;
    state.links.reserve()?;
    state.classes.push_within();
    state.links.push_within(None);
    Ok(())
}

// Adds nodes up to this one, if it isn't there.
pub(crate) fn reach_node(state: &mut State, node: usize) -> Result<(), Memory>
    ensures keeps { KeepsAll state.old state.new }
    ensures there { OnOk result (IsNode state.new node) }
{
    while state.classes.class.len() <= node {
        add_node(state)?;
    }
    Ok(())
}

// The nodes of yes and no alone.
pub(crate) fn empty_state(alloc: Global) -> Result<State, Memory>
    ensures { IfOk result IsNothing }
{
    let mut state = State {
        classes: Classes::new(alloc),
        links: Logged::new(alloc),
        table: IndexMap::new(alloc),
        waiting: Vec::new(alloc),
        facts: Vec::new(alloc),
        entered: 0,
    };
    reach_node(&mut state, 1)?;
    Ok(state)
}
