ghost use Rattle.std.specs.Prelude.{◌≡◌, ◌<◌, ◌≤◌, ◌++◌, ◌∷◌, [], length, OnOk, OnErr};
ghost use Rattle.fm_cong.specs.Graphs.{cells_of};
ghost use Rattle.fm_cong.specs.Growth.{AreBelow, HasMoreUses, HasPlace, SayTheSame};
ghost use Rattle.fm_cong.specs.Levels.{HasSameClasses, IsSteady, KeepsAll, KeepsClasses, KeepsLinks, KeepsMarks, LogsClasses, StaysSettled};
ghost use Rattle.fm_cong.specs.States.{KeepsJoined, count_of};
ghost use Rattle.fm_cong.specs.Tables.{AreUses, IsKnown};

use crate::levels::settle;
use crate::member::Member;
use crate::nodes::reach_node;
use crate::registry::{note_uses, reach_flag};
use crate::state::State;
use fm_base::Memory;
use fm_cells::Places;
use std::alloc::Global;

// Makes the nodes, the flag and the places that a term needs before it is registered.
pub(crate) fn make_room(
    alloc: Global,
    state: &mut State,
    flags: &mut Vec<bool>,
    uses: &mut Vec<Places>,
    member: &Member,
    place: usize,
) -> Result<(), Memory>
    requires args { AreBelow (count_of state.old) member.now.args }
    ensures state { KeepsAll state.old state.new }
    ensures flags { SayTheSame flags.old.items flags.new.items }
    ensures uses { HasMoreUses uses.old.items uses.new.items }
    ensures known { OnOk result (IsKnown (count_of state.new) member.now) }
    ensures flag { OnOk result (member.now.number < length flags.new.items) }
    ensures place { OnOk result (HasPlace uses.new.items member.now.args place) }
{
    let number = member.number();
    let Some(node) = number.checked_add(2) else {
        return Err(Memory);
    };
    reach_node(state, node)?;
    reach_flag(flags, number)?;
    note_uses(alloc, uses, state.classes.class.len(), member.args(), place)?;
    Ok(())
}

// Registers a term for which there is room. Where all terms were entered, it is entered too. At want of memory all is as
// before.
pub(crate) fn put_member(
    alloc: Global,
    state: &mut State,
    members: &mut Vec<Member>,
    uses: &[Places],
    member: Member,
) -> Result<(), Memory>
    requires steady { IsSteady members.old.items (cells_of state.old) }
    requires quiet { state.old.waiting.items ≡ [] }
    requires entered { state.old.entered ≤ length members.old.items }
    requires known { IsKnown (count_of state.old) member }
    requires uses { AreUses (members.old.items ++ member ∷ []) uses.now }
    ensures members { OnOk result (members.new.items ≡ members.old.items ++ member ∷ []) }
    ensures err { OnErr result (members.new.items ≡ members.old.items) }
    ensures steady { IsSteady members.new.items (cells_of state.new) }
    ensures quiet { state.new.waiting.items ≡ [] }
    ensures entered { state.new.entered ≤ length members.new.items }
    ensures settled { OnOk result (StaysSettled state.old members.old.items state.new members.new.items) }
    ensures stays { OnErr result (state.new.entered ≡ state.old.entered) }
    ensures facts { state.new.facts.items ≡ state.old.facts.items }
    ensures kept { KeepsMarks state.old state.new }
    ensures nodes { count_of state.new ≡ count_of state.old }
    ensures logged { OnOk result (LogsClasses state.old state.new) }
    ensures coarser { OnOk result (KeepsJoined state.old state.new) }
    ensures classes { KeepsClasses state.old state.new }
    ensures same { OnErr result (HasSameClasses state.old state.new) }
    ensures links { OnErr result (KeepsLinks state.old state.new) }
{
    let before = members.len();
    members.push(member)?;
    if state.entered < before {
        return Ok(());
    }
    match settle(alloc, state, members.as_slice(), uses) {
        Ok(()) => Ok(()),
        Err(error) => {
            members.truncate(before);
            Err(error)
        }
    }
}
