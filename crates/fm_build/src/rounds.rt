ghost use Rattle.std.specs.Prelude.{◌≡◌, false, length, replicate, IfOk, OnOk};
ghost use Rattle.std.specs.List.{flat_map};
ghost use Rattle.fm_build.specs.Marks.{AreBelow, MarksMore};
ghost use Rattle.fm_build.specs.Reached.{AreInstancesBelow, BeginsFrom, HasChosen, HasReached, IsKept, MovesOn, pairs_of, reached_in};

use crate::instance::Instance;
use crate::marks::{add_representatives, are_marked, mark};
use fm_base::Memory;
use std::alloc::Global;

// A round: whether each term is reached, whether it is a representative, whether each class has one, and the
// representatives in the order of rounds, then of age.
#[derive(Drop)]
pub(crate) struct Reached {
    pub(crate) marks: Vec<bool>,
    pub(crate) chosen: Vec<bool>,
    pub(crate) taken: Vec<bool>,
    pub(crate) reps: Vec<usize>,
}

// Marks the terms of each instance whose substitution is chosen.
fn reach(added: &[Instance], chosen: &[bool], marks: &mut [bool])
    requires added { AreInstancesBelow (length marks.old) added.now }
    requires chosen { length chosen.now ≡ length marks.old }
    ensures { MarksMore marks.old (flat_map (reached_in chosen.now) (pairs_of added.now)) marks.new }
{
    for instance in added {
        if are_marked(chosen, instance.subst.as_slice()) {
            mark(marks, instance.terms.as_slice());
        }
    }
}

fn choose(class: &[usize], round: &mut Reached) -> Result<(), Memory>
    requires classes { AreBelow class.now (length class.now) }
    requires kept { IsKept class.now round.old }
    ensures kept { OnOk result (IsKept class.now round.new) }
    ensures chosen { OnOk result (HasChosen class.now round.old round.new) }
{
    add_representatives(
        class,
        round.marks.as_slice(),
        round.taken.as_mut_slice(),
        &mut round.reps,
    )?;
    mark(round.chosen.as_mut_slice(), round.reps.as_slice());
    Ok(())
}

fn unmarked(alloc: Global, count: usize) -> Result<Vec<bool>, Memory>
    ensures { IfOk result (λ v. v.items ≡ replicate count false) }
{
    Ok(vec![in alloc; false; count]?)
}

fn first_round(alloc: Global, class: &[usize], start: &[usize]) -> Result<Reached, Memory>
    requires classes { AreBelow class.now (length class.now) }
    requires start { AreBelow start.now (length class.now) }
    ensures kept { IfOk result (IsKept class.now) }
    ensures begins { IfOk result (BeginsFrom class.now start.now) }
{
    let mut round = Reached {
        marks: unmarked(alloc, class.len())?,
        chosen: unmarked(alloc, class.len())?,
        taken: unmarked(alloc, class.len())?,
        reps: Vec::new(alloc),
    };
    mark(round.marks.as_mut_slice(), start);
    choose(class, &mut round)?;
    Ok(round)
}

fn next_round(class: &[usize], added: &[Instance], round: &mut Reached) -> Result<(), Memory>
    requires classes { AreBelow class.now (length class.now) }
    requires added { AreInstancesBelow (length class.now) added.now }
    requires kept { IsKept class.now round.old }
    ensures kept { OnOk result (IsKept class.now round.new) }
    ensures next { OnOk result (MovesOn class.now (pairs_of added.now) round.old round.new) }
{
    reach(added, round.chosen.as_slice(), round.marks.as_mut_slice());
    choose(class, round)?;
    Ok(())
}

// All rounds: one without a new representative is the last that reaches anything.
pub(crate) fn all_rounds(
    alloc: Global,
    class: &[usize],
    start: &[usize],
    added: &[Instance],
) -> Result<Reached, Memory>
    requires classes { AreBelow class.now (length class.now) }
    requires start { AreBelow start.now (length class.now) }
    requires added { AreInstancesBelow (length class.now) added.now }
    ensures kept { IfOk result (IsKept class.now) }
    ensures reached { IfOk result (HasReached class.now start.now (pairs_of added.now)) }
{
    let mut round = first_round(alloc, class, start)?;
    for _turn in 0..added.len() {
        let before = round.reps.len();
        next_round(class, added, &mut round)?;
        if round.reps.len() == before {
            return Ok(round);
        }
    }
    Ok(round)
}
