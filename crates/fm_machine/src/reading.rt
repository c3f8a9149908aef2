ghost use Rattle.std.specs.Prelude.{◌≡◌, ◌<◌, length, OnOk};
ghost use Rattle.fm_machine.specs.Moves.{Moves};
ghost use Rattle.fm_machine.specs.Ties.{IsTied};
ghost use Rattle.fm_sat.specs.Store.{HasNoFalse};
ghost use Rattle.fm_steps.specs.Rows.{TakeRow};
ghost use Rattle.fm_steps.specs.Facts.{AtomsAreKnown, TrailIsExplained};
ghost use Rattle.fm_steps.specs.State.{read_by, read_one};
ghost use Rattle.fm_trail.specs.Trail.{head_of, level_of};

use crate::held::Search;
use crate::settling::settle;
use fm_base::{Memory, Reader};
use fm_readers::read;
use fm_state::State;
use std::alloc::Global;

// The reader reads one entry more.
fn read_on(search: &mut Search, reader: Reader) -> Result<(), Memory>
    requires tied { IsTied search.old }
    requires explained { TrailIsExplained search.old.state }
    requires known { AtomsAreKnown search.old.state }
    requires left { head_of search.old.state.trail.heads reader < length search.old.state.trail.entries }
    ensures state { OnOk result (search.new.state ≡ read_one reader search.old.state) }
    ensures tied { OnOk result (IsTied search.new) }
{
    match search.state.read_next(reader) {
        None => Ok(()),
        Some(entry) => match reader {
            Reader::Congruence => {
                read(&mut search.congruence, search.state.bank(), entry)?;
                Ok(())
            }
            Reader::Regions => {
                read(&mut search.regions, search.state.bank(), entry)?;
                Ok(())
            }
            Reader::Sum => Ok(()),
            Reader::Instances => Ok(()),
        },
    }
}

// How many levels are open for the reader: the level of the last entry that it has read.
pub(crate) fn levels_read(state: &State, reader: Reader) -> usize
    requires { TrailIsExplained state.now }
    ensures { result ≡ level_of (read_by reader state.now) }
{
    let trail = state.trail();
    let head = trail.head(reader);
    if head == 0 {
        0
    } else {
        trail.entry(head - 1).level
    }
}

/// Take: where no clause is false, a reader that hasn't read all reads one entry more.
pub fn take(alloc: Global, search: &mut Search, reader: Reader) -> Result<(), Memory>
    requires tied { IsTied search.old }
    requires explained { TrailIsExplained search.old.state }
    requires known { AtomsAreKnown search.old.state }
    requires quiet { HasNoFalse search.old.state.clauses search.old.state.trail.entries }
    requires left { head_of search.old.state.trail.heads reader < length search.old.state.trail.entries }
    ensures moved { OnOk result (Moves (λ s t. TakeRow s reader t) search.old.state search.new.state) }
    ensures tied { OnOk result (IsTied search.new) }
{
    read_on(search, reader)?;
    settle(alloc, search)?;
    Ok(())
}
