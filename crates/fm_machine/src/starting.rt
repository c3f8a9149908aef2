ghost use Rattle.std.specs.Prelude.{IfOk};
ghost use Rattle.fm_machine.specs.Ties.{IsStarted};
ghost use Rattle.fm_steps.specs.Lines.{IsSorted};

use crate::held::Search;
use crate::settling::settle;
use fm_bank::ClauseSet;
use fm_base::Memory;
use fm_readers::graph_over;
use fm_state::State;
use std::alloc::Global;

/// The state at the start of a search for a model of the clauses, with the graphs of its readers, which have read nothing.
pub fn start(alloc: Global, clauses: &ClauseSet) -> Result<Search, Memory>
    requires { IsSorted clauses.now }
    ensures { IfOk result (IsStarted clauses.now) }
{
    let state = State::start(alloc, clauses)?;
    let congruence = graph_over(alloc, state.bank())?;
    let regions = graph_over(alloc, state.bank())?;
    let mut search = Search {
        state,
        congruence,
        regions,
    };
    settle(alloc, &mut search)?;
    Ok(search)
}
