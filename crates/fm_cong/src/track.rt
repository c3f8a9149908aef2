ghost use Rattle.std.specs.Prelude.{◌≡◌, ◌<◌, ◌≤◌, ◌++◌, ◌∷◌, [], length, vec_capacity, vec_len};
ghost use Rattle.fm_cells.specs.Apart.{ArePairsWithin, KeepsCuts};
ghost use Rattle.fm_cong.specs.States.{count_of};
ghost use Rattle.fm_cong.specs.Tracked.{FollowsJoinsSince};

use crate::mark::Mark;
use crate::state::State;
use fm_cells::{Apart, Cut};

// The table of which classes are apart follows what was written of the classes of a state since a mark.
pub(crate) fn track(state: &State, apart: &mut Apart, from: Mark)
    requires within { ArePairsWithin (count_of state.now) apart.old.pairs.items }
    requires class { from.class ≤ length state.now.classes.class.log.items }
    ensures pairs { apart.new.pairs ≡ apart.old.pairs }
    ensures cuts { KeepsCuts apart.old apart.new }
    ensures joins { FollowsJoinsSince state.now from apart.old apart.new }
{
    apart.follow(&state.classes.class, from.class);
}

// Puts a cut behind the others, where there is room.
pub(crate) fn put_cut(cuts: &mut Vec<Cut>, cut: Cut)
    requires room { vec_len cuts.old < vec_capacity cuts.old }
    ensures { cuts.new.items ≡ cuts.old.items ++ cut ∷ [] }
{
    let _ = cuts.push(cut);
}
