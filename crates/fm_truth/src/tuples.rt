ghost use Rattle.std.specs.Prelude.{◌≡◌, ◌+◌, ◌≤◌, take, length};
ghost use Rattle.fm_base.specs.Interpretations.{reading_of};
ghost use Rattle.fm_truth.specs.Tuples.{GoesOn, first_of, if_any, tuple_of};

use crate::lookup::size;
use fm_base::{Interp, SortId};

// Writes the first tuple of elements of the sorts behind the `depth` variables in scope. There is none where a sort
// has no element.
pub(crate) fn first_tuple(interp: &Interp, sorts: &[SortId], vars: &mut [u64], depth: usize) -> bool
    requires { depth + length sorts.now ≤ length vars.old }
    ensures first { if_any result (tuple_of sorts.now depth vars.new) ≡ first_of (reading_of interp.now) sorts.now }
    ensures same { take depth vars.new ≡ take depth vars.old }
{
    for (variable, sort) in sorts.iter().enumerate() {
        if size(interp, *sort) == 0 {
            return false;
        }
        vars[depth + variable] = 0;
    }
    true
}

// Goes on to the next tuple in lexicographic order, if there is one: the last number that can grow does, and those
// behind it begin anew.
pub(crate) fn next_tuple(interp: &Interp, sorts: &[SortId], vars: &mut [u64], depth: usize) -> bool
    requires { depth + length sorts.now ≤ length vars.old }
    ensures next { GoesOn (reading_of interp.now) sorts.now depth vars.old vars.new result }
    ensures same { take depth vars.new ≡ take depth vars.old }
{
    let mut i = sorts.len();
    while i > 0 {
        i -= 1;
        let last = size(interp, sorts[i]).saturating_sub(1);
        if vars[depth + i] < last {
            vars[depth + i] += 1;
            return true;
        }
        vars[depth + i] = 0;
    }
    false
}
