ghost use Rattle.std.specs.Prelude.{◌≡◌, ◌^◌, ◌<◌, ◌+◌, false, length, OnOk, OnErr};
ghost use Rattle.fm_levels.specs.Levels.{joined, put};
ghost use Rattle.fm_levels.specs.Tables.{has};
ghost use Rattle.fm_elab.specs.Stacks.{fewer_levels, more_levels};

use fm_base::Memory;
use fm_levels::{Layers, Levels};

/// Adds a name to what is declared and to what is in force, where it is free, or to neither.
pub(crate) fn insert_both<'a, A: Drop, B: Drop>(
    left: &mut Layers<'a, A>,
    right: &mut Levels<'a, B>,
    first: bool,
    name: &'a [u8],
    a: A,
    b: B,
) -> Result<(), Memory>
    requires free { has name.now (joined right.old) ≡ false }
    requires open { 0 < length left.old }
    ensures left { OnOk result (left.new ≡ put first left.old (name.now, a)) }
    ensures right { OnOk result (right.new ≡ put first right.old (name.now, b)) }
    ensures left_err { OnErr result (left.new ≡ left.old) }
    ensures right_err { OnErr result (right.new ≡ right.old) }
{
    let count = left.count_in(first);
    left.insert(first, name, a)?;
    match right.insert(first, name, b) {
        Ok(_) => Ok(()),
        Err(fail) => {
            left.cut_back(first, count);
            Err(fail)
        }
    }
}

/// Opens levels in both, or in neither.
pub(crate) fn push_both<'a, A: Drop, B: Drop>(
    left: &mut Layers<'a, A>,
    right: &mut Levels<'a, B>,
    count: usize,
) -> Result<(), Memory>
    requires left { length left.old + count < 2 ^ 63 }
    requires right { length right.old + count < 2 ^ 63 }
    requires open { 0 < length left.old }
    ensures left { OnOk result (left.new ≡ more_levels count left.old) }
    ensures right { OnOk result (right.new ≡ more_levels count right.old) }
    ensures left_err { OnErr result (left.new ≡ left.old) }
    ensures right_err { OnErr result (right.new ≡ right.old) }
{
    left.push(count)?;
    match right.push(count) {
        Ok(()) => Ok(()),
        Err(fail) => {
            left.pop(count);
            Err(fail)
        }
    }
}

/// Closes levels in both.
pub(crate) fn pop_both<'a, A: Drop, B: Drop>(
    left: &mut Layers<'a, A>,
    right: &mut Levels<'a, B>,
    count: usize,
)
    requires left { count < length left.old }
    requires right { count < length right.old }
    ensures left { left.new ≡ fewer_levels count left.old }
    ensures right { right.new ≡ fewer_levels count right.old }
{
    left.pop(count);
    right.pop(count);
}
