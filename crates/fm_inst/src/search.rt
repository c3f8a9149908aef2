ghost use Rattle.std.specs.Prelude.{◌≡◌, true, length, IfOk};
ghost use Rattle.fm_base.specs.Interpretations.{reading_of};
ghost use Rattle.fm_bank.specs.Clauses.{plit_true};
ghost use Rattle.fm_inst.specs.Lookup.{tables_ascend};
ghost use Rattle.fm_inst.specs.Prefixes.{AreSome, if_any, least_failing_of};
ghost use Rattle.fm_inst.specs.Depths.{AreLevels, HasLevel, IsWithin, level_true};

use crate::linked::Levels;
use crate::prefixes::advance;
use crate::values::atom_holds;
use fm_bank::Plit;
use fm_base::{Interp, Memory};

fn literal_holds(
    interp: &Interp,
    lit: &Plit,
    env: &[u64],
    args: &mut Vec<u64>,
) -> Result<bool, Memory>
    requires { tables_ascend interp.now ≡ true }
    ensures { IfOk result (λ b. b ≡ plit_true (reading_of interp.now) env.now lit.now) }
{
    let truth = atom_holds(interp, &lit.atom, env, args)?;
    Ok(if lit.positive { truth } else { !truth })
}

// Whether a literal that needs just the first `depth` variables is true.
fn level_holds(
    interp: &Interp,
    lits: &[Plit],
    levels: &Levels,
    depth: usize,
    env: &[u64],
    args: &mut Vec<u64>,
) -> Result<bool, Memory>
    requires tables { tables_ascend interp.now ≡ true }
    requires level { HasLevel lits.now depth levels.now.first.items levels.now.next.items }
    ensures { IfOk result (λ b. b ≡ level_true (reading_of interp.now) lits.now depth env.now) }
{
    let mut place = levels.first[depth];
    while place < lits.len() {
        if literal_holds(interp, &lits[place], env, args)? {
            return Ok(true);
        }
        place = levels.next[place];
    }
    Ok(false)
}

// Leaves the least tuple at which no literal is true in `env`, if there is one. A beginning of a tuple at which a literal is
// true already is passed as a whole.
pub(crate) fn least_failing(
    interp: &Interp,
    lits: &[Plit],
    levels: &Levels,
    sizes: &[u64],
    env: &mut [u64],
    args: &mut Vec<u64>,
) -> Result<bool, Memory>
    requires tables { tables_ascend interp.now ≡ true }
    requires linked { AreLevels lits.now (length sizes.now) levels.now.first.items levels.now.next.items }
    requires within { IsWithin lits.now (length sizes.now) }
    requires sizes { AreSome sizes.now }
    requires room { length env.old ≡ length sizes.now }
    ensures { IfOk result (λ b. if_any b env.new ≡ least_failing_of (reading_of interp.now) lits.now sizes.now) }
{
    let mut depth = 0;
    loop {
        let (front, _) = env.split_at(depth);
        if level_holds(interp, lits, levels, depth, front, args)? {
            match advance(sizes, env, depth) {
                None => return Ok(false),
                Some(next) => depth = next,
            }
        } else if depth == sizes.len() {
            return Ok(true);
        } else {
            env[depth] = 0;
            depth += 1;
        }
    }
}
