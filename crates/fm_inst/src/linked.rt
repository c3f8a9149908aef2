ghost use Rattle.std.specs.Prelude.{◌≡◌, ℕ, ◌+◌, ◌<◌, ◌≤◌, get_or, length, slice_set, IfOk};
ghost use Rattle.fm_inst.specs.Levels.{AreAtMost, AreFirsts, AreLinked};

use fm_base::Memory;
use std::alloc::Global;

// For each depth the first literal that has it, and for each literal the next one of its depth; where there is none, the
// number of literals.
#[derive(Drop)]
pub(crate) struct Levels {
    pub(crate) first: Vec<usize>,
    pub(crate) next: Vec<usize>,
}

// A number for each depth up to `count`.
fn filled(alloc: Global, count: usize, number: usize) -> Result<Vec<usize>, Memory>
    ensures many { IfOk result (λ v. length v.items ≡ count + 1) }
    ensures each { IfOk result (λ v. (d : ℕ) → d ≤ count → get_or v.items d 0 ≡ number) }
{
    let mut numbers = vec![in alloc; number; count]?;
    numbers.push(number)?;
    Ok(numbers)
}

// The place comes first of its depth, and the one that was first follows it.
fn put_first(first: &mut [usize], next: &mut [usize], place: usize, depth: usize)
    requires depth { depth < length first.old }
    requires place { place < length next.old }
    ensures first { first.new ≡ slice_set first.old depth place }
    ensures next { next.new ≡ slice_set next.old place (get_or first.old depth 0) }
{
    next[place] = first[depth];
    first[depth] = place;
}

fn link(depths: &[usize], count: usize, first: &mut [usize], next: &mut [usize])
    requires depths { AreAtMost depths.now count }
    requires levels { length first.old ≡ count + 1 }
    requires places { length next.old ≡ length depths.now }
    requires firsts { AreFirsts depths.now count (length depths.now) first.old }
    ensures { AreLinked depths.now count 0 first.new next.new }
{
    let _count = count;
    let mut left = depths.len();
    while left > 0 {
        left -= 1;
        put_first(first, next, left, depths[left]);
    }
}

pub(crate) fn levels_of(alloc: Global, depths: &[usize], count: usize) -> Result<Levels, Memory>
    requires { AreAtMost depths.now count }
    ensures { IfOk result (λ l. AreLinked depths.now count 0 l.first.items l.next.items) }
{
    let mut first = filled(alloc, count, depths.len())?;
    let mut next = vec![in alloc; depths.len(); depths.len()]?;
    link(depths, count, first.as_mut_slice(), next.as_mut_slice());
    Ok(Levels { first, next })
}
