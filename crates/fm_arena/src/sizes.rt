ghost use Rattle.std.specs.Prelude.{◌≡◌, ◌+◌, ◌≤◌, ◌<◌, max, map, slice_get, IfSome, is_some};
ghost use Rattle.fm_arena.specs.Measures.{all_pairs, deepest, is_fit, over, total, weigh};
ghost use Rattle.fm_arena.specs.Kept.{are_fit_beside, entry_type, kept_at, pairs_with};

use crate::node::{Entry, Op};
use fm_base::Ty;

pub(crate) const MOST_NODES: u64 = 1_000_000;

pub(crate) const MOST_DEPTH: u64 = 400;

/// The size of a tree, its number of nodes, and its depth, the number of nodes on the longest path.
#[derive(Clone, Copy, Debug, PartialEq, Eq)]
pub struct Measure {
    pub size: u64,
    pub depth: u64,
}

/// The measure that is kept of a term, and one node where the number is none.
pub(crate) fn kept(entries: &[Entry], number: usize) -> Measure
    ensures { result ≡ kept_at entries.now number }
{
    match entries.get(number) {
        None => Measure { size: 1, depth: 1 },
        Some(entry) => entry.measure,
    }
}

/// The type of a term, Bool where the number is none.
pub(crate) fn type_of(entries: &[Entry], number: usize) -> Ty
    ensures { result ≡ entry_type (slice_get entries.now number) }
{
    match entries.get(number) {
        None => Ty::Bool,
        Some(entry) => entry.ty,
    }
}

/// The measure of a node over parts, where it is within the limits.
pub(crate) fn measure_over(entries: &[Entry], parts: &[usize]) -> Option<Measure>
    ensures some { IfSome result (λ m. over (map (kept_at entries.now) parts.now) ≡ m) }
    ensures fit { is_some result ≡ is_fit (over (map (kept_at entries.now) parts.now)) }
{
    let mut size: u64 = 1;
    let mut depth: u64 = 0;
    for part in parts {
        let measure = kept(entries, *part);
        size = size.saturating_add(measure.size);
        if size > MOST_NODES {
            return None;
        }
        depth = depth.max(measure.depth);
    }
    if depth >= MOST_DEPTH {
        return None;
    }
    let depth = depth + 1;
    Some(Measure { size, depth })
}

// What there is and a term's pairs with later ones, where a node over all is within the limits.
fn with_pairs(
    entries: &[Entry],
    first: Measure,
    others: &[usize],
    start: Measure,
) -> Option<Measure>
    requires size { start.size ≤ 1000000 }
    requires depth { start.depth < 400 }
    ensures size { IfSome result (λ m. m.size ≡ start.size + total (pairs_with entries.now first others.now)) }
    ensures depth { IfSome result (λ m. m.depth ≡ max start.depth (deepest (pairs_with entries.now first others.now))) }
    ensures few { IfSome result (λ m. m.size ≤ 1000000) }
    ensures shallow { IfSome result (λ m. m.depth < 400) }
    ensures fit { is_some result ≡ are_fit_beside start (pairs_with entries.now first others.now) }
{
    let mut size = start.size;
    let mut depth = start.depth;
    for other in others {
        let measure = kept(entries, *other);
        size = size
            .saturating_add(2)
            .saturating_add(first.size)
            .saturating_add(measure.size);
        if size > MOST_NODES {
            return None;
        }
        depth = depth.max(first.depth.max(measure.depth).saturating_add(2));
        if depth >= MOST_DEPTH {
            return None;
        }
    }
    Some(Measure { size, depth })
}

// The measure of a node over all pairs, none of which is made.
fn measure_apart(entries: &[Entry], parts: &[usize]) -> Option<Measure>
    ensures some { IfSome result (λ m. over (all_pairs (map (kept_at entries.now) parts.now)) ≡ m) }
    ensures fit { is_some result ≡ is_fit (over (all_pairs (map (kept_at entries.now) parts.now))) }
{
    let mut sum = Measure { size: 1, depth: 0 };
    let mut rest = parts;
    while let Some((first, tail)) = rest.split_first() {
        match with_pairs(entries, kept(entries, *first), tail, sum) {
            None => return None,
            Some(more) => sum = more,
        }
        rest = tail;
    }
    let depth = sum.depth + 1;
    Some(Measure {
        size: sum.size,
        depth,
    })
}

/// The measure of what an operator makes, where it is within the limits.
pub(crate) fn measure_under(entries: &[Entry], op: Op, parts: &[usize]) -> Option<Measure>
    ensures some { IfSome result (λ m. weigh op (map (kept_at entries.now) parts.now) ≡ m) }
    ensures fit { is_some result ≡ is_fit (weigh op (map (kept_at entries.now) parts.now)) }
{
    match op {
        Op::Distinct(_) => measure_apart(entries, parts),
        _ => measure_over(entries, parts),
    }
}
