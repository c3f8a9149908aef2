ghost use Rattle.std.specs.Prelude.{◌≡◌, ◌↔◌, ◌<◌, ◌≤◌, ◌∷◌, [], length, map, option_map, Some, IfOk, IsTrue};
ghost use Rattle.fm_bank.specs.Terms.{numbers};
ghost use Rattle.fm_cong.specs.Held.{IsSettled};
ghost use Rattle.fm_cong.specs.Types.{AreOldest};
ghost use Rattle.fm_region.specs.Sources.{IsSourceOf, parts};

use crate::rows::place_pairs;
use fm_base::{Memory, SortId, TermId};
use fm_cong::Egraph;
use sqlite_items::Items;
use std::alloc::Global;

// What regions were made from: the number, the oldest terms of the classes, and the pairs of places of those that are apart.
#[derive(Drop)]
pub(crate) struct Source {
    pub(crate) k: u64,
    pub(crate) terms: Vec<TermId>,
    pub(crate) pairs: Vec<(usize, usize)>,
}

// What the regions of a sort are made from. Where there are at most k classes, no pair is read.
pub(crate) fn source_of(
    alloc: Global,
    graph: &Egraph,
    sort: SortId,
    k: u64,
    terms: Vec<TermId>,
) -> Result<Source, Memory>
    requires settled { IsSettled graph.now }
    requires oldest { AreOldest graph.now sort terms.items }
    ensures { IfOk result (IsSourceOf graph.now sort k) }
{
    if terms.len() as u64 <= k {
        let pairs = Vec::new(alloc);
        return Ok(Source { k, terms, pairs });
    }
    let pairs = place_pairs(alloc, graph, sort, terms.as_slice())?;
    Ok(Source { k, terms, pairs })
}

fn are_same_terms(a: &[TermId], b: &[TermId]) -> bool
    ensures { IsTrue result ↔ (a.now ≡ b.now) }
{
    if a.len() != b.len() {
        return false;
    }
    for i in 0..a.len() {
        if a[i].0 != b[i].0 {
            return false;
        }
    }
    true
}

fn are_same_pairs(a: &[(usize, usize)], b: &[(usize, usize)]) -> bool
    ensures { IsTrue result ↔ (a.now ≡ b.now) }
{
    if a.len() != b.len() {
        return false;
    }
    for i in 0..a.len() {
        if a[i].0 != b[i].0 || a[i].1 != b[i].1 {
            return false;
        }
    }
    true
}

fn are_same(a: &Source, b: &Source) -> bool
    ensures { IsTrue result ↔ (parts a.now ≡ parts b.now) }
{
    a.k == b.k
        && are_same_terms(a.terms.as_slice(), b.terms.as_slice())
        && are_same_pairs(a.pairs.as_slice(), b.pairs.as_slice())
}

// Whether this is what the last regions were made from.
pub(crate) fn is_last(last: &Option<Source>, source: &Source) -> bool
    ensures { IsTrue result ↔ (option_map parts last.now ≡ Some (parts source.now)) }
{
    match last {
        Some(old) => are_same(old, source),
        None => false,
    }
}
