ghost use Rattle.std.specs.Prelude.{◌≡◌, ◌==◌, ◌<◌, ◌≤◌, ◌+◌, ◌-◌, ℕ, length, map, not, take, IfOk, OnOk};
ghost use Rattle.std.specs.List.{find};
ghost use Rattle.fm_bank.specs.Terms.{numbers};
ghost use Rattle.fm_region.specs.Answers.{IsFoundIn, first_pair, test_of};
ghost use Rattle.fm_region.specs.Parts.{regions_of};
ghost use Rattle.fm_bank.specs.Regions.{first_large};
ghost use Rattle.fm_region.specs.Rows.{apart_in, number_at};

use crate::parts::{Part, is_apart};
use fm_base::{Memory, TermId};
use sqlite_items::Items;
use std::alloc::Global;

/// Whether a sort has at most k classes; else two terms of different classes of the test that aren't apart, or the terms
/// of all k + 1 classes of the test, which are pairwise apart.
#[derive(Drop)]
pub enum Strong {
    Fits,
    Split(TermId, TermId),
    Clique(Vec<TermId>),
}

fn open_with(near: &[Items<bool>], c: usize, others: &[usize]) -> Option<usize>
    ensures { result ≡ find (λ d. not (apart_in near.now c d)) others.now }
{
    for d in others {
        if !is_apart(near, c, *d) {
            return Some(*d);
        }
    }
    None
}

// The first two classes of a list that aren't apart.
fn open_pair(near: &[Items<bool>], test: &[usize]) -> Option<(usize, usize)>
    ensures { result ≡ first_pair (apart_in near.now) test.now }
{
    let mut rest = test;
    while let Some((c, others)) = rest.split_first() {
        if let Some(d) = open_with(near, *c, others) {
            return Some((*c, d));
        }
        rest = others;
    }
    None
}

fn large_region(k: usize, parts: &[Part]) -> &[usize]
    ensures { result.now ≡ first_large k (regions_of parts.now) }
{
    for part in parts {
        if k < part.classes.len() {
            return part.classes.as_slice();
        }
    }
    &[]
}

// The first k + 1 classes of a list, or as many as there are.
pub(crate) fn front(region: &[usize], k: usize) -> &[usize]
    ensures { result.now ≡ take (k + 1) region.now }
{
    if k < region.len() {
        &region[..k + 1]
    } else {
        region
    }
}

// The term at a place.
pub(crate) fn term_at(terms: &[TermId], c: usize) -> TermId
    ensures { result.0 ≡ number_at (numbers terms.now) c }
{
    match terms.get(c) {
        Some(term) => *term,
        None => TermId(0),
    }
}

fn named(alloc: Global, terms: &[TermId], places: &[usize]) -> Result<Vec<TermId>, Memory>
    ensures { IfOk result (λ v. numbers v.items ≡ map (number_at (numbers terms.now)) places.now) }
{
    let mut list = Vec::new(alloc);
    for c in places {
        list.push(term_at(terms, *c))?;
    }
    Ok(list)
}

// The first two terms of the test that aren't apart, or all of them.
pub(crate) fn answer(
    alloc: Global,
    near: &[Items<bool>],
    terms: &[TermId],
    k: usize,
    parts: &[Part],
) -> Result<Strong, Memory>
    ensures { IfOk result (IsFoundIn (apart_in near.now) (numbers terms.now) k (regions_of parts.now)) }
{
    if k >= terms.len() {
        return Ok(Strong::Fits);
    }
    let test = front(large_region(k, parts), k);
    match open_pair(near, test) {
        Some((c, d)) => Ok(Strong::Split(term_at(terms, c), term_at(terms, d))),
        None => Ok(Strong::Clique(named(alloc, terms, test)?)),
    }
}
