ghost use Rattle.std.specs.Prelude.{◌≡◌, ◌↔◌, ◌+◌, ◌-◌, ◌<◌, ◌≤◌, ℕ, length, map, nat_le, nat_lt, IfOk, IsTrue, OnOk, true};
ghost use Rattle.std.specs.List.{count_by, list_any};
ghost use Rattle.fm_region.specs.Parts.{AreClosedBefore, AreDegrees, AreKept, IsTable, count_at, regions_of, touch_at};
ghost use Rattle.fm_bank.specs.Regions.{after_join, closed, closed_within, first_open, first_touching, is_closed_at, region_at, touches};
ghost use Rattle.fm_region.specs.Rows.{apart_in};

use crate::parts::{Part, count, merge};
use fm_base::Memory;
use sqlite_items::Items;
use std::alloc::Global;

// From how many classes outside a region each of its classes is apart.
fn outs(alloc: Global, degrees: &[usize], part: &Part) -> Result<Vec<usize>, Memory>
    ensures { IfOk result (λ v. v.items ≡ map (λ c. count_at degrees.now c - count_at part.now.inside c) part.now.classes) }
{
    let mut counts = Vec::new(alloc);
    for c in part.classes.as_slice() {
        let inside = count(part.inside.as_slice(), *c);
        counts.push(count(degrees, *c).saturating_sub(inside))?;
    }
    Ok(counts)
}

// How many numbers are at least so many.
fn at_least(outs: &[usize], many: usize) -> usize
    ensures { result ≡ count_by (λ o. nat_le many o) outs.now }
{
    outs.iter().filter(|o| many <= **o).count()
}

// Whether a region is closed at k, by how many classes outside each of its classes is apart from. Where a number of classes
// is too small for `end`, it is too small for all from it to `end`.
fn is_closed_by(outs: &[usize], k: usize) -> bool
    ensures { IsTrue result ↔ ((a : ℕ) → 1 ≤ a → a ≤ k → count_by (λ o. nat_le (k + 1 - a) o) outs.now < a) }
{
    let mut end = k.min(outs.len());
    while end > 0 {
        let few = at_least(outs, k - (end - 1));
        if few >= end {
            return false;
        }
        end = few;
    }
    true
}

// The table and the classes are what the counts are of.
fn is_closed(
    alloc: Global,
    _near: &[Items<bool>],
    _classes: &[usize],
    degrees: &[usize],
    k: usize,
    parts: &[Part],
    i: usize,
) -> Result<bool, Memory>
    requires table { IsTable (apart_in _near.now) _classes.now }
    requires degrees { AreDegrees (apart_in _near.now) _classes.now degrees.now }
    requires kept { AreKept (apart_in _near.now) _classes.now parts.now }
    requires i { i < length parts.now }
    ensures { IfOk result (λ b. b ≡ is_closed_at (apart_in _near.now) _classes.now k (region_at (regions_of parts.now) i)) }
{
    let counts = outs(alloc, degrees, &parts[i])?;
    Ok(is_closed_by(counts.as_slice(), k))
}

// The first region that isn't closed, where those before `from` are.
fn open_region(
    alloc: Global,
    near: &[Items<bool>],
    classes: &[usize],
    degrees: &[usize],
    k: usize,
    parts: &[Part],
    from: usize,
) -> Result<Option<usize>, Memory>
    requires table { IsTable (apart_in near.now) classes.now }
    requires degrees { AreDegrees (apart_in near.now) classes.now degrees.now }
    requires kept { AreKept (apart_in near.now) classes.now parts.now }
    requires front { AreClosedBefore (apart_in near.now) classes.now k parts.now from }
    ensures { IfOk result (λ i. i ≡ first_open (apart_in near.now) classes.now k (regions_of parts.now)) }
{
    for i in from..parts.len() {
        if !is_closed(alloc, near, classes, degrees, k, parts, i)? {
            return Ok(Some(i));
        }
    }
    Ok(None)
}

// Whether one of the classes has a count.
fn meets(inside: &[usize], region: &[usize]) -> bool
    ensures { result ≡ list_any (λ d. nat_lt 0 (count_at inside.now d)) region.now }
{
    region.iter().any(|d| 0 < count(inside, *d))
}

fn touch(_near: &[Items<bool>], _classes: &[usize], parts: &[Part], i: usize, j: usize) -> bool
    requires table { IsTable (apart_in _near.now) _classes.now }
    requires kept { AreKept (apart_in _near.now) _classes.now parts.now }
    requires i { i < length parts.now }
    requires j { j < length parts.now }
    ensures { result ≡ touch_at (apart_in _near.now) parts.now i j }
{
    meets(parts[i].inside.as_slice(), parts[j].classes.as_slice())
}

fn touching_region(
    near: &[Items<bool>],
    classes: &[usize],
    parts: &[Part],
    i: usize,
) -> Option<usize>
    requires table { IsTable (apart_in near.now) classes.now }
    requires kept { AreKept (apart_in near.now) classes.now parts.now }
    requires i { i < length parts.now }
    ensures { result ≡ first_touching (apart_in near.now) (regions_of parts.now) i }
{
    for j in 0..parts.len() {
        if j != i && touch(near, classes, parts, i, j) {
            return Some(j);
        }
    }
    None
}

// Joins regions until all are closed at k.
pub(crate) fn close(
    alloc: Global,
    near: &[Items<bool>],
    classes: &[usize],
    degrees: &[usize],
    k: usize,
    parts: &mut Items<Part>,
) -> Result<(), Memory>
    requires table { IsTable (apart_in near.now) classes.now }
    requires degrees { AreDegrees (apart_in near.now) classes.now degrees.now }
    requires kept { AreKept (apart_in near.now) classes.now parts.old }
    ensures closed { OnOk result (regions_of parts.new ≡ closed (apart_in near.now) classes.now k (regions_of parts.old)) }
    ensures kept { OnOk result (AreKept (apart_in near.now) classes.now parts.new) }
{
    let mut from = 0;
    for _round in 0..parts.len() {
        let i = match open_region(alloc, near, classes, degrees, k, parts.as_slice(), from)? {
            Some(i) => i,
            None => return Ok(()),
        };
        let j = match touching_region(near, classes, parts.as_slice(), i) {
            Some(j) => j,
            None => return Ok(()),
        };
        merge(alloc, near, classes, parts, i, j)?;
        from = i.min(j);
    }
    Ok(())
}
