ghost use Rattle.std.specs.Prelude.{◌≡◌, ◌↔◌, ◌==◌, ◌<◌, ◌≤◌, ◌+◌, ◌^◌, ◌++◌, ◌∷◌, [], ℕ, List, length, map, nat_lt, position, take, slice_get, if◌then◌else◌, None, Some, Option, IfOk, OnOk, OnErr, IsTrue};
ghost use Rattle.std.specs.List.{All, range_with_len};
ghost use Rattle.fm_cells.specs.Ascending.{IsAscending};
ghost use Rattle.fm_bank.specs.Terms.{numbers};
ghost use Rattle.fm_cong.specs.Held.{IsSettled};
ghost use Rattle.fm_region.specs.Levels.{last_of, newest};
ghost use Rattle.fm_region.specs.Held.{AreGrownOf, AreRegionsOf, nothing_followed};
ghost use Rattle.fm_region.specs.Answers.{IsStrongOf, weak_of};
ghost use Rattle.fm_region.specs.Parts.{AreDegrees, AreKept, IsTable, regions_of};
ghost use Rattle.fm_bank.specs.Regions.{grown_regions, is_large, regions_at};
ghost use Rattle.fm_region.specs.Rows.{IsPairBelow, apart_in, number_at};
ghost use Rattle.fm_region.specs.Sources.{AreGrownFrom, AreMadeFrom, parts};

use crate::closing::close;
use crate::growing::grow;
use crate::parts::{Part, alone, degrees};
use crate::rows::rows;
use crate::source::{Source, is_last, source_of};
use crate::strong::{Strong, answer, term_at};
use fm_base::{Memory, SortId, TermId, Undo};
use fm_cong::Egraph;
use sqlite_items::Items;
use std::alloc::Global;
use std::marker::Model;

/// The reader of sizes of one sort: its classes in regions, such that k + 1 classes that are pairwise apart have to lie in
/// one of them, and how to go back to earlier regions. Going back takes no memory.
#[derive(Drop)]
pub struct Regions {
    alloc: Global,
    sort: SortId,
    // regions that were, the present ones last; below a level those that stood as it was opened
    made: Vec<Items<Items<usize>>>,
    opened: Vec<usize>,
    // what the present ones were made from, where that is known
    source: Option<Source>,
}

impl Model for Regions {
    ghost use Rattle.fm_region.specs.Held.{Held, held_in};
    ghost use Rattle.fm_region.specs.Sources.{IsHeld};

    ghost Value = { Held };

    ghost view = { λ r. held_in r.sort r.made.items r.opened.items };

    ghost invariant = { λ r. IsHeld r.made.items r.opened.items r.source };
}

/// Whether some region has more than k classes: the first that has, numbered from 0.
#[derive(Clone, Copy, Debug, PartialEq, Eq)]
pub enum Weak {
    Clear,
    Test(usize),
}

// The places of so many classes.
fn places(alloc: Global, count: usize) -> Result<Vec<usize>, Memory>
    ensures places { IfOk result (λ v. v.items ≡ range_with_len 0 count) }
    ensures few { IfOk result (λ v. length v.items < 2 ^ 64) }
{
    let mut places = Vec::new(alloc);
    for place in 0..count {
        places.push(place)?;
    }
    Ok(places)
}

// The regions at k of classes by place.
fn closed_parts(
    alloc: Global,
    near: &[Items<bool>],
    classes: &[usize],
    degrees: &[usize],
    k: usize,
) -> Result<Items<Part>, Memory>
    requires table { IsTable (apart_in near.now) classes.now }
    requires degrees { AreDegrees (apart_in near.now) classes.now degrees.now }
    ensures regions { IfOk result (λ r. regions_of r ≡ regions_at (apart_in near.now) classes.now k) }
    ensures kept { IfOk result (λ r. AreKept (apart_in near.now) classes.now r) }
{
    let mut parts = alone(alloc, near, classes)?;
    close(alloc, near, classes, degrees, k, &mut parts)?;
    Ok(parts)
}

// The grown regions at k of classes by place.
fn grown_parts(
    alloc: Global,
    near: &[Items<bool>],
    classes: &[usize],
    degrees: &[usize],
    k: usize,
) -> Result<Items<Part>, Memory>
    requires table { IsTable (apart_in near.now) classes.now }
    requires degrees { AreDegrees (apart_in near.now) classes.now degrees.now }
    ensures { IfOk result (λ r. regions_of r ≡ grown_regions (apart_in near.now) classes.now k) }
{
    let mut parts = closed_parts(alloc, near, classes, degrees, k)?;
    grow(alloc, near, classes, degrees, k, &mut parts)?;
    Ok(parts)
}

fn named_region(alloc: Global, terms: &[TermId], region: &[usize]) -> Result<Items<usize>, Memory>
    ensures { IfOk result (λ r. r ≡ map (number_at (numbers terms.now)) region.now) }
{
    let mut named = Items::new(alloc);
    for c in region {
        named.push(term_at(terms, *c).0)?;
    }
    Ok(named)
}

// The regions by the numbers of their terms.
fn named_regions(
    alloc: Global,
    terms: &[TermId],
    parts: &[Part],
) -> Result<Items<Items<usize>>, Memory>
    ensures { IfOk result (λ r. r ≡ map (map (number_at (numbers terms.now))) (regions_of parts.now)) }
{
    let mut named = Items::new(alloc);
    for part in parts {
        named.push(named_region(alloc, terms, part.classes.as_slice())?)?;
    }
    Ok(named)
}

// Each class by itself.
fn single_regions(alloc: Global, terms: &[TermId]) -> Result<Items<Items<usize>>, Memory>
    ensures { IfOk result (λ r. r ≡ map (λ c. c ∷ []) (numbers terms.now)) }
{
    let mut regions = Items::new(alloc);
    for term in terms {
        let mut region = Items::new(alloc);
        region.push(term.0)?;
        regions.push(region)?;
    }
    Ok(regions)
}

// The regions of classes by the pairs of places that are apart.
fn paired_regions(alloc: Global, source: &Source) -> Result<Items<Items<usize>>, Memory>
    requires ascending { IsAscending source.now.terms.items }
    requires below { All (IsPairBelow (length source.now.terms.items)) source.now.pairs.items }
    ensures { IfOk result (AreMadeFrom (parts source.now)) }
{
    let terms = source.terms.as_slice();
    let table = rows(alloc, terms.len(), source.pairs.as_slice())?;
    let near = table.as_slice();
    let list = places(alloc, terms.len())?;
    let classes = list.as_slice();
    let row_sums = degrees(alloc, near, classes)?;
    let k = source.k as usize;
    let parts = closed_parts(alloc, near, classes, row_sums.as_slice(), k)?;
    let regions = named_regions(alloc, terms, parts.as_slice())?;
    Ok(regions)
}

// The regions of classes. Where there are at most k, each is by itself, whichever are apart.
fn made_regions(alloc: Global, source: &Source) -> Result<Items<Items<usize>>, Memory>
    requires ascending { IsAscending source.now.terms.items }
    requires below { All (IsPairBelow (length source.now.terms.items)) source.now.pairs.items }
    ensures { IfOk result (AreMadeFrom (parts source.now)) }
{
    if source.terms.len() as u64 <= source.k {
        let regions = single_regions(alloc, source.terms.as_slice())?;
        return Ok(regions);
    }
    paired_regions(alloc, source)
}

// The grown regions of classes by the pairs of places that are apart, and what they answer.
fn paired_grown(alloc: Global, source: &Source) -> Result<(Items<Items<usize>>, Strong), Memory>
    requires ascending { IsAscending source.now.terms.items }
    requires below { All (IsPairBelow (length source.now.terms.items)) source.now.pairs.items }
    ensures { IfOk result (λ r. AreGrownFrom (parts source.now) r.0 r.1) }
{
    let terms = source.terms.as_slice();
    let table = rows(alloc, terms.len(), source.pairs.as_slice())?;
    let near = table.as_slice();
    let list = places(alloc, terms.len())?;
    let classes = list.as_slice();
    let row_sums = degrees(alloc, near, classes)?;
    let k = source.k as usize;
    let parts = grown_parts(alloc, near, classes, row_sums.as_slice(), k)?;
    let found = answer(alloc, near, terms, k, parts.as_slice())?;
    let regions = named_regions(alloc, terms, parts.as_slice())?;
    Ok((regions, found))
}

// The same. Where there are at most k classes, each is by itself and the sort fits, whichever are apart.
pub(crate) fn grown(alloc: Global, source: &Source) -> Result<(Items<Items<usize>>, Strong), Memory>
    requires ascending { IsAscending source.now.terms.items }
    requires below { All (IsPairBelow (length source.now.terms.items)) source.now.pairs.items }
    ensures { IfOk result (λ r. AreGrownFrom (parts source.now) r.0 r.1) }
{
    if source.terms.len() as u64 <= source.k {
        let regions = single_regions(alloc, source.terms.as_slice())?;
        return Ok((regions, Strong::Fits));
    }
    paired_grown(alloc, source)
}

fn newest_level(opened: &[usize]) -> usize
    ensures { result ≡ newest opened.now }
{
    match opened.last() {
        Some(at) => *at,
        None => 0,
    }
}

// In place of the contents above the newest level.
fn put(
    made: &mut Vec<Items<Items<usize>>>,
    keep: usize,
    regions: Items<Items<usize>>,
) -> Result<(), Memory>
    ensures put { OnOk result (made.new.items ≡ take keep made.old.items ++ regions ∷ []) }
    ensures err { OnErr result (made.new.items ≡ made.old.items) }
{
    made.reserve(1)?;
    made.truncate(keep);
    made.push_reserved(regions);
    Ok(())
}

// Where regions go, what the last were made from isn't known.
fn forget_if(source: &mut Option<Source>, at: usize, count: usize)
    ensures { source.new ≡ (if nat_lt at count then None else source.old) }
{
    if at < count {
        *source = None;
    }
}

fn first_large_place(k: u64, regions: &[Items<usize>]) -> Option<usize>
    ensures { result ≡ position (λ r. is_large k r) regions.now }
{
    regions.iter().position(|region| k < region.len() as u64)
}

// The newest content.
fn present(made: &[Items<Items<usize>>]) -> &[Items<usize>]
    ensures { result.now ≡ last_of made.now }
{
    match made.last() {
        Some(regions) => regions.as_slice(),
        None => &[],
    }
}

impl Regions {
    /// No regions, of no classes, and no open level.
    pub fn new(alloc: Global, sort: SortId) -> Regions
        ensures { result ≡ nothing_followed sort }
    {
        Regions {
            alloc,
            sort,
            made: Vec::new(alloc),
            opened: Vec::new(alloc),
            source: None,
        }
    }

    /// Afterwards the regions are those at k of the sort's classes in a settled graph. Where the last ones were made of the
    /// same classes with the same pairs apart, at this k, they stay; else they are made anew.
    pub fn follow(&mut self, graph: &Egraph, k: u64) -> Result<(), Memory>
        requires settled { IsSettled graph.now }
        ensures regions { OnOk result (AreRegionsOf graph.now self.old.sort k self.new.regions) }
        ensures levels { self.new.levels ≡ self.old.levels }
        ensures sort { self.new.sort ≡ self.old.sort }
        ensures err { OnErr result (self.new ≡ self.old) }
    {
        let terms = graph.classes(self.sort)?;
        let source = source_of(self.alloc, graph, self.sort, k, terms)?;
        if is_last(&self.source, &source) {
            return Ok(());
        }
        let regions = made_regions(self.alloc, &source)?;
        let keep = newest_level(self.opened.as_slice());
        put(&mut self.made, keep, regions)?;
        self.source = Some(source);
        Ok(())
    }

    #[cfg(test)]
    pub(crate) fn present(&self) -> &[Items<usize>]
        ensures { result.now ≡ self.now.regions }
    {
        present(self.made.as_slice())
    }

    /// The first region of more than k classes. Clear where there is none. It takes no memory.
    pub fn weak(&self, k: u64) -> Weak
        ensures { result ≡ weak_of (position (λ r. is_large k r) self.now.regions) }
    {
        match first_large_place(k, present(self.made.as_slice())) {
            Some(i) => Weak::Test(i),
            None => Weak::Clear,
        }
    }

    /// Whether the sort has at most k classes, and else a test. Afterwards the regions are the grown ones, and the test is the
    /// first k + 1 classes of the first region of more than k. The next `follow` forgets them.
    pub fn strong(&mut self, graph: &Egraph, k: u64) -> Result<Strong, Memory>
        requires settled { IsSettled graph.now }
        ensures regions { OnOk result (AreGrownOf graph.now self.old.sort k self.new.regions) }
        ensures answer { IfOk result (IsStrongOf graph.now self.old.sort k) }
        ensures levels { self.new.levels ≡ self.old.levels }
        ensures sort { self.new.sort ≡ self.old.sort }
        ensures err { OnErr result (self.new ≡ self.old) }
    {
        let terms = graph.classes(self.sort)?;
        let source = source_of(self.alloc, graph, self.sort, k, terms)?;
        let (regions, found) = grown(self.alloc, &source)?;
        let keep = newest_level(self.opened.as_slice());
        put(&mut self.made, keep, regions)?;
        self.source = None;
        Ok(found)
    }
}

impl Undo for Regions {
    ghost Content = { List (List ℕ) };

    ghost content = { λ r. r.regions };

    ghost levels = { λ r. r.levels };

    fn mark(&mut self) -> Result<usize, Memory>
        ensures number { IfOk result (λ n. n ≡ length self.old.levels) }
        ensures opened { OnOk result (self.new.levels ≡ self.old.levels ++ self.old.regions ∷ []) }
        ensures same { self.new.regions ≡ self.old.regions }
        ensures err { OnErr result (self.new.levels ≡ self.old.levels) }
        ensures sort { self.new.sort ≡ self.old.sort }
    {
        let level = self.opened.len();
        self.opened.push(self.made.len())?;
        Ok(level)
    }

    fn undo_to(&mut self, level: usize)
        requires { level < length self.old.levels }
        ensures levels { self.new.levels ≡ take level self.old.levels }
        ensures content { slice_get self.old.levels level ≡ Some self.new.regions }
        ensures sort { self.new.sort ≡ self.old.sort }
    {
        let at = self.opened[level];
        forget_if(&mut self.source, at, self.made.len());
        self.made.truncate(at);
        self.opened.truncate(level);
    }
}
