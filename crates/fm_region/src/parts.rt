ghost use Rattle.std.specs.Prelude.{◌≡◌, ◌≢◌, ◌+◌, ◌<◌, ◌≤◌, ◌∷◌, ◌||◌, [], ℕ, false, if◌then◌else◌, length, map, max, min, slice_set, IfOk, OnOk};
ghost use Rattle.std.specs.List.{count_by, filter, range_with_len, remove, slice_index_or};
ghost use Rattle.fm_region.specs.Parts.{AreKept, AreMarked, IsTable, apart_from, count_at, no_part, part_at, put_joined, alone_part, regions_of, sum_at};
ghost use Rattle.fm_bank.specs.Regions.{after_join, is_in, joined};
ghost use Rattle.fm_region.specs.Rows.{apart_in};

use fm_base::Memory;
use sqlite_items::Items;
use std::alloc::Global;

// A region by place: its classes, and by place the number of its classes from which a class is apart.
#[derive(Drop)]
pub(crate) struct Part {
    pub(crate) classes: Items<usize>,
    pub(crate) inside: Items<usize>,
}

// Whether two classes are apart.
pub(crate) fn is_apart(near: &[Items<bool>], c: usize, d: usize) -> bool
    ensures { result ≡ apart_in near.now c d }
{
    match near.get(c) {
        Some(row) => row.as_slice().get(d).copied().unwrap_or(false),
        None => false,
    }
}

pub(crate) fn count(counts: &[usize], c: usize) -> usize
    ensures { result ≡ count_at counts.now c }
{
    counts.get(c).copied().unwrap_or(0)
}

// From how many classes a class is apart.
fn degree(near: &[Items<bool>], classes: &[usize], c: usize) -> usize
    ensures { result ≡ apart_from (apart_in near.now) classes.now c }
{
    classes.iter().filter(|d| is_apart(near, c, **d)).count()
}

pub(crate) fn degrees(
    alloc: Global,
    near: &[Items<bool>],
    classes: &[usize],
) -> Result<Items<usize>, Memory>
    ensures { IfOk result (λ r. r ≡ map (apart_from (apart_in near.now) classes.now) classes.now) }
{
    let mut degrees = Items::new(alloc);
    for c in classes {
        degrees.push(degree(near, classes, *c))?;
    }
    Ok(degrees)
}

// By place whether a class is apart from this one, as a number.
fn column(
    alloc: Global,
    near: &[Items<bool>],
    classes: &[usize],
    c: usize,
) -> Result<Items<usize>, Memory>
    ensures { IfOk result (λ r. r ≡ map (λ d. if apart_in near.now d c then 1 else 0) classes.now) }
{
    let mut column = Items::new(alloc);
    for d in classes {
        column.push(usize::from(is_apart(near, *d, c)))?;
    }
    Ok(column)
}

fn single(alloc: Global, near: &[Items<bool>], classes: &[usize], c: usize) -> Result<Part, Memory>
    ensures { IfOk result (λ p. p ≡ alone_part (apart_in near.now) classes.now c) }
{
    let mut region = Items::new(alloc);
    region.push(c)?;
    let inside = column(alloc, near, classes, c)?;
    Ok(Part {
        classes: region,
        inside,
    })
}

// Each class by itself.
pub(crate) fn alone(
    alloc: Global,
    near: &[Items<bool>],
    classes: &[usize],
) -> Result<Items<Part>, Memory>
    ensures { IfOk result (λ r. r ≡ map (alone_part (apart_in near.now) classes.now) classes.now) }
{
    let mut parts = Items::new(alloc);
    for c in classes {
        parts.push(single(alloc, near, classes, *c)?)?;
    }
    Ok(parts)
}

// No class is marked.
fn unmarked(alloc: Global, classes: &[usize]) -> Result<Vec<bool>, Memory>
    ensures { IfOk result (λ v. v.items ≡ map (λ c. false) classes.now) }
{
    let mut marks = Vec::new(alloc);
    for _c in classes {
        marks.push(false)?;
    }
    Ok(marks)
}

fn mark_all(marks: &mut Vec<bool>, region: &[usize])
    ensures length { length marks.new.items ≡ length marks.old.items }
    ensures marked { AreMarked marks.old.items marks.new.items region.now }
{
    for c in region {
        if *c < marks.len() {
            marks[*c] = true;
        }
    }
}

// The classes of two regions, in the order of all classes.
fn join(
    alloc: Global,
    classes: &[usize],
    region: &[usize],
    other: &[usize],
) -> Result<Items<usize>, Memory>
    requires { classes.now ≡ range_with_len 0 (length classes.now) }
    ensures { IfOk result (λ r. r ≡ joined classes.now region.now other.now) }
{
    let mut marks = unmarked(alloc, classes)?;
    mark_all(&mut marks, region);
    mark_all(&mut marks, other);
    let both = marked(alloc, classes, marks.as_slice())?;
    Ok(both)
}

fn marked(alloc: Global, classes: &[usize], marks: &[bool]) -> Result<Items<usize>, Memory>
    ensures { IfOk result (λ r. r ≡ filter (λ c. slice_index_or marks.now c false) classes.now) }
{
    let mut both = Items::new(alloc);
    for c in classes {
        if marks.get(*c).copied().unwrap_or(false) {
            both.push(*c)?;
        }
    }
    Ok(both)
}

fn sums(alloc: Global, classes: &[usize], a: &[usize], b: &[usize]) -> Result<Items<usize>, Memory>
    ensures { IfOk result (λ r. r ≡ map (sum_at a.now b.now) classes.now) }
{
    let mut sums = Items::new(alloc);
    for c in classes {
        sums.push(count(a, *c).saturating_add(count(b, *c)))?;
    }
    Ok(sums)
}

fn joined_part(alloc: Global, classes: &[usize], a: &Part, b: &Part) -> Result<Part, Memory>
    requires { classes.now ≡ range_with_len 0 (length classes.now) }
    ensures classes { IfOk result (λ p. p.classes ≡ joined classes.now a.now.classes b.now.classes) }
    ensures inside { IfOk result (λ p. p.inside ≡ map (sum_at a.now.inside b.now.inside) classes.now) }
{
    let region = join(alloc, classes, a.classes.as_slice(), b.classes.as_slice())?;
    let inside = sums(alloc, classes, a.inside.as_slice(), b.inside.as_slice())?;
    Ok(Part {
        classes: region,
        inside,
    })
}

// Makes one region of two.
pub(crate) fn merge(
    alloc: Global,
    _near: &[Items<bool>],
    classes: &[usize],
    parts: &mut Items<Part>,
    i: usize,
    j: usize,
) -> Result<(), Memory>
    requires table { IsTable (apart_in _near.now) classes.now }
    requires kept { AreKept (apart_in _near.now) classes.now parts.old }
    requires i { i < length parts.old }
    requires j { j < length parts.old }
    requires differ { i ≢ j }
    ensures joined { OnOk result (regions_of parts.new ≡ after_join classes.now (regions_of parts.old) i j) }
    ensures kept { OnOk result (AreKept (apart_in _near.now) classes.now parts.new) }
{
    let all = parts.as_slice();
    let both = joined_part(alloc, classes, &all[i], &all[j])?;
    parts.set(i.min(j), both);
    parts.remove(i.max(j));
    Ok(())
}
