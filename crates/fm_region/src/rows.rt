ghost use Rattle.std.specs.Prelude.{◌≡◌, ◌<◌, ◌++◌, length, IfOk, OnOk};
ghost use Rattle.std.specs.List.{All};
ghost use Rattle.fm_bank.specs.Terms.{numbers};
ghost use Rattle.fm_cong.specs.Held.{IsRegistered, IsSettled};
ghost use Rattle.fm_cong.specs.Types.{AreOldest};
ghost use Rattle.fm_region.specs.Rows.{AreEmptyRows, ArePlaced, AreRowsBy, IsEmptyRow, IsGrid, IsPairBelow, IsPlaceOf, Marks, MarksBoth, both_places};

use fm_base::{Memory, SortId, TermId};
use fm_cells::find;
use fm_cong::Egraph;
use sqlite_items::Items;
use std::alloc::Global;

// The place of the class of a term among those of a sort; None where the term is of another sort.
fn place_of(graph: &Egraph, _sort: SortId, terms: &[TermId], term: TermId) -> Option<usize>
    requires settled { IsSettled graph.now }
    requires oldest { AreOldest graph.now _sort terms.now }
    requires term { IsRegistered graph.now.shapes term.0 }
    ensures { IsPlaceOf graph.now (numbers terms.now) term.0 result }
{
    let oldest = graph.oldest_of(term);
    find(terms, oldest.0)
}

// Puts a pair of places behind the others, where both are.
fn put_pair(
    pairs: &mut Vec<(usize, usize)>,
    a: Option<usize>,
    b: Option<usize>,
) -> Result<(), Memory>
    ensures { OnOk result (pairs.new.items ≡ pairs.old.items ++ both_places a b) }
{
    match (a, b) {
        (Some(c), Some(d)) => {
            pairs.push((c, d))?;
        }
        _ => {}
    }
    Ok(())
}

// The places of the classes that are apart, a pair for each pair of unequal terms of the sort.
pub(crate) fn place_pairs(
    alloc: Global,
    graph: &Egraph,
    sort: SortId,
    terms: &[TermId],
) -> Result<Vec<(usize, usize)>, Memory>
    requires settled { IsSettled graph.now }
    requires oldest { AreOldest graph.now sort terms.now }
    ensures placed { IfOk result (λ v. ArePlaced graph.now (numbers terms.now) v.items) }
    ensures below { IfOk result (λ v. All (IsPairBelow (length terms.now)) v.items) }
{
    let mut placed = Vec::new(alloc);
    let pairs = graph.unequal_pairs();
    for pair in pairs {
        let a = place_of(graph, sort, terms, pair.0);
        let b = place_of(graph, sort, terms, pair.1);
        put_pair(&mut placed, a, b)?;
    }
    Ok(placed)
}

// A row in which nothing is marked.
fn empty_row(alloc: Global, count: usize) -> Result<Items<bool>, Memory>
    ensures { IfOk result (IsEmptyRow count) }
{
    let mut row = Items::new(alloc);
    for _place in 0..count {
        row.push(false)?;
    }
    Ok(row)
}

fn empty_rows(alloc: Global, count: usize) -> Result<Vec<Items<bool>>, Memory>
    ensures { IfOk result (λ v. AreEmptyRows count v.items) }
{
    let mut rows = Vec::new(alloc);
    for _place in 0..count {
        rows.push(empty_row(alloc, count)?)?;
    }
    Ok(rows)
}

fn mark(rows: &mut Vec<Items<bool>>, count: usize, c: usize, d: usize)
    requires grid { IsGrid count rows.old.items }
    requires c { c < count }
    requires d { d < count }
    ensures grid { IsGrid count rows.new.items }
    ensures marked { Marks count rows.old.items rows.new.items c d }
{
    rows[c].set(d, true);
}

// Marks two classes as apart.
fn mark_both(rows: &mut Vec<Items<bool>>, count: usize, c: usize, d: usize)
    requires grid { IsGrid count rows.old.items }
    requires c { c < count }
    requires d { d < count }
    ensures grid { IsGrid count rows.new.items }
    ensures marked { MarksBoth count rows.old.items rows.new.items c d }
{
    mark(rows, count, c, d);
    mark(rows, count, d, c);
}

// Which of so many classes are apart, a row for each.
pub(crate) fn rows(
    alloc: Global,
    count: usize,
    pairs: &[(usize, usize)],
) -> Result<Vec<Items<bool>>, Memory>
    requires { All (IsPairBelow count) pairs.now }
    ensures { IfOk result (λ v. AreRowsBy count pairs.now v.items) }
{
    let mut rows = empty_rows(alloc, count)?;
    for pair in pairs {
        mark_both(&mut rows, count, pair.0, pair.1);
    }
    Ok(rows)
}
