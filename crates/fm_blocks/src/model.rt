ghost use Rattle.std.specs.Prelude.{◌≡◌, ◌+◌, ◌<◌, ◌^◌, ◌&&◌, not, length, nat_le, None, Some};
ghost use Rattle.std.specs.List.{list_all};
ghost use Rattle.std.specs.Ordering.{is_lt, nat_cmp};
ghost use Rattle.std.specs.Cmp.Lexicographic.{slice_cmp};
ghost use Rattle.fm_base.specs.Interpretations.{is_exception, is_tuple, reading_of, values_of};
ghost use Rattle.fm_blocks.specs.ModelLines.{are_sizes, bad_exception, bad_in_model, bad_in_table, bad_in_tables, is_default, is_exception_after, lines_of_table, lines_of_tables};

use fm_base::{Interp, Rank, Sig, SortId, Table, Ty};
use sqlite_items::Items;
use std::cmp::Ordering;

// How many values a type has.
fn count(model: &Interp, ty: Ty) -> u64
    ensures { result ≡ values_of (reading_of model.now) ty }
{
    match ty {
        Ty::Bool => 2,
        Ty::Of(SortId(sort)) => model.sizes.as_slice().get(sort).copied().unwrap_or(0),
    }
}

fn is_tuple(model: &Interp, types: &[Ty], tuple: &[u64]) -> bool
    ensures { result ≡ is_tuple (reading_of model.now) types.now tuple.now }
{
    if types.len() != tuple.len() {
        return false;
    }
    for (i, value) in tuple.iter().enumerate() {
        if *value >= count(model, types[i]) {
            return false;
        }
    }
    true
}

fn is_exception(model: &Interp, rank: &Rank, default: u64, exception: &(Items<u64>, u64)) -> bool
    ensures { result ≡ is_exception (reading_of model.now) rank.now default exception.now }
{
    is_tuple(model, rank.args.as_slice(), exception.0.as_slice())
        && exception.1 < count(model, rank.result)
        && exception.1 != default
}

fn precedes(before: &[u64], tuple: &[u64]) -> bool
    ensures { result ≡ is_lt (slice_cmp nat_cmp before.now tuple.now) }
{
    before.cmp(tuple) == Ordering::Less
}

fn is_first_exception(
    model: &Interp,
    rank: &Rank,
    default: u64,
    exception: &(Items<u64>, u64),
) -> bool
    ensures { result ≡ is_exception_after (reading_of model.now) rank.now default None exception.now }
{
    !rank.args.is_empty() && is_exception(model, rank, default, exception)
}

fn is_later_exception(
    model: &Interp,
    rank: &Rank,
    default: u64,
    before: &[u64],
    exception: &(Items<u64>, u64),
) -> bool
    ensures { result ≡ is_exception_after (reading_of model.now) rank.now default (Some before.now) exception.now }
{
    !rank.args.is_empty()
        && is_exception(model, rank, default, exception)
        && precedes(before, exception.0.as_slice())
}

// The first line `x` that isn't good, behind a good one.
fn bad_behind(
    model: &Interp,
    rank: &Rank,
    default: u64,
    at: u64,
    first: &[u64],
    rest: &[(Items<u64>, u64)],
) -> Option<u64>
    requires room { at + length rest.now < 2 ^ 64 }
    ensures { result ≡ bad_exception (reading_of model.now) rank.now default at (Some first.now) rest.now }
{
    let mut before = first;
    let mut line = at;
    for exception in rest {
        if !is_later_exception(model, rank, default, before, exception) {
            return Some(line);
        }
        before = exception.0.as_slice();
        line += 1;
    }
    None
}

// The first line `x` that isn't good.
fn bad_exception(
    model: &Interp,
    rank: &Rank,
    default: u64,
    at: u64,
    except: &[(Items<u64>, u64)],
) -> Option<u64>
    requires room { at + length except.now < 2 ^ 64 }
    ensures { result ≡ bad_exception (reading_of model.now) rank.now default at None except.now }
{
    let Some((first, rest)) = except.split_first() else {
        return None;
    };
    if !is_first_exception(model, rank, default, first) {
        return Some(at);
    }
    bad_behind(model, rank, default, at + 1, first.0.as_slice(), rest)
}

fn bad_in_table(model: &Interp, rank: &Rank, at: u64, table: &Table) -> Option<u64>
    requires room { at + lines_of_table table.now < 2 ^ 64 }
    ensures { result ≡ bad_in_table (reading_of model.now) rank.now at table.now }
{
    if table.default >= count(model, rank.result) {
        return Some(at);
    }
    bad_exception(model, rank, table.default, at + 1, table.except.as_slice())
}

fn bad_in_tables(model: &Interp, at: u64, ranks: &[Rank], tables: &[Table]) -> Option<u64>
    requires whole { length tables.now ≡ length ranks.now }
    requires room { at + lines_of_tables tables.now < 2 ^ 64 }
    ensures { result ≡ bad_in_tables (reading_of model.now) at ranks.now tables.now }
{
    let mut line = at;
    for (i, table) in tables.iter().enumerate() {
        if let Some(bad) = bad_in_table(model, &ranks[i], line, table) {
            return Some(bad);
        }
        line = line + 1 + table.except.len() as u64;
    }
    None
}

fn are_inhabited(sizes: &[u64]) -> bool
    ensures { result ≡ list_all (λ k. nat_le 1 k) sizes.now }
{
    sizes.iter().all(|size| 1 <= *size)
}

fn are_sizes(sig: &Sig, model: &Interp) -> bool
    ensures { result ≡ are_sizes sig.now model.now }
{
    model.sizes.len() == sig.sorts
        && are_inhabited(model.sizes.as_slice())
        && model.tables.len() == sig.ranks.len()
}

/// The first line of a model that isn't good, where its line `z` is the line `at`.
pub(crate) fn bad_in_model(sig: &Sig, at: u64, model: &Interp) -> Option<u64>
    requires room { at + 1 + lines_of_tables model.now.tables < 2 ^ 64 }
    ensures { result ≡ bad_in_model sig.now at model.now }
{
    if !are_sizes(sig, model) {
        return Some(at);
    }
    bad_in_tables(model, at + 1, sig.ranks.as_slice(), model.tables.as_slice())
}
