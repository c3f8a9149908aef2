ghost use Rattle.std.specs.Prelude.{◌≡◌, true, slice_index};
ghost use Rattle.fm_base.specs.Interpretations.{reading_of, entry_in, ascends};
ghost use Rattle.fm_inst.specs.Lookup.{tables_ascend};

use fm_base::{Interp, SortId, SymId, Table};
use std::cmp::Ordering;

pub(crate) fn size(interp: &Interp, sort: SortId) -> u64
    ensures { result ≡ slice_index interp.now.sizes sort.0 }
{
    interp.sizes.as_slice().get(sort.0).copied().unwrap_or(0)
}

pub(crate) fn apply(interp: &Interp, symbol: SymId, tuple: &[u64]) -> u64
    requires { tables_ascend interp.now ≡ true }
    ensures { result ≡ (reading_of interp.now).at symbol.0 tuple.now }
{
    match interp.tables.as_slice().get(symbol.0) {
        Some(table) => entry(table, tuple),
        None => 0,
    }
}

// A binary search.
fn entry(table: &Table, tuple: &[u64]) -> u64
    requires { ascends table.now.except ≡ true }
    ensures { result ≡ entry_in table.now.default table.now.except tuple.now }
{
    let except = table.except.as_slice();
    let mut low = 0;
    let mut high = except.len();
    while low < high {
        let middle = low + (high - low) / 2;
        let exception = &except[middle];
        match exception.0.as_slice().cmp(tuple) {
            Ordering::Less => low = middle + 1,
            Ordering::Equal => return exception.1,
            Ordering::Greater => high = middle,
        }
    }
    table.default
}
