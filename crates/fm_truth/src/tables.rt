ghost use Rattle.std.specs.Prelude.{◌≡◌, ℕ, List, slice_index, nat_le, ◌&&◌};
ghost use Rattle.std.specs.List.{list_all};
ghost use Rattle.fm_base.specs.Interpretations.{reading_of, values_of, is_tuple, is_exception, is_table, are_tables, ascends, names_its_sorts, is_sort_of, is_fit};

use fm_base::{Interp, Rank, Sig, SortId, Table, Ty};
use sqlite_items::Items;
use std::cmp::Ordering;

/// Tells whether the tables are an interpretation of the signature, each in its one form, and whether the
/// ranks of the signature name its sorts. It takes no memory.
pub fn fits(sig: &Sig, interp: &Interp) -> bool
    ensures { result ≡ is_fit sig.now interp.now }
{
    names_sorts(sig)
        && interp.sizes.len() == sig.sorts
        && are_inhabited(interp.sizes.as_slice())
        && have_tables(interp, sig.ranks.as_slice(), interp.tables.as_slice())
}

fn are_inhabited(sizes: &[u64]) -> bool
    ensures { result ≡ list_all (λ k. nat_le 1 k) sizes.now }
{
    sizes.iter().all(|size| 1 <= *size)
}

fn names_sorts(sig: &Sig) -> bool
    ensures { result ≡ names_its_sorts sig.now }
{
    sig.ranks
        .as_slice()
        .iter()
        .all(|rank| rank_names_sorts(sig.sorts, rank))
}

fn rank_names_sorts(sorts: usize, rank: &Rank) -> bool
    ensures { result ≡ (list_all (is_sort_of sorts) rank.now.args && is_sort_of sorts rank.now.result) }
{
    are_sorts(sorts, rank.args.as_slice()) && is_sort(sorts, rank.result)
}

fn are_sorts(sorts: usize, types: &[Ty]) -> bool
    ensures { result ≡ list_all (is_sort_of sorts) types.now }
{
    types.iter().all(|ty| is_sort(sorts, *ty))
}

fn is_sort(sorts: usize, ty: Ty) -> bool
    ensures { result ≡ is_sort_of sorts ty }
{
    match ty {
        Ty::Bool => true,
        Ty::Of(sort) => sort.0 < sorts,
    }
}

// How many values a type has.
fn count(interp: &Interp, ty: Ty) -> u64
    ensures { result ≡ values_of (reading_of interp.now) ty }
{
    match ty {
        Ty::Bool => 2,
        Ty::Of(SortId(sort)) => interp.sizes.as_slice().get(sort).copied().unwrap_or(0),
    }
}

fn is_of_types(interp: &Interp, types: &[Ty], tuple: &[u64]) -> bool
    ensures { result ≡ is_tuple (reading_of interp.now) types.now tuple.now }
{
    if types.len() != tuple.len() {
        return false;
    }
    for (i, value) in tuple.iter().enumerate() {
        if *value >= count(interp, types[i]) {
            return false;
        }
    }
    true
}

fn is_exception_of(
    interp: &Interp,
    rank: &Rank,
    default: u64,
    exception: &(Items<u64>, u64),
) -> bool
    ensures { result ≡ is_exception (reading_of interp.now) rank.now default exception.now }
{
    is_of_types(interp, rank.args.as_slice(), exception.0.as_slice())
        && exception.1 < count(interp, rank.result)
        && exception.1 != default
}

fn are_exceptions(interp: &Interp, rank: &Rank, default: u64, except: &[(Items<u64>, u64)]) -> bool
    ensures { result ≡ list_all (is_exception (reading_of interp.now) rank.now default) except.now }
{
    except.iter().all(|exception| is_exception_of(interp, rank, default, exception))
}

fn ascend(except: &[(Items<u64>, u64)]) -> bool
    ensures { result ≡ ascends except.now }
{
    let Some((first, rest)) = except.split_first() else {
        return true;
    };
    let mut last = first.0.as_slice();
    for exception in rest {
        if last.cmp(exception.0.as_slice()) != Ordering::Less {
            return false;
        }
        last = exception.0.as_slice();
    }
    true
}

fn is_table_of(interp: &Interp, rank: &Rank, table: &Table) -> bool
    ensures { result ≡ is_table (reading_of interp.now) rank.now table.now }
{
    table.default < count(interp, rank.result)
        && are_exceptions(interp, rank, table.default, table.except.as_slice())
        && ascend(table.except.as_slice())
        && (!rank.args.is_empty() || table.except.is_empty())
}

fn have_tables(interp: &Interp, ranks: &[Rank], tables: &[Table]) -> bool
    ensures { result ≡ are_tables (reading_of interp.now) ranks.now tables.now }
{
    if ranks.len() != tables.len() {
        return false;
    }
    for (i, table) in tables.iter().enumerate() {
        if !is_table_of(interp, &ranks[i], table) {
            return false;
        }
    }
    true
}
