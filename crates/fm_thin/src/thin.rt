ghost use Rattle.std.specs.Prelude.{◌≡◌, ◌&&◌, [], None, cond, slice_get};
ghost use Rattle.std.specs.List.{list_all};
ghost use Rattle.fm_base.specs.Interpretations.{is_nil, is_sort_of as is_sort_of_these, names_its_sorts as names_its_sorts_of};
ghost use Rattle.fm_base.specs.Truth.{result_of};
ghost use Rattle.fm_thin.specs.Thin.{are_thin as are_thin_of, clauses_in as clauses_in_of, constant_sort as constant_sort_of, falsity_in, is_never as is_never_of, is_thin as is_thin_of, kind_of, truth_kind as truth_kind_of};

use fm_base::{Formula, Fterm, Rank, Sig, SortId, SymId, Ty, have_one_sort};
use sqlite_items::Items;

/// What an assertion is here: `true`, `false`, an equation of two constants of one sort, or another formula.
#[derive(Clone, Copy, Debug)]
pub(crate) enum Kind {
    Always,
    Never,
    Equation,
    Other,
}

fn is_sort_of(sorts: usize, ty: Ty) -> bool
    ensures { result ≡ is_sort_of_these sorts ty }
{
    match ty {
        Ty::Bool => true,
        Ty::Of(sort) => sort.0 < sorts,
    }
}

fn are_sorts(sorts: usize, types: &[Ty]) -> bool
    ensures { result ≡ list_all (is_sort_of_these sorts) types.now }
{
    types.iter().all(|ty| is_sort_of(sorts, *ty))
}

fn names_sorts(sorts: usize, rank: &Rank) -> bool
    ensures { result ≡ list_all (is_sort_of_these sorts) rank.now.args && is_sort_of_these sorts rank.now.result }
{
    are_sorts(sorts, rank.args.as_slice()) && is_sort_of(sorts, rank.result)
}

fn names_its_sorts(sig: &Sig) -> bool
    ensures { result ≡ names_its_sorts_of sig.now }
{
    let sorts = sig.sorts;
    sig.ranks
        .as_slice()
        .iter()
        .all(|rank| names_sorts(sorts, rank))
}

fn constant_of(sig: &Sig, symbol: SymId) -> Option<SortId>
    ensures { result ≡ result_of [] (slice_get sig.now.ranks symbol.0) sig.now [] }
{
    match sig.ranks.get(symbol.0) {
        None => None,
        Some(rank) => {
            if rank.args.is_empty() {
                rank.result.sort()
            } else {
                None
            }
        }
    }
}

fn if_constant(sig: &Sig, symbol: SymId, args: &Items<Fterm>) -> Option<SortId>
    ensures { result ≡ cond (is_nil args.now) (result_of [] (slice_get sig.now.ranks symbol.0) sig.now []) None }
{
    match args.as_slice().split_first() {
        None => constant_of(sig, symbol),
        Some(_) => None,
    }
}

fn constant_sort(sig: &Sig, term: &Fterm) -> Option<SortId>
    ensures { result ≡ constant_sort_of term.now sig.now }
{
    match term {
        Fterm::Var(_) => None,
        Fterm::App(symbol, args) => if_constant(sig, *symbol, args),
        Fterm::Ite(..) => None,
    }
}

fn truth_kind(holds: bool) -> Kind
    ensures { result ≡ truth_kind_of holds }
{
    if holds { Kind::Always } else { Kind::Never }
}

fn kind_in(sig: &Sig, formula: &Formula) -> Kind
    ensures { result ≡ kind_of formula.now sig.now }
{
    match formula {
        Formula::Truth(holds) => truth_kind(*holds),
        Formula::Equal(left, right) => {
            if have_one_sort(constant_sort(sig, left), constant_sort(sig, right)) {
                Kind::Equation
            } else {
                Kind::Other
            }
        }
        _ => Kind::Other,
    }
}

fn is_thin(sig: &Sig, formula: &Formula) -> bool
    ensures { result ≡ is_thin_of sig.now formula.now }
{
    match kind_in(sig, formula) {
        Kind::Always | Kind::Never | Kind::Equation => true,
        Kind::Other => false,
    }
}

fn all_thin(sig: &Sig, assertions: &[Formula]) -> bool
    ensures { result ≡ list_all (is_thin_of sig.now) assertions.now }
{
    assertions.iter().all(|formula| is_thin(sig, formula))
}

/// Whether each assertion is a truth value or an equation of two constants of one sort, and the ranks of the signature
/// name its sorts.
pub fn are_thin(sig: &Sig, assertions: &[Formula]) -> bool
    ensures { result ≡ are_thin_of sig.now assertions.now }
{
    names_its_sorts(sig) && all_thin(sig, assertions)
}

fn is_never(kind: Kind) -> bool
    ensures { result ≡ is_never_of kind }
{
    match kind {
        Kind::Never => true,
        Kind::Always | Kind::Equation | Kind::Other => false,
    }
}

fn clauses_in(kind: Kind) -> usize
    ensures { result ≡ clauses_in_of kind }
{
    match kind {
        Kind::Equation => 1,
        Kind::Always | Kind::Never | Kind::Other => 0,
    }
}

/// The number of the clause of the first `false`, if there is one.
pub(crate) fn falsity(sig: &Sig, assertions: &[Formula]) -> Option<usize>
    ensures { result ≡ falsity_in sig.now assertions.now }
{
    let mut clauses = 0;
    for formula in assertions {
        let kind = kind_in(sig, formula);
        if is_never(kind) {
            return Some(clauses);
        }
        clauses += clauses_in(kind);
    }
    None
}
