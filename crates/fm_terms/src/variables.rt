ghost use Rattle.std.specs.Prelude.{◌≡◌, true, length, IfOk, IfSome};
ghost use Rattle.std.specs.Option.{option_copied};
ghost use Rattle.fm_levels.specs.Levels.{joined};
ghost use Rattle.fm_sexp.specs.Items.{spans_within, all_within};
ghost use Rattle.fm_script.specs.Commands.{name_of, parameters_of, place_of_item};
ghost use Rattle.fm_script.specs.Shown.{IsShownBy};
ghost use Rattle.fm_apply.specs.Scoped.{AllAreThere, Grows, IsMade, IsShown, IsThere, number_term, sorts_in, terms_at};
ghost use Rattle.fm_terms.specs.Elaborate.{quantified_at, variable_sort as variable_sort_of, variable_sort_in};
ghost use Rattle.fm_terms.specs.Elaborate.{variable_sorts, variables_at};
ghost use Rattle.fm_terms.specs.Scoped.{ArePairsWithin, Closes, names_of, parameters_from, shown_pairs, variables_from};

use crate::pairs::distinct_names;
use fm_apply::{Scope, refuse};
use fm_arena::Arena;
use fm_base::{Fail, Place, Reason, SortId, Ty};
use fm_levels::NameSet;
use fm_script::{Part, name, parameters, place};
use fm_sexp::Sexp;
use sqlite_items::Items;
use std::alloc::{AllocError, Global};

/// The variables of a block: their names, and the sort of each.
#[derive(Drop)]
pub struct Variables<'a> {
    pub names: NameSet<'a>,
    pub sorts: Items<SortId>,
}

/// The variables of a block with the items of their sorts; None where an item is none.
#[tactic(auto, using(crate::proofs::Nesting::parameters_are_within))]
pub(crate) fn variable_pairs<'a>(
    alloc: Global,
    text: &'a [u8],
    items: &'a [Sexp],
) -> Result<Option<Vec<(Part<'a>, &'a Sexp)>>, AllocError>
    requires { all_within (length text.now) items.now ≡ true }
    ensures value { IfOk result (IsShownBy (parameters_of text.now items.now) (λ v. shown_pairs v.items)) }
    ensures within { IfOk result (λ o. IfSome o (λ v. ArePairsWithin text.now (shown_pairs v.items))) }
{
    let found = parameters(alloc, text, items)?;
    Ok(found)
}

// The sort of a variable, of what stands for its name.
fn sort_found(found: Option<&Ty>, at: Place) -> Result<SortId, Fail>
    ensures { IsMade result (variable_sort_in at (option_copied found.entry)) }
{
    match found {
        None => Err(refuse(Reason::UnknownSort, at)),
        Some(Ty::Bool) => Err(refuse(Reason::BoolArgument, at)),
        Some(Ty::Of(sort)) => Ok(*sort),
    }
}

fn variable_sort(scope: &Scope<'_, '_>, item: &Sexp) -> Result<SortId, Fail>
    requires { spans_within (length scope.now.text.now) item.now ≡ true }
    ensures { IsMade result
        (variable_sort_of (sorts_in (joined scope.now.sorts.now)) (place_of_item item.now)
        (name_of scope.now.text.now item.now)) }
{
    match name(scope.text, item) {
        None => Err(refuse(Reason::SortArity, place(item))),
        Some(part) => {
            if part.bytes == b"Bool".as_slice() {
                return Err(refuse(Reason::BoolArgument, part.at));
            }
            sort_found(scope.sorts.get(part.bytes), part.at)
        }
    }
}

fn sorts_of(
    alloc: Global,
    scope: &Scope<'_, '_>,
    pairs: &[(Part, &Sexp)],
) -> Result<Items<SortId>, Fail>
    requires within { ArePairsWithin scope.now.text.now (shown_pairs pairs.now) }
    ensures { IsMade result (variable_sorts scope.now.text.now (sorts_in (joined scope.now.sorts.now)) (shown_pairs pairs.now)) }
{
    let mut sorts = Vec::new(alloc);
    for pair in pairs {
        match variable_sort(scope, pair.1) {
            Err(fail) => return Err(fail),
            Ok(sort) => sorts.push(sort)?,
        }
    }
    Ok(Items::from_vec(sorts))
}

/// The variables of a block: their sorts are looked at first, then their names.
pub(crate) fn block_variables<'a>(
    alloc: Global,
    scope: &Scope<'_, 'a>,
    at: Place,
    pairs: &[(Part<'a>, &'a Sexp)],
) -> Result<Variables<'a>, Fail>
    requires within { ArePairsWithin scope.now.text.now (shown_pairs pairs.now) }
    ensures sorts { IsShown (λ v. v.sorts) result
        (variables_at scope.now.text.now (sorts_in (joined scope.now.sorts.now)) at (shown_pairs pairs.now)) }
    ensures names { IfOk result (λ v. v.names ≡ names_of (shown_pairs pairs.now)) }
{
    if pairs.len() < 1 {
        return Err(refuse(Reason::BadShape, at));
    }
    match sorts_of(alloc, scope, pairs) {
        Err(fail) => Err(fail),
        Ok(sorts) => match distinct_names(alloc, pairs) {
            Err(fail) => Err(fail),
            Ok(names) => Ok(Variables { names, sorts }),
        },
    }
}

/// The numbers of the variables of a block, where the first one is the name at a place.
pub(crate) fn variable_names(
    alloc: Global,
    arena: &mut Arena,
    from: usize,
    sorts: &[SortId],
) -> Result<Items<usize>, Fail>
    ensures terms { IfOk result (λ is. terms_at arena.new is ≡ variables_from from sorts.now) }
    ensures grows { Grows arena.old arena.new }
    ensures below { IfOk result (AllAreThere arena.new) }
{
    let mut numbers = Vec::new(alloc);
    let mut place = from;
    for sort in sorts {
        match arena.name(place, Ty::Of(*sort)) {
            Err(_) => return Err(Fail::Memory),
            Ok(number) => numbers.push(number)?,
        }
        match place.checked_add(1) {
            None => return Err(Fail::Memory),
            Some(next) => place = next,
        }
    }
    Ok(Items::from_vec(numbers))
}

/// The numbers of parameters, which may be formulas.
pub(crate) fn parameter_names(
    alloc: Global,
    arena: &mut Arena,
    types: &[Ty],
) -> Result<Items<usize>, Fail>
    ensures terms { IfOk result (λ is. terms_at arena.new is ≡ parameters_from 0 types.now) }
    ensures grows { Grows arena.old arena.new }
    ensures below { IfOk result (AllAreThere arena.new) }
{
    let mut numbers = Vec::new(alloc);
    for place in 0..types.len() {
        match arena.name(place, types[place]) {
            Err(_) => return Err(Fail::Memory),
            Ok(number) => numbers.push(number)?,
        }
    }
    Ok(Items::from_vec(numbers))
}

/// A block over its body, which is a formula.
pub(crate) fn close(
    scope: &Scope<'_, '_>,
    arena: &mut Arena,
    all: bool,
    sorts: Items<SortId>,
    base: usize,
    number: usize,
    body: &Sexp,
) -> Result<usize, Fail>
    ensures answer { Closes scope.now base arena.new result
        (λ c. quantified_at c all sorts body.now (number_term arena.old number)) }
    ensures grows { Grows arena.old arena.new }
    ensures below { IsThere arena.new result }
{
    if !arena.ty(number).is_bool() {
        return Err(refuse(Reason::SortMismatch, place(body)));
    }
    match arena.quantify(all, sorts, base, number) {
        Err(_) => Err(Fail::Memory),
        Ok(None) => Err(refuse(Reason::TooLarge, scope.command)),
        Ok(Some(made)) => Ok(made),
    }
}
