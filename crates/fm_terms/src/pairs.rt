ghost use Rattle.std.specs.Prelude.{◌≡◌, ◌≤◌, [], true, length, map, IfOk, IfSome, Some, None, Ok};
ghost use Rattle.std.specs.Option.{option_map};
ghost use Rattle.fm_sexp.specs.Items.{spans_within, all_within};
ghost use Rattle.fm_script.specs.Shown.{IsShownBy, name_shown};
ghost use Rattle.fm_apply.specs.Scoped.{IsMade};
ghost use Rattle.fm_terms.specs.Elaborate.{items_in, nesting, nesting_all, pair_of, pairs_of, repeated};
ghost use Rattle.fm_terms.specs.Elaborate.{unless_repeated};
ghost use Rattle.fm_terms.specs.Scoped.{names_of, shown_pairs, ArePairsWithin, ArePairsNested};

use fm_apply::refuse;
use fm_base::{Fail, Reason};
use fm_levels::NameSet;
use fm_script::{Part, name};
use fm_sexp::Sexp;
use std::alloc::{AllocError, Global};

// A name with an item.
fn pair<'a>(text: &'a [u8], item: &'a Sexp) -> Option<(Part<'a>, &'a Sexp)>
    requires { spans_within (length text.now) item.now ≡ true }
    ensures value { option_map (λ p. (name_shown p.0, p.1.now)) result ≡ pair_of text.now item.now }
    ensures within { IfSome result (λ p. spans_within (length text.now) p.1.now ≡ true) }
    ensures nests { IfSome result (λ p. nesting p.1.now ≤ nesting item.now) }
{
    let Sexp::List { items, .. } = item else {
        return None;
    };
    let [first, item] = items.as_slice() else {
        return None;
    };
    match name(text, first) {
        Some(name) => Some((name, item)),
        None => None,
    }
}

/// The pairs of a `let`; None where an item is no pair of a name and an item.
pub(crate) fn pairs<'a>(
    alloc: Global,
    text: &'a [u8],
    items: &'a [Sexp],
) -> Result<Option<Vec<(Part<'a>, &'a Sexp)>>, AllocError>
    requires { all_within (length text.now) items.now ≡ true }
    ensures value { IfOk result (IsShownBy (pairs_of text.now items.now) (λ v. shown_pairs v.items)) }
    ensures within { IfOk result (λ o. IfSome o (λ v. ArePairsWithin text.now (shown_pairs v.items))) }
    ensures nests { IfOk result (λ o. IfSome o (λ v. ArePairsNested (nesting_all items.now) (shown_pairs v.items))) }
{
    let mut list = Vec::new(alloc);
    for item in items {
        match pair(text, item) {
            Some(pair) => list.push(pair)?,
            None => return Ok(None),
        }
    }
    Ok(Some(list))
}

/// The names of pairs, as a set of names that are bound together. Refused is the first name that stood before, as
/// `BadShape` at it.
pub fn distinct_names<'a>(
    alloc: Global,
    pairs: &[(Part<'a>, &'a Sexp)],
) -> Result<NameSet<'a>, Fail>
    ensures { IsMade result (let ps = shown_pairs pairs.now in unless_repeated (repeated [] ps) (Ok (names_of ps))) }
{
    let mut names = NameSet::new(alloc);
    for pair in pairs {
        let part = pair.0;
        match names.insert(part.bytes) {
            Err(_) => return Err(Fail::Memory),
            Ok(false) => return Err(refuse(Reason::BadShape, part.at)),
            Ok(true) => {}
        }
    }
    Ok(names)
}

/// The items of pairs.
pub(crate) fn items_of<'a>(
    alloc: Global,
    pairs: &[(Part<'a>, &'a Sexp)],
) -> Result<Vec<&'a Sexp>, AllocError>
    ensures { IfOk result (λ v. map (λ i. i.now) v.items ≡ items_in (shown_pairs pairs.now)) }
{
    let mut list = Vec::new(alloc);
    for pair in pairs {
        list.push(pair.1)?;
    }
    Ok(list)
}
