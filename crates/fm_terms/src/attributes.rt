ghost use Rattle.std.specs.Prelude.{◌≡◌, ◌<◌, true, length, IfOk, IfSome};
ghost use Rattle.std.specs.Option.{option_map};
ghost use Rattle.fm_sexp.specs.Items.{all_within};
ghost use Rattle.fm_script.specs.Shown.{IsShownBy, name_shown};
ghost use Rattle.fm_arena.specs.Meanings.{terms_of};
ghost use Rattle.fm_apply.specs.Scoped.{AreBelow, Grows, IsReady};
ghost use Rattle.fm_apply.specs.declared.scope.Frame.{Frame as TheFrame};
ghost use Rattle.fm_terms.specs.Elaborate.{attribute_at, attributes_at, attributes_of, is_list as is_list_of};
ghost use Rattle.fm_terms.specs.Elaborate.{name_in as name_in_of, named_at};
ghost use Rattle.fm_terms.specs.Scoped.{Leaves, ReadsAs, given_name, read_in, AreValuesWithin, IsValueBefore};
ghost use Rattle.fm_terms.specs.Scoped.{IsValueWithin, attribute_shown, attributes_shown};

use fm_apply::{Found, Frame, Scope, count, is_taken, refuse};
use fm_arena::Arena;
use fm_base::{Fail, Place, Reason};
use fm_levels::Table;
use fm_script::{Part, keyword, members, name};
use fm_sexp::Sexp;
use std::alloc::{AllocError, Global};

/// An attribute: a keyword, with the next item where that isn't a keyword.
#[derive(Clone, Copy)]
pub struct Attribute<'a> {
    pub keyword: Part<'a>,
    pub value: Option<&'a Sexp>,
}

// What stands behind a keyword: its value, if there is one, and the rest.
fn value_before<'a>(text: &[u8], items: &'a [Sexp]) -> (Option<&'a Sexp>, &'a [Sexp])
    requires { all_within (length text.now) items.now ≡ true }
    ensures split { IsValueBefore text.now items.now (option_map (λ x. x.now) result.0) result.1.now }
    ensures value { IsValueWithin text.now (option_map (λ x. x.now) result.0) }
    ensures within { all_within (length text.now) result.1.now ≡ true }
{
    let Some((first, rest)) = items.split_first() else {
        return (None, items);
    };
    if keyword(text, first).is_some() {
        (None, items)
    } else {
        (Some(first), rest)
    }
}

/// The attributes of a term; None where a keyword is wanted and another item stands.
pub(crate) fn attributes<'a>(
    alloc: Global,
    text: &'a [u8],
    items: &'a [Sexp],
) -> Result<Option<Vec<Attribute<'a>>>, AllocError>
    requires { all_within (length text.now) items.now ≡ true }
    ensures value { IfOk result (IsShownBy (attributes_of text.now items.now) (λ v. attributes_shown v.items)) }
    ensures within { IfOk result (λ o. IfSome o (λ v. AreValuesWithin text.now (attributes_shown v.items))) }
{
    let mut list = Vec::new(alloc);
    let mut rest = items;
    while let Some((first, behind)) = rest.split_first() {
        let Some(keyword) = keyword(text, first) else {
            return Ok(None);
        };
        let (value, left) = value_before(text, behind);
        list.push(Attribute { keyword, value })?;
        rest = left;
    }
    Ok(Some(list))
}

// The name of a value, where it has one.
fn name_in<'a>(text: &'a [u8], value: Option<&Sexp>) -> Option<Part<'a>>
    requires { IsValueWithin text.now (option_map (λ x. x.now) value) }
    ensures { option_map name_shown result ≡ name_in_of text.now (option_map (λ x. x.now) value.entry) }
{
    match value {
        None => None,
        Some(item) => name(text, item),
    }
}

fn is_list(value: Option<&Sexp>) -> bool
    ensures { result ≡ is_list_of (option_map (λ x. x.now) value.entry) }
{
    match value {
        None => false,
        Some(item) => members(item).is_some(),
    }
}

// Gives a term a name, unless the name is taken. The name stands for a definition, whose uses needn't go over the term.
fn give<'a>(
    alloc: Global,
    scope: &Scope<'_, 'a>,
    arena: &mut Arena,
    given: &mut Table<'a, usize>,
    part: Part<'a>,
    found: Found,
) -> Result<Found, Fail>
    requires given { AreBelow (length (terms_of arena.old)) given.old }
    requires number { found.number < length (terms_of arena.old) }
    ensures answer { (f : TheFrame) → ReadsAs (scope.now, f) (arena.old, given.old) (arena.new, given.new) result
        (λ c ns. given_name c (name_shown part.entry) (read_in arena.old found ns)) }
    ensures grows { Grows arena.old arena.new }
    ensures below { Leaves (arena.new, given.new) result }
{
    if is_taken(scope, &*given, part.bytes) {
        return Err(refuse(Reason::Redeclared, part.at));
    }
    match arena.define(alloc, found.number, 0) {
        Err(_) => Err(Fail::Memory),
        Ok(number) => match given.insert(part.bytes, number) {
            Err(_) => Err(Fail::Memory),
            Ok(_) => Ok(found),
        },
    }
}

// `:named` with its value.
fn named<'a>(
    alloc: Global,
    scope: &Scope<'_, 'a>,
    arena: &mut Arena,
    given: &mut Table<'a, usize>,
    frame: &Frame<'_, '_>,
    at: Place,
    value: Option<&'a Sexp>,
    found: Found,
) -> Result<Found, Fail>
    requires within { IsValueWithin scope.now.text.now (option_map (λ x. x.now) value) }
    requires given { AreBelow (length (terms_of arena.old)) given.old }
    requires number { found.number < length (terms_of arena.old) }
    ensures answer { ReadsAs (scope.now, frame.now) (arena.old, given.old) (arena.new, given.new) result
        (λ c ns. named_at c at (name_in_of c.text (option_map (λ x. x.now) value.entry)) (read_in arena.old found ns)) }
    ensures grows { Grows arena.old arena.new }
    ensures below { Leaves (arena.new, given.new) result }
{
    let Some(part) = name_in(scope.text, value) else {
        return Err(refuse(Reason::BadShape, at));
    };
    match count(frame) {
        Err(fail) => Err(fail),
        Ok(all) => {
            if found.low < all {
                return Err(refuse(Reason::BadShape, part.at));
            }
            give(alloc, scope, arena, given, part, found)
        }
    }
}

// One attribute of a term.
fn take_attribute<'a>(
    alloc: Global,
    scope: &Scope<'_, 'a>,
    arena: &mut Arena,
    given: &mut Table<'a, usize>,
    frame: &Frame<'_, '_>,
    at: Place,
    attribute: &Attribute<'a>,
    found: Found,
) -> Result<Found, Fail>
    requires within { IsValueWithin scope.now.text.now (attribute_shown attribute.now).value }
    requires given { AreBelow (length (terms_of arena.old)) given.old }
    requires number { found.number < length (terms_of arena.old) }
    ensures answer { ReadsAs (scope.now, frame.now) (arena.old, given.old) (arena.new, given.new) result
        (λ c ns. attribute_at c at (attribute_shown attribute.now) (read_in arena.old found ns)) }
    ensures grows { Grows arena.old arena.new }
    ensures below { Leaves (arena.new, given.new) result }
{
    let keyword = attribute.keyword;
    if keyword.bytes == b":named".as_slice() {
        if !scope.naming {
            return Err(refuse(Reason::BadShape, keyword.at));
        }
        return named(
            alloc,
            scope,
            arena,
            given,
            frame,
            at,
            attribute.value,
            found,
        );
    }
    if keyword.bytes == b":pattern".as_slice() {
        if !is_list(attribute.value) {
            return Err(refuse(Reason::BadShape, at));
        }
    }
    Ok(found)
}

/// The attributes of a term, from left to right: `:named` gives it a name.
pub(crate) fn attribute_all<'a>(
    alloc: Global,
    scope: &Scope<'_, 'a>,
    arena: &mut Arena,
    given: &mut Table<'a, usize>,
    frame: &Frame<'_, '_>,
    at: Place,
    list: &[Attribute<'a>],
    found: Found,
) -> Result<Found, Fail>
    requires within { AreValuesWithin scope.now.text.now (attributes_shown list.now) }
    requires ready { IsReady (scope.now, frame.now) (arena.old, given.old) }
    requires number { found.number < length (terms_of arena.old) }
    ensures answer { ReadsAs (scope.now, frame.now) (arena.old, given.old) (arena.new, given.new) result
        (λ c ns. attributes_at c at (attributes_shown list.now) (read_in arena.old found ns)) }
    ensures grows { Grows arena.old arena.new }
    ensures below { Leaves (arena.new, given.new) result }
{
    let mut found = found;
    for one in list {
        match take_attribute(alloc, scope, arena, given, frame, at, one, found) {
            Err(fail) => return Err(fail),
            Ok(next) => found = next,
        }
    }
    Ok(found)
}
