ghost use Rattle.std.specs.Prelude.{◌≡◌, ℕ, ◌<◌, List, None, Some, true, length, map, IfOk, IfSome};
ghost use Rattle.std.specs.Option.{option_map};
ghost use Rattle.fm_levels.specs.Levels.{joined};
ghost use Rattle.fm_sexp.specs.Items.{all_within, spans_within};
ghost use Rattle.fm_script.specs.Commands.{members_of, name_of};
ghost use Rattle.fm_script.specs.Shown.{name_shown};
ghost use Rattle.fm_arena.specs.Meanings.{terms_of};
ghost use Rattle.fm_apply.specs.Scoped.{AreInForce, Grows, IsReady};
ghost use Rattle.fm_terms.specs.Elaborate.{all_at, annotated_at, application_at, by_bound, elaborated};
ghost use Rattle.fm_terms.specs.Elaborate.{is_word as is_word_of, let_at, let_with, list_at, nesting, nesting_all};
ghost use Rattle.fm_terms.specs.Elaborate.{quantifier_at, quantifier_with, word_at};
ghost use Rattle.fm_terms.specs.Scoped.{ArePairsWithin, Elaborates, ElaboratesAll, IsElaborated, Leaves, LeavesAll};
ghost use Rattle.fm_terms.specs.Scoped.{LeavesGiven, ReadsAs, context_under, deeper_of, shown_pairs};

use crate::attributes::{attribute_all, attributes};
use crate::pairs::{distinct_names, items_of, pairs};
use crate::variables::{
    Variables, block_variables, close, parameter_names, variable_names, variable_pairs,
};
use fm_apply::{
    Found, Frame, Scope, constant, count, function, newest, outside, past_all, places, refuse,
    within_let,
};
use fm_arena::Arena;
use fm_base::{Fail, Place, Reason, Ty};
use fm_levels::{NameSet, Table};
use fm_script::{Part, members, name, place, references, symbol};
use fm_sexp::Sexp;
use sqlite_items::Items;
use std::alloc::Global;

/// The numbers of several terms, and the least place of a bound name that stands in one of them, past all where none
/// does.
#[derive(Drop)]
pub struct Args {
    pub numbers: Items<usize>,
    pub low: usize,
}

/// An elaborated term, and the names that `:named` gave in it, in the order in which they were given.
#[derive(Drop)]
pub struct Elaborated<'a> {
    pub number: usize,
    pub given: Table<'a, usize>,
}

// A name that isn't bound.
fn unbound(
    alloc: Global,
    scope: &Scope<'_, '_>,
    arena: &mut Arena,
    given: &Table<'_, usize>,
    frame: &Frame<'_, '_>,
    part: Part,
) -> Result<Found, Fail>
    requires ready { IsReady (scope.now, frame.now) (arena.old, given.now) }
    ensures answer { ReadsAs (scope.now, frame.now) (arena.old, given.now) (arena.new, given.now) result
        (λ c ns. by_bound c ns (name_shown part.entry) None) }
    ensures grows { Grows arena.old arena.new }
    ensures below { Leaves (arena.new, given.now) result }
{
    match constant(alloc, scope, arena, given, part) {
        Err(fail) => Err(fail),
        Ok(number) => past_all(frame, number),
    }
}

// A word as a term.
fn word(
    alloc: Global,
    scope: &Scope<'_, '_>,
    arena: &mut Arena,
    given: &Table<'_, usize>,
    frame: &Frame<'_, '_>,
    item: &Sexp,
    at: Place,
) -> Result<Found, Fail>
    requires within { spans_within (length scope.now.text.now) item.now ≡ true }
    requires ready { IsReady (scope.now, frame.now) (arena.old, given.now) }
    ensures answer { ReadsAs (scope.now, frame.now) (arena.old, given.now) (arena.new, given.now) result
        (λ c ns. word_at c ns at (name_of c.text item.now)) }
    ensures grows { Grows arena.old arena.new }
    ensures below { Leaves (arena.new, given.now) result }
{
    let Some(part) = name(scope.text, item) else {
        return Err(refuse(Reason::BadShape, at));
    };
    match newest(frame, part.bytes) {
        Err(fail) => Err(fail),
        Ok(Some(found)) => Ok(found),
        Ok(None) => unbound(alloc, scope, arena, given, frame, part),
    }
}

// The members of a list.
fn parts(item: &Sexp) -> Option<&[Sexp]>
    ensures value { option_map (λ s. s.now) result ≡ members_of item.now }
    ensures within { (n : ℕ) → spans_within n item.now ≡ true → IfSome result (λ s. all_within n s.now ≡ true) }
    ensures nests { IfSome result (λ s. nesting_all s.now < nesting item.now) }
{
    match item {
        Sexp::Word { .. } => None,
        Sexp::List { items, .. } => Some(items.as_slice()),
    }
}

// Whether a head is a word.
fn is_word(head: Option<&[u8]>, word: &[u8]) -> bool
    ensures { result ≡ is_word_of (option_map (λ s. s.now) head.entry) word.now }
{
    match head {
        None => false,
        Some(head) => head == word,
    }
}

// An item as a term.
#[cycle(elaboration)]
fn term<'a>(
    alloc: Global,
    scope: &Scope<'_, 'a>,
    arena: &mut Arena,
    given: &mut Table<'a, usize>,
    frame: &Frame<'_, 'a>,
    item: &'a Sexp,
) -> Result<Found, Fail>
    requires within { spans_within (length scope.now.text.now) item.now ≡ true }
    requires ready { IsReady (scope.now, frame.now) (arena.old, given.old) }
    ensures answer { Elaborates (nesting item.now) (λ go c ns. go c ns item.now)
        (scope.now, frame.now) (arena.old, given.old) (arena.new, given.new) result }
    ensures grows { Grows arena.old arena.new }
    ensures below { Leaves (arena.new, given.new) result }
{
    match parts(item) {
        None => word(alloc, scope, arena, &*given, frame, item, place(item)),
        Some(items) => list(alloc, scope, arena, given, frame, place(item), items),
    }
}

// A list as a term, by its head.
#[cycle(elaboration)]
fn list<'a>(
    alloc: Global,
    scope: &Scope<'_, 'a>,
    arena: &mut Arena,
    given: &mut Table<'a, usize>,
    frame: &Frame<'_, 'a>,
    at: Place,
    items: &'a [Sexp],
) -> Result<Found, Fail>
    requires within { all_within (length scope.now.text.now) items.now ≡ true }
    requires ready { IsReady (scope.now, frame.now) (arena.old, given.old) }
    ensures answer { Elaborates (nesting_all items.now) (λ go c ns. list_at go c ns at items.now)
        (scope.now, frame.now) (arena.old, given.old) (arena.new, given.new) result }
    ensures grows { Grows arena.old arena.new }
    ensures below { Leaves (arena.new, given.new) result }
{
    let Some((first, parts)) = items.split_first() else {
        return Err(refuse(Reason::BadShape, at));
    };
    let head = symbol(scope.text, first);
    if is_word(head, b"let".as_slice()) {
        let_term(alloc, scope, arena, given, frame, at, parts)
    } else if is_word(head, b"forall".as_slice()) {
        quantifier(alloc, scope, arena, given, frame, true, at, parts)
    } else if is_word(head, b"exists".as_slice()) {
        quantifier(alloc, scope, arena, given, frame, false, at, parts)
    } else if is_word(head, b"!".as_slice()) {
        annotated(alloc, scope, arena, given, frame, at, parts)
    } else {
        application(alloc, scope, arena, given, frame, at, first, parts)
    }
}

#[cycle(elaboration)]
fn application<'a>(
    alloc: Global,
    scope: &Scope<'_, 'a>,
    arena: &mut Arena,
    given: &mut Table<'a, usize>,
    frame: &Frame<'_, 'a>,
    at: Place,
    head: &'a Sexp,
    parts: &'a [Sexp],
) -> Result<Found, Fail>
    requires head { spans_within (length scope.now.text.now) head.now ≡ true }
    requires within { all_within (length scope.now.text.now) parts.now ≡ true }
    requires ready { IsReady (scope.now, frame.now) (arena.old, given.old) }
    ensures answer { Elaborates (nesting_all parts.now)
        (λ go c ns. application_at go c ns at (name_of c.text head.now) parts.now)
        (scope.now, frame.now) (arena.old, given.old) (arena.new, given.new) result }
    ensures grows { Grows arena.old arena.new }
    ensures below { Leaves (arena.new, given.new) result }
{
    let Some(part) = name(scope.text, head) else {
        return Err(refuse(Reason::BadShape, at));
    };
    if parts.len() < 1 {
        return Err(refuse(Reason::BadShape, at));
    }
    let items = references(alloc, parts)?;
    match all(alloc, scope, arena, given, frame, items.as_slice()) {
        Err(fail) => Err(fail),
        Ok(args) => {
            let Args { numbers, low } = args;
            match function(alloc, scope, arena, &*given, at, part, parts, numbers) {
                Err(fail) => Err(fail),
                Ok(number) => Ok(Found { number, low }),
            }
        }
    }
}

// Items as terms, one after the other.
#[cycle(elaboration)]
fn all<'a>(
    alloc: Global,
    scope: &Scope<'_, 'a>,
    arena: &mut Arena,
    given: &mut Table<'a, usize>,
    frame: &Frame<'_, 'a>,
    items: &[&'a Sexp],
) -> Result<Args, Fail>
    requires within { all_within (length scope.now.text.now) (map (λ i. i.now) items.now) ≡ true }
    requires ready { IsReady (scope.now, frame.now) (arena.old, given.old) }
    ensures answer { let xs = map (λ i. i.now) items.now in
        ElaboratesAll (nesting_all xs) (λ go c ns. all_at go c ns xs)
        (scope.now, frame.now) (arena.old, given.old) (arena.new, given.new) result }
    ensures grows { Grows arena.old arena.new }
    ensures below { LeavesAll (arena.new, given.new) result }
    ensures count { IfOk result (λ a. length a.numbers ≡ length items.now) }
{
    let mut numbers = Vec::new(alloc);
    let mut low = match count(frame) {
        Err(fail) => return Err(fail),
        Ok(none) => none,
    };
    for item in items {
        match term(alloc, scope, arena, given, frame, item) {
            Err(fail) => return Err(fail),
            Ok(found) => {
                numbers.push(found.number)?;
                low = low.min(found.low);
            }
        }
    }
    Ok(Args {
        numbers: Items::from_vec(numbers),
        low,
    })
}

#[cycle(elaboration)]
fn let_term<'a>(
    alloc: Global,
    scope: &Scope<'_, 'a>,
    arena: &mut Arena,
    given: &mut Table<'a, usize>,
    frame: &Frame<'_, 'a>,
    at: Place,
    parts: &'a [Sexp],
) -> Result<Found, Fail>
    requires within { all_within (length scope.now.text.now) parts.now ≡ true }
    requires ready { IsReady (scope.now, frame.now) (arena.old, given.old) }
    ensures answer { Elaborates (nesting_all parts.now) (λ go c ns. let_at go c ns at parts.now)
        (scope.now, frame.now) (arena.old, given.old) (arena.new, given.new) result }
    ensures grows { Grows arena.old arena.new }
    ensures below { Leaves (arena.new, given.new) result }
{
    let [list, body] = parts else {
        return Err(refuse(Reason::BadShape, at));
    };
    let Some(items) = members(list) else {
        return Err(refuse(Reason::BadShape, at));
    };
    match pairs(alloc, scope.text, items)? {
        None => Err(refuse(Reason::BadShape, at)),
        Some(pairs) => let_over(
            alloc,
            scope,
            arena,
            given,
            frame,
            at,
            pairs.as_slice(),
            body,
        ),
    }
}

#[cycle(elaboration)]
fn let_over<'a>(
    alloc: Global,
    scope: &Scope<'_, 'a>,
    arena: &mut Arena,
    given: &mut Table<'a, usize>,
    frame: &Frame<'_, 'a>,
    at: Place,
    pairs: &[(Part<'a>, &'a Sexp)],
    body: &'a Sexp,
) -> Result<Found, Fail>
    requires body { spans_within (length scope.now.text.now) body.now ≡ true }
    requires within { ArePairsWithin scope.now.text.now (shown_pairs pairs.now) }
    requires ready { IsReady (scope.now, frame.now) (arena.old, given.old) }
    ensures answer { Elaborates (deeper_of pairs.now body.now)
        (λ go c ns. let_with go c ns at (Some (shown_pairs pairs.now)) body.now)
        (scope.now, frame.now) (arena.old, given.old) (arena.new, given.new) result }
    ensures grows { Grows arena.old arena.new }
    ensures below { Leaves (arena.new, given.new) result }
{
    if pairs.len() < 1 {
        return Err(refuse(Reason::BadShape, at));
    }
    let names = match distinct_names(alloc, pairs) {
        Err(fail) => return Err(fail),
        Ok(names) => names,
    };
    let items = items_of(alloc, pairs)?;
    let args = match all(alloc, scope, arena, given, frame, items.as_slice()) {
        Err(fail) => return Err(fail),
        Ok(args) => args,
    };
    let Args { numbers, low } = args;
    let inner = Frame::Inner {
        outer: &*frame,
        names,
        numbers,
        places: places(frame),
    };
    match term(alloc, scope, arena, given, &inner, body) {
        Err(fail) => Err(fail),
        Ok(found) => within_let(frame, low, found),
    }
}

#[cycle(elaboration)]
fn quantifier<'a>(
    alloc: Global,
    scope: &Scope<'_, 'a>,
    arena: &mut Arena,
    given: &mut Table<'a, usize>,
    frame: &Frame<'_, 'a>,
    all: bool,
    at: Place,
    parts: &'a [Sexp],
) -> Result<Found, Fail>
    requires within { all_within (length scope.now.text.now) parts.now ≡ true }
    requires ready { IsReady (scope.now, frame.now) (arena.old, given.old) }
    ensures answer { Elaborates (nesting_all parts.now) (λ go c ns. quantifier_at go c ns all at parts.now)
        (scope.now, frame.now) (arena.old, given.old) (arena.new, given.new) result }
    ensures grows { Grows arena.old arena.new }
    ensures below { Leaves (arena.new, given.new) result }
{
    let [list, body] = parts else {
        return Err(refuse(Reason::BadShape, at));
    };
    let Some(items) = members(list) else {
        return Err(refuse(Reason::BadShape, at));
    };
    match variable_pairs(alloc, scope.text, items)? {
        None => Err(refuse(Reason::BadShape, at)),
        Some(pairs) => {
            let pairs = pairs.as_slice();
            quantifier_over(alloc, scope, arena, given, frame, all, at, pairs, body)
        }
    }
}

#[cycle(elaboration)]
fn quantifier_over<'a>(
    alloc: Global,
    scope: &Scope<'_, 'a>,
    arena: &mut Arena,
    given: &mut Table<'a, usize>,
    frame: &Frame<'_, 'a>,
    all: bool,
    at: Place,
    pairs: &[(Part<'a>, &'a Sexp)],
    body: &'a Sexp,
) -> Result<Found, Fail>
    requires body { spans_within (length scope.now.text.now) body.now ≡ true }
    requires within { ArePairsWithin scope.now.text.now (shown_pairs pairs.now) }
    requires ready { IsReady (scope.now, frame.now) (arena.old, given.old) }
    ensures answer { Elaborates (nesting body.now)
        (λ go c ns. quantifier_with go c ns all at (Some (shown_pairs pairs.now)) body.now)
        (scope.now, frame.now) (arena.old, given.old) (arena.new, given.new) result }
    ensures grows { Grows arena.old arena.new }
    ensures below { Leaves (arena.new, given.new) result }
{
    let vars = match block_variables(alloc, scope, at, pairs) {
        Err(fail) => return Err(fail),
        Ok(vars) => vars,
    };
    let Variables { names, sorts } = vars;
    let base = places(frame);
    let Some(deeper) = base.checked_add(sorts.len()) else {
        return Err(Fail::Memory);
    };
    let numbers = match variable_names(alloc, arena, base, sorts.as_slice()) {
        Err(_) => return Err(Fail::Memory),
        Ok(numbers) => numbers,
    };
    let inner = Frame::Inner {
        outer: &*frame,
        names,
        numbers,
        places: deeper,
    };
    let found = match term(alloc, scope, arena, given, &inner, body) {
        Err(fail) => return Err(fail),
        Ok(found) => found,
    };
    let low = found.low;
    match close(scope, arena, all, sorts, base, found.number, body) {
        Err(fail) => Err(fail),
        Ok(number) => outside(frame, Found { number, low }),
    }
}

#[cycle(elaboration)]
fn annotated<'a>(
    alloc: Global,
    scope: &Scope<'_, 'a>,
    arena: &mut Arena,
    given: &mut Table<'a, usize>,
    frame: &Frame<'_, 'a>,
    at: Place,
    parts: &'a [Sexp],
) -> Result<Found, Fail>
    requires within { all_within (length scope.now.text.now) parts.now ≡ true }
    requires ready { IsReady (scope.now, frame.now) (arena.old, given.old) }
    ensures answer { Elaborates (nesting_all parts.now) (λ go c ns. annotated_at go c ns at parts.now)
        (scope.now, frame.now) (arena.old, given.old) (arena.new, given.new) result }
    ensures grows { Grows arena.old arena.new }
    ensures below { Leaves (arena.new, given.new) result }
{
    let Some((item, rest)) = parts.split_first() else {
        return Err(refuse(Reason::BadShape, at));
    };
    let Some(list) = attributes(alloc, scope.text, rest)? else {
        return Err(refuse(Reason::BadShape, at));
    };
    if list.as_slice().len() < 1 {
        return Err(refuse(Reason::BadShape, at));
    }
    match term(alloc, scope, arena, given, frame, item) {
        Err(fail) => Err(fail),
        Ok(found) => attribute_all(
            alloc,
            scope,
            arena,
            given,
            frame,
            at,
            list.as_slice(),
            found,
        ),
    }
}

/// Elaborates an item of a command as a term, under parameters, which are bound names and may be formulas: with no
/// parameters for a term of its own. Answers the number of the term, and the names that `:named` gave in it.
///
/// Refused are, the first that is met, arguments before the term itself, from left to right: an item that hasn't the
/// shape of a term, a repeated name of a `let` or a quantifier, and `:named` where it may give no name or where a
/// name bound outside the term stands in it (`BadShape`); a sort that isn't in force (`UnknownSort`), is a list
/// (`SortArity`) or is Bool (`BoolArgument`); a name that isn't in force (`UnknownSymbol`) or is taken (`Redeclared`);
/// arguments that are too many or too few (`Arity`) or of a wrong sort (`SortMismatch`); and at the command a term of
/// more than 1,000,000 nodes or a depth above 400 (`TooLarge`). After a refusal the arena has further terms, which
/// the caller takes out again.
pub fn elaborate<'a>(
    alloc: Global,
    scope: &Scope<'_, 'a>,
    arena: &mut Arena,
    names: NameSet<'a>,
    types: &[Ty],
    item: &'a Sexp,
) -> Result<Elaborated<'a>, Fail>
    requires within { spans_within (length scope.now.text.now) item.now ≡ true }
    requires ready { AreInForce (terms_of arena.old) (joined scope.now.functions.now) }
    requires types { length names ≡ length types.now }
    ensures answer { let c = context_under scope.now names.entry types.now (terms_of arena.old) in
        IsElaborated arena.new result (elaborated c item.now) }
    ensures grows { Grows arena.old arena.new }
    ensures below { LeavesGiven arena.new result }
{
    let mut given: Table<'a, usize> = Table::new(alloc);
    let numbers = match parameter_names(alloc, arena, types) {
        Err(_) => return Err(Fail::Memory),
        Ok(numbers) => numbers,
    };
    let frame = Frame::Inner {
        outer: &Frame::Top,
        names,
        numbers,
        places: types.len(),
    };
    match term(alloc, scope, arena, &mut given, &frame, item) {
        Err(fail) => Err(fail),
        Ok(found) => Ok(Elaborated {
            number: found.number,
            given,
        }),
    }
}
