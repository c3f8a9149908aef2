ghost use Rattle.std.specs.Prelude.{◌≡◌, ◌<◌, ℕ, List, true, length, map, cond, IfOk, OnOk, OnErr};
ghost use Rattle.fm_levels.specs.Levels.{joined};
ghost use Rattle.fm_base.specs.Truth.{is_bool};
ghost use Rattle.fm_base.specs.declared.signature.Ty.{Ty as TheTy};
ghost use Rattle.fm_script.specs.Shown.{name_shown};
ghost use Rattle.fm_arena.specs.declared.node.Op.{Op as TheOp};
ghost use Rattle.fm_arena.specs.Trees.{makes_truth, takes};
ghost use Rattle.fm_arena.specs.Meanings.{terms_of};
ghost use Rattle.fm_apply.specs.Applied.{applied_at, core_at, distinct_at, equal_at, first_wrong as first_wrong_of};
ghost use Rattle.fm_apply.specs.Applied.{fits_at, implied_at, later_core_at, same_type as same_type_of};
ghost use Rattle.fm_apply.specs.Applied.{type_among as type_among_of, xor_at};
ghost use Rattle.fm_apply.specs.Scoped.{AllAreThere, AreInForce, AreOfKind, Grows, IsInForce, IsRefusedBy, IsThere};
ghost use Rattle.fm_apply.specs.Scoped.{Makes, MakesIn, Making, function_in, head_at, terms_at, tested, tested_alike};
ghost use Rattle.fm_apply.specs.declared.scope.Frame.{Frame as TheFrame};

use crate::chains::{equal, implied, xor};
use crate::entry::Function;
use crate::making::{make, stand};
use crate::refusing::refuse;
use crate::scope::Scope;
use crate::words::is_truth;
use fm_arena::{Arena, Op};
use fm_base::{Fail, Place, Reason, Ty};
use fm_levels::Table;
use fm_script::{Part, place};
use fm_sexp::Sexp;
use sqlite_items::Items;
use std::alloc::{AllocError, Global};

/// Whether two types are one.
pub fn same_type(left: Ty, right: Ty) -> bool
    ensures { result ≡ same_type_of left right }
{
    match left {
        Ty::Bool => match right {
            Ty::Bool => true,
            Ty::Of(_) => false,
        },
        Ty::Of(sort) => match right {
            Ty::Bool => false,
            Ty::Of(other) => sort.0 == other.0,
        },
    }
}

// The place of the first argument of a wrong type.
fn first_wrong(arena: &Arena, types: &[Ty], args: &[usize], items: &[Sexp]) -> Option<Place>
    requires args { length args.now ≡ length types.now }
    requires items { length items.now ≡ length types.now }
    ensures { result ≡ first_wrong_of types.now (terms_at arena.now args.now) items.now }
{
    for i in 0..types.len() {
        if !same_type(arena.ty(args[i]), types[i]) {
            return Some(place(&items[i]));
        }
    }
    None
}

// An operator on arguments, which are tested against the types that it takes.
fn apply(
    scope: &Scope<'_, '_>,
    arena: &mut Arena,
    at: Place,
    items: &[Sexp],
    args: Items<usize>,
    types: &[Ty],
    op: Op,
    ty: Ty,
) -> Result<usize, Fail>
    requires items { length items.now ≡ length args }
    requires kinds { takes op (map is_bool types.now) ≡ true }
    requires result { is_bool ty ≡ makes_truth op }
    ensures answer { Makes scope.now arena.new result
        (λ c. applied_at c at items.now (terms_at arena.old args) types.now op ty) }
    ensures grows { Grows arena.old arena.new }
    ensures below { IsThere arena.new result }
{
    if args.len() != types.len() {
        return Err(refuse(Reason::Arity, at));
    }
    match first_wrong(&*arena, types, args.as_slice(), items) {
        Some(place) => Err(refuse(Reason::SortMismatch, place)),
        None => make(scope, arena, op, ty, args),
    }
}

// The type of an argument; Bool where there is none.
fn type_among(arena: &Arena, args: &[usize], place: usize) -> Ty
    ensures { result ≡ type_among_of (terms_at arena.now args.now) place }
{
    match args.get(place) {
        None => Ty::Bool,
        Some(number) => arena.ty(*number),
    }
}

pub(crate) fn equality_of(ty: Ty) -> Op
    ensures { result ≡ cond (is_bool ty) TheOp.Iff TheOp.Equal }
{
    if ty.is_bool() { Op::Iff } else { Op::Equal }
}

fn choice_of(ty: Ty) -> Op
    ensures { result ≡ cond (is_bool ty) TheOp.Ite TheOp.Choice }
{
    if ty.is_bool() { Op::Ite } else { Op::Choice }
}

// A type for each argument.
fn each(alloc: Global, args: &[usize], ty: Ty) -> Result<Vec<Ty>, AllocError>
    ensures { IfOk result (λ v. v.items ≡ map (λ (a : ℕ). ty) args.now) }
{
    let mut types = Vec::new(alloc);
    for arg in args {
        let _ = arg;
        types.push(ty)?;
    }
    Ok(types)
}

// Tests that there are two or more arguments, all of one type.
fn several(
    alloc: Global,
    arena: &Arena,
    at: Place,
    items: &[Sexp],
    args: &[usize],
    ty: Ty,
) -> Result<(), Fail>
    requires items { length items.now ≡ length args.now }
    requires below { AllAreThere arena.now args.now }
    ensures right { (go : Making) →
        OnOk result (tested at items.now ty go arena.now args.now ≡ go (terms_at arena.now args.now)) }
    ensures kinds { OnOk result (AreOfKind (is_bool ty) arena.now args.now) }
    ensures wrong { (go : Making) → OnErr result (IsRefusedBy result (tested at items.now ty go arena.now args.now)) }
{
    if args.len() < 2 {
        return Err(refuse(Reason::Arity, at));
    }
    let types = each(alloc, args, ty)?;
    match first_wrong(arena, types.as_slice(), args, items) {
        Some(place) => Err(refuse(Reason::SortMismatch, place)),
        None => Ok(()),
    }
}

// `=>` of formulas.
fn implication(
    alloc: Global,
    scope: &Scope<'_, '_>,
    arena: &mut Arena,
    at: Place,
    items: &[Sexp],
    args: &[usize],
) -> Result<usize, Fail>
    requires items { length items.now ≡ length args.now }
    requires below { AllAreThere arena.old args.now }
    ensures answer { Makes scope.now arena.new result
        (λ c. tested at items.now TheTy.Bool (implied_at c) arena.old args.now) }
    ensures grows { Grows arena.old arena.new }
    ensures below { IsThere arena.new result }
{
    match several(alloc, &*arena, at, items, args, Ty::Bool) {
        Err(fail) => Err(fail),
        Ok(()) => implied(alloc, scope, arena, args),
    }
}

// `xor` of formulas.
fn exclusive(
    alloc: Global,
    scope: &Scope<'_, '_>,
    arena: &mut Arena,
    at: Place,
    items: &[Sexp],
    args: &[usize],
) -> Result<usize, Fail>
    requires items { length items.now ≡ length args.now }
    requires below { AllAreThere arena.old args.now }
    ensures answer { Makes scope.now arena.new result
        (λ c. tested at items.now TheTy.Bool (xor_at c) arena.old args.now) }
    ensures grows { Grows arena.old arena.new }
    ensures below { IsThere arena.new result }
{
    match several(alloc, &*arena, at, items, args, Ty::Bool) {
        Err(fail) => Err(fail),
        Ok(()) => xor(alloc, scope, arena, args),
    }
}

// `=` of terms of one type.
fn equality(
    alloc: Global,
    scope: &Scope<'_, '_>,
    arena: &mut Arena,
    at: Place,
    items: &[Sexp],
    args: &[usize],
) -> Result<usize, Fail>
    requires items { length items.now ≡ length args.now }
    requires below { AllAreThere arena.old args.now }
    ensures answer { Makes scope.now arena.new result
        (λ c. tested_alike at items.now (equal_at c) arena.old args.now) }
    ensures grows { Grows arena.old arena.new }
    ensures below { IsThere arena.new result }
{
    let ty = type_among(&*arena, args, 0);
    match several(alloc, &*arena, at, items, args, ty) {
        Err(fail) => Err(fail),
        Ok(()) => equal(alloc, scope, arena, args, ty.is_bool()),
    }
}

// `distinct` of terms of one type.
fn distinct(
    alloc: Global,
    scope: &Scope<'_, '_>,
    arena: &mut Arena,
    at: Place,
    items: &[Sexp],
    args: &[usize],
) -> Result<usize, Fail>
    requires items { length items.now ≡ length args.now }
    requires below { AllAreThere arena.old args.now }
    ensures answer { Makes scope.now arena.new result
        (λ c. tested_alike at items.now (distinct_at c) arena.old args.now) }
    ensures grows { Grows arena.old arena.new }
    ensures below { IsThere arena.new result }
{
    let ty = type_among(&*arena, args, 0);
    match several(alloc, &*arena, at, items, args, ty) {
        Err(fail) => Err(fail),
        Ok(()) => {
            let parts = Items::from_slice(alloc, args)?;
            make(scope, arena, Op::Distinct(ty.is_bool()), Ty::Bool, parts)
        }
    }
}

// The operators of Core that take two or more arguments of one type.
#[tactic(auto, unfolding(crate::specs::Applied::later_core_at))]
fn later_core(
    alloc: Global,
    scope: &Scope<'_, '_>,
    arena: &mut Arena,
    at: Place,
    part: Part,
    items: &[Sexp],
    args: &[usize],
) -> Result<usize, Fail>
    requires items { length items.now ≡ length args.now }
    requires below { AllAreThere arena.old args.now }
    ensures answer { Makes scope.now arena.new result
        (λ c. later_core_at c at (name_shown part.entry) items.now (terms_at arena.old args.now)) }
    ensures grows { Grows arena.old arena.new }
    ensures below { IsThere arena.new result }
{
    if part.bytes == b"=>".as_slice() {
        return implication(alloc, scope, arena, at, items, args);
    }
    if part.bytes == b"xor".as_slice() {
        return exclusive(alloc, scope, arena, at, items, args);
    }
    if part.bytes == b"=".as_slice() {
        return equality(alloc, scope, arena, at, items, args);
    }
    if part.bytes == b"distinct".as_slice() {
        return distinct(alloc, scope, arena, at, items, args);
    }
    if is_truth(part.bytes) {
        return Err(refuse(Reason::Arity, at));
    }
    Err(refuse(Reason::UnknownSymbol, part.at))
}

// An operator of Core.
#[tactic(auto, using(crate::proofs::Applying::and_taken, crate::proofs::Applying::or_taken, crate::proofs::Applying::choice_takes, crate::proofs::Applying::choice_makes, crate::proofs::Applying::bools_of))]
fn core(
    alloc: Global,
    scope: &Scope<'_, '_>,
    arena: &mut Arena,
    at: Place,
    part: Part,
    items: &[Sexp],
    args: Items<usize>,
) -> Result<usize, Fail>
    requires items { length items.now ≡ length args }
    requires below { AllAreThere arena.old args }
    ensures answer { Makes scope.now arena.new result
        (λ c. core_at c at (name_shown part.entry) items.now (terms_at arena.old args)) }
    ensures grows { Grows arena.old arena.new }
    ensures below { IsThere arena.new result }
{
    if part.bytes == b"not".as_slice() {
        return apply(
            scope,
            arena,
            at,
            items,
            args,
            &[Ty::Bool],
            Op::Not,
            Ty::Bool,
        );
    }
    if part.bytes == b"and".as_slice() {
        let types = each(alloc, args.as_slice(), Ty::Bool)?;
        return apply(
            scope,
            arena,
            at,
            items,
            args,
            types.as_slice(),
            Op::And,
            Ty::Bool,
        );
    }
    if part.bytes == b"or".as_slice() {
        let types = each(alloc, args.as_slice(), Ty::Bool)?;
        return apply(
            scope,
            arena,
            at,
            items,
            args,
            types.as_slice(),
            Op::Or,
            Ty::Bool,
        );
    }
    if part.bytes == b"ite".as_slice() {
        let ty = type_among(&*arena, args.as_slice(), 1);
        return apply(
            scope,
            arena,
            at,
            items,
            args,
            &[Ty::Bool, ty, ty],
            choice_of(ty),
            ty,
        );
    }
    later_core(alloc, scope, arena, at, part, items, args.as_slice())
}

// A function in force on arguments.
fn fits(
    alloc: Global,
    scope: &Scope<'_, '_>,
    arena: &mut Arena,
    at: Place,
    items: &[Sexp],
    args: Items<usize>,
    found: &Function,
) -> Result<usize, Fail>
    requires items { length items.now ≡ length args }
    requires right { IsInForce (terms_of arena.old) found.now }
    ensures answer { (name : List ℕ) → Makes scope.now arena.new result
        (λ c. fits_at c at items.now (terms_at arena.old args) (function_in (terms_of arena.old) name found.now)) }
    ensures grows { Grows arena.old arena.new }
    ensures below { IsThere arena.new result }
{
    if args.len() != found.args.len() {
        return Err(refuse(Reason::Arity, at));
    }
    match first_wrong(&*arena, found.args.as_slice(), args.as_slice(), items) {
        Some(place) => Err(refuse(Reason::SortMismatch, place)),
        None => stand(alloc, scope, arena, found, args),
    }
}

/// A name applied to arguments, of which there is one at least. A name that `:named` gave takes none.
pub fn function(
    alloc: Global,
    scope: &Scope<'_, '_>,
    arena: &mut Arena,
    given: &Table<'_, usize>,
    at: Place,
    part: Part,
    items: &[Sexp],
    args: Items<usize>,
) -> Result<usize, Fail>
    requires items { length items.now ≡ length args }
    requires some { 0 < length args }
    requires below { AllAreThere arena.old args }
    requires ready { AreInForce (terms_of arena.old) (joined scope.now.functions.now) }
    ensures answer { (f : TheFrame) → MakesIn (scope.now, f) (arena.old, given.now) arena.new result
        (λ c fs. head_at c fs at (name_shown part.entry) items.now (terms_at arena.old args)) }
    ensures grows { Grows arena.old arena.new }
    ensures below { IsThere arena.new result }
{
    match scope.functions.get(part.bytes) {
        Some(found) => fits(alloc, scope, arena, at, items, args, found),
        None => {
            if given.has(part.bytes) {
                return Err(refuse(Reason::Arity, at));
            }
            core(alloc, scope, arena, at, part, items, args)
        }
    }
}
