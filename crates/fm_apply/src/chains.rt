ghost use Rattle.std.specs.Prelude.{◌≡◌, ◌<◌, true, length, IfOk, [], ◌∷◌};
ghost use Rattle.fm_base.specs.declared.signature.Ty.{Ty as TheTy};
ghost use Rattle.fm_arena.specs.declared.node.Op.{Op as TheOp};
ghost use Rattle.fm_arena.specs.Trees.{makes_truth, takes};
ghost use Rattle.fm_arena.specs.Meanings.{terms_of};
ghost use Rattle.fm_apply.specs.Applied.{differs_at, equal_at, implied_at, implies_at, made_at, neighbours_from};
ghost use Rattle.fm_apply.specs.Applied.{same_at, xor_at};
ghost use Rattle.fm_apply.specs.Scoped.{AreOfKind, Grows, IsOfKind, IsThere, Makes, MakesAll, number_kind, number_term};
ghost use Rattle.fm_apply.specs.Scoped.{terms_at};

use crate::application::equality_of;
use crate::making::make;
use crate::refusing::refuse;
use crate::scope::Scope;
use fm_arena::{Arena, Op};
use fm_base::{Fail, Reason, Ty};
use sqlite_items::Items;
use std::alloc::Global;

// What an operator of Core makes of one formula, or of two terms of one kind.
fn negation(
    alloc: Global,
    scope: &Scope<'_, '_>,
    arena: &mut Arena,
    arg: usize,
) -> Result<usize, Fail>
    requires kind { number_kind arena.old arg ≡ true }
    ensures answer { Makes scope.now arena.new result
        (λ c. made_at c TheOp.Not TheTy.Bool (number_term arena.old arg ∷ [])) }
    ensures grows { Grows arena.old arena.new }
    ensures below { IsThere arena.new result }
    ensures kind { IsOfKind true arena.new result }
{
    let parts = Items::from_slice(alloc, &[arg])?;
    make(scope, arena, Op::Not, Ty::Bool, parts)
}

fn pair(
    alloc: Global,
    scope: &Scope<'_, '_>,
    arena: &mut Arena,
    op: Op,
    left: usize,
    right: usize,
) -> Result<usize, Fail>
    requires kinds { takes op (number_kind arena.old left ∷ number_kind arena.old right ∷ []) ≡ true }
    requires result { true ≡ makes_truth op }
    ensures answer { Makes scope.now arena.new result
        (λ c. made_at c op TheTy.Bool (number_term arena.old left ∷ number_term arena.old right ∷ [])) }
    ensures grows { Grows arena.old arena.new }
    ensures below { IsThere arena.new result }
    ensures kind { IsOfKind true arena.new result }
{
    let parts = Items::from_slice(alloc, &[left, right])?;
    make(scope, arena, op, Ty::Bool, parts)
}

// That two formulas differ.
fn differs(
    alloc: Global,
    scope: &Scope<'_, '_>,
    arena: &mut Arena,
    left: usize,
    right: usize,
) -> Result<usize, Fail>
    requires left { number_kind arena.old left ≡ true }
    requires right { number_kind arena.old right ≡ true }
    ensures answer { Makes scope.now arena.new result
        (λ c. differs_at c (number_term arena.old left) (number_term arena.old right)) }
    ensures grows { Grows arena.old arena.new }
    ensures below { IsThere arena.new result }
    ensures kind { IsOfKind true arena.new result }
{
    match pair(alloc, scope, arena, Op::Iff, left, right) {
        Err(fail) => Err(fail),
        Ok(number) => negation(alloc, scope, arena, number),
    }
}

// That the left formula implies the right one.
fn implies(
    alloc: Global,
    scope: &Scope<'_, '_>,
    arena: &mut Arena,
    left: usize,
    right: usize,
) -> Result<usize, Fail>
    requires left { number_kind arena.old left ≡ true }
    requires right { number_kind arena.old right ≡ true }
    requires below { right < length (terms_of arena.old) }
    ensures answer { Makes scope.now arena.new result
        (λ c. implies_at c (number_term arena.old left) (number_term arena.old right)) }
    ensures grows { Grows arena.old arena.new }
    ensures below { IsThere arena.new result }
    ensures kind { IsOfKind true arena.new result }
{
    match negation(alloc, scope, arena, left) {
        Err(fail) => Err(fail),
        Ok(number) => pair(alloc, scope, arena, Op::Or, number, right),
    }
}

// That two terms of one kind are equal.
fn same(
    alloc: Global,
    scope: &Scope<'_, '_>,
    arena: &mut Arena,
    left: usize,
    right: usize,
) -> Result<usize, Fail>
    requires { number_kind arena.old left ≡ number_kind arena.old right }
    ensures answer { Makes scope.now arena.new result
        (λ c. same_at c (number_term arena.old left) (number_term arena.old right)) }
    ensures grows { Grows arena.old arena.new }
    ensures below { IsThere arena.new result }
    ensures kind { IsOfKind true arena.new result }
{
    let op = equality_of(arena.ty(left));
    pair(alloc, scope, arena, op, left, right)
}

/// `xor` of formulas, from the left.
pub(crate) fn xor(
    alloc: Global,
    scope: &Scope<'_, '_>,
    arena: &mut Arena,
    args: &[usize],
) -> Result<usize, Fail>
    requires { AreOfKind true arena.old args.now }
    ensures answer { Makes scope.now arena.new result (λ c. xor_at c (terms_at arena.old args.now)) }
    ensures grows { Grows arena.old arena.new }
    ensures below { IsThere arena.new result }
{
    let Some((first, rest)) = args.split_first() else {
        return Err(refuse(Reason::BadShape, scope.command));
    };
    let mut made = *first;
    for arg in rest {
        match differs(alloc, scope, arena, made, *arg) {
            Err(fail) => return Err(fail),
            Ok(number) => made = number,
        }
    }
    Ok(made)
}

/// `=>` of formulas, from the right.
pub(crate) fn implied(
    alloc: Global,
    scope: &Scope<'_, '_>,
    arena: &mut Arena,
    args: &[usize],
) -> Result<usize, Fail>
    requires { AreOfKind true arena.old args.now }
    ensures answer { Makes scope.now arena.new result (λ c. implied_at c (terms_at arena.old args.now)) }
    ensures grows { Grows arena.old arena.new }
    ensures below { IsThere arena.new result }
{
    let Some((last, front)) = args.split_last() else {
        return Err(refuse(Reason::BadShape, scope.command));
    };
    let mut made = *last;
    let mut rest = front;
    while let Some((arg, before)) = rest.split_last() {
        match implies(alloc, scope, arena, *arg, made) {
            Err(fail) => return Err(fail),
            Ok(number) => made = number,
        }
        rest = before;
    }
    Ok(made)
}

// That each term is equal to the next one.
fn neighbours(
    alloc: Global,
    scope: &Scope<'_, '_>,
    arena: &mut Arena,
    first: usize,
    args: &[usize],
    truth: bool,
) -> Result<Items<usize>, Fail>
    requires first { first < length (terms_of arena.old) }
    requires kind { number_kind arena.old first ≡ truth }
    requires kinds { AreOfKind truth arena.old args.now }
    ensures answer { MakesAll scope.now arena.new result
        (λ c. neighbours_from c (number_term arena.old first) (terms_at arena.old args.now)) }
    ensures grows { Grows arena.old arena.new }
    ensures kinds { IfOk result (λ ns. AreOfKind true arena.new ns) }
{
    let mut made = Vec::new(alloc);
    let mut left = first;
    for right in args {
        match same(alloc, scope, arena, left, *right) {
            Err(fail) => return Err(fail),
            Ok(number) => made.push(number)?,
        }
        left = *right;
    }
    Ok(Items::from_vec(made))
}

/// `=` of terms of one kind.
pub(crate) fn equal(
    alloc: Global,
    scope: &Scope<'_, '_>,
    arena: &mut Arena,
    args: &[usize],
    truth: bool,
) -> Result<usize, Fail>
    requires { AreOfKind truth arena.old args.now }
    ensures answer { Makes scope.now arena.new result (λ c. equal_at c (terms_at arena.old args.now)) }
    ensures grows { Grows arena.old arena.new }
    ensures below { IsThere arena.new result }
{
    let Some((first, rest)) = args.split_first() else {
        return Err(refuse(Reason::BadShape, scope.command));
    };
    let Some((second, others)) = rest.split_first() else {
        return Err(refuse(Reason::BadShape, scope.command));
    };
    if others.len() < 1 {
        return same(alloc, scope, arena, *first, *second);
    }
    match neighbours(alloc, scope, arena, *first, rest, truth) {
        Err(fail) => Err(fail),
        Ok(parts) => make(scope, arena, Op::And, Ty::Bool, parts),
    }
}
