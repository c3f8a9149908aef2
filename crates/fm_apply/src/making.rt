ghost use Rattle.std.specs.Prelude.{◌≡◌, true, map};
ghost use Rattle.fm_base.specs.Truth.{is_bool};
ghost use Rattle.fm_arena.specs.Trees.{makes_truth, takes};
ghost use Rattle.fm_arena.specs.Meanings.{kind_at, terms_of};
ghost use Rattle.fm_apply.specs.Applied.{made_at, op_of};
ghost use Rattle.fm_apply.specs.Scoped.{Grows, IsInForce, IsTaken, IsThere, Makes, definition_at, number_term};
ghost use Rattle.fm_apply.specs.Scoped.{stood_at, terms_at};

use crate::entry::{Function, Stands};
use crate::refusing::refuse;
use crate::scope::Scope;
use fm_arena::{Arena, Op};
use fm_base::{Fail, Reason, SymId, Ty};
use sqlite_items::Items;
use std::alloc::Global;

/// What an operator makes of terms of the kinds that it takes.
pub(crate) fn make(
    scope: &Scope<'_, '_>,
    arena: &mut Arena,
    op: Op,
    ty: Ty,
    parts: Items<usize>,
) -> Result<usize, Fail>
    requires kinds { takes op (map (kind_at (terms_of arena.old)) parts) ≡ true }
    requires result { is_bool ty ≡ makes_truth op }
    ensures answer { Makes scope.now arena.new result (λ c. made_at c op ty (terms_at arena.old parts)) }
    ensures grows { Grows arena.old arena.new }
    ensures below { IsThere arena.new result }
{
    match arena.make(op, ty, parts) {
        Err(_) => Err(Fail::Memory),
        Ok(None) => Err(refuse(Reason::TooLarge, scope.command)),
        Ok(Some(number)) => Ok(number),
    }
}

/// A definition with its arguments.
pub(crate) fn use_definition(
    alloc: Global,
    scope: &Scope<'_, '_>,
    arena: &mut Arena,
    body: usize,
    args: Items<usize>,
) -> Result<usize, Fail>
    ensures answer { Makes scope.now arena.new result
        (λ c. definition_at c (number_term arena.old body) (terms_at arena.old args)) }
    ensures grows { Grows arena.old arena.new }
    ensures below { IsThere arena.new result }
{
    match arena.apply(alloc, body, args) {
        Err(_) => Err(Fail::Memory),
        Ok(None) => Err(refuse(Reason::TooLarge, scope.command)),
        Ok(Some(number)) => Ok(number),
    }
}

pub(crate) fn op_for(number: SymId, ty: Ty) -> Op
    ensures { result ≡ op_of number ty }
{
    if ty.is_bool() {
        Op::Pred(number)
    } else {
        Op::App(number)
    }
}

/// What a function makes of terms of its arguments' types.
pub(crate) fn stand(
    alloc: Global,
    scope: &Scope<'_, '_>,
    arena: &mut Arena,
    function: &Function,
    args: Items<usize>,
) -> Result<usize, Fail>
    requires right { IsInForce (terms_of arena.old) function.now }
    requires kinds { IsTaken function.now function.now.stands (map (kind_at (terms_of arena.old)) args) }
    ensures answer { Makes scope.now arena.new result
        (λ c. stood_at c arena.old function.now (terms_at arena.old args)) }
    ensures grows { Grows arena.old arena.new }
    ensures below { IsThere arena.new result }
{
    match function.stands {
        Stands::Declared(symbol) => {
            let op = op_for(symbol, function.result);
            make(scope, arena, op, function.result, args)
        }
        Stands::Defined(body) => use_definition(alloc, scope, arena, body, args),
    }
}
