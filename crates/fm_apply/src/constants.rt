ghost use Rattle.std.specs.Prelude.{ℕ, List, Some};
ghost use Rattle.fm_levels.specs.Levels.{joined};
ghost use Rattle.fm_script.specs.Shown.{name_shown};
ghost use Rattle.fm_arena.specs.Meanings.{terms_of};
ghost use Rattle.fm_apply.specs.Applied.{constant_of, core_constant};
ghost use Rattle.fm_apply.specs.Scoped.{AreInForce, Grows, IsInForce, IsThere, Makes, MakesIn, function_in, lone_at};
ghost use Rattle.fm_apply.specs.declared.scope.Frame.{Frame as TheFrame};

use crate::entry::Function;
use crate::making::{make, stand, use_definition};
use crate::refusing::refuse;
use crate::scope::Scope;
use crate::words::is_operator;
use fm_arena::{Arena, Op};
use fm_base::{Fail, Reason, Ty};
use fm_levels::Table;
use fm_script::Part;
use sqlite_items::Items;
use std::alloc::Global;

// A word of Core.
fn core_word(
    alloc: Global,
    scope: &Scope<'_, '_>,
    arena: &mut Arena,
    part: Part,
) -> Result<usize, Fail>
    ensures answer { Makes scope.now arena.new result (λ c. core_constant c (name_shown part.entry)) }
    ensures grows { Grows arena.old arena.new }
    ensures below { IsThere arena.new result }
{
    if part.bytes == b"true".as_slice() {
        return make(scope, arena, Op::Truth(true), Ty::Bool, Items::new(alloc));
    }
    if part.bytes == b"false".as_slice() {
        return make(scope, arena, Op::Truth(false), Ty::Bool, Items::new(alloc));
    }
    if is_operator(part.bytes) {
        return Err(refuse(Reason::Arity, part.at));
    }
    Err(refuse(Reason::UnknownSymbol, part.at))
}

// A function in force that stands without arguments.
fn lone(
    alloc: Global,
    scope: &Scope<'_, '_>,
    arena: &mut Arena,
    function: &Function,
    part: Part,
) -> Result<usize, Fail>
    requires right { IsInForce (terms_of arena.old) function.now }
    ensures answer { (name : List ℕ) → Makes scope.now arena.new result
        (λ c. constant_of c (name_shown part.entry) (Some (function_in (terms_of arena.old) name function.now))) }
    ensures grows { Grows arena.old arena.new }
    ensures below { IsThere arena.new result }
{
    if function.args.len() > 0 {
        return Err(refuse(Reason::Arity, part.at));
    }
    stand(alloc, scope, arena, function, Items::new(alloc))
}

/// A name that isn't bound, as a term: a function in force, a name that `:named` gave, or a truth value.
pub fn constant(
    alloc: Global,
    scope: &Scope<'_, '_>,
    arena: &mut Arena,
    given: &Table<'_, usize>,
    part: Part,
) -> Result<usize, Fail>
    requires ready { AreInForce (terms_of arena.old) (joined scope.now.functions.now) }
    ensures answer { (f : TheFrame) → MakesIn (scope.now, f) (arena.old, given.now) arena.new result
        (λ c fs. lone_at c fs (name_shown part.entry)) }
    ensures grows { Grows arena.old arena.new }
    ensures below { IsThere arena.new result }
{
    match scope.functions.get(part.bytes) {
        Some(function) => lone(alloc, scope, arena, function, part),
        None => match given.get(part.bytes) {
            Some(number) => use_definition(alloc, scope, arena, *number, Items::new(alloc)),
            None => core_word(alloc, scope, arena, part),
        },
    }
}
