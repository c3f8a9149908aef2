ghost use Rattle.std.specs.Prelude.{◌≡◌, ◌<◌, length, OnOk};
ghost use Rattle.fm_arena.specs.Meanings.{terms_of};
ghost use Rattle.fm_levels.specs.Levels.{joined};
ghost use Rattle.fm_apply.specs.Scoped.{AreBelow, AreInForce, Grows};
ghost use Rattle.fm_elab.specs.Givens.{Defines, DefinesAll, Extends, definition_at, definitions_at, given_at};

use fm_apply::{Function, Stands};
use fm_arena::Arena;
use fm_base::{Memory, Ty};
use fm_levels::{Levels, Table};
use sqlite_items::Items;
use std::alloc::Global;

// Adds a definition by the number of its body, unless its name is there.
fn define<'a>(
    alloc: Global,
    arena: &mut Arena,
    functions: &mut Levels<'a, Function>,
    first: bool,
    name: &'a [u8],
    args: Items<Ty>,
    body: usize,
) -> Result<(), Memory>
    requires body { body < length (terms_of arena.old) }
    requires in_force { AreInForce (terms_of arena.old) (joined functions.old) }
    ensures added { OnOk result (Defines first arena.old functions.old arena.new functions.new
        (definition_at arena.old name.now args body)) }
    ensures in_force { AreInForce (terms_of arena.new) (joined functions.new) }
    ensures grows { Grows arena.old arena.new }
    ensures extends { Extends first functions.old functions.new }
{
    let number = arena.define(alloc, body, args.len())?;
    let result = arena.ty(number);
    let stands = Stands::Defined(number);
    let function = Function {
        args,
        result,
        stands,
    };
    let _ = functions.insert(first, name, function)?;
    Ok(())
}

/// Adds the names that were given in a term, as definitions without arguments.
pub(crate) fn add_given<'a>(
    alloc: Global,
    arena: &mut Arena,
    functions: &mut Levels<'a, Function>,
    first: bool,
    given: &Table<'a, usize>,
) -> Result<(), Memory>
    requires given { AreBelow (length (terms_of arena.old)) given.now }
    requires in_force { AreInForce (terms_of arena.old) (joined functions.old) }
    ensures added { OnOk result (DefinesAll first arena.old functions.old arena.new functions.new
        (given_at arena.old given.now)) }
    ensures in_force { AreInForce (terms_of arena.new) (joined functions.new) }
    ensures grows { Grows arena.old arena.new }
    ensures extends { Extends first functions.old functions.new }
{
    for place in 0..given.len() {
        if let Some((name, number)) = given.at(place) {
            let none = Items::new(alloc);
            define(alloc, arena, functions, first, name, none, *number)?;
        }
    }
    Ok(())
}

/// Adds a definition and the names that were given in it.
pub(crate) fn add_definition<'a>(
    alloc: Global,
    arena: &mut Arena,
    functions: &mut Levels<'a, Function>,
    first: bool,
    given: &Table<'a, usize>,
    name: &'a [u8],
    args: Items<Ty>,
    body: usize,
) -> Result<(), Memory>
    requires given { AreBelow (length (terms_of arena.old)) given.now }
    requires body { body < length (terms_of arena.old) }
    requires in_force { AreInForce (terms_of arena.old) (joined functions.old) }
    ensures added { OnOk result (DefinesAll first arena.old functions.old arena.new functions.new
        (definitions_at arena.old given.now name.now args body)) }
    ensures in_force { AreInForce (terms_of arena.new) (joined functions.new) }
    ensures grows { Grows arena.old arena.new }
    ensures extends { Extends first functions.old functions.new }
{
    add_given(alloc, arena, functions, first, given)?;
    define(alloc, arena, functions, first, name, args, body)
}
