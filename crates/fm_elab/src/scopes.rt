ghost use Rattle.std.specs.Prelude.{◌≡◌};
ghost use Rattle.fm_elab.specs.Held.{state_of};
ghost use Rattle.fm_elab.specs.Stacks.{is_barred as is_barred_of, is_function_taken, is_sort_taken, start};

use fm_apply::{Function, is_core, is_kept_for_solvers};
use fm_arena::Arena;
use fm_base::{Formula, Rank, Ty};
use fm_levels::{Layers, Levels, Stack};
use std::alloc::Global;
use std::marker::Model;

/// The assertion stack of a script: what is in force, level by level, with the names that its text gives.
#[derive(Drop)]
pub struct Scopes<'a> {
    pub(crate) alloc: Global,
    pub(crate) declared_sorts: Layers<'a, Ty>,
    pub(crate) sorts: Levels<'a, Ty>,
    pub(crate) symbols: Layers<'a, Rank>,
    pub(crate) functions: Levels<'a, Function>,
    pub(crate) arena: Arena,
    pub(crate) assertions: Stack<Formula>,
    pub(crate) global: bool,
    pub(crate) begun: bool,
}

impl<'a> Model for Scopes<'a> {
    ghost use Rattle.fm_elab.specs.Held.{Held, IsWhole, held_in};
    ghost use Rattle.fm_base.specs.contracts.formula.Formula as formula;
    ghost use Rattle.std.specs.Coded.{codes};

    ghost coded = { Prim.hlevel (codes, formula.the_row.coded) };

    ghost Value = { Held };

    ghost view = { λ s. held_in s.declared_sorts s.sorts s.symbols s.functions s.arena s.assertions s.global s.begun };

    ghost invariant = { λ s. IsWhole (held_in s.declared_sorts s.sorts s.symbols s.functions s.arena s.assertions s.global s.begun) };
}

// Whether no script may declare a name.
fn is_barred(name: &[u8]) -> bool
    ensures { result ≡ is_barred_of name.now }
{
    is_core(name) || is_kept_for_solvers(name)
}

impl<'a> Scopes<'a> {
    /// One level, and nothing in it.
    pub fn new(alloc: Global) -> Scopes<'a>
        ensures { state_of result ≡ start }
    {
        Scopes {
            alloc,
            declared_sorts: Layers::new(alloc),
            sorts: Levels::new(alloc),
            symbols: Layers::new(alloc),
            functions: Levels::new(alloc),
            arena: Arena::new(alloc),
            assertions: Stack::new(alloc),
            global: false,
            begun: false,
        }
    }

    /// Whether a name is taken among sorts, or may not be declared.
    pub(crate) fn is_sort_taken(&self, name: &[u8]) -> bool
        ensures { result ≡ is_sort_taken (state_of self.now) name.now }
    {
        is_barred(name) || self.sorts.has(name)
    }

    /// Whether a name is taken among functions, or may not be declared.
    pub(crate) fn is_function_taken(&self, name: &[u8]) -> bool
        ensures { result ≡ is_function_taken (state_of self.now) name.now }
    {
        is_barred(name) || self.functions.has(name)
    }
}
