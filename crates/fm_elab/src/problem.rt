ghost use Rattle.std.specs.Prelude.{◌≡◌, ◌<◌, [], false, length, map, true, IfOk, None};
ghost use Rattle.fm_sexp.specs.Items.{spans_within};
ghost use Rattle.fm_script.specs.Commands.{place_of_item};
ghost use Rattle.fm_arena.specs.Meanings.{terms_of};
ghost use Rattle.fm_levels.specs.Levels.{joined};
ghost use Rattle.fm_apply.specs.Scoped.{IsMade, number_term};
ghost use Rattle.fm_elab.specs.Closed.{closed_by, closed_of};
ghost use Rattle.fm_elab.specs.Held.{state_of};
ghost use Rattle.fm_elab.specs.Problems.{IsProblem};
ghost use Rattle.fm_elab.specs.Shown.{names_shown};
ghost use Rattle.fm_elab.specs.Stacks.{assertions_in_force, level_count, signature, sort_names, symbol_names};

use crate::scopes::Scopes;
use fm_base::{Fail, Formula, Fterm, Memory, Rank, Sig, SortId, Ty};
use fm_levels::{Layers, NameSet};
use fm_script::place;
use fm_sexp::Sexp;
use fm_terms::Elaborated;
use sqlite_items::Items;
use std::alloc::Global;

/// What is in force at a command: the declared sorts and functions as a signature, with their names, and the assertions,
/// each in order. Names and assertions are lent.
#[derive(Drop)]
pub struct Problem<'s, 'a> {
    pub sig: Sig,
    pub sort_names: Vec<&'a [u8]>,
    pub symbol_names: Vec<&'a [u8]>,
    pub assertions: &'s [Formula],
}

/// A closed term: a formula, or a term with its sort.
#[derive(Drop)]
pub enum Closed {
    Truth(Formula),
    Thing(Fterm, SortId),
}

// The names of what is declared, in order.
fn names_in<'a, V: Drop>(alloc: Global, declared: &Layers<'a, V>) -> Result<Vec<&'a [u8]>, Memory>
    ensures { IfOk result (λ v. names_shown v.items ≡ map (λ e. e.0) (joined declared.now)) }
{
    let mut names = Vec::new(alloc);
    let Some(count) = declared.count() else {
        return Err(Memory);
    };
    for place in 0..count {
        if let Some((name, _)) = declared.at(place) {
            names.push(name)?;
        }
    }
    Ok(names)
}

impl<'a> Scopes<'a> {
    /// How many levels are open, the first one counted.
    pub fn level_count(&self) -> usize
        ensures { result ≡ level_count (state_of self.now) }
    {
        self.functions.len()
    }

    /// Whether there was a declaration, definition, assertion, `push` or `pop`: then `:global-declarations` comes too late.
    pub fn has_begun(&self) -> bool
        ensures { result ≡ (state_of self.now).begun }
    {
        self.begun
    }

    /// The assertions in force, in order.
    pub fn assertions(&self) -> &[Formula]
        ensures { result.now ≡ assertions_in_force (state_of self.now) }
    {
        self.assertions.as_slice()
    }

    // The ranks of the declared functions.
    fn ranks(&self) -> Result<Items<Rank>, Memory>
        ensures { IfOk result (λ r. r ≡ (signature (state_of self.now)).ranks) }
    {
        let mut ranks = Vec::new(self.alloc);
        let Some(count) = self.symbols.count() else {
            return Err(Memory);
        };
        for place in 0..count {
            if let Some((_, rank)) = self.symbols.at(place) {
                ranks.push(rank.copy(self.alloc)?)?;
            }
        }
        Ok(Items::from_vec(ranks))
    }

    /// What is in force: the declared sorts and functions and the assertions. Defined sorts and functions aren't among them.
    pub fn problem(&self) -> Result<Problem<'_, 'a>, Memory>
        ensures { IfOk result (IsProblem (state_of self.now)) }
    {
        let Some(sorts) = self.declared_sorts.count() else {
            return Err(Memory);
        };
        let ranks = self.ranks()?;
        let sort_names = names_in(self.alloc, &self.declared_sorts)?;
        let symbol_names = names_in(self.alloc, &self.symbols)?;
        Ok(Problem {
            sig: Sig { sorts, ranks },
            sort_names,
            symbol_names,
            assertions: self.assertions.as_slice(),
        })
    }

    // An elaborated term as a tree.
    fn closed(&self, term: Elaborated<'a>) -> Result<Closed, Memory>
        ensures { IfOk result (λ t. t ≡ closed_of (number_term self.now.entries term.entry.number)) }
    {
        let Elaborated { number, given: _ } = term;
        match self.arena.ty(number) {
            Ty::Bool => {
                let formula = self.arena.formula(self.alloc, number)?;
                Ok(Closed::Truth(formula))
            }
            Ty::Of(sort) => {
                let thing = self.arena.term(self.alloc, number)?;
                Ok(Closed::Thing(thing, sort))
            }
        }
    }

    /// The closed term of an item, as `get-value` has it, where `:named` may give no name. The assertion stack stays as it is.
    /// Refused are an item as `elaborate` of fm_terms refuses it, with `TooLarge` at the item's first byte.
    pub fn closed_term(&mut self, text: &'a [u8], item: &'a Sexp) -> Result<Closed, Fail>
        requires { spans_within (length text.now) item.now ≡ true }
        ensures answer { IsMade result (closed_by text.now (state_of self.old) item.now) }
        ensures same { state_of self.new ≡ state_of self.old }
    {
        let names = NameSet::new(self.alloc);
        let at = place(item);
        match self.elaborate(text, at, None, false, names, &[], item) {
            Err(fail) => Err(fail),
            Ok(term) => match self.closed(term) {
                Err(_) => Err(Fail::Memory),
                Ok(closed) => Ok(closed),
            },
        }
    }
}
