ghost use Rattle.std.specs.Prelude.{◌≡◌, ◌<◌, ◌≤◌, [], ℕ, false, true, length, IfOk, OnErr, OnOk};
ghost use Rattle.fm_sexp.specs.Items.{spans_within};
ghost use Rattle.fm_arena.specs.Meanings.{terms_of};
ghost use Rattle.fm_levels.specs.Levels.{in_newest, joined};
ghost use Rattle.fm_apply.specs.Scoped.{AreBelow, AreInForce, Grows, StandBefore};
ghost use Rattle.fm_elab.specs.Givens.{DefinesAll, Extends, given_at, new_asserted, read_in, with_new_assertion};
ghost use Rattle.fm_elab.specs.Held.{state_of};
ghost use Rattle.fm_elab.specs.Sizes.{is_large as is_large_of};
ghost use Rattle.fm_elab.specs.Stacks.{signature};
ghost use Rattle.fm_elab.specs.Steps.{Applies, assert_term};

use crate::given::add_given;
use crate::scopes::Scopes;
use crate::sizes::is_large;
use fm_apply::{Function, refuse};
use fm_arena::Arena;
use fm_base::{Fail, Formula, Memory, Place, Reason};
use fm_levels::{Levels, NameSet, Stack, Table};
use fm_script::place;
use fm_sexp::Sexp;
use fm_terms::Elaborated;
use std::alloc::Global;

// Adds the names that were given in an assertion, and then the assertion.
fn add_all<'a>(
    alloc: Global,
    arena: &mut Arena,
    functions: &mut Levels<'a, Function>,
    assertions: &mut Stack<Formula>,
    given: &Table<'a, usize>,
    formula: Formula,
) -> Result<(), Memory>
    requires given { AreBelow (length (terms_of arena.old)) given.now }
    requires in_force { AreInForce (terms_of arena.old) (joined functions.old) }
    ensures added { OnOk result (DefinesAll false arena.old functions.old arena.new functions.new
        (given_at arena.old given.now)) }
    ensures asserted { OnOk result (assertions.new ≡ in_newest assertions.old formula) }
    ensures in_force { AreInForce (terms_of arena.new) (joined functions.new) }
    ensures grows { Grows arena.old arena.new }
    ensures extends { Extends false functions.old functions.new }
    ensures err { OnErr result (assertions.new ≡ assertions.old) }
{
    add_given(alloc, arena, functions, false, given)?;
    assertions.insert(formula)
}

impl<'a> Scopes<'a> {
    // Whether an assertion is too large.
    fn is_large(&self, formula: &Formula) -> Result<bool, Memory>
        ensures { IfOk result (λ b. b ≡ is_large_of (signature (state_of self.now)) formula.now) }
    {
        match self.symbols.count() {
            None => Err(Memory),
            Some(declared) => is_large(self.alloc, formula, declared),
        }
    }

    // Adds an assertion and the names that were given in it, or nothing.
    fn add_assertion(&mut self, formula: Formula, given: Table<'a, usize>) -> Result<(), Memory>
        requires given { AreBelow (length (terms_of self.old.entries)) given }
        ensures added { OnOk result (state_of self.new ≡ with_new_assertion (state_of self.old)
            (given_at self.old.entries given.entry) formula) }
        ensures err { OnErr result (state_of self.new ≡ state_of self.old) }
    {
        let count = self.functions.count_in(false);
        match add_all(
            self.alloc,
            &mut self.arena,
            &mut self.functions,
            &mut self.assertions,
            &given,
            formula,
        ) {
            Ok(()) => {
                self.begun = true;
                Ok(())
            }
            Err(fail) => {
                self.functions.cut_back(false, count);
                Err(fail)
            }
        }
    }

    // Adds an assertion in which no name was given; nothing of its term stays in the arena.
    fn add_plain(&mut self, formula: Formula, mark: usize) -> Result<(), Memory>
        requires mark { mark ≤ length (terms_of self.old.entries) }
        requires before { StandBefore mark (joined self.old.functions) }
        ensures added { OnOk result (state_of self.new ≡ with_new_assertion (state_of self.old) [] formula) }
        ensures err { OnErr result (state_of self.new ≡ state_of self.old) }
    {
        match self.assertions.insert(formula) {
            Ok(()) => {
                self.arena.cut_back(mark);
                self.begun = true;
                Ok(())
            }
            Err(fail) => Err(fail),
        }
    }

    // Adds an assertion and the names that were given in it, or nothing. The functions in force stand before the mark.
    fn add(&mut self, formula: Formula, given: Table<'a, usize>, mark: usize) -> Result<(), Memory>
        requires given { AreBelow (length (terms_of self.old.entries)) given }
        requires mark { mark ≤ length (terms_of self.old.entries) }
        requires before { StandBefore mark (joined self.old.functions) }
        ensures added { OnOk result (state_of self.new ≡ with_new_assertion (state_of self.old)
            (given_at self.old.entries given.entry) formula) }
        ensures err { OnErr result (state_of self.new ≡ state_of self.old) }
    {
        if given.len() == 0 {
            return self.add_plain(formula, mark);
        }
        self.add_assertion(formula, given)
    }

    // Adds an assertion whose term was elaborated, where the term is a formula and isn't too large.
    fn asserted(
        &mut self,
        at: Place,
        item: &Sexp,
        term: Elaborated<'a>,
        mark: usize,
    ) -> Result<(), Fail>
        requires mark { mark ≤ length (terms_of self.old.entries) }
        requires before { StandBefore mark (joined self.old.functions) }
        requires number { term.number < length (terms_of self.old.entries) }
        requires given { AreBelow (length (terms_of self.old.entries)) term.given }
        ensures { (low : ℕ) → Applies result (state_of self.old)
            (new_asserted (state_of self.old) at item.now (read_in self.old.entries low term.entry)) (state_of self.new) }
    {
        let Elaborated { number, given } = term;
        if !self.arena.ty(number).is_bool() {
            return Err(refuse(Reason::SortMismatch, place(item)));
        }
        let Ok(formula) = self.arena.formula(self.alloc, number) else {
            return Err(Fail::Memory);
        };
        match self.is_large(&formula) {
            Err(_) => return Err(Fail::Memory),
            Ok(true) => return Err(refuse(Reason::TooLarge, at)),
            Ok(false) => {}
        }
        match self.add(formula, given, mark) {
            Err(_) => Err(Fail::Memory),
            Ok(()) => Ok(()),
        }
    }

    /// `assert`.
    pub(crate) fn assert(&mut self, text: &'a [u8], at: Place, item: &'a Sexp) -> Result<(), Fail>
        requires { spans_within (length text.now) item.now ≡ true }
        ensures { Applies result (state_of self.old) (assert_term text.now (state_of self.old) at item.now)
            (state_of self.new) }
    {
        let names = NameSet::new(self.alloc);
        let mark = self.arena.mark();
        match self.elaborate(text, at, None, true, names, &[], item) {
            Err(fail) => Err(fail),
            Ok(term) => self.asserted(at, item, term, mark),
        }
    }
}
