ghost use Rattle.std.specs.Prelude.{◌≡◌, true, List, length, Some, None, IfOk, OnOk};
ghost use Rattle.std.specs.List.{find, list_all};
ghost use Rattle.fm_base.specs.Resolution.{AreDistinct};
ghost use Rattle.fm_bank.specs.Interning.{is_atom, lit_in};
ghost use Rattle.fm_bank.specs.declared.literal.Literal.{Literal as TheLiteral};
ghost use Rattle.fm_base.specs.declared.ids.Lit.{Lit as TheLit};
ghost use Rattle.fm_sat.specs.Learning.{IsConflict};
ghost use Rattle.fm_sat.specs.Store.{HasNoFalse, IsUnit};
ghost use Rattle.fm_steps.specs.Facts.{HeadsAreWithin, TrailIsExplained};
ghost use Rattle.fm_steps.specs.Lemmas.{IsUnitLemma, are_known};
ghost use Rattle.fm_steps.specs.Rows.{LearnRow, UnitRow, after_learning};
ghost use Rattle.fm_steps.specs.Sizes.{is_unvalued};
ghost use Rattle.fm_steps.specs.State.{back_to, put, with_literals};
ghost use Rattle.fm_trail.specs.Trail.{AreOver, is_none, is_open, up_to, value_of};

use crate::standing::State;
use fm_bank::{Atom, Literal};
use fm_base::{Lit, Memory};
use fm_sat::{Learnt, learning_goes_on};
use fm_trail::Trail;

fn first_open(trail: &Trail, lits: &[Lit]) -> Option<Lit>
    ensures { result ≡ find (is_open trail.now.entries) lits.now }
{
    for lit in lits {
        if trail.value(lit.atom).is_none() {
            return Some(*lit);
        }
    }
    None
}

impl State {
    /// The literal without value of a unit clause is put on. No clause is false.
    pub fn imply_unit(&mut self, clause: usize) -> Result<(), Memory>
        requires quiet { HasNoFalse self.old.clauses self.old.trail.entries }
        requires unit { (l : TheLit) × IsUnit self.old.clauses self.old.trail.entries clause l }
        ensures { OnOk result (UnitRow self.old clause self.new) }
    {
        match first_open(&self.trail, self.store.clause(clause)) {
            Some(lit) => self.put(lit, clause),
            None => unreachable!(),
        }
    }

    // The trail goes back to the level, and the literal is put on there by the clause.
    fn put_back(&mut self, lit: Lit, clause: usize, level: usize) -> Result<(), Memory>
        requires heads { HeadsAreWithin self.old }
        requires free { value_of (up_to level self.old.trail.entries) lit.atom ≡ None }
        ensures { OnOk result (self.new ≡ put lit clause (back_to level self.old)) }
    {
        self.go_back(level);
        self.put(lit, clause)
    }

    // The reason is what is learnt, or the false clause itself where nothing was resolved.
    fn put_learnt(&mut self, clause: usize, learnt: &Learnt) -> Result<(), Memory>
        requires heads { HeadsAreWithin self.old }
        requires once { AreDistinct learnt.now.lits.items }
        requires free { value_of (up_to learnt.now.level self.old.trail.entries) learnt.now.lit.atom ≡ None }
        ensures { OnOk result (self.new ≡ after_learning clause learnt.now.chain.steps.items learnt.now.lits.items learnt.now.lit learnt.now.level self.old) }
    {
        match learnt.chain.steps.split_first() {
            None => self.put_back(learnt.lit, clause, learnt.level),
            Some(_) => {
                let number = self.store.add(learnt.lits.as_slice())?;
                self.put_back(learnt.lit, number, learnt.level)
            }
        }
    }

    /// What the false clause makes of itself is learnt, by the first unique implication point: it is added, unless it is the
    /// clause itself, the trail goes back to its level, and its literal is put on. Its answer are the steps of resolution.
    pub fn learn(&mut self, clause: usize) -> Result<Vec<(Lit, usize)>, Memory>
        requires conflict { IsConflict self.old.clauses self.old.trail.entries clause }
        requires explained { TrailIsExplained self.old }
        requires heads { HeadsAreWithin self.old }
        ensures { IfOk result (λ v. (r : LearnRow self.old clause self.new) × (r.steps ≡ v.items)) }
    {
        learning_goes_on();
        let learnt = self.store.learn(&self.trail, clause)?;
        self.put_learnt(clause, &learnt)?;
        Ok(learnt.chain.steps)
    }

    fn has_no_value(&self, atom: Atom) -> bool
        ensures { result ≡ is_unvalued self.now atom }
    {
        match self.bank.find_atom(atom) {
            Some(number) => self.trail.value(number).is_none(),
            None => true,
        }
    }

    fn first_unvalued(&self, lits: &[Literal]) -> Option<Literal>
        ensures { result ≡ find (λ (l : TheLiteral). is_unvalued self.now l.atom) lits.now }
    {
        for lit in lits {
            if self.has_no_value(lit.atom) {
                return Some(*lit);
            }
        }
        None
    }

    /// The one literal without value of a lemma that is unit.
    pub fn open_literal(&self, lits: &[Literal]) -> Option<Literal>
        ensures { (l : TheLiteral) → IsUnitLemma self.now lits.now l → result ≡ Some l }
    {
        self.first_unvalued(lits)
    }

    /// A lemma on known atoms is added that is unit by the literal, which is put on by it. None of its literals stands there
    /// twice.
    pub fn imply_lemma(&mut self, lits: &[Literal], lit: Literal) -> Result<(), Memory>
        requires atoms { list_all (λ (l : TheLiteral). is_atom self.old.held.sig self.old.held.terms l.atom) lits.now ≡ true }
        requires once { AreDistinct lits.now }
        requires known { are_known self.old lits.now ≡ true }
        requires unit { IsUnitLemma self.old lits.now lit }
        requires over { AreOver (length self.old.held.atoms) self.old.trail.entries }
        ensures { OnOk result (self.new ≡ put (lit_in self.old.held.atoms lit) (length self.old.clauses) (with_literals lits.now self.old)) }
    {
        let atom = self.know(lit.atom)?;
        let positive = lit.positive;
        let clause = self.store.len();
        self.add_lemma(lits)?;
        self.put(Lit { atom, positive }, clause)
    }
}
