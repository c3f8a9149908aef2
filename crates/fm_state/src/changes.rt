ghost use Rattle.std.specs.Prelude.{◌≡◌, ◌<◌, ◌+◌, ◌^◌, ℕ, List, length, map, slice_get, true, false, None, Some, IfOk, IfSome, IfNone, OnOk};
ghost use Rattle.std.specs.List.{list_all};
ghost use Rattle.fm_base.specs.Resolution.{AreDistinct};
ghost use Rattle.fm_bank.specs.Instances.{equality as equality_of, is_substitution};
ghost use Rattle.fm_bank.specs.Interning.{atom_number, is_atom, lit_in, with_atoms};
ghost use Rattle.fm_bank.specs.Sorted.{is_sorted_clause};
ghost use Rattle.fm_bank.specs.Terms.{numbers};
ghost use Rattle.fm_bank.specs.declared.atom.Atom.{Atom as TheAtom};
ghost use Rattle.fm_bank.specs.declared.literal.Literal.{Literal as TheLiteral};
ghost use Rattle.fm_sat.specs.Learning.{Explains, IsConflict};
ghost use Rattle.fm_sat.specs.Store.{IsUnit};
ghost use Rattle.fm_state.specs.Stands.{pick_in};
ghost use Rattle.fm_steps.specs.Facts.{AtomsAreKnown, HeadsAreWithin};
ghost use Rattle.fm_steps.specs.Rows.{LearnRow, UnitRow, with_instance};
ghost use Rattle.fm_steps.specs.Sizes.{is_unvalued};
ghost use Rattle.fm_steps.specs.State.{Clause as TheClause, State as TheState, back_to, decided, know, know_all, put, put_decision, read_one, with_clause, with_literals};
ghost use Rattle.fm_trail.specs.Trail.{AreOver, head_of, value_of};

use crate::numbering::numbered_all;
use crate::standing::State;
use fm_bank::{Atom, Clause, Literal};
use fm_base::{AtomId, Lit, Memory, Reader, TermId};
use fm_region::Pick;
use fm_trail::Entry;
use sqlite_items::Items;

// An equality has the smaller number first.
fn equality(left: TermId, right: TermId) -> Atom
    ensures { result ≡ equality_of left.0 right.0 }
{
    if left.0 <= right.0 {
        Atom::Equal(left, right)
    } else {
        Atom::Equal(right, left)
    }
}

impl State {
    /// The atom is known, and its number.
    pub fn know(&mut self, atom: Atom) -> Result<AtomId, Memory>
        requires { is_atom self.old.held.sig self.old.held.terms atom ≡ true }
        ensures known { OnOk result (self.new ≡ know atom self.old) }
        ensures number { IfOk result (λ a. a.0 ≡ atom_number self.new.held.atoms atom) }
    {
        self.bank.atom(atom)
    }

    /// The atoms of the literals are known, and the literals by their numbers.
    pub fn know_all(&mut self, lits: &[Literal]) -> Result<Vec<Lit>, Memory>
        requires { list_all (λ (l : TheLiteral). is_atom self.old.held.sig self.old.held.terms l.atom) lits.now ≡ true }
        ensures known { OnOk result (self.new ≡ know_all lits.now self.old) }
        ensures numbers { IfOk result (λ v. v.items ≡ map (lit_in self.new.held.atoms) lits.now) }
    {
        numbered_all(self.alloc, &mut self.bank, lits)
    }

    /// A lemma is added, by its literals, none of which stands there twice; their atoms are known then.
    pub fn add_lemma(&mut self, lits: &[Literal]) -> Result<(), Memory>
        requires atoms { list_all (λ (l : TheLiteral). is_atom self.old.held.sig self.old.held.terms l.atom) lits.now ≡ true }
        requires once { AreDistinct lits.now }
        ensures { OnOk result (self.new ≡ with_literals lits.now self.old) }
    {
        let found = self.know_all(lits)?;
        self.store.add(found.as_slice())?;
        Ok(())
    }

    /// A literal is put on, by a clause.
    pub fn put(&mut self, lit: Lit, clause: usize) -> Result<(), Memory>
        requires { value_of self.old.trail.entries lit.atom ≡ None }
        ensures { OnOk result (self.new ≡ put lit clause self.old) }
    {
        self.trail.imply(lit, clause)
    }

    /// A literal is decided, whose atom has no value, and counted. The atom is known then. Its answer is the literal by its
    /// number.
    pub fn decide(&mut self, literal: Literal) -> Result<Lit, Memory>
        requires atom { is_atom self.old.held.sig self.old.held.terms literal.atom ≡ true }
        requires unset { is_unvalued self.old literal.atom ≡ true }
        requires over { AreOver (length self.old.held.atoms) self.old.trail.entries }
        requires room { self.old.decisions + 1 < 2 ^ 64 }
        ensures after { OnOk result (self.new ≡ decided (put_decision (lit_in (know literal.atom self.old).held.atoms literal) (know literal.atom self.old))) }
        ensures lit { IfOk result (λ l. l ≡ lit_in (know literal.atom self.old).held.atoms literal) }
    {
        let atom = self.know(literal.atom)?;
        let positive = literal.positive;
        let lit = Lit { atom, positive };
        self.trail.decide(lit)?;
        self.decisions += 1;
        Ok(lit)
    }

    /// The reader reads one entry more. None where it has read all.
    pub fn read_next(&mut self, reader: Reader) -> Option<Entry>
        ensures entry { IfSome result (λ e. slice_get self.old.trail.entries (head_of self.old.trail.heads reader) ≡ Some e) }
        ensures read { IfSome result (λ e. self.new ≡ read_one reader self.old) }
        ensures none { IfNone result (head_of self.old.trail.heads reader ≡ length self.old.trail.entries) }
        ensures same { IfNone result (self.new ≡ self.old) }
    {
        let head = self.trail.head(reader);
        if head < self.trail.len() {
            let entry = self.trail.entry(head);
            let _ = self.trail.take(reader);
            Some(entry)
        } else {
            None
        }
    }

    /// The trail goes back to a level, and no head stays past its end. It takes no memory.
    pub fn go_back(&mut self, level: usize)
        requires { HeadsAreWithin self.old }
        ensures { self.new ≡ back_to level self.old }
    {
        self.trail.entries_are_levelled();
        if level < self.trail.level() {
            self.trail.undo_to(level);
        }
    }

    /// The tests of the sorts are chosen.
    pub fn set_picks(&mut self, picks: Vec<Option<Pick>>)
        ensures { self.new ≡ record self.old { picks = map pick_in picks.items } }
    {
        self.picks = picks;
    }

    /// The phase is free, and the trail goes back to level 0. It takes no memory.
    pub fn turn(&mut self)
        requires { HeadsAreWithin self.old }
        ensures { self.new ≡ record (back_to 0 self.old) { free = true } }
    {
        self.go_back(0);
        self.free = true;
    }

    /// The equality of two terms is known.
    pub fn split(&mut self, a: TermId, b: TermId) -> Result<(), Memory>
        requires { is_atom self.old.held.sig self.old.held.terms (equality_of a.0 b.0) ≡ true }
        ensures { OnOk result (self.new ≡ know (equality_of a.0 b.0) self.old) }
    {
        self.know(equality(a, b))?;
        Ok(())
    }

    /// The bound is one more and known, the phase is bounded, and the trail goes back to level 0.
    pub fn raise(&mut self) -> Result<(), Memory>
        requires heads { HeadsAreWithin self.old }
        requires room { self.old.bound + 1 < 2 ^ 64 }
        ensures { OnOk result (self.new ≡ know (TheAtom.Bound (self.old.bound + 1)) (record (back_to 0 self.old) { bound = self.old.bound + 1; free = false })) }
    {
        self.go_back(0);
        self.bound += 1;
        self.free = false;
        self.know(Atom::Bound(self.bound))?;
        Ok(())
    }
}
