ghost use Rattle.std.specs.Prelude.{List, ◌≡◌, ◌≢◌, ◌++◌, ◌∷◌, [], ℕ, true, false, slice_get, Some, IfOk, IfSome, IfNone, OnOk};
ghost use Rattle.std.specs.List.{list_all, list_any};
ghost use Rattle.fm_bank.specs.Interning.{IsFront};
ghost use Rattle.fm_cert.specs.Lines.{Chain, Clause};
ghost use Rattle.fm_resolve.specs.Marks.{is_same, members};
ghost use Rattle.fm_resolve.specs.Names.{AreNumbered, IsNumbered, name, names};
ghost use Rattle.fm_resolve.specs.Stores.{HasAlone, HasEmpty, IsReady, clauses_in, is_alone};

use crate::chain::resolution;
use crate::marks::{Marks, same};
use crate::names::{find_lit, put_atom};
use fm_bank::{Atom, Literal};
use fm_base::{AtomId, Lit, Memory};
use indexmap::IndexSet;
use sqlite_items::{Items, at};
use std::alloc::Global;

/// Clauses by number, each with its literals by number. Each atom has one number.
///
/// `IsReady` is what its calls ask for and leave. A store is given up after want of memory, since a chain that stopped
/// has left marks.
#[derive(Drop)]
pub struct Store {
    alloc: Global,
    atoms: IndexSet<Atom>,
    clauses: Vec<Items<Lit>>,
    marks: Marks,
}

impl Store {
    /// No clauses.
    pub fn new(alloc: Global) -> Store
        ensures ready { IsReady result }
        ensures empty { clauses_in result ≡ [] }
    {
        Store {
            alloc,
            atoms: IndexSet::new(alloc),
            clauses: Vec::new(alloc),
            marks: Marks::new(alloc),
        }
    }

    // The number of a literal, which is new where its atom isn't there yet.
    fn number(&mut self, lit: Literal) -> Result<Lit, Memory>
        requires ready { IsReady self.old }
        ensures named { IfOk result (λ l. name self.new.atoms.keys l ≡ lit) }
        ensures numbered { IfOk result (λ l. IsNumbered self.new.atoms.keys l) }
        ensures ready { OnOk result (IsReady self.new) }
        ensures front { OnOk result (IsFront self.old.atoms.keys self.new.atoms.keys) }
        ensures clauses { self.new.clauses.items ≡ self.old.clauses.items }
    {
        let (place, is_new) = put_atom(&mut self.atoms, lit.atom)?;
        if is_new {
            self.marks.grow()?;
        }
        Ok(Lit {
            atom: AtomId(place),
            positive: lit.positive,
        })
    }

    fn number_all(&mut self, lits: &[Literal]) -> Result<Vec<Lit>, Memory>
        requires ready { IsReady self.old }
        ensures named { IfOk result (λ ls. names self.new.atoms.keys ls.items ≡ lits.now) }
        ensures numbered { IfOk result (λ ls. AreNumbered self.new.atoms.keys ls.items) }
        ensures ready { OnOk result (IsReady self.new) }
        ensures front { OnOk result (IsFront self.old.atoms.keys self.new.atoms.keys) }
        ensures clauses { self.new.clauses.items ≡ self.old.clauses.items }
    {
        let mut numbers = Vec::new(self.alloc);
        for lit in lits {
            let number = self.number(*lit)?;
            numbers.push(number)?;
        }
        Ok(numbers)
    }

    fn put(&mut self, lits: &[Lit]) -> Result<(), Memory>
        requires ready { IsReady self.old }
        requires numbered { AreNumbered self.old.atoms.keys lits.now }
        ensures clauses { OnOk result (clauses_in self.new ≡ clauses_in self.old ++ names self.old.atoms.keys lits.now ∷ []) }
        ensures ready { OnOk result (IsReady self.new) }
    {
        let clause = Items::from_slice(self.alloc, lits)?;
        self.clauses.push(clause)?;
        Ok(())
    }

    /// Puts a clause behind the others.
    pub fn push(&mut self, lits: &[Literal]) -> Result<(), Memory>
        requires ready { IsReady self.old }
        ensures clauses { OnOk result (clauses_in self.new ≡ clauses_in self.old ++ lits.now ∷ []) }
        ensures ready { OnOk result (IsReady self.new) }
    {
        let numbers = self.number_all(lits)?;
        self.put(numbers.as_slice())
    }

    // The clause that a resolution gives.
    fn resolved(
        &mut self,
        first: usize,
        steps: &[(Literal, usize)],
    ) -> Result<Option<Vec<Lit>>, Memory>
        requires ready { IsReady self.old }
        ensures some { IfOk result (λ o. IfSome o (λ v. (start : Clause) × (slice_get (clauses_in self.old) first ≡ Some start) × Chain (clauses_in self.old) start steps.now (names self.old.atoms.keys v.items))) }
        ensures numbered { IfOk result (λ o. IfSome o (λ v. AreNumbered self.old.atoms.keys v.items)) }
        ensures none { IfOk result (λ o. IfNone o ((start : Clause) → (r : Clause) → slice_get (clauses_in self.old) first ≡ Some start → Chain (clauses_in self.old) start steps.now r → ⊥)) }
        ensures ready { OnOk result (IsReady self.new) }
        ensures atoms { self.new.atoms ≡ self.old.atoms }
        ensures clauses { self.new.clauses.items ≡ self.old.clauses.items }
    {
        match at(self.clauses.as_slice(), first) {
            None => Ok(None),
            Some(start) => {
                let lits = resolution(
                    self.alloc,
                    &mut self.marks,
                    &self.atoms,
                    self.clauses.as_slice(),
                    start.as_slice(),
                    steps,
                )?;
                Ok(lits)
            }
        }
    }

    /// Puts the clause of a resolution behind the others, if there is one: the clause of the first number resolved with
    /// the clause of each step on the literal beside it.
    pub fn resolve(&mut self, first: usize, steps: &[(Literal, usize)]) -> Result<bool, Memory>
        requires ready { IsReady self.old }
        ensures yes { IfOk result (λ b. b ≡ true → (start : Clause) × (r : Clause) × (slice_get (clauses_in self.old) first ≡ Some start) × Chain (clauses_in self.old) start steps.now r × (clauses_in self.new ≡ clauses_in self.old ++ r ∷ [])) }
        ensures no { IfOk result (λ b. b ≡ false → (start : Clause) → (r : Clause) → slice_get (clauses_in self.old) first ≡ Some start → Chain (clauses_in self.old) start steps.now r → ⊥) }
        ensures ready { OnOk result (IsReady self.new) }
    {
        match self.resolved(first, steps)? {
            None => Ok(false),
            Some(lits) => {
                self.put(lits.as_slice())?;
                Ok(true)
            }
        }
    }

    /// Whether one of the clauses is empty.
    pub fn has_empty(&self) -> bool
        ensures some { result ≡ true → HasEmpty (clauses_in self.now) }
        ensures none { result ≡ false → HasEmpty (clauses_in self.now) → ⊥ }
    {
        find_empty(self.clauses.as_slice()).is_some()
    }

    /// Whether one of the clauses has this literal and no other.
    pub fn has_alone(&self, lit: Literal) -> bool
        requires ready { IsReady self.now }
        ensures some { result ≡ true → HasAlone (clauses_in self.now) lit }
        ensures none { result ≡ false → HasAlone (clauses_in self.now) lit → ⊥ }
    {
        match find_lit(&self.atoms, lit) {
            None => false,
            Some(number) => some_alone(self.clauses.as_slice(), number),
        }
    }
}

// The place of the first empty clause.
fn find_empty(clauses: &[Items<Lit>]) -> Option<usize>
    ensures some { IfSome result (λ i. slice_get clauses.now i ≡ Some []) }
    ensures none { IfNone result ((i : ℕ) → slice_get clauses.now i ≡ Some [] → ⊥) }
{
    for (i, clause) in clauses.iter().enumerate() {
        if clause.is_empty() {
            return Some(i);
        }
    }
    None
}

fn are_same(lits: &[Lit], lit: Lit) -> bool
    ensures { result ≡ list_all (λ k. is_same k lit) lits.now }
{
    lits.iter().all(|other| same(*other, lit))
}

fn is_alone(lits: &[Lit], lit: Lit) -> bool
    ensures { result ≡ is_alone lit lits.now }
{
    match lits.split_first() {
        None => false,
        Some((first, rest)) => same(*first, lit) && are_same(rest, lit),
    }
}

fn some_alone(clauses: &[Items<Lit>], lit: Lit) -> bool
    ensures { result ≡ list_any (is_alone lit) clauses.now }
{
    clauses
        .iter()
        .any(|clause| is_alone(clause.as_slice(), lit))
}
