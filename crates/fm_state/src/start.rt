ghost use Rattle.std.specs.Prelude.{◌≡◌, ◌-◌, ◌++◌, ◌∷◌, [], ℕ, false, true, List, map, length, Some, IfOk, OnOk};
ghost use Rattle.std.specs.List.{list_all, list_any, range_with_len};
ghost use Rattle.fm_base.specs.declared.signature.Ty.{Ty as TheTy};
ghost use Rattle.fm_bank.specs.Sorted.{is_sorted_clause};
ghost use Rattle.fm_bank.specs.Interning.{nothing_over};
ghost use Rattle.fm_bank.specs.Terms.{is_type};
ghost use Rattle.fm_bank.specs.declared.atom.Atom.{Atom as TheAtom};
ghost use Rattle.fm_rounds.specs.InstanceTerms.{clauses_ground_grown, is_term_of};
ghost use Rattle.fm_state.specs.Begins.{AreRegistered, IsRegistered, bare_count_in, between, is_bare_in, is_constant_in, with_terms};
ghost use Rattle.fm_steps.specs.Lines.{IsSorted};
ghost use Rattle.fm_steps.specs.Sizes.{card, lit};
ghost use Rattle.fm_steps.specs.Start.{constants_grown, empty_state, first_state, first_terms, with_elements, with_first_sum, with_ground_clauses};

use crate::standing::State;
use fm_bank::{Atom, Bank, Clause, ClauseSet, Literal};
use fm_base::{Memory, SortId, SymId, TermId, Ty};
use fm_sat::Store;
use fm_trail::Trail;
use std::alloc::Global;

pub(crate) fn put_clauses(bank: &mut Bank, clauses: &[Clause]) -> Result<(), Memory>
    requires { list_all (is_sorted_clause bank.old.sig) clauses.now ≡ true }
    ensures { OnOk result (bank.new ≡ with_terms bank.old (clauses_ground_grown clauses.now bank.old.terms)) }
{
    for clause in clauses {
        bank.ground_terms(clause)?;
    }
    Ok(())
}

pub(crate) fn is_of(ty: Ty, sort: SortId) -> bool
    ensures { result ≡ is_type (Some ty) (TheTy.Of sort) }
{
    match ty {
        Ty::Of(other) => other.0 == sort.0,
        Ty::Bool => false,
    }
}

fn has_term_of(bank: &Bank, sort: SortId) -> bool
    ensures { result ≡ list_any (is_term_of bank.now.sig sort.0) bank.now.terms }
{
    for term in 0..bank.terms() {
        if is_of(bank.ty(TermId(term)), sort) {
            return true;
        }
    }
    false
}

pub(crate) fn has_none_of(bank: &Bank, sort: SortId) -> bool
    ensures { result ≡ is_bare_in bank.now.sig bank.now.terms sort.0 }
{
    !has_term_of(bank, sort)
}

// How many sorts have no term.
pub(crate) fn bare_sorts(bank: &Bank) -> usize
    ensures { result ≡ bare_count_in bank.now.sig bank.now.terms }
{
    let mut count = 0;
    for sort in 0..bank.sig().sorts {
        if has_none_of(bank, SortId(sort)) {
            count += 1;
        }
    }
    count
}

fn put_constants(bank: &mut Bank, first: usize, all: usize) -> Result<(), Memory>
    requires { list_all (is_constant_in bank.old.sig) (between first all) ≡ true }
    ensures { OnOk result (bank.new ≡ with_terms bank.old (constants_grown (between first all) bank.old.terms)) }
{
    for symbol in first..all {
        bank.intern(SymId(symbol), &[])?;
    }
    Ok(())
}

// The ground terms of the clauses, and the fresh constants behind them.
fn first_bank(alloc: Global, clauses: &ClauseSet) -> Result<Bank, Memory>
    requires { IsSorted clauses.now }
    ensures { IfOk result (λ b. b ≡ with_terms (nothing_over clauses.now.sig) (first_terms clauses.now)) }
{
    let mut bank = Bank::new(alloc, &clauses.sig)?;
    put_clauses(&mut bank, clauses.clauses.as_slice())?;
    let all = clauses.sig.ranks.len();
    let bare = bare_sorts(&bank);
    put_constants(&mut bank, all.saturating_sub(bare), all)?;
    Ok(bank)
}

// The sum of all sizes isn't below the number of sorts, of which there is one at least.
fn first_sum(alloc: Global, sorts: usize) -> Result<Vec<Literal>, Memory>
    ensures { IfOk result (λ v. v.items ≡ map (λ (u : ℕ). lit true (card u 0)) (range_with_len 0 sorts) ++ lit false (TheAtom.Bound (sorts - 1)) ∷ []) }
{
    let mut found = Vec::new(alloc);
    for sort in 0..sorts {
        let atom = Atom::Card(SortId(sort), 0);
        found.push(Literal {
            positive: true,
            atom,
        })?;
    }
    let atom = Atom::Bound(sorts.saturating_sub(1) as u64);
    found.push(Literal {
        positive: false,
        atom,
    })?;
    Ok(found)
}

impl State {
    /// The state at the start of a search for a model of the clauses: the ground terms of the clauses and the fresh constants
    /// are registered; the clauses without variables, that no sort is empty, and the first sum stand in order; and the first
    /// bound, the number of sorts, is known.
    pub fn start(alloc: Global, clauses: &ClauseSet) -> Result<State, Memory>
        requires { IsSorted clauses.now }
        ensures { IfOk result (λ s. s ≡ first_state clauses.now) }
    {
        let sorts = clauses.sig.sorts;
        let mut state = State::without_clauses(alloc, clauses)?;
        state.add_ground_clauses(clauses.clauses.as_slice())?;
        state.add_elements(sorts)?;
        state.add_first_sum(sorts)?;
        state.know(Atom::Bound(sorts as u64))?;
        Ok(state)
    }

    fn without_clauses(alloc: Global, clauses: &ClauseSet) -> Result<State, Memory>
        requires { IsSorted clauses.now }
        ensures { IfOk result (λ s. s ≡ empty_state clauses.now) }
    {
        let bank = first_bank(alloc, clauses)?;
        Ok(State {
            alloc,
            bound: clauses.sig.sorts as u64,
            free: false,
            bank,
            store: Store::new(alloc),
            trail: Trail::new(alloc),
            added: Vec::new(alloc),
            instances: 0,
            decisions: 0,
            picks: Vec::new(alloc),
        })
    }

    fn add_ground_clause(&mut self, clause: &Clause) -> Result<(), Memory>
        requires { IsRegistered self.old.held.sig self.old.held.terms clause.now }
        ensures { OnOk result (self.new ≡ with_ground_clauses (clause.now ∷ []) self.old) }
    {
        if clause.vars.len() == 0 {
            self.add_instance_clause(clause, &[])?;
        }
        Ok(())
    }

    // The clauses without variables, whose terms are registered.
    fn add_ground_clauses(&mut self, clauses: &[Clause]) -> Result<(), Memory>
        requires { AreRegistered self.old.held.sig self.old.held.terms clauses.now }
        ensures { OnOk result (self.new ≡ with_ground_clauses clauses.now self.old) }
    {
        for clause in clauses {
            self.add_ground_clause(clause)?;
        }
        Ok(())
    }

    // No sort is empty.
    fn add_elements(&mut self, sorts: usize) -> Result<(), Memory>
        requires { sorts ≡ self.old.held.sig.sorts }
        ensures { OnOk result (self.new ≡ with_elements (range_with_len 0 sorts) self.old) }
    {
        for sort in 0..sorts {
            let atom = Atom::Card(SortId(sort), 0);
            self.add_lemma(&[Literal {
                positive: false,
                atom,
            }])?;
        }
        Ok(())
    }

    fn add_first_sum(&mut self, sorts: usize) -> Result<(), Memory>
        requires { sorts ≡ self.old.held.sig.sorts }
        ensures { OnOk result (self.new ≡ with_first_sum sorts self.old) }
    {
        if sorts > 0 {
            let lits = first_sum(self.alloc, sorts)?;
            self.add_lemma(lits.as_slice())?;
        }
        Ok(())
    }
}
