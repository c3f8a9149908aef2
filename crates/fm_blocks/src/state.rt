ghost use Rattle.std.specs.Prelude.{◌≡◌, ◌≢◌, ◌++◌, ◌∷◌, [], ◌<◌, ◌+◌, ◌^◌, length, slice_get, Some, true, false, IfOk, IfSome, IfNone, OnOk};
ghost use Rattle.std.specs.List.{list_any};
ghost use Rattle.fm_base.specs.declared.signature.Ty.{Ty as TheTy};
ghost use Rattle.fm_bank.specs.Terms.{application, is_same, is_term, numbers};
ghost use Rattle.fm_cert.specs.Lines.{Chain, Clause as TheClause, IsConflict, Makes, Problem, above, are_of_sort, at_most, more_than, nothing, some_equal, sum_clause, total_above, within};
ghost use Rattle.fm_blocks.specs.Faults.{IsBadLine};
ghost use Rattle.fm_blocks.specs.States.{Adds, HasInstance, IsOver, made_by};
ghost use Rattle.fm_resolve.specs.Stores.{IsReady, clauses_in};

use crate::conflict::is_conflict;
use crate::lits::{has_sort, is_below, is_one_more, lit, pigeonholes, sum_lits};
use fm_bank::{Atom, Bank, Clause, Literal};
use fm_base::{Memory, Sig, SortId, SymId, TermId};
use fm_cert::Line;
use fm_resolve::Store;
use sqlite_items::at;
use std::alloc::Global;

// What the lines so far have made: the terms in a bank, and the clauses.
#[derive(Drop)]
pub(crate) struct State {
    alloc: Global,
    bank: Bank,
    pub store: Store,
}

impl State {
    /// Nothing is made yet.
    pub fn new(alloc: Global, sig: &Sig) -> Result<State, Memory>
        ensures sig { IfOk result (λ s. s.bank.sig ≡ sig.now) }
        ensures ready { IfOk result (λ s. IsReady s.store) }
        ensures nothing { IfOk result (λ s. made_by s ≡ nothing) }
    {
        let bank = Bank::new(alloc, sig)?;
        Ok(State {
            alloc,
            bank,
            store: Store::new(alloc),
        })
    }

    /// Takes a line, if it is good.
    pub fn take(&mut self, table: &[Clause], line: &Line) -> Result<bool, Memory>
        requires ready { IsReady self.old.store }
        ensures good { IfOk result (λ b. b ≡ true → (p : Problem) → IsOver p self.old table.now → Makes p (made_by self.old) line.now (made_by self.new)) }
        ensures bad { IfOk result (λ b. b ≡ false → (p : Problem) → IsOver p self.old table.now → IsBadLine p (made_by self.old) line.now) }
        ensures sig { self.new.bank.sig ≡ self.old.bank.sig }
        ensures ready { OnOk result (IsReady self.new.store) }
    {
        match line {
            Line::Term { symbol, args } => self.term(*symbol, args.as_slice()),
            Line::Instance { clause, terms } => self.instance(table, *clause, terms.as_slice()),
            Line::Cardinality { sort, k, terms } => self.cardinality(*sort, *k, terms.as_slice()),
            Line::Sum { n, ks } => self.sum(*n, ks.as_slice()),
            Line::OrderZero { sort } => self.order_zero(*sort),
            Line::OrderCard { sort, k } => self.order_card(*sort, *k),
            Line::OrderBound { n } => self.order_bound(*n),
            Line::Resolution { first, steps } => self.resolution(*first, steps.as_slice()),
            Line::Equality { lits, support } => self.equality(lits.as_slice(), support.as_slice()),
        }
    }

    fn has_term(&self, symbol: SymId, args: &[TermId]) -> bool
        ensures { result ≡ list_any (is_same (application symbol args.now)) self.now.bank.terms }
    {
        self.bank.find(symbol, args).is_some()
    }

    fn is_new_term(&self, symbol: SymId, args: &[TermId]) -> bool
        ensures sorted { result ≡ true → is_term self.now.bank.sig self.now.bank.terms (application symbol args.now) ≡ true }
        ensures new { result ≡ true → list_any (is_same (application symbol args.now)) self.now.bank.terms ≡ false }
        ensures old { result ≡ false → is_term self.now.bank.sig self.now.bank.terms (application symbol args.now) ≡ true → list_any (is_same (application symbol args.now)) self.now.bank.terms ≡ false → ⊥ }
    {
        self.bank.is_term(symbol, args) && !self.has_term(symbol, args)
    }

    fn term(&mut self, symbol: SymId, args: &[TermId]) -> Result<bool, Memory>
        ensures sorted { IfOk result (λ b. b ≡ true → is_term self.old.bank.sig self.old.bank.terms (application symbol args.now) ≡ true) }
        ensures new { IfOk result (λ b. b ≡ true → list_any (is_same (application symbol args.now)) self.old.bank.terms ≡ false) }
        ensures terms { IfOk result (λ b. b ≡ true → self.new.bank.terms ≡ self.old.bank.terms ++ application symbol args.now ∷ []) }
        ensures old { IfOk result (λ b. b ≡ false → is_term self.old.bank.sig self.old.bank.terms (application symbol args.now) ≡ true → list_any (is_same (application symbol args.now)) self.old.bank.terms ≡ false → ⊥) }
        ensures store { self.new.store ≡ self.old.store }
        ensures over { self.new.bank.sig ≡ self.old.bank.sig }
    {
        if !self.is_new_term(symbol, args) {
            return Ok(false);
        }
        self.bank.intern(symbol, args)?;
        Ok(true)
    }

    // The literals of an instance, where the clause is one of the table, the terms fit, and all its terms are there.
    fn find_instance(
        &self,
        table: &[Clause],
        clause: usize,
        terms: &[TermId],
    ) -> Result<Option<Vec<Literal>>, Memory>
        ensures some { IfOk result (λ o. IfSome o (λ lits. HasInstance table.now self.now.bank clause (numbers terms.now) lits.items)) }
        ensures none { IfOk result (λ o. IfNone o ((lits : TheClause) → HasInstance table.now self.now.bank clause (numbers terms.now) lits → ⊥)) }
    {
        let Some(input) = at(table, clause) else {
            return Ok(None);
        };
        if !self.bank.is_substitution(input.vars.as_slice(), terms) {
            return Ok(None);
        }
        let lits = self.bank.find_instance(input, terms)?;
        Ok(lits)
    }

    fn instance(
        &mut self,
        table: &[Clause],
        clause: usize,
        terms: &[TermId],
    ) -> Result<bool, Memory>
        requires ready { IsReady self.old.store }
        ensures good { IfOk result (λ b. b ≡ true → (lits : TheClause) × HasInstance table.now self.old.bank clause (numbers terms.now) lits × (Adds self.old self.new lits)) }
        ensures bad { IfOk result (λ b. b ≡ false → (lits : TheClause) → HasInstance table.now self.old.bank clause (numbers terms.now) lits → ⊥) }
        ensures bank { self.new.bank ≡ self.old.bank }
        ensures ready { OnOk result (IsReady self.new.store) }
    {
        match self.find_instance(table, clause, terms)? {
            None => Ok(false),
            Some(lits) => {
                self.store.push(lits.as_slice())?;
                Ok(true)
            }
        }
    }

    fn equality(&mut self, lits: &[Literal], support: &[TermId]) -> Result<bool, Memory>
        requires ready { IsReady self.old.store }
        ensures good { IfOk result (λ b. b ≡ true → IsConflict self.old.bank.sig self.old.bank.terms lits.now (numbers support.now)) }
        ensures clause { IfOk result (λ b. b ≡ true → Adds self.old self.new lits.now) }
        ensures bad { IfOk result (λ b. b ≡ false → IsConflict self.old.bank.sig self.old.bank.terms lits.now (numbers support.now) → ⊥) }
        ensures bank { self.new.bank ≡ self.old.bank }
        ensures ready { OnOk result (IsReady self.new.store) }
    {
        if !is_conflict(self.alloc, &self.bank, lits, support)? {
            return Ok(false);
        }
        self.store.push(lits)?;
        Ok(true)
    }

    fn are_of_sort(&self, sort: SortId, terms: &[TermId]) -> bool
        ensures { result ≡ are_of_sort self.now.bank.sig self.now.bank.terms (TheTy.Of sort) (numbers terms.now) }
    {
        for term in terms {
            if !has_sort(self.bank.find_type(*term), sort) {
                return false;
            }
        }
        true
    }

    fn cardinality(&mut self, sort: SortId, k: u64, terms: &[TermId]) -> Result<bool, Memory>
        requires ready { IsReady self.old.store }
        ensures count { IfOk result (λ b. b ≡ true → length terms.now ≡ k + 1) }
        ensures sorted { IfOk result (λ b. b ≡ true → are_of_sort self.old.bank.sig self.old.bank.terms (TheTy.Of sort) (numbers terms.now) ≡ true) }
        ensures clause { IfOk result (λ b. b ≡ true → Adds self.old self.new (more_than sort.0 k ∷ some_equal (numbers terms.now))) }
        ensures bad { IfOk result (λ b. b ≡ false → length terms.now ≡ k + 1 → are_of_sort self.old.bank.sig self.old.bank.terms (TheTy.Of sort) (numbers terms.now) ≡ true → ⊥) }
        ensures bank { self.new.bank ≡ self.old.bank }
        ensures ready { OnOk result (IsReady self.new.store) }
    {
        if !is_one_more(terms.len(), k) {
            return Ok(false);
        }
        if !self.are_of_sort(sort, terms) {
            return Ok(false);
        }
        let lits = pigeonholes(self.alloc, sort, k, terms)?;
        self.store.push(lits.as_slice())?;
        Ok(true)
    }

    fn sum(&mut self, n: u64, ks: &[u64]) -> Result<bool, Memory>
        requires ready { IsReady self.old.store }
        ensures count { IfOk result (λ b. b ≡ true → length ks.now ≡ self.old.bank.sig.sorts) }
        ensures below { IfOk result (λ b. b ≡ true → n < total_above ks.now) }
        ensures clause { IfOk result (λ b. b ≡ true → Adds self.old self.new (sum_clause 0 ks.now n)) }
        ensures bad { IfOk result (λ b. b ≡ false → length ks.now ≡ self.old.bank.sig.sorts → n < total_above ks.now → ⊥) }
        ensures bank { self.new.bank ≡ self.old.bank }
        ensures ready { OnOk result (IsReady self.new.store) }
    {
        if ks.len() != self.bank.sig().sorts {
            return Ok(false);
        }
        if !is_below(n, ks) {
            return Ok(false);
        }
        let lits = sum_lits(self.alloc, ks, n)?;
        self.store.push(lits.as_slice())?;
        Ok(true)
    }

    fn order_zero(&mut self, sort: SortId) -> Result<bool, Memory>
        requires ready { IsReady self.old.store }
        ensures good { IfOk result (λ b. b ≡ true → (sort.0 < self.old.bank.sig.sorts) × (Adds self.old self.new (more_than sort.0 0 ∷ []))) }
        ensures bad { IfOk result (λ b. b ≡ false → sort.0 < self.old.bank.sig.sorts → ⊥) }
        ensures bank { self.new.bank ≡ self.old.bank }
        ensures ready { OnOk result (IsReady self.new.store) }
    {
        if sort.0 >= self.bank.sig().sorts {
            return Ok(false);
        }
        self.store.push(&[lit(false, Atom::Card(sort, 0))])?;
        Ok(true)
    }

    fn order_card(&mut self, sort: SortId, k: u64) -> Result<bool, Memory>
        requires ready { IsReady self.old.store }
        ensures good { IfOk result (λ b. b ≡ true → (sort.0 < self.old.bank.sig.sorts) × (k + 1 < 2 ^ 64) × (Adds self.old self.new (more_than sort.0 k ∷ at_most sort.0 (k + 1) ∷ []))) }
        ensures bad { IfOk result (λ b. b ≡ false → sort.0 < self.old.bank.sig.sorts → k + 1 < 2 ^ 64 → ⊥) }
        ensures bank { self.new.bank ≡ self.old.bank }
        ensures ready { OnOk result (IsReady self.new.store) }
    {
        if sort.0 >= self.bank.sig().sorts {
            return Ok(false);
        }
        match k.checked_add(1) {
            None => Ok(false),
            Some(more) => {
                self.store.push(&[
                    lit(false, Atom::Card(sort, k)),
                    lit(true, Atom::Card(sort, more)),
                ])?;
                Ok(true)
            }
        }
    }

    fn order_bound(&mut self, n: u64) -> Result<bool, Memory>
        requires ready { IsReady self.old.store }
        ensures good { IfOk result (λ b. b ≡ true → (n + 1 < 2 ^ 64) × (Adds self.old self.new (above n ∷ within (n + 1) ∷ []))) }
        ensures bad { IfOk result (λ b. b ≡ false → n + 1 < 2 ^ 64 → ⊥) }
        ensures bank { self.new.bank ≡ self.old.bank }
        ensures ready { OnOk result (IsReady self.new.store) }
    {
        match n.checked_add(1) {
            None => Ok(false),
            Some(more) => {
                self.store.push(&[lit(false, Atom::Bound(n)), lit(true, Atom::Bound(more))])?;
                Ok(true)
            }
        }
    }

    fn resolution(&mut self, first: usize, steps: &[(Literal, usize)]) -> Result<bool, Memory>
        requires ready { IsReady self.old.store }
        ensures some { IfOk result (λ b. b ≡ true → steps.now ≢ []) }
        ensures good { IfOk result (λ b. b ≡ true → (start : TheClause) × (r : TheClause) × (slice_get (clauses_in self.old.store) first ≡ Some start) × Chain (clauses_in self.old.store) start steps.now r × (Adds self.old self.new r)) }
        ensures bad { IfOk result (λ b. b ≡ false → steps.now ≢ [] → (start : TheClause) (r : TheClause) → slice_get (clauses_in self.old.store) first ≡ Some start → Chain (clauses_in self.old.store) start steps.now r → ⊥) }
        ensures bank { self.new.bank ≡ self.old.bank }
        ensures ready { OnOk result (IsReady self.new.store) }
    {
        if steps.is_empty() {
            return Ok(false);
        }
        self.store.resolve(first, steps)
    }
}
