ghost use Rattle.std.specs.Prelude.{◌≡◌, ◌++◌, ◌<◌, ◌+◌, ◌^◌, ℕ, List, Option, None, Some, length, map, nat_lt, slice_get, true, IfOk, OnOk};
ghost use Rattle.std.specs.Option.{option_map};
ghost use Rattle.fm_bank.specs.Instances.{equality as equality_of};
ghost use Rattle.fm_bank.specs.Terms.{numbers};
ghost use Rattle.fm_steps.specs.Lemmas.{bound_order as bound_order_of, bounds_from, card_order as card_order_of, is_sum_due as is_sum_due_in, literal_fails as literal_fails_in, sum_literals as sum_literals_of, total_above};
ghost use Rattle.fm_steps.specs.Menu.{open_literals};
ghost use Rattle.fm_steps.specs.Picks.{clique_lemma as clique_lemma_of, pair_literals};
ghost use Rattle.fm_steps.specs.Sizes.{lit};
ghost use Rattle.fm_steps.specs.State.{Pick};
ghost use Rattle.fm_state.specs.Groups.{asks_for as asks_for_in, clique_in, listed};

use crate::sizes::{greatest_false, holds, is_unvalued};
use crate::standing::State;
use fm_bank::{Atom, Literal};
use fm_base::{Memory, SortId, TermId};
use std::alloc::Global;

fn literal_fails(state: &State, literal: Literal) -> bool
    ensures { result ≡ literal_fails_in state.now literal }
{
    holds(state, !literal.positive, literal.atom)
}

fn asks_for_one(state: &State, left: Option<Literal>) -> Option<bool>
    ensures { result ≡ asks_for_in state.now (listed left) }
{
    match left {
        None => Some(false),
        Some(literal) if is_unvalued(state, literal.atom) => Some(true),
        Some(_) => None,
    }
}

// Whether the lemma of these literals is unit and to imply one, or false and to be added alone; none where it is neither.
pub(crate) fn asks_for(state: &State, literals: &[Literal]) -> Option<bool>
    ensures { result ≡ asks_for_in state.now (open_literals state.now literals.now) }
{
    let mut left = None;
    for literal in literals {
        if literal_fails(state, *literal) {
            continue;
        }
        if left.is_some() {
            return None;
        }
        left = Some(*literal);
    }
    asks_for_one(state, left)
}

pub(crate) fn equality(a: TermId, b: TermId) -> Atom
    ensures { result ≡ equality_of a.0 b.0 }
{
    if a.0 <= b.0 {
        Atom::Equal(a, b)
    } else {
        Atom::Equal(b, a)
    }
}

// The equalities of a term with each of the others.
fn put_equalities(literals: &mut Vec<Literal>, a: TermId, others: &[TermId]) -> Result<(), Memory>
    ensures { OnOk result (literals.new.items ≡ literals.old.items ++ map (λ b. lit true (equality_of a.0 b)) (numbers others.now)) }
{
    for b in others {
        let atom = equality(a, *b);
        literals.push(Literal {
            positive: true,
            atom,
        })?;
    }
    Ok(())
}

fn put_pairs(literals: &mut Vec<Literal>, terms: &[TermId]) -> Result<(), Memory>
    ensures { OnOk result (literals.new.items ≡ literals.old.items ++ pair_literals (numbers terms.now)) }
{
    let mut rest = terms;
    while let Some((a, others)) = rest.split_first() {
        put_equalities(literals, *a, others)?;
        rest = others;
    }
    Ok(())
}

// The lemma of a clique.
pub(crate) fn clique_lemma(
    alloc: Global,
    sort: SortId,
    terms: &[TermId],
) -> Result<Vec<Literal>, Memory>
    ensures { IfOk result (λ v. v.items ≡ clique_lemma_of sort.0 (numbers terms.now)) }
{
    let mut literals = Vec::new(alloc);
    let atom = Atom::Card(sort, terms.len().saturating_sub(1) as u64);
    literals.push(Literal {
        positive: false,
        atom,
    })?;
    put_pairs(&mut literals, terms)?;
    Ok(literals)
}

// How many sorts there are, by their picks.
pub(crate) fn pick_count(state: &State) -> usize
    ensures { result ≡ length state.now.picks }
{
    state.picks.len()
}

// The terms of the pick of a sort, where that is a clique.
pub(crate) fn clique_at(state: &State, sort: usize) -> Option<&[TermId]>
    requires { sort < length state.now.picks }
    ensures { (p : Option Pick) → slice_get state.now.picks sort ≡ Some p → option_map (λ ts. numbers ts.now) result ≡ clique_in p }
{
    match &state.picks[sort] {
        Some(pick) if pick.pair.is_none() => Some(pick.terms.as_slice()),
        _ => None,
    }
}

// The greatest false bound of each sort, where each has one.
pub(crate) fn bounds(state: &State) -> Result<Option<Vec<u64>>, Memory>
    ensures { IfOk result (λ o. option_map (λ v. v.items) o ≡ bounds_from state.now 0 state.now.held.sig.sorts) }
{
    let mut numbers = Vec::new(state.alloc);
    for sort in 0..state.bank().sig().sorts {
        match greatest_false(state, SortId(sort)) {
            None => return Ok(None),
            Some(number) => numbers.push(number)?,
        }
    }
    Ok(Some(numbers))
}

// Whether these bounds, each with one more, add up to more than n. No sum of them is formed.
fn pass(numbers: &[u64], n: u64) -> bool
    ensures { result ≡ nat_lt n (total_above numbers.now) }
{
    let mut left = n;
    for number in numbers {
        if *number >= left {
            return true;
        }
        left -= *number + 1;
    }
    false
}

pub(crate) fn is_sum_due(state: &State, numbers: &[u64]) -> bool
    ensures { result ≡ is_sum_due_in state.now (Some numbers.now) }
{
    pass(numbers, state.bound()) && holds(state, true, Atom::Bound(state.bound()))
}

pub(crate) fn sum_lemma(state: &State, numbers: &[u64]) -> Result<Vec<Literal>, Memory>
    ensures { IfOk result (λ v. v.items ≡ sum_literals_of state.now 0 numbers.now) }
{
    let mut literals = Vec::new(state.alloc);
    for (sort, number) in numbers.iter().enumerate() {
        let atom = Atom::Card(SortId(sort), *number);
        literals.push(Literal {
            positive: true,
            atom,
        })?;
    }
    let atom = Atom::Bound(state.bound());
    literals.push(Literal {
        positive: false,
        atom,
    })?;
    Ok(literals)
}

/// What has at most k elements has at most k + 1.
pub fn card_order(sort: SortId, k: u64) -> [Literal; 2]
    requires { k + 1 < 2 ^ 64 }
    ensures { result ≡ card_order_of sort.0 k }
{
    [
        Literal {
            positive: false,
            atom: Atom::Card(sort, k),
        },
        Literal {
            positive: true,
            atom: Atom::Card(sort, k + 1),
        },
    ]
}

/// A sum of sizes that is at most n is at most n + 1.
pub fn bound_order(n: u64) -> [Literal; 2]
    requires { n + 1 < 2 ^ 64 }
    ensures { result ≡ bound_order_of n }
{
    [
        Literal {
            positive: false,
            atom: Atom::Bound(n),
        },
        Literal {
            positive: true,
            atom: Atom::Bound(n + 1),
        },
    ]
}

impl State {
    /// The lemma of a sort's test that is a clique, and the terms of the test.
    pub fn clique_literals(&self, sort: SortId) -> Result<(Vec<Literal>, Vec<TermId>), Memory>
        requires { (terms : List ℕ) × (slice_get self.now.picks sort.0 ≡ Some (Some (record { terms = terms; pair = None }))) }
        ensures terms { IfOk result (λ r. slice_get self.now.picks sort.0 ≡ Some (Some (record { terms = numbers r.1.items; pair = None }))) }
        ensures literals { IfOk result (λ r. r.0.items ≡ clique_lemma_of sort.0 (numbers r.1.items)) }
    {
        match clique_at(self, sort.0) {
            None => unreachable!(),
            Some(slice) => {
                let mut terms = Vec::new(self.alloc);
                terms.extend_from_slice(slice)?;
                let literals = clique_lemma(self.alloc, sort, slice)?;
                Ok((literals, terms))
            }
        }
    }

    /// The lemma of the sum, where each sort has a greatest false bound, and these bounds.
    pub fn sum_literals(&self) -> Result<(Vec<Literal>, Vec<u64>), Memory>
        requires { (ks : List ℕ) × (bounds_from self.now 0 self.now.held.sig.sorts ≡ Some ks) }
        ensures numbers { IfOk result (λ r. bounds_from self.now 0 self.now.held.sig.sorts ≡ Some r.1.items) }
        ensures literals { IfOk result (λ r. r.0.items ≡ sum_literals_of self.now 0 r.1.items) }
    {
        match bounds(self)? {
            None => unreachable!(),
            Some(numbers) => {
                let literals = sum_lemma(self, numbers.as_slice())?;
                Ok((literals, numbers))
            }
        }
    }
}
