ghost use Rattle.std.specs.Prelude.{◌≡◌, ◌↔◌, ◌<◌, List, Bool, IsTrue, length, slice_get, true, false, Some, IfOk, IfSome, IfNone};
ghost use Rattle.fm_bank.specs.Closure.{object};
ghost use Rattle.fm_bank.specs.Tests.{Tests as TheTests};
ghost use Rattle.fm_bank.specs.declared.atom.Atom.{Atom as TheAtom};
ghost use Rattle.fm_cong.specs.Clashes.{HasEqualSides, HaveTwoTruths, IsClash};
ghost use Rattle.fm_cong.specs.Held.{AreEqual, AreUnequal, IsRegistered, IsSettled};
ghost use Rattle.fm_cong.specs.Tests.{AreTestsOf};
ghost use Rattle.fm_explain.specs.Explanations.{IsKnownBy, truth_node};
ghost use Rattle.fm_readers.specs.Graphs.{HasRead, HasTerms};
ghost use Rattle.fm_readers.specs.Shown.{HasNoSides, IsAtom, IsBetween, IsWitness, ShowsClash, ShowsValue};
ghost use Rattle.fm_steps.specs.Content.{decides};
ghost use Rattle.fm_trail.specs.declared.entry.Entry.{Entry as TheEntry};

use crate::shown::{put, put_equal, put_truth};
use fm_bank::{Atom, Bank, Literal};
use fm_base::{AtomId, Memory, TermId};
use fm_cong::{Clash, Egraph};
use indexmap::IndexSet;
use std::alloc::Global;

/// A lemma of congruence closure, with a support: terms by which a line of a certificate shows the same.
#[derive(Drop)]
pub struct Lemma {
    /// The clause: its literals, each once.
    pub lits: Vec<Literal>,
    /// The terms on the paths of the explanation: with the terms of the literals, and the subterms of both, these are all
    /// that congruence closure needs to show that the literals can't all be false. No order is promised, and a term may stand
    /// there twice.
    pub support: Vec<TermId>,
}

fn all_of(alloc: Global, lits: &IndexSet<Literal>) -> Result<Vec<Literal>, Memory>
    ensures { IfOk result (λ v. v.items ≡ lits.now.keys) }
{
    let mut list = Vec::new(alloc);
    list.extend_from_slice(lits.as_slice())?;
    Ok(list)
}

// The sides are equal, and were read as unequal.
fn equality_lemma(
    alloc: Global,
    graph: &Egraph,
    bank: &Bank,
    a: TermId,
    b: TermId,
) -> Result<Lemma, Memory>
    requires atom { IsAtom bank.now (TheAtom.Equal a b) }
    requires terms { HasTerms bank.now (length bank.now.terms) graph.now }
    requires known { IsKnownBy graph.now bank.now }
    requires equal { AreEqual graph.now (object a.0) (object b.0) }
    ensures { (es : List TheEntry) → HasRead bank.now.atoms es graph.now → IfOk result (λ m. ShowsValue bank.now es (TheAtom.Equal a b) true m.lits.items m.support.items) }
{
    bank.one_number_per_term();
    let mut lits = IndexSet::new(alloc);
    put(&mut lits, true, Atom::Equal(a, b))?;
    let support = put_equal(alloc, graph, bank, &mut lits, a, b)?;
    let lits = all_of(alloc, &lits)?;
    Ok(Lemma { lits, support })
}

// A true predicate term and a false one are equal.
fn truths_lemma(
    alloc: Global,
    graph: &Egraph,
    bank: &Bank,
    p: TermId,
    q: TermId,
) -> Result<Lemma, Memory>
    requires terms { HasTerms bank.now (length bank.now.terms) graph.now }
    requires known { IsKnownBy graph.now bank.now }
    requires truths { HaveTwoTruths graph.now p q }
    ensures { (es : List TheEntry) → HasRead bank.now.atoms es graph.now → IfOk result (λ m. ShowsClash bank.now es m.lits.items m.support.items) }
{
    bank.one_number_per_term();
    let mut lits = IndexSet::new(alloc);
    put(&mut lits, false, Atom::Pred(p))?;
    put(&mut lits, true, Atom::Pred(q))?;
    let support = put_equal(alloc, graph, bank, &mut lits, p, q)?;
    let lits = all_of(alloc, &lits)?;
    Ok(Lemma { lits, support })
}

/// A lemma that shows a clash of what a graph has read: opposites of literals that were read and that contradict each other
/// by congruence closure, as the graph's explanation tells them, each once.
pub fn clash_lemma(
    alloc: Global,
    graph: &Egraph,
    bank: &Bank,
    clash: Clash,
) -> Result<Lemma, Memory>
    requires terms { HasTerms bank.now (length bank.now.terms) graph.now }
    requires known { IsKnownBy graph.now bank.now }
    requires clash { IsClash graph.now clash }
    ensures { (es : List TheEntry) → HasRead bank.now.atoms es graph.now → IfOk result (λ m. ShowsClash bank.now es m.lits.items m.support.items) }
{
    bank.one_number_per_term();
    match clash {
        Clash::Truth(p, q) => truths_lemma(alloc, graph, bank, p, q),
        Clash::Facts(atom) => match bank.atom_of(atom) {
            Atom::Equal(a, b) => {
                let lemma = equality_lemma(alloc, graph, bank, a, b)?;
                Ok(lemma)
            }
            Atom::Pred(_) => unreachable!(),
            Atom::Card(_, _) => unreachable!(),
            Atom::Bound(_) => unreachable!(),
        },
    }
}

// The sides of a false equality that was read, and which of them is equal to the first and to the second of two terms.
#[derive(Clone, Copy)]
pub(crate) struct Unequal {
    pub left: TermId,
    pub right: TermId,
    pub near: TermId,
    pub far: TermId,
}

// Whether two terms are equal, one by one, to two others.
fn are_both(graph: &Egraph, a: TermId, left: TermId, b: TermId, right: TermId) -> bool
    requires settled { IsSettled graph.now }
    requires a { IsRegistered graph.now.shapes a.0 }
    requires b { IsRegistered graph.now.shapes b.0 }
    requires left { IsRegistered graph.now.shapes left.0 }
    requires right { IsRegistered graph.now.shapes right.0 }
    ensures { IsTrue result ↔ (AreEqual graph.now (object a.0) (object left.0) × AreEqual graph.now (object b.0) (object right.0)) }
{
    graph.same(a, left) && graph.same(b, right)
}

// Whether one side of a pair is equal to each of two terms.
fn seen_at(graph: &Egraph, a: TermId, b: TermId, pair: (TermId, TermId)) -> Option<Unequal>
    requires settled { IsSettled graph.now }
    requires a { IsRegistered graph.now.shapes a.0 }
    requires b { IsRegistered graph.now.shapes b.0 }
    requires left { IsRegistered graph.now.shapes pair.0.0 }
    requires right { IsRegistered graph.now.shapes pair.1.0 }
    ensures some { IfSome result (IsBetween graph.now a b pair) }
    ensures none { IfNone result (HasNoSides graph.now a b pair) }
{
    let (left, right) = pair;
    if are_both(graph, a, left, b, right) {
        let (near, far) = (left, right);
        return Some(Unequal {
            left,
            right,
            near,
            far,
        });
    }
    if are_both(graph, a, right, b, left) {
        let (near, far) = (right, left);
        return Some(Unequal {
            left,
            right,
            near,
            far,
        });
    }
    None
}

// A false equality that was read with a side equal to each of two terms.
fn witness(graph: &Egraph, a: TermId, b: TermId) -> Option<Unequal>
    requires settled { IsSettled graph.now }
    requires a { IsRegistered graph.now.shapes a.0 }
    requires b { IsRegistered graph.now.shapes b.0 }
    ensures some { IfSome result (IsWitness graph.now a b) }
    ensures none { IfNone result (AreUnequal graph.now a.0 b.0 → ⊥) }
{
    for pair in graph.unequal_pairs() {
        if let Some(seen) = seen_at(graph, a, b, *pair) {
            return Some(seen);
        }
    }
    None
}

// The sides are apart.
fn difference_lemma(
    alloc: Global,
    graph: &Egraph,
    bank: &Bank,
    a: TermId,
    b: TermId,
    seen: Unequal,
) -> Result<Lemma, Memory>
    requires atom { IsAtom bank.now (TheAtom.Equal a b) }
    requires terms { HasTerms bank.now (length bank.now.terms) graph.now }
    requires known { IsKnownBy graph.now bank.now }
    requires seen { IsWitness graph.now a b seen }
    ensures { (es : List TheEntry) → HasRead bank.now.atoms es graph.now → IfOk result (λ m. ShowsValue bank.now es (TheAtom.Equal a b) false m.lits.items m.support.items) }
{
    bank.one_number_per_term();
    let mut lits = IndexSet::new(alloc);
    put(&mut lits, false, Atom::Equal(a, b))?;
    put(&mut lits, true, Atom::Equal(seen.left, seen.right))?;
    let mut support = put_equal(alloc, graph, bank, &mut lits, a, seen.near)?;
    let far = put_equal(alloc, graph, bank, &mut lits, b, seen.far)?;
    support.extend_from_slice(far.as_slice())?;
    let lits = all_of(alloc, &lits)?;
    Ok(Lemma { lits, support })
}

// The predicate term is joined with yes, or with no.
fn truth_lemma(
    alloc: Global,
    graph: &Egraph,
    bank: &Bank,
    term: TermId,
    truth: bool,
) -> Result<Lemma, Memory>
    requires atom { IsAtom bank.now (TheAtom.Pred term) }
    requires terms { HasTerms bank.now (length bank.now.terms) graph.now }
    requires known { IsKnownBy graph.now bank.now }
    requires equal { AreEqual graph.now (object term.0) (truth_node truth) }
    ensures { (es : List TheEntry) → HasRead bank.now.atoms es graph.now → IfOk result (λ m. ShowsValue bank.now es (TheAtom.Pred term) truth m.lits.items m.support.items) }
{
    bank.one_number_per_term();
    let mut lits = IndexSet::new(alloc);
    put(&mut lits, truth, Atom::Pred(term))?;
    let support = put_truth(alloc, graph, bank, &mut lits, term, truth)?;
    let lits = all_of(alloc, &lits)?;
    Ok(Lemma { lits, support })
}

/// A lemma that shows the value of an atom of the bank that the literals read decide: the literal, with opposites of literals
/// that were read, as the graph's explanation tells them, each once.
pub fn value_lemma(
    alloc: Global,
    graph: &Egraph,
    bank: &Bank,
    atom: AtomId,
    positive: bool,
) -> Result<Lemma, Memory>
    requires atom { atom.0 < length bank.now.atoms }
    requires terms { HasTerms bank.now (length bank.now.terms) graph.now }
    requires known { IsKnownBy graph.now bank.now }
    requires decided { (a : TheAtom) (t : TheTests) → slice_get bank.now.atoms atom.0 ≡ Some a → AreTestsOf graph.now t → decides t a positive ≡ true }
    ensures { (a : TheAtom) (es : List TheEntry) → slice_get bank.now.atoms atom.0 ≡ Some a → HasRead bank.now.atoms es graph.now → IfOk result (λ m. ShowsValue bank.now es a positive m.lits.items m.support.items) }
{
    bank.one_number_per_term();
    graph.has_tests();
    match bank.atom_of(atom) {
        Atom::Equal(a, b) => {
            if positive {
                equality_lemma(alloc, graph, bank, a, b)
            } else {
                match witness(graph, a, b) {
                    Some(seen) => difference_lemma(alloc, graph, bank, a, b, seen),
                    None => unreachable!(),
                }
            }
        }
        Atom::Pred(term) => truth_lemma(alloc, graph, bank, term, positive),
        Atom::Card(_, _) => unreachable!(),
        Atom::Bound(_) => unreachable!(),
    }
}
