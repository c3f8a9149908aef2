ghost use Rattle.std.specs.Prelude.{◌≡◌, ◌++◌, ◌||◌, ℕ, length, map, nat_lt, true, false, IfOk, OnOk};
ghost use Rattle.std.specs.List.{list_all};
ghost use Rattle.fm_base.specs.declared.ids.TermId.{TermId as TheTermId};
ghost use Rattle.fm_bank.specs.Closure.{no, yes};
ghost use Rattle.fm_bank.specs.Terms.{AreTerms, numbers};
ghost use Rattle.fm_bank.specs.declared.literal.Literal.{Literal as TheLiteral};
ghost use Rattle.fm_cert.specs.Lines.{IsConflict, facts_against, falses_against, falses_of, is_on_terms, pairs_against, pairs_of, terms_of_atom, terms_of_clause, trues_against, trues_of};
ghost use Rattle.fm_blocks.specs.Conflicts.{ClosesOver, joins_by, joins_some_by, pair_numbers};
ghost use Rattle.fm_closure.specs.Asked.{test_of};
ghost use Rattle.fm_closure.specs.Facts.{facts_in};

use fm_bank::{Atom, Bank, Literal};
use fm_base::{Memory, TermId};
use fm_closure::{Closed, Equations};
use sqlite_items::Items;
use std::alloc::Global;

fn is_on_terms(bank: &Bank, atom: Atom) -> bool
    ensures { result ≡ is_on_terms bank.now.sig bank.now.terms atom }
{
    match atom {
        Atom::Equal(_, _) => bank.is_atom(atom),
        Atom::Pred(_) => bank.is_atom(atom),
        _ => false,
    }
}

fn are_on_terms(bank: &Bank, lits: &[Literal]) -> bool
    ensures { result ≡ list_all (λ (l : TheLiteral). is_on_terms bank.now.sig bank.now.terms l.atom) lits.now }
{
    for lit in lits {
        if !is_on_terms(bank, lit.atom) {
            return false;
        }
    }
    true
}

fn are_there(bank: &Bank, terms: &[TermId]) -> bool
    ensures { result ≡ list_all (λ (n : ℕ). nat_lt n (length bank.now.terms)) (numbers terms.now) }
{
    for term in terms {
        if term.0 >= bank.terms() {
            return false;
        }
    }
    true
}

// The terms of the literals.
fn push_terms(terms: &mut Vec<TermId>, lit: &Literal) -> Result<(), Memory>
    ensures { OnOk result (numbers terms.new.items ≡ numbers terms.old.items ++ terms_of_atom lit.now.atom) }
{
    match lit.atom {
        Atom::Equal(a, b) => {
            terms.push(a)?;
            terms.push(b)?;
        }
        Atom::Pred(t) => terms.push(t)?,
        _ => {}
    }
    Ok(())
}

fn roots_of(alloc: Global, lits: &[Literal], support: &[TermId]) -> Result<Vec<TermId>, Memory>
    ensures { IfOk result (λ v. numbers v.items ≡ terms_of_clause lits.now ++ numbers support.now) }
{
    let mut terms = Vec::new(alloc);
    for lit in lits {
        push_terms(&mut terms, lit)?;
    }
    terms.extend_from_slice(support)?;
    Ok(terms)
}

fn push_pair(pairs: &mut Vec<(TermId, TermId)>, lit: &Literal) -> Result<(), Memory>
    ensures { OnOk result (map pair_numbers pairs.new.items ≡ map pair_numbers pairs.old.items ++ pairs_against lit.now.positive lit.now.atom) }
{
    if lit.positive {
        return Ok(());
    }
    match lit.atom {
        Atom::Equal(a, b) => pairs.push((a, b))?,
        _ => {}
    }
    Ok(())
}

fn push_true(terms: &mut Vec<TermId>, lit: &Literal) -> Result<(), Memory>
    ensures { OnOk result (numbers terms.new.items ≡ numbers terms.old.items ++ trues_against lit.now.positive lit.now.atom) }
{
    if lit.positive {
        return Ok(());
    }
    match lit.atom {
        Atom::Pred(t) => terms.push(t)?,
        _ => {}
    }
    Ok(())
}

fn push_false(terms: &mut Vec<TermId>, lit: &Literal) -> Result<(), Memory>
    ensures { OnOk result (numbers terms.new.items ≡ numbers terms.old.items ++ falses_against lit.now.positive lit.now.atom) }
{
    if !lit.positive {
        return Ok(());
    }
    match lit.atom {
        Atom::Pred(t) => terms.push(t)?,
        _ => {}
    }
    Ok(())
}

fn pairs_of(alloc: Global, lits: &[Literal]) -> Result<Vec<(TermId, TermId)>, Memory>
    ensures { IfOk result (λ v. map pair_numbers v.items ≡ pairs_of lits.now) }
{
    let mut pairs = Vec::new(alloc);
    for lit in lits {
        push_pair(&mut pairs, lit)?;
    }
    Ok(pairs)
}

fn trues_of(alloc: Global, lits: &[Literal]) -> Result<Vec<TermId>, Memory>
    ensures { IfOk result (λ v. numbers v.items ≡ trues_of lits.now) }
{
    let mut terms = Vec::new(alloc);
    for lit in lits {
        push_true(&mut terms, lit)?;
    }
    Ok(terms)
}

fn falses_of(alloc: Global, lits: &[Literal]) -> Result<Vec<TermId>, Memory>
    ensures { IfOk result (λ v. numbers v.items ≡ falses_of lits.now) }
{
    let mut terms = Vec::new(alloc);
    for lit in lits {
        push_false(&mut terms, lit)?;
    }
    Ok(terms)
}

// What is so where all literals are false.
fn equations(alloc: Global, lits: &[Literal]) -> Result<Equations, Memory>
    ensures { IfOk result (λ eqs. facts_in eqs ≡ facts_against lits.now) }
{
    let pairs = pairs_of(alloc, lits)?;
    let yes = trues_of(alloc, lits)?;
    let no = falses_of(alloc, lits)?;
    Ok(Equations {
        pairs: Items::from_slice(alloc, pairs.as_slice())?,
        yes: Items::from_slice(alloc, yes.as_slice())?,
        no: Items::from_slice(alloc, no.as_slice())?,
    })
}

// Whether the literal is a positive equality whose sides follow equal.
fn joins(closed: &Closed, lit: &Literal) -> bool
    ensures { result ≡ joins_by (test_of closed.now) lit.now.positive lit.now.atom }
{
    match lit.atom {
        Atom::Equal(a, b) => lit.positive && closed.joins(a, b),
        _ => false,
    }
}

fn joins_some(closed: &Closed, lits: &[Literal]) -> bool
    ensures { result ≡ joins_some_by (test_of closed.now) lits.now }
{
    for lit in lits {
        if joins(closed, lit) {
            return true;
        }
    }
    false
}

fn shows(closed: &Closed, lits: &[Literal]) -> bool
    ensures { result ≡ (test_of closed.now yes no || joins_some_by (test_of closed.now) lits.now) }
{
    closed.clashes() || joins_some(closed, lits)
}

// Whether the closure shows that the literals can't all be false.
fn decides(
    alloc: Global,
    bank: &Bank,
    eqs: &Equations,
    over: &[TermId],
    lits: &[Literal],
) -> Result<bool, Memory>
    requires over { AreTerms bank.now.terms over.now }
    ensures yes { IfOk result (λ b. b ≡ true → ClosesOver bank.now.terms over.now eqs.now lits.now) }
    ensures no { IfOk result (λ b. b ≡ false → ClosesOver bank.now.terms over.now eqs.now lits.now → ⊥) }
{
    let closed = Closed::new(alloc, bank, eqs, over)?;
    let found = shows(&closed, lits);
    Ok(found)
}

fn closes(alloc: Global, bank: &Bank, lits: &[Literal], support: &[TermId]) -> Result<bool, Memory>
    requires lits { list_all (λ (l : TheLiteral). is_on_terms bank.now.sig bank.now.terms l.atom) lits.now ≡ true }
    requires support { list_all (λ (n : ℕ). nat_lt n (length bank.now.terms)) (numbers support.now) ≡ true }
    ensures yes { IfOk result (λ b. b ≡ true → IsConflict bank.now.sig bank.now.terms lits.now (numbers support.now)) }
    ensures no { IfOk result (λ b. b ≡ false → IsConflict bank.now.sig bank.now.terms lits.now (numbers support.now) → ⊥) }
{
    let roots = roots_of(alloc, lits, support)?;
    let over = bank.subterms_of(roots.as_slice())?;
    let eqs = equations(alloc, lits)?;
    let found = decides(alloc, bank, &eqs, over.as_slice(), lits)?;
    Ok(found)
}

/// Whether the literals of a line `e` can't all be false, by congruence closure over their subterms and those of the
/// support.
pub(crate) fn is_conflict(
    alloc: Global,
    bank: &Bank,
    lits: &[Literal],
    support: &[TermId],
) -> Result<bool, Memory>
    ensures yes { IfOk result (λ b. b ≡ true → IsConflict bank.now.sig bank.now.terms lits.now (numbers support.now)) }
    ensures no { IfOk result (λ b. b ≡ false → IsConflict bank.now.sig bank.now.terms lits.now (numbers support.now) → ⊥) }
{
    if !are_on_terms(bank, lits) {
        return Ok(false);
    }
    if !are_there(bank, support) {
        return Ok(false);
    }
    closes(alloc, bank, lits, support)
}
