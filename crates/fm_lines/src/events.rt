ghost use Rattle.std.specs.Prelude.{◌≡◌, ◌≤◌, ◌<◌, ◌+◌, ◌-◌, ◌++◌, ◌∷◌, [], length, Some, slice_get, OnOk};
ghost use Rattle.std.specs.List.{All};
ghost use Rattle.fm_bank.specs.Terms.{Term};
ghost use Rattle.fm_cert.specs.declared.block.Line.{Line as TheLine};
ghost use Rattle.fm_lines.specs.Naming.{AreStepsOver};
ghost use Rattle.fm_steps.specs.Lines.{learnt_lines, lines_from, term_line};

use crate::naming::named_steps;
use fm_bank::{Bank, Literal};
use fm_base::{Lit, Memory, SortId, TermId};
use fm_cert::Line;
use sqlite_items::Items;
use std::alloc::Global;

fn put_term(alloc: Global, lines: &mut Vec<Line>, bank: &Bank, term: usize) -> Result<(), Memory>
    requires { term < length bank.now.terms }
    ensures { OnOk result ((t : Term) × (slice_get bank.now.terms term ≡ Some t) × (lines.new.items ≡ lines.old.items ++ term_line t ∷ [])) }
{
    let (symbol, args) = bank.term(TermId(term));
    let args = Items::from_slice(alloc, args)?;
    lines.push(Line::Term { symbol, args })?;
    Ok(())
}

/// Puts a line for each term from the place `first` on behind the lines.
pub fn put_terms(
    alloc: Global,
    lines: &mut Vec<Line>,
    bank: &Bank,
    first: usize,
) -> Result<(), Memory>
    ensures { OnOk result (lines.new.items ≡ lines.old.items ++ lines_from first bank.now.terms) }
{
    for term in first..bank.terms() {
        put_term(alloc, lines, bank, term)?;
    }
    Ok(())
}

/// Puts the line of an instance behind the lines. The lines of its new terms come before it.
pub fn put_instance(
    alloc: Global,
    lines: &mut Vec<Line>,
    clause: usize,
    terms: &[TermId],
) -> Result<(), Memory>
    ensures { OnOk result (lines.new.items ≡ lines.old.items ++ TheLine.Instance clause terms.now ∷ []) }
{
    let terms = Items::from_slice(alloc, terms)?;
    lines.push(Line::Instance { clause, terms })?;
    Ok(())
}

/// Puts the line of what was learnt behind the lines: the resolutions from a stored clause on. Where nothing was resolved
/// nothing was added to the clauses, and there is no line.
pub fn put_learnt(
    alloc: Global,
    lines: &mut Vec<Line>,
    bank: &Bank,
    clause: usize,
    steps: &[(Lit, usize)],
) -> Result<(), Memory>
    requires { AreStepsOver (length bank.now.atoms) steps.now }
    ensures { OnOk result (lines.new.items ≡ lines.old.items ++ learnt_lines bank.now.atoms clause steps.now) }
{
    if !steps.is_empty() {
        let named = named_steps(alloc, bank, steps)?;
        lines.push(Line::Resolution {
            first: clause,
            steps: Items::from_vec(named),
        })?;
    }
    Ok(())
}

/// Puts the line of a lemma of congruence closure behind the lines.
pub fn put_equality(
    alloc: Global,
    lines: &mut Vec<Line>,
    lits: &[Literal],
    support: &[TermId],
) -> Result<(), Memory>
    ensures { OnOk result (lines.new.items ≡ lines.old.items ++ TheLine.Equality lits.now support.now ∷ []) }
{
    let lits = Items::from_slice(alloc, lits)?;
    let support = Items::from_slice(alloc, support)?;
    lines.push(Line::Equality { lits, support })?;
    Ok(())
}

/// Puts the line of a clique behind the lines: of these terms some two are equal, or the sort has as many elements. A clique
/// has two terms at least.
pub fn put_cardinality(
    alloc: Global,
    lines: &mut Vec<Line>,
    sort: SortId,
    terms: &[TermId],
) -> Result<(), Memory>
    ensures { OnOk result (lines.new.items ≡ lines.old.items ++ TheLine.Cardinality sort (length terms.now - 1) terms.now ∷ []) }
{
    let k = terms.len().saturating_sub(1) as u64;
    let terms = Items::from_slice(alloc, terms)?;
    lines.push(Line::Cardinality { sort, k, terms })?;
    Ok(())
}

/// Puts the line of a sum behind the lines: some sort has at most its k elements, or the sizes add up to more than n.
pub fn put_sum(alloc: Global, lines: &mut Vec<Line>, n: u64, ks: &[u64]) -> Result<(), Memory>
    ensures { OnOk result (lines.new.items ≡ lines.old.items ++ TheLine.Sum n ks.now ∷ []) }
{
    let ks = Items::from_slice(alloc, ks)?;
    lines.push(Line::Sum { n, ks })?;
    Ok(())
}
