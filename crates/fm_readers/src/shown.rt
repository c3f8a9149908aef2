ghost use Rattle.std.specs.Prelude.{◌≡◌, ◌<◌, List, length, IfOk, OnOk};
ghost use Rattle.std.specs.List.{All};
ghost use Rattle.fm_base.specs.declared.ids.Lit.{Lit as TheLit};
ghost use Rattle.fm_bank.specs.Closure.{object};
ghost use Rattle.fm_bank.specs.Interning.{first_places, with_literal};
ghost use Rattle.fm_cong.specs.Held.{AreEqual};
ghost use Rattle.fm_explain.specs.Explanations.{IsKnownBy, truth_node};
ghost use Rattle.fm_readers.specs.Graphs.{HasRead, HasTerms, named};
ghost use Rattle.fm_readers.specs.Shown.{PutsReasons};
ghost use Rattle.fm_steps.specs.Content.{opposites};
ghost use Rattle.fm_steps.specs.Sizes.{lit};
ghost use Rattle.fm_trail.specs.declared.entry.Entry.{Entry as TheEntry};

use fm_bank::{Atom, Bank, Literal};
use fm_base::{Lit, Memory, TermId};
use fm_cong::Egraph;
use fm_explain::{explain, explain_truth};
use indexmap::IndexSet;
use std::alloc::Global;

// Puts a literal behind the others, where it isn't among them.
pub(crate) fn put(lits: &mut IndexSet<Literal>, positive: bool, atom: Atom) -> Result<(), Memory>
    ensures { OnOk result (lits.new.keys ≡ with_literal lits.old.keys (lit positive atom)) }
{
    lits.insert(Literal { positive, atom })?;
    Ok(())
}

// Puts the opposites of literals of the bank behind the others.
fn put_opposites(lits: &mut IndexSet<Literal>, bank: &Bank, explained: &[Lit]) -> Result<(), Memory>
    requires atoms { All (λ (k : TheLit). k.atom.0 < length bank.now.atoms) explained.now }
    ensures { OnOk result (lits.new.keys ≡ first_places lits.old.keys (opposites (named bank.now.atoms explained.now))) }
{
    for lit in explained {
        put(lits, !lit.positive, bank.atom_of(lit.atom))?;
    }
    Ok(())
}

// Puts the opposites of the literals that explain why two terms are equal, and gives the terms on the paths between these.
pub(crate) fn put_equal(
    alloc: Global,
    graph: &Egraph,
    bank: &Bank,
    lits: &mut IndexSet<Literal>,
    a: TermId,
    b: TermId,
) -> Result<Vec<TermId>, Memory>
    requires terms { HasTerms bank.now (length bank.now.terms) graph.now }
    requires known { IsKnownBy graph.now bank.now }
    requires a { a.0 < length bank.now.terms }
    requires b { b.0 < length bank.now.terms }
    requires equal { AreEqual graph.now (object a.0) (object b.0) }
    ensures { (es : List TheEntry) → HasRead bank.now.atoms es graph.now → IfOk result (λ v. PutsReasons bank.now es (object a.0) (object b.0) lits.old.keys lits.new.keys v.items) }
{
    bank.one_number_per_term();
    let _ = graph.links();
    let explained = explain(alloc, graph, bank, a, b)?;
    put_opposites(lits, bank, explained.lits.as_slice())?;
    Ok(explained.support)
}

// Puts the opposites of the literals that explain why a predicate term is true, or false, and gives the terms as `put_equal`.
pub(crate) fn put_truth(
    alloc: Global,
    graph: &Egraph,
    bank: &Bank,
    lits: &mut IndexSet<Literal>,
    term: TermId,
    truth: bool,
) -> Result<Vec<TermId>, Memory>
    requires terms { HasTerms bank.now (length bank.now.terms) graph.now }
    requires known { IsKnownBy graph.now bank.now }
    requires term { term.0 < length bank.now.terms }
    requires equal { AreEqual graph.now (object term.0) (truth_node truth) }
    ensures { (es : List TheEntry) → HasRead bank.now.atoms es graph.now → IfOk result (λ v. PutsReasons bank.now es (object term.0) (truth_node truth) lits.old.keys lits.new.keys v.items) }
{
    bank.one_number_per_term();
    let _ = graph.links();
    let explained = explain_truth(alloc, graph, bank, term, truth)?;
    put_opposites(lits, bank, explained.lits.as_slice())?;
    Ok(explained.support)
}
