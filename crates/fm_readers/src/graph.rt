ghost use Rattle.std.specs.Prelude.{◌≡◌, ◌≤◌, ◌<◌, ◌++◌, ◌∷◌, [], length, slice_get, if◌then◌else◌, IfOk, OnOk};
ghost use Rattle.fm_cong.specs.Held.{HasSameTerms, IsReadable, IsSettled, ReadsLiteral};
ghost use Rattle.fm_trail.specs.Trail.{is_decided};
ghost use Rattle.fm_readers.specs.Graphs.{GoesBack, HasTerms, IsGraphOf, ReadsOn, fact_at};

use fm_bank::{Atom, Bank};
use fm_base::{AtomId, Memory, TermId, Undo};
use fm_cong::Egraph;
use fm_trail::{Entry, Why};
use std::alloc::Global;

/// A graph with all terms of the bank that has read nothing.
pub fn graph_over(alloc: Global, bank: &Bank) -> Result<Egraph, Memory>
    ensures { IfOk result (IsGraphOf bank.now []) }
{
    let mut graph = Egraph::new(alloc)?;
    register(&mut graph, bank, 0)?;
    Ok(graph)
}

/// Registers the terms of the bank from this number on, where the ones before it are registered.
pub fn register(graph: &mut Egraph, bank: &Bank, from: usize) -> Result<(), Memory>
    requires from { from ≤ length bank.now.terms }
    requires terms { HasTerms bank.now from graph.old }
    ensures terms { OnOk result (HasTerms bank.now (length bank.now.terms) graph.new) }
    ensures facts { OnOk result (graph.new.facts ≡ graph.old.facts) }
    ensures levels { OnOk result (graph.new.levels ≡ graph.old.levels) }
{
    bank.one_number_per_term();
    for term in from..bank.terms() {
        graph.add_term(bank, TermId(term))?;
    }
    Ok(())
}

// Reads a literal on an equality or a predicate atom.
fn read_fact(graph: &mut Egraph, bank: &Bank, atom: AtomId, positive: bool) -> Result<(), Memory>
    requires atom { atom.0 < length bank.now.atoms }
    requires readable { IsReadable graph.old.shapes bank.now.atoms atom }
    requires settled { IsSettled graph.old }
    ensures { OnOk result (ReadsLiteral graph.old graph.new bank.now.atoms atom positive) }
{
    if positive {
        graph.merge(bank, atom)
    } else {
        graph.unequal(bank, atom)
    }
}

// Reads a literal; one on the size of a sort or on the sum of all sizes says nothing of terms.
fn read_literal(graph: &mut Egraph, bank: &Bank, atom: AtomId, positive: bool) -> Result<(), Memory>
    requires atom { atom.0 < length bank.now.atoms }
    requires terms { HasTerms bank.now (length bank.now.terms) graph.old }
    ensures terms { OnOk result (HasTerms bank.now (length bank.now.terms) graph.new) }
    ensures facts { OnOk result (graph.new.facts ≡ graph.old.facts ++ fact_at (record { atom = atom; positive = positive }) (slice_get bank.now.atoms atom.0)) }
    ensures levels { OnOk result (graph.new.levels ≡ graph.old.levels) }
{
    bank.one_number_per_term();
    match bank.atom_of(atom) {
        Atom::Equal(..) => {
            read_fact(graph, bank, atom, positive)?;
            Ok(())
        }
        Atom::Pred(..) => {
            read_fact(graph, bank, atom, positive)?;
            Ok(())
        }
        Atom::Card(..) | Atom::Bound(..) => Ok(()),
    }
}

// Opens a level where a decision is read.
fn open_level(graph: &mut Egraph, why: Why) -> Result<(), Memory>
    ensures terms { OnOk result (HasSameTerms graph.old graph.new) }
    ensures entered { OnOk result (graph.new.entered ≡ graph.old.entered) }
    ensures facts { OnOk result (graph.new.facts ≡ graph.old.facts) }
    ensures levels { OnOk result (graph.new.levels ≡ (if is_decided why then graph.old.levels ++ graph.old.facts ∷ [] else graph.old.levels)) }
{
    match why {
        Why::Decision => {
            graph.mark()?;
            Ok(())
        }
        Why::Clause(_) => Ok(()),
    }
}

/// Reads an entry whose atom is one of the bank. A decision opens a level first, whatever it is on.
pub fn read(graph: &mut Egraph, bank: &Bank, entry: Entry) -> Result<(), Memory>
    requires atom { entry.lit.atom.0 < length bank.now.atoms }
    requires terms { HasTerms bank.now (length bank.now.terms) graph.old }
    ensures terms { OnOk result (HasTerms bank.now (length bank.now.terms) graph.new) }
    ensures read { OnOk result (ReadsOn bank.now entry graph.old graph.new) }
{
    open_level(graph, entry.why)?;
    read_literal(graph, bank, entry.lit.atom, entry.lit.positive)?;
    Ok(())
}

/// Takes back what was read above a level of the trail. `opened` is how many levels are open in the graph; where there are no
/// more than `level`, nothing changes.
pub fn go_back(graph: &mut Egraph, bank: &Bank, opened: usize, level: usize) -> Result<(), Memory>
    requires opened { opened ≡ length graph.old.levels }
    requires terms { HasTerms bank.now (length bank.now.terms) graph.old }
    ensures terms { OnOk result (HasTerms bank.now (length bank.now.terms) graph.new) }
    ensures read { OnOk result (GoesBack bank.now level graph.old graph.new) }
{
    if level < opened {
        graph.undo_to(level);
        graph.settle(bank)?;
    }
    Ok(())
}
