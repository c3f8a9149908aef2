ghost use Rattle.std.specs.Prelude.{◌≡◌, ◌<◌, length, slice_get, Some};
ghost use Rattle.fm_bank.specs.declared.atom.Atom.{Atom as TheAtom};
ghost use Rattle.fm_cong.specs.Held.{IsRegistered, IsSettled};
ghost use Rattle.fm_readers.specs.Graphs.{HasTerms};
ghost use Rattle.fm_readers.specs.Values.{IsDecided};

use fm_bank::{Atom, Bank};
use fm_base::{AtomId, TermId};
use fm_cong::Egraph;

// Whether two terms are equal, or apart.
fn decided_equality(graph: &Egraph, a: TermId, b: TermId) -> Option<bool>
    requires settled { IsSettled graph.now }
    requires a { IsRegistered graph.now.shapes a.0 }
    requires b { IsRegistered graph.now.shapes b.0 }
    ensures { IsDecided graph.now (TheAtom.Equal a b) result }
{
    if graph.same(a, b) {
        Some(true)
    } else if graph.apart(a, b) {
        Some(false)
    } else {
        None
    }
}

// Whether a predicate term is joined with yes, or with no.
fn decided_predicate(graph: &Egraph, term: TermId) -> Option<bool>
    requires settled { IsSettled graph.now }
    requires term { IsRegistered graph.now.shapes term.0 }
    ensures { IsDecided graph.now (TheAtom.Pred term) result }
{
    graph.truth(term)
}

/// What the literals read decide of an atom of the bank: an equality is true where its sides are equal and false where they
/// are apart, a predicate atom is true where its term is joined with yes and else false where it is joined with no. They
/// decide nothing else. It takes no memory.
pub fn decided(graph: &Egraph, bank: &Bank, atom: AtomId) -> Option<bool>
    requires atom { atom.0 < length bank.now.atoms }
    requires terms { HasTerms bank.now (length bank.now.terms) graph.now }
    ensures { (a : TheAtom) → slice_get bank.now.atoms atom.0 ≡ Some a → IsDecided graph.now a result }
{
    bank.one_number_per_term();
    match bank.atom_of(atom) {
        Atom::Equal(a, b) => decided_equality(graph, a, b),
        Atom::Pred(term) => decided_predicate(graph, term),
        Atom::Card(..) | Atom::Bound(..) => None,
    }
}
