ghost use Rattle.std.specs.Prelude.{◌≡◌, ◌<◌, ◌≤◌, ◌++◌, ◌∷◌, [], length, slice_get, None, Some, IfSome, OnOk, OnErr};
ghost use Rattle.fm_cong.specs.Facts.{IsAtomBelow, joined_by};
ghost use Rattle.fm_cong.specs.Graphs.{IsPairBelow, cells_of};
ghost use Rattle.fm_cong.specs.Levels.{IsSteady, KeepsClasses, KeepsMarks, KeepsSteady, LogsClasses};
ghost use Rattle.fm_cong.specs.States.{KeepsJoined, count_of};
ghost use Rattle.fm_cong.specs.Tables.{AreUses};

use crate::fact::Fact;
use crate::levels::read;
use crate::member::Member;
use crate::state::State;
use fm_bank::{Atom, Bank};
use fm_base::{AtomId, Lit, Memory};
use fm_cells::Places;
use std::alloc::Global;

// The literal on an atom of a bank, with the atom.
pub(crate) fn fact_of(bank: &Bank, atom: AtomId, positive: bool) -> Fact
    requires atom { atom.0 < length bank.now.atoms }
    ensures lit { result.lit ≡ record { atom = atom; positive = positive } }
    ensures atom { slice_get bank.now.atoms atom.0 ≡ Some result.atom }
{
    Fact {
        lit: Lit { atom, positive },
        atom: bank.atom_of(atom),
    }
}

// The two nodes that a literal joins, of which there are so many.
fn joined(fact: Fact, count: usize) -> Option<(usize, usize)>
    requires atom { IsAtomBelow count fact.atom }
    requires objects { 2 ≤ count }
    ensures joined { result ≡ joined_by fact }
    ensures below { IfSome result (IsPairBelow count) }
{
    let positive = fact.lit.positive;
    match fact.atom {
        Atom::Equal(a, b) => {
            if positive {
                Some((a.0 + 2, b.0 + 2))
            } else {
                None
            }
        }
        Atom::Pred(term) => Some((term.0 + 2, if positive { 0 } else { 1 })),
        Atom::Card(_sort, _k) => None,
        Atom::Bound(_n) => None,
    }
}

// Reads a literal that joins no nodes. At want of memory all is as before.
fn note(state: &mut State, fact: Fact) -> Result<(), Memory>
    requires joins { joined_by fact ≡ None }
    ensures steady { KeepsSteady state.old state.new }
    ensures quiet { state.new.waiting.items ≡ state.old.waiting.items }
    ensures facts { OnOk result (state.new.facts.items ≡ state.old.facts.items ++ fact ∷ []) }
    ensures entered { state.new.entered ≡ state.old.entered }
    ensures err { OnErr result (cells_of state.new ≡ cells_of state.old) }
    ensures kept { KeepsMarks state.old state.new }
    ensures nodes { count_of state.new ≡ count_of state.old }
    ensures logged { OnOk result (LogsClasses state.old state.new) }
    ensures coarser { OnOk result (KeepsJoined state.old state.new) }
    ensures classes { KeepsClasses state.old state.new }
{
    state.facts.push(fact)?;
    Ok(())
}

// Reads a literal, and joins all that is congruent. At want of memory all is as before.
pub(crate) fn read_literal(
    alloc: Global,
    state: &mut State,
    members: &[Member],
    uses: &[Places],
    fact: Fact,
) -> Result<(), Memory>
    requires steady { IsSteady members.now (cells_of state.old) }
    requires quiet { state.old.waiting.items ≡ [] }
    requires uses { AreUses members.now uses.now }
    requires atom { IsAtomBelow (count_of state.old) fact.atom }
    requires objects { 2 ≤ count_of state.old }
    ensures steady { IsSteady members.now (cells_of state.new) }
    ensures quiet { state.new.waiting.items ≡ [] }
    ensures facts { OnOk result (state.new.facts.items ≡ state.old.facts.items ++ fact ∷ []) }
    ensures entered { state.new.entered ≡ state.old.entered }
    ensures err { OnErr result (cells_of state.new ≡ cells_of state.old) }
    ensures kept { KeepsMarks state.old state.new }
    ensures nodes { count_of state.new ≡ count_of state.old }
    ensures logged { OnOk result (LogsClasses state.old state.new) }
    ensures coarser { OnOk result (KeepsJoined state.old state.new) }
    ensures classes { KeepsClasses state.old state.new }
{
    match joined(fact, state.classes.class.len()) {
        Some(pair) => read(alloc, state, members, uses, fact, pair.0, pair.1),
        None => note(state, fact),
    }
}
