ghost use Rattle.std.specs.Prelude.{◌≡◌, suc, true, length, OnOk};
ghost use Rattle.fm_bank.specs.Interning.{find_atom};
ghost use Rattle.fm_bank.specs.declared.atom.Atom.{Atom as TheAtom};
ghost use Rattle.fm_cert.specs.Claims.{ShowsLeast};
ghost use Rattle.fm_lines.specs.Ending.{GoesOnTo, HasEmpty, IsRefutingAt};
ghost use Rattle.fm_sat.specs.Learning.{Explains, IsRefuted};
ghost use Rattle.fm_steps.specs.Facts.{AreClausesOver};
ghost use Rattle.fm_steps.specs.Sizes.{is_refuted_by};

use crate::events::put_learnt;
use fm_bank::{Atom, Bank};
use fm_base::Memory;
use fm_cert::Line;
use fm_sat::Store;
use fm_trail::Trail;
use std::alloc::Global;

/// Puts the line of the empty clause behind the lines, of which the bank and the store are made, where a clause is false at
/// level 0. Where nothing is to be resolved the clause itself is empty, and there is no line.
pub fn put_refutation(
    alloc: Global,
    lines: &mut Vec<Line>,
    bank: &Bank,
    store: &Store,
    trail: &Trail,
    clause: usize,
) -> Result<(), Memory>
    requires refuted { IsRefuted store.now.clauses trail.now.entries clause }
    requires explained { Explains store.now.clauses trail.now.entries }
    requires known { AreClausesOver (length bank.now.atoms) store.now.clauses }
    ensures { OnOk result (GoesOnTo bank.now store.now.clauses lines.old.items lines.new.items HasEmpty) }
{
    bank.one_number_per_term();
    let chain = store.refute(trail, clause)?;
    put_learnt(alloc, lines, bank, chain.start, chain.steps.as_slice())
}

// The place of the entry that makes the bound false.
fn refuting_place(bank: &Bank, trail: &Trail, bound: u64) -> usize
    requires { is_refuted_by trail.now.entries (find_atom bank.now.atoms (TheAtom.Bound bound)) ≡ true }
    ensures { IsRefutingAt bank.now.atoms trail.now.entries bound result }
{
    trail.entries_are_levelled();
    match bank.find_atom(Atom::Bound(bound)) {
        Some(atom) => match trail.place(atom) {
            Some(place) => place,
            None => unreachable!(),
        },
        None => unreachable!(),
    }
}

/// Puts the line of "the sizes add up to more than the bound" behind the lines, of which the bank and the store are made,
/// where the bound is false at level 0. Where nothing is to be resolved a clause of the store says so itself, and there is no
/// line.
pub fn put_least(
    alloc: Global,
    lines: &mut Vec<Line>,
    bank: &Bank,
    store: &Store,
    trail: &Trail,
    bound: u64,
) -> Result<(), Memory>
    requires refuted { is_refuted_by trail.now.entries (find_atom bank.now.atoms (TheAtom.Bound bound)) ≡ true }
    requires explained { Explains store.now.clauses trail.now.entries }
    requires known { AreClausesOver (length bank.now.atoms) store.now.clauses }
    ensures { OnOk result (GoesOnTo bank.now store.now.clauses lines.old.items lines.new.items (λ cs. ShowsLeast cs (suc bound))) }
{
    bank.one_number_per_term();
    let place = refuting_place(bank, trail, bound);
    let chain = store.derive(trail, place)?;
    put_learnt(alloc, lines, bank, chain.start, chain.steps.as_slice())
}
