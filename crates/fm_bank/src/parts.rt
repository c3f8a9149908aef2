ghost use Rattle.std.specs.Prelude.{◌≡◌, IfOk, OnOk, OnErr};
ghost use Rattle.std.specs.Option.{option_map};
ghost use Rattle.fm_bank.specs.Terms.{number_found, numbers};
ghost use Rattle.fm_bank.specs.Interning.{IsBetween, IsUnderway};
ghost use Rattle.fm_bank.specs.GroundTerms.{PutsApplied, PutsTerms, application_ground_grown, ground_atom_grown, ground_grown, ground_literals_grown, terms_ground_grown};

use crate::clause::Plit;
use crate::growth::put;
use crate::key::{Args, Key};
use fm_base::{Memory, Patom, Pterm, SymId, TermId};
use indexmap::IndexSet;
use smallvec::SmallVec;
use std::alloc::Global;

// The number of a term, where it has no variables.
#[cycle(parts)]
fn put_term(
    alloc: Global,
    terms: &mut IndexSet<Key>,
    term: &Pterm,
) -> Result<Option<TermId>, Memory>
    ensures ok { IfOk result (λ o. ground_grown term.now terms.old.keys ≡ (terms.new.keys, number_found o)) }
    ensures err { OnErr result (IsUnderway (ground_grown term.now) terms.old.keys terms.new.keys) }
{
    match term {
        Pterm::Var(_) => Ok(None),
        Pterm::App(symbol, args) => put_application(alloc, terms, *symbol, args.as_slice()),
    }
}

#[cycle(parts)]
fn put_application(
    alloc: Global,
    terms: &mut IndexSet<Key>,
    symbol: SymId,
    args: &[Pterm],
) -> Result<Option<TermId>, Memory>
    ensures ok { IfOk result (λ o. PutsApplied symbol.0 args.now terms.old.keys terms.new.keys (number_found o)) }
    ensures err { OnErr result (IsUnderway (application_ground_grown symbol.0 args.now) terms.old.keys terms.new.keys) }
{
    match put_all(alloc, terms, args)? {
        None => Ok(None),
        Some(args) => {
            let term = put(terms, symbol, args)?;
            Ok(Some(term))
        }
    }
}

// The numbers of all, where none has variables. Those without are put in all the same.
#[cycle(parts)]
fn put_all(alloc: Global, terms: &mut IndexSet<Key>, args: &[Pterm]) -> Result<Option<Args>, Memory>
    ensures ok { IfOk result (λ o. PutsTerms args.now terms.old.keys terms.new.keys (option_map (λ ts. numbers ts.items) o)) }
    ensures err { OnErr result (IsUnderway (terms_ground_grown args.now) terms.old.keys terms.new.keys) }
{
    let mut ids = SmallVec::new(alloc);
    let mut ground = true;
    for arg in args {
        match put_term(alloc, terms, arg)? {
            None => ground = false,
            Some(id) => ids.push(id)?,
        }
    }
    Ok(if ground { Some(ids) } else { None })
}

fn put_atom_terms(alloc: Global, terms: &mut IndexSet<Key>, atom: &Patom) -> Result<(), Memory>
    ensures ok { OnOk result (terms.new.keys ≡ ground_atom_grown atom.now terms.old.keys) }
    ensures err { OnErr result (IsBetween terms.old.keys terms.new.keys (ground_atom_grown atom.now terms.old.keys)) }
{
    match atom {
        Patom::Pred(symbol, args) => {
            put_application(alloc, terms, *symbol, args.as_slice())?;
        }
        Patom::Equal(left, right) => {
            put_term(alloc, terms, left)?;
            put_term(alloc, terms, right)?;
        }
    }
    Ok(())
}

// Puts in the ground terms of the literals.
pub(crate) fn put_literals(
    alloc: Global,
    terms: &mut IndexSet<Key>,
    lits: &[Plit],
) -> Result<(), Memory>
    ensures ok { OnOk result (terms.new.keys ≡ ground_literals_grown lits.now terms.old.keys) }
    ensures err { OnErr result (IsBetween terms.old.keys terms.new.keys (ground_literals_grown lits.now terms.old.keys)) }
{
    for lit in lits {
        put_atom_terms(alloc, terms, &lit.atom)?;
    }
    Ok(())
}
