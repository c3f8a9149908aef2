ghost use Rattle.std.specs.Prelude.{◌≡◌, ◌++◌, slice_get, IfOk, OnOk};
ghost use Rattle.std.specs.Option.{option_map};
ghost use Rattle.fm_bank.specs.Instances.{all_there as all_there_of};
ghost use Rattle.fm_bank.specs.Terms.{number_found, numbers};
ghost use Rattle.fm_rounds.specs.InstanceTerms.{as_list};
ghost use Rattle.fm_build.specs.Gathering.{all_found, all_gathered, all_numbered, applied, atom_gathered};
ghost use Rattle.fm_build.specs.Gathering.{found_applied, gathered, literals_gathered};

use fm_bank::{Bank, Plit};
use fm_base::{Memory, Patom, Pterm, SymId, TermId};
use std::alloc::Global;

pub(crate) fn put_own(own: Option<TermId>, found: &mut Vec<usize>) -> Result<(), Memory>
    ensures { OnOk result (found.new.items ≡ found.old.items ++ as_list (number_found own)) }
{
    if let Some(term) = own {
        found.push(term.0)?;
    }
    Ok(())
}

// All of these, where each is there.
fn all_there(alloc: Global, owns: &[Option<TermId>]) -> Result<Option<Vec<TermId>>, Memory>
    ensures { IfOk result (λ o. option_map (λ v. numbers v.items) o ≡ all_there_of (all_found owns.now)) }
{
    let mut terms = Vec::new(alloc);
    for own in owns {
        match own {
            None => return Ok(None),
            Some(term) => terms.push(*term)?,
        }
    }
    Ok(Some(terms))
}

fn find_applied(
    alloc: Global,
    bank: &Bank,
    symbol: SymId,
    args: &[Option<TermId>],
) -> Result<Option<TermId>, Memory>
    ensures { IfOk result (λ o. number_found o ≡ found_applied bank.now symbol args.now) }
{
    match all_there(alloc, args)? {
        None => Ok(None),
        Some(args) => Ok(bank.find(symbol, args.as_slice())),
    }
}

fn replacement(subst: &[TermId], variable: usize) -> Option<TermId>
    ensures { number_found result ≡ slice_get (numbers subst.now) variable }
{
    subst.get(variable).copied()
}

// Puts the numbers of the subterms and of the term itself, each where it is there, the subterms first.
#[cycle(gathering)]
fn put_subterms(
    alloc: Global,
    bank: &Bank,
    term: &Pterm,
    subst: &[TermId],
    found: &mut Vec<usize>,
) -> Result<Option<TermId>, Memory>
    ensures number { IfOk result (λ o. number_found o ≡ (gathered term.now bank.now subst.now).0) }
    ensures terms { OnOk result (found.new.items ≡ found.old.items ++ (gathered term.now bank.now subst.now).1) }
{
    match term {
        Pterm::Var(variable) => {
            let own = replacement(subst, *variable);
            put_own(own, found)?;
            Ok(own)
        }
        Pterm::App(symbol, args) => {
            put_application(alloc, bank, *symbol, args.as_slice(), subst, found)
        }
    }
}

#[cycle(gathering)]
fn put_application(
    alloc: Global,
    bank: &Bank,
    symbol: SymId,
    args: &[Pterm],
    subst: &[TermId],
    found: &mut Vec<usize>,
) -> Result<Option<TermId>, Memory>
    ensures number { IfOk result (λ o. number_found o ≡ (applied symbol args.now bank.now subst.now).0) }
    ensures terms { OnOk result (found.new.items ≡ found.old.items ++ (applied symbol args.now bank.now subst.now).1) }
{
    let owns = put_all(alloc, bank, args, subst, found)?;
    let own = find_applied(alloc, bank, symbol, owns.as_slice())?;
    put_own(own, found)?;
    Ok(own)
}

// All are gone through, also behind one that isn't there.
#[cycle(gathering)]
fn put_all(
    alloc: Global,
    bank: &Bank,
    args: &[Pterm],
    subst: &[TermId],
    found: &mut Vec<usize>,
) -> Result<Vec<Option<TermId>>, Memory>
    ensures numbers { IfOk result (λ v. all_found v.items ≡ all_numbered args.now bank.now subst.now) }
    ensures terms { OnOk result (found.new.items ≡ found.old.items ++ all_gathered args.now bank.now subst.now) }
{
    let mut owns = Vec::new(alloc);
    for arg in args {
        let own = put_subterms(alloc, bank, arg, subst, found)?;
        owns.push(own)?;
    }
    Ok(owns)
}

fn put_atom(
    alloc: Global,
    bank: &Bank,
    atom: &Patom,
    subst: &[TermId],
    found: &mut Vec<usize>,
) -> Result<(), Memory>
    ensures { OnOk result (found.new.items ≡ found.old.items ++ atom_gathered atom.now bank.now subst.now) }
{
    match atom {
        Patom::Pred(symbol, args) => {
            put_application(alloc, bank, *symbol, args.as_slice(), subst, found)?;
            Ok(())
        }
        Patom::Equal(left, right) => {
            put_subterms(alloc, bank, left, subst, found)?;
            put_subterms(alloc, bank, right, subst, found)?;
            Ok(())
        }
    }
}

// The terms of an instance, by their numbers.
pub(crate) fn put_literals(
    alloc: Global,
    bank: &Bank,
    lits: &[Plit],
    subst: &[TermId],
    found: &mut Vec<usize>,
) -> Result<(), Memory>
    ensures { OnOk result (found.new.items ≡ found.old.items ++ literals_gathered lits.now bank.now subst.now) }
{
    for lit in lits {
        put_atom(alloc, bank, &lit.atom, subst, found)?;
    }
    Ok(())
}
