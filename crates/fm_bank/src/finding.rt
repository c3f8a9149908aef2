ghost use Rattle.std.specs.Prelude.{◌≡◌, slice_get, IfOk};
ghost use Rattle.std.specs.Option.{option_map};
ghost use Rattle.fm_bank.specs.Terms.{application, find, number_found, numbers};
ghost use Rattle.fm_bank.specs.Instances.{AreNumbersOf, application_number, equality_of, ground_atom, ground_literals, number_of, predicate_of};

use crate::atom::Atom;
use crate::clause::Plit;
use crate::growth::equality;
use crate::key::{Args, Key, Wanted};
use crate::literal::Literal;
use fm_base::{Memory, Patom, Pterm, SymId, TermId};
use indexmap::IndexSet;
use smallvec::SmallVec;
use std::alloc::Global;

// The number of a term, where it is there.
pub(crate) fn find_term(terms: &IndexSet<Key>, symbol: SymId, args: &[TermId]) -> Option<TermId>
    ensures { number_found result ≡ find terms.now.keys (application symbol args.now) }
{
    terms.get_index_of(Wanted { symbol, args }).map(TermId)
}

// The number of a term whose variables are replaced, where it and its subterms are there.
#[cycle(finding)]
fn find_replaced(
    alloc: Global,
    terms: &IndexSet<Key>,
    term: &Pterm,
    subst: &[TermId],
) -> Result<Option<TermId>, Memory>
    ensures { IfOk result (λ o. number_of term.now terms.now.keys (numbers subst.now) ≡ number_found o) }
{
    match term {
        Pterm::Var(variable) => Ok(replacement(subst, *variable)),
        Pterm::App(symbol, args) => {
            find_application(alloc, terms, *symbol, args.as_slice(), subst)
        }
    }
}

fn replacement(subst: &[TermId], variable: usize) -> Option<TermId>
    ensures { number_found result ≡ slice_get (numbers subst.now) variable }
{
    subst.get(variable).copied()
}

#[cycle(finding)]
fn find_application(
    alloc: Global,
    terms: &IndexSet<Key>,
    symbol: SymId,
    args: &[Pterm],
    subst: &[TermId],
) -> Result<Option<TermId>, Memory>
    ensures { IfOk result (λ o. application_number symbol.0 args.now terms.now.keys (numbers subst.now) ≡ number_found o) }
{
    match find_all(alloc, terms, args, subst)? {
        None => Ok(None),
        Some(args) => Ok(find_term(terms, symbol, args.as_slice())),
    }
}

#[cycle(finding)]
fn find_all(
    alloc: Global,
    terms: &IndexSet<Key>,
    args: &[Pterm],
    subst: &[TermId],
) -> Result<Option<Args>, Memory>
    ensures { IfOk result (λ o. AreNumbersOf args.now terms.now.keys subst.now (option_map (λ ts. numbers ts.items) o)) }
{
    let mut ids = SmallVec::new(alloc);
    for arg in args {
        match find_replaced(alloc, terms, arg, subst)? {
            None => return Ok(None),
            Some(id) => ids.push(id)?,
        }
    }
    Ok(Some(ids))
}

fn find_ground_atom(
    alloc: Global,
    terms: &IndexSet<Key>,
    atom: &Patom,
    subst: &[TermId],
) -> Result<Option<Atom>, Memory>
    ensures { IfOk result (λ o. ground_atom terms.now.keys (numbers subst.now) atom.now ≡ o) }
{
    match atom {
        Patom::Pred(symbol, args) => {
            let term = find_application(alloc, terms, *symbol, args.as_slice(), subst)?;
            Ok(predicate(term))
        }
        Patom::Equal(left, right) => {
            let left = find_replaced(alloc, terms, left, subst)?;
            let right = find_replaced(alloc, terms, right, subst)?;
            Ok(both(left, right))
        }
    }
}

fn predicate(term: Option<TermId>) -> Option<Atom>
    ensures { result ≡ predicate_of (number_found term) }
{
    match term {
        None => None,
        Some(term) => Some(Atom::Pred(term)),
    }
}

fn both(left: Option<TermId>, right: Option<TermId>) -> Option<Atom>
    ensures { result ≡ equality_of (number_found left) (number_found right) }
{
    match (left, right) {
        (Some(left), Some(right)) => Some(equality(left, right)),
        _ => None,
    }
}

// The literals of an instance, repeats and all, where its terms are there.
pub(crate) fn find_literals(
    alloc: Global,
    terms: &IndexSet<Key>,
    lits: &[Plit],
    subst: &[TermId],
) -> Result<Option<Vec<Literal>>, Memory>
    ensures { IfOk result (λ o. ground_literals terms.now.keys (numbers subst.now) lits.now ≡ option_map (λ v. v.items) o) }
{
    let mut literals = Vec::new(alloc);
    for lit in lits {
        let positive = lit.positive;
        match find_ground_atom(alloc, terms, &lit.atom, subst)? {
            None => return Ok(None),
            Some(atom) => literals.push(Literal { positive, atom })?,
        }
    }
    Ok(Some(literals))
}
