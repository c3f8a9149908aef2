ghost use Rattle.std.specs.Prelude.{◌≡◌, [], IfOk, OnOk, OnErr};
ghost use Rattle.fm_bank.specs.Terms.{application, numbers};
ghost use Rattle.fm_bank.specs.Instances.{equality as equality_of};
ghost use Rattle.fm_bank.specs.Interning.{IsUnderway, application_put, atom_grown, first_places, grown, literals_put, term_number, terms_put, with_literal, with_term};

use crate::atom::Atom;
use crate::clause::Plit;
use crate::key::{Args, Key};
use crate::literal::Literal;
use fm_base::{Memory, Patom, Pterm, SymId, TermId};
use indexmap::IndexSet;
use smallvec::SmallVec;
use std::alloc::Global;

// The number of a term, which comes last where it isn't there yet.
pub(crate) fn put(terms: &mut IndexSet<Key>, symbol: SymId, args: Args) -> Result<TermId, Memory>
    ensures number { IfOk result (λ t. t.0 ≡ term_number terms.old.keys (application symbol args.items)) }
    ensures terms { OnOk result (terms.new.keys ≡ with_term terms.old.keys (application symbol args.items)) }
    ensures err { OnErr result (terms.new.keys ≡ terms.old.keys) }
{
    let (place, _) = terms.insert_full(Key::new(symbol, args))?;
    Ok(TermId(place))
}

// The number of a term whose variables are replaced.
#[cycle(grounding)]
fn ground(
    alloc: Global,
    terms: &mut IndexSet<Key>,
    term: &Pterm,
    subst: &[TermId],
) -> Result<TermId, Memory>
    ensures ok { IfOk result (λ t. grown term.now (numbers subst.now) terms.old.keys ≡ (terms.new.keys, t.0)) }
    ensures err { OnErr result (IsUnderway (grown term.now (numbers subst.now)) terms.old.keys terms.new.keys) }
{
    match term {
        Pterm::Var(variable) => Ok(subst.get(*variable).copied().unwrap_or(TermId(0))),
        Pterm::App(symbol, args) => ground_application(
            alloc,
            terms,
            *symbol,
            args.as_slice(),
            subst,
        ),
    }
}

// The number of a symbol applied to such terms.
#[cycle(grounding)]
fn ground_application(
    alloc: Global,
    terms: &mut IndexSet<Key>,
    symbol: SymId,
    args: &[Pterm],
    subst: &[TermId],
) -> Result<TermId, Memory>
    ensures ok { IfOk result (λ t. application_put symbol args.now subst.now terms.old.keys ≡ (terms.new.keys, t.0)) }
    ensures err { OnErr result (IsUnderway (application_put symbol args.now subst.now) terms.old.keys terms.new.keys) }
{
    let args = ground_all(alloc, terms, args, subst)?;
    put(terms, symbol, args)
}

#[cycle(grounding)]
fn ground_all(
    alloc: Global,
    terms: &mut IndexSet<Key>,
    args: &[Pterm],
    subst: &[TermId],
) -> Result<Args, Memory>
    ensures ok { IfOk result (λ ts. terms_put args.now subst.now terms.old.keys ≡ (terms.new.keys, numbers ts.items)) }
    ensures err { OnErr result (IsUnderway (terms_put args.now subst.now) terms.old.keys terms.new.keys) }
{
    let mut ids = SmallVec::new(alloc);
    for arg in args {
        let id = ground(alloc, terms, arg, subst)?;
        ids.push(id)?;
    }
    Ok(ids)
}

fn ground_atom(
    alloc: Global,
    terms: &mut IndexSet<Key>,
    atom: &Patom,
    subst: &[TermId],
) -> Result<Atom, Memory>
    ensures ok { IfOk result (λ a. atom_grown atom.now (numbers subst.now) terms.old.keys ≡ (terms.new.keys, a)) }
    ensures err { OnErr result (IsUnderway (atom_grown atom.now (numbers subst.now)) terms.old.keys terms.new.keys) }
{
    match atom {
        Patom::Pred(symbol, args) => {
            let term = ground_application(alloc, terms, *symbol, args.as_slice(), subst)?;
            Ok(Atom::Pred(term))
        }
        Patom::Equal(left, right) => {
            let left = ground(alloc, terms, left, subst)?;
            let right = ground(alloc, terms, right, subst)?;
            Ok(equality(left, right))
        }
    }
}

// An equality has the smaller number first.
pub(crate) fn equality(left: TermId, right: TermId) -> Atom
    ensures { result ≡ equality_of left.0 right.0 }
{
    if left.0 <= right.0 {
        Atom::Equal(left, right)
    } else {
        Atom::Equal(right, left)
    }
}

// The literals of an instance, each once.
pub(crate) fn ground_literals(
    alloc: Global,
    terms: &mut IndexSet<Key>,
    lits: &[Plit],
    subst: &[TermId],
) -> Result<IndexSet<Literal>, Memory>
    ensures terms { OnOk result (terms.new.keys ≡ (literals_put lits.now subst.now terms.old.keys).0) }
    ensures literals { IfOk result (λ ls. ls.keys ≡ first_places [] (literals_put lits.now subst.now terms.old.keys).1) }
    ensures err { OnErr result (IsUnderway (literals_put lits.now subst.now) terms.old.keys terms.new.keys) }
{
    let mut literals = IndexSet::new(alloc);
    for lit in lits {
        let atom = ground_atom(alloc, terms, &lit.atom, subst)?;
        let positive = lit.positive;
        put_literal(&mut literals, Literal { positive, atom })?;
    }
    Ok(literals)
}

// A literal that is there stays where it is.
fn put_literal(literals: &mut IndexSet<Literal>, literal: Literal) -> Result<(), Memory>
    ensures { OnOk result (literals.new.keys ≡ with_literal literals.old.keys literal) }
{
    literals.insert(literal)?;
    Ok(())
}
