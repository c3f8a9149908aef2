ghost use Rattle.std.specs.Prelude.{◌≡◌, IfOk};

use fm_bank::Plit;
use fm_base::{Memory, Patom, Pterm};
use sqlite_items::Items;
use std::alloc::Global;

#[cycle(copy)]
fn copy_term(alloc: Global, term: &Pterm) -> Result<Pterm, Memory>
    ensures { IfOk result (λ t. t ≡ term.now) }
{
    match term {
        Pterm::Var(v) => Ok(Pterm::Var(*v)),
        Pterm::App(symbol, terms) => {
            let made = copy_terms(alloc, terms.as_slice())?;
            Ok(Pterm::App(*symbol, Items::from_vec(made)))
        }
    }
}

#[cycle(copy)]
fn copy_terms(alloc: Global, terms: &[Pterm]) -> Result<Vec<Pterm>, Memory>
    ensures { IfOk result (λ v. v.items ≡ terms.now) }
{
    let mut made = Vec::new(alloc);
    for term in terms {
        made.push(copy_term(alloc, term)?)?;
    }
    Ok(made)
}

pub(crate) fn copy_atom(alloc: Global, atom: &Patom) -> Result<Patom, Memory>
    ensures { IfOk result (λ a. a ≡ atom.now) }
{
    match atom {
        Patom::Pred(symbol, terms) => {
            let made = copy_terms(alloc, terms.as_slice())?;
            Ok(Patom::Pred(*symbol, Items::from_vec(made)))
        }
        Patom::Equal(a, b) => {
            let left = copy_term(alloc, a)?;
            let right = copy_term(alloc, b)?;
            Ok(Patom::Equal(left, right))
        }
    }
}

pub(crate) fn copy_literals(alloc: Global, lits: &[Plit]) -> Result<Vec<Plit>, Memory>
    ensures { IfOk result (λ v. v.items ≡ lits.now) }
{
    let mut made = Vec::new(alloc);
    for lit in lits {
        let atom = copy_atom(alloc, &lit.atom)?;
        made.push(Plit {
            positive: lit.positive,
            atom,
        })?;
    }
    Ok(made)
}
