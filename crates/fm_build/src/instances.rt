ghost use Rattle.std.specs.Prelude.{◌≡◌, IfOk, OnOk};
ghost use Rattle.fm_bank.specs.Terms.{numbers};
ghost use Rattle.fm_build.specs.Instancing.{PutsInstances, instance_content};
ghost use Rattle.fm_build.specs.Reached.{pair_of};

use crate::gathering::put_literals;
use crate::instance::Instance;
use fm_bank::{Bank, ClauseSet};
use fm_base::{Memory, TermId};
use sqlite_items::Items;
use std::alloc::Global;

fn numbers_of(alloc: Global, terms: &[TermId]) -> Result<Vec<usize>, Memory>
    ensures { IfOk result (λ v. v.items ≡ numbers terms.now) }
{
    let mut numbers = Vec::new(alloc);
    for term in terms {
        numbers.push(term.0)?;
    }
    Ok(numbers)
}

fn terms_at(
    alloc: Global,
    clauses: &ClauseSet,
    bank: &Bank,
    place: usize,
    subst: &[TermId],
) -> Result<Vec<usize>, Memory>
    ensures { IfOk result (λ v. v.items ≡ (instance_content clauses.now bank.now.terms (place, numbers subst.now)).1) }
{
    let mut found = Vec::new(alloc);
    if let Some(clause) = clauses.clauses.get(place) {
        put_literals(alloc, bank, clause.lits.as_slice(), subst, &mut found)?;
    }
    Ok(found)
}

fn instance_of(
    alloc: Global,
    clauses: &ClauseSet,
    bank: &Bank,
    place: usize,
    subst: &[TermId],
) -> Result<Instance, Memory>
    ensures { IfOk result (λ i. pair_of i ≡ instance_content clauses.now bank.now.terms (place, numbers subst.now)) }
{
    let terms = terms_at(alloc, clauses, bank, place, subst)?;
    let subst = numbers_of(alloc, subst)?;
    Ok(Instance { subst, terms })
}

// Puts the instances that were added: what stands for their variables, and their terms.
pub(crate) fn put_instances(
    alloc: Global,
    clauses: &ClauseSet,
    bank: &Bank,
    added: &[(usize, Items<TermId>)],
    instances: &mut Vec<Instance>,
) -> Result<(), Memory>
    ensures { OnOk result (PutsInstances clauses.now bank.now.terms added.now instances.old.items instances.new.items) }
{
    for item in added {
        let instance = instance_of(alloc, clauses, bank, item.0, item.1.as_slice())?;
        instances.push(instance)?;
    }
    Ok(())
}
