ghost use Rattle.std.specs.Prelude.{◌≡◌, length, IfOk};
ghost use Rattle.fm_build.specs.Built.{IsBuilt, sizes_of};
ghost use Rattle.fm_build.specs.Marks.{AreBelow};
ghost use Rattle.fm_build.specs.Reached.{AreInstancesBelow, pairs_of};

use crate::elements::{all_elements, reps_by_sort};
use crate::instance::Instance;
use crate::rounds::all_rounds;
use crate::tables::all_tables;
use fm_bank::Bank;
use fm_base::{Interp, Memory, TermId, Ty};
use fm_rounds::Candidate;
use sqlite_items::Items;
use std::alloc::Global;

fn sizes(alloc: Global, reps: &[Items<TermId>]) -> Result<Items<u64>, Memory>
    ensures { IfOk result (λ ns. ns ≡ sizes_of reps.now) }
{
    let mut sizes = Items::new(alloc);
    for terms in reps {
        sizes.push(terms.len() as u64)?;
    }
    Ok(sizes)
}

// The candidate by plain lists: a class and a type for each term, and whether it is joined with yes.
pub(crate) fn assembled(
    alloc: Global,
    bank: &Bank,
    class: &[usize],
    types: &[Ty],
    holds: &[bool],
    start: &[usize],
    added: &[Instance],
) -> Result<Candidate, Memory>
    requires classes { AreBelow class.now (length class.now) }
    requires start { AreBelow start.now (length class.now) }
    requires added { AreInstancesBelow (length class.now) added.now }
    ensures { IfOk result (IsBuilt bank.now class.now types.now holds.now start.now (pairs_of added.now)) }
{
    let round = all_rounds(alloc, class, start, added)?;
    let reps = reps_by_sort(alloc, types, round.reps.as_slice(), bank.sig().sorts)?;
    let elements = all_elements(alloc, class, types, holds, reps.as_slice())?;
    let tables = all_tables(alloc, bank, round.marks.as_slice(), elements.as_slice())?;
    let sizes = sizes(alloc, reps.as_slice())?;
    let interp = Interp { sizes, tables };
    Ok(Candidate { interp, reps })
}
