use crate::{Found, first_failing};
use fm_bank::{Atom, Bank, ClauseSet};
use fm_base::{Interp, Memory, Sig};
use fm_cong::Egraph;
use sqlite_items::Items;
use std::alloc::Global;
use std::test::Fail;

// Without sorts and clauses the search is at its end as soon as the bound 0 is decided and read.
fn found_over_nothing(alloc: Global) -> Result<Found, Memory> {
    let ranks = Items::new(alloc);
    let sig = Sig { sorts: 0, ranks };
    let mut bank = Bank::new(alloc, &sig)?;
    bank.atom(Atom::Bound(0))?;
    let graph = Egraph::new(alloc)?;
    let clauses = Items::new(alloc);
    let user = 0;
    let set = ClauseSet { sig, user, clauses };
    first_failing(alloc, &set, &bank, &graph, &[])
}

fn is_empty(interp: &Interp) -> bool {
    interp.sizes.is_empty() && interp.tables.is_empty()
}

#[test]
fn nothing_has_a_model(rt: HostRuntime) -> Result<(), Fail> {
    match found_over_nothing(rt.alloc())? {
        Found::Model(interp) => assert!(rt; is_empty(&interp)),
        Found::Instance { .. } => assert!(rt; false),
    }
    Ok(())
}
