use crate::starting::start;
use fm_bank::{Atom, ClauseSet};
use fm_base::{AtomId, Sig};
use sqlite_items::Items;
use std::test::Fail;

// A search over no sorts and no clauses begins with the bound 0 alone, and nothing to read.
#[test]
fn begins_with_the_first_bound(rt: HostRuntime) -> Result<(), Fail> {
    let clauses = ClauseSet {
        sig: Sig {
            sorts: 0,
            ranks: Items::new(rt.alloc()),
        },
        user: 0,
        clauses: Items::new(rt.alloc()),
    };
    let search = start(rt.alloc(), &clauses)?;
    assert_eq!(rt; search.state.bound(), 0);
    assert_eq!(rt; search.state.bank().atoms(), 1);
    assert!(rt; search.state.bank().find_atom(Atom::Bound(0)) == Some(AtomId(0)));
    assert_eq!(rt; search.state.store().len(), 0);
    assert_eq!(rt; search.state.trail().len(), 0);
    Ok(())
}
