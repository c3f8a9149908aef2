use fm_base::{Interp, TermId};
use sqlite_items::Items;

/// What is found where nothing else is offered: a model of the clauses, or an instance that is false in the candidate, by
/// the place of its clause and a term for each of the clause's variables.
#[derive(Drop)]
pub enum Found {
    Model(Interp),
    Instance { clause: usize, terms: Items<TermId> },
}
