use fm_base::{Interp, TermId};
use sqlite_items::Items;

/// An interpretation by tables, and for each sort the term that stands for each element, in order.
#[derive(Drop)]
pub struct Candidate {
    pub interp: Interp,
    pub reps: Items<Items<TermId>>,
}

/// An instance of a clause: its place, and a term for each of its variables.
#[derive(Drop)]
pub struct Failing {
    pub clause: usize,
    pub terms: Items<TermId>,
}
