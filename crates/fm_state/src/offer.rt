use fm_bank::{Atom, Literal};
use fm_base::{Reader, SortId, TermId};
use fm_guide::Word;
use sqlite_items::Items;

/// A lemma that may be due: from a clash, by the value of an atom, of a sort's clique, of the sum, by order.
#[derive(Clone, Copy, Debug, PartialEq, Eq)]
pub enum Due {
    Clash,
    Value(Atom, bool),
    Clique(SortId),
    SumBound,
    CardOrder(SortId, u64),
    BoundOrder(u64),
}

/// One thing that the search may do next, with what it takes to do it. A guide sees less of it (`fm_guide::Offer`).
#[derive(Drop)]
pub enum Offer {
    Learn(usize),
    Unit(usize),
    Take(Reader),
    Lemma(Reader, Due),
    Imply(Reader, Due),
    Turn,
    Decide(Literal),
    Split(TermId, TermId),
    Instance(usize, Items<TermId>),
    Raise,
    Answer(Word),
}
