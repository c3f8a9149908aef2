use fm_base::{AtomId, TermId};

/// What the literals read can't all be: a false equality whose sides are equal, by its atom, or a true and a false
/// predicate term that are equal, in this order.
#[derive(Clone, Copy, Debug, PartialEq, Eq)]
pub enum Clash {
    Facts(AtomId),
    Truth(TermId, TermId),
}
