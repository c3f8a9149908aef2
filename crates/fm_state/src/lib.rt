//! The state of the search machine, the changes of which its events are made, and what its menu offers by the state alone.
#![tactic(auto)]

mod changes;
mod choices;
mod groups;
mod grown;
mod learnt;
mod lemmas;
mod numbering;
mod offer;
mod orders;
mod searchable;
#[cfg(test)]
mod searchable_tests;
mod sizes;
mod standing;
mod start;
#[cfg(test)]
mod tests;
mod wanted;

pub use lemmas::{bound_order, card_order};
pub use offer::{Due, Offer};
pub use searchable::is_searchable;
pub use standing::State;
