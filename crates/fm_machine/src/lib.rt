//! The search, begun: a state of the search machine with the graphs of its readers, which read on and go back with it.
#![tactic(auto)]

mod events;
mod held;
mod picking;
mod reading;
mod returning;
mod settling;
mod starting;
#[cfg(test)]
mod tests;

pub use events::{add_lemma, decide, imply_lemma, imply_unit, split};
pub use held::Search;
pub use reading::take;
pub use returning::{learn, raise, turn};
pub use settling::settle;
pub use starting::start;
