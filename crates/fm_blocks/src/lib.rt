//! The checker of a certificate's blocks, whoever made them: the next block is good for the next problem, or this is the first line
//! that isn't, and its rule.
#![tactic(auto)]

mod blocks;
mod conflict;
mod ending;
mod laws;
mod lits;
mod model;
mod progress;
mod state;
#[cfg(test)]
mod tests;
mod verdict;

pub use laws::{good_lines_are_fit, good_texts_hold, not_both, one_first_fault};
pub use progress::{Step, check_end, check_next};
pub use verdict::{Fault, Rule};
