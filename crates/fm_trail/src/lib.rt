//! The trail of the search: literals in the order in which they got their values, with levels and reasons, and how far
//! each reader has read it.
#![tactic(auto)]

mod entry;
mod heads;
#[cfg(test)]
mod tests;
mod trail;

pub use entry::{Entry, Why};
pub use trail::Trail;
