//! The end of a search: where its menu has nothing left but the last group, a model of the clauses, or an instance of them
//! that is false in the candidate.
#![tactic(auto)]

mod found;
mod last;
#[cfg(test)]
mod tests;

pub use found::Found;
pub use last::first_failing;
