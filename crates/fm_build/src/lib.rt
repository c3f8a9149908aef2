//! The candidate: the interpretation that the classes of terms suggest, round by round.
#![tactic(auto)]

mod assembly;
mod classes;
mod elements;
mod entries;
mod gathering;
mod instance;
mod instances;
mod laws;
mod marks;
mod rounds;
mod slots;
mod start;
mod suggest;
mod tables;
#[cfg(test)]
mod tests;

pub use laws::{contents_are_grounded, tuples_are_named};
pub use suggest::candidate;
