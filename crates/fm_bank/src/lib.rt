//! Clauses, ground terms and atoms by number, and instances of clauses.
#![tactic(auto)]

mod atom;
mod bank;
mod clause;
mod finding;
mod growth;
mod key;
#[cfg(test)]
mod large_tests;
mod laws;
mod literal;
mod numbering;
mod parts;
mod sorted;
mod subterms;
#[cfg(test)]
mod tests;
mod typing;

pub use atom::Atom;
pub use bank::Bank;
pub use clause::{Clause, ClauseSet, Plit};
pub use laws::{closure_is_sound, ground_clauses_agree, instances_are_true, more_follows};
pub use literal::Literal;
