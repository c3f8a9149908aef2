//! Ground congruence closure over the terms of a bank: what follows from equations between them.
#![tactic(auto)]

mod classes;
mod closed;
mod closure;
mod equations;
mod facts;
mod key;
#[cfg(test)]
mod large_tests;
mod members;
mod object;
mod objects;
mod passes;
mod scan;
#[cfg(test)]
mod tests;

pub use closed::Closed;
pub use closure::{clash_in, equal_in};
pub use equations::Equations;
