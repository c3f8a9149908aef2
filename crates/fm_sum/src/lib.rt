//! The sum bound: what the bounds read say of the sizes of all sorts together.
#![tactic(auto)]

mod bound;
#[cfg(test)]
mod tests;

pub use bound::{Sum, SumBound};
