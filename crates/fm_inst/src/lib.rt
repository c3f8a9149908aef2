//! The first instance of a clause that is false in a candidate.
#![tactic(auto)]

mod depths;
mod instances;
mod linked;
mod lookup;
mod prefixes;
mod search;
#[cfg(test)]
mod tests;
mod values;

pub use instances::failing;
