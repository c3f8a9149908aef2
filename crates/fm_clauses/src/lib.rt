//! The clause table of assertions, with proxies and fresh constants, and the law that carries it back to them.
#![tactic(auto)]

#[cfg(test)]
mod built;
mod copies;
mod fresh;
#[cfg(test)]
mod large_tests;
mod laws;
mod making;
mod members;
mod scoped;
#[cfg(test)]
mod shown;
mod table;
#[cfg(test)]
mod tests;

pub use laws::{
    clauses_say_the_same, ground_terms_agree, table_is_well_sorted, table_says_the_same,
};
pub use table::{Problem, clauses_of};
