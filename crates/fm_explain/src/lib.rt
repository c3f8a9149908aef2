//! Explanations: why two terms are equal in an e-graph, by the literals of its explanation forest.
#![tactic(auto)]

#[cfg(test)]
mod chain_tests;
mod collecting;
mod explaining;
mod laws;
mod paths;
#[cfg(test)]
mod random_tests;
#[cfg(test)]
mod tests;

pub use explaining::{Explanation, explain, explain_truth};
pub use laws::graphs_stay_known;
