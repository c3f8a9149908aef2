//! Term `ite`s taken out of formulas, and negation normal form with Skolem functions in place of existential variables.
#![tactic(auto)]

#[cfg(test)]
mod bounds;
#[cfg(test)]
mod built;
#[cfg(test)]
mod chain_tests;
#[cfg(test)]
mod large_tests;
mod laws;
mod lifting;
mod making;
mod marks;
mod numbers;
#[cfg(test)]
mod shown;
mod size;
#[cfg(test)]
mod tests;

pub use laws::{expansions_keep_truth, lifting_says_the_same, normal_form_says_the_same};
pub use lifting::{Lifted, lift};
pub use making::normal;
pub use size::normal_size;
