//! The clause store of the search: clauses by number, false and unit ones on a trail, and learning with chains of
//! resolutions.
#![tactic(auto)]

#[cfg(test)]
mod checked;
#[cfg(test)]
mod large_tests;
mod laws;
mod learning;
mod marks;
mod scan;
mod store;
#[cfg(test)]
mod tests;

pub use laws::{learning_goes_on, learning_is_resolution, trails_stay_explained};
pub use learning::{Chain, Learnt};
pub use store::{Store, Unit};
