//! Regions of the classes of a sort.
#![tactic(auto)]

mod closing;
#[cfg(test)]
mod graphs;
mod growing;
#[cfg(test)]
mod large_tests;
mod laws;
mod parts;
mod picking;
#[cfg(test)]
mod plain;
mod regions;
mod rows;
mod source;
mod strong;
#[cfg(test)]
mod tests;

pub use laws::{grown_regions_hold_cliques, regions_hold_cliques};
pub use picking::{Pick, pick_of};
pub use regions::{Regions, Weak};
pub use strong::Strong;
