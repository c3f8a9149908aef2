//! Cells with undo: classes as rings of members, and a forest of links; and terms by their sorts.
#![tactic(auto)]

mod apart;
mod ascending;
mod cells;
mod edge;
mod forest;
mod places;
mod rings;
mod sorts;
#[cfg(test)]
mod tests;

pub use apart::{Apart, Between, Cut};
pub use ascending::{Ascending, find};
pub use cells::Logged;
pub use edge::{Cause, Edge};
pub use forest::{depth, hang, link_of};
pub use places::Places;
pub use rings::{Classes, Root};
pub use sorts::{Sorts, first_terms};
