//! Congruence closure with undo and an explanation forest.
#![tactic(auto)]

mod additions;
mod clash;
mod egraph;
mod fact;
mod finding;
mod join;
mod key;
#[cfg(test)]
mod large_tests;
mod levels;
mod link;
mod literals;
mod mark;
mod member;
mod nodes;
mod pairs;
mod queries;
mod registry;
mod state;
mod table;
#[cfg(test)]
mod tests;
mod track;
mod types;

pub use clash::Clash;
pub use egraph::Egraph;
pub use fact::Fact;
pub use link::{Link, Node, link_in};
