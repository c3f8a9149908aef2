//! Elaborated terms, shared in an arena: each is a node over earlier ones, with its type and its exact size
//! and depth as a tree; and the formulas and terms that they mean.
#![tactic(auto)]

mod arena;
mod building;
mod forms;
mod found;
mod frames;
mod laws;
mod node;
mod passes;
#[cfg(test)]
mod shown;
mod sizes;
mod taking;
#[cfg(test)]
mod tests;
mod trees;

pub use arena::Arena;
pub use laws::{cutting_keeps_earlier_terms, growing_keeps_terms};
pub use node::{Node, Op};
pub use sizes::Measure;
