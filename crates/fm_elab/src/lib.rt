//! The assertion stack: sorts, functions, definitions and assertions in force, level by level, and what commands do to it.
#![tactic(auto)]

mod apply;
mod assert;
mod both;
mod declare;
mod define;
mod given;
#[cfg(test)]
mod large_tests;
mod laws;
mod levels;
mod problem;
mod scopes;
mod sizes;
mod sorts;
#[cfg(test)]
mod tests;

pub use laws::{names_stay_distinct, stacks_stay_sorted};
pub use problem::{Closed, Problem};
pub use scopes::Scopes;
