//! Names in tables, and the levels of an assertion stack, for named entries and for others.
#![tactic(auto)]

mod layers;
mod levels;
mod marks;
mod stack;
mod table;

pub use layers::Layers;
pub use levels::Levels;
pub use stack::Stack;
pub use table::{NameSet, Table};
