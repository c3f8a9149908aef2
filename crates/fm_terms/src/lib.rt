//! Terms of scripts, elaborated: an item becomes a term of the arena, with its type, or is refused.
#![tactic(auto)]

mod attributes;
mod elaboration;
mod pairs;
#[cfg(test)]
mod shown;
#[cfg(test)]
mod tests;
mod variables;

pub use elaboration::{Elaborated, elaborate};
pub use fm_apply::{Function, Scope, Stands, is_core, is_kept_for_solvers};
pub use fm_levels::{Levels, NameSet, Table};
pub use pairs::distinct_names;
