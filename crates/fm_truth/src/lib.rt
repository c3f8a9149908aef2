//! Truth of formulas over finite domains, and tests of interpretations given by tables.
#![tactic(auto)]

#[cfg(test)]
mod checked;
mod evaluate;
mod failing;
#[cfg(test)]
mod large_tests;
mod lookup;
mod rooms;
mod sorted;
mod tables;
#[cfg(test)]
mod tests;
#[cfg(test)]
mod truth_tests;
mod tuples;

pub use evaluate::{holds, value};
pub use failing::{Falsity, first_failing};
pub use rooms::Env;
pub use sorted::{are_closed, closed_sort, is_closed};
pub use tables::fits;
