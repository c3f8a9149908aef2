//! The lines of a certificate's block as a search makes them: those of the start, of each event, and the last ones at an
//! answer; and that they go on being the lines of the state.
#![tactic(auto)]

mod answers;
mod ending;
mod events;
mod first;
mod laws;
mod naming;
#[cfg(test)]
mod tests;

pub use answers::{sat_block, unsat_block};
pub use ending::{put_least, put_refutation};
pub use events::{put_cardinality, put_equality, put_instance, put_learnt, put_sum, put_terms};
pub use first::start_lines;
pub use laws::{learnt_steps_are_known, lines_go_on};
