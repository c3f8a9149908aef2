//! Candidates by rounds and failing instances: their definitions and laws.
#![tactic(auto)]

mod answers;
mod laws;

pub use answers::{Candidate, Failing};
pub use laws::{
    candidate_holds, clauses_agree, first_failing_is_least, instance_terms_hold,
    instances_are_reached, starts_are_inhabited, tables_are_written, tables_read_alike,
};
