//! Names in force, and what functions and the operators of Core make of terms that stand in an arena.
#![tactic(auto)]

mod application;
mod chains;
mod constants;
mod entry;
mod making;
mod refusing;
mod scope;
mod words;

pub use application::{function, same_type};
pub use constants::constant;
pub use entry::{Function, Stands};
pub use refusing::refuse;
pub use scope::{Found, Frame, Scope, count, newest, outside, past_all, places, within_let};
pub use words::{is_core, is_kept_for_solvers, is_taken};
