//! Resolution by marks: clauses by number, and chains of resolutions that cost what the literals of their clauses are.
#![tactic(auto)]

mod chain;
mod marks;
mod names;
mod store;

pub use store::Store;
