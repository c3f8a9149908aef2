//! Problems: assertions over a signature with their clause table, of which the blocks of certificates speak.
#![tactic(auto)]

mod laws;

pub use laws::tables_say_no_more;
