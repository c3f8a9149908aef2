//! The guide of a search is asked, and its watches are told.
#![tactic(auto)]

mod asking;
mod telling;
#[cfg(test)]
mod tests;

pub use asking::ask;
pub use telling::tell;
