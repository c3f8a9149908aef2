//! A session: commands are carried out one after another, each with its reply, and a `check-sat` with its block.
#![tactic(auto)]

mod budget;
mod effect;
mod replies;
mod session;
#[cfg(test)]
mod tests;

pub use budget::Budget;
pub use replies::error_line;
pub use session::{Session, Step};
