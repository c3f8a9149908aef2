//! The answer to a `check-sat` whose assertions are truth values and equations of constants, until a search stands.
#![tactic(auto)]

mod certify;
#[cfg(test)]
mod tests;
mod thin;

pub use certify::answer;
pub use thin::are_thin;
