//! The lexicon and the nesting of SMT-LIB scripts: a text read as items.
#![tactic(auto)]

mod building;
mod bytes;
mod items;
mod laws;
mod names;
mod pieces;
mod places;

pub use items::{Sexp, read_sexps};
pub use laws::{not_both, one_of_both, one_reading, one_refusal, spans_lie_within};
pub use names::{is_bare, is_reserved};
pub use pieces::Kind;

#[cfg(test)]
mod tests;
