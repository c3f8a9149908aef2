//! The e-graphs of the readers of equalities in a search: what they have read of the trail, and the lemmas that this makes
//! due.
#![tactic(auto)]

mod deciding;
mod due;
mod graph;
mod laws;
mod shown;
#[cfg(test)]
mod tests;

pub use deciding::decided;
pub use due::{Lemma, clash_lemma, value_lemma};
pub use graph::{go_back, graph_over, read, register};
pub use laws::{graphs_agree, graphs_stay};
