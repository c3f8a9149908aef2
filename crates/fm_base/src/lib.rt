//! The shared types of the model finder: identifiers, signatures, formulas and interpretations, places in
//! a text and refusals, and the trait `Undo`. The definitions that speak of these types alone, of which
//! Tarski truth is the chief one, stand in `specs/`.
#![tactic(auto)]

mod formula;
mod ids;
mod interp;
mod laws;
mod refusal;
mod signature;
mod undo;

pub use formula::{Formula, Fterm, Nnf, Patom, Pterm};
pub use ids::{AtomId, Lit, Memory, Reader, SortId, SymId, TermId};
pub use interp::{Interp, Table};
pub use laws::{blocks_read_every_tuple, tables_interpret, truth_by_cases};
pub use refusal::{Fail, Place, Reason, Refusal};
pub use signature::{Rank, Sig, Ty, have_one_sort};
pub use undo::Undo;
