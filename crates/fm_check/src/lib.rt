//! The checker of certificates, whoever made them: a script is judged, and then the text of a certificate for it.
#![tactic(auto)]

mod commands;
mod judging;
mod printed;
mod progress;
mod verdict;
mod whole;

pub use judging::{Judged, judge};
pub use printed::{rejected_line, verdict_lines};
pub use verdict::{CheckFail, Verdict};
pub use whole::{check, check_text};
