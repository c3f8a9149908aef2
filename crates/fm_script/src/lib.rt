//! The shapes of commands.
#![tactic(auto)]

mod command;
mod read;
mod words;

pub use command::{Command, Number, Part};
pub use read::{parameters, read_command};
pub use words::{keyword, members, name, place, references, symbol};
