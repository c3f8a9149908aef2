//! Files by name: the trait `Files`, whose meanings contracts name for each name, files in memory, the real
//! files of the system, and reading and writing of whole files.
#![tactic(auto)]

mod entry;
mod files;
mod making;
mod mem;
mod real;
#[cfg(test)]
mod tests;
mod whole;

pub use files::{Failed, Files};
pub use mem::MemFiles;
pub use real::RealFiles;
pub use whole::{ReadError, read_all, write_all_of};
