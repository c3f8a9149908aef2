//! Certificates: blocks of lines with a claim, what makes them good, their text, and the way back from the text.
#![tactic(auto)]

mod block;
mod blocks;
mod fail;
#[cfg(test)]
mod large_tests;
mod laws;
mod parts;
mod reader;
mod reading;
mod row;
#[cfg(test)]
mod tests;
mod text;

pub use block::{Block, Claim, Line};
pub use blocks::{Blocks, first_outside, read};
pub use fail::{CertFail, CertText};
pub use laws::{
    blocks_are_sound, good_lines_hold, not_both, one_certificate, one_line, read_blocks_come_first,
    read_blocks_print,
};
pub use text::{header_line, print};
