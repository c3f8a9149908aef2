use fm_base::Refusal;
use fm_blocks::Rule;
use fm_cert::Claim;

/// A certificate is good for a script, and these are the claims of its blocks in order; or it isn't, and this is the first line
/// that isn't good, numbered from 1, with the rule that it breaks.
#[derive(Drop)]
pub enum Verdict {
    Accepted(Vec<Claim>),
    Rejected { line: u64, rule: Rule },
}

/// The script has a refusal, so there is nothing to check; or memory was wanted.
#[derive(Clone, Copy, Debug, PartialEq, Eq)]
pub enum CheckFail {
    Script(Refusal),
    Memory,
}
