/// What a certificate's line can break: the text, the number of a block, a line's own rule by its letter, the ending and the
/// model.
#[derive(Clone, Copy, Debug, PartialEq, Eq)]
pub enum Rule {
    Text,
    B,
    T,
    I,
    E,
    C,
    S,
    O,
    R,
    Q,
    M,
}

/// The first line of a certificate's text that isn't good, and the rule that it breaks.
#[derive(Clone, Copy, Debug, PartialEq, Eq)]
pub struct Fault {
    pub line: u64,
    pub rule: Rule,
}
