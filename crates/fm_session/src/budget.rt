/// How many instances and decisions a `check-sat` may take, for each anew.
#[derive(Clone, Copy, Debug, PartialEq, Eq)]
pub struct Budget {
    pub instances: u64,
    pub decisions: u64,
}
