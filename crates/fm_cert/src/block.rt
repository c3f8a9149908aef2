use fm_bank::Literal;
use fm_base::{Interp, SortId, SymId, TermId};
use sqlite_items::Items;

/// A line of a block. A line `Term` makes a term, each other line a clause; both are numbered from 0 within the block,
/// in the order of their lines.
///
/// `Term` applies a symbol to earlier terms. `Instance` has the number of a clause of the assertions' clause table and
/// a term for each of its variables. `Equality` has the literals of its clause, and further terms over which
/// congruence closure refutes their opposites. `Cardinality` has k + 1 terms of a sort: it has more than k elements, or
/// two of them are equal. `Sum` has a number n and a number k for each sort. `OrderCard` and `OrderBound` say that what
/// is at most k is at most k + 1, `OrderZero` that a sort isn't empty. `Resolution` resolves the clause `first` with the
/// clause of each step on the literal beside it.
#[derive(Drop)]
pub enum Line {
    Term {
        symbol: SymId,
        args: Items<TermId>,
    },
    Instance {
        clause: usize,
        terms: Items<TermId>,
    },
    Equality {
        lits: Items<Literal>,
        support: Items<TermId>,
    },
    Cardinality {
        sort: SortId,
        k: u64,
        terms: Items<TermId>,
    },
    Sum {
        n: u64,
        ks: Items<u64>,
    },
    OrderCard {
        sort: SortId,
        k: u64,
    },
    OrderBound {
        n: u64,
    },
    OrderZero {
        sort: SortId,
    },
    Resolution {
        first: usize,
        steps: Items<(Literal, usize)>,
    },
}

/// The ending of a block: what it claims of the assertions in force at its `check-sat`. The model of `Sat` has
/// a size for each sort and a table for each declared function in force.
#[derive(Drop)]
pub enum Claim {
    Unsat,
    Sat { sum: u64, model: Interp },
    Unknown { instances: u64, decisions: u64 },
}

/// The evidence for one `check-sat`, numbered from 0.
#[derive(Drop)]
pub struct Block {
    pub number: u64,
    pub lines: Items<Line>,
    pub claim: Claim,
}
