use crate::forms::Form;
use crate::sizes::Measure;
use fm_base::{Formula, Fterm, SortId, SymId, Ty};
use sqlite_items::Items;

/// What makes one term of several. `Equal` and `Choice` are the equality and the `ite` of terms, `Iff` and
/// `Ite` those of formulas; `Distinct` says of each pair of its parts that they differ, which are formulas
/// where it is true.
#[derive(Clone, Copy, Debug)]
pub enum Op {
    Truth(bool),
    Pred(SymId),
    App(SymId),
    Not,
    And,
    Or,
    Equal,
    Iff,
    Ite,
    Choice,
    Distinct(bool),
}

/// A term over earlier ones, which stand by their numbers. `Name` is the name at a place in scope, a formula
/// where `truth` is true. `Quant` is a block of quantifiers, around which `base` names are in scope: its
/// variables are the names from there on. `Defined` is an earlier term as the body of a definition, and `Use` is
/// one where its parameters, the names from 0 on, stand for the arguments.
#[derive(Drop)]
pub enum Node {
    Name {
        place: usize,
        truth: bool,
    },
    Made {
        op: Op,
        parts: Items<usize>,
    },
    Quant {
        all: bool,
        vars: Items<SortId>,
        base: usize,
        body: usize,
    },
    Defined {
        body: usize,
        form: Form,
    },
    Use {
        body: usize,
        args: Items<usize>,
        form: Form,
    },
}

/// A node with its type and its measure as a tree.
#[derive(Drop)]
pub struct Entry {
    pub node: Node,
    pub ty: Ty,
    pub measure: Measure,
}

/// A formula or a term.
#[derive(Drop)]
pub enum Tree {
    Truth(Formula),
    Thing(Fterm),
}
