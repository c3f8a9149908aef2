use crate::ids::{SortId, SymId};
use sqlite_items::{Boxed, Items};

/// A term of a formula. `Var(i)` is the i-th bound variable in scope, counted from the outermost, from 0.
#[cycle(formula)]
#[derive(Drop)]
pub enum Fterm {
    Var(usize),
    App(SymId, Items<Fterm>),
    Ite(Boxed<Formula>, Boxed<Fterm>, Boxed<Fterm>),
}

/// A formula of many-sorted first-order logic with equality. `Quant` binds the variables of `vars` in
/// order, the first outermost; it is universal where `all` is true and existential else. `Equal` is the
/// equality of two terms of one declared sort; that of two formulas is `Iff`.
#[cycle(formula)]
#[derive(Drop)]
pub enum Formula {
    Truth(bool),
    Pred(SymId, Items<Fterm>),
    Equal(Fterm, Fterm),
    Not(Boxed<Formula>),
    And(Items<Formula>),
    Or(Items<Formula>),
    Iff(Boxed<Formula>, Boxed<Formula>),
    Ite(Boxed<Formula>, Boxed<Formula>, Boxed<Formula>),
    Quant {
        all: bool,
        vars: Items<SortId>,
        body: Boxed<Formula>,
    },
}

/// A term without `ite`: a variable, or a symbol applied to such terms.
#[derive(Drop)]
pub enum Pterm {
    Var(usize),
    App(SymId, Items<Pterm>),
}

/// An atom over terms without `ite`.
#[derive(Drop)]
pub enum Patom {
    Pred(SymId, Items<Pterm>),
    Equal(Pterm, Pterm),
}

/// A formula in negation normal form without existential quantifiers.
#[derive(Drop)]
pub enum Nnf {
    Lit { positive: bool, atom: Patom },
    And(Items<Nnf>),
    Or(Items<Nnf>),
    All(Items<SortId>, Boxed<Nnf>),
}
