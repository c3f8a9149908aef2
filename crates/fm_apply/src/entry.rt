use fm_base::{SymId, Ty};
use sqlite_items::Items;

/// What a function in force stands for: a declared symbol, or a definition, by the number of its entry in the arena.
#[derive(Clone, Copy, Debug)]
pub enum Stands {
    Declared(SymId),
    Defined(usize),
}

/// A function in force, with the types of its arguments and of its result.
#[derive(Drop)]
pub struct Function {
    pub args: Items<Ty>,
    pub result: Ty,
    pub stands: Stands,
}
