use sqlite_items::Items;

/// The table of a symbol. It gives each tuple of `except` the value beside it and every other tuple
/// `default`. A truth value is 0 or 1. The tuples of `except` ascend strictly in lexicographic order, no
/// value of `except` is the default, and a table of no arguments has no exceptions.
#[derive(Drop)]
pub struct Table {
    pub default: u64,
    pub except: Items<(Items<u64>, u64)>,
}

/// An interpretation by tables: the size of each sort, whose elements are the numbers below it, and the
/// table of each symbol, both in order of their numbers.
#[derive(Drop)]
pub struct Interp {
    pub sizes: Items<u64>,
    pub tables: Items<Table>,
}
