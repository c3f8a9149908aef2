ghost use Rattle.std.specs.Prelude.{◌≡◌, nat_lt, IfOk};
ghost use Rattle.std.specs.List.{list_all};
ghost use Rattle.fm_base.specs.Truth.{declared_sort, have_one_sort as have_one_sort_of, is_bool, is_of_sort};

use crate::ids::{Memory, SortId};
use sqlite_items::Items;
use std::alloc::Global;

/// The type of an argument or of a result: Bool or a declared sort.
#[derive(Clone, Copy, Debug, PartialEq, Eq)]
pub enum Ty {
    Bool,
    Of(SortId),
}

/// The rank of a function symbol: the types of its arguments, in order, and of its result.
#[derive(Drop)]
pub struct Rank {
    pub args: Items<Ty>,
    pub result: Ty,
}

/// A many-sorted signature: how many sorts there are, and the rank of each symbol in order of the symbols'
/// numbers. A symbol whose result is Bool is a predicate.
#[derive(Drop)]
pub struct Sig {
    pub sorts: usize,
    pub ranks: Items<Rank>,
}

impl Ty {
    /// Whether this is Bool.
    pub fn is_bool(self) -> bool
        ensures { result ≡ is_bool self }
    {
        match self {
            Ty::Bool => true,
            Ty::Of(_) => false,
        }
    }

    /// The declared sort, where this is one.
    pub fn sort(self) -> Option<SortId>
        ensures { result ≡ declared_sort self }
    {
        match self {
            Ty::Bool => None,
            Ty::Of(sort) => Some(sort),
        }
    }

    /// Whether this is the sort. None stands for a term that isn't well sorted, and nothing takes it.
    pub fn takes(self, sort: Option<SortId>) -> bool
        ensures { result ≡ is_of_sort sort self }
    {
        match sort {
            None => false,
            Some(sort) => match self {
                Ty::Bool => false,
                Ty::Of(other) => sort.0 == other.0,
            },
        }
    }
}

/// Whether both sides have a sort, and it is one. None stands for a term that isn't well sorted.
pub fn have_one_sort(left: Option<SortId>, right: Option<SortId>) -> bool
    ensures { result ≡ have_one_sort_of left right }
{
    match left {
        None => false,
        Some(sort) => Ty::Of(sort).takes(right),
    }
}

impl Rank {
    /// The same rank, in memory of its own.
    pub fn copy(&self, alloc: Global) -> Result<Rank, Memory>
        ensures { IfOk result (λ rank. rank ≡ self.now) }
    {
        let args = Items::from_slice(alloc, self.args.as_slice())?;
        Ok(Rank {
            args,
            result: self.result,
        })
    }
}

impl Sig {
    /// The same signature, in memory of its own.
    pub fn copy(&self, alloc: Global) -> Result<Sig, Memory>
        ensures { IfOk result (λ sig. sig ≡ self.now) }
    {
        let mut ranks = Vec::new(alloc);
        for rank in self.ranks.as_slice() {
            ranks.push(rank.copy(alloc)?)?;
        }
        Ok(Sig {
            sorts: self.sorts,
            ranks: Items::from_vec(ranks),
        })
    }

    /// Whether all of these are sorts of the signature.
    pub fn has_sorts(&self, sorts: &[SortId]) -> bool
        ensures { result ≡ list_all (λ s. nat_lt s.0 self.now.sorts) sorts.now }
    {
        sorts.iter().all(|sort| sort.0 < self.sorts)
    }
}
