ghost use Rattle.std.specs.Prelude.{◌≡◌, map};
ghost use Rattle.fm_base.specs.Truth.{is_bool};
ghost use Rattle.fm_arena.specs.Meanings.{kind_at, terms_of};
ghost use Rattle.fm_arena.specs.Trees.{all_formulas, all_things, makes_truth, takes};

use crate::arena::Arena;
use crate::node::Op;
use fm_base::Ty;

// Whether all of these are formulas.
fn are_formulas(arena: &Arena, parts: &[usize]) -> bool
    ensures { result ≡ all_formulas (map (kind_at (terms_of arena.now)) parts.now) }
{
    for part in parts {
        if !arena.ty(*part).is_bool() {
            return false;
        }
    }
    true
}

// Whether none of these is a formula.
fn are_things(arena: &Arena, parts: &[usize]) -> bool
    ensures { result ≡ all_things (map (kind_at (terms_of arena.now)) parts.now) }
{
    for part in parts {
        if arena.ty(*part).is_bool() {
            return false;
        }
    }
    true
}

impl Op {
    /// Whether this makes formulas.
    pub fn makes_truth(self) -> bool
        ensures { result ≡ makes_truth self }
    {
        match self {
            Op::App(_) | Op::Choice => false,
            _ => true,
        }
    }
}

impl Arena {
    /// Whether an operator takes these terms, by how many and of which kinds they are. The sorts of terms
    /// aren't looked at.
    pub fn takes(&self, op: Op, parts: &[usize]) -> bool
        ensures { result ≡ takes op (map (kind_at (terms_of self.now)) parts.now) }
    {
        match op {
            Op::Truth(_) => parts.len() < 1,
            Op::And | Op::Or | Op::Distinct(true) => are_formulas(self, parts),
            Op::Pred(_) | Op::App(_) | Op::Distinct(false) => are_things(self, parts),
            Op::Not => parts.len() == 1 && are_formulas(self, parts),
            Op::Iff => parts.len() == 2 && are_formulas(self, parts),
            Op::Ite => parts.len() == 3 && are_formulas(self, parts),
            Op::Equal => parts.len() == 2 && are_things(self, parts),
            Op::Choice => match parts.split_first() {
                None => false,
                Some((test, rest)) => {
                    rest.len() == 2 && self.ty(*test).is_bool() && are_things(self, rest)
                }
            },
        }
    }
}
