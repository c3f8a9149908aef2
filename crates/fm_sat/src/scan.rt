ghost use Rattle.std.specs.Prelude.{◌≡◌, IfSome, IfNone};
ghost use Rattle.fm_trail.specs.Trail.{are_false, is_false, is_open, unit_of};
ghost use Rattle.fm_sat.specs.Store.{HasNoFalse, HasNoUnit, IsFirstFalse, IsFirstUnit};

use crate::store::{Store, Unit};
use fm_base::Lit;
use fm_trail::Trail;

fn is_false(trail: &Trail, lit: Lit) -> bool
    ensures { result ≡ is_false trail.now.entries lit }
{
    match trail.value(lit.atom) {
        Some(value) => value != lit.positive,
        None => false,
    }
}

fn is_open(trail: &Trail, lit: Lit) -> bool
    ensures { result ≡ is_open trail.now.entries lit }
{
    trail.value(lit.atom).is_none()
}

fn are_false(trail: &Trail, lits: &[Lit]) -> bool
    ensures { result ≡ are_false trail.now.entries lits.now }
{
    for lit in lits {
        if !is_false(trail, *lit) {
            return false;
        }
    }
    true
}

// The literal without value, where all others are false.
pub(crate) fn unit_of(trail: &Trail, lits: &[Lit]) -> Option<Lit>
    ensures { result ≡ unit_of trail.now.entries lits.now }
{
    let mut open = None;
    for lit in lits {
        if !is_false(trail, *lit) {
            if open.is_some() || !is_open(trail, *lit) {
                return None;
            }
            open = Some(*lit);
        }
    }
    open
}

impl Store {
    /// The first clause whose literals are all false but one, which has no value, and that literal. None exactly where
    /// there is no such clause. It takes no memory.
    pub fn next_unit(&self, trail: &Trail) -> Option<Unit>
        ensures some { IfSome result (λ u. IsFirstUnit self.now.clauses trail.now.entries u.clause u.lit) }
        ensures none { IfNone result (HasNoUnit self.now.clauses trail.now.entries) }
    {
        for clause in 0..self.len() {
            if let Some(lit) = unit_of(trail, self.clause(clause)) {
                return Some(Unit { clause, lit });
            }
        }
        None
    }

    /// The first clause whose literals are all false. None exactly where there is none. It takes no memory.
    pub fn falsified(&self, trail: &Trail) -> Option<usize>
        ensures some { IfSome result (λ n. IsFirstFalse self.now.clauses trail.now.entries n) }
        ensures none { IfNone result (HasNoFalse self.now.clauses trail.now.entries) }
    {
        for clause in 0..self.len() {
            if are_false(trail, self.clause(clause)) {
                return Some(clause);
            }
        }
        None
    }
}
