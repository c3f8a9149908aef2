ghost use Rattle.std.specs.Prelude.{◌≡◌, ◌∷◌, [], not, IfOk};
ghost use Rattle.fm_trail.specs.Trail.{is_true as is_true_in};
ghost use Rattle.fm_steps.specs.Rows.{is_satisfied as is_satisfied_in};
ghost use Rattle.fm_state.specs.Groups.{AreMarked, AreMarkedWhere, AreWanted};

use crate::standing::State;
use fm_base::{Lit, Memory};
use fm_trail::Trail;

fn is_true(trail: &Trail, lit: Lit) -> bool
    ensures { result ≡ is_true_in trail.now.entries lit }
{
    match trail.value(lit.atom) {
        Some(value) => value == lit.positive,
        None => false,
    }
}

// Whether a literal of the clause is true.
fn is_satisfied(trail: &Trail, lits: &[Lit]) -> bool
    ensures { result ≡ is_satisfied_in trail.now.entries lits.now }
{
    for lit in lits {
        if is_true(trail, *lit) {
            return true;
        }
    }
    false
}

fn mark(marks: &mut Vec<bool>, lit: Lit)
    ensures { AreMarked (lit ∷ []) marks.old.items marks.new.items }
{
    if lit.atom.0 < marks.len() {
        marks[lit.atom.0] = true;
    }
}

// Marks the atoms of a clause.
fn mark_clause(marks: &mut Vec<bool>, lits: &[Lit])
    ensures { AreMarked lits.now marks.old.items marks.new.items }
{
    for lit in lits {
        mark(marks, *lit);
    }
}

fn mark_open_clause(trail: &Trail, marks: &mut Vec<bool>, lits: &[Lit])
    ensures { AreMarkedWhere (not (is_satisfied_in trail.now.entries lits.now)) lits.now marks.old.items marks.new.items }
{
    if !is_satisfied(trail, lits) {
        mark_clause(marks, lits);
    }
}

// For each known atom whether a clause without a true literal has it. It goes once through the clauses.
pub(crate) fn wanted(state: &State) -> Result<Vec<bool>, Memory>
    ensures { IfOk result (λ v. AreWanted state.now v.items) }
{
    let mut marks = Vec::from_elem(state.alloc, false, state.bank().atoms())?;
    for number in 0..state.store().len() {
        let lits = state.store().clause(number);
        mark_open_clause(state.trail(), &mut marks, lits);
    }
    Ok(marks)
}
