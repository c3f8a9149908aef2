ghost use Rattle.std.specs.Prelude.{◌≡◌, ◌↔◌, List, true, false, slice_get, Some, IfOk, IfSome, IfNone, OnOk};
ghost use Rattle.fm_cert.specs.Lines.{Chain, Clause, Has, Resolves, SameSet, opposite};
ghost use Rattle.fm_resolve.specs.Marks.{Covers, IsClean, SameMarks, members};
ghost use Rattle.fm_resolve.specs.Names.{AllNumbered, AreNumbered, HasMarks, all_names, names};

use crate::marks::Marks;
use crate::names::find_lit;
use fm_bank::{Atom, Literal};
use fm_base::Lit;
use indexmap::IndexSet;
use sqlite_items::{Items, at};
use std::alloc::{AllocError, Global};

// One step of a resolution: with an earlier clause, on a literal of the set.
fn resolve_with(
    marks: &mut Marks,
    atoms: &IndexSet<Atom>,
    clauses: &[Items<Lit>],
    lit: Literal,
    clause: usize,
) -> Result<bool, AllocError>
    requires marks { HasMarks marks.old atoms.now.keys }
    requires clauses { AllNumbered atoms.now.keys clauses.now }
    requires now { AreNumbered atoms.now.keys (members marks.old) }
    requires covers { Covers marks.old }
    ensures yes { IfOk result (λ b. b ≡ true → (other : Clause) × (slice_get (all_names atoms.now.keys clauses.now) clause ≡ Some other) × Resolves (names atoms.now.keys (members marks.old)) lit other (names atoms.now.keys (members marks.new))) }
    ensures numbered { IfOk result (λ b. b ≡ true → AreNumbered atoms.now.keys (members marks.new)) }
    ensures no { IfOk result (λ b. b ≡ false → (other : Clause) → slice_get (all_names atoms.now.keys clauses.now) clause ≡ Some other → Has (names atoms.now.keys (members marks.old)) lit → Has other (opposite lit) → ⊥) }
    ensures covers { OnOk result (Covers marks.new) }
    ensures size { SameMarks marks.old marks.new }
{
    let Some(number) = find_lit(atoms, lit) else {
        return Ok(false);
    };
    match at(clauses, clause) {
        None => Ok(false),
        Some(other) => {
            let found = marks.resolve(number, other.as_slice())?;
            Ok(found)
        }
    }
}

// All steps of a resolution.
fn resolve_all(
    marks: &mut Marks,
    atoms: &IndexSet<Atom>,
    clauses: &[Items<Lit>],
    steps: &[(Literal, usize)],
) -> Result<bool, AllocError>
    requires marks { HasMarks marks.old atoms.now.keys }
    requires clauses { AllNumbered atoms.now.keys clauses.now }
    requires now { AreNumbered atoms.now.keys (members marks.old) }
    requires covers { Covers marks.old }
    ensures yes { IfOk result (λ b. b ≡ true → (r : Clause) → Chain (all_names atoms.now.keys clauses.now) (names atoms.now.keys (members marks.old)) steps.now r ↔ SameSet (names atoms.now.keys (members marks.new)) r) }
    ensures numbered { IfOk result (λ b. b ≡ true → AreNumbered atoms.now.keys (members marks.new)) }
    ensures no { IfOk result (λ b. b ≡ false → (r : Clause) → Chain (all_names atoms.now.keys clauses.now) (names atoms.now.keys (members marks.old)) steps.now r → ⊥) }
    ensures covers { OnOk result (Covers marks.new) }
    ensures size { SameMarks marks.old marks.new }
{
    for step in steps {
        if !resolve_with(marks, atoms, clauses, step.0, step.1)? {
            return Ok(false);
        }
    }
    Ok(true)
}

/// The clause that a resolution gives: the first clause resolved with the clause of each step on the literal beside it.
/// None where a literal doesn't stand in the clause so far, its opposite not in the other clause, or a number isn't one of
/// a clause. The marks are clean before and after.
pub(crate) fn resolution(
    alloc: Global,
    marks: &mut Marks,
    atoms: &IndexSet<Atom>,
    clauses: &[Items<Lit>],
    start: &[Lit],
    steps: &[(Literal, usize)],
) -> Result<Option<Vec<Lit>>, AllocError>
    requires marks { HasMarks marks.old atoms.now.keys }
    requires clauses { AllNumbered atoms.now.keys clauses.now }
    requires start { AreNumbered atoms.now.keys start.now }
    requires clean { IsClean marks.old }
    ensures some { IfOk result (λ o. IfSome o (λ v. Chain (all_names atoms.now.keys clauses.now) (names atoms.now.keys start.now) steps.now (names atoms.now.keys v.items))) }
    ensures numbered { IfOk result (λ o. IfSome o (λ v. AreNumbered atoms.now.keys v.items)) }
    ensures none { IfOk result (λ o. IfNone o ((r : Clause) → Chain (all_names atoms.now.keys clauses.now) (names atoms.now.keys start.now) steps.now r → ⊥)) }
    ensures clean { OnOk result (IsClean marks.new) }
    ensures size { SameMarks marks.old marks.new }
{
    marks.mark_all(start)?;
    if resolve_all(marks, atoms, clauses, steps)? {
        let lits = marks.members(alloc)?;
        marks.clear();
        Ok(Some(lits))
    } else {
        marks.clear();
        Ok(None)
    }
}
