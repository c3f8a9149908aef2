ghost use Rattle.std.specs.Prelude.{◌≡◌, ◌≤◌, ◌↔◌, length, IfOk, IsTrue};
ghost use Rattle.std.specs.List.{All};
ghost use Rattle.fm_bank.specs.Closure.{object};
ghost use Rattle.fm_bank.specs.Terms.{AreTerms};
ghost use Rattle.fm_closure.specs.Classes.{AreAllThere, AreClosedOver, AreSoundOver, AreThere, number_of, total};
ghost use Rattle.fm_closure.specs.Facts.{ClashesOver, FollowsOver};

use crate::classes::{join, same_class, singletons};
use crate::equations::Equations;
use crate::facts::facts_of;
use crate::object::Object;
use crate::objects::objects_of;
use crate::scan::{unjoined, unjoined_with};
use fm_bank::Bank;
use fm_base::{Memory, TermId};
use indexmap::IndexSet;
use std::alloc::Global;

/// Whether the two terms follow equal from the equations, by congruence over the terms of the list alone.
///
/// This is congruence closure by its definition (Nelson and Oppen; Downey, Sethi and Tarjan), on which the meaning of
/// evidence for equalities rests. So it is plain: it looks through all facts and all pairs of terms of the list, joins
/// what it finds, and begins again until it finds nothing. After each join it goes once over the terms, so that a chain
/// of congruences is joined at one go where arguments stand before their terms: a list in ascending order is fastest.
/// Its memory grows with the list and the equations, and not with the bank.
///
/// The list may have a term without its arguments. The equations and the question may name terms that it lacks: those
/// are joined by facts, and by no congruence. The one refusal is want of memory.
pub fn equal_in(
    alloc: Global,
    bank: &Bank,
    eqs: &Equations,
    over: &[TermId],
    a: TermId,
    b: TermId,
) -> Result<bool, Memory>
    requires over { AreTerms bank.now.terms over.now }
    ensures { IfOk result (λ answer. IsTrue answer ↔ FollowsOver bank.now.terms over.now eqs.now (object a.0) (object b.0)) }
{
    follows(alloc, bank, eqs, over, Object::Term(a), Object::Term(b))
}

/// Whether yes and no are joined, by the same closure: then the equations contradict each other. Each true term is
/// joined with yes and each false one with no.
pub fn clash_in(
    alloc: Global,
    bank: &Bank,
    eqs: &Equations,
    over: &[TermId],
) -> Result<bool, Memory>
    requires over { AreTerms bank.now.terms over.now }
    ensures { IfOk result (λ answer. IsTrue answer ↔ ClashesOver bank.now.terms over.now eqs.now) }
{
    follows(alloc, bank, eqs, over, Object::Yes, Object::No)
}

// Whether two objects follow equal.
fn follows(
    alloc: Global,
    bank: &Bank,
    eqs: &Equations,
    over: &[TermId],
    x: Object,
    y: Object,
) -> Result<bool, Memory>
    requires over { AreTerms bank.now.terms over.now }
    ensures { IfOk result (λ answer. IsTrue answer ↔ FollowsOver bank.now.terms over.now eqs.now (number_of x) (number_of y)) }
{
    let facts = facts_of(alloc, eqs)?;
    let objects = objects_of(alloc, over, facts.as_slice())?;
    let classes = closed_classes(alloc, bank, &objects, over, facts.as_slice())?;
    Ok(same_class(&objects, classes.as_slice(), x, y))
}

// The classes of the objects once all that has to be is joined.
fn closed_classes(
    alloc: Global,
    bank: &Bank,
    objects: &IndexSet<Object>,
    over: &[TermId],
    facts: &[(Object, Object)],
) -> Result<Vec<usize>, Memory>
    requires over { AreTerms bank.now.terms over.now }
    requires terms { AreAllThere objects.now.keys over.now }
    requires sides { All (AreThere objects.now.keys) facts.now }
    ensures sound { IfOk result (λ classes. AreSoundOver bank.now.terms over.now facts.now objects.now.keys classes.items) }
    ensures closed { IfOk result (λ classes. AreClosedOver bank.now.terms over.now facts.now objects.now.keys classes.items) }
{
    let mut classes = singletons(alloc, objects.len())?;
    saturate(bank, objects, classes.as_mut_slice(), over, facts);
    Ok(classes)
}

// Joins classes until nothing is left unjoined.
fn saturate(
    bank: &Bank,
    objects: &IndexSet<Object>,
    classes: &mut [usize],
    over: &[TermId],
    facts: &[(Object, Object)],
)
    requires whole { length classes.old ≡ length objects.now.keys }
    requires over { AreTerms bank.now.terms over.now }
    requires terms { AreAllThere objects.now.keys over.now }
    requires sides { All (AreThere objects.now.keys) facts.now }
    requires sound { AreSoundOver bank.now.terms over.now facts.now objects.now.keys classes.old }
    ensures sound { AreSoundOver bank.now.terms over.now facts.now objects.now.keys classes.new }
    ensures closed { AreClosedOver bank.now.terms over.now facts.now objects.now.keys classes.new }
{
    while let Some((c, d)) = unjoined(bank, objects, classes, over, facts) {
        join(classes, c, d);
        sweep(bank, objects, classes, over, facts);
    }
}

// Goes once over the terms, and joins each with one that is congruent to it.
fn sweep(
    bank: &Bank,
    objects: &IndexSet<Object>,
    classes: &mut [usize],
    over: &[TermId],
    facts: &[(Object, Object)],
)
    requires whole { length classes.old ≡ length objects.now.keys }
    requires over { AreTerms bank.now.terms over.now }
    requires terms { AreAllThere objects.now.keys over.now }
    requires sound { AreSoundOver bank.now.terms over.now facts.now objects.now.keys classes.old }
    ensures whole { length classes.new ≡ length objects.now.keys }
    ensures sound { AreSoundOver bank.now.terms over.now facts.now objects.now.keys classes.new }
    ensures falls { total classes.new ≤ total classes.old }
{
    for a in over {
        if let Some((c, d)) = unjoined_with(bank, objects, classes, over, *a) {
            join(classes, c, d);
        }
    }
}
