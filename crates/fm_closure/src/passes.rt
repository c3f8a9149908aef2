ghost use Rattle.std.specs.Prelude.{◌≡◌, ◌<◌, ◌||◌, ◌++◌, true, not, [], length, map, IfOk, IfSome, OnOk};
ghost use Rattle.std.specs.List.{All};
ghost use Rattle.fm_bank.specs.Closure.{object};
ghost use Rattle.fm_bank.specs.Terms.{AreTerms, numbers};
ghost use Rattle.fm_closure.specs.Classes.{AreAllThere, AreClosedOver, AreSoundOver, AreThere, is_there};
ghost use Rattle.fm_closure.specs.Signatures.{AllHaveArguments, FactsAreDone, HasArguments, HasJoined, HasJoinedFact};
ghost use Rattle.fm_closure.specs.Signatures.{IsLookedUp, IsPass, IsSignature, TermsAreDone};
ghost use Rattle.fm_closure.specs.Signatures.{class_of_term, find_in, new_entry};

use crate::classes::{class_in, differing};
use crate::key::{Args, Key};
use crate::members::Classes;
use crate::object::Object;
use crate::scan::unjoined_terms;
use fm_bank::Bank;
use fm_base::{Memory, TermId};
use indexmap::{IndexMap, IndexSet};
use smallvec::SmallVec;
use std::alloc::Global;

fn classes_of(
    alloc: Global,
    objects: &IndexSet<Object>,
    classes: &[usize],
    terms: &[TermId],
) -> Result<Args, Memory>
    requires whole { length classes.now ≡ length objects.now.keys }
    requires there { All (λ n. is_there objects.now.keys (object n) ≡ true) (numbers terms.now) }
    ensures { IfOk result (λ args. args.items ≡ map (class_of_term objects.now.keys classes.now) (numbers terms.now)) }
{
    let mut args = SmallVec::new(alloc);
    for term in terms {
        args.push(class_in(objects, classes, Object::Term(*term)))?;
    }
    Ok(args)
}

fn key_of(
    alloc: Global,
    bank: &Bank,
    objects: &IndexSet<Object>,
    classes: &[usize],
    a: TermId,
) -> Result<Key, Memory>
    requires whole { length classes.now ≡ length objects.now.keys }
    requires term { a.0 < length bank.now.terms }
    requires args { HasArguments objects.now.keys bank.now.terms a }
    ensures { IfOk result (IsSignature objects.now.keys classes.now bank.now.terms a) }
{
    let (symbol, args) = bank.term(a);
    let args = classes_of(alloc, objects, classes, args)?;
    Ok(Key::new(symbol.0, args))
}

// Puts a term into the table where its signature isn't there yet, and answers what stood there.
fn put(table: &mut IndexMap<Key, TermId>, key: Key, a: TermId) -> Result<Option<TermId>, Memory>
    ensures found { IfOk result (λ found. found ≡ find_in table.old.entries key) }
    ensures entries { OnOk result (table.new.entries ≡ table.old.entries ++ new_entry (find_in table.old.entries key) key a) }
{
    match table.get(&key) {
        Some(other) => Ok(Some(*other)),
        None => {
            table.insert(key, a)?;
            Ok(None)
        }
    }
}

fn look_up(
    alloc: Global,
    bank: &Bank,
    objects: &IndexSet<Object>,
    classes: &[usize],
    table: &mut IndexMap<Key, TermId>,
    a: TermId,
) -> Result<Option<TermId>, Memory>
    requires whole { length classes.now ≡ length objects.now.keys }
    requires term { a.0 < length bank.now.terms }
    requires args { HasArguments objects.now.keys bank.now.terms a }
    ensures { IfOk result (IsLookedUp objects.now.keys classes.now bank.now.terms a table.old.entries table.new.entries) }
{
    let key = key_of(alloc, bank, objects, classes, a)?;
    put(table, key, a)
}

// Joins the classes of two terms, where they are congruent and of two.
fn join_with(
    bank: &Bank,
    objects: &IndexSet<Object>,
    classes: &mut Classes,
    a: TermId,
    found: Option<TermId>,
) -> Result<bool, Memory>
    requires whole { length classes.old ≡ length objects.now.keys }
    requires term { a.0 < length bank.now.terms }
    requires there { is_there objects.now.keys (object a.0) ≡ true }
    requires other { IfSome found (λ b. b.0 < length bank.now.terms) }
    requires other_there { IfSome found (λ b. is_there objects.now.keys (object b.0) ≡ true) }
    ensures { IfOk result (HasJoined objects.now.keys bank.now.terms a found classes.old classes.new) }
{
    match found {
        None => Ok(false),
        Some(b) => match unjoined_terms(bank, objects, classes.as_slice(), a, b) {
            None => Ok(false),
            Some((c, d)) => {
                classes.join(c, d)?;
                Ok(true)
            }
        },
    }
}

fn either(one: bool, other: bool) -> bool
    ensures { result ≡ (one || other) }
{
    one || other
}

fn neither(one: bool, other: bool) -> bool
    ensures { result ≡ not (one || other) }
{
    !either(one, other)
}

// Goes once over the terms, and joins each with the first one of its signature; whether any were joined.
fn walk(
    alloc: Global,
    bank: &Bank,
    objects: &IndexSet<Object>,
    classes: &mut Classes,
    over: &[TermId],
    _facts: &[(Object, Object)],
    table: &mut IndexMap<Key, TermId>,
) -> Result<bool, Memory>
    requires whole { length classes.old ≡ length objects.now.keys }
    requires over { AreTerms bank.now.terms over.now }
    requires terms { AreAllThere objects.now.keys over.now }
    requires args { AllHaveArguments objects.now.keys bank.now.terms over.now }
    requires sound { AreSoundOver bank.now.terms over.now _facts.now objects.now.keys classes.old }
    requires table { table.old.entries ≡ [] }
    ensures pass { IfOk result (IsPass objects.now.keys bank.now.terms over.now _facts.now classes.old classes.new) }
    ensures done { IfOk result (TermsAreDone objects.now.keys bank.now.terms over.now classes.new) }
{
    let mut changed = false;
    for a in over {
        let found = look_up(alloc, bank, objects, classes.as_slice(), table, *a)?;
        let joined = join_with(bank, objects, classes, *a, found)?;
        changed = either(changed, joined);
    }
    Ok(changed)
}

fn join_terms(
    alloc: Global,
    bank: &Bank,
    objects: &IndexSet<Object>,
    classes: &mut Classes,
    over: &[TermId],
    facts: &[(Object, Object)],
) -> Result<bool, Memory>
    requires whole { length classes.old ≡ length objects.now.keys }
    requires over { AreTerms bank.now.terms over.now }
    requires terms { AreAllThere objects.now.keys over.now }
    requires args { AllHaveArguments objects.now.keys bank.now.terms over.now }
    requires sound { AreSoundOver bank.now.terms over.now facts.now objects.now.keys classes.old }
    ensures pass { IfOk result (IsPass objects.now.keys bank.now.terms over.now facts.now classes.old classes.new) }
    ensures done { IfOk result (TermsAreDone objects.now.keys bank.now.terms over.now classes.new) }
{
    let mut table = IndexMap::new(alloc);
    walk(alloc, bank, objects, classes, over, facts, &mut table)
}

// Joins the sides of a fact, where they are of two classes.
fn join_fact(
    objects: &IndexSet<Object>,
    classes: &mut Classes,
    fact: (Object, Object),
) -> Result<bool, Memory>
    requires whole { length classes.old ≡ length objects.now.keys }
    requires there { AreThere objects.now.keys fact }
    ensures { IfOk result (HasJoinedFact objects.now.keys fact classes.old classes.new) }
{
    match differing(objects, classes.as_slice(), fact.0, fact.1) {
        None => Ok(false),
        Some((c, d)) => {
            classes.join(c, d)?;
            Ok(true)
        }
    }
}

// Goes once over the facts, and joins the sides of each; whether any were joined.
fn join_facts(
    objects: &IndexSet<Object>,
    classes: &mut Classes,
    _bank: &Bank,
    _over: &[TermId],
    facts: &[(Object, Object)],
) -> Result<bool, Memory>
    requires whole { length classes.old ≡ length objects.now.keys }
    requires sides { All (AreThere objects.now.keys) facts.now }
    requires sound { AreSoundOver _bank.now.terms _over.now facts.now objects.now.keys classes.old }
    ensures pass { IfOk result (IsPass objects.now.keys _bank.now.terms _over.now facts.now classes.old classes.new) }
    ensures done { IfOk result (FactsAreDone objects.now.keys facts.now classes.new) }
{
    let mut changed = false;
    for fact in facts {
        let joined = join_fact(objects, classes, *fact)?;
        changed = either(changed, joined);
    }
    Ok(changed)
}

// Goes over facts and terms by turns, until a pass joins nothing.
fn pass_until_done(
    alloc: Global,
    bank: &Bank,
    objects: &IndexSet<Object>,
    classes: &mut Classes,
    over: &[TermId],
    facts: &[(Object, Object)],
) -> Result<(), Memory>
    requires whole { length classes.old ≡ length objects.now.keys }
    requires over { AreTerms bank.now.terms over.now }
    requires terms { AreAllThere objects.now.keys over.now }
    requires args { AllHaveArguments objects.now.keys bank.now.terms over.now }
    requires sides { All (AreThere objects.now.keys) facts.now }
    requires sound { AreSoundOver bank.now.terms over.now facts.now objects.now.keys classes.old }
    ensures sound { OnOk result (AreSoundOver bank.now.terms over.now facts.now objects.now.keys classes.new) }
    ensures closed { OnOk result (AreClosedOver bank.now.terms over.now facts.now objects.now.keys classes.new) }
{
    loop {
        let some = join_facts(objects, classes, bank, over, facts)?;
        let more = join_terms(alloc, bank, objects, classes, over, facts)?;
        if neither(some, more) {
            return Ok(());
        }
    }
}

// The classes of the objects once all that has to be is joined.
pub(crate) fn passed_classes(
    alloc: Global,
    bank: &Bank,
    objects: &IndexSet<Object>,
    over: &[TermId],
    facts: &[(Object, Object)],
) -> Result<Classes, Memory>
    requires over { AreTerms bank.now.terms over.now }
    requires terms { AreAllThere objects.now.keys over.now }
    requires args { AllHaveArguments objects.now.keys bank.now.terms over.now }
    requires sides { All (AreThere objects.now.keys) facts.now }
    ensures sound { IfOk result (λ classes. AreSoundOver bank.now.terms over.now facts.now objects.now.keys classes) }
    ensures closed { IfOk result (λ classes. AreClosedOver bank.now.terms over.now facts.now objects.now.keys classes) }
{
    let mut classes = Classes::singletons(alloc, objects.len())?;
    pass_until_done(alloc, bank, objects, &mut classes, over, facts)?;
    Ok(classes)
}
