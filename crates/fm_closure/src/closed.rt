ghost use Rattle.std.specs.Prelude.{◌≡◌, IfOk};
ghost use Rattle.fm_bank.specs.Closure.{no, object, yes};
ghost use Rattle.fm_bank.specs.Terms.{AreTerms};
ghost use Rattle.fm_closure.specs.Asked.{test_of};
ghost use Rattle.fm_closure.specs.Facts.{IsClosureOver};

use crate::classes::same_class;
use crate::equations::Equations;
use crate::facts::facts_of;
use crate::members::Classes;
use crate::object::Object;
use crate::objects::objects_with_arguments;
use crate::passes::passed_classes;
use fm_bank::Bank;
use fm_base::{Memory, TermId};
use indexmap::IndexSet;
use std::alloc::Global;

/// A closure that is made once, and asked as often as one likes.
#[derive(Drop)]
pub struct Closed {
    objects: IndexSet<Object>,
    classes: Classes,
}

impl Closed {
    /// The closure of the equations, by congruence over the terms of the list alone. The equations and the questions may
    /// name terms that the list lacks: those are joined by facts, and by no congruence. It is the closure of `equal_in` and
    /// `clash_in`, made once for all questions, and made faster: it passes over facts and terms by turns, and finds the
    /// congruent terms of a pass by a table of their symbols with the classes of their arguments. A join goes over the
    /// smaller of the two classes alone, so a pass costs the list, and all joins together n log n moves. A list in ascending
    /// order needs the fewest passes.
    pub fn new(
        alloc: Global,
        bank: &Bank,
        eqs: &Equations,
        over: &[TermId],
    ) -> Result<Closed, Memory>
        requires over { AreTerms bank.now.terms over.now }
        ensures { IfOk result (λ closed. IsClosureOver bank.now.terms over.now eqs.now (test_of closed)) }
    {
        let facts = facts_of(alloc, eqs)?;
        let objects = objects_with_arguments(alloc, bank, over, facts.as_slice())?;
        let classes = passed_classes(alloc, bank, &objects, over, facts.as_slice())?;
        Ok(Closed { objects, classes })
    }

    /// Whether two terms follow equal. It takes no memory.
    pub fn joins(&self, a: TermId, b: TermId) -> bool
        ensures { result ≡ test_of self.now (object a.0) (object b.0) }
    {
        same_class(
            &self.objects,
            self.classes.as_slice(),
            Object::Term(a),
            Object::Term(b),
        )
    }

    /// Whether yes and no are joined, so that the equations contradict each other. It takes no memory.
    pub fn clashes(&self) -> bool
        ensures { result ≡ test_of self.now yes no }
    {
        same_class(
            &self.objects,
            self.classes.as_slice(),
            Object::Yes,
            Object::No,
        )
    }
}
