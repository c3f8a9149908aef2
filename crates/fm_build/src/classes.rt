ghost use Rattle.std.specs.Prelude.{◌≡◌, ◌↔◌, true, length, Some, IsTrue, IfOk};
ghost use Rattle.fm_cong.specs.Held.{IsSettled};
ghost use Rattle.fm_build.specs.Parts.{AreClasses, AreTruths, AreTypes, IsGraphOver};

use fm_bank::Bank;
use fm_base::{Memory, TermId, Ty};
use fm_cong::Egraph;
use std::alloc::Global;

// The class of each term, by its oldest term.
pub(crate) fn classes_of(alloc: Global, bank: &Bank, graph: &Egraph) -> Result<Vec<usize>, Memory>
    requires settled { IsSettled graph.now }
    requires over { IsGraphOver bank.now graph.now }
    ensures { IfOk result (λ v. AreClasses graph.now (length bank.now.terms) v.items) }
{
    let mut class = Vec::new(alloc);
    for term in 0..bank.terms() {
        let oldest = graph.oldest_of(TermId(term));
        class.push(oldest.0)?;
    }
    Ok(class)
}

pub(crate) fn types_of(alloc: Global, bank: &Bank) -> Result<Vec<Ty>, Memory>
    ensures { IfOk result (λ v. AreTypes bank.now (length bank.now.terms) v.items) }
{
    let mut types = Vec::new(alloc);
    for term in 0..bank.terms() {
        let ty = bank.ty(TermId(term));
        types.push(ty)?;
    }
    Ok(types)
}

fn is_true(truth: Option<bool>) -> bool
    ensures { IsTrue result ↔ (truth ≡ Some true) }
{
    match truth {
        None => false,
        Some(truth) => truth,
    }
}

// Whether each term is joined with yes.
pub(crate) fn truths_of(alloc: Global, bank: &Bank, graph: &Egraph) -> Result<Vec<bool>, Memory>
    requires settled { IsSettled graph.now }
    requires over { IsGraphOver bank.now graph.now }
    ensures { IfOk result (λ v. AreTruths graph.now (length bank.now.terms) v.items) }
{
    let mut holds = Vec::new(alloc);
    for term in 0..bank.terms() {
        let truth = graph.truth(TermId(term));
        holds.push(is_true(truth))?;
    }
    Ok(holds)
}
