ghost use Rattle.std.specs.Prelude.{◌≡◌, eqb, IfOk, OnOk};
ghost use Rattle.std.specs.List.{IsDistinct};
ghost use Rattle.std.specs.List.Sorted.{IsStrictlyIncreasing};
ghost use Rattle.fm_bank.specs.Subterms.{AreSubterms, added, all_added};
ghost use Rattle.fm_bank.specs.Terms.{AreTerms, numbers};

use crate::bank::Bank;
use fm_base::{Memory, TermId};
use indexmap::IndexSet;
use std::alloc::Global;

impl Bank {
    /// The subterms of the terms, they themselves among them, each once and in ascending order. The time depends on how
    /// many they are, and not on the size of the bank.
    pub fn subterms_of(&self, roots: &[TermId]) -> Result<Vec<TermId>, Memory>
        requires roots { AreTerms self.now.terms roots.now }
        ensures subterms { IfOk result (λ ids. AreSubterms self.now.terms (numbers roots.now) (numbers ids.items)) }
        ensures ascending { IfOk result (λ ids. IsStrictlyIncreasing (numbers ids.items)) }
        ensures below { IfOk result (λ ids. AreTerms self.now.terms ids.items) }
    {
        let found = find_subterms(self.alloc, self, roots)?;
        let mut ids = Vec::from_slice(self.alloc, found.as_slice())?;
        ids.sort()?;
        Ok(ids)
    }
}

// The subterms in the order in which they are found. The set is the list of what is still to be looked at, too.
fn find_subterms(alloc: Global, bank: &Bank, roots: &[TermId]) -> Result<IndexSet<TermId>, Memory>
    requires roots { AreTerms bank.now.terms roots.now }
    ensures subterms { IfOk result (λ s. AreSubterms bank.now.terms (numbers roots.now) (numbers s.keys)) }
    ensures once { IfOk result (λ s. IsDistinct eqb (numbers s.keys)) }
    ensures below { IfOk result (λ s. AreTerms bank.now.terms s.keys) }
{
    bank.one_number_per_term();
    let mut found = IndexSet::new(alloc);
    add_all(&mut found, roots)?;
    let mut i = 0;
    while i < found.len() {
        let (_, args) = bank.term(found[i]);
        add_all(&mut found, args)?;
        i += 1;
    }
    Ok(found)
}

fn add_all(found: &mut IndexSet<TermId>, terms: &[TermId]) -> Result<(), Memory>
    ensures { OnOk result (numbers found.new.keys ≡ all_added (numbers found.old.keys) (numbers terms.now)) }
{
    for term in terms {
        add(found, *term)?;
    }
    Ok(())
}

fn add(found: &mut IndexSet<TermId>, term: TermId) -> Result<(), Memory>
    ensures { OnOk result (numbers found.new.keys ≡ added (numbers found.old.keys) term.0) }
{
    found.insert(term)?;
    Ok(())
}
