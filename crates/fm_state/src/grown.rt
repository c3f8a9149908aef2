ghost use Rattle.std.specs.Prelude.{◌≡◌, ◌<◌, ◌+◌, ◌^◌, true, OnOk};
ghost use Rattle.fm_bank.specs.Instances.{is_substitution};
ghost use Rattle.fm_bank.specs.Sorted.{is_sorted_clause};
ghost use Rattle.fm_bank.specs.Terms.{numbers};
ghost use Rattle.fm_state.specs.Stands.{with_instance_clause};
ghost use Rattle.fm_steps.specs.Rows.{with_instance};

use crate::standing::State;
use fm_bank::Clause;
use fm_base::{Memory, TermId};
use sqlite_items::Items;

impl State {
    // The clause of an instance is added, with its terms and atoms.
    pub(crate) fn add_instance_clause(
        &mut self,
        clause: &Clause,
        terms: &[TermId],
    ) -> Result<(), Memory>
        requires clause { is_sorted_clause self.old.held.sig clause.now ≡ true }
        requires terms { is_substitution self.old.held.sig self.old.held.terms clause.now.vars (numbers terms.now) ≡ true }
        ensures { OnOk result (self.new ≡ with_instance_clause clause.now (numbers terms.now) self.old) }
    {
        self.bank.one_number_per_term();
        let lits = self.bank.instance(clause, terms)?;
        self.store.add(lits.as_slice())?;
        Ok(())
    }

    /// The instance of the clause at a place is added, with a term for each variable: its clause, with its terms and atoms,
    /// and the instance itself, which is counted.
    pub fn add_instance(
        &mut self,
        place: usize,
        clause: &Clause,
        terms: Items<TermId>,
    ) -> Result<(), Memory>
        requires clause { is_sorted_clause self.old.held.sig clause.now ≡ true }
        requires terms { is_substitution self.old.held.sig self.old.held.terms clause.now.vars (numbers terms) ≡ true }
        requires room { self.old.instances + 1 < 2 ^ 64 }
        ensures { OnOk result (self.new ≡ with_instance place clause.now (numbers terms) self.old) }
    {
        self.add_instance_clause(clause, terms.as_slice())?;
        self.added.push((place, terms))?;
        self.instances += 1;
        Ok(())
    }
}
