ghost use Rattle.std.specs.Prelude.{◌≡◌};
ghost use Rattle.fm_rounds.specs.Failing.{numbered};

use fm_bank::Bank;
use fm_base::TermId;
use fm_region::Pick;
use fm_sat::Store;
use fm_trail::Trail;
use sqlite_items::Items;
use std::alloc::Global;
use std::marker::Model;

/// A state of the search machine: the bound and the phase, the registered terms and known atoms, the clause list, the trail
/// with its heads, the added instances, the spent counts, and the test of each sort.
#[derive(Drop)]
pub struct State {
    pub(crate) alloc: Global,
    pub(crate) bound: u64,
    pub(crate) free: bool,
    pub(crate) bank: Bank,
    pub(crate) store: Store,
    pub(crate) trail: Trail,
    pub(crate) added: Vec<(usize, Items<TermId>)>,
    pub(crate) instances: u64,
    pub(crate) decisions: u64,
    pub(crate) picks: Vec<Option<Pick>>,
}

impl Model for State {
    ghost use Rattle.fm_steps.specs.State.{State as TheState};
    ghost use Rattle.fm_state.specs.Stands.{state_of};

    ghost Value = { TheState };

    ghost view = { λ s. state_of s.bound s.free s.bank s.store.clauses s.trail s.added.items s.instances s.decisions s.picks.items };
}

impl State {
    /// The registered terms and the known atoms.
    pub fn bank(&self) -> &Bank
        ensures { result.now ≡ self.now.held }
    {
        &self.bank
    }

    /// The clause list.
    pub fn store(&self) -> &Store
        ensures { result.now.clauses ≡ self.now.clauses }
    {
        &self.store
    }

    /// The trail, with the heads of its four readers.
    pub fn trail(&self) -> &Trail
        ensures { result.now ≡ self.now.trail }
    {
        &self.trail
    }

    /// The added instances: the place of the clause, and a term for each variable.
    pub fn added(&self) -> &[(usize, Items<TermId>)]
        ensures { numbered result.now ≡ self.now.added }
    {
        self.added.as_slice()
    }

    /// The bound on the sum of the sizes of all sorts.
    pub fn bound(&self) -> u64
        ensures { result ≡ self.now.bound }
    {
        self.bound
    }

    /// Whether the phase is the free one.
    pub fn is_free(&self) -> bool
        ensures { result ≡ self.now.free }
    {
        self.free
    }

    /// How many instances were added.
    pub fn instances(&self) -> u64
        ensures { result ≡ self.now.instances }
    {
        self.instances
    }

    /// How many literals were decided.
    pub fn decisions(&self) -> u64
        ensures { result ≡ self.now.decisions }
    {
        self.decisions
    }
}
