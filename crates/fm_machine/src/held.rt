use fm_cong::Egraph;
use fm_state::State;

/// A state of the search machine with the graphs of its two readers of equalities.
#[derive(Drop)]
pub struct Search {
    pub state: State,
    pub congruence: Egraph,
    pub regions: Egraph,
}
