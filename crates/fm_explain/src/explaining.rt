ghost use Rattle.std.specs.Prelude.{◌≡◌, IfOk};
ghost use Rattle.fm_bank.specs.Closure.{object};
ghost use Rattle.fm_cells.specs.Forest.{AreInOneTree, link_of};
ghost use Rattle.fm_cong.specs.Explained.{IsExplained};
ghost use Rattle.fm_cong.specs.Held.{AreEqual, Held, IsSettled};
ghost use Rattle.fm_explain.specs.Explanations.{AreRead, Explains, IsExplanation, IsForestOver, IsKnownBy, ShowsEqual, truth_node};

use crate::collecting::{literals, nodes_met, terms_in};
use crate::paths::{meant, node_of};
use fm_bank::Bank;
use fm_base::{Lit, Memory, TermId};
use fm_cells::Edge;
use fm_cong::Egraph;
use std::alloc::Global;

/// Why two nodes of an e-graph are joined (explanations by a proof forest, as in Nieuwenhuis and Oliveras).
#[derive(Drop)]
pub struct Explanation {
    /// The literals of the links by a fact on the paths meant, each once: the path between the two nodes, and for each
    /// link by congruence on one of them the paths between the two arguments at each place.
    pub lits: Vec<Lit>,
    /// The terms on these paths, in no promised order. With the two terms these are all that congruence closure needs to
    /// show the equality from the literals.
    pub support: Vec<TermId>,
}

// Explains why two nodes of one tree of an explanation forest are joined.
fn explain_along(
    alloc: Global,
    bank: &Bank,
    links: &[Option<Edge>],
    a: usize,
    b: usize,
) -> Result<Explanation, Memory>
    requires forest { IsForestOver bank.now links.now }
    requires tree { AreInOneTree (link_of links.now) a b }
    ensures paths { IfOk result (IsExplanation bank.now (link_of links.now) a b) }
    ensures read { (g : Held) → IsExplained g links.now → IfOk result (AreRead g) }
    ensures shows { IfOk result (ShowsEqual bank.now a b) }
{
    let met = meant(alloc, bank, links, a, b)?;
    let lits = literals(alloc, links, met.as_slice())?;
    let nodes = nodes_met(alloc, bank, links, met.as_slice(), a, b)?;
    let support = terms_in(alloc, nodes.as_slice())?;
    Ok(Explanation { lits, support })
}

/// Explains why two terms are equal in a settled e-graph, by its explanation forest. The bank holds each registered term
/// as it was when it was registered, and the atom of each literal read. Time is in proportion to the links met, their
/// arguments and the ways up from these.
pub fn explain(
    alloc: Global,
    graph: &Egraph,
    bank: &Bank,
    a: TermId,
    b: TermId,
) -> Result<Explanation, Memory>
    requires settled { IsSettled graph.now }
    requires bank { IsKnownBy graph.now bank.now }
    requires equal { AreEqual graph.now (object a.0) (object b.0) }
    ensures { IfOk result (Explains graph.now bank.now (object a.0) (object b.0)) }
{
    let left = node_of(a)?;
    let right = node_of(b)?;
    explain_along(alloc, bank, graph.links(), left, right)
}

/// Explains why a predicate term is joined with yes, or with no, in a settled e-graph; otherwise as `explain`.
pub fn explain_truth(
    alloc: Global,
    graph: &Egraph,
    bank: &Bank,
    term: TermId,
    truth: bool,
) -> Result<Explanation, Memory>
    requires settled { IsSettled graph.now }
    requires bank { IsKnownBy graph.now bank.now }
    requires equal { AreEqual graph.now (object term.0) (truth_node truth) }
    ensures { IfOk result (Explains graph.now bank.now (object term.0) (truth_node truth)) }
{
    let node = node_of(term)?;
    explain_along(alloc, bank, graph.links(), node, node_of_truth(truth))
}

// The node yes or no.
fn node_of_truth(truth: bool) -> usize
    ensures { result ≡ truth_node truth }
{
    if truth { 0 } else { 1 }
}
