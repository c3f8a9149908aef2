ghost use Rattle.std.specs.Prelude.{◌≡◌, ◌++◌, [], map, IfOk, OnOk};
ghost use Rattle.std.specs.List.{cons_option, filter_map};
ghost use Rattle.fm_bank.specs.Closure.{object};
ghost use Rattle.fm_bank.specs.Terms.{numbers};
ghost use Rattle.fm_cells.specs.Forest.{link_of};
ghost use Rattle.fm_explain.specs.Meant.{AreCongruences, lit_at, nodes_of, path_nodes, term_at, with_all};

use crate::paths::{arguments, node_of, put};
use fm_bank::Bank;
use fm_base::{Lit, Memory, TermId};
use fm_cells::{Cause, Edge, link_of};
use indexmap::IndexSet;
use std::alloc::Global;

// Puts the literal of a link by a fact behind the others.
fn push_literal(lits: &mut Vec<Lit>, link: Option<Edge>) -> Result<(), Memory>
    ensures { OnOk result (lits.new.items ≡ lits.old.items ++ cons_option (lit_at link) []) }
{
    match link {
        Some(edge) => match edge.cause {
            Cause::Fact(lit) => {
                lits.push(lit)?;
                Ok(())
            }
            Cause::Congruence => Ok(()),
        },
        None => Ok(()),
    }
}

/// The literals of the links by a fact at these nodes.
pub(crate) fn literals(
    alloc: Global,
    links: &[Option<Edge>],
    nodes: &[usize],
) -> Result<Vec<Lit>, Memory>
    ensures { IfOk result (λ lits. lits.items ≡ filter_map (λ e. lit_at (link_of links.now e)) nodes.now) }
{
    let mut lits = Vec::new(alloc);
    for node in nodes {
        push_literal(&mut lits, link_of(links, *node))?;
    }
    Ok(lits)
}

// Puts the nodes of terms into the set.
fn put_terms(nodes: &mut IndexSet<usize>, terms: &[TermId]) -> Result<(), Memory>
    ensures { OnOk result (nodes.new.keys ≡ with_all nodes.old.keys (map (λ s. object s) (numbers terms.now))) }
{
    for term in terms {
        let node = node_of(*term)?;
        put(nodes, node)?;
    }
    Ok(())
}

// Puts the nodes of a link, and the arguments of one by congruence, into the set.
fn put_link(
    bank: &Bank,
    links: &[Option<Edge>],
    nodes: &mut IndexSet<usize>,
    node: usize,
) -> Result<(), Memory>
    requires congruent { AreCongruences bank.now.terms (link_of links.now) }
    ensures { OnOk result (nodes.new.keys ≡ with_all nodes.old.keys (nodes_of bank.now.terms node (link_of links.now node))) }
{
    match link_of(links, node) {
        Some(edge) => {
            put(nodes, node)?;
            put(nodes, edge.to)?;
            match edge.cause {
                Cause::Congruence => {
                    put_terms(nodes, arguments(bank, node))?;
                    put_terms(nodes, arguments(bank, edge.to))?;
                    Ok(())
                }
                Cause::Fact(_) => Ok(()),
            }
        }
        None => Ok(()),
    }
}

/// The nodes on the paths meant, each once, of the links at the nodes met.
pub(crate) fn nodes_met(
    alloc: Global,
    bank: &Bank,
    links: &[Option<Edge>],
    met: &[usize],
    a: usize,
    b: usize,
) -> Result<IndexSet<usize>, Memory>
    requires congruent { AreCongruences bank.now.terms (link_of links.now) }
    ensures { IfOk result (λ nodes. nodes.keys ≡ with_all [] (path_nodes bank.now.terms (link_of links.now) a b met.now)) }
{
    let mut nodes = IndexSet::new(alloc);
    put(&mut nodes, a)?;
    put(&mut nodes, b)?;
    for node in met {
        put_link(bank, links, &mut nodes, *node)?;
    }
    Ok(nodes)
}

// Puts the term at a node behind the others; yes and no are none.
fn push_term(terms: &mut Vec<TermId>, node: usize) -> Result<(), Memory>
    ensures { OnOk result (numbers terms.new.items ≡ numbers terms.old.items ++ cons_option (term_at node) []) }
{
    if node < 2 {
        return Ok(());
    }
    terms.push(TermId(node - 2))?;
    Ok(())
}

/// The terms among nodes.
pub(crate) fn terms_in(alloc: Global, nodes: &[usize]) -> Result<Vec<TermId>, Memory>
    ensures { IfOk result (λ terms. numbers terms.items ≡ filter_map term_at nodes.now) }
{
    let mut terms = Vec::new(alloc);
    for node in nodes {
        push_term(&mut terms, *node)?;
    }
    Ok(terms)
}
