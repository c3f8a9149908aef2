ghost use Rattle.std.specs.Prelude.{◌≡◌, ◌≤◌, MatchOption, length, option_map};
ghost use Rattle.fm_cells.specs.Forest.{link_of as link_at};
ghost use Rattle.fm_cong.specs.Links.{edge_of, node_of};

use fm_base::TermId;
use fm_cells::{Cause, Edge, link_of};

/// What stands in classes: the terms, and yes and no, with which true and false predicate terms are joined.
#[derive(Clone, Copy, Debug, PartialEq, Eq)]
pub enum Node {
    Term(TermId),
    Yes,
    No,
}

/// A link of the explanation forest: to which node it leads, why, and when it was made. An earlier link has the smaller
/// time.
#[derive(Clone, Copy)]
pub struct Link {
    pub to: Node,
    pub cause: Cause,
    pub time: usize,
}

fn node_at(number: usize) -> Node
    ensures { node_of result ≡ number }
{
    match number {
        0 => Node::Yes,
        1 => Node::No,
        _ => Node::Term(TermId(number - 2)),
    }
}

// The number of a node, or None where it isn't below a count.
fn number_below(node: Node, count: usize) -> Option<usize>
    ensures { MatchOption result (count ≤ node_of node) (λ n. n ≡ node_of node) }
{
    let _count = count;
    match node {
        Node::Yes => Some(0),
        Node::No => Some(1),
        Node::Term(term) => term.0.checked_add(2),
    }
}

/// The link of a node in an explanation forest, which `Egraph::links` lends: None where the node is the end of its tree. It
/// takes no memory.
pub fn link_in(links: &[Option<Edge>], node: Node) -> Option<Link>
    ensures { option_map edge_of result ≡ link_at links.now (node_of node) }
{
    let number = number_below(node, links.len())?;
    let edge = link_of(links, number)?;
    Some(Link {
        to: node_at(edge.to),
        cause: edge.cause,
        time: edge.time,
    })
}
