ghost use Rattle.std.specs.Prelude.{◌≡◌, ◌<◌, ℕ, length, OnOk};
ghost use Rattle.fm_cells.specs.Forest.{AreInOneTree, AreWithin, HasEnd, HasOneMore, MergeTrees, height_of, link_of};
ghost use Rattle.fm_cells.specs.Logs.{HasLogged};

use crate::cells::Logged;
use crate::edge::Edge;
use fm_base::Memory;

/// The link of a node of the forest; a node that has no cell has none.
pub fn link_of(links: &[Option<Edge>], node: usize) -> Option<Edge>
    ensures { result ≡ link_of links.now node }
{
    links.get(node).copied().unwrap_or(None)
}

fn above(links: &Logged<Option<Edge>>, node: usize) -> Option<Edge>
    ensures { result ≡ link_of links.now.cells.items node }
{
    link_of(links.cells.as_slice(), node)
}

/// Gives a node a link to a node of another tree, and turns the links on its way up round, so that its tree hangs there
/// as a whole. Then the trees of two classes are the tree of the merged one.
pub fn hang(links: &mut Logged<Option<Edge>>, node: usize, edge: Edge) -> Result<(), Memory>
    requires node { node < length links.old.cells.items }
    requires to { edge.to < length links.old.cells.items }
    requires within { AreWithin links.old.cells.items }
    requires ended { (x : ℕ) → HasEnd (link_of links.old.cells.items) x }
    requires apart { AreInOneTree (link_of links.old.cells.items) node edge.to → ⊥ }
    ensures trees { OnOk result (MergeTrees (link_of links.old.cells.items) (link_of links.new.cells.items) node edge.to) }
    ensures more { OnOk result (HasOneMore (link_of links.old.cells.items) (link_of links.new.cells.items) node edge) }
    ensures within { OnOk result (AreWithin links.new.cells.items) }
    ensures longer { OnOk result (length links.old.log.items < length links.new.log.items) }
    ensures logged { HasLogged links.old.log.items links.old.cells.items links.new.log.items links.new.cells.items }
{
    let mut at = node;
    let mut new = edge;
    while let Some(above) = above(links, at) {
        links.set(at, Some(new))?;
        new = Edge {
            to: at,
            cause: above.cause,
            time: above.time,
        };
        at = above.to;
    }
    links.set(at, Some(new))?;
    Ok(())
}

/// How many links the way up from a node has. Two ways up meet where they are equally far from the end.
pub fn depth(links: &[Option<Edge>], node: usize) -> usize
    requires { (x : ℕ) → HasEnd (link_of links.now) x }
    ensures { result ≡ height_of links.now node }
{
    let mut at = node;
    let mut count = 0;
    while let Some(above) = link_of(links, at) {
        at = above.to;
        count += 1;
    }
    count
}
