ghost use Rattle.std.specs.Prelude.{◌≡◌, ◌<◌, ◌+◌, ◌^◌, [], length, OnOk};
ghost use Rattle.fm_cells.specs.Logs.{HasLogged};
ghost use Rattle.fm_cells.specs.Rings.{AreMerged, AreRelabelled, HasRing, alone, both, is_least, own_or, rank, root_or};
ghost use Rattle.fm_cells.specs.Unions.{AreSameCells, AreSameLogs, HasNode, HasRings, HaveRoom, KeepsRings, LogsClass, LogsNext, LogsSize};

use crate::cells::Logged;
use fm_base::Memory;
use std::alloc::Global;

/// What is kept of a class: how many members it has, and the least rank of them.
#[derive(Clone, Copy)]
pub struct Root {
    pub size: usize,
    pub least: usize,
}

/// Classes of nodes (union-find with rings): for each node the number of its class, which is one of its members, and the
/// next member of its class, and by the number of a class how many members it has and the least of them. So the class of a
/// node is one read, and a union writes the cells of one of the two classes alone.
#[derive(Drop)]
pub struct Classes {
    pub class: Logged<usize>,
    pub next: Logged<usize>,
    pub size: Logged<Root>,
}

// The rank of a node: its number, but the nodes 0 and 1 come behind all others.
fn rank(node: usize) -> usize
    ensures { result ≡ rank node }
{
    if node < 2 { usize::MAX } else { node }
}

// A class of one node.
fn alone(node: usize) -> Root
    ensures { result ≡ alone node }
{
    Root {
        size: 1,
        least: rank(node),
    }
}

// What is kept of the class that two classes become.
fn both(a: Root, b: Root) -> Root
    requires { a.size + b.size < 2 ^ 64 }
    ensures { result ≡ both a b }
{
    Root {
        size: a.size + b.size,
        least: a.least.min(b.least),
    }
}

// Gives the members of a class another number.
fn relabel(
    class: &mut Logged<usize>,
    next: &Logged<usize>,
    size: &Logged<Root>,
    from: usize,
    to: usize,
) -> Result<(), Memory>
    requires ring { HasRing (own_or next.now.cells.items) (own_or class.old.cells.items) (root_or size.now.cells.items) from }
    requires from { from < length class.old.cells.items }
    requires nexts { length next.now.cells.items ≡ length class.old.cells.items }
    requires sizes { length size.now.cells.items ≡ length class.old.cells.items }
    ensures cells { OnOk result (AreRelabelled from to (own_or class.old.cells.items) (own_or class.new.cells.items)) }
    ensures length { length class.new.cells.items ≡ length class.old.cells.items }
    ensures logged { HasLogged class.old.log.items class.old.cells.items class.new.log.items class.new.cells.items }
{
    let mut at = from;
    let root = size.get(from);
    for _i in 0..root.size {
        class.set(at, to)?;
        at = next.get(at);
    }
    Ok(())
}

impl Classes {
    /// No nodes.
    pub fn new(alloc: Global) -> Classes
        ensures class { result.class.cells.items ≡ [] }
        ensures next { result.next.cells.items ≡ [] }
        ensures size { result.size.cells.items ≡ [] }
        ensures class_log { result.class.log.items ≡ [] }
        ensures next_log { result.next.log.items ≡ [] }
        ensures size_log { result.size.log.items ≡ [] }
        ensures rings { HasRings result }
    {
        Classes {
            class: Logged::new(alloc),
            next: Logged::new(alloc),
            size: Logged::new(alloc),
        }
    }

    /// Makes room for one more node.
    pub fn reserve(&mut self) -> Result<(), Memory>
        ensures room { OnOk result (HaveRoom self.new) }
        ensures cells { AreSameCells self.old self.new }
        ensures logs { AreSameLogs self.old self.new }
    {
        self.class.reserve()?;
        self.next.reserve()?;
        self.size.reserve()?;
        Ok(())
    }

    /// One node more, a class of its own, where there is room for it. The logs don't change, so no undo takes it away.
    pub fn push_within(&mut self)
        requires room { HaveRoom self.old }
        ensures node { HasNode self.old self.new }
        ensures rings { KeepsRings self.old self.new }
        ensures logs { AreSameLogs self.old self.new }
    {
        let node = self.class.len();
        self.class.push_within(node);
        self.next.push_within(node);
        self.size.push_within(alone(node));
    }

    /// Makes one class of two, whose number is the second. It writes the cells of the members of the first, so a caller
    /// names the smaller one first.
    pub fn union(&mut self, a: usize, b: usize) -> Result<(), Memory>
        requires rings { HasRings self.old }
        requires a { a < length self.old.class.cells.items }
        requires b { b < length self.old.class.cells.items }
        requires nexts { length self.old.next.cells.items ≡ length self.old.class.cells.items }
        requires sizes { length self.old.size.cells.items ≡ length self.old.class.cells.items }
        requires root_a { own_or self.old.class.cells.items a ≡ a }
        requires root_b { own_or self.old.class.cells.items b ≡ b }
        requires differ { a ≡ b → ⊥ }
        ensures rings { OnOk result (HasRings self.new) }
        ensures classes { OnOk result (AreMerged a b (own_or self.old.class.cells.items) (own_or self.new.class.cells.items)) }
        ensures class_logged { LogsClass self.old self.new }
        ensures next_logged { LogsNext self.old self.new }
        ensures size_logged { LogsSize self.old self.new }
    {
        relabel(&mut self.class, &self.next, &self.size, a, b)?;
        let after_a = self.next.get(a);
        let after_b = self.next.get(b);
        self.next.set(a, after_b)?;
        self.next.set(b, after_a)?;
        let root = both(self.size.get(a), self.size.get(b));
        self.size.set(b, root)?;
        Ok(())
    }

    /// The least rank in the class of a node.
    pub fn least(&self, node: usize) -> usize
        requires node { node < length self.now.class.cells.items }
        requires root { own_or self.now.class.cells.items node < length self.now.size.cells.items }
        ensures { result ≡ (root_or self.now.size.cells.items (own_or self.now.class.cells.items node)).least }
    {
        let root = self.size.get(self.class.get(node));
        root.least
    }

    /// Whether a node is the first of its class by its number; the nodes 0 and 1 come behind all others.
    pub fn is_least(&self, node: usize) -> bool
        requires node { node < length self.now.class.cells.items }
        requires root { own_or self.now.class.cells.items node < length self.now.size.cells.items }
        ensures { result ≡ is_least (own_or self.now.class.cells.items) (root_or self.now.size.cells.items) node }
    {
        self.least(node) == rank(node)
    }
}
