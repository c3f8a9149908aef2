ghost use Rattle.std.specs.Prelude.{◌≡◌, ◌≢◌, ◌<◌, ◌↔◌, ◌⊎◌, ◌++◌, ℕ, Bool, true, None, Some, List, eqb, length, slice_get, IfOk, OnOk};
ghost use Rattle.std.specs.List.{AllZip, IsDistinct};
ghost use Rattle.fm_bank.specs.Closure.{object};
ghost use Rattle.fm_bank.specs.Terms.{numbers};
ghost use Rattle.fm_cells.specs.Forest.{AreInOneTree, HasEnd, link_of};
ghost use Rattle.fm_cells.specs.Members.{is_on};
ghost use Rattle.fm_cells.specs.declared.edge.Edge.{Edge as TheEdge};
ghost use Rattle.fm_cong.specs.Paths.{IsOnPath};
ghost use Rattle.fm_explain.specs.Meant.{AreCongruences, HasArguments, IsMeant, args_at, with_node};
ghost use Rattle.fm_explain.specs.Searches.{AreGrown, HasArgumentPaths, HasPath, IsLeast};

use fm_bank::Bank;
use fm_base::{Memory, TermId};
use fm_cells::{Cause, Edge, depth, link_of};
use indexmap::IndexSet;
use std::alloc::Global;

/// Puts a node into the set, unless it is there.
pub(crate) fn put(met: &mut IndexSet<usize>, node: usize) -> Result<(), Memory>
    ensures { OnOk result (met.new.keys ≡ with_node met.old.keys node) }
{
    met.insert(node)?;
    Ok(())
}

/// The node of a term. One that can't be numbered is want of memory.
pub(crate) fn node_of(term: TermId) -> Result<usize, Memory>
    ensures { IfOk result (λ node. node ≡ object term.0) }
{
    match term.0.checked_add(2) {
        Some(node) => Ok(node),
        None => Err(Memory),
    }
}

// Puts the link of a node into the set, and answers where it leads.
fn climb(links: &[Option<Edge>], met: &mut IndexSet<usize>, node: usize) -> Result<usize, Memory>
    requires { link_of links.now node ≢ None }
    ensures keys { OnOk result (met.new.keys ≡ with_node met.old.keys node) }
    ensures to { IfOk result (λ to. (l : TheEdge) × (link_of links.now node ≡ Some l) × (l.to ≡ to)) }
{
    put(met, node)?;
    match link_of(links, node) {
        Some(edge) => Ok(edge.to),
        None => unreachable!(),
    }
}

// Puts the links on the path between two nodes of one tree into the set: the deeper one climbs, until both are one.
fn add_path(
    links: &[Option<Edge>],
    met: &mut IndexSet<usize>,
    u: usize,
    v: usize,
) -> Result<(), Memory>
    requires ended { (x : ℕ) → HasEnd (link_of links.now) x }
    requires tree { AreInOneTree (link_of links.now) u v }
    ensures has { OnOk result (HasPath (link_of links.now) met.old.keys met.new.keys u v) }
    ensures grown { OnOk result (AreGrown met.old.keys met.new.keys) }
{
    let mut left = u;
    let mut right = v;
    let mut high = depth(links, u);
    let mut low = depth(links, v);
    while left != right {
        if high < low {
            right = climb(links, met, right)?;
            low -= 1;
        } else {
            left = climb(links, met, left)?;
            high -= 1;
        }
    }
    Ok(())
}

/// The arguments of the term at a node.
pub(crate) fn arguments(bank: &Bank, node: usize) -> &[TermId]
    requires { (m : ℕ) × (node ≡ object m) × (m < length bank.now.terms) }
    ensures { args_at bank.now.terms node ≡ numbers result.now }
{
    let (_, args) = bank.term(TermId(node - 2));
    args
}

// Puts the links on the paths between the arguments, place by place, into the set.
fn add_arguments(
    links: &[Option<Edge>],
    met: &mut IndexSet<usize>,
    xs: &[TermId],
    ys: &[TermId],
) -> Result<(), Memory>
    requires ended { (x : ℕ) → HasEnd (link_of links.now) x }
    requires trees { AllZip (λ s t. AreInOneTree (link_of links.now) (object s) (object t)) (numbers xs.now) (numbers ys.now) }
    ensures has { OnOk result (HasArgumentPaths (link_of links.now) met.old.keys met.new.keys
        (numbers xs.now) (numbers ys.now) (length xs.now)) }
    ensures grown { OnOk result (AreGrown met.old.keys met.new.keys) }
{
    for i in 0..xs.len() {
        let left = node_of(xs[i])?;
        let right = node_of(ys[i])?;
        add_path(links, met, left, right)?;
    }
    Ok(())
}

// For a link by congruence, puts the links on its arguments' paths into the set.
fn expand(
    bank: &Bank,
    links: &[Option<Edge>],
    met: &mut IndexSet<usize>,
    node: usize,
) -> Result<(), Memory>
    requires ended { (x : ℕ) → HasEnd (link_of links.now) x }
    requires congruent { AreCongruences bank.now.terms (link_of links.now) }
    ensures kept { OnOk result ((e : ℕ) → is_on met.old.keys e ≡ true → is_on met.new.keys e ≡ true) }
    ensures has { OnOk result (HasArguments bank.now.terms (link_of links.now) (is_on met.new.keys) node) }
    ensures only { OnOk result (IsLeast bank.now.terms (link_of links.now) met.old.keys met.new.keys node) }
    ensures grown { OnOk result (AreGrown met.old.keys met.new.keys) }
{
    match link_of(links, node) {
        Some(edge) => match edge.cause {
            Cause::Congruence => {
                let xs = arguments(bank, node);
                let ys = arguments(bank, edge.to);
                add_arguments(links, met, xs, ys)?;
                Ok(())
            }
            Cause::Fact(_) => Ok(()),
        },
        None => Ok(()),
    }
}

fn met_at(met: &IndexSet<usize>, i: usize) -> usize
    requires { i < length met.now.keys }
    ensures { slice_get met.now.keys i ≡ Some result }
{
    met[i]
}

/// The nodes whose links are on the paths meant, each once: a set that is its own queue.
pub(crate) fn meant(
    alloc: Global,
    bank: &Bank,
    links: &[Option<Edge>],
    a: usize,
    b: usize,
) -> Result<IndexSet<usize>, Memory>
    requires ended { (x : ℕ) → HasEnd (link_of links.now) x }
    requires congruent { AreCongruences bank.now.terms (link_of links.now) }
    requires tree { AreInOneTree (link_of links.now) a b }
    ensures meant { IfOk result (λ met. (e : ℕ) →
        (is_on met.keys e ≡ true) ↔ IsMeant bank.now.terms (link_of links.now) a b e) }
    ensures once { IfOk result (λ met. IsDistinct eqb met.keys) }
{
    let mut met = IndexSet::new(alloc);
    add_path(links, &mut met, a, b)?;
    let mut next = 0;
    while next < met.len() {
        let node = met_at(&met, next);
        expand(bank, links, &mut met, node)?;
        next += 1;
    }
    Ok(met)
}
