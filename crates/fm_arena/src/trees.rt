ghost use Rattle.std.specs.Prelude.{◌≡◌, ◌≤◌, false, true, length, IfOk, OnOk};
ghost use Rattle.fm_arena.specs.Trees.{built};
ghost use Rattle.fm_arena.specs.Meanings.{kind_at, terms_of, tree_at};
ghost use Rattle.fm_arena.specs.Frames.{IsEnd, IsWithin, block_tree as block_at, part_trees};
ghost use Rattle.fm_arena.specs.Frames.{spot_tree, term_tree, wanted as wanted_of};

use crate::arena::Arena;
use crate::building::{all_apart, apart_kind, block, build, flat_pairs, formula_in, thing_in};
use crate::frames::{Block, Frame, Spot, descend, enter_block};
use crate::node::{Entry, Op, Tree};
use fm_base::{Formula, Fterm, Memory};
use std::alloc::Global;

// A tree in the kind that is wanted of it, if one is.
fn wanted(kind: Option<bool>, tree: Tree) -> Tree
    ensures { result ≡ wanted_of kind tree }
{
    match kind {
        None => tree,
        Some(true) => Tree::Truth(formula_in(tree)),
        Some(false) => Tree::Thing(thing_in(tree)),
    }
}

// The tree of a number, within a frame and under so many variables. Uses and names are gone through by a loop, so
// calls nest at operators and blocks alone.
#[cycle(trees)]
fn tree_of<'a>(
    alloc: Global,
    frames: &mut Vec<Frame<'a>>,
    entries: &'a [Entry],
    number: usize,
    frame: usize,
    depth: usize,
) -> Result<Tree, Memory>
    requires { frame ≤ length frames.old.items }
    ensures tree { IfOk result (λ t. t ≡ term_tree frames.old.items entries.now number frame depth) }
    ensures frames { OnOk result (frames.new.items ≡ frames.old.items) }
{
    let mark = frames.len();
    let (kind, spot) = descend(frames, entries, number, frame)?;
    let tree = tree_at_spot(alloc, frames, spot, depth)?;
    frames.truncate(mark);
    Ok(wanted(kind, tree))
}

// The tree of a place where a way down ends.
#[cycle(trees)]
fn tree_at_spot<'a>(
    alloc: Global,
    frames: &mut Vec<Frame<'a>>,
    spot: Spot<'a>,
    depth: usize,
) -> Result<Tree, Memory>
    requires end { IsEnd spot }
    requires within { IsWithin (length frames.old.items) spot }
    ensures tree { IfOk result (λ t. t ≡ spot_tree frames.old.items spot.entry depth) }
    ensures frames { OnOk result (frames.new.items ≡ frames.old.items) }
{
    match spot {
        Spot::Nothing | Spot::Term { .. } => Ok(Tree::Truth(Formula::Truth(true))),
        Spot::Variable(number) => Ok(Tree::Thing(Fterm::Var(number))),
        Spot::Made {
            before,
            op,
            parts,
            frame,
        } => made_tree(alloc, frames, before, op, parts, frame, depth),
        Spot::Block(block) => block_tree(alloc, frames, block, depth),
    }
}

#[cycle(trees)]
fn block_tree<'a>(
    alloc: Global,
    frames: &mut Vec<Frame<'a>>,
    inner: Block<'a>,
    depth: usize,
) -> Result<Tree, Memory>
    requires { inner.frame ≤ length frames.old.items }
    ensures tree { IfOk result (λ t. t ≡ block_at frames.old.items inner.entry depth) }
    ensures frames { OnOk result (frames.new.items ≡ frames.old.items) }
{
    let Some(deeper) = depth.checked_add(inner.vars.len()) else {
        return Err(Memory);
    };
    let mark = frames.len();
    let frame = enter_block(frames, inner.base, depth, inner.frame)?;
    let tree = tree_of(alloc, frames, inner.before, inner.body, frame, deeper)?;
    frames.truncate(mark);
    block(alloc, inner.all, inner.vars, tree)
}

// What an operator makes of the trees of its parts.
#[cycle(trees)]
fn made_tree<'a>(
    alloc: Global,
    frames: &mut Vec<Frame<'a>>,
    before: &'a [Entry],
    op: Op,
    parts: &[usize],
    frame: usize,
    depth: usize,
) -> Result<Tree, Memory>
    requires { frame ≤ length frames.old.items }
    ensures tree { IfOk result (λ t. t ≡ built op (part_trees frames.old.items before.now parts.now frame depth)) }
    ensures frames { OnOk result (frames.new.items ≡ frames.old.items) }
{
    match apart_kind(op) {
        None => {
            let trees = trees_of(alloc, frames, before, parts, frame, depth)?;
            build(alloc, op, trees)
        }
        Some(truth) => {
            let pairs = flat_pairs(alloc, parts)?;
            let trees = trees_of(alloc, frames, before, pairs.as_slice(), frame, depth)?;
            let members = all_apart(alloc, truth, trees)?;
            Ok(Tree::Truth(Formula::And(members)))
        }
    }
}

#[cycle(trees)]
fn trees_of<'a>(
    alloc: Global,
    frames: &mut Vec<Frame<'a>>,
    before: &'a [Entry],
    parts: &[usize],
    frame: usize,
    depth: usize,
) -> Result<Vec<Tree>, Memory>
    requires { frame ≤ length frames.old.items }
    ensures trees { IfOk result (λ ts. ts.items ≡ part_trees frames.old.items before.now parts.now frame depth) }
    ensures frames { OnOk result (frames.new.items ≡ frames.old.items) }
{
    let mut list = Vec::new(alloc);
    for part in parts {
        let tree = tree_of(alloc, frames, before, *part, frame, depth)?;
        list.push(tree)?;
    }
    Ok(list)
}

// The tree of a number, where no name is in scope and no variable is bound around it.
fn closed_tree(alloc: Global, entries: &[Entry], number: usize) -> Result<Tree, Memory>
    ensures { IfOk result (λ t. t ≡ tree_at (terms_of entries.now) number) }
{
    let mut frames = Vec::new(alloc);
    tree_of(alloc, &mut frames, entries, number, 0, 0)
}

impl Arena {
    /// The formula that a number means, without sharing, where no name is in scope and no variable is bound
    /// around it. A free name gives `true`, or the first variable.
    pub fn formula(&self, alloc: Global, number: usize) -> Result<Formula, Memory>
        requires { kind_at (terms_of self.now) number ≡ true }
        ensures { IfOk result (λ f. Tree.Truth f ≡ tree_at (terms_of self.now) number) }
    {
        let tree = closed_tree(alloc, self.entries.as_slice(), number)?;
        Ok(formula_in(tree))
    }

    /// The term that a number means, as `formula` gives a formula.
    pub fn term(&self, alloc: Global, number: usize) -> Result<Fterm, Memory>
        requires { kind_at (terms_of self.now) number ≡ false }
        ensures { IfOk result (λ t. Tree.Thing t ≡ tree_at (terms_of self.now) number) }
    {
        let tree = closed_tree(alloc, self.entries.as_slice(), number)?;
        Ok(thing_in(tree))
    }
}
