ghost use Rattle.std.specs.Prelude.{◌≡◌, ◌++◌, IfOk, OnOk, None, map, get_or, drop};
ghost use Rattle.fm_arena.specs.Pairs.{PairsUp, each_pair, flat_pairs as flat_pairs_of, paired};
ghost use Rattle.fm_arena.specs.Trees.{apart as apart_of, apart_kind as apart_kind_of, built, formula_at};
ghost use Rattle.fm_arena.specs.Trees.{formula_in as formula_in_of, nothing, thing_at, thing_in as thing_in_of};
ghost use Rattle.fm_base.specs.declared.formula.Formula as formula;

use crate::node::{Op, Tree};
use fm_base::{Formula, Fterm, Memory, SortId};
use sqlite_items::{Boxed, Items};
use std::alloc::Global;

/// The formula in a tree, and `true` where it is a term.
pub(crate) fn formula_in(tree: Tree) -> Formula
    ensures { result ≡ formula_in_of tree }
{
    match tree {
        Tree::Truth(formula) => formula,
        Tree::Thing(_) => Formula::Truth(true),
    }
}

/// The term in a tree, and the first variable where it is a formula.
pub(crate) fn thing_in(tree: Tree) -> Fterm
    ensures { result ≡ thing_in_of tree }
{
    match tree {
        Tree::Truth(_) => Fterm::Var(0),
        Tree::Thing(thing) => thing,
    }
}

fn formulas_in(alloc: Global, trees: Vec<Tree>) -> Result<Items<Formula>, Memory>
    ensures { IfOk result (λ fs. fs ≡ map formula_in_of trees.items) }
{
    let mut list = Vec::new(alloc);
    for tree in trees {
        list.push(formula_in(tree))?;
    }
    Ok(Items::from_vec(list))
}

fn things_in(alloc: Global, trees: Vec<Tree>) -> Result<Items<Fterm>, Memory>
    ensures { IfOk result (λ fs. fs ≡ map thing_in_of trees.items) }
{
    let mut list = Vec::new(alloc);
    for tree in trees {
        list.push(thing_in(tree))?;
    }
    Ok(Items::from_vec(list))
}

// The first tree, taken out.
fn first(trees: &mut Vec<Tree>) -> Tree
    ensures tree { result ≡ get_or trees.old.items 0 nothing }
    ensures rest { trees.new.items ≡ drop 1 trees.old.items }
{
    if trees.as_slice().len() < 1 {
        Tree::Truth(Formula::Truth(true))
    } else {
        trees.remove(0)
    }
}

// That two trees are equal.
fn equal(alloc: Global, truth: bool, left: Tree, right: Tree) -> Result<Formula, Memory>
    ensures { IfOk result (λ f. formula.Not f ≡ apart_of truth left right) }
{
    if !truth {
        return Ok(Formula::Equal(thing_in(left), thing_in(right)));
    }
    let left = Boxed::new(alloc, formula_in(left))?;
    let right = Boxed::new(alloc, formula_in(right))?;
    Ok(Formula::Iff(left, right))
}

// That two trees differ.
fn apart(alloc: Global, truth: bool, left: Tree, right: Tree) -> Result<Formula, Memory>
    ensures { IfOk result (λ f. f ≡ apart_of truth left right) }
{
    let inner = Boxed::new(alloc, equal(alloc, truth, left, right)?)?;
    Ok(Formula::Not(inner))
}

// Adds a tree to those that are paired: that it differs from the one that waits for it, if there is one. Answers
// the tree that waits then.
fn pair_up(
    alloc: Global,
    truth: bool,
    list: &mut Vec<Formula>,
    held: Option<Tree>,
    tree: Tree,
) -> Result<Option<Tree>, Memory>
    ensures { PairsUp truth list.old.items held tree list.new.items result }
{
    match held {
        None => Ok(Some(tree)),
        Some(left) => {
            list.push(apart(alloc, truth, left, tree)?)?;
            Ok(None)
        }
    }
}

/// That the trees of each pair differ, where pairs stand one behind the other.
#[tactic(auto, using(crate::proofs::Pairing::all_paired))]
pub(crate) fn all_apart(
    alloc: Global,
    truth: bool,
    trees: Vec<Tree>,
) -> Result<Items<Formula>, Memory>
    ensures { IfOk result (λ fs. fs ≡ paired truth trees.items) }
{
    let mut list = Vec::new(alloc);
    let mut held = None;
    for tree in trees {
        held = pair_up(alloc, truth, &mut list, held, tree)?;
    }
    Ok(Items::from_vec(list))
}

// Adds the pairs of a number with others, one behind the other.
fn add_pairs(list: &mut Vec<usize>, first: usize, others: &[usize]) -> Result<(), Memory>
    ensures { OnOk result (list.new.items ≡ list.old.items ++ each_pair first others.now) }
{
    for other in others {
        list.push(first)?;
        list.push(*other)?;
    }
    Ok(())
}

/// All pairs of numbers, one behind the other.
pub(crate) fn flat_pairs(alloc: Global, parts: &[usize]) -> Result<Vec<usize>, Memory>
    ensures { IfOk result (λ v. v.items ≡ flat_pairs_of parts.now) }
{
    let mut list = Vec::new(alloc);
    let mut rest = parts;
    while let Some((first, tail)) = rest.split_first() {
        add_pairs(&mut list, *first, tail)?;
        rest = tail;
    }
    Ok(list)
}

/// A block of quantifiers over a tree.
pub(crate) fn block(alloc: Global, all: bool, vars: &[SortId], tree: Tree) -> Result<Tree, Memory>
    ensures { IfOk result (λ t. t ≡ Tree.Truth (formula.Quant all vars.now (formula_in_of tree))) }
{
    let vars = Items::from_slice(alloc, vars)?;
    let body = Boxed::new(alloc, formula_in(tree))?;
    Ok(Tree::Truth(Formula::Quant { all, vars, body }))
}

/// The kind of arguments that `distinct` takes; None for another operator.
pub(crate) fn apart_kind(op: Op) -> Option<bool>
    ensures { result ≡ apart_kind_of op }
{
    match op {
        Op::Distinct(truth) => Some(truth),
        _ => None,
    }
}

// The first formula, taken out.
fn first_formula(alloc: Global, trees: &mut Vec<Tree>) -> Result<Boxed<Formula>, Memory>
    ensures formula { IfOk result (λ f. f ≡ formula_at trees.old.items 0) }
    ensures rest { trees.new.items ≡ drop 1 trees.old.items }
{
    let formula = Boxed::new(alloc, formula_in(first(trees)))?;
    Ok(formula)
}

// The first term, taken out.
fn first_thing(alloc: Global, trees: &mut Vec<Tree>) -> Result<Boxed<Fterm>, Memory>
    ensures thing { IfOk result (λ t. t ≡ thing_at trees.old.items 0) }
    ensures rest { trees.new.items ≡ drop 1 trees.old.items }
{
    let thing = Boxed::new(alloc, thing_in(first(trees)))?;
    Ok(thing)
}

fn equivalence(alloc: Global, trees: Vec<Tree>) -> Result<Tree, Memory>
    ensures { IfOk result (λ t. t ≡ built Op.Iff trees.items) }
{
    let mut trees = trees;
    let left = first_formula(alloc, &mut trees)?;
    let right = first_formula(alloc, &mut trees)?;
    Ok(Tree::Truth(Formula::Iff(left, right)))
}

fn conditional(alloc: Global, trees: Vec<Tree>) -> Result<Tree, Memory>
    ensures { IfOk result (λ t. t ≡ built Op.Ite trees.items) }
{
    let mut trees = trees;
    let test = first_formula(alloc, &mut trees)?;
    let left = first_formula(alloc, &mut trees)?;
    let right = first_formula(alloc, &mut trees)?;
    Ok(Tree::Truth(Formula::Ite(test, left, right)))
}

fn choice(alloc: Global, trees: Vec<Tree>) -> Result<Tree, Memory>
    ensures { IfOk result (λ t. t ≡ built Op.Choice trees.items) }
{
    let mut trees = trees;
    let test = first_formula(alloc, &mut trees)?;
    let left = first_thing(alloc, &mut trees)?;
    let right = first_thing(alloc, &mut trees)?;
    Ok(Tree::Thing(Fterm::Ite(test, left, right)))
}

/// What an operator other than `distinct` makes of trees.
pub(crate) fn build(alloc: Global, op: Op, trees: Vec<Tree>) -> Result<Tree, Memory>
    requires { apart_kind_of op ≡ None }
    ensures { IfOk result (λ t. t ≡ built op trees.items) }
{
    let mut trees = trees;
    match op {
        Op::Distinct(_) => Ok(Tree::Truth(Formula::Truth(true))),
        Op::Truth(holds) => Ok(Tree::Truth(Formula::Truth(holds))),
        Op::Pred(symbol) => {
            let args = things_in(alloc, trees)?;
            Ok(Tree::Truth(Formula::Pred(symbol, args)))
        }
        Op::App(symbol) => {
            let args = things_in(alloc, trees)?;
            Ok(Tree::Thing(Fterm::App(symbol, args)))
        }
        Op::And => {
            let members = formulas_in(alloc, trees)?;
            Ok(Tree::Truth(Formula::And(members)))
        }
        Op::Or => {
            let members = formulas_in(alloc, trees)?;
            Ok(Tree::Truth(Formula::Or(members)))
        }
        Op::Not => {
            let body = first_formula(alloc, &mut trees)?;
            Ok(Tree::Truth(Formula::Not(body)))
        }
        Op::Equal => {
            let left = thing_in(first(&mut trees));
            let right = thing_in(first(&mut trees));
            Ok(Tree::Truth(Formula::Equal(left, right)))
        }
        Op::Iff => equivalence(alloc, trees),
        Op::Ite => conditional(alloc, trees),
        Op::Choice => choice(alloc, trees),
    }
}
