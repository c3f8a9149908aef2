ghost use Rattle.std.specs.Prelude.{◌≡◌, ◌<◌, ◌≤◌, ℕ, [], length, IfOk, OnOk};
ghost use Rattle.fm_arena.specs.Weights.{AreWeighedAfter, HasForm, IsForm, beside, reach, weighed_of};
ghost use Rattle.fm_arena.specs.Passes.{Counts, KeepsMarks, ReadsMore, WeighsNothing, block_gain, deeper as deeper_of};
ghost use Rattle.fm_arena.specs.Passes.{form_gain, made_gain, name_gain, node_gain, own_gain, pairs_gain, param_gain};
ghost use Rattle.fm_arena.specs.Passes.{part_gain, parts_gain, read_gain, through as through_of};

use crate::building::{apart_kind, flat_pairs};
use crate::forms::{Form, Param, Reads};
use crate::node::{Entry, Node, Op};
use crate::sizes::{Measure, type_of};
use fm_base::Memory;
use sqlite_items::Items;
use std::alloc::Global;
use std::collections::VecDeque;

const ONE: Measure = Measure { size: 1, depth: 1 };

const NONE: Reads = Reads { count: 0, above: 0 };

/// What a pass over the body of a definition has found: the measure of what is the body's own, the reads of each
/// parameter, and those of the terms that it hasn't come to yet, from the last one down.
#[derive(Drop)]
pub struct Pass {
    pub own: Measure,
    pub params: Vec<Param>,
    pub marks: VecDeque<Reads>,
}

// Both reads of one part.
fn merged(first: Reads, second: Reads) -> Result<Reads, Memory>
    ensures { (m : Measure) → IfOk result (λ r. reach r m ≡ beside (reach first m) (reach second m)) }
{
    if first.count == 0 {
        return Ok(second);
    }
    if second.count == 0 {
        return Ok(first);
    }
    match first.count.checked_add(second.count) {
        None => Err(Memory),
        Some(count) => Ok(Reads {
            count,
            above: first.above.max(second.above),
        }),
    }
}

// The reads of what is itself read in a part.
fn through(outer: Reads, inner: Reads) -> Result<Reads, Memory>
    ensures { IfOk result (λ r. r ≡ through_of outer inner) }
{
    match outer.count.checked_mul(inner.count) {
        None => Err(Memory),
        Some(count) => match outer.above.checked_add(inner.above) {
            None => Err(Memory),
            Some(above) => Ok(Reads { count, above }),
        },
    }
}

// The reads of what stands so many nodes further down.
fn deeper(count: u64, reads: Reads) -> Result<Reads, Memory>
    ensures { IfOk result (λ r. r ≡ deeper_of count reads) }
{
    match reads.above.checked_add(count) {
        None => Err(Memory),
        Some(above) => Ok(Reads {
            count: reads.count,
            above,
        }),
    }
}

// What there is and a part that is read so often.
fn with_part(own: Measure, reads: Reads, part: Measure) -> Result<Measure, Memory>
    ensures { IfOk result (λ m. m ≡ beside own (reach reads part)) }
{
    if reads.count == 0 {
        return Ok(own);
    }
    let Some(size) = reads.count.checked_mul(part.size) else {
        return Err(Memory);
    };
    let Some(size) = own.size.checked_add(size) else {
        return Err(Memory);
    };
    match reads.above.checked_add(part.depth) {
        None => Err(Memory),
        Some(depth) => Ok(Measure {
            size,
            depth: own.depth.max(depth),
        }),
    }
}

// More reads of a parameter as a formula or as a term.
#[tactic(auto, using(crate::proofs::Reaching::beside_swap, crate::proofs::Adding::beside_assoc))]
fn more_param(param: Param, truth: bool, reads: Reads) -> Result<Param, Memory>
    ensures { ReadsMore param truth reads result }
{
    if truth {
        let truths = merged(param.truths, reads)?;
        Ok(Param {
            truths,
            things: param.things,
        })
    } else {
        let things = merged(param.things, reads)?;
        Ok(Param {
            truths: param.truths,
            things,
        })
    }
}

// Makes room for the reads of one more term.
fn reach_back(marks: &mut VecDeque<Reads>, back: usize) -> Result<(), Memory>
    ensures long { OnOk result (back < length marks.new.items) }
    ensures few { (n : ℕ) → length marks.old.items ≤ n → back < n → OnOk result (length marks.new.items ≤ n) }
    ensures weight { KeepsMarks marks.old.items marks.new.items result }
{
    while marks.len() <= back {
        marks.push_back(NONE)?;
    }
    Ok(())
}

impl Pass {
    fn new(alloc: Global, params: usize) -> Result<Pass, Memory>
        ensures params { IfOk result (λ p. length p.params.items ≡ params) }
        ensures marks { IfOk result (λ p. p.marks.items ≡ []) }
        ensures weight { WeighsNothing result }
    {
        let mut list = Vec::new(alloc);
        list.resize(
            params,
            Param {
                truths: NONE,
                things: NONE,
            },
        )?;
        Ok(Pass {
            own: Measure { size: 0, depth: 0 },
            params: list,
            marks: VecDeque::new(alloc),
        })
    }

    // Adds nodes that are the body's own.
    fn add_own(&mut self, before: &[Entry], node: Measure, reads: Reads) -> Result<(), Memory>
        ensures { Counts before.now self.old self.new (λ _. own_gain reads node) result }
    {
        let _ = before;
        self.own = with_part(self.own, reads, node)?;
        Ok(())
    }

    // Adds reads of an earlier term.
    fn add_part(&mut self, before: &[Entry], part: usize, reads: Reads) -> Result<(), Memory>
        ensures { Counts before.now self.old self.new (λ fs. part_gain fs reads part) result }
    {
        if part >= before.len() {
            return self.add_own(before, ONE, reads);
        }
        let back = before.len() - 1 - part;
        reach_back(&mut self.marks, back)?;
        let mark = merged(self.marks[back], reads)?;
        self.marks[back] = mark;
        Ok(())
    }

    // Adds reads of a name, which is a parameter or counts as one node.
    fn add_name(
        &mut self,
        before: &[Entry],
        place: usize,
        truth: bool,
        reads: Reads,
    ) -> Result<(), Memory>
        ensures { Counts before.now self.old self.new (λ _. name_gain reads place truth) result }
    {
        if place >= self.params.as_slice().len() {
            return self.add_own(before, ONE, reads);
        }
        self.params[place] = more_param(self.params[place], truth, reads)?;
        Ok(())
    }

    // Adds reads of several terms.
    fn add_parts(&mut self, before: &[Entry], parts: &[usize], reads: Reads) -> Result<(), Memory>
        ensures { Counts before.now self.old self.new (λ fs. parts_gain fs reads parts.now) result }
    {
        for part in parts {
            self.add_part(before, *part, reads)?;
        }
        Ok(())
    }

    // Adds reads of what an operator makes.
    fn add_made(
        &mut self,
        alloc: Global,
        before: &[Entry],
        op: Op,
        parts: &[usize],
        reads: Reads,
    ) -> Result<(), Memory>
        requires { 0 < reads.count }
        ensures { Counts before.now self.old self.new (λ fs. made_gain fs reads op parts.now) result }
    {
        match apart_kind(op) {
            None => {
                self.add_own(before, ONE, reads)?;
                self.add_parts(before, parts, deeper(1, reads)?)
            }
            Some(_) => self.add_pairs(alloc, before, parts, reads),
        }
    }

    // Adds reads of the formula that terms differ, which has two nodes over each pair.
    fn add_pairs(
        &mut self,
        alloc: Global,
        before: &[Entry],
        parts: &[usize],
        reads: Reads,
    ) -> Result<(), Memory>
        requires { 0 < reads.count }
        ensures { Counts before.now self.old self.new (λ fs. pairs_gain fs reads parts.now) result }
    {
        let pairs = flat_pairs(alloc, parts)?;
        let Some(size) = (pairs.as_slice().len() as u64).checked_add(1) else {
            return Err(Memory);
        };
        self.add_own(before, Measure { size, depth: 1 }, reads)?;
        self.add_parts(before, pairs.as_slice(), deeper(3, reads)?)
    }

    // Adds reads of what stands for a parameter: the name itself, or an argument.
    fn add_read(
        &mut self,
        before: &[Entry],
        named: bool,
        args: &[usize],
        place: usize,
        truth: bool,
        reads: Reads,
    ) -> Result<(), Memory>
        ensures { Counts before.now self.old self.new (λ fs. read_gain fs reads named args.now place truth) result }
    {
        if named {
            return self.add_name(before, place, truth, reads);
        }
        match args.get(place) {
            None => self.add_own(before, ONE, reads),
            Some(arg) => {
                if type_of(before, *arg).is_bool() == truth {
                    self.add_part(before, *arg, reads)
                } else {
                    self.add_own(before, ONE, reads)
                }
            }
        }
    }

    // Adds what a form says of a parameter, where the form itself is read so often.
    fn add_param(
        &mut self,
        before: &[Entry],
        named: bool,
        args: &[usize],
        place: usize,
        param: Param,
        reads: Reads,
    ) -> Result<(), Memory>
        ensures { Counts before.now self.old self.new (λ fs. param_gain fs reads named args.now place param) result }
    {
        let truths = through(reads, param.truths)?;
        let things = through(reads, param.things)?;
        self.add_read(before, named, args, place, true, truths)?;
        self.add_read(before, named, args, place, false, things)
    }

    // Adds reads of what a form weighs.
    fn add_form(
        &mut self,
        before: &[Entry],
        named: bool,
        args: &[usize],
        form: &Form,
        reads: Reads,
    ) -> Result<(), Memory>
        requires { 0 < reads.count }
        ensures { Counts before.now self.old self.new (λ fs. form_gain fs reads named args.now form.now) result }
    {
        self.add_own(before, form.own, reads)?;
        let params = form.params.as_slice();
        for place in 0..params.len() {
            let param = params[place];
            self.add_param(before, named, args, place, param, reads)?;
        }
        Ok(())
    }
}

// Goes over one node.
#[cycle(passes)]
fn spread(
    alloc: Global,
    pass: &mut Pass,
    before: &[Entry],
    node: &Node,
    reads: Reads,
) -> Result<(), Memory>
    requires some { 0 < reads.count }
    requires kept { AreWeighedAfter [] [] before.now }
    requires formed { HasForm (weighed_of before.now) node.now }
    ensures { Counts before.now pass.old pass.new (λ fs. node_gain fs reads node.now) result }
{
    match node {
        Node::Name { place, truth } => pass.add_name(before, *place, *truth, reads),
        Node::Made { op, parts } => pass.add_made(alloc, before, *op, parts.as_slice(), reads),
        Node::Quant {
            all: _,
            vars: _,
            base,
            body,
        } => spread_block(alloc, pass, before, *base, *body, reads),
        Node::Defined { body, form: _ } => pass.add_part(before, *body, reads),
        Node::Use {
            body: _,
            args,
            form,
        } => pass.add_form(before, false, args.as_slice(), form, reads),
    }
}

// Goes over a block. Parameters from its base on are hidden within it, so its body has a form of its own then.
#[cycle(passes)]
fn spread_block(
    alloc: Global,
    pass: &mut Pass,
    before: &[Entry],
    base: usize,
    body: usize,
    reads: Reads,
) -> Result<(), Memory>
    requires some { 0 < reads.count }
    requires kept { AreWeighedAfter [] [] before.now }
    ensures { Counts before.now pass.old pass.new (λ fs. block_gain fs reads base body) result }
{
    pass.add_own(before, ONE, reads)?;
    let inner = deeper(1, reads)?;
    if base >= pass.params.as_slice().len() {
        return pass.add_part(before, body, inner);
    }
    let form = form_of(alloc, before, body, base)?;
    pass.add_form(before, true, &[], &form, inner)
}

/// What a term weighs, whatever stands for the names below a number.
#[cycle(passes)]
pub(crate) fn form_of(
    alloc: Global,
    entries: &[Entry],
    number: usize,
    params: usize,
) -> Result<Form, Memory>
    requires { AreWeighedAfter [] [] entries.now }
    ensures form { IfOk result (λ f. IsForm (weighed_of entries.now) number f) }
    ensures params { IfOk result (λ f. length f.params ≡ params) }
{
    let mut pass = Pass::new(alloc, params)?;
    pass.add_part(entries, number, Reads { count: 1, above: 0 })?;
    let mut left = entries;
    while let Some(reads) = pass.marks.pop_front() {
        let Some((entry, before)) = left.split_last() else {
            return Err(Memory);
        };
        if reads.count > 0 {
            spread(alloc, &mut pass, before, &entry.node, reads)?;
        }
        left = before;
    }
    Ok(Form {
        own: pass.own,
        params: Items::from_vec(pass.params),
    })
}
