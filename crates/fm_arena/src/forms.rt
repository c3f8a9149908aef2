ghost use Rattle.std.specs.Prelude.{◌≡◌, true, IfSome, is_some};
ghost use Rattle.fm_arena.specs.Measures.{is_fit};
ghost use Rattle.fm_arena.specs.Kept.{kept_arguments};
ghost use Rattle.fm_arena.specs.Weights.{beside, form_weight, reach};

use crate::node::Entry;
use crate::sizes::{MOST_DEPTH, MOST_NODES, Measure, kept, type_of};
use sqlite_items::Items;

/// How often a part is read in a tree, and how many nodes stand above it on the longest path to it.
#[derive(Clone, Copy, Debug)]
pub struct Reads {
    pub count: u64,
    pub above: u64,
}

/// How often a parameter is read as a formula and as a term.
#[derive(Clone, Copy, Debug)]
pub struct Param {
    pub truths: Reads,
    pub things: Reads,
}

/// What a definition weighs, whatever stands for its parameters: the measure of what is its own, and the
/// reads of each parameter.
#[derive(Drop)]
pub struct Form {
    pub own: Measure,
    pub params: Items<Param>,
}

// What there is and a part that is read so often, where it is within the limits.
pub(crate) fn with_reads(sum: Measure, reads: Reads, part: Measure) -> Option<Measure>
    requires { is_fit sum ≡ true }
    ensures some { IfSome result (λ m. beside sum (reach reads part) ≡ m) }
    ensures fit { is_some result ≡ is_fit (beside sum (reach reads part)) }
    ensures within { IfSome result (λ m. is_fit m ≡ true) }
{
    if reads.count == 0 {
        return Some(sum);
    }
    let size = sum
        .size
        .saturating_add(reads.count.saturating_mul(part.size));
    let depth = sum.depth.max(reads.above.saturating_add(part.depth));
    if size > MOST_NODES || depth > MOST_DEPTH {
        return None;
    }
    Some(Measure { size, depth })
}

// The measure of what stands for a parameter, read as a formula or as a term.
pub(crate) fn argument(entries: &[Entry], args: &[usize], place: usize, truth: bool) -> Measure
    ensures { result ≡ kept_arguments entries.now args.now place truth }
{
    match args.get(place) {
        None => Measure { size: 1, depth: 1 },
        Some(arg) => {
            if type_of(entries, *arg).is_bool() == truth {
                kept(entries, *arg)
            } else {
                Measure { size: 1, depth: 1 }
            }
        }
    }
}

// What there is and what stands for a parameter, read as a formula and as a term, where it is within the limits.
#[tactic(auto, using(crate::proofs::Adding::beside_assoc, crate::proofs::Adding::unfit_beside))]
fn with_param(sum: Measure, param: Param, truth: Measure, thing: Measure) -> Option<Measure>
    requires { is_fit sum ≡ true }
    ensures some { IfSome result (λ m. beside sum (beside (reach param.truths truth) (reach param.things thing)) ≡ m) }
    ensures fit { is_some result ≡ is_fit (beside sum (beside (reach param.truths truth) (reach param.things thing))) }
    ensures within { IfSome result (λ m. is_fit m ≡ true) }
{
    match with_reads(sum, param.truths, truth) {
        None => None,
        Some(more) => with_reads(more, param.things, thing),
    }
}

/// The measure of what a form says where its parameters stand for arguments, where it is within the limits.
#[tactic(auto, using(crate::proofs::Adding::param_step, crate::proofs::Adding::unfit_beside))]
pub(crate) fn measure_use(entries: &[Entry], form: &Form, args: &[usize]) -> Option<Measure>
    ensures some { IfSome result (λ m. form_weight form.now (kept_arguments entries.now args.now) ≡ m) }
    ensures fit { is_some result ≡ is_fit (form_weight form.now (kept_arguments entries.now args.now)) }
{
    let mut sum = form.own;
    if sum.size > MOST_NODES || sum.depth > MOST_DEPTH {
        return None;
    }
    let params = form.params.as_slice();
    for place in 0..params.len() {
        let truth = argument(entries, args, place, true);
        let thing = argument(entries, args, place, false);
        match with_param(sum, params[place], truth, thing) {
            None => return None,
            Some(more) => sum = more,
        }
    }
    Some(sum)
}
