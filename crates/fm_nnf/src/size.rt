ghost use Rattle.std.specs.Prelude.{◌≡◌, ◌+◌, ◌≤◌, ◌<◌, ◌^◌, [], length, min, map, get_or, true};
ghost use Rattle.fm_nnf.specs.NormalForm.{normal};
ghost use Rattle.fm_nnf.specs.NormalSize.{nodes, total};
ghost use Rattle.fm_nnf.specs.Counting.{block_count, count_all as counts_of, normal_count, or_count, sizes_of, term_count, term_counts, variables_of};

use fm_base::{Formula, Fterm, SortId};

/// The sizes of what stands for the variables in scope, block by block, linked on the stack from the innermost on.
#[derive(Clone, Copy)]
pub enum Frame<'a> {
    Top,
    Inner {
        outer: &'a Frame<'a>,
        count: usize,
        size: u64,
    },
}

/// The number of nodes of the normal form of a closed formula without term `ite`, or 1,000,001 where it is more; a
/// node is a constructor of the form or of a term in it. It takes no memory, and its time is in proportion to what it
/// counts, though a normal form may be exponentially larger than the formula. That a formula binds fewer variables
/// than 2^63 is known of each that a script has.
pub fn normal_size(formula: &Formula) -> u64
    requires room { variables_of formula.now < 2 ^ 63 }
    ensures { result ≡ min (nodes (normal formula.now 0).0) 1000001 }
{
    count_closed(formula)
}

fn count_closed(formula: &Formula) -> u64
    requires { variables_of formula.now < 2 ^ 63 }
    ensures { result ≡ min (normal_count formula.now true [] 0) 1000001 }
{
    count(formula, true, &Frame::Top, 0, 0, 1_000_001)
}

// The size of the term that stands for a variable.
fn size_at(frame: &Frame<'_>, depth: usize, v: usize) -> u64
    requires { depth ≡ length (sizes_of frame.now) }
    ensures { result ≡ get_or (sizes_of frame.now) v 1 }
{
    match *frame {
        Frame::Top => 1,
        Frame::Inner { outer, count, size } => {
            let start = depth - count;
            if v >= depth {
                1
            } else if v >= start {
                size
            } else {
                size_at(outer, start, v)
            }
        }
    }
}

#[cycle(terms)]
fn count_term(term: &Fterm, frame: &Frame<'_>, depth: usize, left: u64) -> u64
    requires { depth ≡ length (sizes_of frame.now) }
    ensures { result ≡ min (term_count term.now (sizes_of frame.now)) left }
{
    if left == 0 {
        return 0;
    }
    match term {
        Fterm::Var(v) => size_at(frame, depth, *v).min(left),
        Fterm::App(_, terms) => count_terms(terms.as_slice(), frame, depth, left - 1) + 1,
        Fterm::Ite(_, _, _) => 1,
    }
}

#[cycle(terms)]
fn count_terms(terms: &[Fterm], frame: &Frame<'_>, depth: usize, left: u64) -> u64
    requires { depth ≡ length (sizes_of frame.now) }
    ensures { result ≡ min (term_counts (map term_count terms.now) (sizes_of frame.now)) left }
{
    let mut sum = 0;
    for term in terms {
        sum += count_term(term, frame, depth, left - sum);
        if sum == left {
            return sum;
        }
    }
    sum
}

#[cycle(count)]
fn count(
    formula: &Formula,
    positive: bool,
    frame: &Frame<'_>,
    depth: usize,
    universal: usize,
    left: u64,
) -> u64
    requires depth { depth ≡ length (sizes_of frame.now) }
    requires room { depth + variables_of formula.now < 2 ^ 63 }
    requires within { universal ≤ depth }
    ensures { result ≡ min (normal_count formula.now positive (sizes_of frame.now) universal) left }
{
    if left == 0 {
        return 0;
    }
    match formula {
        Formula::Truth(_) => 1,
        Formula::Pred(_, terms) => count_terms(terms.as_slice(), frame, depth, left - 1) + 1,
        Formula::Equal(one, other) => {
            let sum = 1 + count_term(one, frame, depth, left - 1);
            sum + count_term(other, frame, depth, left - sum)
        }
        Formula::Not(body) => count(body.get(), !positive, frame, depth, universal, left),
        Formula::And(formulas) | Formula::Or(formulas) => {
            let list = formulas.as_slice();
            count_all(list, positive, frame, depth, universal, left - 1) + 1
        }
        Formula::Iff(a, b) => {
            let (a, b) = (a.get(), b.get());
            let one = 1 + count_or(a, !positive, b, true, frame, depth, universal, left - 1);
            one + count_or(a, positive, b, false, frame, depth, universal, left - one)
        }
        Formula::Ite(c, a, b) => {
            let (c, a, b) = (c.get(), a.get(), b.get());
            let one = 1 + count_or(c, false, a, positive, frame, depth, universal, left - 1);
            one + count_or(c, true, b, positive, frame, depth, universal, left - one)
        }
        Formula::Quant { all, vars, body } => {
            let (vars, body, stays) = (vars.as_slice(), body.get(), *all == positive);
            count_block(vars, stays, body, positive, frame, depth, universal, left)
        }
    }
}

// An Or of two, each under a sign of its own.
#[cycle(count)]
fn count_or(
    one: &Formula,
    one_positive: bool,
    other: &Formula,
    other_positive: bool,
    frame: &Frame<'_>,
    depth: usize,
    universal: usize,
    left: u64,
) -> u64
    requires depth { depth ≡ length (sizes_of frame.now) }
    requires room { depth + (variables_of one.now + variables_of other.now) < 2 ^ 63 }
    requires within { universal ≤ depth }
    ensures { result ≡ min (or_count one.now one_positive other.now other_positive (sizes_of frame.now) universal) left }
{
    let mut sum = 1u64.min(left);
    sum += count(one, one_positive, frame, depth, universal, left - sum);
    sum += count(other, other_positive, frame, depth, universal, left - sum);
    sum
}

// A block, which stays where it is universal under its sign.
#[cycle(count)]
fn count_block(
    vars: &[SortId],
    stays: bool,
    body: &Formula,
    positive: bool,
    frame: &Frame<'_>,
    depth: usize,
    universal: usize,
    left: u64,
) -> u64
    requires depth { depth ≡ length (sizes_of frame.now) }
    requires room { depth + (length vars.now + variables_of body.now) < 2 ^ 63 }
    requires within { universal ≤ depth }
    requires some { 0 < left }
    ensures { result ≡ min (block_count stays vars.now body.now positive (sizes_of frame.now) universal) left }
{
    let bound = vars.len();
    let deeper = depth + bound;
    if stays {
        let inner = Frame::Inner {
            outer: &*frame,
            count: bound,
            size: 1,
        };
        count(body, positive, &inner, deeper, universal + bound, left - 1) + 1
    } else {
        let inner = Frame::Inner {
            outer: &*frame,
            count: bound,
            size: universal as u64 + 1,
        };
        count(body, positive, &inner, deeper, universal, left)
    }
}

#[cycle(count)]
fn count_all(
    formulas: &[Formula],
    positive: bool,
    frame: &Frame<'_>,
    depth: usize,
    universal: usize,
    left: u64,
) -> u64
    requires depth { depth ≡ length (sizes_of frame.now) }
    requires room { depth + total (map variables_of formulas.now) < 2 ^ 63 }
    requires within { universal ≤ depth }
    ensures { result ≡ min (counts_of positive (map normal_count formulas.now) (sizes_of frame.now) universal) left }
{
    let mut sum = 0;
    for formula in formulas {
        sum += count(formula, positive, frame, depth, universal, left - sum);
        if sum == left {
            return sum;
        }
    }
    sum
}
