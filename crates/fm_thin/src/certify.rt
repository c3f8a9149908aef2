ghost use Rattle.std.specs.Prelude.{◌≡◌, ℕ, ◌++◌, ◌+◌, ◌<◌, ◌^◌, IfOk, OnOk, replicate, true, length};
ghost use Rattle.std.specs.List.{AllByRecursion};
ghost use Rattle.fm_cert.specs.Claims.{ClaimHolds, IsGoodBlock};
ghost use Rattle.fm_cert.specs.Fits.{IsPrintable};
ghost use Rattle.fm_thin.specs.Certified.{answering_block, refuting_block, block_of, lines_of, one_element_model, zero_table, orders, zero_steps, IsDecided};
ghost use Rattle.fm_problem.specs.Tabled.{tabled};
ghost use Rattle.fm_thin.specs.Thin.{are_thin};

use crate::thin::falsity;
use fm_bank::{Atom, Literal};
use fm_base::{Formula, Interp, Sig, SortId, Table};
use fm_cert::{Block, Claim, Line};
use sqlite_items::Items;
use std::alloc::{AllocError, Global};

/// The block that answers a `check-sat` of thin assertions: a model in which each sort has one element, and lines that show
/// that no sum lies below it; or, where `false` is among the assertions, the clause that refutes them.
pub fn answer(
    alloc: Global,
    number: u64,
    sig: &Sig,
    assertions: &[Formula],
) -> Result<Block, AllocError>
    requires { are_thin sig.now assertions.now ≡ true }
    ensures number { IfOk result (λ b. b.number ≡ number) }
    ensures good { IfOk result (λ b. IsGoodBlock (tabled sig.now assertions.now) b) }
    ensures holds { IfOk result (λ b. ClaimHolds (tabled sig.now assertions.now) b.claim) }
    ensures decided { IfOk result (λ b. IsDecided b.claim) }
    ensures printable { IfOk result (λ b. AllByRecursion IsPrintable b.lines) }
{
    let clause = falsity(sig, assertions);
    let block = answering(alloc, number, sig.sorts, sig.ranks.len(), clause)?;
    Ok(block)
}

// The block over so many sorts and functions; `falsity` is the number of the clause of the first `false`.
fn answering(
    alloc: Global,
    number: u64,
    sorts: usize,
    symbols: usize,
    falsity: Option<usize>,
) -> Result<Block, AllocError>
    ensures { IfOk result (λ b. b ≡ answering_block number sorts symbols falsity) }
{
    match falsity {
        Some(clause) => refuting(alloc, number, clause),
        None => certify(alloc, number, sorts, symbols),
    }
}

fn refuting(alloc: Global, number: u64, clause: usize) -> Result<Block, AllocError>
    ensures { IfOk result (λ b. b ≡ refuting_block number clause) }
{
    let terms = Items::new(alloc);
    let mut lines = Vec::new(alloc);
    lines.push(Line::Instance { clause, terms })?;
    Ok(Block {
        number,
        lines: Items::from_vec(lines),
        claim: Claim::Unsat,
    })
}

fn certify(alloc: Global, number: u64, sorts: usize, symbols: usize) -> Result<Block, AllocError>
    ensures { IfOk result (λ b. b ≡ block_of number sorts symbols) }
{
    let lines = lines_for(alloc, sorts)?;
    let model = one_element(alloc, sorts, symbols)?;
    let sum = sorts as u64;
    Ok(Block {
        number,
        lines,
        claim: Claim::Sat { sum, model },
    })
}

fn lines_for(alloc: Global, sorts: usize) -> Result<Items<Line>, AllocError>
    ensures { IfOk result (λ lines. lines ≡ lines_of sorts) }
{
    let mut lines = Vec::new(alloc);
    if sorts == 0 {
        return Ok(Items::from_vec(lines));
    }
    let n = sorts as u64 - 1;
    let ks = zeros(alloc, sorts)?;
    lines.push(Line::Sum { n, ks })?;
    push_orders(&mut lines, sorts)?;
    let steps = steps_for(alloc, sorts)?;
    lines.push(Line::Resolution { first: 0, steps })?;
    Ok(Items::from_vec(lines))
}

fn zeros(alloc: Global, count: usize) -> Result<Items<u64>, AllocError>
    ensures { IfOk result (λ ks. ks ≡ replicate count 0) }
{
    Ok(Items::from_vec(vec![in alloc; 0; count]?))
}

fn ones(alloc: Global, count: usize) -> Result<Items<u64>, AllocError>
    ensures { IfOk result (λ ks. ks ≡ replicate count 1) }
{
    Ok(Items::from_vec(vec![in alloc; 1; count]?))
}

fn push_orders(lines: &mut Vec<Line>, sorts: usize) -> Result<(), AllocError>
    ensures { OnOk result (lines.new.items ≡ lines.old.items ++ orders 0 sorts) }
{
    for sort in 0..sorts {
        lines.push(Line::OrderZero { sort: SortId(sort) })?;
    }
    Ok(())
}

fn steps_for(alloc: Global, sorts: usize) -> Result<Items<(Literal, usize)>, AllocError>
    ensures { IfOk result (λ steps. steps ≡ zero_steps 0 sorts) }
{
    let mut steps = Vec::new(alloc);
    for sort in 0..sorts {
        let lit = Literal {
            positive: true,
            atom: Atom::Card(SortId(sort), 0),
        };
        steps.push((lit, sort + 1))?;
    }
    Ok(Items::from_vec(steps))
}

fn one_element(alloc: Global, sorts: usize, symbols: usize) -> Result<Interp, AllocError>
    ensures { IfOk result (λ i. i ≡ one_element_model sorts symbols) }
{
    let sizes = ones(alloc, sorts)?;
    let tables = tables_for(alloc, symbols)?;
    Ok(Interp { sizes, tables })
}

fn tables_for(alloc: Global, symbols: usize) -> Result<Items<Table>, AllocError>
    ensures { IfOk result (λ tables. tables ≡ replicate symbols zero_table) }
{
    let mut tables = Vec::new(alloc);
    for _i in 0..symbols {
        let except = Items::new(alloc);
        tables.push(Table { default: 0, except })?;
    }
    Ok(Items::from_vec(tables))
}
