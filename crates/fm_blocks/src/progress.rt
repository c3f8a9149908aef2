ghost use Rattle.std.specs.Prelude.{◌≡◌, ◌+◌, ◌<◌, ◌^◌, length, true, IfOk, IfSome, IfNone};
ghost use Rattle.std.specs.List.{list_all};
ghost use Rattle.fm_base.specs.Interpretations.{names_its_sorts};
ghost use Rattle.fm_base.specs.Truth.{is_closed};
ghost use Rattle.fm_cert.specs.Rows.{rows_of_block};
ghost use Rattle.fm_blocks.specs.Progress.{FoundIs, IsAllGood, IsLeftOver, IsReading, StepIs, bad_step};
ghost use Rattle.fm_problem.specs.Tabled.{with_table};

use crate::blocks::check_block;
use crate::verdict::{Fault, Rule};
use fm_bank::ClauseSet;
use fm_base::{Formula, Memory, Sig};
use fm_cert::{Block, Blocks, CertFail, Claim};
use std::alloc::Global;

/// What is found of a certificate's next block: it is good and claims this, or this is the first fault of the certificate,
/// or nothing is left.
#[derive(Drop)]
pub enum Step {
    Good(Claim),
    Bad(Fault),
    End,
}

fn bad(line: u64, rule: Rule) -> Step
    ensures { result ≡ bad_step line rule }
{
    Step::Bad(Fault { line, rule })
}

// What is found of a block whose line `b` is the line `at`.
fn check_found(
    alloc: Global,
    number: u64,
    sig: &Sig,
    assertions: &[Formula],
    table: &ClauseSet,
    block: Block,
    at: u64,
) -> Result<Step, Memory>
    requires names { names_its_sorts sig.now ≡ true }
    requires closed { list_all (λ f. is_closed f sig.now) assertions.now ≡ true }
    requires room { at + length (rows_of_block block) < 2 ^ 64 }
    ensures { IfOk result (λ s. FoundIs (with_table sig.now assertions.now table.now) number at block s) }
{
    if block.number != number {
        return Ok(bad(at, Rule::B));
    }
    match check_block(alloc, sig, assertions, table, &block, at)? {
        Some(fault) => Ok(Step::Bad(fault)),
        None => {
            let Block { claim, .. } = block;
            Ok(Step::Good(claim))
        }
    }
}

/// Checks the next block of a certificate for the next problem: what is in force with its clause table. `number` is the
/// number of blocks so far. The text of the reader is one in which `first_outside` finds no line. After want of memory the
/// reader may stand behind the block, so it is given up.
pub fn check_next(
    alloc: Global,
    reader: &mut Blocks,
    number: u64,
    sig: &Sig,
    assertions: &[Formula],
    table: &ClauseSet,
) -> Result<Step, Memory>
    requires reader { IsReading reader.old }
    requires names { names_its_sorts sig.now ≡ true }
    requires closed { list_all (λ f. is_closed f sig.now) assertions.now ≡ true }
    ensures { IfOk result (λ s. StepIs (with_table sig.now assertions.now table.now) reader.old number s reader.new) }
{
    let at = reader.line();
    match reader.next(alloc) {
        Err(CertFail::Memory) => Err(Memory),
        Err(CertFail::Text(outside)) => Ok(bad(outside.line, Rule::Text)),
        Ok(None) => Ok(Step::End),
        Ok(Some(block)) => {
            // The block's lines end before this one, so their numbers are below 2^64.
            let _behind = reader.line();
            let step = check_found(alloc, number, sig, assertions, table, block, at)?;
            Ok(step)
        }
    }
}

/// The fault of a certificate whose reader has something left where no problem is.
pub fn check_end(alloc: Global, reader: &mut Blocks) -> Result<Option<Fault>, Memory>
    ensures good { IfOk result (λ o. IfNone o (IsAllGood reader.old)) }
    ensures bad { IfOk result (λ o. IfSome o (λ f. IsLeftOver reader.old f)) }
{
    let line = reader.line();
    match reader.next(alloc) {
        Err(CertFail::Memory) => Err(Memory),
        Err(CertFail::Text(outside)) => Ok(Some(Fault {
            line: outside.line,
            rule: Rule::Text,
        })),
        Ok(None) => Ok(None),
        Ok(Some(_)) => Ok(Some(Fault {
            line,
            rule: Rule::B,
        })),
    }
}
