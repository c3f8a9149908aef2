ghost use Rattle.std.specs.Prelude.{true, false, ◌≡◌, ◌+◌, ◌<◌, ◌^◌, length, IfOk, IfSome, IfNone, OnOk, []};
ghost use Rattle.std.specs.List.{list_all};
ghost use Rattle.fm_base.specs.Interpretations.{names_its_sorts};
ghost use Rattle.fm_base.specs.Truth.{is_closed};
ghost use Rattle.fm_cert.specs.Claims.{IsGoodBlock};
ghost use Rattle.fm_cert.specs.Lines.{AreGoodLines, Problem};
ghost use Rattle.fm_cert.specs.Rows.{rows_of_block};
ghost use Rattle.fm_blocks.specs.Faults.{IsBlockFault, IsFirstBad, rule_of};
ghost use Rattle.fm_blocks.specs.States.{IsOver, made_by};
ghost use Rattle.fm_problem.specs.Tabled.{with_table};
ghost use Rattle.fm_resolve.specs.Stores.{IsReady};

use crate::ending::check_ending;
use crate::state::State;
use crate::verdict::{Fault, Rule};
use fm_bank::{Clause, ClauseSet};
use fm_base::{Formula, Memory, Sig};
use fm_cert::{Block, Line};
use std::alloc::Global;

fn rule_of(line: &Line) -> Rule
    ensures { result ≡ rule_of line.now }
{
    match line {
        Line::Term { .. } => Rule::T,
        Line::Equality { .. } => Rule::E,
        Line::Cardinality { .. } => Rule::C,
        Line::OrderCard { .. } => Rule::O,
        Line::OrderBound { .. } => Rule::O,
        Line::Instance { .. } => Rule::I,
        Line::Sum { .. } => Rule::S,
        Line::OrderZero { .. } => Rule::O,
        Line::Resolution { .. } => Rule::R,
    }
}

// The first bad line, where the lines stand in the text from the line `at` on.
fn check_lines(
    state: &mut State,
    table: &[Clause],
    lines: &[Line],
    at: u64,
) -> Result<Option<Fault>, Memory>
    requires ready { IsReady state.old.store }
    requires room { at + length lines.now < 2 ^ 64 }
    ensures good { IfOk result (λ o. IfNone o ((p : Problem) → IsOver p state.old table.now → AreGoodLines p (made_by state.old) lines.now (made_by state.new))) }
    ensures bad { IfOk result (λ o. IfSome o (λ f. (p : Problem) → IsOver p state.old table.now → IsFirstBad p (made_by state.old) at lines.now f)) }
    ensures sig { state.new.bank.sig ≡ state.old.bank.sig }
    ensures ready { OnOk result (IsReady state.new.store) }
{
    let mut number = at;
    for line in lines {
        if !state.take(table, line)? {
            return Ok(Some(Fault {
                line: number,
                rule: rule_of(line),
            }));
        }
        number += 1;
    }
    Ok(None)
}

/// The first fault of a block for what is in force with its clause table. Its line `b` is the line `at` of the text.
pub(crate) fn check_block(
    alloc: Global,
    sig: &Sig,
    assertions: &[Formula],
    table: &ClauseSet,
    block: &Block,
    at: u64,
) -> Result<Option<Fault>, Memory>
    requires names { names_its_sorts sig.now ≡ true }
    requires closed { list_all (λ f. is_closed f sig.now) assertions.now ≡ true }
    requires room { at + length (rows_of_block block.now) < 2 ^ 64 }
    ensures good { IfOk result (λ o. IfNone o (IsGoodBlock (with_table sig.now assertions.now table.now) block.now)) }
    ensures bad { IfOk result (λ o. IfSome o (λ f. IsBlockFault (with_table sig.now assertions.now table.now) at block.now f)) }
{
    let mut state = State::new(alloc, &table.sig)?;
    let lines = block.lines.as_slice();
    if let Some(fault) = check_lines(&mut state, table.clauses.as_slice(), lines, at + 1)? {
        return Ok(Some(fault));
    }
    let ending = at + 1 + lines.len() as u64;
    let ended = check_ending(alloc, sig, assertions, &state.store, &block.claim, ending)?;
    Ok(ended)
}
