ghost use Rattle.std.specs.Prelude.{◌≡◌, ◌==◌, ◌++◌, ◌∷◌, [], ℕ, if◌then◌else◌, length, map, IfOk, OnOk};
ghost use Rattle.std.specs.List.{range_with_len};
ghost use Rattle.fm_cert.specs.declared.block.Line.{Line as TheLine};
ghost use Rattle.fm_lines.specs.First.{ground_line};
ghost use Rattle.fm_steps.specs.Lines.{element_lines, ground_lines, start_lines as first_lines, sum_lines};
ghost use Rattle.fm_steps.specs.Start.{first_terms};

use crate::events::{put_instance, put_terms};
use fm_bank::{Bank, Clause, ClauseSet};
use fm_base::{Memory, SortId};
use fm_cert::Line;
use sqlite_items::Items;
use std::alloc::Global;

fn put_ground_line(
    alloc: Global,
    lines: &mut Vec<Line>,
    number: usize,
    clause: &Clause,
) -> Result<(), Memory>
    ensures { OnOk result (lines.new.items ≡ lines.old.items ++ ground_line number clause.now) }
{
    if clause.vars.len() == 0 {
        put_instance(alloc, lines, number, &[])?;
    }
    Ok(())
}

// The clauses without variables.
fn put_ground_lines(alloc: Global, lines: &mut Vec<Line>, clauses: &[Clause]) -> Result<(), Memory>
    ensures { OnOk result (lines.new.items ≡ lines.old.items ++ ground_lines 0 clauses.now) }
{
    for (number, clause) in clauses.iter().enumerate() {
        put_ground_line(alloc, lines, number, clause)?;
    }
    Ok(())
}

// No sort is empty.
fn put_element_lines(lines: &mut Vec<Line>, sorts: usize) -> Result<(), Memory>
    ensures { OnOk result (lines.new.items ≡ lines.old.items ++ element_lines (range_with_len 0 sorts)) }
{
    for sort in 0..sorts {
        lines.push(Line::OrderZero { sort: SortId(sort) })?;
    }
    Ok(())
}

fn zeros(alloc: Global, count: usize) -> Result<Vec<u64>, Memory>
    ensures { IfOk result (λ v. v.items ≡ map (λ (u : ℕ). 0) (range_with_len 0 count)) }
{
    let mut found = Vec::new(alloc);
    for _place in 0..count {
        found.push(0)?;
    }
    Ok(found)
}

// The sum of all sizes isn't below the number of sorts, of which there is one at least.
fn put_sum_line(alloc: Global, lines: &mut Vec<Line>, sorts: usize) -> Result<(), Memory>
    ensures { OnOk result (lines.new.items ≡ lines.old.items ++ sum_lines sorts) }
{
    if sorts > 0 {
        let ks = zeros(alloc, sorts)?;
        lines.push(Line::Sum {
            n: (sorts - 1) as u64,
            ks: Items::from_vec(ks),
        })?;
    }
    Ok(())
}

/// The lines of the start of a search for a model of the clauses, whose terms the bank has: the terms, the clauses without
/// variables, that no sort is empty, and the first sum.
pub fn start_lines(alloc: Global, clauses: &ClauseSet, bank: &Bank) -> Result<Vec<Line>, Memory>
    requires { bank.now.terms ≡ first_terms clauses.now }
    ensures { IfOk result (λ v. v.items ≡ first_lines clauses.now) }
{
    let sorts = clauses.sig.sorts;
    let mut lines = Vec::new(alloc);
    put_terms(alloc, &mut lines, bank, 0)?;
    put_ground_lines(alloc, &mut lines, clauses.clauses.as_slice())?;
    put_element_lines(&mut lines, sorts)?;
    put_sum_line(alloc, &mut lines, sorts)?;
    Ok(lines)
}
