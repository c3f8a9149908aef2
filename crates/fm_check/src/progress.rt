ghost use Rattle.std.specs.Prelude.{◌≡◌, length, true, None, IfOk};
ghost use Rattle.fm_check.specs.Carrying.{Finds, FindsNext, Goes, IsUnderWay, refusal_at};
ghost use Rattle.fm_check.specs.Scripts.{in_force, problems_from};
ghost use Rattle.fm_elab.specs.Checks.{refused_from};
ghost use Rattle.fm_elab.specs.Held.{state_of};
ghost use Rattle.fm_elab.specs.SortLaw.{IsSortedState};
ghost use Rattle.fm_sexp.specs.Items.{all_within, spans_within};

use crate::commands::{Kind, carry_out};
use fm_base::{Fail, Memory};
use fm_blocks::{Fault, Step, check_end, check_next};
use fm_cert::{Blocks, Claim};
use fm_clauses::{Problem, clauses_of};
use fm_elab::Scopes;
use fm_sexp::Sexp;
use std::alloc::Global;

// What a `check-sat` finds: its block is good, or the verdict: a fault, or that nothing is left.
pub(crate) enum Next {
    Good,
    Found(Option<Fault>),
}

// Checks the next block for what is in force.
fn check_one(
    alloc: Global,
    scopes: &Scopes,
    reader: &mut Blocks,
    claims: &mut Vec<Claim>,
) -> Result<Next, Memory>
    requires sorted { IsSortedState (state_of scopes.now) }
    requires reading { IsUnderWay reader.old claims.old.items }
    ensures { IfOk result (λ n. FindsNext (in_force (state_of scopes.now)) reader.old claims.old.items n reader.new claims.new.items) }
{
    let problem = scopes.problem()?;
    let assertions = problem.assertions;
    let sig = &problem.sig;
    let table = clauses_of(alloc, &Problem { sig, assertions })?;
    let number = claims.as_slice().len() as u64;
    match check_next(alloc, reader, number, sig, assertions, &table)? {
        Step::Good(claim) => {
            claims.push(claim)?;
            Ok(Next::Good)
        }
        Step::Bad(fault) => Ok(Next::Found(Some(fault))),
        Step::End => Ok(Next::Found(None)),
    }
}

// Carries the next command out; a `check-sat` finds its block, and behind `exit` nothing may be left.
fn check_item<'a>(
    alloc: Global,
    scopes: &mut Scopes<'a>,
    text: &'a [u8],
    item: &'a Sexp,
    reader: &mut Blocks,
    claims: &mut Vec<Claim>,
) -> Result<Next, Memory>
    requires within { spans_within (length text.now) item.now ≡ true }
    requires free { refusal_at text.now (state_of scopes.old) item.now ≡ None }
    requires sorted { IsSortedState (state_of scopes.old) }
    requires reading { IsUnderWay reader.old claims.old.items }
    ensures { IfOk result (λ n. Goes text.now (state_of scopes.old) item.now reader.old claims.old.items n
        (state_of scopes.new) reader.new claims.new.items) }
{
    match carry_out(alloc, scopes, text, item) {
        Err(Fail::Memory) => Err(Memory),
        Err(Fail::Refused(_)) => unreachable!(),
        Ok(Kind::Other) => Ok(Next::Good),
        Ok(Kind::Exit) => {
            let found = check_end(alloc, reader)?;
            Ok(Next::Found(found))
        }
        Ok(Kind::Check) => {
            let next = check_one(alloc, scopes, reader, claims)?;
            Ok(next)
        }
    }
}

/// Checks the blocks that are left for the `check-sat` commands of the items before `exit`: the first fault, or none.
pub(crate) fn check_items<'a>(
    alloc: Global,
    scopes: &mut Scopes<'a>,
    text: &'a [u8],
    items: &'a [Sexp],
    reader: &mut Blocks,
    claims: &mut Vec<Claim>,
) -> Result<Option<Fault>, Memory>
    requires within { all_within (length text.now) items.now ≡ true }
    requires free { refused_from text.now (state_of scopes.old) items.now ≡ None }
    requires sorted { IsSortedState (state_of scopes.old) }
    requires reading { IsUnderWay reader.old claims.old.items }
    ensures { IfOk result (λ o. Finds (problems_from text.now (state_of scopes.old) items.now) reader.old claims.old.items o
        claims.new.items) }
{
    for item in items {
        match check_item(alloc, scopes, text, item, reader, claims)? {
            Next::Good => {}
            Next::Found(found) => return Ok(found),
        }
    }
    let found = check_end(alloc, reader)?;
    Ok(found)
}
