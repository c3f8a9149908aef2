ghost use Rattle.std.specs.Prelude.{◌≡◌, length, true, IfOk, Err};
ghost use Rattle.fm_base.specs.declared.refusal.Refusal.{Refusal as TheRefusal};
ghost use Rattle.fm_check.specs.Carrying.{CountsFrom, failed};
ghost use Rattle.fm_check.specs.Scripts.{IsAccepted, IsRefusal, problems_of};
ghost use Rattle.fm_check.specs.declared.verdict.CheckFail.TheVariants as fail;
ghost use Rattle.fm_elab.specs.Held.{state_of};
ghost use Rattle.fm_elab.specs.Stacks.{start};
ghost use Rattle.fm_sexp.specs.Items.{all_within};

use crate::commands::{Kind, carry_out};
use crate::verdict::CheckFail;
use fm_base::Fail;
use fm_elab::Scopes;
use fm_sexp::{Sexp, read_sexps};
use sqlite_items::Items;
use std::alloc::Global;

/// A script that has no refusal: its items, and how many `check-sat` commands stand before `exit`.
#[derive(Drop)]
pub struct Judged {
    pub items: Items<Sexp>,
    pub checks: u64,
}

/// Judges a script by itself: what it is, or the refusal of its text, of a command's shape or of the assertion stack, the first
/// that is met. Commands behind `exit` aren't looked at.
pub fn judge(alloc: Global, script: &[u8]) -> Result<Judged, CheckFail>
    ensures accepted { IfOk result (λ j. IsAccepted script.now j.items) }
    ensures checks { IfOk result (λ j. j.checks ≡ length (problems_of script.now j.items)) }
    ensures refused { (r : TheRefusal) → result ≡ Err (fail.Script r) → IsRefusal script.now r }
{
    let items = match read_sexps(alloc, script) {
        Ok(items) => items,
        Err(fail) => return Err(failed(fail)),
    };
    match count_checks(alloc, script, items.as_slice()) {
        Ok(checks) => Ok(Judged { items, checks }),
        Err(fail) => Err(failed(fail)),
    }
}

fn failed(fail: Fail) -> CheckFail
    ensures { result ≡ failed fail }
{
    match fail {
        Fail::Refused(refusal) => CheckFail::Script(refusal),
        Fail::Memory => CheckFail::Memory,
    }
}

// How many `check-sat` commands stand before `exit`, where no command is refused.
fn count_checks(alloc: Global, text: &[u8], items: &[Sexp]) -> Result<u64, Fail>
    requires within { all_within (length text.now) items.now ≡ true }
    ensures { CountsFrom text.now start items.now result }
{
    let mut scopes = Scopes::new(alloc);
    count_from(alloc, &mut scopes, text, items)
}

// Carries the commands out up to `exit`, and counts the `check-sat` commands.
fn count_from<'a>(
    alloc: Global,
    scopes: &mut Scopes<'a>,
    text: &'a [u8],
    items: &'a [Sexp],
) -> Result<u64, Fail>
    requires within { all_within (length text.now) items.now ≡ true }
    ensures { CountsFrom text.now (state_of scopes.old) items.now result }
{
    let mut checks = 0;
    for item in items {
        match carry_out(alloc, scopes, text, item) {
            Err(fail) => return Err(fail),
            Ok(Kind::Check) => checks += 1,
            Ok(Kind::Exit) => return Ok(checks),
            Ok(Kind::Other) => {}
        }
    }
    Ok(checks)
}
