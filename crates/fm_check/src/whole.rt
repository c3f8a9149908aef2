ghost use Rattle.std.specs.Prelude.{◌≡◌, IfOk, None, length, true};
ghost use Rattle.fm_cert.specs.Blockwise.{IsCertificate};
ghost use Rattle.fm_check.specs.Carrying.{Finds, IsUnderWay};
ghost use Rattle.fm_elab.specs.Checks.{refusal_in};
ghost use Rattle.fm_sexp.specs.Items.{all_within};
ghost use Rattle.fm_check.specs.Scripts.{IsAccepted, problems_of};
ghost use Rattle.fm_check.specs.Verdicts.{Checks, ClaimsHold, IsVerdict};

use crate::judging::{Judged, judge};
use crate::progress::check_items;
use crate::verdict::{CheckFail, Verdict};
use fm_base::Memory;
use fm_blocks::{Fault, Rule};
use fm_cert::{Blocks, Claim, first_outside};
use fm_elab::Scopes;
use fm_sexp::Sexp;
use std::alloc::Global;

/// Checks a text, any bytes, as a certificate for a script that was judged. It goes through the script's commands once more, with
/// one block and one clause table at a time.
pub fn check_text(
    alloc: Global,
    script: &[u8],
    judged: &Judged,
    cert: &[u8],
) -> Result<Verdict, Memory>
    requires { IsAccepted script.now judged.now.items }
    ensures verdict { IfOk result (IsVerdict (problems_of script.now judged.now.items) cert.now) }
    ensures claims { IfOk result (ClaimsHold (problems_of script.now judged.now.items)) }
{
    match first_outside(alloc, cert)? {
        Some(line) => Ok(rejected(line, Rule::Text)),
        None => check_inside(alloc, script, judged, cert),
    }
}

// The same, of a text in the grammar.
fn check_inside(
    alloc: Global,
    script: &[u8],
    judged: &Judged,
    cert: &[u8],
) -> Result<Verdict, Memory>
    requires accepted { IsAccepted script.now judged.now.items }
    requires inside { IsCertificate cert.now }
    ensures verdict { IfOk result (IsVerdict (problems_of script.now judged.now.items) cert.now) }
    ensures claims { IfOk result (ClaimsHold (problems_of script.now judged.now.items)) }
{
    let Some(mut reader) = Blocks::of(cert) else {
        return Ok(rejected(1, Rule::Text));
    };
    let mut claims = Vec::new(alloc);
    match check_blocks(
        alloc,
        script,
        judged.items.as_slice(),
        &mut reader,
        &mut claims,
    )? {
        Some(fault) => Ok(rejected(fault.line, fault.rule)),
        None => Ok(Verdict::Accepted(claims)),
    }
}

// Checks the blocks of a reader that has read none.
fn check_blocks(
    alloc: Global,
    script: &[u8],
    items: &[Sexp],
    reader: &mut Blocks,
    claims: &mut Vec<Claim>,
) -> Result<Option<Fault>, Memory>
    requires within { all_within (length script.now) items.now ≡ true }
    requires free { refusal_in script.now items.now ≡ None }
    requires reading { IsUnderWay reader.old claims.old.items }
    ensures { IfOk result (λ o. Finds (problems_of script.now items.now) reader.old claims.old.items o claims.new.items) }
{
    let mut scopes = Scopes::new(alloc);
    check_items(alloc, &mut scopes, script, items, reader, claims)
}

fn rejected(line: u64, rule: Rule) -> Verdict
    ensures { result ≡ Verdict.Rejected line rule }
{
    Verdict::Rejected { line, rule }
}

/// Checks a text, any bytes, as a certificate for a script, any bytes: it is accepted exactly where it is good for the script,
/// and else rejected at its first fault. Each claim of an accepted one holds, of the assertions in force at its `check-sat`, over
/// all interpretations. A script with a refusal has no certificate.
pub fn check(alloc: Global, script: &[u8], cert: &[u8]) -> Result<Verdict, CheckFail>
    ensures { Checks script.now cert.now result }
{
    let judged = match judge(alloc, script) {
        Ok(judged) => judged,
        Err(fail) => return Err(fail),
    };
    match check_text(alloc, script, &judged, cert) {
        Ok(verdict) => Ok(verdict),
        Err(_) => Err(CheckFail::Memory),
    }
}
