ghost use Rattle.std.specs.Prelude.{◌≡◌, ◌++◌, IfOk, OnOk, decimal, length};
ghost use Rattle.fm_check.specs.Printed.{accepted_text, claim_line, claim_lines, claim_text, counts_line, rejected_text, rule_text, verdict_text};

use crate::verdict::Verdict;
use fm_blocks::Rule;
use fm_cert::Claim;
use itoa::Buffer;
use std::alloc::{AllocError, Global};

/// The lines that tell a verdict, with so many `check-sat` commands before `exit`.
pub fn verdict_lines(alloc: Global, verdict: &Verdict, checks: u64) -> Result<Vec<u8>, AllocError>
    ensures { IfOk result (λ v. v.items ≡ verdict_text checks verdict.now) }
{
    match verdict {
        Verdict::Accepted(claims) => accepted_lines(alloc, claims.as_slice(), checks),
        Verdict::Rejected { line, rule } => rejected_line(alloc, *line, name_of(*rule)),
    }
}

/// The line that rejects a certificate, at this line of it and by this rule.
#[tactic(auto, unfolding(crate::specs::Printed::rejected_text))]
pub fn rejected_line(alloc: Global, line: u64, rule: &[u8]) -> Result<Vec<u8>, AllocError>
    ensures { IfOk result (λ v. v.items ≡ rejected_text line rule.now) }
{
    let mut text = Vec::new(alloc);
    text.extend_from_slice(b"rejected line ")?;
    push_number(&mut text, line)?;
    text.extend_from_slice(b" rule ")?;
    text.extend_from_slice(rule)?;
    text.extend_from_slice(b"\n")?;
    Ok(text)
}

fn accepted_lines(alloc: Global, claims: &[Claim], checks: u64) -> Result<Vec<u8>, AllocError>
    ensures { IfOk result (λ v. v.items ≡ accepted_text checks claims.now) }
{
    let mut text = Vec::new(alloc);
    push_claims(&mut text, claims)?;
    push_counts(&mut text, claims.len() as u64, checks)?;
    Ok(text)
}

fn push_claims(text: &mut Vec<u8>, claims: &[Claim]) -> Result<(), AllocError>
    ensures { OnOk result (text.new.items ≡ text.old.items ++ claim_lines 0 claims.now) }
{
    let mut number = 0;
    for claim in claims {
        push_claim(text, number, claim)?;
        number += 1;
    }
    Ok(())
}

#[tactic(auto, unfolding(crate::specs::Printed::counts_line))]
fn push_counts(text: &mut Vec<u8>, blocks: u64, checks: u64) -> Result<(), AllocError>
    ensures { OnOk result (text.new.items ≡ text.old.items ++ counts_line blocks checks) }
{
    text.extend_from_slice(b"accepted ")?;
    push_number(text, blocks)?;
    text.extend_from_slice(b" of ")?;
    push_number(text, checks)?;
    text.extend_from_slice(b"\n")?;
    Ok(())
}

#[tactic(auto, unfolding(crate::specs::Printed::claim_line))]
fn push_claim(text: &mut Vec<u8>, number: u64, claim: &Claim) -> Result<(), AllocError>
    ensures { OnOk result (text.new.items ≡ text.old.items ++ claim_line number claim.now) }
{
    text.extend_from_slice(b"block ")?;
    push_number(text, number)?;
    push_ending(text, claim)?;
    text.extend_from_slice(b"\n")?;
    Ok(())
}

#[tactic(auto, unfolding(crate::specs::Printed::claim_text))]
fn push_ending(text: &mut Vec<u8>, claim: &Claim) -> Result<(), AllocError>
    ensures { OnOk result (text.new.items ≡ text.old.items ++ claim_text claim.now) }
{
    match claim {
        Claim::Unsat => text.extend_from_slice(b" unsat")?,
        Claim::Sat { sum, model: _ } => {
            text.extend_from_slice(b" sat ")?;
            push_number(text, *sum)?;
        }
        Claim::Unknown {
            instances,
            decisions,
        } => {
            text.extend_from_slice(b" unknown ")?;
            push_number(text, *instances)?;
            text.extend_from_slice(b" ")?;
            push_number(text, *decisions)?;
        }
    }
    Ok(())
}

fn push_number(text: &mut Vec<u8>, number: u64) -> Result<(), AllocError>
    ensures { OnOk result (text.new.items ≡ text.old.items ++ decimal number) }
{
    let mut buffer = Buffer::new();
    text.extend_from_slice(buffer.format(number).as_bytes())
}

fn name_of(rule: Rule) -> &'static [u8]
    ensures { result.now ≡ rule_text rule }
{
    match rule {
        Rule::Text => b"text".as_slice(),
        Rule::B => b"b".as_slice(),
        Rule::T => b"t".as_slice(),
        Rule::I => b"i".as_slice(),
        Rule::E => b"e".as_slice(),
        Rule::C => b"c".as_slice(),
        Rule::S => b"s".as_slice(),
        Rule::O => b"o".as_slice(),
        Rule::R => b"r".as_slice(),
        Rule::Q => b"q".as_slice(),
        Rule::M => b"m".as_slice(),
    }
}
