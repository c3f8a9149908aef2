ghost use Rattle.std.specs.Prelude.{◌≡◌, IfOk, codes, decimal, ◌++◌, OnOk};
ghost use Rattle.fm_cert.specs.Spelling.{line_feed};
ghost use Rattle.fm_session.specs.Replies.{word_of as word_of_claim, refusal_reply, reason_of, spent_of, counts_of, success_where};

use crate::budget::Budget;
use fm_base::Refusal;
use fm_cert::Claim;
use itoa::Buffer;
use std::alloc::{AllocError, Global};

/// The reply to a `check-sat` whose block ends with this claim.
pub fn word_of(claim: &Claim) -> &'static [u8]
    ensures { result.now ≡ word_of_claim claim.now }
{
    match claim {
        Claim::Unsat => b"unsat\n".as_slice(),
        Claim::Sat { .. } => b"sat\n".as_slice(),
        Claim::Unknown { .. } => b"unknown\n".as_slice(),
    }
}

/// A line of its own.
pub fn line(alloc: Global, text: &[u8]) -> Result<Vec<u8>, AllocError>
    ensures { IfOk result (λ v. v.items ≡ text.now ++ line_feed) }
{
    let mut reply = Vec::from_slice(alloc, text)?;
    reply.extend_from_slice(b"\n")?;
    Ok(reply)
}

/// `success`, where it is printed.
pub fn success(alloc: Global, printed: bool) -> Result<Vec<u8>, AllocError>
    ensures { IfOk result (λ v. v.items ≡ success_where printed) }
{
    if printed {
        let reply = line(alloc, b"success")?;
        Ok(reply)
    } else {
        Ok(Vec::new(alloc))
    }
}

/// Why the last `check-sat` was answered `unknown`, while that stands.
pub fn reason(
    alloc: Global,
    budget: Budget,
    standing: &Option<Claim>,
) -> Result<Vec<u8>, AllocError>
    ensures { IfOk result (λ v. v.items ≡ reason_of budget standing.now) }
{
    match standing {
        Some(
            Claim::Unknown {
                instances,
                decisions,
            },
        ) => spent(alloc, budget, *instances, *decisions),
        _ => line(alloc, b"unsupported"),
    }
}

#[tactic(auto, unfolding(crate::specs::Replies::spent_of))]
fn spent(
    alloc: Global,
    budget: Budget,
    instances: u64,
    decisions: u64,
) -> Result<Vec<u8>, AllocError>
    ensures { IfOk result (λ v. v.items ≡ spent_of budget instances decisions) }
{
    let mut line = Vec::new(alloc);
    line.extend_from_slice(b"(:reason-unknown (budget (instances ")?;
    push_counts(&mut line, instances, budget.instances)?;
    line.extend_from_slice(b") (decisions ")?;
    push_counts(&mut line, decisions, budget.decisions)?;
    line.extend_from_slice(b")))\n")?;
    Ok(line)
}

/// The reply to a refusal.
#[tactic(auto, unfolding(crate::specs::Replies::refusal_reply))]
pub fn error_line(alloc: Global, refusal: Refusal) -> Result<Vec<u8>, AllocError>
    ensures { IfOk result (λ v. v.items ≡ refusal_reply refusal) }
{
    let mut line = Vec::new(alloc);
    line.extend_from_slice(b"(error \"")?;
    push_number(&mut line, refusal.reason.number())?;
    line.extend_from_slice(b" at ")?;
    push_number(&mut line, refusal.at.line)?;
    line.extend_from_slice(b":")?;
    push_number(&mut line, refusal.at.column)?;
    line.extend_from_slice(b": ")?;
    line.extend_from_slice(refusal.reason.text().as_bytes())?;
    line.extend_from_slice(b"\")\n")?;
    Ok(line)
}

fn push_counts(line: &mut Vec<u8>, spent: u64, most: u64) -> Result<(), AllocError>
    ensures { OnOk result (line.new.items ≡ line.old.items ++ counts_of spent most) }
{
    push_number(line, spent)?;
    line.extend_from_slice(b" ")?;
    push_number(line, most)
}

fn push_number(line: &mut Vec<u8>, number: u64) -> Result<(), AllocError>
    ensures { OnOk result (line.new.items ≡ line.old.items ++ decimal number) }
{
    let mut buffer = Buffer::new();
    line.extend_from_slice(buffer.format(number).as_bytes())
}
