ghost use Rattle.std.specs.Prelude.{◌≡◌, ◌++◌, ◌+◌, ◌<◌, ◌^◌, ℕ, List, length, Err, IfOk, IfSome, IfNone, codes};
ghost use Rattle.std.specs.Str.{bytes_eq};
ghost use Rattle.fm_cert.specs.Reading.{IsFirstBlock, LeavesFrom};
ghost use Rattle.fm_cert.specs.Rows.{HasNoRow, IsFirstRow};
ghost use Rattle.fm_cert.specs.Spelling.{header};
ghost use Rattle.fm_cert.specs.declared.fail.CertFail.TheVariants as fail;
ghost use Rattle.fm_cert.specs.declared.fail.CertText.{CertText as TheText};

use crate::block::Block;
use crate::fail::{CertFail, outside};
use crate::parts::{cut, parts_of, row_of};
use crate::reading::Reading;
use crate::row::Row;
use std::alloc::{AllocError, Global};

// The line at the front of a text, and what stands behind it.
pub(crate) fn next_row(alloc: Global, text: &[u8]) -> Result<Option<(Row, &[u8])>, AllocError>
    ensures found { IfOk result (λ o. IfSome o (λ p. IsFirstRow text.now p.0 p.1.now)) }
    ensures shorter { IfOk result (λ o. IfSome o (λ p. length p.1.now < length text.now)) }
    ensures none { IfOk result (λ o. IfNone o (HasNoRow text.now)) }
{
    let Some((line, more)) = cut(text, b'\n') else {
        return Ok(None);
    };
    let parts = parts_of(alloc, line)?;
    match row_of(alloc, parts.as_slice())? {
        Some(row) => Ok(Some((row, more))),
        None => Ok(None),
    }
}

fn is_header(line: &[u8]) -> bool
    ensures { result ≡ bytes_eq line.now (codes "fmfcert 1") }
{
    line == b"fmfcert 1".as_slice()
}

// What stands behind the header.
pub(crate) fn behind_header(text: &[u8]) -> Option<&[u8]>
    ensures some { IfSome result (λ rest. text.now ≡ header ++ rest.now) }
    ensures none { IfNone result ((more : List ℕ) → text.now ≡ header ++ more → ⊥) }
{
    match cut(text, b'\n') {
        None => None,
        Some((line, rest)) => { if is_header(line) { Some(rest) } else { None } }
    }
}

// The block at the front of a text whose first line has the number `from`, what stands behind it, and the number of the
// line there. Else the first line that is outside the grammar.
pub(crate) fn take_block(
    alloc: Global,
    text: &[u8],
    from: u64,
) -> Result<(Block, &[u8], u64), CertFail>
    requires some { 0 < length text.now }
    requires room { from + length text.now < 2 ^ 64 }
    ensures block { IfOk result (λ p. IsFirstBlock text.now from p.0 p.1.now p.2) }
    ensures fault { (at : TheText) → result ≡ Err (fail.Text at) → LeavesFrom text.now from at.line }
{
    let Some((row, behind)) = next_row(alloc, text)? else {
        return Err(outside(from));
    };
    let Some(mut reading) = Reading::begin(alloc, row) else {
        return Err(outside(from));
    };
    let mut rest = behind;
    let mut line = from + 1;
    while !reading.ends_at(rest) {
        let Some((row, more)) = next_row(alloc, rest)? else {
            return Err(outside(line));
        };
        if !reading.add(alloc, row)? {
            return Err(outside(line));
        }
        rest = more;
        line += 1;
    }
    let block = reading.block()?;
    Ok((block, rest, line))
}
