ghost use Rattle.std.specs.Prelude.{◌≡◌, ◌≢◌, ◌↔◌, IsTrue, ◌++◌, ◌∷◌, [], ◌<◌, length, Err, IfOk, IfSome, IfNone, OnErr, OnOk};
ghost use Rattle.fm_cert.specs.Blockwise.{IsAt, IsCertificate, IsNext, IsWhole, StopsAt};
ghost use Rattle.fm_cert.specs.Reading.{GoesOn, IsBehindHeader, LeavesBehind, ReadsAll, StopsBehind};
ghost use Rattle.fm_cert.specs.Fits.{AreSpelled, FitsBlock};
ghost use Rattle.fm_cert.specs.Outside.{IsOutside};
ghost use Rattle.fm_cert.specs.Spelling.{spelling_of_certificate};
ghost use Rattle.fm_cert.specs.declared.fail.CertFail.TheVariants as fail;
ghost use Rattle.fm_cert.specs.declared.fail.CertText.{CertText as TheText};

use crate::block::Block;
use crate::fail::{CertFail, outside};
use crate::reader::{behind_header, next_row, take_block};
use crate::row::{Next, place_after};
use std::alloc::{AllocError, Global};
use std::marker::Model;

/// The blocks of a certificate's text, one after another. No more than one block is held at a time, by the caller.
#[derive(Drop)]
pub struct Blocks<'a> {
    rest: &'a [u8],
    line: u64,
}

impl<'a> Model for Blocks<'a> {
    ghost use Rattle.fm_cert.specs.Blockwise.{Left};

    ghost Value = { Left };

    ghost use Rattle.std.specs.Prelude.{◌+◌, ◌<◌, ◌^◌, length};

    ghost view = { λ b. record { rest = b.rest.now; line = b.line } };

    ghost invariant = { λ b. b.line + length b.rest.now < 2 ^ 64 };
}

impl<'a> Blocks<'a> {
    /// The reader before the first block, if the text has the header.
    pub fn of(text: &'a [u8]) -> Option<Blocks<'a>>
        ensures some { IfSome result (λ b. IsAt text.now [] b) }
        ensures none { IfNone result (IsOutside text.now 1) }
    {
        match behind_header(text) {
            Some(rest) => Some(Blocks { rest, line: 2 }),
            None => None,
        }
    }

    /// The number of the line at which the next block begins, or of the one behind the last line.
    pub fn line(&self) -> u64
        ensures { result ≡ self.now.line }
    {
        self.line
    }

    /// Whether nothing is left.
    pub fn is_done(&self) -> bool
        ensures { IsTrue result ↔ (self.now.rest ≡ []) }
    {
        self.rest.is_empty()
    }

    /// The next block, if there is one. Else the first line of the text that is outside the grammar, which doesn't come
    /// in a text in which `first_outside` finds none. After a failure the reader stands where it stood.
    pub fn next(&mut self, alloc: Global) -> Result<Option<Block>, CertFail>
        ensures fits { IfOk result (λ o. IfSome o (λ b. FitsBlock b)) }
        ensures block { IfOk result (λ o. IfSome o (λ b. IsNext self.old b self.new)) }
        ensures whole { IfOk result (λ o. IfNone o (IsWhole self.old)) }
        ensures fault { (at : TheText) → result ≡ Err (fail.Text at) → StopsAt self.old at.line }
        ensures shorter { IfOk result (λ o. IfSome o (λ b. length self.new.rest < length self.old.rest)) }
        ensures done { IfOk result (λ o. IfNone o (self.old.rest ≡ [])) }
        ensures kept { OnErr result (self.new ≡ self.old) }
    {
        if self.rest.is_empty() {
            return Ok(None);
        }
        match take_block(alloc, self.rest, self.line) {
            Ok((block, rest, line)) => {
                self.rest = rest;
                self.line = line;
                Ok(Some(block))
            }
            Err(fail) => Err(fail),
        }
    }
}

/// The blocks that a text spells. Else the first line that is outside the grammar.
pub fn read(alloc: Global, bytes: &[u8]) -> Result<Vec<Block>, CertFail>
    ensures whole { IfOk result (λ v. bytes.now ≡ spelling_of_certificate v.items) }
    ensures fits { IfOk result (λ v. AreSpelled v.items) }
    ensures text { (at : TheText) → result ≡ Err (fail.Text at) → IsOutside bytes.now at.line }
{
    let Some(mut reader) = Blocks::of(bytes) else {
        return Err(outside(1));
    };
    let mut blocks = Vec::new(alloc);
    match read_all(alloc, &mut reader, &mut blocks) {
        Ok(()) => Ok(blocks),
        Err(fail) => Err(fail),
    }
}

// The blocks that are left, behind those that were read.
fn read_all(alloc: Global, reader: &mut Blocks, blocks: &mut Vec<Block>) -> Result<(), CertFail>
    ensures whole { OnOk result (ReadsAll reader.old blocks.old.items blocks.new.items) }
    ensures fault { (at : TheText) → result ≡ Err (fail.Text at) → StopsBehind reader.old blocks.old.items at.line }
{
    while !reader.is_done() {
        if let Err(fail) = read_one(alloc, reader, blocks) {
            return Err(fail);
        }
    }
    Ok(())
}

// One block more, where something is left.
fn read_one(alloc: Global, reader: &mut Blocks, blocks: &mut Vec<Block>) -> Result<(), CertFail>
    requires { reader.old.rest ≢ [] }
    ensures block { OnOk result (GoesOn reader.old blocks.old.items reader.new blocks.new.items) }
    ensures shorter { OnOk result (length reader.new.rest < length reader.old.rest) }
    ensures fault { (at : TheText) → result ≡ Err (fail.Text at) → StopsAt reader.old at.line }
{
    match reader.next(alloc) {
        Ok(found) => match found {
            Some(block) => {
                keep(blocks, block)?;
                Ok(())
            }
            None => Ok(()),
        },
        Err(fail) => Err(fail),
    }
}

fn keep(blocks: &mut Vec<Block>, block: Block) -> Result<(), AllocError>
    ensures { OnOk result (blocks.new.items ≡ blocks.old.items ++ block ∷ []) }
{
    blocks.push(block)?;
    Ok(())
}

/// The first line of a text that is outside the grammar, or None where some blocks spell the text. It keeps nothing but
/// one line at a time.
pub fn first_outside(alloc: Global, bytes: &[u8]) -> Result<Option<u64>, AllocError>
    ensures outside { IfOk result (λ o. IfSome o (λ line. IsOutside bytes.now line)) }
    ensures inside { IfOk result (λ o. IfNone o (IsCertificate bytes.now)) }
{
    match behind_header(bytes) {
        Some(behind) => scan(alloc, behind),
        None => Ok(Some(1)),
    }
}

// The same, from behind the header on.
fn scan(alloc: Global, behind: &[u8]) -> Result<Option<u64>, AllocError>
    ensures outside { IfOk result (λ o. IfSome o (λ line. LeavesBehind behind.now line)) }
    ensures inside { IfOk result (λ o. IfNone o (IsBehindHeader behind.now)) }
{
    let mut rest = behind;
    let mut line: u64 = 2;
    let mut place = Next::Blocks;
    while !rest.is_empty() {
        let Some((row, more)) = next_row(alloc, rest)? else {
            return Ok(Some(line));
        };
        let Some(next) = place_after(place, row) else {
            return Ok(Some(line));
        };
        place = next;
        rest = more;
        line += 1;
    }
    if place.may_end() {
        return Ok(None);
    }
    Ok(Some(line))
}
