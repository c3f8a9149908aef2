ghost use Rattle.std.specs.Prelude.{◌≡◌, ◌≢◌};
ghost use Rattle.fm_files.specs.Seen.{OnlyWrites};
ghost use Rattle.fmf.specs.Asked.{request_in};
ghost use Rattle.fmf.specs.Filing.{CountsRose};
ghost use Rattle.fmf.specs.Solved.{Wrote, Solved, at_start as at_start_of, HasCauses};
ghost use Rattle.fmf.specs.Words.{dash};

use crate::answers::{answer_all, refuse};
use crate::status::Status;
use crate::words::Request;
use fm_base::{Fail, Place, Reason, Refusal};
use fm_files::{Files, ReadError, read_all};
use fm_session::Budget;
use fm_sexp::read_sexps;
use std::alloc::Global;

/// The longest script, in bytes.
pub const LONGEST_SCRIPT: usize = 16_777_216;

/// A refusal that stands for the whole text.
pub fn at_start(reason: Reason) -> Refusal
    ensures { result ≡ at_start_of reason }
{
    let at = Place { line: 1, column: 1 };
    Refusal { reason, at }
}

/// Reads the script and answers it: the replies go to `-` and the evidence to the certificate's file, which is made anew. A script
/// that is too long or doesn't read as items is refused, and then that file isn't touched; else its commands are answered up to
/// `exit` or to the first one that is refused.
pub fn solve<F: Files>(alloc: Global, asked: Request, files: &mut F) -> Status
    requires apart { asked.cert.now ≢ dash }
    ensures used { result ≢ Status.Usage }
    ensures solved { Solved (request_in asked.entry) (F.seen files.old) (F.seen files.new) result }
    ensures causes { HasCauses (request_in asked.entry) (F.seen files.old) (F.seen files.new) result }
{
    match read_all(alloc, files, asked.script, LONGEST_SCRIPT) {
        Ok(text) => answer_text(alloc, text.as_slice(), asked.cert, asked.budget, files),
        Err(ReadError::TooLong) => refuse(alloc, at_start(Reason::TooLong), files),
        Err(ReadError::Fault) => Status::ReadFault,
        Err(ReadError::Memory) => Status::Memory,
    }
}

// Answers a whole text.
fn answer_text<F: Files>(
    alloc: Global,
    text: &[u8],
    cert: &str,
    budget: Budget,
    files: &mut F,
) -> Status
    requires apart { cert.now ≢ dash }
    ensures used { (result ≢ Status.Usage) × (result ≢ Status.ReadFault) }
    ensures wrote { Wrote budget text.now cert.now (F.seen files.old) (F.seen files.new) result }
    ensures leaves { OnlyWrites (F.seen files.old) (F.seen files.new) }
    ensures cause { result ≡ Status.WriteFault → CountsRose cert.now (F.seen files.old) (F.seen files.new) }
{
    match read_sexps(alloc, text) {
        Ok(items) => answer_all(alloc, text, items.as_slice(), cert, budget, files),
        Err(Fail::Refused(refusal)) => refuse(alloc, refusal, files),
        Err(Fail::Memory) => Status::Memory,
    }
}
