ghost use Rattle.std.specs.Prelude.{◌≡◌, ◌≢◌, ℕ, List, ◌≤◌, ◌⊎◌, [], false, true, length, OnOk, OnErr, IsOk};
ghost use Rattle.fm_files.specs.Seen.{Seen, SameByName, OnlyWrites, NoFault, HasRoom};
ghost use Rattle.fm_sexp.specs.Items.{all_within};
ghost use Rattle.fm_cert.specs.Spelling.{header};
ghost use Rattle.fmf.specs.Reached.{Answers};
ghost use Rattle.fmf.specs.Filing.{Stands, StandsPart, Puts, PutsPart, CountsRose, UsesRoom};
ghost use Rattle.fmf.specs.Solved.{Refused, Answered};
ghost use Rattle.fmf.specs.Words.{dash};

use crate::status::Status;
use crate::words::DASH;
use fm_base::{Fail, Refusal};
use fm_cert::header_line;
use fm_files::{Failed, Files, write_all_of};
use fm_session::{Budget, Session, error_line};
use fm_sexp::Sexp;
use std::alloc::Global;

/// Answers the commands of a text, one after another, up to `exit` or to the first that is refused: the block of each goes
/// to the certificate's file and its reply to the output.
pub fn answer_all<F: Files>(
    alloc: Global,
    text: &[u8],
    items: &[Sexp],
    cert: &str,
    budget: Budget,
    files: &mut F,
) -> Status
    requires within { all_within (length text.now) items.now ≡ true }
    requires apart { cert.now ≢ dash }
    ensures wrote { Answered (record { budget = budget; text = text.now; items = items.now }) cert.now (F.seen files.old) (F.seen files.new) result }
    ensures leaves { OnlyWrites (F.seen files.old) (F.seen files.new) }
    ensures cause { result ≡ Status.WriteFault → CountsRose cert.now (F.seen files.old) (F.seen files.new) }
{
    match open(cert, files) {
        Ok(()) => {}
        Err(_) => return Status::WriteFault,
    }
    let mut session = Session::new(alloc, budget);
    answer_items(alloc, text, items, cert, &mut session, files)
}

// The same, where the certificate's file has its header and the session has begun.
fn answer_items<'a, F: Files>(
    alloc: Global,
    text: &'a [u8],
    items: &'a [Sexp],
    cert: &str,
    session: &mut Session<'a>,
    files: &mut F,
) -> Status
    requires within { all_within (length text.now) items.now ≡ true }
    requires apart { cert.now ≢ dash }
    requires goes_on { session.old.ended ≡ false }
    requires none { session.old.checks ≡ 0 }
    ensures wrote { Answers session.old text.now items.now cert.now (F.seen files.old) (F.seen files.new) result }
    ensures leaves { OnlyWrites (F.seen files.old) (F.seen files.new) }
    ensures cause { result ≡ Status.WriteFault → CountsRose cert.now (F.seen files.old) (F.seen files.new) }
{
    for item in items {
        let step = match session.step(alloc, text, item) {
            Ok(step) => step,
            Err(Fail::Refused(refusal)) => return refuse(alloc, refusal, files),
            Err(Fail::Memory) => return Status::Memory,
        };
        match put(cert, files, step.block.as_slice(), step.reply.as_slice()) {
            Ok(()) => {}
            Err(_) => return Status::WriteFault,
        }
        if step.ended {
            return Status::Done;
        }
    }
    Status::Done
}

/// Writes the reply to a refusal. Nothing else is written.
pub fn refuse<F: Files>(alloc: Global, refusal: Refusal, files: &mut F) -> Status
    ensures wrote { Refused refusal (F.seen files.old) (F.seen files.new) result }
    ensures leaves { OnlyWrites (F.seen files.old) (F.seen files.new) }
    ensures cause { (cert : List ℕ) → result ≡ Status.WriteFault → CountsRose cert (F.seen files.old) (F.seen files.new) }
{
    let reply = match error_line(alloc, refusal) {
        Ok(reply) => reply,
        Err(_) => return Status::Memory,
    };
    match write_all_of(files, DASH, reply.as_slice()) {
        Ok(()) => Status::Script,
        Err(_) => Status::WriteFault,
    }
}

// Makes the certificate's file anew, with its header.
fn open<F: Files>(cert: &str, files: &mut F) -> Result<(), Failed>
    requires { cert.now ≢ dash }
    ensures done { OnOk result (Stands cert.now (F.seen files.old).written (F.seen files.new).written header []) }
    ensures part { OnErr result (SameByName (F.seen files.old).written (F.seen files.new).written ⊎ StandsPart cert.now (F.seen files.old).written (F.seen files.new).written [] [] header []) }
    ensures leaves { OnlyWrites (F.seen files.old) (F.seen files.new) }
    ensures cause { OnErr result (CountsRose cert.now (F.seen files.old) (F.seen files.new)) }
    ensures never { (n : ℕ) → HasRoom ((F.seen files.old).room cert.now) n → length header ≤ n → IsOk result × UsesRoom cert.now (F.seen files.old) (F.seen files.new) 0 (length header) }
{
    match files.begin(cert) {
        Ok(()) => {}
        Err(error) => return Err(error),
    }
    write_all_of(files, cert, header_line())
}

// Adds a block to the certificate's file, and then a reply to the output.
fn put<F: Files>(cert: &str, files: &mut F, block: &[u8], reply: &[u8]) -> Result<(), Failed>
    requires { cert.now ≢ dash }
    ensures done { OnOk result (Puts cert.now (F.seen files.old).written (F.seen files.new).written block.now reply.now) }
    ensures part { OnErr result (PutsPart cert.now (F.seen files.old).written (F.seen files.new).written block.now reply.now) }
    ensures leaves { OnlyWrites (F.seen files.old) (F.seen files.new) }
    ensures cause { OnErr result (CountsRose cert.now (F.seen files.old) (F.seen files.new)) }
    ensures never { HasRoom ((F.seen files.old).room dash) (length reply.now) → HasRoom ((F.seen files.old).room cert.now) (length block.now) → IsOk result × UsesRoom cert.now (F.seen files.old) (F.seen files.new) (length reply.now) (length block.now) }
{
    write_all_of(files, cert, block)?;
    write_all_of(files, DASH, reply)
}
