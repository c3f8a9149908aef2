ghost use Rattle.std.specs.Prelude.{◌≡◌, ◌≢◌, ◌⊎◌, length};
ghost use Rattle.fm_files.specs.Seen.{OnlyWrites, ReadsRose};
ghost use Rattle.fm_check.specs.Scripts.{IsAccepted, problems_of};
ghost use Rattle.fmf.specs.Asked.{inquiry_in};
ghost use Rattle.fmf.specs.Checked.{CertIsChecked, Checked, HasCheckCauses, IsWant, ScriptIsJudged, Tells, TellsVerdict, WritesRose, long_text, status_of as status_of_verdict};
ghost use Rattle.fmf.specs.Words.{dash};

use crate::answers::refuse;
use crate::solve::{LONGEST_SCRIPT, at_start};
use crate::status::Status;
use crate::words::{DASH, Inquiry};
use fm_base::Reason;
use fm_check::{CheckFail, Judged, Verdict, check_text, judge, rejected_line, verdict_lines};
use fm_files::{Files, ReadError, read_all, write_all_of};
use std::alloc::Global;

/// The longest certificate, in bytes.
pub const LONGEST_CERT: usize = 1_073_741_824;

/// Reads the script and judges it, then reads the certificate and checks it.
pub fn check<F: Files>(alloc: Global, asked: Inquiry, files: &mut F) -> Status
    requires apart { asked.script.now ≢ asked.cert.now }
    ensures used { result ≢ Status.Usage }
    ensures checked { Checked (inquiry_in asked.entry) (F.seen files.old) (F.seen files.new) result }
    ensures causes { HasCheckCauses (inquiry_in asked.entry) (F.seen files.old) (F.seen files.new) result }
{
    match read_all(alloc, files, asked.script, LONGEST_SCRIPT) {
        Ok(text) => check_script(alloc, text.as_slice(), asked.cert, files),
        Err(ReadError::TooLong) => refuse(alloc, at_start(Reason::TooLong), files),
        Err(ReadError::Fault) => Status::ReadFault,
        Err(ReadError::Memory) => Status::Memory,
    }
}

// Judges a script, and then checks a certificate for it.
fn check_script<F: Files>(alloc: Global, script: &[u8], cert: &str, files: &mut F) -> Status
    ensures used { result ≢ Status.Usage }
    ensures judged { ScriptIsJudged cert.now script.now (F.seen files.old) (F.seen files.new) result }
    ensures reading { result ≡ Status.ReadFault → ReadsRose (F.seen files.old) (F.seen files.new) cert.now }
    ensures writing { result ≡ Status.WriteFault → WritesRose (F.seen files.old) (F.seen files.new) dash }
{
    match judge(alloc, script) {
        Ok(judged) => check_cert(alloc, script, &judged, cert, files),
        Err(CheckFail::Script(refusal)) => refuse(alloc, refusal, files),
        Err(CheckFail::Memory) => Status::Memory,
    }
}

// Reads a certificate, and checks it for a script that was judged.
fn check_cert<F: Files>(
    alloc: Global,
    script: &[u8],
    judged: &Judged,
    cert: &str,
    files: &mut F,
) -> Status
    requires accepted { IsAccepted script.now judged.now.items }
    requires checks { judged.now.checks ≡ length (problems_of script.now judged.now.items) }
    ensures used { result ≢ Status.Usage }
    ensures checked { CertIsChecked cert.now script.now judged.now.items (F.seen files.old) (F.seen files.new) result }
    ensures reading { result ≡ Status.ReadFault → ReadsRose (F.seen files.old) (F.seen files.new) cert.now }
    ensures writing { result ≡ Status.WriteFault → WritesRose (F.seen files.old) (F.seen files.new) dash }
{
    match read_all(alloc, files, cert, LONGEST_CERT) {
        Ok(text) => tell_verdict(alloc, script, judged, text.as_slice(), files),
        Err(ReadError::TooLong) => tell_long(alloc, files),
        Err(ReadError::Fault) => Status::ReadFault,
        Err(ReadError::Memory) => Status::Memory,
    }
}

// Checks a certificate's text, and writes the verdict.
fn tell_verdict<F: Files>(
    alloc: Global,
    script: &[u8],
    judged: &Judged,
    cert: &[u8],
    files: &mut F,
) -> Status
    requires accepted { IsAccepted script.now judged.now.items }
    requires checks { judged.now.checks ≡ length (problems_of script.now judged.now.items) }
    ensures used { (result ≢ Status.Usage) × (result ≢ Status.ReadFault) }
    ensures told { TellsVerdict script.now judged.now.items cert.now (F.seen files.old) (F.seen files.new) result
        ⊎ IsWant (F.seen files.old) (F.seen files.new) result }
    ensures leaves { OnlyWrites (F.seen files.old) (F.seen files.new) }
    ensures writing { result ≡ Status.WriteFault → WritesRose (F.seen files.old) (F.seen files.new) dash }
{
    let Ok(verdict) = check_text(alloc, script, judged, cert) else {
        return Status::Memory;
    };
    let Ok(text) = verdict_lines(alloc, &verdict, judged.checks) else {
        return Status::Memory;
    };
    tell(files, text.as_slice(), status_of(&verdict))
}

fn status_of(verdict: &Verdict) -> Status
    ensures { result ≡ status_of_verdict verdict.now }
{
    match verdict {
        Verdict::Accepted(_) => Status::Done,
        Verdict::Rejected { .. } => Status::Rejected,
    }
}

// Writes that a certificate is too long.
fn tell_long<F: Files>(alloc: Global, files: &mut F) -> Status
    ensures used { (result ≢ Status.Usage) × (result ≢ Status.ReadFault) }
    ensures told { Tells long_text Status.Rejected (F.seen files.old) (F.seen files.new) result
        ⊎ IsWant (F.seen files.old) (F.seen files.new) result }
    ensures leaves { OnlyWrites (F.seen files.old) (F.seen files.new) }
    ensures writing { result ≡ Status.WriteFault → WritesRose (F.seen files.old) (F.seen files.new) dash }
{
    let Ok(text) = rejected_line(alloc, 0, b"long") else {
        return Status::Memory;
    };
    tell(files, text.as_slice(), Status::Rejected)
}

// Writes a text, after which the status is this.
fn tell<F: Files>(files: &mut F, text: &[u8], good: Status) -> Status
    ensures told { Tells text.now good (F.seen files.old) (F.seen files.new) result }
    ensures leaves { OnlyWrites (F.seen files.old) (F.seen files.new) }
    ensures writing { result ≡ Status.WriteFault → (good ≡ Status.WriteFault) ⊎ WritesRose (F.seen files.old) (F.seen files.new) dash }
{
    match write_all_of(files, DASH, text) {
        Ok(()) => good,
        Err(_) => Status::WriteFault,
    }
}
