//! `fmf`, a finite model finder for SMT-LIB scripts.
//!
//! `fmf solve SCRIPT` writes a reply for each `check-sat` to standard output, and the evidence for each to the file
//! `fmf.cert`. `fmf check SCRIPT CERT` checks such evidence, whoever made it.
#![tactic(auto)]

ghost use Rattle.std.specs.Prelude.{◌≡◌};
ghost use Rattle.std.specs.Process.{exit_status};
ghost use Rattle.fmf.specs.Statuses.{exit_code};

mod answers;
mod check;
mod command;
mod solve;
mod status;
#[cfg(test)]
mod tests;
mod words;

use crate::command::run;
use crate::status::Status;
use fm_files::RealFiles;
use std::io::ErrorKind;
use std::process::ExitCode;
use std::rt::Env;
use std::{env, fs, io};

fn main(rt: HostRuntime) -> ExitCode {
    // The descriptors of standard streams that the caller closed are taken here and kept, so that no file gets one of
    // them and is written to as a stream. A closed output then fails, and a closed input is empty.
    let _first = fs::open(&rt, "/dev/null");
    let _second = fs::open(&rt, "/dev/null");
    let _third = fs::open(&rt, "/dev/null");
    let status = match words_of(&rt) {
        Ok(words) => {
            let mut files = RealFiles::new(rt);
            run(rt.alloc(), words.as_slice(), &mut files)
        }
        Err(error) if error.kind() == ErrorKind::OutOfMemory => Status::Memory,
        Err(_) => Status::Usage,
    };
    if let Some(message) = status.message() {
        let _ = eprintln!(rt; "{message}");
    }
    exit_with(status)
}

// The exit code of the program for a status.
fn exit_with(status: Status) -> ExitCode
    ensures { exit_status result ≡ exit_code status }
{
    ExitCode::from(status.code())
}

// The words of the command line behind the program's name. Words that aren't UTF-8 are an error.
fn words_of(rt: &(impl Env + AllocGlobal)) -> io::Result<Vec<String>> {
    let mut words = Vec::new(rt.alloc());
    for word in env::args(rt)?.skip(1) {
        words.push(word)?;
    }
    Ok(words)
}
