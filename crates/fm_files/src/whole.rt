ghost use Rattle.std.specs.Prelude.{◌≡◌, ◌≢◌, ◌+◌, ◌≤◌, ◌<◌, ◌^◌, IfOk, OnOk, OnErr, Err, length};
ghost use Rattle.fm_files.specs.Whole.{IsReadSurely};
ghost use Rattle.fm_files.specs.Seen.{ExtendsOf, ExtendsPartOf, HasWriteCause, NoFault, OnlyReads, ReadsAll, ReadsRose, TakesExactly, TakesOf, WritesAt, WritesSurely};
ghost use Rattle.fm_files.specs.declared.whole.ReadError.{ReadError};

use crate::files::{Failed, Files};
use std::alloc::{AllocError, Global};

/// Why a file was not read whole.
#[derive(Clone, Copy, Debug, PartialEq, Eq)]
pub enum ReadError {
    /// A read failed.
    Fault,
    /// More bytes than the limit.
    TooLong,
    /// Want of memory.
    Memory,
}

impl From<AllocError> for ReadError {
    ghost use Rattle.fm_files.specs.declared.whole.ReadError.TheVariants.{Memory};

    ghost from_gives = { λ _ e. e ≡ Memory };

    fn from(_error: AllocError) -> ReadError {
        ReadError::Memory
    }
}

/// Reads all that is left of the name, which may be `limit` bytes at most.
///
/// One byte past the limit is read before `TooLong` is answered, and no more. Whatever the answer, what was taken is a
/// front of what was left, and a fault ends the reading.
pub fn read_all<F: Files>(
    alloc: Global,
    files: &mut F,
    name: &str,
    limit: usize,
) -> Result<Vec<u8>, ReadError>
    requires { limit + 1 < 2 ^ 64 }
    ensures all { IfOk result (λ v. ReadsAll (F.seen files.old) (F.seen files.new) name.now v.items) }
    ensures fits { IfOk result (λ v. length v.items ≤ limit) }
    ensures long { result ≡ Err ReadError.TooLong → TakesExactly (F.seen files.old) (F.seen files.new) name.now (limit + 1) }
    ensures taken { TakesOf (F.seen files.old) (F.seen files.new) name.now (limit + 1) }
    ensures front { result ≡ Err ReadError.Fault → TakesOf (F.seen files.old) (F.seen files.new) name.now limit }
    ensures fault { result ≡ Err ReadError.Fault → ReadsRose (F.seen files.old) (F.seen files.new) name.now }
    ensures leaves { OnlyReads (F.seen files.old) (F.seen files.new) name.now }
    ensures quiet { result ≢ Err ReadError.Fault → NoFault (F.seen files.old) (F.seen files.new) }
    ensures never { IsReadSurely (F.seen files.old) (F.seen files.new) name.now result }
{
    let mut bytes = Vec::new(alloc);
    let mut chunk = [0u8; 4096];
    while bytes.len() <= limit {
        let wanted = (limit + 1 - bytes.len()).min(4096);
        let count = match files.read_next(name, &mut chunk[..wanted]) {
            Ok(count) => count,
            Err(_) => return Err(ReadError::Fault),
        };
        if count == 0 {
            return Ok(bytes);
        }
        bytes.extend_from_slice(&chunk[..count])?;
    }
    Err(ReadError::TooLong)
}

/// Appends all the bytes to the name, in as many pieces as the name takes them. It takes no memory.
pub fn write_all_of<F: Files>(files: &mut F, name: &str, bytes: &[u8]) -> Result<(), Failed>
    ensures ok { OnOk result (ExtendsOf (F.seen files.old) (F.seen files.new) name.now bytes.now) }
    ensures part { OnErr result (ExtendsPartOf (F.seen files.old) (F.seen files.new) name.now bytes.now) }
    ensures leaves { WritesAt (F.seen files.old) (F.seen files.new) name.now }
    ensures cause { HasWriteCause (F.seen files.old) (F.seen files.new) name.now result }
    ensures quiet { OnOk result (NoFault (F.seen files.old) (F.seen files.new)) }
    ensures never { WritesSurely (F.seen files.old) (F.seen files.new) name.now result bytes.now }
{
    let mut rest = bytes;
    while !rest.is_empty() {
        let count = match files.append(name, rest) {
            Ok(count) => count,
            Err(error) => return Err(error),
        };
        let (_, after) = rest.split_at(count);
        rest = after;
    }
    Ok(())
}
