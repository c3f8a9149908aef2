ghost use Rattle.std.specs.Prelude.{◌≡◌, ℕ, List, ◌<◌, length, IfOk, IfSome, vec_len};
ghost use Rattle.std.specs.Io.{ReadsAtMost, WritesAtMost};
ghost use Rattle.fm_files.specs.Outside.{counts_only};
ghost use Rattle.fm_files.specs.Seen.{HasNoCounts};

use crate::files::{Failed, Files};
use std::alloc::Global;
use std::fs::OpenOptions;
use std::io::{Input, Print, Read, Write};
use std::{fs, io};

/// A file that stays open from one call to the next.
#[derive(Drop)]
struct Open<F> {
    name: String,
    file: F,
}

/// The files of the system and its standard streams, by a runtime.
///
/// Nothing is told of bytes, no name has sure reading or a sure room, and the two counts, from 0, are those of
/// every name. A file is opened at its first read, by `begin`, or at the first append, and stays open.
#[derive(Drop)]
pub struct RealFiles<R: std::rt::Files + Input> {
    rt: R,
    input: R::Reader,
    readers: Vec<Open<R::File>>,
    writers: Vec<Open<R::File>>,
    read_faults: u64,
    write_faults: u64,
}

fn place_of<F>(files: &[Open<F>], name: &str) -> Option<usize>
    ensures { IfSome result (λ i. i < length files.now) }
{
    files.iter().position(|open| open.name.as_str() == name)
}

/// Keeps the file open under the name, and answers its place.
fn keep<F: Drop>(alloc: Global, files: &mut Vec<Open<F>>, name: &str, file: F) -> io::Result<usize>
    ensures { IfOk result (λ i. i < vec_len files.new) }
{
    let name = String::from_str(alloc, name)?;
    let place = files.len();
    files.push(Open { name, file })?;
    Ok(place)
}

impl<R: std::rt::Files + Input + Print + AllocGlobal> RealFiles<R> {
    /// No file is open yet, and both counts are 0.
    pub fn new(rt: R) -> RealFiles<R>
        ensures { HasNoCounts (⟦<RealFiles<R> as Files>⟧.seen result) }
    {
        let input = rt.reader();
        let readers = Vec::new(rt.alloc());
        let writers = Vec::new(rt.alloc());
        RealFiles {
            rt,
            input,
            readers,
            writers,
            read_faults: 0,
            write_faults: 0,
        }
    }

    fn read(&mut self, name: &str, into: &mut [u8]) -> io::Result<usize>
        ensures bound { ReadsAtMost result into.new }
        ensures counts { (self.new.read_faults ≡ self.old.read_faults) × (self.new.write_faults ≡ self.old.write_faults) }
    {
        if name == "-" {
            return self.input.read(into);
        }
        let place = match place_of(&self.readers, name) {
            Some(place) => place,
            None => {
                let file = fs::open(&self.rt, name)?;
                keep(self.rt.alloc(), &mut self.readers, name, file)?
            }
        };
        self.readers[place].file.read(into)
    }

    fn create(&mut self, name: &str) -> io::Result<()>
        ensures counts { (self.new.read_faults ≡ self.old.read_faults) × (self.new.write_faults ≡ self.old.write_faults) }
    {
        let file = fs::create(&self.rt, name)?;
        match place_of(&self.writers, name) {
            Some(place) => self.writers[place].file = file,
            None => {
                let _place = keep(self.rt.alloc(), &mut self.writers, name, file)?;
            }
        }
        Ok(())
    }

    fn write(&mut self, name: &str, piece: &[u8]) -> io::Result<usize>
        ensures bound { WritesAtMost result piece.now }
        ensures counts { (self.new.read_faults ≡ self.old.read_faults) × (self.new.write_faults ≡ self.old.write_faults) }
    {
        if name == "-" {
            return self.rt.write_some(piece);
        }
        let place = match place_of(&self.writers, name) {
            Some(place) => place,
            None => {
                let file = OpenOptions::new()
                    .append(true)
                    .create(true)
                    .open(&self.rt, name)?;
                keep(self.rt.alloc(), &mut self.writers, name, file)?
            }
        };
        self.writers[place].file.write(piece)
    }
}

impl<R: std::rt::Files + Input + Print + AllocGlobal> Files for RealFiles<R> {
    ghost seen = { λ m. counts_only m.read_faults m.write_faults };

    fn read_next(&mut self, name: &str, into: &mut [u8]) -> Result<usize, Failed> {
        match self.read(name, into) {
            Ok(count) => Ok(count),
            Err(_) => {
                self.read_faults = self.read_faults.saturating_add(1);
                Err(Failed)
            }
        }
    }

    fn begin(&mut self, name: &str) -> Result<(), Failed> {
        match self.create(name) {
            Ok(()) => Ok(()),
            Err(_) => {
                self.write_faults = self.write_faults.saturating_add(1);
                Err(Failed)
            }
        }
    }

    fn append(&mut self, name: &str, piece: &[u8]) -> Result<usize, Failed> {
        match self.write(name, piece) {
            Ok(count) if count > 0 || piece.is_empty() => Ok(count),
            _ => {
                self.write_faults = self.write_faults.saturating_add(1);
                Err(Failed)
            }
        }
    }
}
