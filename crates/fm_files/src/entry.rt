ghost use Rattle.std.specs.Prelude.{◌≡◌, ℕ, ◌+◌, ◌-◌, ◌≤◌, ◌<◌, ◌^◌, ◌++◌, ◌↔◌, [], min, true, false, take, length, Some, None, IfOk, IfSome, OnOk, OnErr, IsOk, is_ok, is_some, vec_len, vec_capacity, if◌then◌else◌};
ghost use Rattle.std.specs.Io.{ReadsAtMost};
ghost use Rattle.std.specs.Io.KnownBytes.{Consumes, IsAtEnd, ReadConsumes};
ghost use Rattle.fm_files.specs.Seen.{HasRoom, lowered};

use crate::files::Failed;
use std::alloc::{AllocError, Global};

/// The bytes of a file, and how many of them are read.
#[derive(Drop)]
pub struct Source {
    bytes: Vec<u8>,
    place: usize,
    ghost within: { place ≤ vec_len bytes },
}

/// The bytes written to a name, with memory reserved for the whole room.
#[derive(Drop)]
pub struct Sink {
    bytes: Vec<u8>,
    room: usize,
    ghost reserved: { room ≤ vec_capacity bytes },
    ghost filled: { vec_len bytes ≤ room },
}

/// What is kept of one name.
#[derive(Drop)]
pub struct Entry {
    source: Option<Source>,
    sink: Option<Sink>,
    read_faults: u64,
    write_faults: u64,
}

/// Copies as many bytes as fit, and answers their number.
fn copy_front(from: &[u8], into: &mut [u8]) -> usize
    ensures count { result ≡ min (length from.now) (length into.old) }
    ensures copied { take result into.new ≡ take result from.now }
{
    let count = from.len().min(into.len());
    into[..count].copy_from_slice(&from[..count]);
    count
}

impl Source {
    ghost use Rattle.fm_files.specs.Entries.{left_of};

    /// Reads on from the place.
    fn read(&mut self, into: &mut [u8]) -> usize
        ensures count { IfSome (left_of (Some self.old)) (λ xs. result ≡ min (length xs) (length into.new)) }
        ensures bytes { Consumes (left_of (Some self.old)) (left_of (Some self.new)) (take result into.new) }
        ensures end { result ≡ 0 → 0 < length into.new → IsAtEnd (left_of (Some self.new)) }
    {
        let count = copy_front(&self.bytes[self.place..], into);
        self.place += count;
        count
    }
}

impl Sink {
    ghost use Rattle.fm_files.specs.Entries.{added_if, free, lowered_if, sunk};

    /// A sink with room for `room` bytes and none written.
    fn new(alloc: Global, room: usize) -> Result<Sink, AllocError>
        ensures sunk { IfOk result (λ s. sunk (Some s) ≡ []) }
        ensures room { IfOk result (λ s. free (Some s) ≡ Some room) }
    {
        let bytes = Vec::with_capacity(alloc, room)?;
        Ok(Sink { bytes, room })
    }

    /// Adds the piece where it fits the room, and answers whether it does.
    fn add(&mut self, piece: &[u8]) -> bool
        ensures fits { (result ≡ true) ↔ HasRoom (free (Some self.old)) (length piece.now) }
        ensures sunk { sunk (Some self.new) ≡ added_if result (sunk (Some self.old)) piece.now }
        ensures room { free (Some self.new) ≡ lowered_if result (free (Some self.old)) piece.now }
    {
        if piece.len() > self.room - self.bytes.len() {
            return false;
        }
        self.bytes.extend_from_slice(piece).is_ok()
    }

    fn clear(&mut self)
        ensures sunk { sunk (Some self.new) ≡ [] }
        ensures room { (n : ℕ) → HasRoom (free (Some self.old)) n → HasRoom (free (Some self.new)) n }
    {
        self.bytes.clear();
    }
}

impl Entry {
    ghost use Rattle.fm_files.specs.Entries.{FillsFrom, added_if, counted, free, left_of, lowered_if, next, sunk};

    /// A name that may be read.
    pub fn with_source(bytes: Vec<u8>) -> Entry
        ensures left { left_of result.source ≡ Some bytes.items }
        ensures sunk { sunk result.sink ≡ [] }
        ensures free { free result.sink ≡ None }
        ensures counts { (result.read_faults ≡ 0) × (result.write_faults ≡ 0) }
    {
        Entry {
            source: Some(Source { bytes, place: 0 }),
            sink: None,
            read_faults: 0,
            write_faults: 0,
        }
    }

    /// A name that may be written.
    pub fn with_sink(alloc: Global, room: usize) -> Result<Entry, AllocError>
        ensures left { IfOk result (λ e. left_of e.source ≡ None) }
        ensures sunk { IfOk result (λ e. sunk e.sink ≡ []) }
        ensures free { IfOk result (λ e. free e.sink ≡ Some room) }
        ensures counts { IfOk result (λ e. (e.read_faults ≡ 0) × (e.write_faults ≡ 0)) }
    {
        Ok(Entry {
            source: None,
            sink: Some(Sink::new(alloc, room)?),
            read_faults: 0,
            write_faults: 0,
        })
    }

    /// Lets the name be written, with nothing written yet.
    pub fn give_sink(&mut self, alloc: Global, room: usize) -> Result<(), AllocError>
        ensures sunk { OnOk result (sunk self.new.sink ≡ []) }
        ensures free { OnOk result (free self.new.sink ≡ Some room) }
        ensures source { self.new.source ≡ self.old.source }
        ensures counts { (self.new.read_faults ≡ self.old.read_faults) × (self.new.write_faults ≡ self.old.write_faults) }
    {
        self.sink = Some(Sink::new(alloc, room)?);
        Ok(())
    }

    fn fail_read(&mut self)
        ensures reads { self.new.read_faults ≡ next self.old.read_faults }
        ensures later { self.old.read_faults ≤ self.new.read_faults }
        ensures source { self.new.source ≡ self.old.source }
        ensures sink { self.new.sink ≡ self.old.sink }
        ensures writes { self.new.write_faults ≡ self.old.write_faults }
    {
        self.read_faults = self.read_faults.saturating_add(1);
    }

    fn fail_write(&mut self)
        ensures writes { self.new.write_faults ≡ next self.old.write_faults }
        ensures later { self.old.write_faults ≤ self.new.write_faults }
        ensures source { self.new.source ≡ self.old.source }
        ensures sink { self.new.sink ≡ self.old.sink }
        ensures reads { self.new.read_faults ≡ self.old.read_faults }
    {
        self.write_faults = self.write_faults.saturating_add(1);
    }

    /// One call of `read_next` on the name; `fails` where it is listed to fail.
    pub fn read(&mut self, fails: bool, into: &mut [u8]) -> Result<usize, Failed>
        ensures bound { ReadsAtMost result into.new }
        ensures bytes { ReadConsumes (left_of self.old.source) (left_of self.new.source) result into.new }
        ensures full { FillsFrom (left_of self.old.source) result into.new }
        ensures ok { IsOk result ↔ ((fails ≡ false) × (is_some (left_of self.old.source) ≡ true)) }
        ensures kept { is_some (left_of self.new.source) ≡ is_some (left_of self.old.source) }
        ensures sink { self.new.sink ≡ self.old.sink }
        ensures later { self.old.read_faults ≤ self.new.read_faults }
        ensures reads { self.new.read_faults ≡ counted (is_ok result) self.old.read_faults }
        ensures writes { self.new.write_faults ≡ self.old.write_faults }
    {
        if !fails {
            if let Some(source) = &mut self.source {
                return Ok(source.read(into));
            }
        }
        self.fail_read();
        Err(Failed)
    }

    /// One call of `begin` on the name; `fails` where it is listed to fail.
    pub fn begin(&mut self, fails: bool) -> Result<(), Failed>
        ensures ok { IsOk result ↔ ((fails ≡ false) × (is_some (free self.old.sink) ≡ true)) }
        ensures done { OnOk result (sunk self.new.sink ≡ []) }
        ensures failed { OnErr result (self.new.sink ≡ self.old.sink) }
        ensures room { (n : ℕ) → HasRoom (free self.old.sink) n → HasRoom (free self.new.sink) n }
        ensures source { self.new.source ≡ self.old.source }
        ensures reads { self.new.read_faults ≡ self.old.read_faults }
        ensures later { self.old.write_faults ≤ self.new.write_faults }
        ensures writes { self.new.write_faults ≡ counted (is_ok result) self.old.write_faults }
    {
        if !fails {
            if let Some(sink) = &mut self.sink {
                sink.clear();
                return Ok(());
            }
        }
        self.fail_write();
        Err(Failed)
    }

    /// One call of `append` on the name; `fails` where it is listed to fail.
    pub fn append(&mut self, fails: bool, piece: &[u8]) -> Result<usize, Failed>
        ensures ok { IsOk result ↔ ((fails ≡ false) × HasRoom (free self.old.sink) (length piece.now)) }
        ensures all { IfOk result (λ k. k ≡ length piece.now) }
        ensures sunk { sunk self.new.sink ≡ added_if (is_ok result) (sunk self.old.sink) piece.now }
        ensures room { free self.new.sink ≡ lowered_if (is_ok result) (free self.old.sink) piece.now }
        ensures source { self.new.source ≡ self.old.source }
        ensures reads { self.new.read_faults ≡ self.old.read_faults }
        ensures later { self.old.write_faults ≤ self.new.write_faults }
        ensures writes { self.new.write_faults ≡ counted (is_ok result) self.old.write_faults }
    {
        if !fails {
            if let Some(sink) = &mut self.sink {
                if sink.add(piece) {
                    return Ok(piece.len());
                }
            }
        }
        self.fail_write();
        Err(Failed)
    }

    /// The bytes written to the name.
    pub fn written(&self) -> &[u8]
        ensures { result.now ≡ sunk self.now.sink }
    {
        match &self.sink {
            Some(sink) => sink.bytes.as_slice(),
            None => &[],
        }
    }

    /// How many reads of the name failed.
    pub fn read_faults(&self) -> u64
        ensures { result ≡ self.now.read_faults }
    {
        self.read_faults
    }

    /// How many calls of `begin` and `append` on the name failed.
    pub fn write_faults(&self) -> u64
        ensures { result ≡ self.now.write_faults }
    {
        self.write_faults
    }
}
