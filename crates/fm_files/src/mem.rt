ghost use Rattle.std.specs.Prelude.{◌≡◌, ℕ, ◌+◌, ◌-◌, ◌^◌, ◌<◌, ◌≤◌, ◌==◌, min, true, false, length, Some, None, IfSome, IfOk, OnOk, OnErr, IsOk, is_some, List, ◌↔◌, ◌||◌, if◌then◌else◌};
ghost use Rattle.std.specs.Io.{ReadsAtMost};
ghost use Rattle.std.specs.List.{list_any};
ghost use Rattle.fm_files.specs.Memory.{is_nil, is_listed as is_listed_in, room_given, IsNew};
ghost use Rattle.fm_files.specs.Seen.{Adds, AddsSurely, Begins, BeginsSurely, HasRoom, NoFault, OnlyReads, ReadsInto, ReadsSurely, SameButAt, SameByName, WritesAt, lowered};

use crate::entry::Entry;
use crate::files::{Failed, Files};
use crate::making::{add_sinks, entries_of};
use fm_base::Memory;
use std::alloc::Global;
use std::collections::BTreeMap;

/// Files in memory, for tests and for solving a text: the names that may be read with their bytes, and the
/// names that may be written, each with memory reserved for its whole room.
///
/// Calls are counted from 1, those of `read_next` over all names, and those of `begin` and `append` together;
/// the numbers that are listed fail. A write past the room or to another name fails and adds nothing, and so
/// does a read of another name. Only `new` takes memory.
#[derive(Drop)]
pub struct MemFiles {
    entries: BTreeMap<String, Entry>,
    fail_reads: Vec<u64>,
    fail_writes: Vec<u64>,
    reads: u64,
    writes: u64,
    other_read_faults: u64,
    other_write_faults: u64,
}

fn is_listed(numbers: &[u64], number: u64) -> bool
    ensures value { result ≡ list_any (λ n. n == number) numbers.now }
    ensures none { is_nil numbers.now ≡ true → result ≡ false }
{
    numbers.contains(&number)
}

impl Files for MemFiles {
    ghost use Rattle.fm_files.specs.Entries.{FillsFrom, IsReadCaused, IsReadCounted, IsWriteCaused, IsWriteCounted, MayAdd, MayRead, ReadsAlone, WritesAlone};
    ghost use Rattle.fm_files.specs.Entries.{after_read, after_write, calls_of, fails_write, is_known, room_in, seen_in};

    ghost seen = { seen_in };

    fn read_next(&mut self, name: &str, into: &mut [u8]) -> Result<usize, Failed>
        ensures bound { ReadsAtMost result into.new }
        ensures bytes { ReadsInto (seen_in self.old) (seen_in self.new) name.now result into.new }
        ensures leaves { OnlyReads (seen_in self.old) (seen_in self.new) name.now }
        ensures cause { IsReadCaused self.old self.new name.now result }
        ensures never { ReadsSurely (seen_in self.old) (seen_in self.new) name.now result }
        ensures full { FillsFrom ((seen_in self.old).left name.now) result into.new }
        ensures exact { IsOk result ↔ MayRead self.old name.now }
        ensures free { SameByName (room_in self.old) (room_in self.new) }
        ensures calls { calls_of self.new ≡ after_read (calls_of self.old) }
        ensures known { SameByName (is_known self.old) (is_known self.new) }
        ensures alone { ReadsAlone self.old self.new name.now }
        ensures writes { SameByName (seen_in self.old).write_faults (seen_in self.new).write_faults }
        ensures counted { IsReadCounted self.old self.new name.now result }
        ensures quiet { OnOk result (NoFault (seen_in self.old) (seen_in self.new)) }
    {
        self.reads = self.reads.saturating_add(1);
        let fails = is_listed(&self.fail_reads, self.reads);
        match self.entries.get_mut(name) {
            Some(entry) => entry.read(fails, into),
            None => {
                self.other_read_faults = self.other_read_faults.saturating_add(1);
                Err(Failed)
            }
        }
    }

    fn begin(&mut self, name: &str) -> Result<(), Failed>
        ensures begins { Begins ((seen_in self.old).written name.now) ((seen_in self.new).written name.now) result }
        ensures leaves { WritesAt (seen_in self.old) (seen_in self.new) name.now }
        ensures cause { IsWriteCaused self.old self.new name.now result }
        ensures never { BeginsSurely (seen_in self.old) (seen_in self.new) name.now result }
        ensures exact { IsOk result ↔ ((fails_write self.old ≡ false) × (is_some (room_in self.old name.now) ≡ true)) }
        ensures room { (n : ℕ) → HasRoom (room_in self.old name.now) n → HasRoom (room_in self.new name.now) n }
        ensures free { SameButAt (room_in self.old) (room_in self.new) name.now }
        ensures calls { calls_of self.new ≡ after_write (calls_of self.old) }
        ensures known { SameByName (is_known self.old) (is_known self.new) }
        ensures alone { WritesAlone self.old self.new name.now }
        ensures reads { SameByName (seen_in self.old).read_faults (seen_in self.new).read_faults }
        ensures failed { OnErr result ((seen_in self.new).written name.now ≡ (seen_in self.old).written name.now) }
        ensures kept { OnErr result (room_in self.new name.now ≡ room_in self.old name.now) }
        ensures counted { IsWriteCounted self.old self.new name.now result }
        ensures quiet { OnOk result (NoFault (seen_in self.old) (seen_in self.new)) }
    {
        self.writes = self.writes.saturating_add(1);
        let fails = is_listed(&self.fail_writes, self.writes);
        match self.entries.get_mut(name) {
            Some(entry) => entry.begin(fails),
            None => {
                self.other_write_faults = self.other_write_faults.saturating_add(1);
                Err(Failed)
            }
        }
    }

    fn append(&mut self, name: &str, piece: &[u8]) -> Result<usize, Failed>
        ensures bound { IfOk result (λ k. k ≤ length piece.now) }
        ensures some { IfOk result (λ k. 0 < length piece.now → 0 < k) }
        ensures adds { Adds ((seen_in self.old).written name.now) ((seen_in self.new).written name.now) result piece.now }
        ensures leaves { WritesAt (seen_in self.old) (seen_in self.new) name.now }
        ensures cause { IsWriteCaused self.old self.new name.now result }
        ensures never { AddsSurely (seen_in self.old) (seen_in self.new) name.now result piece.now }
        ensures all { IfOk result (λ k. k ≡ length piece.now) }
        ensures exact { IsOk result ↔ MayAdd self.old name.now (length piece.now) }
        ensures room { IfOk result (λ k. room_in self.new name.now ≡ lowered (room_in self.old name.now) k) }
        ensures free { SameButAt (room_in self.old) (room_in self.new) name.now }
        ensures calls { calls_of self.new ≡ after_write (calls_of self.old) }
        ensures known { SameByName (is_known self.old) (is_known self.new) }
        ensures alone { WritesAlone self.old self.new name.now }
        ensures reads { SameByName (seen_in self.old).read_faults (seen_in self.new).read_faults }
        ensures failed { OnErr result ((seen_in self.new).written name.now ≡ (seen_in self.old).written name.now) }
        ensures kept { OnErr result (room_in self.new name.now ≡ room_in self.old name.now) }
        ensures counted { IsWriteCounted self.old self.new name.now result }
        ensures quiet { OnOk result (NoFault (seen_in self.old) (seen_in self.new)) }
    {
        self.writes = self.writes.saturating_add(1);
        let fails = is_listed(&self.fail_writes, self.writes);
        match self.entries.get_mut(name) {
            Some(entry) => entry.append(fails, piece),
            None => {
                self.other_write_faults = self.other_write_faults.saturating_add(1);
                Err(Failed)
            }
        }
    }
}

impl MemFiles {
    ghost use Rattle.fm_files.specs.Entries.{calls_of, is_known, no_calls, room_in, seen_in};

    /// The files that may be read with their bytes, the names that may be written with their room, and the
    /// numbers of the calls that fail. Where a name stands twice in a list, its first entry counts.
    pub fn new(
        alloc: Global,
        files: Vec<(String, Vec<u8>)>,
        outs: Vec<String>,
        room: usize,
        fail_reads: Vec<u64>,
        fail_writes: Vec<u64>,
    ) -> Result<MemFiles, Memory>
        ensures made { IfOk result (λ m. IsNew files.items outs.items room fail_reads.items fail_writes.items (seen_in m)) }
        ensures rooms { IfOk result (λ m. (name : List ℕ) → room_in m name ≡ room_given outs.items room name) }
        ensures known { IfOk result (λ m. (name : List ℕ) → is_known m name ≡ is_listed_in files.items outs.items name) }
        ensures calls { IfOk result (λ m. calls_of m ≡ no_calls fail_reads.items fail_writes.items) }
    {
        let mut entries = entries_of(alloc, files)?;
        add_sinks(alloc, &mut entries, outs, room)?;
        Ok(MemFiles {
            entries,
            fail_reads,
            fail_writes,
            reads: 0,
            writes: 0,
            other_read_faults: 0,
            other_write_faults: 0,
        })
    }

    /// The bytes written to the name, none for a name that may not be written.
    pub fn written(&self, name: &str) -> &[u8]
        ensures { (⟦<MemFiles as Files>⟧.seen self.now).written name.now ≡ Some result.now }
    {
        match self.entries.get(name) {
            Some(entry) => entry.written(),
            None => &[],
        }
    }

    /// How many reads of the name failed. The names of neither list have one count together.
    pub fn read_faults(&self, name: &str) -> u64
        ensures { result ≡ (⟦<MemFiles as Files>⟧.seen self.now).read_faults name.now }
    {
        match self.entries.get(name) {
            Some(entry) => entry.read_faults(),
            None => self.other_read_faults,
        }
    }

    /// How many calls of `begin` and `append` on the name failed, counted likewise.
    pub fn write_faults(&self, name: &str) -> u64
        ensures { result ≡ (⟦<MemFiles as Files>⟧.seen self.now).write_faults name.now }
    {
        match self.entries.get(name) {
            Some(entry) => entry.write_faults(),
            None => self.other_write_faults,
        }
    }
}
