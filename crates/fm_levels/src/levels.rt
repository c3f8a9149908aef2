ghost use Rattle.std.specs.Prelude.{◌≡◌, ◌^◌, ◌<◌, ◌≤◌, ◌+◌, ◌-◌, ◌++◌, ◌∷◌, [], length, not, slice_get, take, replicate, true, false, IfOk, IfSome, IfNone, OnOk, OnErr};
ghost use Rattle.std.specs.Option.{option_copied, option_map};
ghost use Rattle.fm_levels.specs.Tables.{has, looked_up};
ghost use Rattle.fm_levels.specs.Levels.{count_level, cut_level, joined, put, stands_below};

use crate::marks::newest_mark;
use crate::table::Table;
use fm_base::Memory;
use std::alloc::Global;
use std::marker::Model;

/// Names with values, level by level: those of the first level, which is never closed, and those of the levels opened
/// above it, each name in one table. A level is closed in time of what stands in it.
#[derive(Drop)]
pub struct Levels<'a, V> {
    first: Table<'a, V>,
    upper: Table<'a, V>,
    // how many names stood above the first level as each further level was opened
    marks: Vec<usize>,
}

impl<'a, V> Model for Levels<'a, V> {
    ghost use Rattle.std.specs.Prelude.{ℕ, List};
    ghost use Rattle.fm_levels.specs.Cuts.{AreCut, levels_in};

    ghost Value = { List (List (List ℕ × V)) };

    ghost view = { λ l. levels_in l.first l.upper l.marks.items };

    ghost invariant = { λ l. AreCut l.upper l.marks.items };
}

impl<'a, V: Drop> Levels<'a, V> {
    /// One level, and nothing in it.
    pub fn new(alloc: Global) -> Self
        ensures { result ≡ [] ∷ [] }
    {
        Levels {
            first: Table::new(alloc),
            upper: Table::new(alloc),
            marks: Vec::new(alloc),
        }
    }

    /// How many levels there are, the first one counted.
    pub fn len(&self) -> usize
        requires { length self.now < 2 ^ 63 }
        ensures { result ≡ length self.now }
    {
        self.marks.as_slice().len() + 1
    }

    /// The value of a name.
    pub fn get(&self, name: &[u8]) -> Option<&V>
        ensures { option_copied result ≡ looked_up name.now (joined self.now) }
    {
        match self.first.get(name) {
            Some(value) => Some(value),
            None => self.upper.get(name),
        }
    }

    /// Whether a name is there.
    pub fn has(&self, name: &[u8]) -> bool
        ensures { result ≡ has name.now (joined self.now) }
    {
        self.first.has(name) || self.upper.has(name)
    }

    /// How many names there are in all levels; None where that is no number of 64 bits.
    pub fn count(&self) -> Option<usize>
        ensures some { IfSome result (λ n. n ≡ length (joined self.now)) }
        ensures none { IfNone result (2 ^ 64 ≤ length (joined self.now)) }
    {
        match self.first.len().checked_add(self.upper.len()) {
            None => None,
            Some(count) => Some(count),
        }
    }

    /// The name at a place among those of all levels in order, with its value.
    pub fn at(&self, place: usize) -> Option<(&'a [u8], &V)>
        ensures { option_map (λ e. (e.0.now, e.1.now)) result ≡ slice_get (joined self.now) place }
    {
        let below = self.first.len();
        if place < below {
            self.first.at(place)
        } else {
            self.upper.at(place - below)
        }
    }

    // Whether the first or the newest level stands in the first table.
    fn is_below(&self, first: bool) -> bool
        ensures { result ≡ stands_below first self.now }
    {
        first || self.marks.as_slice().len() < 1
    }

    /// Adds a name in the first level or in the newest, and answers whether it wasn't there; else nothing changes.
    pub fn insert(&mut self, first: bool, name: &'a [u8], value: V) -> Result<bool, Memory>
        ensures free { IfOk result (λ b. b ≡ not (has name.now (joined self.old))) }
        ensures taken { IfOk result (λ b. b ≡ false → self.new ≡ self.old) }
        ensures added { IfOk result (λ b. b ≡ true → self.new ≡ put first self.old (name.now, value)) }
        ensures err { OnErr result (self.new ≡ self.old) }
    {
        if self.has(name) {
            return Ok(false);
        }
        if self.is_below(first) {
            let _ = self.first.insert(name, value)?;
        } else {
            let _ = self.upper.insert(name, value)?;
        }
        Ok(true)
    }

    /// How many names the first level has, or the newest.
    pub fn count_in(&self, first: bool) -> usize
        ensures { result ≡ count_level first self.now }
    {
        if self.is_below(first) {
            return self.first.len();
        }
        self.upper.len() - newest_mark(self.marks.as_slice())
    }

    /// Takes the names of the first level, or of the newest, from a place on out again. It takes no memory.
    pub fn cut_back(&mut self, first: bool, count: usize)
        ensures { self.new ≡ cut_level first self.old count }
    {
        if self.is_below(first) {
            self.first.truncate(count);
            return;
        }
        let mark = newest_mark(self.marks.as_slice());
        if count < self.upper.len() - mark {
            self.upper.truncate(mark + count);
        }
    }

    /// Opens so many levels, with nothing in them.
    pub fn push(&mut self, count: usize) -> Result<(), Memory>
        requires { length self.old + count < 2 ^ 63 }
        ensures opened { OnOk result (self.new ≡ self.old ++ replicate count []) }
        ensures err { OnErr result (self.new ≡ self.old) }
    {
        let wanted = self.marks.as_slice().len() + count;
        let mark = self.upper.len();
        self.marks.resize(wanted, mark)?;
        Ok(())
    }

    /// Closes the newest levels, which are fewer than there are.
    pub fn pop(&mut self, count: usize)
        requires { count < length self.old }
        ensures { self.new ≡ take (length self.old - count) self.old }
    {
        let kept = self.marks.as_slice().len() - count;
        if count > 0 {
            let mark = self.marks[kept];
            self.upper.truncate(mark);
            self.marks.truncate(kept);
        }
    }
}
