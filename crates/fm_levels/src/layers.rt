ghost use Rattle.std.specs.Prelude.{◌≡◌, ◌^◌, ◌<◌, ◌≤◌, ◌+◌, ◌-◌, ◌++◌, ◌∷◌, [], length, slice_get, take, replicate, IfSome, IfNone, OnOk, OnErr};
ghost use Rattle.std.specs.Option.{option_map};
ghost use Rattle.fm_levels.specs.Tables.{named_values};
ghost use Rattle.fm_levels.specs.Levels.{count_level, cut_level, joined, put, stands_below};

use crate::marks::newest_mark;
use fm_base::Memory;
use std::alloc::Global;
use std::marker::Model;

/// Names with values, level by level, in the order in which they came; they are found by their places alone.
#[derive(Drop)]
pub struct Layers<'a, V> {
    first: Vec<(&'a [u8], V)>,
    upper: Vec<(&'a [u8], V)>,
    // how many names stood above the first level as each further level was opened
    marks: Vec<usize>,
}

impl<'a, V> Model for Layers<'a, V> {
    ghost use Rattle.std.specs.Prelude.{ℕ, List};
    ghost use Rattle.fm_levels.specs.Tables.{named_values};
    ghost use Rattle.fm_levels.specs.Cuts.{AreCut, levels_in};

    ghost Value = { List (List (List ℕ × V)) };

    ghost view = { λ l. levels_in (named_values l.first.items) (named_values l.upper.items) l.marks.items };

    ghost invariant = { λ l. AreCut (named_values l.upper.items) l.marks.items };
}

#[tactic(auto, using(crate::proofs::Naming::length_named))]
fn count<V>(entries: &Vec<(&[u8], V)>) -> usize
    ensures { result ≡ length (named_values entries.now.items) }
{
    entries.as_slice().len()
}

#[tactic(auto, using(crate::proofs::Naming::take_named))]
fn truncate<V: Drop>(entries: &mut Vec<(&[u8], V)>, len: usize)
    ensures { named_values entries.new.items ≡ take len (named_values entries.old.items) }
{
    entries.truncate(len);
}

#[tactic(auto, using(crate::proofs::Naming::push_named))]
fn push_entry<'a, V: Drop>(
    entries: &mut Vec<(&'a [u8], V)>,
    name: &'a [u8],
    value: V,
) -> Result<(), Memory>
    ensures added { OnOk result
        (named_values entries.new.items ≡ named_values entries.old.items ++ (name.now, value) ∷ []) }
    ensures err { OnErr result (entries.new.items ≡ entries.old.items) }
{
    entries.push((name, value))?;
    Ok(())
}

#[tactic(auto, using(crate::proofs::Naming::get_named))]
fn entry_at<'e, 'a, V>(entries: &'e Vec<(&'a [u8], V)>, place: usize) -> Option<(&'a [u8], &'e V)>
    ensures { option_map (λ e. (e.0.now, e.1.now)) result ≡ slice_get (named_values entries.now.items) place }
{
    match entries.as_slice().get(place) {
        None => None,
        Some(entry) => Some((entry.0, &entry.1)),
    }
}

impl<'a, V: Drop> Layers<'a, V> {
    /// One level, and nothing in it.
    pub fn new(alloc: Global) -> Self
        ensures { result ≡ [] ∷ [] }
    {
        Layers {
            first: Vec::new(alloc),
            upper: Vec::new(alloc),
            marks: Vec::new(alloc),
        }
    }

    /// How many names there are in all levels; None where that is no number of 64 bits.
    pub fn count(&self) -> Option<usize>
        ensures some { IfSome result (λ n. n ≡ length (joined self.now)) }
        ensures none { IfNone result (2 ^ 64 ≤ length (joined self.now)) }
    {
        let below = count(&self.first);
        let above = count(&self.upper);
        match below.checked_add(above) {
            None => None,
            Some(count) => Some(count),
        }
    }

    /// The name at a place among those of all levels in order, with its value.
    pub fn at(&self, place: usize) -> Option<(&'a [u8], &V)>
        ensures { option_map (λ e. (e.0.now, e.1.now)) result ≡ slice_get (joined self.now) place }
    {
        let below = count(&self.first);
        if place < below {
            entry_at(&self.first, place)
        } else {
            entry_at(&self.upper, place - below)
        }
    }

    // Whether the first or the newest level stands in the first list.
    fn is_below(&self, first: bool) -> bool
        ensures { result ≡ stands_below first self.now }
    {
        first || self.marks.as_slice().len() < 1
    }

    /// Adds a name in the first level or in the newest.
    pub fn insert(&mut self, first: bool, name: &'a [u8], value: V) -> Result<(), Memory>
        ensures added { OnOk result (self.new ≡ put first self.old (name.now, value)) }
        ensures err { OnErr result (self.new ≡ self.old) }
    {
        if self.is_below(first) {
            push_entry(&mut self.first, name, value)?;
        } else {
            push_entry(&mut self.upper, name, value)?;
        }
        Ok(())
    }

    /// How many names the first level has, or the newest.
    pub fn count_in(&self, first: bool) -> usize
        ensures { result ≡ count_level first self.now }
    {
        if self.is_below(first) {
            return count(&self.first);
        }
        count(&self.upper) - newest_mark(self.marks.as_slice())
    }

    /// Takes the names of the first level, or of the newest, from a place on out again. It takes no memory.
    pub fn cut_back(&mut self, first: bool, len: usize)
        ensures { self.new ≡ cut_level first self.old len }
    {
        if self.is_below(first) {
            truncate(&mut self.first, len);
            return;
        }
        let mark = newest_mark(self.marks.as_slice());
        if len < count(&self.upper) - mark {
            truncate(&mut self.upper, mark + len);
        }
    }

    /// Opens so many levels, with nothing in them.
    pub fn push(&mut self, levels: usize) -> Result<(), Memory>
        requires { length self.old + levels < 2 ^ 63 }
        ensures opened { OnOk result (self.new ≡ self.old ++ replicate levels []) }
        ensures err { OnErr result (self.new ≡ self.old) }
    {
        let wanted = self.marks.as_slice().len() + levels;
        let mark = count(&self.upper);
        self.marks.resize(wanted, mark)?;
        Ok(())
    }

    /// Closes the newest levels, which are fewer than there are.
    pub fn pop(&mut self, levels: usize)
        requires { levels < length self.old }
        ensures { self.new ≡ take (length self.old - levels) self.old }
    {
        let kept = self.marks.as_slice().len() - levels;
        if levels > 0 {
            let mark = self.marks[kept];
            truncate(&mut self.upper, mark);
            self.marks.truncate(kept);
        }
    }
}
