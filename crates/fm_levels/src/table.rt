ghost use Rattle.std.specs.Prelude.{◌≡◌, ◌∷◌, ◌++◌, [], length, not, slice_get, take, true, false, IfOk, OnErr};
ghost use Rattle.std.specs.Option.{option_copied, option_map};
ghost use Rattle.fm_levels.specs.Tables.{AreDistinct, has, is_among_names, looked_up, newest_among};

use fm_base::Memory;
use indexmap::{IndexMap, IndexSet};
use std::alloc::Global;
use std::marker::Model;

/// Names, each with a value, in the order in which they came: no name is there
/// twice.
#[derive(Drop)]
pub struct Table<'a, V> {
    map: IndexMap<&'a [u8], V>,
}

impl<'a, V> Model for Table<'a, V> {
    ghost use Rattle.std.specs.Prelude.{ℕ, List, map};
    ghost use Rattle.fm_levels.specs.Tables.{AreApart, named_values};

    ghost Value = { List (List ℕ × V) };

    ghost view = { λ t. named_values t.map.entries };

    ghost invariant = { λ t. AreApart (named_values t.map.entries) };
}

impl<'a, V: Drop> Table<'a, V> {
    /// A table without names.
    pub fn new(alloc: Global) -> Self
        ensures { result ≡ [] }
    {
        Table {
            map: IndexMap::new(alloc),
        }
    }

    /// How many names there are.
    pub fn len(&self) -> usize
        ensures { result ≡ length self.now }
    {
        self.map.len()
    }

    /// Whether a name is there.
    pub fn has(&self, name: &[u8]) -> bool
        ensures { result ≡ has name.now self.now }
    {
        self.map.contains_key(name)
    }

    /// The value of a name.
    pub fn get(&self, name: &[u8]) -> Option<&V>
        ensures { option_copied result ≡ looked_up name.now self.now }
    {
        self.map.get(name)
    }

    /// The name at a place, with its value.
    pub fn at(&self, place: usize) -> Option<(&'a [u8], &V)>
        ensures { option_map (λ e. (e.0.now, e.1.now)) result ≡ slice_get self.now place }
    {
        match self.map.get_index(place) {
            None => None,
            Some((name, value)) => Some((*name, value)),
        }
    }

    /// Adds a name, and answers whether it wasn't there; else nothing changes.
    pub fn insert(&mut self, name: &'a [u8], value: V) -> Result<bool, Memory>
        ensures free { IfOk result (λ b. b ≡ not (has name.now self.old)) }
        ensures taken { IfOk result (λ b. b ≡ false → self.new ≡ self.old) }
        ensures added { IfOk result (λ b. b ≡ true → self.new ≡ self.old ++ (name.now, value) ∷ []) }
        ensures err { OnErr result (self.new ≡ self.old) }
    {
        if self.has(name) {
            return Ok(false);
        }
        let _ = self.map.insert(name, value)?;
        Ok(true)
    }

    /// Takes all names from a place on out again. It takes no memory.
    pub fn truncate(&mut self, len: usize)
        ensures { self.new ≡ take len self.old }
    {
        self.map.truncate(len);
    }
}

/// Names that are bound together, in their order. No name is there twice.
#[derive(Drop)]
pub struct NameSet<'a> {
    set: IndexSet<&'a [u8]>,
}

impl<'a> Model for NameSet<'a> {
    ghost use Rattle.std.specs.Prelude.{ℕ, List};
    ghost use Rattle.fm_levels.specs.Tables.{AreDistinct, texts};

    ghost Value = { List (List ℕ) };

    ghost view = { λ n. texts n.set.keys };

    ghost invariant = { λ n. AreDistinct (texts n.set.keys) };
}

impl<'a> NameSet<'a> {
    /// No names.
    pub fn new(alloc: Global) -> Self
        ensures { result ≡ [] }
    {
        NameSet {
            set: IndexSet::new(alloc),
        }
    }

    /// How many names there are.
    pub fn len(&self) -> usize
        ensures { result ≡ length self.now }
    {
        self.set.len()
    }

    /// The place of a name among them.
    pub fn place(&self, name: &[u8]) -> Option<usize>
        ensures place { result ≡ newest_among 0 name.now self.now }
        ensures apart { AreDistinct self.now }
    {
        self.set.get_index_of(name)
    }

    /// Adds a name, and answers whether it wasn't there; else nothing changes.
    pub fn insert(&mut self, name: &'a [u8]) -> Result<bool, Memory>
        ensures free { IfOk result (λ b. b ≡ not (is_among_names name.now self.old)) }
        ensures taken { IfOk result (λ b. b ≡ false → self.new ≡ self.old) }
        ensures added { IfOk result (λ b. b ≡ true → self.new ≡ self.old ++ name.now ∷ []) }
        ensures err { OnErr result (self.new ≡ self.old) }
    {
        let is_new = self.set.insert(name)?;
        Ok(is_new)
    }
}
