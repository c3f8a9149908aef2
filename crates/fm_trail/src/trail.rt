ghost use Rattle.std.specs.Prelude.{◌≡◌, ◌<◌, ◌≤◌, ◌++◌, ◌∷◌, [], ℕ, List, length, take, slice_get, Some, None, IfSome, IfNone, OnOk, OnErr};
ghost use Rattle.fm_trail.specs.Trail.{AreLevelled, AreOver, HasOneEntry, IsNext, decision, head_of, heads_at, heads_back, implied, level_of, levels_of, place_of, read_on, up_to, value_of, with_entry};

use crate::entry::{Entry, Why};
use crate::heads::Heads;
use fm_base::{AtomId, Lit, Memory, Reader};
use std::alloc::Global;
use std::marker::Model;

/// Literals with values, in the order in which they got them. Each decision opens a level, and nothing else does. Four
/// readers read the trail, each up to its head. Going back is that of `Undo`, without its `mark`.
#[derive(Drop)]
pub struct Trail {
    entries: Vec<Entry>,
    // The places of the decisions.
    opened: Vec<usize>,
    // By atom, the place of its entry. An atom without an entry has any number here, since a place counts only where
    // the entry there has the atom. So going back leaves this table as it is (the sparse sets of Briggs and Torczon).
    places: Vec<usize>,
    heads: Heads,
}

impl Model for Trail {
    ghost use Rattle.fm_trail.specs.Trail.{Held};

    ghost Value = { Held };

    ghost use Rattle.fm_trail.specs.Trail.{IsTrail};

    ghost view = { λ t. record { entries = t.entries.items; heads = t.heads } };

    ghost invariant = { λ t. IsTrail t.entries.items t.opened.items t.places.items t.heads };
}

impl Trail {
    /// A trail without entries.
    pub fn new(alloc: Global) -> Trail
        ensures { result ≡ record { entries = []; heads = heads_at 0 } }
    {
        Trail {
            entries: Vec::new(alloc),
            opened: Vec::new(alloc),
            places: Vec::new(alloc),
            heads: Heads {
                congruence: 0,
                regions: 0,
                sum: 0,
                instances: 0,
            },
        }
    }

    /// Each entry has its level, and each atom has one entry at most. It is a law of every trail and does nothing.
    pub fn entries_are_levelled(&self)
        ensures levels { AreLevelled 0 self.now.entries }
        ensures once { HasOneEntry self.now.entries }
    {
        let _ = &self.entries;
    }

    /// A trail over n atoms has at most n entries. It is a law of every trail and does nothing.
    pub fn entries_are_few(&self)
        ensures { (n : ℕ) → AreOver n self.now.entries → length self.now.entries ≤ n }
    {
        self.entries_are_levelled();
    }

    /// How many entries there are.
    pub fn len(&self) -> usize
        ensures { result ≡ length self.now.entries }
    {
        self.entries.len()
    }

    /// An entry by its place, from 0.
    pub fn entry(&self, place: usize) -> Entry
        requires { place < length self.now.entries }
        ensures { slice_get self.now.entries place ≡ Some result }
    {
        self.entries[place]
    }

    /// The present level: the number of decisions.
    pub fn level(&self) -> usize
        ensures { result ≡ level_of self.now.entries }
    {
        self.opened.len()
    }

    /// The place of the entry with the atom, if there is one.
    pub fn place(&self, atom: AtomId) -> Option<usize>
        ensures { result ≡ place_of self.now.entries atom }
    {
        match place_at(self.places.as_slice(), atom.0) {
            Some(place) => match entry_at(self.entries.as_slice(), place) {
                Some(entry) if entry.lit.atom.0 == atom.0 => Some(place),
                _ => None,
            },
            None => None,
        }
    }

    /// The value of the atom, if there is an entry with it.
    pub fn value(&self, atom: AtomId) -> Option<bool>
        ensures { result ≡ value_of self.now.entries atom }
    {
        match self.place(atom) {
            Some(place) => Some(self.entries[place].lit.positive),
            None => None,
        }
    }

    /// How many entries the reader has read.
    pub fn head(&self, reader: Reader) -> usize
        ensures value { result ≡ head_of self.now.heads reader }
        ensures within { result ≤ length self.now.entries }
    {
        self.heads.get(reader)
    }

    /// The literal of the first entry that the reader hasn't read, which it has read then. None exactly where it has
    /// read all.
    pub fn take(&mut self, reader: Reader) -> Option<Lit>
        ensures some { IfSome result (λ l. IsNext self.old reader l) }
        ensures moved { IfSome result (λ l. self.new ≡ read_on self.old reader) }
        ensures none { IfNone result (head_of self.old.heads reader ≡ length self.old.entries) }
        ensures kept { IfNone result (self.new ≡ self.old) }
    {
        let head = self.heads.get(reader);
        match entry_at(self.entries.as_slice(), head) {
            Some(entry) => {
                self.heads.set(reader, head + 1);
                Some(entry.lit)
            }
            None => None,
        }
    }

    /// Decides the literal, whose atom is to have no value. This opens a level. After want of memory nothing has
    /// changed.
    pub fn decide(&mut self, lit: Lit) -> Result<(), Memory>
        requires { value_of self.old.entries lit.atom ≡ None }
        ensures added { OnOk result (self.new ≡ with_entry self.old (decision self.old.entries lit)) }
        ensures opened { OnOk result (levels_of self.new.entries ≡ levels_of self.old.entries ++ self.old.entries ∷ []) }
        ensures err { OnErr result (self.new ≡ self.old) }
    {
        make_room(&mut self.places, lit.atom)?;
        self.opened.reserve(1)?;
        let place = self.entries.len();
        self.entries.push(Entry {
            lit,
            level: self.opened.len() + 1,
            why: Why::Decision,
        })?;
        self.opened.push_reserved(place);
        self.places[lit.atom.0] = place;
        Ok(())
    }

    /// Puts on the literal, whose atom is to have no value, at the present level and with the number of a clause as its
    /// reason. After want of memory nothing has changed.
    pub fn imply(&mut self, lit: Lit, clause: usize) -> Result<(), Memory>
        requires { value_of self.old.entries lit.atom ≡ None }
        ensures added { OnOk result (self.new ≡ with_entry self.old (implied self.old.entries lit clause)) }
        ensures same_levels { OnOk result (levels_of self.new.entries ≡ levels_of self.old.entries) }
        ensures err { OnErr result (self.new ≡ self.old) }
    {
        make_room(&mut self.places, lit.atom)?;
        let place = self.entries.len();
        self.entries.push(Entry {
            lit,
            level: self.opened.len(),
            why: Why::Clause(clause),
        })?;
        self.places[lit.atom.0] = place;
        Ok(())
    }

    /// Goes back to what stood here when the level was opened; levels are numbered from 0, in the order of their
    /// decisions. It closes that level and all above it, and brings back the heads that are past the end. It takes no
    /// memory.
    pub fn undo_to(&mut self, level: usize)
        requires { level < level_of self.old.entries }
        ensures entries { self.new.entries ≡ up_to level self.old.entries }
        ensures content { slice_get (levels_of self.old.entries) level ≡ Some self.new.entries }
        ensures levels { levels_of self.new.entries ≡ take level (levels_of self.old.entries) }
        ensures heads { self.new.heads ≡ heads_back (length self.new.entries) self.old.heads }
    {
        let end = self.opened[level];
        self.entries.truncate(end);
        self.opened.truncate(level);
        self.heads.back_to(end);
    }
}

// Room for the place of an entry with the atom.
fn make_room(places: &mut Vec<usize>, atom: AtomId) -> Result<(), Memory>
    ensures kept { (more : List ℕ) × (places.new.items ≡ places.old.items ++ more) }
    ensures room { OnOk result (atom.0 < length places.new.items) }
{
    let end = atom.0.checked_add(1).ok_or(Memory)?;
    if places.len() < end {
        places.resize(end, 0)?;
    }
    Ok(())
}

fn place_at(places: &[usize], atom: usize) -> Option<usize>
    ensures { result ≡ slice_get places.now atom }
{
    places.get(atom).copied()
}

fn entry_at(entries: &[Entry], place: usize) -> Option<Entry>
    ensures { result ≡ slice_get entries.now place }
{
    entries.get(place).copied()
}
