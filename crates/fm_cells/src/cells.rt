ghost use Rattle.std.specs.Prelude.{◌≡◌, ◌<◌, ◌≤◌, ◌+◌, ◌++◌, ◌∷◌, [], length, take, drop, slice_get, slice_set, vec_capacity, vec_len};
ghost use Rattle.std.specs.Prelude.{Some, OnOk, OnErr};
ghost use Rattle.std.proofs.Props.{props};
ghost use Rattle.fm_cells.specs.Logs.{AreOfCells, HasLogged, restored};

use fm_base::Memory;
use std::alloc::Global;

/// A list of cells that remembers what each write wrote over, so that it can go back: the log has the cell and its old
/// content for each write, the newest last. What an e-graph holds for each node stands in such lists, and a level is the
/// length of their logs. Cells are never taken away: those that are pushed after a level stay when it is undone.
#[derive(Drop)]
pub struct Logged<T: Copy> {
    pub cells: Vec<T>,
    pub log: Vec<(usize, T)>,
    pub ghost places: { AreOfCells cells.items log.items } by { Prim.hlevel props },
}

impl<T: Copy> Logged<T> {
    /// No cells, and nothing written.
    pub fn new(alloc: Global) -> Logged<T>
        ensures cells { result.cells.items ≡ [] }
        ensures log { result.log.items ≡ [] }
    {
        Logged {
            cells: Vec::new(alloc),
            log: Vec::new(alloc),
        }
    }

    /// How many cells there are.
    pub fn len(&self) -> usize
        ensures { result ≡ length self.now.cells.items }
    {
        self.cells.len()
    }

    /// How long the log is: what `rewind` takes to come back here.
    pub fn mark(&self) -> usize
        ensures { result ≡ length self.now.log.items }
    {
        self.log.len()
    }

    /// The content of a cell.
    pub fn get(&self, i: usize) -> T
        requires { i < length self.now.cells.items }
        ensures { slice_get self.now.cells.items i ≡ Some result }
    {
        self.cells[i]
    }

    /// Makes room for one more cell, so that `push_within` can't fail.
    pub fn reserve(&mut self) -> Result<(), Memory>
        ensures room { OnOk result (vec_len self.new.cells < vec_capacity self.new.cells) }
        ensures cells { self.new.cells.items ≡ self.old.cells.items }
        ensures log { self.new.log.items ≡ self.old.log.items }
    {
        self.cells.reserve(1)?;
        Ok(())
    }

    /// A new cell, where there is room for it.
    pub fn push_within(&mut self, value: T)
        requires room { vec_len self.old.cells < vec_capacity self.old.cells }
        ensures cells { self.new.cells.items ≡ self.old.cells.items ++ value ∷ [] }
        ensures log { self.new.log.items ≡ self.old.log.items }
    {
        let _ = self.cells.push(value);
    }

    /// A new cell. The log doesn't change, so no undo takes it away.
    pub fn push(&mut self, value: T) -> Result<(), Memory>
        ensures cells { OnOk result (self.new.cells.items ≡ self.old.cells.items ++ value ∷ []) }
        ensures err { OnErr result (self.new.cells.items ≡ self.old.cells.items) }
        ensures log { self.new.log.items ≡ self.old.log.items }
    {
        self.reserve()?;
        self.push_within(value);
        Ok(())
    }

    /// Writes a cell, and into the log what stood there.
    pub fn set(&mut self, i: usize, value: T) -> Result<(), Memory>
        requires { i < length self.old.cells.items }
        ensures cells { OnOk result (self.new.cells.items ≡ slice_set self.old.cells.items i value) }
        ensures err { OnErr result (self.new.cells.items ≡ self.old.cells.items) }
        ensures longer { OnOk result (length self.new.log.items ≡ length self.old.log.items + 1) }
        ensures logged { HasLogged self.old.log.items self.old.cells.items self.new.log.items self.new.cells.items }
    {
        let old = self.get(i);
        self.log.push((i, old))?;
        self.cells[i] = value;
        Ok(())
    }

    // Takes one write back.
    fn restore(&mut self, entry: (usize, T))
        requires { entry.0 < length self.old.cells.items }
        ensures cells { self.new.cells.items ≡ slice_set self.old.cells.items entry.0 entry.1 }
        ensures log { self.new.log.items ≡ self.old.log.items }
    {
        let (i, value) = entry;
        self.cells[i] = value;
    }

    /// Takes the writes back, the newest first, down to a length of the log that `mark` told. It takes no memory.
    pub fn rewind(&mut self, to: usize)
        requires { to ≤ length self.old.log.items }
        ensures log { self.new.log.items ≡ take to self.old.log.items }
        ensures cells { self.new.cells.items ≡ restored (drop to self.old.log.items) self.old.cells.items }
    {
        while self.log.len() > to {
            match self.log.pop() {
                Some(entry) => self.restore(entry),
                None => return,
            }
        }
    }
}
