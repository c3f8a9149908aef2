ghost use Rattle.std.specs.Prelude.{◌≡◌, ◌^◌, ◌<◌, ◌+◌, ◌-◌, ◌++◌, ◌∷◌, [], length, take, replicate, OnOk, OnErr};
ghost use Rattle.fm_levels.specs.Levels.{in_newest, joined};

use fm_base::Memory;
use std::alloc::Global;
use std::marker::Model;

/// Entries without names, level by level. A level is closed in time of what stands in it.
#[derive(Drop)]
pub struct Stack<T> {
    all: Vec<T>,
    // how many entries stood as each level above the first was opened
    marks: Vec<usize>,
}

impl<T> Model for Stack<T> {
    ghost use Rattle.std.specs.Prelude.{List, length};
    ghost use Rattle.fm_levels.specs.Cuts.{Ascend, cut_from};

    ghost Value = { List (List T) };

    ghost view = { λ s. cut_from s.all.items 0 s.marks.items };

    ghost invariant = { λ s. Ascend 0 s.marks.items (length s.all.items) };
}

impl<T: Drop> Stack<T> {
    /// One level, and nothing in it.
    pub fn new(alloc: Global) -> Self
        ensures { result ≡ [] ∷ [] }
    {
        Stack {
            all: Vec::new(alloc),
            marks: Vec::new(alloc),
        }
    }

    /// What stands in all levels, in order.
    pub fn as_slice(&self) -> &[T]
        ensures { result.now ≡ joined self.now }
    {
        self.all.as_slice()
    }

    /// Adds an entry in the newest level.
    pub fn insert(&mut self, entry: T) -> Result<(), Memory>
        ensures added { OnOk result (self.new ≡ in_newest self.old entry) }
        ensures err { OnErr result (self.new ≡ self.old) }
    {
        self.all.push(entry)?;
        Ok(())
    }

    /// Opens so many levels, with nothing in them.
    pub fn push(&mut self, count: usize) -> Result<(), Memory>
        requires { length self.old + count < 2 ^ 63 }
        ensures opened { OnOk result (self.new ≡ self.old ++ replicate count []) }
        ensures err { OnErr result (self.new ≡ self.old) }
    {
        let wanted = self.marks.as_slice().len() + count;
        let mark = self.all.as_slice().len();
        self.marks.resize(wanted, mark)?;
        Ok(())
    }

    /// Closes the newest levels, which are fewer than there are.
    pub fn pop(&mut self, count: usize)
        requires { count < length self.old }
        ensures { self.new ≡ take (length self.old - count) self.old }
    {
        let kept = self.marks.as_slice().len() - count;
        if count > 0 {
            let mark = self.marks[kept];
            self.all.truncate(mark);
            self.marks.truncate(kept);
        }
    }
}
