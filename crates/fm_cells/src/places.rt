ghost use Rattle.std.specs.Prelude.{◌≡◌, ◌++◌, ◌∷◌, [], OnOk, OnErr};
ghost use Rattle.fm_cells.specs.Apart.{popped_from};

use fm_base::Memory;
use std::alloc::Global;
use std::marker::Model;

/// A list of places in another list.
#[derive(Drop)]
pub struct Places {
    places: Vec<usize>,
}

impl Model for Places {
    ghost use Rattle.std.specs.Prelude.{List, ℕ};

    ghost Value = { List ℕ };

    ghost view = { λ p. p.places.items };
}

impl Places {
    /// No places.
    pub fn new(alloc: Global) -> Places
        ensures { result ≡ [] }
    {
        Places {
            places: Vec::new(alloc),
        }
    }

    /// The places, in the order in which they were put in.
    pub fn as_slice(&self) -> &[usize]
        ensures { result.now ≡ self.now }
    {
        self.places.as_slice()
    }

    /// Puts a place in, behind the others.
    pub fn push(&mut self, place: usize) -> Result<(), Memory>
        ensures ok { OnOk result (self.new ≡ self.old ++ place ∷ []) }
        ensures err { OnErr result (self.new ≡ self.old) }
    {
        self.places.push(place)?;
        Ok(())
    }

    /// Takes the last place out where it isn't below a bound.
    pub fn pop_from(&mut self, bound: usize)
        ensures { self.new ≡ popped_from bound self.old }
    {
        let count = self.places.len();
        if count > 0 && self.places[count - 1] >= bound {
            self.places.truncate(count - 1);
        }
    }
}
