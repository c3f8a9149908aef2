ghost use Rattle.std.specs.Prelude.{◌≡◌, ◌↔◌, [], List, Option, drop, if◌then◌else◌, true, Some, None, IsOk};
ghost use Rattle.fm_guide.specs.Watches.{IsAfter};
ghost use Rattle.fm_guide.specs.declared.event.Event.{Event as TheEvent};

use crate::event::{Event, is_same};
use crate::watch::Watch;
use fm_base::Memory;
use std::marker::Model;

/// A watch that waits for the events of a list, one after the other, and then for nothing more. It tells no list.
#[derive(Drop)]
pub struct Expect {
    first: Vec<Event>,
    met: usize,
    differs: bool,
}

impl Model for Expect {
    ghost Value = { Option (List TheEvent) };

    ghost view = { λ w. if w.differs then None else Some (drop w.met w.first.items) };
}

impl Expect {
    /// A watch that waits for these.
    pub fn new(first: Vec<Event>) -> Expect
        ensures { result ≡ Some first.items }
    {
        Expect {
            first,
            met: 0,
            differs: false,
        }
    }
}

impl Watch for Expect {
    ghost seen = { λ _. None };

    fn tell(&mut self, event: &Event) -> Result<(), Memory>
        ensures ok { IsOk result }
        ensures left { IsAfter event.now self.old self.new }
    {
        if let Some(expected) = self.first.as_slice().get(self.met) {
            if is_same(expected, event) {
                self.met += 1;
            } else {
                self.differs = true;
            }
        }
        Ok(())
    }

    /// Whether as many events were told as it waited for at first, and each was the one at its place.
    fn agrees(&self) -> bool
        ensures { (result ≡ true) ↔ (self.now ≡ Some []) }
    {
        !self.differs && self.met >= self.first.as_slice().len()
    }
}
