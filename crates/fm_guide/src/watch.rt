ghost use Rattle.std.specs.Prelude.{◌≡◌, ◌++◌, ◌∷◌, [], List, Option, Some, None, true, OnOk, OnErr, IsOk};
ghost use Rattle.fm_guide.specs.Watches.{with_event};
ghost use Rattle.fm_guide.specs.declared.event.Event.{Event as TheEvent};

use crate::event::{Event, copy_of};
use fm_base::Memory;
use std::alloc::Global;
use std::marker::Model;

/// Who is told the events of a search. `seen` is the list of those told, where it is known.
pub trait Watch: Drop {
    ghost seen: { Self → Option (List TheEvent) };

    /// Tells an event. After want of memory nothing has changed.
    fn tell(&mut self, event: &Event) -> Result<(), Memory>
        ensures told { OnOk result (seen self.new ≡ with_event event.now (seen self.old)) }
        ensures err { OnErr result (seen self.new ≡ seen self.old) };

    /// What it makes of its events. Nothing is promised of it in general.
    fn agrees(&self) -> bool;
}

/// A watch that keeps all events and agrees with them.
#[derive(Drop)]
pub struct MemWatch {
    alloc: Global,
    events: Vec<Event>,
}

impl Model for MemWatch {
    ghost Value = { List TheEvent };

    ghost view = { λ w. w.events.items };
}

impl MemWatch {
    /// A watch that has seen nothing.
    pub fn new(alloc: Global) -> MemWatch
        ensures { result ≡ [] }
    {
        MemWatch {
            alloc,
            events: Vec::new(alloc),
        }
    }

    /// The events told, in order.
    pub fn events(&self) -> &[Event]
        ensures { result.now ≡ self.now }
    {
        self.events.as_slice()
    }
}

impl Watch for MemWatch {
    ghost seen = { λ w. Some w };

    fn tell(&mut self, event: &Event) -> Result<(), Memory>
        ensures told { OnOk result (self.new ≡ self.old ++ event.now ∷ []) }
        ensures err { OnErr result (self.new ≡ self.old) }
    {
        let event = copy_of(self.alloc, event)?;
        self.events.push(event)?;
        Ok(())
    }

    fn agrees(&self) -> bool
        ensures { result ≡ true }
    {
        true
    }
}

/// A watch that keeps nothing, tells nothing, and agrees with everything.
#[derive(Clone, Copy, Debug, PartialEq, Eq, Drop)]
pub struct Quiet;

impl Watch for Quiet {
    ghost seen = { λ _. None };

    fn tell(&mut self, _event: &Event) -> Result<(), Memory>
        ensures { IsOk result }
    {
        Ok(())
    }

    fn agrees(&self) -> bool
        ensures { result ≡ true }
    {
        true
    }
}
