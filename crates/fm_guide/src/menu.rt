ghost use Rattle.std.specs.Prelude.{◌≡◌, ◌<◌, ◌≤◌, List, length, slice_get, Some};
ghost use Rattle.fm_guide.specs.Guides.{IsMenu};
ghost use Rattle.fm_guide.specs.declared.menu.Offer.{Offer as TheOffer};

use crate::event::Word;
use fm_base::{Lit, Reader, TermId};
use std::marker::Model;

/// One thing that the search may do next. `Instance` names the clause alone.
#[derive(Clone, Copy, Debug, PartialEq, Eq)]
pub enum Offer {
    Learn(usize),
    Unit(usize),
    Take(Reader),
    Lemma(Reader),
    Imply(Reader),
    Turn,
    Decide(Lit),
    Split(TermId, TermId),
    Instance(usize),
    Raise,
    Answer(Word),
}

/// What a guide chooses from: 1 to 64 offers, in order.
#[derive(Drop)]
pub struct Menu {
    offers: Vec<Offer>,
}

impl Model for Menu {
    ghost Value = { List TheOffer };

    ghost view = { λ m. m.offers.items };

    ghost invariant = { λ m. IsMenu m.offers.items };
}

impl Menu {
    /// The menu of these offers, of which there are 1 to 64.
    pub fn new(offers: Vec<Offer>) -> Menu
        requires { IsMenu offers.items }
        ensures { result ≡ offers.items }
    {
        Menu { offers }
    }

    /// How many offers there are.
    pub fn len(&self) -> usize
        ensures count { result ≡ length self.now }
        ensures some { 0 < result }
        ensures few { result ≤ 64 }
    {
        self.offers.len()
    }

    /// An offer by its place, from 0.
    pub fn offer(&self, place: usize) -> Offer
        requires { place < length self.now }
        ensures { slice_get self.now place ≡ Some result }
    {
        self.offers[place]
    }
}
