ghost use Rattle.std.specs.Prelude.{◌≡◌, ℕ, Option, Some, None, IfSome};
ghost use Rattle.std.specs.List.{slice_index_or};
ghost use Rattle.fm_guide.specs.Guides.{GoesOn, last, next};

use crate::menu::Menu;
use std::marker::Model;

/// Who chooses among the offers of a menu. The answer is taken modulo the number of offers, so any number will do.
///
/// `always` is the one number that it answers, where it has one, and no call changes it. `turns` grows with each call,
/// up to the last number of 64 bits.
pub trait Guide: Drop {
    ghost always: { Self → Option ℕ };

    ghost turns: { Self → ℕ };

    /// Chooses from the menu.
    fn choose(&mut self, menu: &Menu) -> u64
        ensures answer { IfSome (always self.old) (λ n. result ≡ n) }
        ensures same { always self.new ≡ always self.old }
        ensures turns { GoesOn (turns self.old) (turns self.new) };
}

/// A guide that always answers its number.
#[derive(Clone, Copy, Debug, PartialEq, Eq, Drop)]
pub struct Fixed(pub u64);

impl Guide for Fixed {
    ghost always = { λ f. Some f.0 };

    ghost turns = { λ _. last };

    fn choose(&mut self, _menu: &Menu) -> u64
        ensures answer { result ≡ self.old.0 }
        ensures kept { self.new ≡ self.old }
    {
        let Fixed(number) = *self;
        number
    }
}

/// A guide that answers its number, which is one greater at the next call, up to the last number of 64 bits.
#[derive(Clone, Copy, Debug, PartialEq, Eq, Drop)]
pub struct Turns(pub u64);

impl Guide for Turns {
    ghost always = { λ _. None };

    ghost turns = { λ t. t.0 };

    fn choose(&mut self, _menu: &Menu) -> u64
        ensures answer { result ≡ self.old.0 }
        ensures onward { self.new.0 ≡ next self.old.0 }
    {
        let number = self.0;
        self.0 = number.saturating_add(1);
        number
    }
}

/// A guide that gives the answers of a list in turn, and then 0.
#[derive(Drop)]
pub struct MemGuide {
    answers: Vec<u64>,
    asked: usize,
}

impl Model for MemGuide {
    ghost use Rattle.fm_guide.specs.Guides.{Answers};

    ghost Value = { Answers };

    ghost view = { λ g. record { answers = g.answers.items; asked = g.asked } };
}

impl MemGuide {
    /// A guide that hasn't been asked yet.
    pub fn new(answers: Vec<u64>) -> MemGuide
        ensures { result ≡ record { answers = answers.items; asked = 0 } }
    {
        MemGuide { answers, asked: 0 }
    }
}

impl Guide for MemGuide {
    ghost always = { λ _. None };

    ghost turns = { λ g. g.asked };

    fn choose(&mut self, _menu: &Menu) -> u64
        ensures answer { result ≡ slice_index_or self.old.answers self.old.asked 0 }
        ensures onward { self.new ≡ record { answers = self.old.answers; asked = next self.old.asked } }
    {
        let answer = self.answers.get(self.asked).copied().unwrap_or(0);
        self.asked = self.asked.saturating_add(1);
        answer
    }
}
