ghost use Rattle.std.specs.Prelude.{Some, None};

use crate::{ask, tell};
use fm_base::Memory;
use fm_guide::{Event, Expect, Fixed, Guide, MemGuide, MemWatch, Menu, Offer, Turns, Watch};
use std::alloc::Global;
use std::test::Fail;

fn three(alloc: Global) -> Result<Menu, Memory> {
    let offers = Vec::from_slice(alloc, &[Offer::Turn, Offer::Raise, Offer::Unit(2)])?;
    Ok(Menu::new(offers))
}

fn one(alloc: Global) -> Result<Menu, Memory> {
    let offers = Vec::from_slice(alloc, &[Offer::Raise])?;
    Ok(Menu::new(offers))
}

// Whether these places are given, one after the other.
fn gives(guide: &mut Option<&mut Box<dyn Guide>>, menu: &Menu, places: &[usize]) -> bool {
    let mut same = true;
    for place in places {
        same = ask(guide, menu) == *place && same;
    }
    same
}

#[test]
fn no_guide_takes_the_first_offer(rt: HostRuntime) -> Result<(), Fail> {
    let mut guide = None;
    assert!(rt; gives(&mut guide, &three(rt.alloc())?, &[0, 0]));
    assert!(rt; gives(&mut guide, &one(rt.alloc())?, &[0]));
    Ok(())
}

#[test]
fn a_number_is_taken_modulo_the_count(rt: HostRuntime) -> Result<(), Fail> {
    let mut seven: Box<dyn Guide> = Box::new(rt.alloc(), Fixed(7))?;
    let mut guide = Some(&mut seven);
    assert!(rt; gives(&mut guide, &three(rt.alloc())?, &[1, 1]));
    assert!(rt; gives(&mut guide, &one(rt.alloc())?, &[0, 0]));
    Ok(())
}

#[test]
fn guides_go_on(rt: HostRuntime) -> Result<(), Fail> {
    let answers = Vec::from_slice(rt.alloc(), &[5, 3, u64::MAX - 1])?;
    let mut list: Box<dyn Guide> = Box::new(rt.alloc(), MemGuide::new(answers))?;
    assert!(rt; gives(&mut Some(&mut list), &three(rt.alloc())?, &[2, 0, 2, 0, 0]));
    let mut turns: Box<dyn Guide> = Box::new(rt.alloc(), Turns(4))?;
    assert!(rt; gives(&mut Some(&mut turns), &three(rt.alloc())?, &[1, 2, 0, 1]));
    Ok(())
}

// A watch that keeps its events, and agrees with so many of them.
#[derive(Drop)]
struct Counted {
    kept: MemWatch,
    wanted: usize,
}

impl Watch for Counted {
    ghost seen = { λ w. Some w.kept };

    fn tell(&mut self, event: &Event) -> Result<(), Memory> {
        self.kept.tell(event)
    }

    fn agrees(&self) -> bool {
        self.kept.events().len() == self.wanted
    }
}

// A watch that has no memory for any event.
#[derive(Clone, Copy, Debug, PartialEq, Eq, Drop)]
struct Full;

impl Watch for Full {
    ghost seen = { λ _. None };

    fn tell(&mut self, _event: &Event) -> Result<(), Memory> {
        Err(Memory)
    }

    fn agrees(&self) -> bool {
        true
    }
}

fn turn_and_raise(alloc: Global) -> Result<Expect, Memory> {
    let mut events = Vec::new(alloc);
    events.push(Event::Turn)?;
    events.push(Event::Raise)?;
    Ok(Expect::new(events))
}

fn counting(alloc: Global, wanted: usize) -> Counted {
    let kept = MemWatch::new(alloc);
    Counted { kept, wanted }
}

// Tells a turn and a raise, and gives how many calls had the memory for it.
fn told(watches: &mut Vec<Box<dyn Watch>>) -> usize {
    let first = tell(watches, &Event::Turn).is_ok();
    let second = tell(watches, &Event::Raise).is_ok();
    first as usize + second as usize
}

fn all_agree(watches: &[Box<dyn Watch>]) -> bool {
    let mut agree = true;
    for watch in watches {
        agree = watch.agrees() && agree;
    }
    agree
}

#[test]
fn each_watch_is_told(rt: HostRuntime) -> Result<(), Fail> {
    let mut watches: Vec<Box<dyn Watch>> = Vec::new(rt.alloc());
    assert!(rt; told(&mut watches) == 2);
    watches.push(Box::new(rt.alloc(), turn_and_raise(rt.alloc())?)?)?;
    watches.push(Box::new(rt.alloc(), counting(rt.alloc(), 2))?)?;
    watches.push(Box::new(rt.alloc(), turn_and_raise(rt.alloc())?)?)?;
    assert!(rt; !all_agree(watches.as_slice()));
    assert!(rt; told(&mut watches) == 2);
    assert!(rt; all_agree(watches.as_slice()));
    Ok(())
}

#[test]
fn those_after_a_full_watch_are_not_told(rt: HostRuntime) -> Result<(), Fail> {
    let mut watches: Vec<Box<dyn Watch>> = Vec::new(rt.alloc());
    watches.push(Box::new(rt.alloc(), turn_and_raise(rt.alloc())?)?)?;
    watches.push(Box::new(rt.alloc(), counting(rt.alloc(), 2))?)?;
    watches.push(Box::new(rt.alloc(), Full)?)?;
    watches.push(Box::new(rt.alloc(), counting(rt.alloc(), 0))?)?;
    assert!(rt; told(&mut watches) == 0);
    assert!(rt; all_agree(watches.as_slice()));
    Ok(())
}
