use crate::event::is_same;
use crate::{
    Event, Expect, Fixed, Guide, MemGuide, MemWatch, Menu, Offer, Quiet, Turns, Watch, Word,
};
use fm_base::{AtomId, Lit, Memory, Reader, TermId};
use sqlite_items::Items;
use std::alloc::Global;
use std::process::Abort;
use std::test::Fail;

fn instance(alloc: Global, terms: &[TermId]) -> Result<Event, Memory> {
    let terms = Items::from_slice(alloc, terms)?;
    Ok(Event::Instance { clause: 1, terms })
}

fn decision(positive: bool) -> Event {
    let atom = AtomId(2);
    Event::Decide {
        lit: Lit { atom, positive },
    }
}

// An event by a letter.
fn event(alloc: Global, letter: u8) -> Result<Event, Memory> {
    match letter {
        b'l' => Ok(Event::Learn { clause: 3 }),
        b'u' => Ok(Event::Unit { clause: 3 }),
        b't' => Ok(Event::Take {
            reader: Reader::Sum,
        }),
        b'T' => Ok(Event::Turn),
        b'd' => Ok(decision(true)),
        b'D' => Ok(decision(false)),
        b'i' => instance(alloc, &[TermId(0), TermId(2)]),
        b'I' => instance(alloc, &[TermId(0)]),
        _ => Ok(Event::Answer { word: Word::Sat }),
    }
}

fn tell_one(alloc: Global, watch: &mut impl Watch, letter: u8) -> Result<(), Memory> {
    let event = event(alloc, letter)?;
    watch.tell(&event)
}

// Tells the events of the letters; a point is none.
fn tell(alloc: Global, watch: &mut impl Watch, letters: &[u8]) -> Result<(), Memory> {
    for letter in letters {
        if *letter != b'.' {
            tell_one(alloc, watch, *letter)?;
        }
    }
    Ok(())
}

fn add(alloc: Global, events: &mut Vec<Event>, letters: &[u8]) -> Result<(), Memory> {
    for letter in letters {
        if *letter != b'.' {
            events.push(event(alloc, *letter)?)?;
        }
    }
    Ok(())
}

fn expecting(alloc: Global, letters: &[u8]) -> Result<Expect, Memory> {
    let mut events = Vec::new(alloc);
    add(alloc, &mut events, letters)?;
    Ok(Expect::new(events))
}

fn agrees(alloc: Global, first: &[u8], told: &[u8]) -> Result<bool, Memory> {
    let mut watch = expecting(alloc, first)?;
    tell(alloc, &mut watch, told)?;
    Ok(watch.agrees())
}

// What is expected, what is told, and whether the watch agrees.
const ROWS: &[u8] =
    b"... ... +... Tl. +T.. ... -Td. T.. -Td. Td. +Td. Tdl +Td. TD. -Td. dT. -l.. u.. -i.. I.. -tia tia +";

fn is_row(alloc: Global, row: &[u8]) -> Result<bool, Memory> {
    match row {
        [a, b, c, _, d, e, f, _, sign, ..] => {
            Ok(agrees(alloc, &[*a, *b, *c], &[*d, *e, *f])? == (*sign == b'+'))
        }
        _ => Ok(false),
    }
}

#[test]
fn expects_a_front(rt: HostRuntime) -> Result<(), Fail> {
    for row in ROWS.chunks(9) {
        assert!(rt; is_row(rt.alloc(), row)?);
    }
    Ok(())
}

fn are_these(alloc: Global, events: &[Event], letters: &[u8]) -> Result<bool, Memory> {
    let mut same = events.len() == letters.len();
    for (event, letter) in events.iter().zip(letters) {
        same = same && is_same(event, &self::event(alloc, *letter)?);
    }
    Ok(same)
}

fn keeps(alloc: Global, letters: &[u8]) -> Result<bool, Memory> {
    let mut watch = MemWatch::new(alloc);
    tell(alloc, &mut watch, letters)?;
    are_these(alloc, watch.events(), letters)
}

#[test]
fn keeps_events_in_order(rt: HostRuntime) -> Result<(), Fail> {
    assert!(rt; keeps(rt.alloc(), b"luttTdDiIa")?);
    tell(rt.alloc(), &mut Quiet, b"Ti")?;
    assert!(rt; Quiet.agrees());
    Ok(())
}

fn answers(guide: &mut impl Guide, menu: &Menu, wanted: &[u64]) -> bool {
    for number in wanted {
        if guide.choose(menu) != *number {
            return false;
        }
    }
    true
}

fn choose(rt: &impl Abort, menu: &Menu, guide: &mut MemGuide) {
    assert!(rt; menu.len() == 2 && menu.offer(1) == Offer::Raise);
    assert!(rt; answers(&mut Fixed(5), menu, &[5, 5, 5]));
    assert!(rt; answers(&mut Turns(7), menu, &[7, 8, 9]));
    assert!(rt;
        answers(
            &mut Turns(u64::MAX - 1),
            menu,
            &[u64::MAX - 1, u64::MAX, u64::MAX]
        )
    );
    assert!(rt; answers(guide, menu, &[5, u64::MAX, 0, 0]));
}

#[test]
fn guides_answer_in_turn(rt: HostRuntime) -> Result<(), Fail> {
    let offers = Vec::from_slice(rt.alloc(), &[Offer::Turn, Offer::Raise])?;
    let mut guide = MemGuide::new(Vec::from_slice(rt.alloc(), &[5, u64::MAX])?);
    choose(&rt, &Menu::new(offers), &mut guide);
    Ok(())
}
