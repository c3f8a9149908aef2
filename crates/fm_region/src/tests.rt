use crate::graphs::{bank, follow, follow_strong, graph, read};
use crate::plain::{MOST, PAIRS, Plain};
use crate::{Pick, Regions, Strong, Weak, pick_of};
use fm_bank::Bank;
use fm_base::{Memory, SortId, Undo};
use fm_cong::Egraph;
use sqlite_items::Items;
use std::alloc::Global;
use std::process::Abort;
use std::test::Fail;

// Some constants, the pairs of them that are unequal, and steps: regions at k (f), the first large one at k (w, and its
// number or a point), the answer at k (s, and F, C with the number of terms, or the two terms), a level (m), back to it (u).
const CASES: [(usize, &[u8], &[u8]); 3] = [
    (
        3,
        b"01",
        b"f1  w10 m   f2  w2. w00 s202w20 f2  w2. w00 u0  w10 w2. s1C2",
    ),
    (5, b"01020312130414233424", b"s4C5s5F."),
    (2, b"", b"s101s2F."),
];

fn digit(byte: u8) -> usize {
    usize::from(byte.saturating_sub(b'0'))
}

fn is_weak(weak: Weak, wanted: u8) -> bool {
    match weak {
        Weak::Clear => wanted == b'.',
        Weak::Test(at) => wanted != b'.' && at == digit(wanted),
    }
}

fn is_strong(answer: &Strong, first: u8, second: u8) -> bool {
    match answer {
        Strong::Fits => first == b'F',
        Strong::Clique(terms) => first == b'C' && terms.len() == digit(second),
        Strong::Split(c, d) => c.0 == digit(first) && d.0 == digit(second),
    }
}

fn ask(
    rt: &impl Abort,
    regions: &mut Regions,
    graph: &Egraph,
    k: usize,
    wanted: (u8, u8),
) -> Result<bool, Memory> {
    let answer = follow_strong(rt, regions, graph, k as u64)?;
    Ok(is_strong(&answer, wanted.0, wanted.1))
}

fn go_back(rt: &impl Abort, regions: &mut Regions, level: usize) -> Result<bool, Memory> {
    let top = regions.mark()?;
    assert!(rt; level <= top);
    regions.undo_to(level);
    Ok(true)
}

fn holds(
    rt: &impl Abort,
    regions: &mut Regions,
    graph: &Egraph,
    step: &[u8],
) -> Result<bool, Memory> {
    match step {
        [b'f', k, ..] => {
            follow(rt, regions, graph, digit(*k) as u64)?;
            Ok(true)
        }
        [b'w', k, wanted, ..] => Ok(is_weak(regions.weak(digit(*k) as u64), *wanted)),
        [b's', k, first, second] => ask(rt, regions, graph, digit(*k), (*first, *second)),
        [b'm', ..] => {
            regions.mark()?;
            Ok(true)
        }
        [b'u', level, ..] => go_back(rt, regions, digit(*level)),
        _ => Ok(false),
    }
}

fn all_hold(
    rt: &impl Abort,
    regions: &mut Regions,
    graph: &Egraph,
    steps: &[u8],
) -> Result<bool, Memory> {
    for step in steps.chunks(4) {
        if !holds(rt, regions, graph, step)? {
            return Ok(false);
        }
    }
    Ok(true)
}

fn read_pairs(
    rt: &impl Abort,
    graph: &mut Egraph,
    bank: &mut Bank,
    pairs: &[u8],
) -> Result<(), Memory> {
    for pair in pairs.chunks(2) {
        if let [a, b] = pair {
            read(rt, graph, bank, (digit(*a), digit(*b)), false)?;
        }
    }
    Ok(())
}

fn run_on(rt: &impl Abort, alloc: Global, graph: &Egraph, steps: &[u8]) -> Result<bool, Memory> {
    let mut regions = Regions::new(alloc, SortId(0));
    all_hold(rt, &mut regions, graph, steps)
}

fn run(
    rt: &impl Abort,
    alloc: Global,
    constants: usize,
    pairs: &[u8],
    steps: &[u8],
) -> Result<bool, Memory> {
    let mut bank = bank(rt, alloc, constants)?;
    let mut graph = graph(rt, alloc, &bank)?;
    read_pairs(rt, &mut graph, &mut bank, pairs)?;
    run_on(rt, alloc, &graph, steps)
}

// Reads that two constants are unequal (r) or equal (e), opens a level of the graph (M) or goes back to it (U); else as above.
// So regions are followed through changes of the graph: a pair more, levels with a pair and with an equality, and the same
// again.
const CHANGES: [&[u8]; 2] = [
    b"f1  w1. r01 f1  w10 f1  w10 f2  w2. f1  w10 m   M   r02 f1  w20 f1  w20 u0  U0  w2. f1  w10 w2. ",
    b"m   M   e12 f1  w10 w2. s1C2f1  w10 f2  w1. u0  U0  w10 f1  w10 f2  w1. s202w20 f2  w1. r02 r12 f2  w20 s2C3",
];

fn graph_back(rt: &impl Abort, graph: &mut Egraph, level: usize) -> Result<bool, Memory> {
    let top = graph.mark()?;
    assert!(rt; level <= top);
    graph.undo_to(level);
    Ok(true)
}

fn holds_after(
    rt: &impl Abort,
    regions: &mut Regions,
    graph: &mut Egraph,
    bank: &mut Bank,
    step: &[u8],
) -> Result<bool, Memory> {
    match step {
        [kind @ (b'r' | b'e'), a, b, ..] => {
            read(rt, graph, bank, (digit(*a), digit(*b)), *kind == b'e')?;
            Ok(true)
        }
        [b'M', ..] => {
            graph.mark()?;
            Ok(true)
        }
        [b'U', level, ..] => graph_back(rt, graph, digit(*level)),
        _ => holds(rt, regions, graph, step),
    }
}

fn all_hold_after(
    rt: &impl Abort,
    regions: &mut Regions,
    graph: &mut Egraph,
    bank: &mut Bank,
    steps: &[u8],
) -> Result<bool, Memory> {
    for step in steps.chunks(4) {
        if !holds_after(rt, regions, graph, bank, step)? {
            return Ok(false);
        }
    }
    Ok(true)
}

fn follow_changes(rt: &impl Abort, alloc: Global, bank: &mut Bank) -> Result<bool, Memory> {
    let mut graph = graph(rt, alloc, bank)?;
    let mut regions = Regions::new(alloc, SortId(0));
    for steps in CHANGES {
        if !all_hold_after(rt, &mut regions, &mut graph, bank, steps)? {
            return Ok(false);
        }
    }
    Ok(true)
}

#[test]
fn follows_changes(rt: HostRuntime) -> Result<(), Fail> {
    let mut bank = bank(&rt, rt.alloc(), 3)?;
    assert!(rt; follow_changes(&rt, rt.alloc(), &mut bank)?);
    Ok(())
}

#[test]
fn works_cases(rt: HostRuntime) -> Result<(), Fail> {
    for case in CASES.iter() {
        assert!(rt; run(&rt, rt.alloc(), case.0, case.1, case.2)?);
    }
    Ok(())
}

// Whether a list has the classes of this home, in order.
fn is_region(plain: &Plain, home: usize, region: &[usize]) -> bool {
    let mut at: usize = 0;
    for c in 0..plain.classes {
        if plain.home(c) == home {
            if region.get(at).copied() != Some(c) {
                return false;
            }
            at = at.saturating_add(1);
        }
    }
    at == region.len()
}

fn is_region_at(plain: &Plain, home: usize, regions: &[Items<usize>], at: usize) -> bool {
    match regions.get(at) {
        Some(region) => is_region(plain, home, region.as_slice()),
        None => false,
    }
}

// Whether the regions are those of the homes, in order.
fn agree(plain: &Plain, regions: &[Items<usize>]) -> bool {
    let mut at: usize = 0;
    for home in 0..plain.classes {
        if plain.home(home) == home {
            if !is_region_at(plain, home, regions, at) {
                return false;
            }
            at = at.saturating_add(1);
        }
    }
    at == regions.len()
}

// Whether an answer can be the one by the grown regions.
fn is_answer(plain: &Plain, k: usize, answer: &Strong) -> bool {
    match answer {
        Strong::Fits => plain.classes <= k,
        Strong::Split(c, d) => {
            plain.first_large(k) == Some(plain.home(c.0))
                && plain.home(c.0) == plain.home(d.0)
                && c.0 < d.0
                && !plain.are_apart(c.0, d.0)
        }
        Strong::Clique(terms) => k < plain.classes && terms.len() == k.saturating_add(1),
    }
}

fn follows(
    rt: &impl Abort,
    regions: &mut Regions,
    graph: &Egraph,
    plain: &Plain,
    k: usize,
) -> Result<bool, Memory> {
    follow(rt, regions, graph, k as u64)?;
    Ok(agree(plain, regions.present()))
}

fn answers(
    rt: &impl Abort,
    regions: &mut Regions,
    graph: &Egraph,
    plain: &Plain,
    k: usize,
) -> Result<bool, Memory> {
    let answer = follow_strong(rt, regions, graph, k as u64)?;
    Ok(is_answer(plain, k, &answer) && agree(plain, regions.present()))
}

fn agree_at(
    rt: &impl Abort,
    regions: &mut Regions,
    graph: &Egraph,
    start: &Plain,
    k: usize,
) -> Result<bool, Memory> {
    let mut plain = *start;
    plain.close(k);
    if !follows(rt, regions, graph, &plain, k)? {
        return Ok(false);
    }
    plain.grow(k);
    answers(rt, regions, graph, &plain, k)
}

fn agree_always(
    rt: &impl Abort,
    regions: &mut Regions,
    graph: &Egraph,
    start: &Plain,
) -> Result<bool, Memory> {
    for k in 0..MOST + 1 {
        if !agree_at(rt, regions, graph, start, k)? {
            return Ok(false);
        }
    }
    Ok(true)
}

fn agree_on(rt: &impl Abort, alloc: Global, graph: &Egraph, start: &Plain) -> Result<bool, Memory> {
    let mut regions = Regions::new(alloc, SortId(0));
    agree_always(rt, &mut regions, graph, start)
}

fn read_all(
    rt: &impl Abort,
    graph: &mut Egraph,
    bank: &mut Bank,
    plain: &Plain,
) -> Result<(), Memory> {
    for pair in PAIRS.iter() {
        if pair.1 < plain.classes && plain.are_apart(pair.0, pair.1) {
            read(rt, graph, bank, *pair, false)?;
        }
    }
    Ok(())
}

// All numbers k for one graph.
fn agree_for(rt: &impl Abort, alloc: Global, start: &Plain) -> Result<bool, Memory> {
    let mut bank = bank(rt, alloc, start.classes)?;
    let mut graph = graph(rt, alloc, &bank)?;
    read_all(rt, &mut graph, &mut bank, start)?;
    agree_on(rt, alloc, &graph, start)
}

// All graphs of so many classes.
fn agree_for_all(
    rt: &impl Abort,
    alloc: Global,
    classes: usize,
    graphs: usize,
) -> Result<bool, Memory> {
    for apart in 0..graphs {
        if !agree_for(rt, alloc, &Plain::new(classes, apart))? {
            return Ok(false);
        }
    }
    Ok(true)
}

#[test]
fn agrees_with_the_rule(rt: HostRuntime) -> Result<(), Fail> {
    for size in [(0, 1), (1, 1), (2, 2), (3, 8), (4, 64)].iter() {
        assert!(rt; agree_for_all(&rt, rt.alloc(), size.0, size.1)?);
    }
    Ok(())
}

// Some constants, the pairs of them that are unequal, a number, and the test at it: its terms, a point, and its pair.
const PICKS: [(usize, &[u8], u64, &[u8]); 5] = [
    (3, b"010212", 2, b"012."),
    (4, b"010212", 2, b"012."),
    (4, b"0102", 2, b"012.12"),
    (3, b"01", 1, b"01."),
    (3, b"01", 3, b""),
];

fn is_pick(pick: &Pick, wanted: &[u8]) -> bool {
    for (place, byte) in wanted.iter().enumerate() {
        match pick.terms.get(place) {
            Some(term) if term.0 == digit(*byte) => {}
            None if *byte == b'.' => {
                return match pick.pair {
                    None => wanted.len() == place + 1,
                    Some((c, d)) => {
                        wanted.get(place + 1).copied().map(digit) == Some(c.0)
                            && wanted.get(place + 2).copied().map(digit) == Some(d.0)
                    }
                };
            }
            _ => return false,
        }
    }
    false
}

fn picks(
    rt: &impl Abort,
    alloc: Global,
    (constants, pairs, k, wanted): (usize, &[u8], u64, &[u8]),
) -> Result<bool, Memory> {
    let mut bank = bank(rt, alloc, constants)?;
    let mut graph = graph(rt, alloc, &bank)?;
    read_pairs(rt, &mut graph, &mut bank, pairs)?;
    assert!(rt; graph.is_settled());
    Ok(match pick_of(alloc, &graph, SortId(0), k)? {
        Some(pick) => is_pick(&pick, wanted),
        None => wanted.is_empty(),
    })
}

#[test]
fn picks_the_test_of_a_sort(rt: HostRuntime) -> Result<(), Fail> {
    for row in 0..PICKS.len() {
        assert!(rt; picks(&rt, rt.alloc(), PICKS[row])?, "row {row}");
    }
    Ok(())
}
