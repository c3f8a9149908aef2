use crate::shown::shown;
use crate::{Arena, Measure, Op};
use fm_base::{Memory, SortId, SymId, Ty};
use sqlite_items::Items;
use std::alloc::Global;
use std::test::Fail;

const U: Ty = Ty::Of(SortId(0));

// What is added to an arena: a name at a place, what an operator makes, a block of so many variables, around
// which so many names are in scope, over a term, a definition with so many parameters, and its use.
#[derive(Clone, Copy)]
pub(crate) enum Step {
    Name(usize, Ty),
    Make(Op, Ty, &'static [usize]),
    Block(bool, usize, usize, usize),
    Define(usize, usize),
    Use(usize, &'static [usize]),
}

// What an operator makes; None too where it doesn't take the parts.
pub(crate) fn make(
    arena: &mut Arena,
    op: Op,
    ty: Ty,
    parts: Items<usize>,
) -> Result<Option<usize>, Memory> {
    if !arena.takes(op, parts.as_slice()) || ty.is_bool() != op.makes_truth() {
        return Ok(None);
    }
    arena.make(op, ty, parts)
}

// Adds a step; None too where its parts are of wrong kinds.
pub(crate) fn put(arena: &mut Arena, alloc: Global, step: Step) -> Result<Option<usize>, Memory> {
    match step {
        Step::Name(place, ty) => Ok(Some(arena.name(place, ty)?)),
        Step::Make(op, ty, parts) => make(arena, op, ty, Items::from_slice(alloc, parts)?),
        Step::Block(all, count, base, body) => {
            let mut vars = Vec::new(alloc);
            vars.resize(count, SortId(0))?;
            if !arena.ty(body).is_bool() {
                return Ok(None);
            }
            arena.quantify(all, Items::from_vec(vars), base, body)
        }
        Step::Define(body, params) => Ok(Some(arena.define(alloc, body, params)?)),
        Step::Use(body, args) => arena.apply(alloc, body, Items::from_slice(alloc, args)?),
    }
}

// The names x, y and z stand at the places 0 to 2, and a Bool name at place 0 too.
fn steps() -> [Step; 23] {
    [
        Step::Name(0, U),
        Step::Name(1, U),
        Step::Name(0, Ty::Bool),
        Step::Make(Op::App(SymId(0)), U, &[0]),
        Step::Make(Op::Equal, Ty::Bool, &[0, 1]),
        Step::Make(Op::Iff, Ty::Bool, &[2, 4]),
        Step::Make(Op::Distinct(false), Ty::Bool, &[0, 1, 3]),
        Step::Block(true, 1, 1, 4),
        Step::Block(false, 1, 1, 7),
        Step::Make(Op::And, Ty::Bool, &[7, 8]),
        Step::Block(true, 1, 0, 9),
        Step::Make(Op::Ite, Ty::Bool, &[2, 4, 5]),
        Step::Make(Op::Choice, U, &[4, 0, 3]),
        Step::Make(Op::Pred(SymId(1)), Ty::Bool, &[12]),
        Step::Make(Op::Not, Ty::Bool, &[13]),
        Step::Make(Op::Or, Ty::Bool, &[14, 2, 5]),
        Step::Make(Op::Distinct(true), Ty::Bool, &[2, 4]),
        Step::Block(true, 2, 0, 4),
        Step::Name(2, U),
        Step::Make(Op::Equal, Ty::Bool, &[1, 18]),
        Step::Block(false, 1, 2, 19),
        Step::Block(true, 2, 0, 20),
        Step::Make(Op::Truth(false), Ty::Bool, &[]),
    ]
}

// The arena of some steps; None where one is refused.
fn arena_of(alloc: Global, steps: &[Step]) -> Result<Option<Arena>, Memory> {
    let mut arena = Arena::new(alloc);
    for step in steps {
        if put(&mut arena, alloc, *step)?.is_none() {
            return Ok(None);
        }
    }
    Ok(Some(arena))
}

#[test]
fn makes_trees(rt: HostRuntime) -> Result<(), Fail> {
    let Some(arena) = arena_of(rt.alloc(), &steps())? else {
        assert!(rt; false, "a step is refused");
        return Ok(());
    };
    // In 10 the block 7 is read under one variable and under two.
    let rows: [(usize, u64, u64, &[u8]); 16] = [
        (3, 2, 2, b"f00;"),
        (4, 3, 2, b"=00"),
        (5, 5, 3, b"~t=00"),
        (6, 15, 5, b"&!=00!=0f00;!=0f00;;"),
        (7, 4, 3, b"A1=00"),
        (8, 5, 4, b"E1A1=01"),
        (10, 11, 6, b"A1&A1=01E1A1=02;"),
        (11, 10, 4, b"?t=00~t=00"),
        (12, 7, 3, b"/=000f00;"),
        (13, 8, 4, b"p1/=000f00;;"),
        (15, 16, 6, b"|!p1/=000f00;;t~t=00;"),
        (16, 7, 5, b"&!~t=00;"),
        (17, 4, 3, b"A2=01"),
        (21, 5, 4, b"A2E1=12"),
        (22, 1, 1, b"n"),
        (23, 1, 1, b"t"),
    ];
    for (number, size, depth, text) in rows {
        assert_eq!(rt;
            arena.measure(number),
            Measure { size, depth },
            "the measure of {number}"
        );
        assert_eq!(rt;
            shown(rt.alloc(), &arena, number)?.as_slice(),
            text,
            "the tree of {number}"
        );
    }
    Ok(())
}

// The names x and y, and a Bool name at place 0 too, which stand for what definitions are used with.
fn uses() -> [Step; 18] {
    [
        Step::Name(0, U),
        Step::Name(1, U),
        Step::Name(0, Ty::Bool),
        Step::Make(Op::Equal, Ty::Bool, &[0, 1]),
        Step::Block(true, 1, 1, 3),
        Step::Define(4, 1),
        Step::Use(5, &[0]),
        Step::Block(true, 1, 0, 6),
        Step::Make(Op::App(SymId(0)), U, &[0, 0]),
        Step::Define(8, 1),
        Step::Use(9, &[8]),
        Step::Make(Op::Truth(false), Ty::Bool, &[]),
        Step::Define(11, 1),
        Step::Use(12, &[10]),
        Step::Make(Op::Not, Ty::Bool, &[2]),
        Step::Define(14, 1),
        Step::Use(15, &[14]),
        Step::Use(15, &[4]),
    ]
}

#[test]
fn makes_trees_of_uses(rt: HostRuntime) -> Result<(), Fail> {
    let Some(arena) = arena_of(rt.alloc(), &uses())? else {
        assert!(rt; false, "a step is refused");
        return Ok(());
    };
    // In 7 the block of the definition doesn't capture the variable that it is used with.
    let rows: [(usize, u64, u64, &[u8]); 5] = [
        (7, 5, 4, b"A1A1=01"),
        (10, 7, 3, b"f0f000;f000;;"),
        (13, 1, 1, b"n"),
        (16, 3, 3, b"!!t"),
        (17, 5, 4, b"!A1=00"),
    ];
    for (number, size, depth, text) in rows {
        assert_eq!(rt; arena.measure(number), Measure { size, depth });
        assert_eq!(rt; shown(rt.alloc(), &arena, number)?.as_slice(), text);
    }
    Ok(())
}

// Definitions that each use the one before with what the first, which is its parameter, makes of theirs.
fn chain(alloc: Global, arena: &mut Arena, times: usize) -> Result<Option<usize>, Memory> {
    let name = arena.name(0, U)?;
    let same = arena.define(alloc, name, 1)?;
    let mut number = same;
    for _ in 0..times {
        let name = arena.name(0, U)?;
        let Some(arg) = arena.apply(alloc, same, Items::from_slice(alloc, &[name])?)? else {
            return Ok(None);
        };
        match arena.apply(alloc, number, Items::from_slice(alloc, &[arg])?)? {
            None => return Ok(None),
            Some(body) => number = arena.define(alloc, body, 1)?,
        }
    }
    Ok(Some(number))
}

#[test]
fn chains_definitions(rt: HostRuntime) -> Result<(), Fail> {
    let mut arena = Arena::new(rt.alloc());
    let Some(number) = chain(rt.alloc(), &mut arena, 3_000)? else {
        assert!(rt; false, "a use is refused");
        return Ok(());
    };
    assert_eq!(rt; arena.measure(number).size, 1);
    assert_eq!(rt;
        shown(rt.alloc(), &arena, number)?.as_slice(),
        b"0".as_slice()
    );
    Ok(())
}

// A term over so many times the first of two parts and so many times the second; its size, or None.
fn over(
    arena: &mut Arena,
    alloc: Global,
    op: Op,
    first: (usize, usize),
    second: (usize, usize),
) -> Result<Option<usize>, Memory> {
    let mut parts = Vec::new(alloc);
    parts.resize(first.1, first.0)?;
    parts.resize(first.1.saturating_add(second.1), second.0)?;
    let ty = if op.makes_truth() { Ty::Bool } else { U };
    make(arena, op, ty, Items::from_vec(parts))
}

#[test]
fn measures_pairs_before_they_are_made(rt: HostRuntime) -> Result<(), Fail> {
    let rows = [
        (0, Some(1)),
        (1, Some(1)),
        (2, Some(5)),
        (3, Some(13)),
        (707, Some(998_285)),
        (708, None),
        (5_000, None),
    ];
    let mut arena = Arena::new(rt.alloc());
    let name = arena.name(0, U)?;
    for (count, size) in rows {
        let found = over(
            &mut arena,
            rt.alloc(),
            Op::Distinct(false),
            (name, count),
            (name, 0),
        )?;
        assert_eq!(rt; found.map(|number| arena.measure(number).size), size);
    }
    Ok(())
}

#[test]
fn refuses_by_size(rt: HostRuntime) -> Result<(), Fail> {
    // f(x, .. 1,000 times) has 1,001 nodes, and 999 of these under one node 1,000,000.
    let f = Op::App(SymId(0));
    let rows = [
        ((999, 0), Some(1_000_000)),
        ((999, 1), None),
        ((998, 1001), Some(1_000_000)),
    ];
    let mut arena = Arena::new(rt.alloc());
    let name = arena.name(0, U)?;
    let Some(part) = over(&mut arena, rt.alloc(), f, (name, 1_000), (name, 0))? else {
        assert!(rt; false, "the part is refused");
        return Ok(());
    };
    for ((parts, names), size) in rows {
        let mark = arena.mark();
        let found = over(&mut arena, rt.alloc(), f, (part, parts), (name, names))?;
        assert_eq!(rt; found.map(|number| arena.measure(number).size), size);
        arena.cut_back(mark);
        assert_eq!(rt; arena.mark(), mark);
    }
    Ok(())
}

// Nests an operator so many times over as many equal parts, and answers the measure, or None where it was refused.
fn nested(alloc: Global, op: Op, parts: usize, times: usize) -> Result<Option<(u64, u64)>, Memory> {
    let mut arena = Arena::new(alloc);
    let Some(mut number) = over(&mut arena, alloc, Op::Truth(true), (0, 0), (0, 0))? else {
        return Ok(None);
    };
    for _ in 0..times {
        match over(&mut arena, alloc, op, (number, parts), (number, 0))? {
            None => return Ok(None),
            Some(next) => number = next,
        }
    }
    let measure = arena.measure(number);
    Ok(Some((measure.size, measure.depth)))
}

#[test]
fn refuses_by_depth(rt: HostRuntime) -> Result<(), Fail> {
    let rows = [
        (Op::Not, 1, 399, Some((400, 400))),
        (Op::Not, 1, 400, None),
        (Op::And, 2, 18, Some((524_287, 19))),
        (Op::And, 2, 19, None),
    ];
    for (op, parts, times, measure) in rows {
        assert_eq!(rt; nested(rt.alloc(), op, parts, times)?, measure);
    }
    Ok(())
}

#[test]
fn laws_do_nothing() {
    crate::cutting_keeps_earlier_terms();
    crate::growing_keeps_terms();
}
