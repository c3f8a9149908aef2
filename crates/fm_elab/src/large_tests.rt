// Long scripts, carried out: benchmarks too, by `./bench scopes` and `./bench terms` at the top.

use crate::tests::outcome;
use fm_base::Memory;
use std::alloc::Global;

// Adds a letter and a number in base two, the last digit first.
fn push_name(text: &mut Vec<u8>, letter: u8, number: usize) -> Result<(), Memory> {
    text.push(letter)?;
    let mut rest = number;
    for _ in 0..17 {
        if rest % 2 == 1 {
            text.push(b'1')?;
        } else {
            text.push(b'0')?;
        }
        rest /= 2;
    }
    Ok(())
}

// A constant and an assertion that gives a name and speaks of the constant.
fn push_commands(text: &mut Vec<u8>, number: usize) -> Result<(), Memory> {
    text.extend_from_slice(b"(declare-const ")?;
    push_name(text, b'c', number)?;
    text.extend_from_slice(b" Bool)(assert (! (or ")?;
    push_name(text, b'c', number)?;
    text.extend_from_slice(b" (not ")?;
    push_name(text, b'c', number)?;
    text.extend_from_slice(b")) :named ")?;
    push_name(text, b'n', number)?;
    text.extend_from_slice(b"))")?;
    Ok(())
}

fn many_commands(alloc: Global, count: usize) -> Result<Vec<u8>, Memory> {
    let mut text = Vec::new(alloc);
    for number in 0..count {
        push_commands(&mut text, number)?;
    }
    Ok(text)
}

// Thirteen megabytes of declarations and assertions.
#[test]
fn carries_out_many_commands(rt: HostRuntime) -> Result<(), Memory> {
    let text = many_commands(rt.alloc(), 100_000)?;
    let found = outcome(rt.alloc(), text.as_slice())?;
    if found.0 == 0 && found.1 == 100_000 {
        Ok(())
    } else {
        Err(Memory)
    }
}

// All levels opened and closed a hundred times.
#[test]
fn opens_all_levels(rt: HostRuntime) -> Result<(), Memory> {
    let mut text = Vec::new(rt.alloc());
    for _ in 0..100 {
        text.extend_from_slice(b"(push 65536)(pop 65536)")?;
    }
    let found = outcome(rt.alloc(), text.as_slice())?;
    if found.0 == 0 && found.1 == 0 {
        Ok(())
    } else {
        Err(Memory)
    }
}

// What a script of two constants a and b, a formula q, and further commands on a second line comes to.
fn outcome_behind(alloc: Global, text: &mut Vec<u8>, behind: &[u8]) -> Result<(u64, u64), Memory> {
    text.extend_from_slice(behind)?;
    outcome(alloc, text.as_slice())
}

fn begun(alloc: Global) -> Result<Vec<u8>, Memory> {
    let mut text = Vec::from_slice(
        alloc,
        b"(declare-sort U 0)(declare-const a U)(declare-const b U)(declare-const q Bool)",
    )?;
    text.push(b'\n')?;
    Ok(text)
}

fn repeat(text: &mut Vec<u8>, part: &[u8], times: usize) -> Result<(), Memory> {
    for _ in 0..times {
        text.extend_from_slice(part)?;
    }
    Ok(())
}

fn conjunction(alloc: Global, times: usize) -> Result<(u64, u64), Memory> {
    let mut text = begun(alloc)?;
    text.extend_from_slice(b"(assert (and")?;
    repeat(&mut text, b" (= a b)", times)?;
    outcome_behind(alloc, &mut text, b"))")
}

fn is(found: (u64, u64), first: u64, second: u64) -> Result<(), Memory> {
    if found.0 == first && found.1 == second {
        Ok(())
    } else {
        Err(Memory)
    }
}

// An equation has three nodes, so 333,333 of them in a conjunction are a million.
#[test]
fn elaborates_a_long_conjunction(rt: HostRuntime) -> Result<(), Memory> {
    is(conjunction(rt.alloc(), 333_333)?, 0, 1)?;
    is(conjunction(rt.alloc(), 333_334)?, 17, 1)?;
    is(conjunction(rt.alloc(), 500_000)?, 17, 1)
}

#[test]
fn elaborates_many_assertions(rt: HostRuntime) -> Result<(), Memory> {
    let mut text = begun(rt.alloc())?;
    let next =
        b"(assert (or (= a b) (not (= b a)) (and q (= a a) (distinct a b a)) (=> q (= a b) (not q)) (xor q q)))";
    repeat(&mut text, next.as_slice(), 100_000)?;
    is(outcome_behind(rt.alloc(), &mut text, b"")?, 0, 100_000)
}

// The name `big` for a tree of a million nodes, made by doubling: two `x`, or two and a `q`, beside one node.
const BIG: &[u8] =
    b"(assert (! (let ((x (not q))) (let ((x (and x x q))) (let ((x (and x x q))) (let ((x (and x x)))\
(let ((x (and x x q))) (let ((x (and x x))) (let ((x (and x x))) (let ((x (and x x))) (let ((x (and x x)))\
(let ((x (and x x q))) (let ((x (and x x))) (let ((x (and x x))) (let ((x (and x x q))) (let ((x (and x x)))\
(let ((x (and x x))) (let ((x (and x x))) (let ((x (and x x))) (let ((x (and x x))) (and x x q)\
)))))))))))))))))) :named big))";

#[test]
fn elaborates_many_lets(rt: HostRuntime) -> Result<(), Memory> {
    let mut text = begun(rt.alloc())?;
    text.extend_from_slice(BIG)?;
    repeat(&mut text, b"(assert (let ((x big) (y big)) q))", 100_000)?;
    is(outcome_behind(rt.alloc(), &mut text, b"")?, 0, 100_001)?;
    text.push(b'\n')?;
    is(
        outcome_behind(rt.alloc(), &mut text, b"(assert (let ((x big)) (not x)))")?,
        17,
        1,
    )
}

// Adds a definition of a name by another one.
fn push_definition(text: &mut Vec<u8>, name: usize, body: usize) -> Result<(), Memory> {
    text.extend_from_slice(b"(define-fun ")?;
    push_name(text, b'd', name)?;
    text.extend_from_slice(b" () Bool ")?;
    push_name(text, b'd', body)?;
    text.push(b')')?;
    Ok(())
}

// Each name stands for the one before it.
#[test]
fn elaborates_a_chain_of_definitions(rt: HostRuntime) -> Result<(), Memory> {
    let mut text = begun(rt.alloc())?;
    text.extend_from_slice(b"(define-fun ")?;
    push_name(&mut text, b'd', 0)?;
    text.extend_from_slice(b" () Bool q)")?;
    for number in 0..100_000 {
        push_definition(&mut text, number + 1, number)?;
    }
    text.extend_from_slice(b"(assert ")?;
    push_name(&mut text, b'd', 100_000)?;
    is(outcome_behind(rt.alloc(), &mut text, b")")?, 0, 1)
}

// 12,497,500 pairs: too many nodes.
#[test]
fn refuses_a_long_distinct(rt: HostRuntime) -> Result<(), Memory> {
    let mut text = begun(rt.alloc())?;
    text.extend_from_slice(b"(assert (distinct")?;
    repeat(&mut text, b" a b", 2_500)?;
    is(outcome_behind(rt.alloc(), &mut text, b"))")?, 17, 1)
}

// `p = (p = .. p)` with so many equivalences.
fn push_nested(text: &mut Vec<u8>, count: usize) -> Result<(), Memory> {
    for _ in 0..count {
        text.extend_from_slice(b"(= p ")?;
    }
    text.push(b'p')?;
    for _ in 0..count {
        text.push(b')')?;
    }
    Ok(())
}

// An assertion of nested equivalences.
fn nested_assertion(alloc: Global, count: usize) -> Result<Vec<u8>, Memory> {
    let mut text = Vec::new(alloc);
    text.extend_from_slice(b"(declare-const p Bool)(assert ")?;
    push_nested(&mut text, count)?;
    text.push(b')')?;
    Ok(text)
}

// A term that turns on nested equivalences: they stand twice in the definition of the symbol for it.
fn nested_condition(alloc: Global, count: usize) -> Result<Vec<u8>, Memory> {
    let mut text = Vec::new(alloc);
    text.extend_from_slice(b"(declare-sort U 0)(declare-const c U)(declare-const p Bool)")?;
    text.extend_from_slice(b"(assert (= c (ite ")?;
    push_nested(&mut text, count)?;
    text.extend_from_slice(b" c c)))")?;
    Ok(text)
}

// A normal form with n equivalences has 6 * 2^n - 5 nodes, and a definition over it twice as many and 9.
#[test]
fn refuses_large_normal_forms(rt: HostRuntime) -> Result<(), Memory> {
    let alloc = rt.alloc();
    let fits = outcome(alloc, nested_assertion(alloc, 17)?.as_slice())?;
    let large = outcome(alloc, nested_assertion(alloc, 18)?.as_slice())?;
    let defined = outcome(alloc, nested_condition(alloc, 16)?.as_slice())?;
    let large_definition = outcome(alloc, nested_condition(alloc, 17)?.as_slice())?;
    if fits.0 != 0 || fits.1 != 1 || large.0 != 17 || large.1 != 23 {
        return Err(Memory);
    }
    if defined.0 != 0 || defined.1 != 1 || large_definition.0 != 17 || large_definition.1 != 60 {
        return Err(Memory);
    }
    Ok(())
}
