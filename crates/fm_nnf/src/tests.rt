ghost use Rattle.std.specs.Prelude.{◌<◌, ◌^◌};

use crate::bounds::size_of;
use crate::built::built;
use crate::shown::{add_ranks, shown};
use crate::{Lifted, lift, normal};
use fm_base::{Formula, Memory, Rank, Sig, SortId, Ty};
use sqlite_items::Items;
use std::alloc::Global;
use std::test::Fail;

// The text of a normal form with its ranks.
fn normal_text(alloc: Global, formula: &Formula, first: usize) -> Result<Vec<u8>, Memory>
    requires { first < 2 ^ 63 }
{
    let (form, ranks) = normal(alloc, formula, first)?;
    shown(alloc, &form, ranks.as_slice())
}

fn has_normal_form(alloc: Global, letters: &[u8], text: &[u8]) -> Result<bool, Memory> {
    let formula = built(alloc, letters)?;
    let shown = normal_text(alloc, &formula, 12)?;
    Ok(shown.as_slice() == text)
}

// The first row that isn't so; each test below has one such function.
fn misformed(alloc: Global) -> Result<Option<usize>, Memory> {
    let rows: [(&[u8], &[u8]); 29] = [
        (b"t", b"&;"),
        (b"t!", b"|;"),
        (b"n", b"|;"),
        (b"n!", b"&;"),
        // A symbol for a variable that doesn't occur.
        (b"tE", b"&; 00"),
        (b"nE", b"|; 00"),
        // A block of three, of which the last two occur.
        (b"1p0q&T", b"&+0s3;;+1s2;;; 00 01 02"),
        (b"ap", b"+0s8;;"),
        (b"ap!", b"-0s8;;"),
        (b"ap!!", b"+0s8;;"),
        (b"ab=", b"+=s8;s7;"),
        (b"ab=!", b"-=s8;s7;"),
        (b"apaq&", b"&+0s8;;+1s8;;;"),
        (b"apaq&!", b"|-0s8;;-1s8;;;"),
        (b"apaq|", b"|+0s8;;+1s8;;;"),
        (b"apaq|!", b"&-0s8;;-1s8;;;"),
        (b"0pA", b"A1+00;"),
        (b"0pA!", b"-0s2;; 00"),
        (b"0pE", b"+0s2;; 00"),
        (b"0pE!", b"A1-00;"),
        (b"01=!EA", b"A1-=0s20; 10"),
        // Each Skolem symbol takes the universal variables around it, which are numbered without the replaced ones.
        (b"01=23=&EAEA", b"A1A1&+=0s20;+=1s301;; 10 20"),
        (b"01=EA!", b"A1-=s2;0 00"),
        (b"apaq~", b"&|-0s8;;+1s8;;;|+0s8;;-1s8;;;;"),
        (b"apaq~!", b"&|+0s8;;+1s8;;;|-0s8;;-1s8;;;;"),
        (b"apaqaa=?", b"&|-0s8;;+1s8;;;|+0s8;;+=s8;s8;;;"),
        (b"apaqaa=?!", b"&|-0s8;;-1s8;;;|+0s8;;-=s8;s8;;;"),
        (b"0pE0qE~", b"&|A1-00;+1s2;;;|+0s3;;A1-10;;; 00 00"),
        (b"0pE0qE~!", b"&|+0s2;;+1s3;;;|A1-00;A1-10;;; 00 00"),
    ];
    for row in 0..rows.len() {
        let (letters, text) = rows[row];
        if !has_normal_form(alloc, letters, text)? {
            return Ok(Some(row));
        }
    }
    Ok(None)
}

#[test]
fn makes_normal_forms(rt: HostRuntime) -> Result<(), Fail> {
    let wrong = misformed(rt.alloc())?;
    assert!(rt; wrong.is_none(), "row {wrong:?}");
    Ok(())
}

// Ten symbols, each with a result of sort 3.
fn add_constants(alloc: Global, ranks: &mut Vec<Rank>) -> Result<(), Memory> {
    for _ in 0..10 {
        ranks.push(Rank {
            args: Items::new(alloc),
            result: Ty::Of(SortId(3)),
        })?;
    }
    Ok(())
}

fn signature(alloc: Global) -> Result<Sig, Memory> {
    let mut ranks = Vec::new(alloc);
    add_constants(alloc, &mut ranks)?;
    Ok(Sig {
        sorts: 4,
        ranks: Items::from_vec(ranks),
    })
}

fn add_normal(text: &mut Vec<u8>, alloc: Global, formula: &Formula) -> Result<(), Memory> {
    let shown = normal_text(alloc, formula, 15)?;
    text.extend_from_slice(shown.as_slice())?;
    Ok(())
}

fn add_definitions(
    text: &mut Vec<u8>,
    alloc: Global,
    definitions: &[Formula],
) -> Result<(), Memory> {
    for definition in definitions {
        text.push(b'/')?;
        add_normal(text, alloc, definition)?;
    }
    Ok(())
}

// The normal form of what is lifted and of each definition, a slash before each of these, and the ranks.
fn add_lifted(text: &mut Vec<u8>, alloc: Global, lifted: &Lifted) -> Result<(), Memory> {
    add_normal(text, alloc, &lifted.formula)?;
    add_definitions(text, alloc, lifted.definitions.as_slice())?;
    add_ranks(text, lifted.ranks.as_slice())
}

pub(crate) fn lifted_of(alloc: Global, formula: &Formula) -> Result<Lifted, Memory> {
    let sig = signature(alloc)?;
    lift(alloc, &sig, formula, 12)
}

fn lifted_text(alloc: Global, formula: &Formula) -> Result<Vec<u8>, Memory> {
    let lifted = lifted_of(alloc, formula)?;
    let mut text = Vec::new(alloc);
    add_lifted(&mut text, alloc, &lifted)?;
    Ok(text)
}

fn lifts_to(alloc: Global, letters: &[u8], text: &[u8]) -> Result<bool, Memory> {
    let formula = built(alloc, letters)?;
    let shown = lifted_text(alloc, &formula)?;
    Ok(shown.as_slice() == text)
}

fn mislifted(alloc: Global) -> Result<Option<usize>, Memory> {
    let rows: [(&[u8], &[u8]); 8] = [
        (b"apaq&", b"&+0s8;;+1s8;;;"),
        (
            b"0f0pabi=A",
            b"A1+=s90;s20;/A1&|-00;+=s20;s8;;|+00;+=s20;s7;;; 13",
        ),
        // The inner one, the one around it, the right one.
        (
            b"tapabibifaqabi=",
            b"+=s9s3;;s4;/&|-0s8;;+=s2;s8;;|+0s8;;+=s2;s7;;;/&||;+=s3;s2;;|&;+=s3;s7;;;/&|-1s8;;+=s4;s8;;|+1s8;;+=s4;s7;;; 03 03 03",
        ),
        // The same order where both sides are arguments of one term.
        (
            b"rapabibiaqabiga=",
            b"+=s6s3;s4;;s8;/&|-0s8;;+=s2;s8;;|+0s8;;+=s2;s7;;;/&|-5;+=s3;s2;;|+5;+=s3;s7;;;/&|-1s8;;+=s4;s8;;|+1s8;;+=s4;s7;;; 03 03 03",
        ),
        // Those of the condition, of the one branch and of the other, and then the `ite` itself.
        (
            b"rabiqrbairaaiip",
            b"+0s5;;/&|-5;+=s2;s8;;|+5;+=s2;s7;;;/&|-5;+=s3;s7;;|+5;+=s3;s8;;;/&|-5;+=s4;s8;;|+5;+=s4;s8;;;/&|-1s2;;+=s5;s3;;|+1s2;;+=s5;s4;;; 03 03 03 03",
        ),
        // One quantifier for both variables that stand free.
        (
            b"01=01ia=AA",
            b"A1A1+=s201;s8;/A2&|-=01+=s201;0;|+=01+=s201;1;; 20",
        ),
        // The second variable alone stands free.
        (
            b"1q1aipAA",
            b"A1A1+0s21;;/A1&|-10;+=s20;0;|+10;+=s20;s8;;; 10",
        ),
        (
            b"112=E1ai=AA",
            b"A1A1+=1s21;/A1&|A1-=01+=s20;0;|+=0s50;+=s20;s8;;; 10 10",
        ),
    ];
    for row in 0..rows.len() {
        let (letters, text) = rows[row];
        if !lifts_to(alloc, letters, text)? {
            return Ok(Some(row));
        }
    }
    Ok(None)
}

#[test]
fn lifts_terms(rt: HostRuntime) -> Result<(), Fail> {
    let wrong = mislifted(rt.alloc())?;
    assert!(rt; wrong.is_none(), "row {wrong:?}");
    Ok(())
}

fn size(alloc: Global, letters: &[u8]) -> Result<Option<u64>, Memory> {
    let formula = built(alloc, letters)?;
    Ok(size_of(&formula))
}

fn add_equivalences(letters: &mut Vec<u8>, times: usize) -> Result<(), Memory> {
    letters.extend_from_slice(b"ap")?;
    for _ in 0..times {
        letters.extend_from_slice(b"ap~")?;
    }
    Ok(())
}

// The size of the normal form of equivalences nested so many times, each with the one before it and an atom.
pub(crate) fn nested_size(alloc: Global, times: usize) -> Result<Option<u64>, Memory> {
    let mut letters = Vec::new(alloc);
    add_equivalences(&mut letters, times)?;
    size(alloc, letters.as_slice())
}

fn miscounted(alloc: Global) -> Result<Option<usize>, Memory> {
    let rows: [(&[u8], u64); 9] = [
        (b"t", 1),
        (b"nE", 1),
        (b"ap!", 2),
        (b"0pE", 2),
        (b"apaq|!", 5),
        (b"01=!EA", 5),
        (b"01=23=&EAEA", 12),
        (b"apaq~", 11),
        (b"0pE0qE~!", 13),
    ];
    for row in 0..rows.len() {
        let (letters, nodes) = rows[row];
        if size(alloc, letters)? != Some(nodes) {
            return Ok(Some(row));
        }
    }
    Ok(None)
}

#[test]
fn counts_nodes(rt: HostRuntime) -> Result<(), Fail> {
    let wrong = miscounted(rt.alloc())?;
    assert!(rt; wrong.is_none(), "row {wrong:?}");
    Ok(())
}

// n equivalences make 9 * 2^n - 7 nodes.
#[test]
fn stops_counting_past_a_million(rt: HostRuntime) -> Result<(), Fail> {
    assert_eq!(rt; nested_size(rt.alloc(), 16)?, Some(589_817));
    assert_eq!(rt; nested_size(rt.alloc(), 17)?, Some(1_000_001));
    Ok(())
}

#[test]
fn laws_do_nothing() {
    crate::lifting_says_the_same();
    crate::normal_form_says_the_same();
    crate::expansions_keep_truth();
}
