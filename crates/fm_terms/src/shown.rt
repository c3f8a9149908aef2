use fm_arena::Arena;
use fm_base::{Fail, Formula, Fterm, Memory, SortId, SymId};
use std::alloc::Global;

// The letters of the symbols and of the sorts, by their numbers.
const SYMBOLS: &[u8; 9] = b"abvfgpsqr";

const SORTS: &[u8; 2] = b"UV";

fn letter(letters: &[u8], place: usize) -> u8 {
    match letters.get(place) {
        None => b'*',
        Some(letter) => *letter,
    }
}

fn symbol(number: SymId) -> u8 {
    letter(SYMBOLS, number.0)
}

// Adds `U` or `V` for each variable of a block, and a point.
fn add_sorts(text: &mut Vec<u8>, sorts: &[SortId]) -> Result<(), Memory> {
    for sort in sorts {
        text.push(letter(SORTS, sort.0))?;
    }
    text.push(b'.')?;
    Ok(())
}

// Adds the text of a formula, each node before its parts: `t` and `n` are the truth values, `~` is Iff, `?` and `/` are
// the `ite` of formulas and of terms; a `;` stands after the members of an And or an Or.
#[cycle(shown)]
fn add_formula(text: &mut Vec<u8>, formula: &Formula) -> Result<(), Memory> {
    match formula {
        Formula::Truth(holds) => text.push(if *holds { b't' } else { b'n' })?,
        Formula::Pred(number, args) => {
            text.push(symbol(*number))?;
            add_terms(text, args.as_slice())?;
        }
        Formula::Equal(left, right) => {
            text.push(b'=')?;
            add_term(text, left)?;
            add_term(text, right)?;
        }
        Formula::Not(body) => {
            text.push(b'!')?;
            add_formula(text, body.get())?;
        }
        Formula::And(members) => {
            text.push(b'&')?;
            add_formulas(text, members.as_slice())?;
        }
        Formula::Or(members) => {
            text.push(b'|')?;
            add_formulas(text, members.as_slice())?;
        }
        Formula::Iff(left, right) => {
            text.push(b'~')?;
            add_formula(text, left.get())?;
            add_formula(text, right.get())?;
        }
        Formula::Ite(test, left, right) => {
            text.push(b'?')?;
            add_formula(text, test.get())?;
            add_formula(text, left.get())?;
            add_formula(text, right.get())?;
        }
        Formula::Quant { all, vars, body } => {
            text.push(if *all { b'A' } else { b'E' })?;
            add_sorts(text, vars.as_slice())?;
            add_formula(text, body.get())?;
        }
    }
    Ok(())
}

#[cycle(shown)]
fn add_term(text: &mut Vec<u8>, term: &Fterm) -> Result<(), Memory> {
    match term {
        Fterm::Var(variable) => text.push(b'0' + (*variable % 10) as u8)?,
        Fterm::App(number, args) => {
            text.push(symbol(*number))?;
            add_terms(text, args.as_slice())?;
        }
        Fterm::Ite(test, left, right) => {
            text.push(b'/')?;
            add_formula(text, test.get())?;
            add_term(text, left.get())?;
            add_term(text, right.get())?;
        }
    }
    Ok(())
}

#[cycle(shown)]
fn add_formulas(text: &mut Vec<u8>, formulas: &[Formula]) -> Result<(), Memory> {
    for formula in formulas {
        add_formula(text, formula)?;
    }
    text.push(b';')?;
    Ok(())
}

#[cycle(shown)]
fn add_terms(text: &mut Vec<u8>, terms: &[Fterm]) -> Result<(), Memory> {
    for term in terms {
        add_term(text, term)?;
    }
    Ok(())
}

fn add_tree(text: &mut Vec<u8>, alloc: Global, arena: &Arena, number: usize) -> Result<(), Memory> {
    if arena.ty(number).is_bool() {
        let formula = arena.formula(alloc, number)?;
        add_formula(text, &formula)
    } else {
        let term = arena.term(alloc, number)?;
        add_term(text, &term)
    }
}

/// The text of the tree of a number.
pub(crate) fn shown(alloc: Global, arena: &Arena, number: usize) -> Result<Vec<u8>, Memory> {
    let mut text = Vec::new(alloc);
    add_tree(&mut text, alloc, arena, number)?;
    Ok(text)
}

// Adds a number of at most five digits.
fn add_number(text: &mut Vec<u8>, number: u64) -> Result<(), Memory> {
    let mut unit = 10_000;
    while unit > 0 {
        if number >= unit || unit == 1 {
            text.push(b'0' + (number / unit % 10) as u8)?;
        }
        unit /= 10;
    }
    Ok(())
}

/// The text of a refusal: its number, its line and its column; `memory` for want of memory.
pub(crate) fn shown_fail(alloc: Global, fail: Fail) -> Result<Vec<u8>, Memory> {
    let Fail::Refused(refusal) = fail else {
        return Ok(Vec::from_slice(alloc, b"memory")?);
    };
    let mut text = Vec::new(alloc);
    add_number(&mut text, refusal.reason.number())?;
    text.push(b' ')?;
    add_number(&mut text, refusal.at.line)?;
    text.push(b':')?;
    add_number(&mut text, refusal.at.column)?;
    Ok(text)
}
