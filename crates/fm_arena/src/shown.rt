use crate::Arena;
use fm_base::{Formula, Fterm, Memory};
use std::alloc::Global;

fn digit(number: usize) -> u8 {
    b'0' + (number % 10) as u8
}

// Adds the text of a formula: a letter or a sign for the node, digits for symbols, variables and how many a
// block has, and a `;` after members.
#[cycle(shown)]
fn add_formula(text: &mut Vec<u8>, formula: &Formula) -> Result<(), Memory> {
    match formula {
        Formula::Truth(holds) => text.push(if *holds { b't' } else { b'n' })?,
        Formula::Pred(symbol, args) => {
            text.push(b'p')?;
            text.push(digit(symbol.0))?;
            add_terms(text, args.as_slice())?;
        }
        Formula::Equal(left, right) => {
            text.push(b'=')?;
            add_term(text, left)?;
            add_term(text, right)?;
        }
        Formula::Not(body) => {
            text.push(b'!')?;
            add_formula(text, body.get())?;
        }
        Formula::And(members) => {
            text.push(b'&')?;
            add_formulas(text, members.as_slice())?;
        }
        Formula::Or(members) => {
            text.push(b'|')?;
            add_formulas(text, members.as_slice())?;
        }
        Formula::Iff(left, right) => {
            text.push(b'~')?;
            add_formula(text, left.get())?;
            add_formula(text, right.get())?;
        }
        Formula::Ite(test, left, right) => {
            text.push(b'?')?;
            add_formula(text, test.get())?;
            add_formula(text, left.get())?;
            add_formula(text, right.get())?;
        }
        Formula::Quant { all, vars, body } => {
            text.push(if *all { b'A' } else { b'E' })?;
            text.push(digit(vars.len()))?;
            add_formula(text, body.get())?;
        }
    }
    Ok(())
}

#[cycle(shown)]
fn add_term(text: &mut Vec<u8>, term: &Fterm) -> Result<(), Memory> {
    match term {
        Fterm::Var(variable) => text.push(digit(*variable))?,
        Fterm::App(symbol, args) => {
            text.push(b'f')?;
            text.push(digit(symbol.0))?;
            add_terms(text, args.as_slice())?;
        }
        Fterm::Ite(test, left, right) => {
            text.push(b'/')?;
            add_formula(text, test.get())?;
            add_term(text, left.get())?;
            add_term(text, right.get())?;
        }
    }
    Ok(())
}

#[cycle(shown)]
fn add_formulas(text: &mut Vec<u8>, formulas: &[Formula]) -> Result<(), Memory> {
    for formula in formulas {
        add_formula(text, formula)?;
    }
    text.push(b';')?;
    Ok(())
}

#[cycle(shown)]
fn add_terms(text: &mut Vec<u8>, terms: &[Fterm]) -> Result<(), Memory> {
    for term in terms {
        add_term(text, term)?;
    }
    text.push(b';')?;
    Ok(())
}

fn add_tree(text: &mut Vec<u8>, alloc: Global, arena: &Arena, number: usize) -> Result<(), Memory> {
    if arena.ty(number).is_bool() {
        let formula = arena.formula(alloc, number)?;
        add_formula(text, &formula)
    } else {
        let term = arena.term(alloc, number)?;
        add_term(text, &term)
    }
}

/// The text of the tree of a number.
pub(crate) fn shown(alloc: Global, arena: &Arena, number: usize) -> Result<Vec<u8>, Memory> {
    let mut text = Vec::new(alloc);
    add_tree(&mut text, alloc, arena, number)?;
    Ok(text)
}
