use fm_base::{Memory, Nnf, Patom, Pterm, Rank};
use std::alloc::Global;

// The last digit.
fn digit(number: usize) -> u8 {
    b'0' + (number % 10) as u8
}

#[cycle(terms)]
fn add_term(text: &mut Vec<u8>, term: &Pterm) -> Result<(), Memory> {
    match term {
        Pterm::Var(variable) => text.push(digit(*variable))?,
        Pterm::App(symbol, args) => {
            text.push(b's')?;
            text.push(digit(symbol.0))?;
            add_terms(text, args.as_slice())?;
        }
    }
    Ok(())
}

#[cycle(terms)]
fn add_terms(text: &mut Vec<u8>, terms: &[Pterm]) -> Result<(), Memory> {
    for term in terms {
        add_term(text, term)?;
    }
    text.push(b';')?;
    Ok(())
}

fn add_atom(text: &mut Vec<u8>, atom: &Patom) -> Result<(), Memory> {
    match atom {
        Patom::Pred(symbol, args) => {
            text.push(digit(symbol.0))?;
            add_terms(text, args.as_slice())?;
        }
        Patom::Equal(left, right) => {
            text.push(b'=')?;
            add_term(text, left)?;
            add_term(text, right)?;
        }
    }
    Ok(())
}

#[cycle(forms)]
fn add_form(text: &mut Vec<u8>, form: &Nnf) -> Result<(), Memory> {
    match form {
        Nnf::Lit { positive, atom } => {
            text.push(if *positive { b'+' } else { b'-' })?;
            add_atom(text, atom)?;
        }
        Nnf::And(members) => {
            text.push(b'&')?;
            add_forms(text, members.as_slice())?;
        }
        Nnf::Or(members) => {
            text.push(b'|')?;
            add_forms(text, members.as_slice())?;
        }
        Nnf::All(vars, body) => {
            text.push(b'A')?;
            text.push(digit(vars.len()))?;
            add_form(text, body.get())?;
        }
    }
    Ok(())
}

#[cycle(forms)]
fn add_forms(text: &mut Vec<u8>, forms: &[Nnf]) -> Result<(), Memory> {
    for form in forms {
        add_form(text, form)?;
    }
    text.push(b';')?;
    Ok(())
}

fn add_rank(text: &mut Vec<u8>, rank: &Rank) -> Result<(), Memory> {
    text.push(b' ')?;
    text.push(digit(rank.args.len()))?;
    match rank.result.sort() {
        None => text.push(b'B')?,
        Some(sort) => text.push(digit(sort.0))?,
    }
    Ok(())
}

// Adds a blank, how many arguments it has and its sort for each rank.
pub(crate) fn add_ranks(text: &mut Vec<u8>, ranks: &[Rank]) -> Result<(), Memory> {
    for rank in ranks {
        add_rank(text, rank)?;
    }
    Ok(())
}

// The text of a normal form, a `;` after arguments and members, and of each rank how many arguments it has and
// its sort.
pub(crate) fn shown(alloc: Global, form: &Nnf, ranks: &[Rank]) -> Result<Vec<u8>, Memory> {
    let mut text = Vec::new(alloc);
    add_form(&mut text, form)?;
    add_ranks(&mut text, ranks)?;
    Ok(text)
}
