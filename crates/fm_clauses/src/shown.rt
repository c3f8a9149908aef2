use fm_bank::{Clause, ClauseSet};
use fm_base::{Memory, Patom, Pterm, Rank, Ty};
use std::alloc::Global;

// The last digit.
fn digit(number: usize) -> u8 {
    b'0' + (number % 10) as u8
}

#[cycle(terms)]
fn add_term(text: &mut Vec<u8>, term: &Pterm) -> Result<(), Memory> {
    match term {
        Pterm::Var(variable) => text.push(digit(*variable))?,
        Pterm::App(symbol, args) => {
            text.push(b's')?;
            text.push(digit(symbol.0))?;
            add_terms(text, args.as_slice())?;
        }
    }
    Ok(())
}

#[cycle(terms)]
fn add_terms(text: &mut Vec<u8>, terms: &[Pterm]) -> Result<(), Memory> {
    for term in terms {
        add_term(text, term)?;
    }
    text.push(b';')?;
    Ok(())
}

fn add_atom(text: &mut Vec<u8>, atom: &Patom) -> Result<(), Memory> {
    match atom {
        Patom::Pred(symbol, args) => {
            text.push(digit(symbol.0))?;
            add_terms(text, args.as_slice())?;
        }
        Patom::Equal(left, right) => {
            text.push(b'=')?;
            add_term(text, left)?;
            add_term(text, right)?;
        }
    }
    Ok(())
}

fn add_clause(text: &mut Vec<u8>, clause: &Clause) -> Result<(), Memory> {
    text.push(digit(clause.vars.len()))?;
    for lit in clause.lits.as_slice() {
        text.push(if lit.positive { b'+' } else { b'-' })?;
        add_atom(text, &lit.atom)?;
    }
    text.push(b'.')?;
    Ok(())
}

fn add_rank(text: &mut Vec<u8>, rank: &Rank) -> Result<(), Memory> {
    text.push(digit(rank.args.len()))?;
    text.push(match rank.result {
        Ty::Bool => b'B',
        Ty::Of(sort) => digit(sort.0),
    })?;
    Ok(())
}

// The clauses, each with the number of its variables and its literals, and behind a mark the new symbols, each with the
// number of its arguments and its result. Numbers are shown by their last digit.
pub(crate) fn add_table(text: &mut Vec<u8>, set: &ClauseSet) -> Result<(), Memory> {
    for clause in set.clauses.as_slice() {
        add_clause(text, clause)?;
    }
    text.push(b'#')?;
    let mut at = 0usize;
    for rank in set.sig.ranks.as_slice() {
        if at >= set.user {
            add_rank(text, rank)?;
        }
        at = at.saturating_add(1);
    }
    Ok(())
}
