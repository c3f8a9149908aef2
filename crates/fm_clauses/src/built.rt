use fm_base::{Formula, Fterm, Memory, SortId, SymId};
use sqlite_items::{Boxed, Items};
use std::alloc::Global;

// What is built so far; the operators take their parts from the ends.
#[derive(Drop)]
struct Stack {
    terms: Vec<Fterm>,
    formulas: Vec<Formula>,
}

fn pop(stack: &mut Stack) -> Formula {
    match stack.formulas.pop() {
        None => Formula::Truth(false),
        Some(formula) => formula,
    }
}

fn pop_term(stack: &mut Stack) -> Fterm {
    match stack.terms.pop() {
        None => Fterm::Var(0),
        Some(term) => term,
    }
}

fn args(alloc: Global, stack: &mut Stack) -> Result<Items<Fterm>, Memory> {
    let mut list = Vec::new(alloc);
    list.push(pop_term(stack))?;
    Ok(Items::from_vec(list))
}

fn two_args(alloc: Global, stack: &mut Stack) -> Result<Items<Fterm>, Memory> {
    let mut list = Vec::new(alloc);
    let second = pop_term(stack);
    list.push(pop_term(stack))?;
    list.push(second)?;
    Ok(Items::from_vec(list))
}

fn members(alloc: Global, stack: &mut Stack) -> Result<Items<Formula>, Memory> {
    let mut list = Vec::new(alloc);
    let second = pop(stack);
    list.push(pop(stack))?;
    list.push(second)?;
    Ok(Items::from_vec(list))
}

fn only_member(alloc: Global, stack: &mut Stack) -> Result<Items<Formula>, Memory> {
    let mut list = Vec::new(alloc);
    list.push(pop(stack))?;
    Ok(Items::from_vec(list))
}

fn quantified(
    alloc: Global,
    stack: &mut Stack,
    all: bool,
    first: usize,
    end: usize,
) -> Result<Formula, Memory> {
    let mut vars = Vec::new(alloc);
    for sort in first..end {
        vars.push(SortId(sort))?;
    }
    let body = Boxed::new(alloc, pop(stack))?;
    Ok(Formula::Quant {
        all,
        vars: Items::from_vec(vars),
        body,
    })
}

fn iff(alloc: Global, stack: &mut Stack) -> Result<Formula, Memory> {
    let right = Boxed::new(alloc, pop(stack))?;
    let left = Boxed::new(alloc, pop(stack))?;
    Ok(Formula::Iff(left, right))
}

fn ite(alloc: Global, stack: &mut Stack) -> Result<Formula, Memory> {
    let right = Boxed::new(alloc, pop(stack))?;
    let left = Boxed::new(alloc, pop(stack))?;
    let test = Boxed::new(alloc, pop(stack))?;
    Ok(Formula::Ite(test, left, right))
}

fn choice(alloc: Global, stack: &mut Stack) -> Result<Fterm, Memory> {
    let right = Boxed::new(alloc, pop_term(stack))?;
    let left = Boxed::new(alloc, pop_term(stack))?;
    let test = Boxed::new(alloc, pop(stack))?;
    Ok(Fterm::Ite(test, left, right))
}

fn term(alloc: Global, stack: &mut Stack, letter: u8) -> Result<Fterm, Memory> {
    match letter {
        b'f' => Ok(Fterm::App(SymId(9), args(alloc, stack)?)),
        b'g' => Ok(Fterm::App(SymId(6), two_args(alloc, stack)?)),
        b'a' => Ok(Fterm::App(SymId(8), Items::from_vec(Vec::new(alloc)))),
        b'b' => Ok(Fterm::App(SymId(7), Items::from_vec(Vec::new(alloc)))),
        b'c' => Ok(Fterm::App(SymId(4), Items::from_vec(Vec::new(alloc)))),
        b'h' => Ok(Fterm::App(SymId(3), args(alloc, stack)?)),
        b'i' => choice(alloc, stack),
        _ => Ok(Fterm::Var(letter.wrapping_sub(b'0') as usize)),
    }
}

fn formula(alloc: Global, stack: &mut Stack, letter: u8) -> Result<Formula, Memory> {
    match letter {
        b'p' => Ok(Formula::Pred(SymId(0), args(alloc, stack)?)),
        b'q' => Ok(Formula::Pred(SymId(1), args(alloc, stack)?)),
        b's' => Ok(Formula::Pred(SymId(2), args(alloc, stack)?)),
        b'r' => Ok(Formula::Pred(SymId(5), Items::from_vec(Vec::new(alloc)))),
        b'=' => {
            let right = pop_term(stack);
            Ok(Formula::Equal(pop_term(stack), right))
        }
        b'!' => Ok(Formula::Not(Boxed::new(alloc, pop(stack))?)),
        b'&' => Ok(Formula::And(members(alloc, stack)?)),
        b'|' => Ok(Formula::Or(members(alloc, stack)?)),
        b'w' => Ok(Formula::And(only_member(alloc, stack)?)),
        b'v' => Ok(Formula::Or(only_member(alloc, stack)?)),
        b'~' => iff(alloc, stack),
        b'?' => ite(alloc, stack),
        b'A' => quantified(alloc, stack, true, 0, 1),
        b'E' => quantified(alloc, stack, false, 0, 1),
        b'B' => quantified(alloc, stack, true, 1, 2),
        b'F' => quantified(alloc, stack, false, 1, 2),
        b'T' => quantified(alloc, stack, false, 0, 3),
        _ => Ok(Formula::Truth(letter == b't')),
    }
}

fn put_term(alloc: Global, stack: &mut Stack, letter: u8) -> Result<(), Memory> {
    let term = term(alloc, stack, letter)?;
    stack.terms.push(term)?;
    Ok(())
}

fn put_formula(alloc: Global, stack: &mut Stack, letter: u8) -> Result<(), Memory> {
    let formula = formula(alloc, stack, letter)?;
    stack.formulas.push(formula)?;
    Ok(())
}

fn put(alloc: Global, stack: &mut Stack, letter: u8) -> Result<(), Memory> {
    match letter {
        b'0'..=b'9' | b'a'..=b'c' | b'f'..=b'i' => put_term(alloc, stack, letter),
        _ => put_formula(alloc, stack, letter),
    }
}

// A formula from its letters, each operator behind its parts: digits are variables, `a`, `b` and `c` constants, `f`, `g`
// and `h` functions of one, two and one arguments, `i` a term `ite`, `p`, `q` and `s` predicates of one, `r` one of none,
// `t` and `n` true and false; `w` and `v` make an And and an Or of one member; `A` and `E` bind one variable, `B` and `F`
// one of the second sort, of which `c` is and which `h` and `s` take, and `T` binds three.
pub(crate) fn built(alloc: Global, letters: &[u8]) -> Result<Formula, Memory> {
    let mut stack = Stack {
        terms: Vec::new(alloc),
        formulas: Vec::new(alloc),
    };
    for letter in letters {
        put(alloc, &mut stack, *letter)?;
    }
    Ok(pop(&mut stack))
}
