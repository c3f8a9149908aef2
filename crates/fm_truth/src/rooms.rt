ghost use Rattle.std.specs.Prelude.{◌≡◌, ◌≤◌, ◌+◌, map, max, length, IfOk};
ghost use Rattle.std.specs.List.{All};
ghost use Rattle.fm_truth.specs.Room.{IsWithin, room, larger, largest, arguments, room_of, room_of_term};

use fm_base::{Formula, Fterm, Memory};
use std::alloc::Global;
use std::marker::Model;

/// How many places of the two buffers of an evaluation are wanted or taken.
#[derive(Clone, Copy)]
pub(crate) struct Taken {
    pub(crate) vars: usize,
    pub(crate) args: usize,
}

/// Memory for evaluations, taken beforehand. Contracts see the room that it has.
#[derive(Drop)]
pub struct Env {
    pub(crate) vars: Vec<u64>,
    pub(crate) args: Vec<u64>,
}

impl Model for Env {
    ghost use Rattle.std.specs.Prelude.{length};
    ghost use Rattle.fm_truth.specs.Room.{Room};

    ghost Value = { Room };

    ghost view = { λ e. record { vars = length e.vars.items; args = length e.args.items } };
}

impl Env {
    /// Has the room to evaluate each of the formulas.
    pub fn for_formulas(alloc: Global, list: &[Formula]) -> Result<Env, Memory>
        ensures { IfOk result (λ e. All (λ f. IsWithin (room_of f) e) list.now) }
    {
        let places = largest_formula(list)?;
        let env = Env::with(alloc, places)?;
        Ok(env)
    }

    /// Has the room to evaluate a term without free variables.
    pub fn for_closed(alloc: Global, term: &Fterm) -> Result<Env, Memory>
        ensures { IfOk result (λ e. IsWithin (room_of_term term.now) e) }
    {
        let places = term_places(term)?;
        let env = Env::with(alloc, places)?;
        Ok(env)
    }

    fn with(alloc: Global, places: Taken) -> Result<Env, Memory>
        ensures { IfOk result (λ e. e ≡ room places.vars places.args) }
    {
        let vars = vec![in alloc; 0; places.vars]?;
        let args = vec![in alloc; 0; places.args]?;
        Ok(Env { vars, args })
    }
}

#[cycle(places)]
fn formula_places(formula: &Formula) -> Result<Taken, Memory>
    ensures { IfOk result (λ p. room p.vars p.args ≡ room_of formula.now) }
{
    match formula {
        Formula::Truth(_) => Ok(Taken { vars: 0, args: 0 }),
        Formula::Pred(_, terms) => argument_places(terms.as_slice()),
        Formula::Equal(left, right) => {
            let left = term_places(left)?;
            let right = term_places(right)?;
            Ok(larger_places(left, right))
        }
        Formula::Not(body) => formula_places(body.get()),
        Formula::And(members) => largest_formula(members.as_slice()),
        Formula::Or(members) => largest_formula(members.as_slice()),
        Formula::Iff(left, right) => {
            let left = formula_places(left.get())?;
            let right = formula_places(right.get())?;
            Ok(larger_places(left, right))
        }
        Formula::Ite(test, left, right) => {
            let test = formula_places(test.get())?;
            let left = formula_places(left.get())?;
            let right = formula_places(right.get())?;
            Ok(larger_places(test, larger_places(left, right)))
        }
        Formula::Quant { all: _, vars, body } => {
            let body = formula_places(body.get())?;
            more_variables(vars.len(), body)
        }
    }
}

#[cycle(places)]
fn term_places(term: &Fterm) -> Result<Taken, Memory>
    ensures { IfOk result (λ p. room p.vars p.args ≡ room_of_term term.now) }
{
    match term {
        Fterm::Var(_) => Ok(Taken { vars: 0, args: 0 }),
        Fterm::App(_, terms) => argument_places(terms.as_slice()),
        Fterm::Ite(test, left, right) => {
            let test = formula_places(test.get())?;
            let left = term_places(left.get())?;
            let right = term_places(right.get())?;
            Ok(larger_places(test, larger_places(left, right)))
        }
    }
}

#[cycle(places)]
fn largest_formula(formulas: &[Formula]) -> Result<Taken, Memory>
    ensures { IfOk result (λ p. room p.vars p.args ≡ largest (map room_of formulas.now)) }
{
    let mut places = Taken { vars: 0, args: 0 };
    for formula in formulas {
        let here = formula_places(formula)?;
        places = larger_places(places, here);
    }
    Ok(places)
}

#[cycle(places)]
fn argument_places(terms: &[Fterm]) -> Result<Taken, Memory>
    ensures { IfOk result (λ p. room p.vars p.args ≡ arguments (map room_of_term terms.now)) }
{
    let mut places = Taken { vars: 0, args: 0 };
    for term in terms {
        let here = term_places(term)?;
        places = larger_places(places, here);
    }
    more_arguments(terms.len(), places)
}

fn larger_places(left: Taken, right: Taken) -> Taken
    ensures { room result.vars result.args ≡ larger (room left.vars left.args) (room right.vars right.args) }
{
    Taken {
        vars: left.vars.max(right.vars),
        args: left.args.max(right.args),
    }
}

fn more_variables(count: usize, places: Taken) -> Result<Taken, Memory>
    ensures { IfOk result (λ p. room p.vars p.args ≡ room (count + places.vars) places.args) }
{
    match count.checked_add(places.vars) {
        Some(vars) => Ok(Taken {
            vars,
            args: places.args,
        }),
        None => Err(Memory),
    }
}

fn more_arguments(count: usize, places: Taken) -> Result<Taken, Memory>
    ensures { IfOk result (λ p. room p.vars p.args ≡ room places.vars (count + places.args)) }
{
    match count.checked_add(places.args) {
        Some(args) => Ok(Taken {
            vars: places.vars,
            args,
        }),
        None => Err(Memory),
    }
}
