ghost use Rattle.std.specs.Prelude.{◌≡◌, ◌+◌, ◌≤◌, ◌++◌, [], ℕ, true, not, map, take, length, slice_index, IsSome};
ghost use Rattle.fm_base.specs.Interpretations.{reading_of, is_fit};
ghost use Rattle.fm_base.specs.Truth.{truth, value as value_of, all_true, some_true, is_closed, sort_of};
ghost use Rattle.fm_base.specs.declared.signature.Sig.{Sig as TheSig};
ghost use Rattle.fm_truth.specs.Evaluating.{PutsValues, applied_under, block_under};
ghost use Rattle.fm_truth.specs.Lookup.{tables_ascend};
ghost use Rattle.fm_truth.specs.Room.{IsWithin, largest, arguments, room_of, room_of_term};
ghost use Rattle.fm_truth.specs.Tuples.{LeavesDeciding};

use crate::lookup::{apply, part};
use crate::rooms::{Env, Taken};
use crate::tuples::{first_tuple, next_tuple};
use fm_base::{Formula, Fterm, Interp, SortId, SymId};

/// Tarski's truth of a formula without free variables in an interpretation that fits its signature. It takes no
/// memory beyond that of `env`, and a quantifier evaluates its body once for each tuple that it needs.
pub fn holds(interp: &Interp, formula: &Formula, env: &mut Env) -> bool
    requires fits { (sig : TheSig) × (is_fit sig interp.now ≡ true) × (is_closed formula.now sig ≡ true) }
    requires room { IsWithin (room_of formula.now) env.old }
    ensures value { result ≡ truth formula.now (reading_of interp.now) [] }
    ensures room { env.new ≡ env.old }
{
    let none = Taken { vars: 0, args: 0 };
    formula_holds(
        interp,
        formula,
        env.vars.as_mut_slice(),
        env.args.as_mut_slice(),
        none,
    )
}

/// The value of a term without free variables in an interpretation that fits its signature. It takes no memory
/// beyond that of `env`.
pub fn value(interp: &Interp, term: &Fterm, env: &mut Env) -> u64
    requires fits { (sig : TheSig) × (is_fit sig interp.now ≡ true) × IsSome (sort_of term.now sig []) }
    requires room { IsWithin (room_of_term term.now) env.old }
    ensures value { result ≡ value_of term.now (reading_of interp.now) [] }
    ensures room { env.new ≡ env.old }
{
    let none = Taken { vars: 0, args: 0 };
    term_value(
        interp,
        term,
        env.vars.as_mut_slice(),
        env.args.as_mut_slice(),
        none,
    )
}

// The values of the variables in scope stand in the first places of `vars`, and those of arguments that wait for
// their application in the first places of `args`. `taken` counts both, and what stands there stays.
#[cycle(truth)]
pub(crate) fn formula_holds(
    interp: &Interp,
    formula: &Formula,
    vars: &mut [u64],
    args: &mut [u64],
    taken: Taken,
) -> bool
    requires tables { tables_ascend interp.now ≡ true }
    requires vars { taken.vars + (room_of formula.now).vars ≤ length vars.old }
    requires args { taken.args + (room_of formula.now).args ≤ length args.old }
    ensures value { result ≡ truth formula.now (reading_of interp.now) (take taken.vars vars.old) }
    ensures same_vars { take taken.vars vars.new ≡ take taken.vars vars.old }
    ensures same_args { take taken.args args.new ≡ take taken.args args.old }
{
    match formula {
        Formula::Truth(truth) => *truth,
        Formula::Pred(symbol, terms) => {
            applied(interp, *symbol, terms.as_slice(), vars, args, taken) == 1
        }
        Formula::Equal(left, right) => {
            let left = term_value(interp, left, vars, args, taken);
            left == term_value(interp, right, vars, args, taken)
        }
        Formula::Not(body) => !formula_holds(interp, body.get(), vars, args, taken),
        Formula::And(members) => all_hold(interp, members.as_slice(), vars, args, taken),
        Formula::Or(members) => some_hold(interp, members.as_slice(), vars, args, taken),
        Formula::Iff(left, right) => {
            let left = formula_holds(interp, left.get(), vars, args, taken);
            left == formula_holds(interp, right.get(), vars, args, taken)
        }
        Formula::Ite(test, left, right) => {
            if formula_holds(interp, test.get(), vars, args, taken) {
                formula_holds(interp, left.get(), vars, args, taken)
            } else {
                formula_holds(interp, right.get(), vars, args, taken)
            }
        }
        Formula::Quant {
            all,
            vars: sorts,
            body,
        } => {
            block_holds(
                interp,
                *all,
                sorts.as_slice(),
                body.get(),
                vars,
                args,
                taken,
            )
        }
    }
}

#[cycle(truth)]
fn term_value(
    interp: &Interp,
    term: &Fterm,
    vars: &mut [u64],
    args: &mut [u64],
    taken: Taken,
) -> u64
    requires tables { tables_ascend interp.now ≡ true }
    requires vars { taken.vars + (room_of_term term.now).vars ≤ length vars.old }
    requires args { taken.args + (room_of_term term.now).args ≤ length args.old }
    ensures value { result ≡ value_of term.now (reading_of interp.now) (take taken.vars vars.old) }
    ensures same_vars { take taken.vars vars.new ≡ take taken.vars vars.old }
    ensures same_args { take taken.args args.new ≡ take taken.args args.old }
{
    match term {
        Fterm::Var(variable) => variable_value(vars, taken.vars, *variable),
        Fterm::App(symbol, terms) => applied(interp, *symbol, terms.as_slice(), vars, args, taken),
        Fterm::Ite(test, left, right) => {
            if formula_holds(interp, test.get(), vars, args, taken) {
                term_value(interp, left.get(), vars, args, taken)
            } else {
                term_value(interp, right.get(), vars, args, taken)
            }
        }
    }
}

#[cycle(truth)]
fn applied(
    interp: &Interp,
    symbol: SymId,
    terms: &[Fterm],
    vars: &mut [u64],
    args: &mut [u64],
    taken: Taken,
) -> u64
    requires tables { tables_ascend interp.now ≡ true }
    requires vars { taken.vars + (arguments (map room_of_term terms.now)).vars ≤ length vars.old }
    requires args { taken.args + (arguments (map room_of_term terms.now)).args ≤ length args.old }
    ensures value { result ≡ applied_under (reading_of interp.now) (take taken.vars vars.old) symbol.0 terms.now }
    ensures same_vars { take taken.vars vars.new ≡ take taken.vars vars.old }
    ensures same_args { take taken.args args.new ≡ take taken.args args.old }
{
    put_values(interp, terms, vars, args, taken);
    apply(interp, symbol, part(args, taken.args, terms.len()))
}

// Writes the values of the terms behind the places of `args` that are taken.
#[cycle(truth)]
fn put_values(interp: &Interp, terms: &[Fterm], vars: &mut [u64], args: &mut [u64], taken: Taken)
    requires tables { tables_ascend interp.now ≡ true }
    requires vars { taken.vars + (arguments (map room_of_term terms.now)).vars ≤ length vars.old }
    requires args { taken.args + (arguments (map room_of_term terms.now)).args ≤ length args.old }
    ensures values { PutsValues (reading_of interp.now) (take taken.vars vars.old) terms.now taken.args args.old args.new }
    ensures same_vars { take taken.vars vars.new ≡ take taken.vars vars.old }
{
    for (i, term) in terms.iter().enumerate() {
        let here = Taken {
            vars: taken.vars,
            args: taken.args + i,
        };
        args[taken.args + i] = term_value(interp, term, vars, args, here);
    }
}

#[cycle(truth)]
fn all_hold(
    interp: &Interp,
    formulas: &[Formula],
    vars: &mut [u64],
    args: &mut [u64],
    taken: Taken,
) -> bool
    requires tables { tables_ascend interp.now ≡ true }
    requires vars { taken.vars + (largest (map room_of formulas.now)).vars ≤ length vars.old }
    requires args { taken.args + (largest (map room_of formulas.now)).args ≤ length args.old }
    ensures value { result ≡ all_true (map truth formulas.now) (reading_of interp.now) (take taken.vars vars.old) }
    ensures same_vars { take taken.vars vars.new ≡ take taken.vars vars.old }
    ensures same_args { take taken.args args.new ≡ take taken.args args.old }
{
    for formula in formulas {
        if !formula_holds(interp, formula, vars, args, taken) {
            return false;
        }
    }
    true
}

#[cycle(truth)]
fn some_hold(
    interp: &Interp,
    formulas: &[Formula],
    vars: &mut [u64],
    args: &mut [u64],
    taken: Taken,
) -> bool
    requires tables { tables_ascend interp.now ≡ true }
    requires vars { taken.vars + (largest (map room_of formulas.now)).vars ≤ length vars.old }
    requires args { taken.args + (largest (map room_of formulas.now)).args ≤ length args.old }
    ensures value { result ≡ some_true (map truth formulas.now) (reading_of interp.now) (take taken.vars vars.old) }
    ensures same_vars { take taken.vars vars.new ≡ take taken.vars vars.old }
    ensures same_args { take taken.args args.new ≡ take taken.args args.old }
{
    for formula in formulas {
        if formula_holds(interp, formula, vars, args, taken) {
            return true;
        }
    }
    false
}

// Goes over the tuples in lexicographic order, up to the first that decides: a universal block is false by a tuple at
// which its body is false, and an existential one true by one at which it is true. That tuple is left in `vars`.
#[cycle(truth)]
pub(crate) fn block_holds(
    interp: &Interp,
    all: bool,
    sorts: &[SortId],
    body: &Formula,
    vars: &mut [u64],
    args: &mut [u64],
    taken: Taken,
) -> bool
    requires tables { tables_ascend interp.now ≡ true }
    requires vars { taken.vars + (length sorts.now + (room_of body.now).vars) ≤ length vars.old }
    requires args { taken.args + (room_of body.now).args ≤ length args.old }
    ensures value { result ≡ block_under (reading_of interp.now) (take taken.vars vars.old) all sorts.now body.now }
    ensures least { LeavesDeciding (reading_of interp.now) all sorts.now body.now taken.vars vars.old vars.new result }
    ensures same_vars { take taken.vars vars.new ≡ take taken.vars vars.old }
    ensures same_args { take taken.args args.new ≡ take taken.args args.old }
{
    let inner = Taken {
        vars: taken.vars + sorts.len(),
        args: taken.args,
    };
    let mut more = first_tuple(interp, sorts, vars, taken.vars);
    while more {
        if formula_holds(interp, body, vars, args, inner) != all {
            return !all;
        }
        more = next_tuple(interp, sorts, vars, taken.vars);
    }
    all
}

// The variable's value, where `depth` variables are in scope.
fn variable_value(vars: &[u64], depth: usize, variable: usize) -> u64
    requires { depth ≤ length vars.now }
    ensures { result ≡ slice_index (take depth vars.now) variable }
{
    let (scope, _) = vars.split_at(depth);
    scope.get(variable).copied().unwrap_or(0)
}
