ghost use Rattle.std.specs.Prelude.{◌≡◌, ◌++◌, true, IfOk, OnOk};
ghost use Rattle.fm_base.specs.Interpretations.{reading_of};
ghost use Rattle.fm_base.specs.Normal.{patom_true, value as value_of};
ghost use Rattle.fm_inst.specs.Lookup.{tables_ascend};
ghost use Rattle.fm_inst.specs.Values.{applied_in, values_in};

use crate::lookup::apply;
use fm_base::{Interp, Memory, Patom, Pterm, SymId};

// `args` has the values of arguments that wait for their application.
#[cycle(values)]
fn term_value(
    interp: &Interp,
    term: &Pterm,
    env: &[u64],
    args: &mut Vec<u64>,
) -> Result<u64, Memory>
    requires { tables_ascend interp.now ≡ true }
    ensures value { IfOk result (λ x. x ≡ value_of term.now (reading_of interp.now) env.now) }
    ensures same { OnOk result (args.new.items ≡ args.old.items) }
{
    match term {
        Pterm::Var(variable) => Ok(env.get(*variable).copied().unwrap_or(0)),
        Pterm::App(symbol, terms) => applied(interp, *symbol, terms.as_slice(), env, args),
    }
}

#[cycle(values)]
fn applied(
    interp: &Interp,
    symbol: SymId,
    terms: &[Pterm],
    env: &[u64],
    args: &mut Vec<u64>,
) -> Result<u64, Memory>
    requires { tables_ascend interp.now ≡ true }
    ensures value { IfOk result (λ x. x ≡ applied_in interp.now env.now symbol terms.now) }
    ensures same { OnOk result (args.new.items ≡ args.old.items) }
{
    let start = args.len();
    put_values(interp, terms, env, args)?;
    let (_, tuple) = args.as_slice().split_at(start);
    let value = apply(interp, symbol, tuple);
    args.truncate(start);
    Ok(value)
}

#[cycle(values)]
fn put_values(
    interp: &Interp,
    terms: &[Pterm],
    env: &[u64],
    args: &mut Vec<u64>,
) -> Result<(), Memory>
    requires { tables_ascend interp.now ≡ true }
    ensures { OnOk result (args.new.items ≡ args.old.items ++ values_in interp.now env.now terms.now) }
{
    for term in terms {
        let value = term_value(interp, term, env, args)?;
        args.push(value)?;
    }
    Ok(())
}

pub(crate) fn atom_holds(
    interp: &Interp,
    atom: &Patom,
    env: &[u64],
    args: &mut Vec<u64>,
) -> Result<bool, Memory>
    requires { tables_ascend interp.now ≡ true }
    ensures value { IfOk result (λ b. b ≡ patom_true (reading_of interp.now) env.now atom.now) }
    ensures same { OnOk result (args.new.items ≡ args.old.items) }
{
    match atom {
        Patom::Pred(symbol, terms) => {
            let value = applied(interp, *symbol, terms.as_slice(), env, args)?;
            Ok(value == 1)
        }
        Patom::Equal(left, right) => {
            let left = term_value(interp, left, env, args)?;
            let right = term_value(interp, right, env, args)?;
            Ok(left == right)
        }
    }
}
