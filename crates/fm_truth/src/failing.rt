ghost use Rattle.std.specs.Prelude.{◌≡◌, ◌+◌, ◌≤◌, [], true, false, take, length, IfOk, IfNone, IfSome, MatchOption};
ghost use Rattle.std.specs.List.{All, list_all};
ghost use Rattle.fm_base.specs.Interpretations.{reading_of, is_fit};
ghost use Rattle.fm_base.specs.Truth.{truth, is_closed};
ghost use Rattle.fm_base.specs.declared.signature.Sig.{Sig as TheSig};
ghost use Rattle.fm_truth.specs.Evaluating.{block_under};
ghost use Rattle.fm_truth.specs.Failing.{IsFirstFailing, IsLeastFailing, ShowsFalse, universal_of};
ghost use Rattle.fm_truth.specs.Lookup.{tables_ascend};
ghost use Rattle.fm_truth.specs.Room.{IsWithin, room_of};

use crate::evaluate::{block_holds, holds};
use crate::lookup::part;
use crate::rooms::{Env, Taken};
use fm_base::{Formula, Interp, Memory, SortId};
use sqlite_items::Items;
use std::alloc::Global;

/// A false assertion, by its place in the list. Where it is universal, `tuple` is the least tuple of elements for its
/// outermost block at which its body is false; otherwise it is empty.
#[derive(Drop)]
pub struct Falsity {
    pub assertion: usize,
    pub tuple: Items<u64>,
}

/// Finds the first assertion that is false.
pub fn first_failing(
    alloc: Global,
    interp: &Interp,
    assertions: &[Formula],
) -> Result<Option<Falsity>, Memory>
    requires { (sig : TheSig) × (is_fit sig interp.now ≡ true) × (list_all (λ f. is_closed f sig) assertions.now ≡ true) }
    ensures none { IfOk result (λ o. IfNone o (All (λ f. truth f (reading_of interp.now) [] ≡ true) assertions.now)) }
    ensures some { IfOk result (λ o. IfSome o (λ f.
        IsFirstFailing (reading_of interp.now) assertions.now f.assertion f.tuple)) }
{
    let mut env = Env::for_formulas(alloc, assertions)?;
    for (assertion, formula) in assertions.iter().enumerate() {
        if !holds(interp, formula, &mut env) {
            let tuple = failing_tuple(alloc, interp, formula, &mut env)?;
            return Ok(Some(Falsity { assertion, tuple }));
        }
    }
    Ok(None)
}

// The tuple that shows that the formula is false.
fn failing_tuple(
    alloc: Global,
    interp: &Interp,
    formula: &Formula,
    env: &mut Env,
) -> Result<Items<u64>, Memory>
    requires tables { tables_ascend interp.now ≡ true }
    requires room { IsWithin (room_of formula.now) env.old }
    requires fails { truth formula.now (reading_of interp.now) [] ≡ false }
    ensures { IfOk result (λ t. ShowsFalse (reading_of interp.now) (universal_of formula.now) t) }
{
    match universal(formula) {
        None => Ok(Items::new(alloc)),
        Some((sorts, body)) => {
            put_least(
                interp,
                sorts,
                body,
                env.vars.as_mut_slice(),
                env.args.as_mut_slice(),
            );
            let tuple = Items::from_slice(alloc, part(env.vars.as_slice(), 0, sorts.len()))?;
            Ok(tuple)
        }
    }
}

// The variables and the body of a universal formula.
fn universal(formula: &Formula) -> Option<(&[SortId], &Formula)>
    ensures { MatchOption result (universal_of formula.now ≡ None)
        (λ o. universal_of formula.now ≡ Some (o.0.now, o.1.now)) }
{
    match formula {
        Formula::Quant { all, vars, body } if *all => Some((vars.as_slice(), body.get())),
        _ => None,
    }
}

// Writes the least tuple at which the body is false into the first places of `vars`.
fn put_least(interp: &Interp, sorts: &[SortId], body: &Formula, vars: &mut [u64], args: &mut [u64])
    requires tables { tables_ascend interp.now ≡ true }
    requires vars { length sorts.now + (room_of body.now).vars ≤ length vars.old }
    requires args { (room_of body.now).args ≤ length args.old }
    requires fails { block_under (reading_of interp.now) [] true sorts.now body.now ≡ false }
    ensures { IsLeastFailing (reading_of interp.now) sorts.now body.now (take (length sorts.now) vars.new) }
{
    let none = Taken { vars: 0, args: 0 };
    block_holds(interp, true, sorts, body, vars, args, none);
}
