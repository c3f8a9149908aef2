ghost use Rattle.std.specs.Prelude.{◌≡◌, ◌==◌, ◌+◌, ◌<◌, ◌^◌, ◌↔◌, [], length, true, false, None, IsTrue, IfOk, IfSome, IfNone};
ghost use Rattle.std.specs.List.{All, list_all};
ghost use Rattle.fm_base.specs.Interpretations.{is_fit, names_its_sorts, reading_of};
ghost use Rattle.fm_base.specs.Truth.{is_closed, truth};
ghost use Rattle.fm_base.specs.declared.signature.Sig.{Sig as TheSig};
ghost use Rattle.fm_cert.specs.Claims.{ShowsLeast};
ghost use Rattle.fm_cert.specs.Rows.{rows_of_claim};
ghost use Rattle.fm_blocks.specs.Endings.{EndsBadly, EndsWell, IsModelOfSum, IsSatFault, sum_of};
ghost use Rattle.fm_blocks.specs.Faults.{fault_at};
ghost use Rattle.fm_blocks.specs.ModelLines.{bad_in_model, lines_of_tables};
ghost use Rattle.fm_resolve.specs.Stores.{IsReady, clauses_in};
ghost use Rattle.fm_blocks.specs.declared.verdict.Rule.{Rule as TheRule};

use crate::lits::lit;
use crate::model::bad_in_model;
use crate::verdict::{Fault, Rule};
use fm_bank::Atom;
use fm_base::{Formula, Interp, Memory, Sig, tables_interpret};
use fm_cert::Claim;
use fm_resolve::Store;
use fm_truth::first_failing;
use std::alloc::Global;

// Whether the numbers add up to the sum.
fn add_up(sizes: &[u64], sum: u64) -> bool
    ensures { result ≡ (sum_of sizes.now == sum) }
{
    let mut left = sum;
    for size in sizes {
        if *size > left {
            return false;
        }
        left -= *size;
    }
    left == 0
}

// Whether each assertion is true.
fn are_true(alloc: Global, model: &Interp, assertions: &[Formula]) -> Result<bool, Memory>
    requires { (sig : TheSig) × (is_fit sig model.now ≡ true) × (list_all (λ f. is_closed f sig) assertions.now ≡ true) }
    ensures yes { IfOk result (λ b. b ≡ true → All (λ f. truth f (reading_of model.now) [] ≡ true) assertions.now) }
    ensures no { IfOk result (λ b. b ≡ false → All (λ f. truth f (reading_of model.now) [] ≡ true) assertions.now → ⊥) }
{
    let failing = first_failing(alloc, model, assertions)?;
    match failing {
        None => Ok(true),
        Some(_falsity) => Ok(false),
    }
}

// Whether the interpretation is a model of the assertions, and its sizes add up to the sum.
fn is_model(
    alloc: Global,
    sig: &Sig,
    assertions: &[Formula],
    sum: u64,
    model: &Interp,
) -> Result<bool, Memory>
    requires fits { is_fit sig.now model.now ≡ true }
    requires closed { list_all (λ f. is_closed f sig.now) assertions.now ≡ true }
    ensures yes { IfOk result (λ b. b ≡ true → IsModelOfSum sig.now assertions.now sum model.now) }
    ensures no { IfOk result (λ b. b ≡ false → IsModelOfSum sig.now assertions.now sum model.now → ⊥) }
{
    tables_interpret();
    if !add_up(model.sizes.as_slice(), sum) {
        return Ok(false);
    }
    let all = are_true(alloc, model, assertions)?;
    Ok(all)
}

// Whether a line's clause says that the sizes add up to no less than the sum.
fn shows_least(store: &Store, sum: u64) -> bool
    requires ready { IsReady store.now }
    ensures yes { result ≡ true → ShowsLeast (clauses_in store.now) sum }
    ensures no { result ≡ false → ShowsLeast (clauses_in store.now) sum → ⊥ }
{
    if sum == 0 {
        return true;
    }
    store.has_alone(lit(false, Atom::Bound(sum - 1)))
}

fn is_sat(
    alloc: Global,
    sig: &Sig,
    assertions: &[Formula],
    store: &Store,
    sum: u64,
    model: &Interp,
) -> Result<bool, Memory>
    requires ready { IsReady store.now }
    requires fits { is_fit sig.now model.now ≡ true }
    requires closed { list_all (λ f. is_closed f sig.now) assertions.now ≡ true }
    ensures yes { IfOk result (λ b. b ≡ true → ShowsLeast (clauses_in store.now) sum × IsModelOfSum sig.now assertions.now sum model.now) }
    ensures no { IfOk result (λ b. b ≡ false → ShowsLeast (clauses_in store.now) sum → IsModelOfSum sig.now assertions.now sum model.now → ⊥) }
{
    if !shows_least(store, sum) {
        return Ok(false);
    }
    let holds = is_model(alloc, sig, assertions, sum, model)?;
    Ok(holds)
}

// The line `q` is at fault, if it isn't good.
fn ending_fault(is_good: bool, at: u64) -> Option<Fault>
    ensures good { IfNone result (is_good ≡ true) }
    ensures bad { IfSome result (λ f. (is_good ≡ false) × (f ≡ fault_at at TheRule.Q)) }
{
    if is_good {
        None
    } else {
        Some(Fault {
            line: at,
            rule: Rule::Q,
        })
    }
}

fn check_sat(
    alloc: Global,
    sig: &Sig,
    assertions: &[Formula],
    store: &Store,
    sum: u64,
    model: &Interp,
    at: u64,
) -> Result<Option<Fault>, Memory>
    requires ready { IsReady store.now }
    requires names { names_its_sorts sig.now ≡ true }
    requires closed { list_all (λ f. is_closed f sig.now) assertions.now ≡ true }
    requires room { at + 2 + lines_of_tables model.now.tables < 2 ^ 64 }
    ensures good { IfOk result (λ o. IfNone o ((is_fit sig.now model.now ≡ true) × ShowsLeast (clauses_in store.now) sum × IsModelOfSum sig.now assertions.now sum model.now)) }
    ensures bad { IfOk result (λ o. IfSome o (λ f. IsSatFault sig.now assertions.now (clauses_in store.now) sum model.now at (bad_in_model sig.now (at + 1) model.now) f)) }
{
    if let Some(line) = bad_in_model(sig, at + 1, model) {
        return Ok(Some(Fault {
            line,
            rule: Rule::M,
        }));
    }
    let is_good = is_sat(alloc, sig, assertions, store, sum, model)?;
    Ok(ending_fault(is_good, at))
}

/// The first fault of an ending and of the model behind it, where its line `q` is the line `at` of the text.
pub(crate) fn check_ending(
    alloc: Global,
    sig: &Sig,
    assertions: &[Formula],
    store: &Store,
    claim: &Claim,
    at: u64,
) -> Result<Option<Fault>, Memory>
    requires ready { IsReady store.now }
    requires names { names_its_sorts sig.now ≡ true }
    requires closed { list_all (λ f. is_closed f sig.now) assertions.now ≡ true }
    requires room { at + length (rows_of_claim claim.now) < 2 ^ 64 }
    ensures good { IfOk result (λ o. IfNone o (EndsWell sig.now assertions.now (clauses_in store.now) claim.now)) }
    ensures bad { IfOk result (λ o. IfSome o (λ f. EndsBadly sig.now assertions.now (clauses_in store.now) at claim.now f)) }
{
    match claim {
        Claim::Unsat => Ok(ending_fault(store.has_empty(), at)),
        Claim::Sat { sum, model } => {
            let fault = check_sat(alloc, sig, assertions, store, *sum, model, at)?;
            Ok(fault)
        }
        Claim::Unknown { .. } => Ok(None),
    }
}
