ghost use Rattle.std.specs.Prelude.{◌≡◌, ◌++◌, ◌∷◌, ◌+◌, nat_lt, map, length, true, IfOk, OnOk};
ghost use Rattle.std.specs.List.{list_all};
ghost use Rattle.fm_base.specs.declared.signature.Ty.{Ty as TheTy};
ghost use Rattle.fm_bank.specs.Instances.{equality as equality_of};
ghost use Rattle.fm_bank.specs.Terms.{is_type, numbers};
ghost use Rattle.fm_cert.specs.Lines.{equals_with, more_than, some_equal, sum_clause, total_above};

use fm_bank::{Atom, Literal};
use fm_base::{Memory, SortId, TermId, Ty};
use std::alloc::Global;

pub(crate) fn lit(positive: bool, atom: Atom) -> Literal
    ensures { result ≡ record { positive = positive; atom = atom } }
{
    Literal { positive, atom }
}

// Whether the sizes add up to more than n, where each is above its k.
pub(crate) fn is_below(n: u64, ks: &[u64]) -> bool
    ensures { result ≡ nat_lt n (total_above ks.now) }
{
    let mut left = n;
    for k in ks {
        if *k >= left {
            return true;
        }
        left = left - *k - 1;
    }
    false
}

pub(crate) fn sum_lits(alloc: Global, ks: &[u64], n: u64) -> Result<Vec<Literal>, Memory>
    ensures { IfOk result (λ lits. lits.items ≡ sum_clause 0 ks.now n) }
{
    let mut lits = Vec::new(alloc);
    for (sort, k) in ks.iter().enumerate() {
        lits.push(lit(true, Atom::Card(SortId(sort), *k)))?;
    }
    lits.push(lit(false, Atom::Bound(n)))?;
    Ok(lits)
}

// An equality has the smaller number first.
fn equality(left: TermId, right: TermId) -> Atom
    ensures { result ≡ equality_of left.0 right.0 }
{
    if left.0 <= right.0 {
        Atom::Equal(left, right)
    } else {
        Atom::Equal(right, left)
    }
}

fn push_equals(lits: &mut Vec<Literal>, term: TermId, others: &[TermId]) -> Result<(), Memory>
    ensures { OnOk result (lits.new.items ≡ lits.old.items ++ equals_with term.0 (numbers others.now)) }
{
    for other in others {
        lits.push(lit(true, equality(term, *other)))?;
    }
    Ok(())
}

// More than k elements, where the terms aren't all different.
pub(crate) fn pigeonholes(
    alloc: Global,
    sort: SortId,
    k: u64,
    terms: &[TermId],
) -> Result<Vec<Literal>, Memory>
    ensures { IfOk result (λ lits. lits.items ≡ more_than sort.0 k ∷ some_equal (numbers terms.now)) }
{
    let mut lits = Vec::new(alloc);
    lits.push(lit(false, Atom::Card(sort, k)))?;
    for i in 0..terms.len() {
        push_equals(&mut lits, terms[i], &terms[i + 1..])?;
    }
    Ok(lits)
}

// Whether there is one more than k.
pub(crate) fn is_one_more(count: usize, k: u64) -> bool
    ensures yes { result ≡ true → count ≡ k + 1 }
    ensures no { count ≡ k + 1 → result ≡ true }
{
    count > 0 && (count - 1) as u64 == k
}

pub(crate) fn has_sort(found: Option<Ty>, sort: SortId) -> bool
    ensures { result ≡ is_type found (TheTy.Of sort) }
{
    match found {
        Some(Ty::Of(found)) => found.0 == sort.0,
        _ => false,
    }
}
