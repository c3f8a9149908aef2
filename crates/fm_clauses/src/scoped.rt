ghost use Rattle.std.specs.Prelude.{◌≡◌, ◌++◌, ◌∷◌, [], ℕ, map, IfOk};
ghost use Rattle.std.specs.List.Sorted.{IsStrictlyIncreasing};
ghost use Rattle.fm_clauses.specs.Listed.{Lists, below, listed, reads};
ghost use Rattle.fm_clauses.specs.Narrow.{all_renamed, any_of, clause_of, occurs, occurs_in_atom, occurs_in_term, renamed, renamed_atom, renamed_literal};

use fm_bank::{Clause, Plit};
use fm_base::{Memory, Patom, Pterm, SortId};
use sqlite_items::Items;
use std::alloc::Global;

// The variables of a term, one for each occurrence.
#[cycle(list)]
fn list_term(term: &Pterm, found: &mut Vec<usize>) -> Result<(), Memory>
    ensures { IfOk result (λ _. Lists (occurs_in_term term.now) found.old.items found.new.items) }
{
    match term {
        Pterm::Var(v) => {
            found.push(*v)?;
            Ok(())
        }
        Pterm::App(_, terms) => {
            list_terms(terms.as_slice(), found)?;
            Ok(())
        }
    }
}

#[cycle(list)]
fn list_terms(terms: &[Pterm], found: &mut Vec<usize>) -> Result<(), Memory>
    ensures { IfOk result (λ _. Lists (any_of occurs_in_term terms.now) found.old.items found.new.items) }
{
    for term in terms {
        list_term(term, found)?;
    }
    Ok(())
}

fn list_atom(atom: &Patom, found: &mut Vec<usize>) -> Result<(), Memory>
    ensures { IfOk result (λ _. Lists (occurs_in_atom atom.now) found.old.items found.new.items) }
{
    match atom {
        Patom::Pred(_, terms) => {
            list_terms(terms.as_slice(), found)?;
            Ok(())
        }
        Patom::Equal(left, right) => {
            list_term(left, found)?;
            list_term(right, found)?;
            Ok(())
        }
    }
}

fn list_literals(lits: &[Plit], found: &mut Vec<usize>) -> Result<(), Memory>
    ensures { IfOk result (λ _. Lists (occurs lits.now) found.old.items found.new.items) }
{
    for lit in lits {
        list_atom(&lit.atom, found)?;
    }
    Ok(())
}

// Each number once, in ascending order.
fn sort_once(found: &mut Vec<usize>)
    ensures rises { IsStrictlyIncreasing found.new.items }
    ensures same { (k : ℕ) → listed found.new.items k ≡ listed found.old.items k }
{
    found.sort_unstable();
    found.dedup();
}

// The variables that occur in literals.
fn variables_in(alloc: Global, lits: &[Plit]) -> Result<Vec<usize>, Memory>
    ensures rises { IfOk result (λ used. IsStrictlyIncreasing used.items) }
    ensures same { IfOk result (λ used. (k : ℕ) → listed used.items k ≡ occurs lits.now k) }
{
    let mut used = Vec::new(alloc);
    list_literals(lits, &mut used)?;
    sort_once(&mut used);
    Ok(used)
}

// The new number of a variable: how many of those that occur are before it.
fn position(used: &[usize], v: usize) -> usize
    requires { IsStrictlyIncreasing used.now }
    ensures { result ≡ below used.now v }
{
    match used.binary_search(&v) {
        Ok(i) => i,
        Err(i) => i,
    }
}

#[cycle(renumber)]
fn renumbered(alloc: Global, term: &Pterm, used: &[usize]) -> Result<Pterm, Memory>
    requires { IsStrictlyIncreasing used.now }
    ensures { IfOk result (λ made. made ≡ renamed term.now (below used.now)) }
{
    match term {
        Pterm::Var(v) => Ok(Pterm::Var(position(used, *v))),
        Pterm::App(symbol, terms) => {
            let args = renumbered_all(alloc, terms.as_slice(), used)?;
            Ok(Pterm::App(*symbol, args))
        }
    }
}

#[cycle(renumber)]
fn renumbered_all(alloc: Global, terms: &[Pterm], used: &[usize]) -> Result<Items<Pterm>, Memory>
    requires { IsStrictlyIncreasing used.now }
    ensures { IfOk result (λ made. made ≡ all_renamed terms.now (below used.now)) }
{
    let mut made = Vec::new(alloc);
    for term in terms {
        made.push(renumbered(alloc, term, used)?)?;
    }
    Ok(Items::from_vec(made))
}

fn renumbered_atom(alloc: Global, atom: &Patom, used: &[usize]) -> Result<Patom, Memory>
    requires { IsStrictlyIncreasing used.now }
    ensures { IfOk result (λ made. made ≡ renamed_atom (below used.now) atom.now) }
{
    match atom {
        Patom::Pred(symbol, terms) => {
            let args = renumbered_all(alloc, terms.as_slice(), used)?;
            Ok(Patom::Pred(*symbol, args))
        }
        Patom::Equal(left, right) => {
            let left = renumbered(alloc, left, used)?;
            let right = renumbered(alloc, right, used)?;
            Ok(Patom::Equal(left, right))
        }
    }
}

fn renumbered_literals(alloc: Global, lits: &[Plit], used: &[usize]) -> Result<Items<Plit>, Memory>
    requires { IsStrictlyIncreasing used.now }
    ensures { IfOk result (λ made. made ≡ map (renamed_literal (below used.now)) lits.now) }
{
    let mut made = Vec::new(alloc);
    for lit in lits {
        let atom = renumbered_atom(alloc, &lit.atom, used)?;
        made.push(Plit {
            positive: lit.positive,
            atom,
        })?;
    }
    Ok(Items::from_vec(made))
}

fn push_sort(scope: &[SortId], v: usize, sorts: &mut Vec<SortId>) -> Result<(), Memory>
    ensures { IfOk result (λ _. sorts.new.items ≡ sorts.old.items ++ reads scope.now (v ∷ [])) }
{
    match scope.get(v) {
        None => Ok(()),
        Some(sort) => {
            sorts.push(*sort)?;
            Ok(())
        }
    }
}

// The sorts of the variables that occur.
fn sorts_at(alloc: Global, scope: &[SortId], used: &[usize]) -> Result<Items<SortId>, Memory>
    ensures { IfOk result (λ sorts. sorts ≡ reads scope.now used.now) }
{
    let mut sorts = Vec::new(alloc);
    for v in used {
        push_sort(scope, *v, &mut sorts)?;
    }
    Ok(Items::from_vec(sorts))
}

// The clause of literals in which these variables of the scope occur.
fn narrow_to(
    alloc: Global,
    scope: &[SortId],
    lits: &[Plit],
    used: &[usize],
) -> Result<Clause, Memory>
    requires rises { IsStrictlyIncreasing used.now }
    requires same { (k : ℕ) → listed used.now k ≡ occurs lits.now k }
    ensures { IfOk result (λ c. c ≡ clause_of scope.now lits.now) }
{
    let vars = sorts_at(alloc, scope, used)?;
    let lits = renumbered_literals(alloc, lits, used)?;
    Ok(Clause { vars, lits })
}

// The clause of literals under the variables in scope. It takes no more time than its literals, since a block may bind
// many variables of which a clause has few.
pub(crate) fn narrow(alloc: Global, scope: &[SortId], lits: &[Plit]) -> Result<Clause, Memory>
    ensures { IfOk result (λ c. c ≡ clause_of scope.now lits.now) }
{
    let used = variables_in(alloc, lits)?;
    let clause = narrow_to(alloc, scope, lits, used.as_slice())?;
    Ok(clause)
}
