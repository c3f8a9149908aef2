ghost use Rattle.std.specs.Prelude.{◌≡◌, ◌++◌, map, true, IfOk, OnOk};
ghost use Rattle.std.specs.List.{flat_map};
ghost use Rattle.fm_bank.specs.Instances.{equality as equality_of};
ghost use Rattle.fm_bank.specs.Terms.{numbers};
ghost use Rattle.fm_machine.specs.Ties.{IsTied};
ghost use Rattle.fm_state.specs.Stands.{pick_in};
ghost use Rattle.fm_steps.specs.Facts.{AtomsAreKnown};
ghost use Rattle.fm_steps.specs.Picks.{Settles, pair_literals, pick_literals};
ghost use Rattle.fm_steps.specs.Sizes.{lit};

use crate::held::Search;
use crate::picking::picks;
use fm_bank::{Atom, Literal};
use fm_base::{Memory, TermId};
use fm_region::Pick;
use std::alloc::Global;

// An equality has the smaller number first.
fn equality(left: TermId, right: TermId) -> Atom
    ensures { result ≡ equality_of left.0 right.0 }
{
    if left.0 <= right.0 {
        Atom::Equal(left, right)
    } else {
        Atom::Equal(right, left)
    }
}

// Puts the equalities of a term with others behind the literals.
fn put_with(lits: &mut Vec<Literal>, a: TermId, others: &[TermId]) -> Result<(), Memory>
    ensures { OnOk result (lits.new.items ≡ lits.old.items ++ map (λ b. lit true (equality_of a.0 b)) (numbers others.now)) }
{
    for b in others {
        let atom = equality(a, *b);
        lits.push(Literal {
            positive: true,
            atom,
        })?;
    }
    Ok(())
}

// Puts the equalities of the pairs of places of a list behind the literals.
fn put_pairs(lits: &mut Vec<Literal>, terms: &[TermId]) -> Result<(), Memory>
    ensures { OnOk result (lits.new.items ≡ lits.old.items ++ pair_literals (numbers terms.now)) }
{
    let mut rest = terms;
    while let Some((a, others)) = rest.split_first() {
        put_with(lits, *a, others)?;
        rest = others;
    }
    Ok(())
}

// Puts the equalities of a test that is a clique behind the literals.
fn put_clique(lits: &mut Vec<Literal>, pick: &Option<Pick>) -> Result<(), Memory>
    ensures { OnOk result (lits.new.items ≡ lits.old.items ++ pick_literals (pick_in pick.now)) }
{
    match pick {
        None => Ok(()),
        Some(pick) => match pick.pair {
            Some(_) => Ok(()),
            None => put_pairs(lits, pick.terms.as_slice()),
        },
    }
}

// The equalities of the tests that are cliques.
fn clique_literals(alloc: Global, picks: &[Option<Pick>]) -> Result<Vec<Literal>, Memory>
    ensures { IfOk result (λ v. v.items ≡ flat_map pick_literals (map pick_in picks.now)) }
{
    let mut lits = Vec::new(alloc);
    for pick in picks {
        put_clique(&mut lits, pick)?;
    }
    Ok(lits)
}

/// What an event leaves: the tests are chosen anew, and the atoms of the cliques become known.
pub fn settle(alloc: Global, search: &mut Search) -> Result<(), Memory>
    requires tied { IsTied search.old }
    requires known { AtomsAreKnown search.old.state }
    ensures settled { OnOk result (Settles search.old.state search.new.state) }
    ensures tied { OnOk result (IsTied search.new) }
{
    let picks = picks(alloc, search)?;
    let lits = clique_literals(alloc, picks.as_slice())?;
    search.state.know_all(lits.as_slice())?;
    search.state.set_picks(picks);
    Ok(())
}
