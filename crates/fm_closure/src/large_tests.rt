// Two chains of three hundred terms, f(f(..f(a))) and f(f(..f(b))), with a = b: each link follows from the one before it.
// And a chain of eighty thousand terms with f(a) = a, so that all of them are of one class, in a closure that is made for
// many questions. A benchmark too: `./bench closure` at the top.
ghost use Rattle.std.specs.Prelude.{IfOk};
ghost use Rattle.fm_bank.specs.Terms.{AreTerms};

use crate::{Closed, Equations, equal_in};
use fm_bank::Bank;
use fm_base::{Memory, Rank, Sig, SortId, SymId, TermId, Ty};
use sqlite_items::Items;
use std::alloc::Global;
use std::process::Abort;
use std::test::Fail;

const U: Ty = Ty::Of(SortId(0));

// The constants a and b are the symbols and the terms 0 and 1.
const F: SymId = SymId(2);

const TERMS: usize = 600;

const LONG: usize = 80_000;

fn rank(alloc: Global, arity: usize) -> Result<Rank, Memory> {
    let mut args = Vec::new(alloc);
    for _ in 0..arity {
        args.push(U)?;
    }
    let args = Items::from_vec(args);
    Ok(Rank { args, result: U })
}

fn signature(alloc: Global) -> Result<Sig, Memory> {
    let mut ranks = Vec::new(alloc);
    for arity in [0, 0, 1] {
        ranks.push(rank(alloc, arity)?)?;
    }
    let ranks = Items::from_vec(ranks);
    Ok(Sig { sorts: 1, ranks })
}

fn put(rt: &impl Abort, bank: &mut Bank, symbol: SymId, args: &[TermId]) -> Result<(), Memory> {
    assert!(rt; bank.is_term(symbol, args));
    bank.intern(symbol, args)?;
    Ok(())
}

// The terms of the chains by turns, each f of the term two before it.
fn chains(rt: &impl Abort, alloc: Global) -> Result<Bank, Memory> {
    let sig = signature(alloc)?;
    let mut bank = Bank::new(alloc, &sig)?;
    put(rt, &mut bank, SymId(0), &[])?;
    put(rt, &mut bank, SymId(1), &[])?;
    for below in 0..TERMS - 2 {
        put(rt, &mut bank, F, &[TermId(below)])?;
    }
    Ok(bank)
}

fn all(alloc: Global, bank: &Bank) -> Result<Vec<TermId>, Memory>
    ensures { IfOk result (λ over. AreTerms bank.now.terms over.items) }
{
    let mut over = Vec::new(alloc);
    for number in 0..bank.terms() {
        over.push(TermId(number))?;
    }
    Ok(over)
}

// Whether the ends of the chains are equal where these pairs are.
fn joins(alloc: Global, bank: &Bank, pairs: &[(TermId, TermId)]) -> Result<bool, Memory> {
    let over = all(alloc, bank)?;
    let eqs = Equations {
        pairs: Items::from_slice(alloc, pairs)?,
        yes: Items::new(alloc),
        no: Items::new(alloc),
    };
    equal_in(
        alloc,
        bank,
        &eqs,
        &over,
        TermId(TERMS - 2),
        TermId(TERMS - 1),
    )
}

#[test]
fn joins_long_chains(rt: HostRuntime) -> Result<(), Fail> {
    let bank = chains(&rt, rt.alloc())?;
    assert!(rt; bank.terms() == TERMS);
    let start = [(TermId(0), TermId(1))];
    assert!(rt; joins(rt.alloc(), &bank, &start)?);
    assert!(rt; !joins(rt.alloc(), &bank, &[])?);
    Ok(())
}

// A chain of so many terms, each f of the term before it.
fn chain(rt: &impl Abort, alloc: Global, count: usize) -> Result<Bank, Memory> {
    let sig = signature(alloc)?;
    let mut bank = Bank::new(alloc, &sig)?;
    put(rt, &mut bank, SymId(0), &[])?;
    for term in 1..count {
        put(rt, &mut bank, F, &[TermId(term - 1)])?;
    }
    Ok(bank)
}

// Whether the ends of the chain are equal where its first two terms are.
fn closes(alloc: Global, bank: &Bank, last: TermId) -> Result<bool, Memory> {
    let over = all(alloc, bank)?;
    let eqs = Equations {
        pairs: Items::from_slice(alloc, &[(TermId(0), TermId(1))])?,
        yes: Items::new(alloc),
        no: Items::new(alloc),
    };
    let closed = Closed::new(alloc, bank, &eqs, &over)?;
    Ok(closed.joins(TermId(0), last))
}

#[test]
fn closes_a_long_chain(rt: HostRuntime) -> Result<(), Fail> {
    let bank = chain(&rt, rt.alloc(), LONG)?;
    assert!(rt; closes(rt.alloc(), &bank, TermId(LONG - 1))?);
    Ok(())
}
