ghost use Rattle.std.specs.Prelude.{◌≡◌, ◌<◌, ◌≤◌, ◌∷◌, [], length, slice_get, IfOk, OnOk};
ghost use Rattle.fm_bank.specs.Closure.{shape_at};
ghost use Rattle.fm_bank.specs.Terms.{numbers};
ghost use Rattle.fm_cong.specs.Growth.{AreBelow, HasMoreUses, HasPlace, HasPlaceAt, SayTheSame, is_flagged};

use crate::member::Member;
use fm_bank::Bank;
use fm_base::{Memory, TermId};
use fm_cells::Places;
use std::alloc::Global;

fn numbers_of(alloc: Global, terms: &[TermId]) -> Result<Vec<usize>, Memory>
    ensures { IfOk result (λ v. v.items ≡ numbers terms.now) }
{
    let mut args = Vec::new(alloc);
    for term in terms {
        args.push(term.0)?;
    }
    Ok(args)
}

// A term of a bank as it is registered.
pub(crate) fn member_of(alloc: Global, bank: &Bank, term: TermId) -> Result<Member, Memory>
    requires term { term.0 < length bank.now.terms }
    ensures { IfOk result (λ m. shape_at term.0 (slice_get bank.now.terms term.0) ≡ m ∷ []) }
{
    let (symbol, args) = bank.term(term);
    let args = numbers_of(alloc, args)?;
    Ok(Member::new(term.0, symbol.0, args))
}

// Whether a term is registered, by its flag.
pub(crate) fn has_flag(flags: &[bool], number: usize) -> bool
    ensures { result ≡ is_flagged flags.now number }
{
    flags.get(number).copied().unwrap_or(false)
}

// Makes a flag for a number, if there is none; it isn't set.
pub(crate) fn reach_flag(flags: &mut Vec<bool>, number: usize) -> Result<(), Memory>
    ensures same { SayTheSame flags.old.items flags.new.items }
    ensures there { OnOk result (number < length flags.new.items) }
{
    while flags.len() <= number {
        flags.push(false)?;
    }
    Ok(())
}

// Makes a list of places for each of so many nodes.
fn reach_uses(alloc: Global, uses: &mut Vec<Places>, count: usize) -> Result<(), Memory>
    ensures kept { HasMoreUses uses.old.items uses.new.items }
    ensures there { OnOk result (count ≤ length uses.new.items) }
{
    while uses.len() < count {
        uses.push(Places::new(alloc))?;
    }
    Ok(())
}

// Notes the place of a term at one of its arguments.
fn note_use(uses: &mut Vec<Places>, node: usize, place: usize) -> Result<(), Memory>
    requires node { node < length uses.old.items }
    ensures kept { HasMoreUses uses.old.items uses.new.items }
    ensures there { OnOk result (HasPlaceAt uses.new.items node place) }
    ensures length { length uses.new.items ≡ length uses.old.items }
{
    let list = &mut uses[node];
    list.push(place)?;
    Ok(())
}

// Notes the place of a term at each of its arguments, of which each is one of so many nodes.
pub(crate) fn note_uses(
    alloc: Global,
    uses: &mut Vec<Places>,
    count: usize,
    args: &[usize],
    place: usize,
) -> Result<(), Memory>
    requires args { AreBelow count args.now }
    ensures kept { HasMoreUses uses.old.items uses.new.items }
    ensures there { OnOk result (HasPlace uses.new.items args.now place) }
{
    reach_uses(alloc, uses, count)?;
    note_all(uses, args, place)?;
    Ok(())
}

fn note_all(uses: &mut Vec<Places>, args: &[usize], place: usize) -> Result<(), Memory>
    requires args { AreBelow (length uses.old.items) args.now }
    ensures kept { HasMoreUses uses.old.items uses.new.items }
    ensures there { OnOk result (HasPlace uses.new.items args.now place) }
{
    for arg in args {
        note_use(uses, *arg + 2, place)?;
    }
    Ok(())
}
