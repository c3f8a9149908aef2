ghost use Rattle.std.specs.Prelude.{◌≡◌, ◌<◌, length, option_map, vec_capacity, vec_len};
ghost use Rattle.fm_cells.specs.Apart.{KeepsCuts, KeepsIndexOf};
ghost use Rattle.fm_cells.specs.Rings.{own_or};
ghost use Rattle.fm_cong.specs.Facts.{IsAtomBelow, numbers_of_pair, unequal_by};
ghost use Rattle.fm_cong.specs.Tracked.{AreNoted};

use crate::fact::Fact;
use crate::queries::unequal_sides;
use fm_base::TermId;
use fm_cells::{Apart, Logged};
use std::alloc::Global;

// The sides of a false equality, as terms.
fn unequal_terms(fact: Fact) -> Option<(TermId, TermId)>
    ensures { option_map numbers_of_pair result ≡ unequal_by fact }
{
    let (a, b) = unequal_sides(fact)?;
    Some((TermId(a), TermId(b)))
}

// Notes the sides of a literal that is a false equality, where there is room.
pub(crate) fn note_pair(alloc: Global, apart: &mut Apart, class: &Logged<usize>, fact: Fact)
    requires room { vec_len apart.old.pairs < vec_capacity apart.old.pairs }
    requires atom { IsAtomBelow (length class.now.cells.items) fact.atom }
    ensures pairs { AreNoted apart.old apart.new fact }
    ensures cuts { KeepsCuts apart.old apart.new }
    ensures indexed { KeepsIndexOf (own_or class.now.cells.items) apart.old apart.new }
{
    if let Some(pair) = unequal_terms(fact) {
        apart.note(alloc, class, pair);
    }
}
