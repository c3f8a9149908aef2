ghost use Rattle.std.specs.Prelude.{◌≡◌, ◌<◌, ◌++◌, ◌∷◌, [], OnOk, vec_capacity, vec_len};
ghost use Rattle.fm_cells.specs.Sorts.{SaysTheSame};
ghost use Rattle.fm_cong.specs.Types.{HasNoted, IsAnnounced};

use fm_base::{Memory, TermId, Ty};
use fm_cells::Sorts;
use std::alloc::Global;

// Makes room for the type of a term that is to be registered.
pub(crate) fn announce_type(
    alloc: Global,
    types: &mut Vec<(TermId, Ty)>,
    sorts: &mut Sorts,
    ty: Ty,
) -> Result<(), Memory>
    ensures types { types.new.items ≡ types.old.items }
    ensures room { OnOk result (vec_len types.new < vec_capacity types.new) }
    ensures lists { SaysTheSame sorts.old sorts.new }
    ensures announced { OnOk result (IsAnnounced sorts.new ty) }
{
    types.reserve(1)?;
    match ty {
        Ty::Bool => Ok(()),
        Ty::Of(sort) => sorts.announce(alloc, sort),
    }
}

// Notes the type of a term for which there is room.
pub(crate) fn note_type(types: &mut Vec<(TermId, Ty)>, sorts: &mut Sorts, term: TermId, ty: Ty)
    requires room { vec_len types.old < vec_capacity types.old }
    requires announced { IsAnnounced sorts.old ty }
    ensures types { types.new.items ≡ types.old.items ++ (term, ty) ∷ [] }
    ensures noted { HasNoted sorts.old sorts.new term.0 ty }
{
    let _ = types.push((term, ty));
    match ty {
        Ty::Bool => {}
        Ty::Of(sort) => sorts.note(term, sort),
    }
}
