ghost use Rattle.std.specs.Prelude.{◌≡◌, ◌+◌, length, if◌then◌else◌, IfOk, OnOk, IfSome, IfNone};
ghost use Rattle.fm_base.specs.declared.ids.Lit.{Lit as TheLit};
ghost use Rattle.fm_bank.specs.Interning.{atom_number, find_atom, with_atom};
ghost use Rattle.fm_resolve.specs.Names.{IsNumbered, name};

use fm_bank::{Atom, Literal};
use fm_base::{AtomId, Lit, Memory};
use indexmap::IndexSet;

// The number of an atom, which comes last where it isn't there yet, and whether it is new.
pub(crate) fn put_atom(atoms: &mut IndexSet<Atom>, atom: Atom) -> Result<(usize, bool), Memory>
    ensures place { IfOk result (λ r. r.0 ≡ atom_number atoms.old.keys atom) }
    ensures keys { OnOk result (atoms.new.keys ≡ with_atom atoms.old.keys atom) }
    ensures count { IfOk result (λ r. length atoms.new.keys ≡ length atoms.old.keys + (if r.1 then 1 else 0)) }
{
    let put = atoms.insert_full(atom)?;
    Ok(put)
}

fn find_atom(atoms: &IndexSet<Atom>, atom: Atom) -> Option<usize>
    ensures { result ≡ find_atom atoms.now.keys atom }
{
    atoms.get_index_of(&atom)
}

// The number of a literal whose atom is there.
pub(crate) fn find_lit(atoms: &IndexSet<Atom>, lit: Literal) -> Option<Lit>
    ensures numbered { IfSome result (λ l. IsNumbered atoms.now.keys l) }
    ensures named { IfSome result (λ l. name atoms.now.keys l ≡ lit) }
    ensures none { IfNone result ((k : TheLit) → IsNumbered atoms.now.keys k → name atoms.now.keys k ≡ lit → ⊥) }
{
    match find_atom(atoms, lit.atom) {
        None => None,
        Some(place) => Some(Lit {
            atom: AtomId(place),
            positive: lit.positive,
        }),
    }
}
