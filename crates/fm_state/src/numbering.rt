ghost use Rattle.std.specs.Prelude.{◌≡◌, map, true, IfOk, OnOk};
ghost use Rattle.std.specs.List.{list_all};
ghost use Rattle.fm_bank.specs.Interning.{is_atom, lit_in, with_atoms};
ghost use Rattle.fm_bank.specs.declared.literal.Literal.{Literal as TheLiteral};
ghost use Rattle.fm_state.specs.Stands.{with_known};

use fm_bank::{Bank, Literal};
use fm_base::{Lit, Memory};
use std::alloc::Global;

// The atoms of the literals are known, and the literals by their numbers.
pub(crate) fn numbered_all(
    alloc: Global,
    bank: &mut Bank,
    lits: &[Literal],
) -> Result<Vec<Lit>, Memory>
    requires { list_all (λ (l : TheLiteral). is_atom bank.old.sig bank.old.terms l.atom) lits.now ≡ true }
    ensures known { OnOk result (bank.new ≡ with_known bank.old lits.now) }
    ensures numbers { IfOk result (λ v. v.items ≡ map (lit_in (with_atoms bank.old.atoms lits.now)) lits.now) }
{
    let mut found = Vec::new(alloc);
    for lit in lits {
        let atom = bank.atom(lit.atom)?;
        let positive = lit.positive;
        found.push(Lit { atom, positive })?;
    }
    Ok(found)
}
