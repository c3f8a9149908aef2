ghost use Rattle.std.specs.Prelude.{◌≡◌, ◌<◌, ◌^◌, map};
ghost use Rattle.fm_inst.specs.Depths.{atom_depth as atom_depth_of, depth_of, largest};

use fm_base::{Patom, Pterm};

// How many variables a literal needs, those up to its last one.
pub(crate) fn atom_depth(atom: &Patom) -> usize
    requires { atom_depth_of atom.now < 2 ^ 64 }
    ensures { result ≡ atom_depth_of atom.now }
{
    match atom {
        Patom::Pred(_, terms) => terms_depth(terms.as_slice()),
        Patom::Equal(left, right) => term_depth(left).max(term_depth(right)),
    }
}

#[cycle(depths)]
fn term_depth(term: &Pterm) -> usize
    requires { depth_of term.now < 2 ^ 64 }
    ensures { result ≡ depth_of term.now }
{
    match term {
        Pterm::Var(variable) => *variable + 1,
        Pterm::App(_, terms) => terms_depth(terms.as_slice()),
    }
}

#[cycle(depths)]
fn terms_depth(terms: &[Pterm]) -> usize
    requires { largest (map depth_of terms.now) < 2 ^ 64 }
    ensures { result ≡ largest (map depth_of terms.now) }
{
    let mut depth = 0;
    for term in terms {
        depth = term_depth(term).max(depth);
    }
    depth
}
