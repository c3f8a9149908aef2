ghost use Rattle.std.specs.Prelude.{◌≡◌, ◌<◌, length, map, IfOk};
ghost use Rattle.fm_lines.specs.Naming.{AreStepsOver};
ghost use Rattle.fm_steps.specs.Lines.{literal_in, named_step};

use fm_bank::{Bank, Literal};
use fm_base::{Lit, Memory};
use std::alloc::Global;

fn literal_of(bank: &Bank, lit: Lit) -> Literal
    requires { lit.atom.0 < length bank.now.atoms }
    ensures { result ≡ literal_in bank.now.atoms lit }
{
    Literal {
        positive: lit.positive,
        atom: bank.atom_of(lit.atom),
    }
}

// The steps with each literal by its atom, as a certificate has them.
pub(crate) fn named_steps(
    alloc: Global,
    bank: &Bank,
    steps: &[(Lit, usize)],
) -> Result<Vec<(Literal, usize)>, Memory>
    requires { AreStepsOver (length bank.now.atoms) steps.now }
    ensures { IfOk result (λ v. v.items ≡ map (named_step bank.now.atoms) steps.now) }
{
    let mut named = Vec::new(alloc);
    for step in steps {
        named.push((literal_of(bank, step.0), step.1))?;
    }
    Ok(named)
}
