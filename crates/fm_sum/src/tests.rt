ghost use Rattle.std.specs.Prelude.{◌≡◌, ◌<◌};

use crate::{Sum, SumBound};
use fm_bank::Atom;
use fm_base::{Memory, SortId, Undo};
use std::process::Abort;
use std::test::Fail;

// Reads a false (/) or a true (+) bound on a sort, or a bound on the sum (b), opens a level (m), goes back to one (u), and
// asks for the least number of a sort (?) and for the least bound under which all fit (=).
const STEPS: &[u8] =
    b"?01 =02 +05 b05 ?01 =02 /00 ?01 /03 ?04 =05 m.. /12 ?13 =07 /11 ?13 /05 ?06 =09 u.0 ?04 ?11 =05 ";

fn digit(byte: u8) -> u64
    ensures { result < 256 }
{
    u64::from(byte.saturating_sub(b'0'))
}

// One of two sorts.
fn sort(byte: u8) -> SortId
    ensures { result.0 < 2 }
{
    if byte == b'1' { SortId(1) } else { SortId(0) }
}

fn go_back(rt: &impl Abort, bounds: &mut SumBound, level: usize) -> Result<(), Memory>
    requires { bounds.old.sorts ≡ 2 }
    ensures { bounds.new.sorts ≡ 2 }
{
    let top = bounds.mark()?;
    assert!(rt; level <= top);
    bounds.undo_to(level);
    Ok(())
}

fn run(rt: &impl Abort, bounds: &mut SumBound, step: &[u8]) -> Result<(), Memory>
    requires { bounds.old.sorts ≡ 2 }
    ensures { bounds.new.sorts ≡ 2 }
{
    match step {
        [kind @ (b'/' | b'+'), s, k, ..] => {
            bounds.read(Atom::Card(sort(*s), digit(*k)), *kind == b'+')
        }
        [b'b', _, n, ..] => bounds.read(Atom::Bound(digit(*n)), true),
        [b'm', ..] => {
            bounds.mark()?;
            Ok(())
        }
        [b'u', _, level, ..] => go_back(rt, bounds, usize::from(level.saturating_sub(b'0'))),
        [b'?', s, k, ..] => {
            assert_eq!(rt; bounds.least(sort(*s)), digit(*k));
            Ok(())
        }
        [b'=', _, n, ..] => {
            assert_eq!(rt; bounds.check(digit(*n)), Sum::Fits);
            assert_eq!(rt; bounds.check(digit(*n).saturating_sub(1)), Sum::Lemma);
            Ok(())
        }
        _ => Ok(()),
    }
}

#[test]
fn adds_least_numbers_up(rt: HostRuntime) -> Result<(), Fail> {
    let mut bounds = SumBound::new(rt.alloc(), 2)?;
    for step in STEPS.chunks(4) {
        run(&rt, &mut bounds, step)?;
    }
    Ok(())
}
