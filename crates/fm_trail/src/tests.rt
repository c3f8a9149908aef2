ghost use Rattle.std.specs.Prelude.{◌≡◌, None};
ghost use Rattle.fm_trail.specs.Trail.{value_of};

use crate::{Entry, Trail, Why};
use fm_base::{AtomId, Lit, Memory, Reader};
use std::alloc::Global;
use std::test::Fail;

// Decides the atom (+ and -, the sign), implies it by the clause of its own number (p and n) or goes back to a level
// (u).
fn act(trail: &mut Trail, action: u8, number: usize) -> Result<(), Memory> {
    let atom = AtomId(number);
    let positive = action == b'+' || action == b'p';
    if action == b'u' {
        if number < trail.level() {
            trail.undo_to(number);
        }
    } else if trail.value(atom).is_none() {
        put(
            trail,
            Lit { atom, positive },
            action == b'+' || action == b'-',
        )?;
    }
    Ok(())
}

fn put(trail: &mut Trail, lit: Lit, decided: bool) -> Result<(), Memory>
    requires { value_of trail.old.entries lit.atom ≡ None }
{
    if decided {
        trail.decide(lit)
    } else {
        trail.imply(lit, lit.atom.0)
    }
}

fn sign(value: Option<bool>) -> u8 {
    match value {
        Some(true) => b'1',
        Some(false) => b'0',
        None => b'.',
    }
}

// The values of the first six atoms.
fn values(alloc: Global, trail: &Trail) -> Result<Vec<u8>, Memory> {
    let mut values = Vec::new(alloc);
    for atom in 0..6 {
        values.push(sign(trail.value(AtomId(atom))))?;
    }
    Ok(values)
}

// Places go stale at each going back, and come to be those of other atoms' entries.
#[test]
fn goes_on_and_back(rt: HostRuntime) -> Result<(), Fail> {
    let mut trail = Trail::new(rt.alloc());
    let rows: [(u8, usize, &[u8], usize); 12] = [
        (b'p', 3, b"...1..", 0),
        (b'+', 0, b"1..1..", 1),
        (b'n', 5, b"1..1.0", 1),
        (b'-', 1, b"10.1.0", 2),
        (b'p', 4, b"10.110", 2),
        (b'u', 1, b"1..1.0", 1),
        (b'-', 4, b"1..100", 2),
        (b'u', 0, b"...1..", 0),
        (b'+', 2, b"..11..", 1),
        (b'p', 1, b".111..", 1),
        (b'-', 0, b"0111..", 2),
        (b'u', 0, b"...1..", 0),
    ];
    for (action, number, wanted, level) in rows {
        act(&mut trail, action, number)?;
        assert_eq!(rt; values(rt.alloc(), &trail)?.as_slice(), wanted);
        assert_eq!(rt; trail.level(), level);
    }
    Ok(())
}

fn small_trail(alloc: Global) -> Result<Trail, Memory> {
    let mut trail = Trail::new(alloc);
    for (action, atom) in [(b'p', 3), (b'+', 0), (b'n', 5), (b'-', 1), (b'p', 4)] {
        act(&mut trail, action, atom)?;
    }
    Ok(trail)
}

#[test]
fn tells_entries(rt: HostRuntime) -> Result<(), Fail> {
    let trail = small_trail(rt.alloc())?;
    let rows = [
        (3, true, 0, Why::Clause(3)),
        (0, true, 1, Why::Decision),
        (5, false, 1, Why::Clause(5)),
        (1, false, 2, Why::Decision),
        (4, true, 2, Why::Clause(4)),
    ];
    for (place, (atom, positive, level, why)) in rows.into_iter().enumerate() {
        let lit = Lit {
            atom: AtomId(atom),
            positive,
        };
        assert_eq!(rt; trail.place(AtomId(atom)), Some(place));
        if place < trail.len() {
            assert_eq!(rt; trail.entry(place), Entry { lit, level, why });
        }
    }
    assert_eq!(rt; trail.len(), 5);
    Ok(())
}

// The atoms of all entries that the reader hasn't read.
fn unread(alloc: Global, trail: &mut Trail, reader: Reader) -> Result<Vec<usize>, Memory> {
    let mut atoms = Vec::new(alloc);
    for _ in 0..trail.len() {
        if let Some(lit) = trail.take(reader) {
            atoms.push(lit.atom.0)?;
        }
    }
    Ok(atoms)
}

// What a reader reads after an action.
#[test]
fn reads_each_entry_once(rt: HostRuntime) -> Result<(), Fail> {
    let mut trail = small_trail(rt.alloc())?;
    let rows: [(u8, usize, Reader, &[usize]); 9] = [
        (b'u', 2, Reader::Congruence, &[3, 0, 5, 1, 4]),
        (b'u', 2, Reader::Congruence, &[]),
        (b'u', 2, Reader::Regions, &[3, 0, 5, 1, 4]),
        // both heads come back to three entries, and that of the sum stays at none
        (b'u', 1, Reader::Congruence, &[]),
        (b'-', 2, Reader::Congruence, &[2]),
        (b'p', 1, Reader::Regions, &[2, 1]),
        (b'u', 1, Reader::Sum, &[3, 0, 5]),
        (b'u', 0, Reader::Instances, &[3]),
        (b'+', 4, Reader::Sum, &[4]),
    ];
    for (action, number, reader, wanted) in rows {
        act(&mut trail, action, number)?;
        assert_eq!(rt; unread(rt.alloc(), &mut trail, reader)?.as_slice(), wanted);
        assert_eq!(rt; trail.head(reader), trail.len());
    }
    Ok(())
}
