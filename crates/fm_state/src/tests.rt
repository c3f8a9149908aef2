use crate::offer::Offer;
use crate::standing::State;
use fm_bank::{Atom, Bank};
use fm_base::{AtomId, Lit, Memory, Reader, Sig, SortId};
use fm_guide::Word;
use fm_sat::Store;
use fm_trail::Trail;
use sqlite_items::Items;
use std::alloc::Global;
use std::process::Abort;
use std::test::Fail;

// A literal by the number of its atom, and its sign.
fn lit(digit: u8, sign: u8) -> Lit {
    Lit {
        atom: AtomId(usize::from(digit.saturating_sub(b'0'))),
        positive: sign == b'+',
    }
}

// One sort without terms. The atoms are C(0,0), B(0) and B(1); the clauses say that the sort isn't empty, and that the sum
// isn't 0: so a search over no clauses begins.
fn begun(rt: &impl Abort, alloc: Global) -> Result<State, Memory> {
    let sig = Sig {
        sorts: 1,
        ranks: Items::new(alloc),
    };
    let mut bank = Bank::new(alloc, &sig)?;
    for atom in [Atom::Card(SortId(0), 0), Atom::Bound(0), Atom::Bound(1)] {
        assert!(rt; bank.is_atom(atom));
        bank.atom(atom)?;
    }
    let mut store = Store::new(alloc);
    let card = AtomId(0);
    let bound = AtomId(1);
    store.add(&[Lit {
        atom: card,
        positive: false,
    }])?;
    store.add(&[
        Lit {
            atom: card,
            positive: true,
        },
        Lit {
            atom: bound,
            positive: false,
        },
    ])?;
    Ok(State {
        alloc,
        bound: 1,
        free: false,
        bank,
        store,
        trail: Trail::new(alloc),
        added: Vec::new(alloc),
        instances: 0,
        decisions: 0,
        picks: Vec::new(alloc),
    })
}

// Puts a literal on, where its atom has no value.
fn put(state: &mut State, lit: Lit, clause: usize) -> Result<(), Memory> {
    if state.trail().value(lit.atom).is_none() {
        state.put(lit, clause)?;
    }
    Ok(())
}

fn reader(reader: Reader) -> u8 {
    match reader {
        Reader::Congruence => b'c',
        Reader::Regions => b'r',
        Reader::Sum => b's',
        Reader::Instances => b'i',
    }
}

fn digit(number: usize) -> u8 {
    b'0'.saturating_add((number % 10) as u8)
}

// An offer in two letters.
fn letters(offer: &Offer) -> [u8; 2] {
    match offer {
        Offer::Learn(clause) => [b'L', digit(*clause)],
        Offer::Unit(clause) => [b'U', digit(*clause)],
        Offer::Take(of) => [b'T', reader(*of)],
        Offer::Turn => [b't', b'u'],
        Offer::Answer(Word::Unsat) => [b'A', b'u'],
        _ => [b'?', b'?'],
    }
}

fn put_offers(shown: &mut Vec<u8>, offers: &[Offer]) -> Result<(), Memory> {
    for offer in offers {
        shown.extend_from_slice(&letters(offer))?;
    }
    Ok(())
}

// What the groups offer that ask for no bound: conflicts, units with what is left to read, and Turn.
fn offered(alloc: Global, state: &State, limit: usize) -> Result<Vec<u8>, Memory> {
    let mut shown = Vec::new(alloc);
    let conflicts = state.conflicts()?;
    put_offers(&mut shown, conflicts.as_slice())?;
    shown.push(b' ')?;
    let units = state.units_and_takes(limit)?;
    put_offers(&mut shown, units.as_slice())?;
    shown.push(b' ')?;
    let turns = state.turns()?;
    put_offers(&mut shown, turns.as_slice())?;
    Ok(shown)
}

// Literals put on by clauses, the readers that read all, how many offers are wanted, and what is offered then.
const CASES: [(&[u8], &[u8], usize, &[u8]); 7] = [
    (b"", b"", 64, b" U0 "),
    (b"0-", b"", 64, b" U1TcTrTsTi "),
    (b"0-", b"", 1, b" U1 "),
    (b"0-1-", b"cs", 64, b" TrTi "),
    (b"0-1-", b"crsi", 64, b"  "),
    // the bound is false at level 0
    (b"0-1-2-", b"crsi", 64, b"  tu"),
    // the first clause is false at level 0
    (b"0+", b"", 64, b"Au TcTrTsTi "),
];

fn read_all(state: &mut State, reader: Reader) {
    for _entry in 0..state.trail().len() {
        let _ = state.read_next(reader);
    }
}

fn read_by(state: &mut State, letters: &[u8]) {
    for letter in letters {
        match *letter {
            b'c' => read_all(state, Reader::Congruence),
            b'r' => read_all(state, Reader::Regions),
            b's' => read_all(state, Reader::Sum),
            _ => read_all(state, Reader::Instances),
        }
    }
}

fn put_all(state: &mut State, lits: &[u8]) -> Result<(), Memory> {
    for item in lits.chunks(2) {
        if let [atom, sign] = item {
            put(state, lit(*atom, *sign), 0)?;
        }
    }
    Ok(())
}

#[test]
fn offers_what_the_state_asks_for(rt: HostRuntime) -> Result<(), Fail> {
    for row in 0..CASES.len() {
        let (lits, readers, limit, wanted) = CASES[row];
        let mut state = begun(&rt, rt.alloc())?;
        put_all(&mut state, lits)?;
        read_by(&mut state, readers);
        let shown = offered(rt.alloc(), &state, limit)?;
        assert_eq!(rt; shown.as_slice(), wanted);
    }
    Ok(())
}
