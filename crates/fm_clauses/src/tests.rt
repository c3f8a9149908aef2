use crate::built::built;
use crate::shown::add_table;
use crate::{Problem, clauses_of};
use fm_base::{Memory, Rank, Sig, SortId, Ty};
use sqlite_items::Items;
use std::alloc::Global;
use std::test::Fail;

// Bool for the letter `B`, else the sort of a digit, where the last sort stands for greater ones.
fn type_of(letter: u8, sorts: usize) -> Ty {
    if letter == b'B' {
        return Ty::Bool;
    }
    let sort = letter.wrapping_sub(b'0') as usize;
    Ty::Of(SortId(sort.min(sorts.saturating_sub(1))))
}

fn types(alloc: Global, count: usize, letter: u8, sorts: usize) -> Result<Items<Ty>, Memory> {
    let mut list = Vec::new(alloc);
    for _ in 0..count {
        list.push(type_of(letter, sorts))?;
    }
    Ok(Items::from_vec(list))
}

fn push_rank(ranks: &mut Vec<Rank>, args: Items<Ty>, result_type: Ty) -> Result<(), Memory> {
    ranks.push(Rank {
        args,
        result: result_type,
    })?;
    Ok(())
}

// The symbols p, q, s, h, c, r, g, b, a and f: how many arguments, their sort and the result.
pub(crate) fn signature(alloc: Global, sorts: usize) -> Result<Sig, Memory> {
    let rows: [(usize, u8, u8); 10] = [
        (1, b'0', b'B'),
        (1, b'0', b'B'),
        (1, b'1', b'B'),
        (1, b'1', b'0'),
        (0, b'0', b'1'),
        (0, b'0', b'B'),
        (2, b'0', b'0'),
        (0, b'0', b'0'),
        (0, b'0', b'0'),
        (1, b'0', b'0'),
    ];
    let mut ranks = Vec::new(alloc);
    for (count, arg, letter) in rows {
        let args = types(alloc, count, arg, sorts)?;
        push_rank(&mut ranks, args, type_of(letter, sorts))?;
    }
    Ok(Sig {
        sorts,
        ranks: Items::from_vec(ranks),
    })
}

fn table_text(alloc: Global, sorts: usize, assertions: &[&[u8]]) -> Result<Vec<u8>, Memory> {
    let mut formulas = Vec::new(alloc);
    for letters in assertions {
        formulas.push(built(alloc, letters)?)?;
    }
    let sig = signature(alloc, sorts)?;
    let problem = Problem {
        sig: &sig,
        assertions: formulas.as_slice(),
    };
    let set = clauses_of(alloc, &problem)?;
    let mut text = Vec::new(alloc);
    add_table(&mut text, &set)?;
    Ok(text)
}

fn mistaken(alloc: Global) -> Result<Option<usize>, Memory> {
    let rows: [(&[&[u8]], &[u8]); 11] = [
        (
            &[b"0f0pabi=A", b"ap", b"bp!"],
            b"1+=s90;s00;.1-00;+=s00;s8;.1+00;+=s00;s7;.0+0s8;;.0-0s7;;.#10",
        ),
        (&[b"01=!EA"], b"1-=0s00;.#1000"),
        (
            &[b"ab=!aaf=!&r|"],
            b"0+0;+5;.0-0;-=s8;s7;.0-0;-=s8;s9s8;;.#0B",
        ),
        (&[b"tap|"], b"#00"),
        (&[b"1qAA"], b"1+10;.#00"),
        (&[b"ap", b"bp"], b"0+0s8;;.0+0s7;;.#"),
        (&[b"apr|aqr|r||"], b"0+0s8;;+5;+1s8;;+5;+5;.#"),
        (
            &[b"0p1q&0q1p&|AA"],
            b"2+001;+101;.2-001;+00;.2-001;+11;.2-101;+10;.2-101;+01;.#2B2B00",
        ),
        (&[b"apwr|"], b"0+0s8;;+5;.#"),
        (&[b"rap&v"], b"0+0;.0-0;+5;.0-0;+0s8;;.#0B"),
        (&[b"0paq&r|A"], b"1+00;+5;.1-00;+00;.1-00;+1s8;;.#1B"),
    ];
    let mut at = 0usize;
    for (assertions, wanted) in &rows {
        let text = table_text(alloc, 1, assertions)?;
        if text.as_slice() != *wanted {
            return Ok(Some(at));
        }
        at = at.saturating_add(1);
    }
    Ok(None)
}

#[test]
fn makes_clause_tables(rt: HostRuntime) -> Result<(), Fail> {
    let wrong = mistaken(rt.alloc())?;
    assert!(rt; wrong.is_none(), "row {wrong:?}");
    Ok(())
}

// Two sorts: a term `ite` under quantifiers of both, a proxy of a block, and constants for either sort.
fn mistaken_of_two(alloc: Global) -> Result<Option<usize>, Memory> {
    let rows: [(&[&[u8]], &[u8]); 4] = [
        (
            &[b"1s1s1h0ip&FA"],
            b"1+2s10;;.1+0s00s10;;;.2-21;+=s001;s31;.2+21;+=s001;0.#20110001",
        ),
        (&[b"0sBap|"], b"0+0;+0s8;;.1-0;+20;.#0B01"),
        (&[b"cc=!"], b"0-=s4;s4;.#00"),
        (&[b"apccis"], b"0+2s0;;.0-0s8;;+=s0;s4;.0+0s8;;+=s0;s4;.#01"),
    ];
    let mut at = 0usize;
    for (assertions, wanted) in &rows {
        let text = table_text(alloc, 2, assertions)?;
        if text.as_slice() != *wanted {
            return Ok(Some(at));
        }
        at = at.saturating_add(1);
    }
    Ok(None)
}

#[test]
fn makes_clause_tables_of_two_sorts(rt: HostRuntime) -> Result<(), Fail> {
    let wrong = mistaken_of_two(rt.alloc())?;
    assert!(rt; wrong.is_none(), "row {wrong:?}");
    Ok(())
}
