use crate::block::{Block, Claim};
use crate::blocks::{Blocks, first_outside, read};
use crate::fail::CertFail;
use crate::text::{header_line, print};
use sqlite_items::Items;
use std::alloc::{AllocError, Global};
use std::test::Fail;

// Certificates with all lines and endings.
fn good_text(row: usize) -> &'static [u8] {
    match row {
        0 => b"fmfcert 1\n".as_slice(),
        1 => b"fmfcert 1\nb 0\ns 0 0\no z 0\nr 0 +C0,0 1\nq sat 1\nz 1\nd 0\n".as_slice(),
        2 =>
            b"fmfcert 1\nb 0\nt 0\nt 1\nt 2\ni 0\ni 1\ni 2\nc 0 2 0 1 2\ns 2 2\nr 3 +E0,1 0 +E0,2 1 +E1,2 2 -C0,2 4\nq sat 3\nz 3\nd 0\nd 1\nd 2\n".as_slice(),
        3 => b"fmfcert 1\nb 0\nt 0\ni 0\ne +E0,0 /\nr 0 -E0,0 1\nq unsat\n".as_slice(),
        4 =>
            b"fmfcert 1\nb 0\nt 1\nt 0 0\ni 0 0\nc 0 1 0 1\ns 1 1\nr 1 +E0,1 0 -C0,1 2\nq sat 2\nz 2\nd 0\nx 0 1\n".as_slice(),
        5 => b"fmfcert 1\nb 0\nq unknown 50 1000000\n".as_slice(),
        6 =>
            b"fmfcert 1\nb 0\nq sat 0\nz\nd 1\nb 1\nt 0\ni 0\ni 1\nr 0 +P0 1\nq unsat\n".as_slice(),
        7 =>
            b"fmfcert 1\nb 0\ne -P7 +E4,10 -E0,0 / 3 3 12\ne /\no c 0 18446744073709551614\no b 12\nr 0 +C0,0 1 -B12 3 +E4,10 5 -P7 6\nq sat 3\nz 1 2\nd 0\nx 0 1 1\nx 1 0 1\nd 1\nx 5\n".as_slice(),
        _ =>
            b"fmfcert 1\nb 18446744073709551615\nq unsat\nb 0\nq sat 18446744073709551615\nz\nb 1\nq unsat\n".as_slice(),
    }
}

// Texts outside the grammar, each with its first line that is.
fn bad_text(row: usize) -> (&'static [u8], u64) {
    match row {
        0 => (b"".as_slice(), 1),
        1 => (b"fmfcert 1".as_slice(), 1),
        2 => (b"fmfcert 2\n".as_slice(), 1),
        3 => (b"b 0\nq unsat\n".as_slice(), 1),
        4 => (b"fmfcert 1\r\nb 0\nq unsat\n".as_slice(), 1),
        5 => (b"fmfcert 1\nb 0\nt 0\n".as_slice(), 4),
        6 => (b"fmfcert 1\nb 0\nq unsat".as_slice(), 3),
        7 => (b"fmfcert 1\nb 0\nq sat 1\nz 1\nx 0 1\n".as_slice(), 5),
        8 => (b"fmfcert 1\nb 0\nq sat 1\nd 0\n".as_slice(), 4),
        9 => (b"fmfcert 1\nb 0\nq sat 1\n".as_slice(), 4),
        10 => (b"fmfcert 1\nb 0\nr 0 +E2,1 0\nq unsat\n".as_slice(), 3),
        11 => (
            b"fmfcert 1\nb 18446744073709551616\nq unsat\n".as_slice(),
            2,
        ),
        12 => (b"fmfcert 1\nb 0\nt  0\nq unsat\n".as_slice(), 3),
        13 => (b"fmfcert 1\nb 0\nt 00\nq unsat\n".as_slice(), 3),
        14 => (b"fmfcert 1\nb 0\nt 0 \nq unsat\n".as_slice(), 3),
        15 => (b"fmfcert 1\nb 0\nt 0\r\nq unsat\n".as_slice(), 3),
        16 => (b"fmfcert 1\nb 0\nr 0\nq unsat\n".as_slice(), 3),
        17 => (b"fmfcert 1\nb 0\nr 0 +P0\nq unsat\n".as_slice(), 3),
        18 => (b"fmfcert 1\nb 0\ne +P0\nq unsat\n".as_slice(), 3),
        19 => (b"fmfcert 1\nb 0\no d 0\nq unsat\n".as_slice(), 3),
        20 => (b"fmfcert 1\nt 0\n".as_slice(), 2),
        21 => (b"fmfcert 1\nb 0\nb 1\n".as_slice(), 3),
        22 => (b"fmfcert 1\nb 0\nq unsat\nq unsat\n".as_slice(), 4),
        23 => (b"fmfcert 1\nb 0\nq unsat\n\n".as_slice(), 4),
        24 => (b"fmfcert 1\nb 0\nq sat 1\nz 1\nd 0\nx\n".as_slice(), 6),
        25 => (b"fmfcert 1\nb 0\nq sat 1\nz 1\nd 00\n".as_slice(), 5),
        26 => (
            b"fmfcert 1\nb 0\nq sat 1\nz 1\nd 0\nq unsat\n".as_slice(),
            6,
        ),
        27 => (b"fmfcert 1\nb 0\nq sat 1\nz 1\nd 0\nd 1".as_slice(), 6),
        28 => (
            b"fmfcert 1\nb 0\nq unsat\nb 1\nq sat 0\nz\nz\n".as_slice(),
            7,
        ),
        _ => (b"fmfcert 1\nb 0\nq sat -1\nz 1\n".as_slice(), 3),
    }
}

// Worked certificates with one change that leaves them in the grammar: a checker rejects them by another rule.
fn changed_text(row: usize) -> &'static [u8] {
    match row {
        0 => b"fmfcert 1\nb 1\nt 0\nq sat 3\nz 3\nd 0\n".as_slice(),
        1 => b"fmfcert 1\nb 0\ni 3\ns 2 1\nr 3 +E0,1 1\nq sat 3\nz 0\nd 0\nd 2\nx 0 0\n".as_slice(),
        _ => b"fmfcert 1\nb 0\nq sat 3\nz 3\nd 0\nd 1\nd 2\nb 1\nq unknown 0 0\n".as_slice(),
    }
}

// The first line outside, or 0, by both readers alike.
fn line_of(alloc: Global, text: &[u8]) -> Result<u64, AllocError> {
    let line = match read(alloc, text) {
        Ok(_blocks) => 0,
        Err(CertFail::Text(at)) => at.line,
        Err(CertFail::Memory) => 98,
    };
    let first = match first_outside(alloc, text)? {
        Some(line) => line,
        None => 0,
    };
    if line == first { Ok(line) } else { Ok(99) }
}

// The text of the blocks that are read, under the header.
fn printed(alloc: Global, text: &[u8]) -> Result<Vec<u8>, CertFail> {
    let mut out = Vec::new(alloc);
    out.extend_from_slice(header_line())?;
    let Some(mut reader) = Blocks::of(text) else {
        return Ok(out);
    };
    print_all(alloc, &mut reader, &mut out)?;
    Ok(out)
}

fn print_all(alloc: Global, reader: &mut Blocks, out: &mut Vec<u8>) -> Result<(), CertFail> {
    while let Some(block) = reader.next(alloc)? {
        let one = print(alloc, &block)?;
        out.extend_from_slice(one.as_slice())?;
    }
    Ok(())
}

fn is_printed_back(alloc: Global, text: &[u8]) -> bool {
    match printed(alloc, text) {
        Ok(out) => out.as_slice() == text,
        Err(_fail) => false,
    }
}

#[test]
fn prints_what_it_reads(rt: HostRuntime) -> Result<(), Fail> {
    let mut unlike = 9;
    for row in 0..9 {
        if !is_printed_back(rt.alloc(), good_text(row)) {
            unlike = row;
        }
    }
    assert_eq!(rt; unlike, 9);
    Ok(())
}

fn first_unlike(alloc: Global) -> Result<usize, AllocError> {
    for row in 0..30 {
        let (text, line) = bad_text(row);
        let found = line_of(alloc, text)?;
        if found != line {
            return Ok(row);
        }
    }
    Ok(30)
}

#[test]
fn finds_the_first_line_outside(rt: HostRuntime) -> Result<(), Fail> {
    let unlike = first_unlike(rt.alloc())?;
    assert_eq!(rt; unlike, 30);
    Ok(())
}

fn first_outside_of_changed(alloc: Global) -> Result<usize, AllocError> {
    for row in 0..3 {
        let found = line_of(alloc, changed_text(row))?;
        if found != 0 {
            return Ok(row);
        }
    }
    Ok(3)
}

#[test]
fn reads_what_other_rules_reject(rt: HostRuntime) -> Result<(), Fail> {
    let outside = first_outside_of_changed(rt.alloc())?;
    assert_eq!(rt; outside, 3);
    Ok(())
}

// The numbers of the lines at which the blocks begin, and of the one behind the last line.
fn starts(alloc: Global, text: &[u8]) -> Result<Vec<u64>, CertFail> {
    let mut lines = Vec::new(alloc);
    let Some(mut reader) = Blocks::of(text) else {
        return Ok(lines);
    };
    push_starts(alloc, &mut reader, &mut lines)?;
    Ok(lines)
}

fn push_starts(alloc: Global, reader: &mut Blocks, lines: &mut Vec<u64>) -> Result<(), CertFail> {
    lines.extend_from_slice(&[reader.line()])?;
    while let Some(_block) = reader.next(alloc)? {
        lines.extend_from_slice(&[reader.line()])?;
    }
    Ok(())
}

#[test]
fn tells_where_blocks_begin(rt: HostRuntime) -> Result<(), Fail> {
    match starts(rt.alloc(), good_text(8)) {
        Ok(lines) => assert_eq!(rt; lines.as_slice(), [2, 4, 7, 9].as_slice()),
        Err(_fail) => assert!(rt; false),
    }
    Ok(())
}

#[test]
fn prints_endings(rt: HostRuntime) -> Result<(), Fail> {
    let unsat = Block {
        number: 18_446_744_073_709_551_615,
        lines: Items::new(rt.alloc()),
        claim: Claim::Unsat,
    };
    let text = print(rt.alloc(), &unsat)?;
    assert_eq!(rt;
        text.as_slice(),
        b"b 18446744073709551615\nq unsat\n".as_slice()
    );
    let unknown = Block {
        number: 1,
        lines: Items::new(rt.alloc()),
        claim: Claim::Unknown {
            instances: 50,
            decisions: 7,
        },
    };
    let text = print(rt.alloc(), &unknown)?;
    assert_eq!(rt; text.as_slice(), b"b 1\nq unknown 50 7\n".as_slice());
    Ok(())
}
