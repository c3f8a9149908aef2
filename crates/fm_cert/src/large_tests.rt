// A certificate of a hundred megabytes, in blocks of about one: read in one pass that keeps nothing, and then block by
// block, each printed again. A benchmark too: `./bench cert` at the top.
use crate::blocks::{Blocks, first_outside};
use crate::fail::CertFail;
use crate::text::{header_line, print};
use std::alloc::{AllocError, Global};
use std::test::Fail;

const BLOCKS: usize = 100;

const ROUNDS: usize = 5000;

// Lines of each kind, some two hundred bytes.
fn lines() -> &'static [u8] {
    b"t 0\nt 1 0\nt 12 345 6789\ni 17 0 1 2\ne -E3,4 -E4,5 +E3,5 / 3 4 5 6\nc 0 2 10 20 30\ns 7 2 3 1\no c 0 3\no b 8\no z 0\nr 3 +E0,1 0 +E0,2 1 +E1,2 2 -C0,2 4\nr 1234 -P77 56 +E100,200 78 -B12 90 +C1,4 100\n".as_slice()
}

fn push_block(text: &mut Vec<u8>) -> Result<(), AllocError> {
    text.extend_from_slice(b"b 0\n")?;
    for _round in 0..ROUNDS {
        text.extend_from_slice(lines())?;
    }
    text.extend_from_slice(b"q sat 3\nz 3\nd 0\nx 0 1\nx 1 2\nd 2\n")
}

fn large_text(alloc: Global) -> Result<Vec<u8>, AllocError> {
    let mut text = Vec::new(alloc);
    text.extend_from_slice(header_line())?;
    for _block in 0..BLOCKS {
        push_block(&mut text)?;
    }
    Ok(text)
}

// How many bytes the blocks have that are read and printed.
fn printed_bytes(alloc: Global, text: &[u8]) -> Result<usize, CertFail> {
    let Some(mut reader) = Blocks::of(text) else {
        return Ok(0);
    };
    count_printed(alloc, &mut reader)
}

fn count_printed(alloc: Global, reader: &mut Blocks) -> Result<usize, CertFail> {
    let mut bytes = header_line().len();
    while let Some(block) = reader.next(alloc)? {
        let one = print(alloc, &block)?;
        bytes = bytes.saturating_add(one.len());
    }
    Ok(bytes)
}

fn is_printed_whole(alloc: Global, text: &[u8]) -> bool {
    match printed_bytes(alloc, text) {
        Ok(bytes) => bytes == text.len(),
        Err(_fail) => false,
    }
}

#[test]
fn reads_a_hundred_megabytes(rt: HostRuntime) -> Result<(), Fail> {
    let text = large_text(rt.alloc())?;
    let outside = first_outside(rt.alloc(), text.as_slice())?;
    assert_eq!(rt; outside.is_none(), true);
    let is_whole = is_printed_whole(rt.alloc(), text.as_slice());
    assert_eq!(rt; is_whole, true);
    Ok(())
}
