use crate::{Failed, Files, MemFiles, ReadError, RealFiles, read_all, write_all_of};
use fm_base::Memory;
use std::alloc::Global;
use std::test::Fail;

/// The files "a" with the bytes of `abc`, "a" again with other bytes, and "e" with none; "o" may be written,
/// twice listed, and so may "a".
fn made(
    alloc: Global,
    room: usize,
    fail_reads: &[u64],
    fail_writes: &[u64],
) -> Result<MemFiles, Memory> {
    let mut files = Vec::new(alloc);
    for (name, bytes) in [("a", "abc"), ("a", "xyz"), ("e", "")] {
        files.push((
            String::from_str(alloc, name)?,
            Vec::from_slice(alloc, bytes.as_bytes())?,
        ))?;
    }
    let mut outs = Vec::new(alloc);
    for name in ["o", "o", "a"] {
        outs.push(String::from_str(alloc, name)?)?;
    }
    MemFiles::new(
        alloc,
        files,
        outs,
        room,
        Vec::from_slice(alloc, fail_reads)?,
        Vec::from_slice(alloc, fail_writes)?,
    )
}

#[test]
fn reads_on_and_fails_where_listed(rt: HostRuntime) -> Result<(), Fail> {
    let mut files = made(rt.alloc(), 4, &[2, 5], &[])?;
    let mut into = [0u8; 2];
    assert_eq!(rt; files.read_next("a", &mut into), Ok(2));
    assert_eq!(rt; into, *b"ab");
    assert_eq!(rt; files.read_next("a", &mut into), Err(Failed));
    assert_eq!(rt; into, *b"ab");
    assert_eq!(rt; files.read_next("a", &mut into), Ok(1));
    assert_eq!(rt; into, *b"cb");
    assert_eq!(rt; files.read_next("o", &mut into), Err(Failed));
    assert_eq!(rt; files.read_next("e", &mut into), Err(Failed));
    assert_eq!(rt; files.read_next("e", &mut into), Ok(0));
    assert_eq!(rt; files.read_next("n", &mut into), Err(Failed));
    for (name, faults) in [("a", 1), ("o", 1), ("e", 1), ("n", 1), ("m", 1)] {
        assert_eq!(rt; files.read_faults(name), faults, "at {name}");
        assert_eq!(rt; files.write_faults(name), 0, "at {name}");
    }
    Ok(())
}

#[test]
fn writes_within_the_room(rt: HostRuntime) -> Result<(), Fail> {
    let mut files = made(rt.alloc(), 4, &[], &[3, 7])?;
    let calls = [
        ("o", "ab", Ok(2), "ab"),
        ("o", "cde", Err(Failed), "ab"),
        ("o", "c", Err(Failed), "ab"),
        ("o", "", Ok(0), "ab"),
        ("o", "cd", Ok(2), "abcd"),
        ("o", "e", Err(Failed), "abcd"),
        ("a", "z", Err(Failed), ""),
        ("a", "zy", Ok(2), "zy"),
        ("n", "z", Err(Failed), ""),
        ("e", "", Err(Failed), ""),
    ];
    for (name, piece, answer, written) in calls {
        assert_eq!(rt;
            files.append(name, piece.as_bytes()),
            answer,
            "{name} {piece}"
        );
        assert_eq!(rt; files.written(name), written.as_bytes(), "{name} {piece}");
    }
    assert_eq!(rt; files.begin("o"), Ok(()));
    assert_eq!(rt; files.written("o"), b"".as_slice());
    assert_eq!(rt; files.append("o", b"wxyz"), Ok(4));
    assert_eq!(rt; files.written("o"), b"wxyz".as_slice());
    for (name, faults) in [("o", 3), ("a", 1), ("e", 1), ("n", 1), ("m", 1)] {
        assert_eq!(rt; files.write_faults(name), faults, "at {name}");
        assert_eq!(rt; files.read_faults(name), 0, "at {name}");
    }
    Ok(())
}

#[test]
fn reads_whole_files(rt: HostRuntime) -> Result<(), Fail> {
    let wanted = [
        ("e", 0, Some("")),
        ("a", 0, None),
        ("a", 2, None),
        ("a", 3, Some("abc")),
        ("a", 4, Some("abc")),
    ];
    for (name, limit, text) in wanted {
        let mut files = made(rt.alloc(), 0, &[], &[])?;
        match read_all(rt.alloc(), &mut files, name, limit) {
            Ok(bytes) => assert_eq!(rt;
                Some(bytes.as_slice()),
                text.map(|t| t.as_bytes()),
                "{name} {limit}"
            ),
            Err(error) => {
                assert_eq!(rt; error, ReadError::TooLong);
                assert_eq!(rt; text, None, "{name} {limit}");
            }
        }
    }
    let mut files = made(rt.alloc(), 0, &[2], &[])?;
    assert_eq!(rt;
        read_all(rt.alloc(), &mut files, "a", 9).err(),
        Some(ReadError::Fault)
    );
    assert_eq!(rt; files.read_faults("a"), 1);
    Ok(())
}

#[test]
fn writes_whole_texts(rt: HostRuntime) -> Result<(), Fail> {
    let mut files = made(rt.alloc(), 5, &[], &[2])?;
    assert_eq!(rt; write_all_of(&mut files, "o", b"abc"), Ok(()));
    assert_eq!(rt; write_all_of(&mut files, "o", b"de"), Err(Failed));
    assert_eq!(rt; write_all_of(&mut files, "o", b"de"), Ok(()));
    assert_eq!(rt; write_all_of(&mut files, "o", b""), Ok(()));
    assert_eq!(rt; write_all_of(&mut files, "o", b"f"), Err(Failed));
    assert_eq!(rt; files.written("o"), b"abcde".as_slice());
    assert_eq!(rt; files.write_faults("o"), 2);
    Ok(())
}

#[test]
fn real_files_are_written_and_read_back(rt: HostRuntime) -> Result<(), Fail> {
    let mut files = RealFiles::new(&rt);
    let mut into = [0u8; 2];
    assert_eq!(rt; files.read_next("real_files_test", &mut into), Err(Failed));
    assert_eq!(rt; files.begin("real_files_test"), Ok(()));
    assert_eq!(rt;
        write_all_of(&mut files, "real_files_test", b"first"),
        Ok(())
    );
    assert_eq!(rt; files.begin("real_files_test"), Ok(()));
    assert_eq!(rt; write_all_of(&mut files, "real_files_test", b"one"), Ok(()));
    assert_eq!(rt;
        write_all_of(&mut files, "real_files_test", b" two"),
        Ok(())
    );
    assert_eq!(rt; files.read_next("real_files_test", &mut into), Ok(2));
    assert_eq!(rt; into, *b"on");
    assert_eq!(rt;
        read_all(rt.alloc(), &mut files, "real_files_test", 5)?.as_slice(),
        b"e two".as_slice()
    );
    std::fs::remove_file(&rt, "real_files_test")?;
    Ok(())
}
