use crate::command::run;
use crate::status::Status;
use fm_files::MemFiles;
use std::alloc::{AllocError, Global};
use std::process::Abort;
use std::test::Fail;

fn words_of(alloc: Global, words: &[&str]) -> Result<Vec<String>, AllocError> {
    let mut list = Vec::new(alloc);
    for word in words {
        list.push(String::from_str(alloc, *word)?)?;
    }
    Ok(list)
}

// The script `s`, room for the output and for the certificate, and numbers of calls that fail.
fn files_with(
    alloc: Global,
    script: Vec<u8>,
    fail_reads: &[u64],
    fail_writes: &[u64],
) -> Result<MemFiles, Fail> {
    let mut files = Vec::new(alloc);
    files.push((String::from_str(alloc, "s")?, script))?;
    let outs = words_of(alloc, &["-", "fmf.cert"])?;
    let fail_reads = Vec::from_slice(alloc, fail_reads)?;
    let fail_writes = Vec::from_slice(alloc, fail_writes)?;
    Ok(MemFiles::new(alloc, files, outs, 4096, fail_reads, fail_writes)?)
}

fn solve_in(alloc: Global, files: &mut MemFiles) -> Result<Status, Fail> {
    let words = words_of(alloc, &["solve", "s"])?;
    Ok(run(alloc, words.as_slice(), files))
}

const HEADER: &[u8] = b"fmfcert 1\n";

const EQUATION: &[u8] =
    b"(declare-sort U 0)(declare-const a U)(declare-const b U)(assert (= a b))(check-sat)";

const TWO_SORTS: &[u8] = b"(declare-sort U 0)\n(declare-sort V 0)\n(check-sat)\n";

const TWICE: &[u8] = b"(check-sat)(declare-sort U 0)(check-sat)";

const TWICE_CERT: &[u8] =
    b"fmfcert 1\nb 0\nq sat 0\nz\nb 1\ns 0 0\no z 0\nr 0 +C0,0 1\nq sat 1\nz 1\n";

#[test]
fn answers_scripts(rt: HostRuntime) -> Result<(), Fail> {
    let rows = [
        (
            b"".as_slice(),
            Status::Done,
            b"".as_slice(),
            b"fmfcert 1\n".as_slice(),
        ),
        (
            EQUATION,
            Status::Done,
            b"sat\n".as_slice(),
            b"fmfcert 1\nb 0\ns 0 0\no z 0\nr 0 +C0,0 1\nq sat 1\nz 1\nd 0\nd 0\n".as_slice(),
        ),
        (
            TWO_SORTS,
            Status::Done,
            b"sat\n".as_slice(),
            b"fmfcert 1\nb 0\ns 1 0 0\no z 0\no z 1\nr 0 +C0,0 1 +C1,0 2\nq sat 2\nz 1 1\n".as_slice(),
        ),
        (TWICE, Status::Done, b"sat\nsat\n".as_slice(), TWICE_CERT),
        (
            b"(declare-fun p () Bool)(assert p)(check-sat)".as_slice(),
            Status::Script,
            b"(error \"20 at 1:34: not yet\")\n".as_slice(),
            HEADER,
        ),
        (
            b"(declare-sort A 0)(push 1)(declare-sort B 0)(check-sat)(pop 1)(check-sat)".as_slice(),
            Status::Done,
            b"sat\nsat\n".as_slice(),
            b"fmfcert 1\nb 0\ns 1 0 0\no z 0\no z 1\nr 0 +C0,0 1 +C1,0 2\nq sat 2\nz 1 1\nb 1\ns 0 0\no z 0\nr 0 +C0,0 1\nq sat 1\nz 1\n".as_slice(),
        ),
        (
            b"(declare-sort U 0)(declare-fun f (U U) U)(declare-fun p (U) Bool)(declare-const a U)(assert (= a a))(check-sat)".as_slice(),
            Status::Done,
            b"sat\n".as_slice(),
            b"fmfcert 1\nb 0\ns 0 0\no z 0\nr 0 +C0,0 1\nq sat 1\nz 1\nd 0\nd 0\nd 0\n".as_slice(),
        ),
        (
            b"(echo \"a\")(check-sat)(get-model)".as_slice(),
            Status::Script,
            b"\"a\"\nsat\n(error \"20 at 1:22: not yet\")\n".as_slice(),
            b"fmfcert 1\nb 0\nq sat 0\nz\n".as_slice(),
        ),
        (
            b"(declare-sort U 0)\n(assert (and".as_slice(),
            Status::Script,
            b"(error \"4 at 2:13: unexpected end\")\n".as_slice(),
            b"".as_slice(),
        ),
        (
            b"(assert false)(check-sat)".as_slice(),
            Status::Done,
            b"unsat\n".as_slice(),
            b"fmfcert 1\nb 0\ni 0\nq unsat\n".as_slice(),
        ),
        (
            b"(assert true)(check-sat)".as_slice(),
            Status::Done,
            b"sat\n".as_slice(),
            b"fmfcert 1\nb 0\nq sat 0\nz\n".as_slice(),
        ),
        (
            b"(declare-sort |a sort| 0)(declare-const c |a sort|)(assert (= c |c|))(check-sat)(assert false)(assert false)(check-sat)(exit)(pop)".as_slice(),
            Status::Done,
            b"sat\nunsat\n".as_slice(),
            b"fmfcert 1\nb 0\ns 0 0\no z 0\nr 0 +C0,0 1\nq sat 1\nz 1\nd 0\nb 1\ni 1\nq unsat\n".as_slice(),
        ),
    ];
    for (text, status, reply, cert) in rows {
        let script = Vec::from_slice(rt.alloc(), text)?;
        let mut files = files_with(rt.alloc(), script, &[], &[])?;
        let answer = solve_in(rt.alloc(), &mut files)?;
        assert_eq!(rt; answer, status);
        assert_eq!(rt; files.written("-"), reply);
        assert_eq!(rt; files.written("fmf.cert"), cert);
        if status == Status::Done {
            let (verdict, _) = checked(rt.alloc(), text, cert)?;
            assert_eq!(rt; verdict, Status::Done);
        }
    }
    Ok(())
}

#[test]
fn refuses_long_scripts(rt: HostRuntime) -> Result<(), Fail> {
    let rows = [
        (16_777_216, Status::Done, b"".as_slice()),
        (
            16_777_217,
            Status::Script,
            b"(error \"19 at 1:1: script too long\")\n".as_slice(),
        ),
    ];
    for (length, status, reply) in rows {
        let mut script = vec![in rt.alloc(); b'x'; length]?;
        if let Some(first) = script.first_mut() {
            *first = b';';
        }
        let mut files = files_with(rt.alloc(), script, &[], &[])?;
        let answer = solve_in(rt.alloc(), &mut files)?;
        assert_eq!(rt; answer, status);
        assert_eq!(rt; files.written("-"), reply);
    }
    Ok(())
}

#[test]
fn reads_words(rt: HostRuntime) -> Result<(), Fail> {
    let rows: [(&[&str], Status); 13] = [
        (&["check", "s", "s"], Status::Usage),
        (&["check", "s", "-c"], Status::Usage),
        (&["check", "s", "c", "d"], Status::Usage),
        (&["check", "missing", "s"], Status::ReadFault),
        (&["check", "s", "missing"], Status::ReadFault),
        (&[], Status::Usage),
        (&["solve"], Status::Usage),
        (&["solve", "s", "t"], Status::Usage),
        (&["check", "s"], Status::Usage),
        (&["solve", ""], Status::Usage),
        (&["solve", "fmf.cert"], Status::Usage),
        (&["solve", "-s"], Status::Usage),
        (&["solve", "missing"], Status::ReadFault),
    ];
    for (words, status) in rows {
        let script = Vec::from_slice(rt.alloc(), EQUATION)?;
        let mut files = files_with(rt.alloc(), script, &[], &[])?;
        let words = words_of(rt.alloc(), words)?;
        let answer = run(rt.alloc(), words.as_slice(), &mut files);
        assert_eq!(rt; answer, status);
        assert_eq!(rt; files.written("-"), b"".as_slice());
        assert_eq!(rt; files.written("fmf.cert"), b"".as_slice());
    }
    Ok(())
}

#[test]
fn reports_faults(rt: HostRuntime) -> Result<(), Fail> {
    let script = Vec::from_slice(rt.alloc(), EQUATION)?;
    let mut files = files_with(rt.alloc(), script, &[2], &[])?;
    let answer = solve_in(rt.alloc(), &mut files)?;
    assert_eq!(rt; answer, Status::ReadFault);
    assert_eq!(rt; files.read_faults("s"), 1);
    assert_eq!(rt; files.written("fmf.cert"), b"".as_slice());

    // The calls are begin, header, block, reply, block, reply.
    for (call, replies, blocks) in [
        (1, 0, 0),
        (2, 0, 0),
        (3, 0, 10),
        (4, 0, 24),
        (5, 4, 24),
        (6, 4, 64),
    ] {
        let script = Vec::from_slice(rt.alloc(), TWICE)?;
        let mut files = files_with(rt.alloc(), script, &[], &[call])?;
        let answer = solve_in(rt.alloc(), &mut files)?;
        assert_eq!(rt; answer, Status::WriteFault, "at call {call}");
        assert_eq!(rt; files.written("-").len(), replies, "at call {call}");
        assert_eq!(rt; files.written("fmf.cert").len(), blocks, "at call {call}");
        assert!(rt;
            TWICE_CERT.starts_with(files.written("fmf.cert")),
            "at call {call}"
        );
    }
    Ok(())
}

#[test]
fn refuses_texts_and_commands(rt: HostRuntime) -> Result<(), Fail> {
    let rows = [
        (
            b"{".as_slice(),
            b"(error \"1 at 1:1: bad token\")\n".as_slice(),
        ),
        (
            b"))".as_slice(),
            b"(error \"2 at 1:1: unbalanced parenthesis\")\n".as_slice(),
        ),
        (
            b"(foo)".as_slice(),
            b"(error \"5 at 1:1: unknown command\")\n".as_slice(),
        ),
        (
            b"(push 18446744073709551616)".as_slice(),
            b"(error \"7 at 1:7: number too wide\")\n".as_slice(),
        ),
        (
            b"(|assert| q)".as_slice(),
            b"(error \"6 at 1:1: bad shape\")\n".as_slice(),
        ),
        (
            b"(declare-sort U 0)(declare-sort U 0)".as_slice(),
            b"(error \"11 at 1:33: name already taken\")\n".as_slice(),
        ),
    ];
    for (script, reply) in rows {
        let script = Vec::from_slice(rt.alloc(), script)?;
        let mut files = files_with(rt.alloc(), script, &[], &[])?;
        let answer = solve_in(rt.alloc(), &mut files)?;
        assert_eq!(rt; answer, Status::Script);
        assert_eq!(rt; files.written("-"), reply);
    }
    Ok(())
}

#[test]
fn reads_deep_scripts(rt: HostRuntime) -> Result<(), Fail> {
    let rows = [
        (200, b"(error \"6 at 1:1: bad shape\")\n".as_slice()),
        (
            201,
            b"(error \"3 at 1:201: nested too deeply\")\n".as_slice(),
        ),
    ];
    for (depth, reply) in rows {
        let mut script = vec![in rt.alloc(); b'('; depth]?;
        let closing = vec![in rt.alloc(); b')'; depth]?;
        script.extend_from_slice(closing.as_slice())?;
        let mut files = files_with(rt.alloc(), script, &[], &[])?;
        let answer = solve_in(rt.alloc(), &mut files)?;
        assert_eq!(rt; answer, Status::Script);
        assert_eq!(rt; files.written("-"), reply);
    }
    Ok(())
}

const COMMANDS: [(&[u8], Status, &[u8]); 14] = [
    (b"(set-logic UF)", Status::Done, b""),
    (
        b"(define-sort S () U)",
        Status::Script,
        b"(error \"9 at 1:19: unknown sort\")\n",
    ),
    (
        b"(declare-const c U)",
        Status::Script,
        b"(error \"9 at 1:18: unknown sort\")\n",
    ),
    (
        b"(declare-fun f (U) U)",
        Status::Script,
        b"(error \"9 at 1:17: unknown sort\")\n",
    ),
    (
        b"(define-fun f ((x U)) U x)",
        Status::Script,
        b"(error \"9 at 1:19: unknown sort\")\n",
    ),
    (b"(push 1)(push)(pop 2)", Status::Done, b""),
    (
        b"(pop 1)",
        Status::Script,
        b"(error \"16 at 1:1: pop below the first level\")\n",
    ),
    (
        b"(get-model)",
        Status::Script,
        b"(error \"18 at 1:1: no model\")\n",
    ),
    (
        b"(get-value (a))",
        Status::Script,
        b"(error \"18 at 1:1: no model\")\n",
    ),
    (
        b"(check-sat)(push)(get-model)",
        Status::Script,
        b"sat\n(error \"18 at 1:18: no model\")\n",
    ),
    (
        b"(check-sat)(get-value (a))",
        Status::Script,
        b"sat\n(error \"20 at 1:12: not yet\")\n",
    ),
    (
        b"(check-sat)\n(pop 1)",
        Status::Script,
        b"sat\n(error \"16 at 2:1: pop below the first level\")\n",
    ),
    (
        b"(set-option :print-success true)\n(set-option :verbosity 1)\n(echo \"a \"\"b\"\"\")\n(get-info :name)\n(get-model)",
        Status::Script,
        b"success\nunsupported\n\"a \"\"b\"\"\"\n(:name \"fmf\")\n(error \"18 at 5:1: no model\")\n",
    ),
    (
        b"(get-info :version)(get-info :error-behavior)(get-info :reason-unknown)(get-info :authors)",
        Status::Done,
        b"(:version \"1\")\n(:error-behavior immediate-exit)\nunsupported\nunsupported\n",
    ),
];

// `success` on and off: each command that has no reply of its own, and options that are known, unknown or too late.
const SUCCESS: (&[u8], &[u8]) = (
    b"(set-logic UF)(set-option :print-success true)(set-logic UF)(set-info :x)(set-option :global-declarations false)(declare-sort U 0)(define-sort V () U)(declare-const a V)(declare-fun f (U) U)(define-fun g () U a)(assert (= a g))(push)(pop)(set-option :global-declarations true)(set-option :produce-models true)(check-sat)(get-info :reason-unknown)(set-option :print-success false)(assert true)(set-option :print-success true)(exit)(pop)",
    b"success\nsuccess\nsuccess\nsuccess\nsuccess\nsuccess\nsuccess\nsuccess\nsuccess\nsuccess\nsuccess\nsuccess\nunsupported\nsuccess\nsat\nunsupported\nsuccess\nsuccess\n",
);

const BAD_SHAPES: [&[u8]; 20] = [
    b"(set-logic)",
    b"(set-option a true)",
    b"(set-info)",
    b"(get-info name)",
    b"(declare-sort U)",
    b"(define-sort S U U)",
    b"(declare-const c 5)",
    b"(declare-const assert U)",
    b"(declare-fun f U U)",
    b"(declare-fun f (5) U)",
    b"(define-fun f (x) U x)",
    b"(assert)",
    b"(push x)",
    b"(pop 1 2)",
    b"(check-sat 1)",
    b"(get-model 1)",
    b"(exit 0)",
    b"(get-value ())",
    b"(echo a)",
    b"()",
];

#[test]
fn answers_commands(rt: HostRuntime) -> Result<(), Fail> {
    for (text, status, reply) in COMMANDS {
        let script = Vec::from_slice(rt.alloc(), text)?;
        let mut files = files_with(rt.alloc(), script, &[], &[])?;
        let answer = solve_in(rt.alloc(), &mut files)?;
        assert_eq!(rt; answer, status);
        assert_eq!(rt; files.written("-"), reply);
    }
    let script = Vec::from_slice(rt.alloc(), SUCCESS.0)?;
    let mut files = files_with(rt.alloc(), script, &[], &[])?;
    let answer = solve_in(rt.alloc(), &mut files)?;
    assert_eq!(rt; answer, Status::Done);
    assert_eq!(rt; files.written("-"), SUCCESS.1);
    Ok(())
}

#[test]
fn knows_shapes(rt: HostRuntime) -> Result<(), Fail> {
    for text in BAD_SHAPES {
        let script = Vec::from_slice(rt.alloc(), text)?;
        let mut files = files_with(rt.alloc(), script, &[], &[])?;
        let answer = solve_in(rt.alloc(), &mut files)?;
        assert_eq!(rt; answer, Status::Script);
        assert_eq!(rt;
            files.written("-"),
            b"(error \"6 at 1:1: bad shape\")\n".as_slice()
        );
    }
    let script = Vec::from_slice(
        rt.alloc(),
        b"(set-info :status sat)(set-info :x)(echo \"b\")(set-option :print-success maybe)",
    )?;
    let mut files = files_with(rt.alloc(), script, &[], &[])?;
    let answer = solve_in(rt.alloc(), &mut files)?;
    assert_eq!(rt; answer, Status::Script);
    assert_eq!(rt;
        files.written("-"),
        b"\"b\"\n(error \"6 at 1:73: bad shape\")\n".as_slice()
    );
    Ok(())
}

const DISTINCT: &[u8] =
    b"(declare-sort U 0)(declare-const a U)(declare-const b U)(declare-const c U)(assert (distinct a b c))(check-sat)";

// A certificate for three distinct constants, line by line.
const DISTINCT_CERT: [&[u8]; 16] = [
    b"fmfcert 1\n",
    b"b 0\n",
    b"t 0\n",
    b"t 1\n",
    b"t 2\n",
    b"i 0\n",
    b"i 1\n",
    b"i 2\n",
    b"c 0 2 0 1 2\n",
    b"s 2 2\n",
    b"r 3 +E0,1 0 +E0,2 1 +E1,2 2 -C0,2 4\n",
    b"q sat 3\n",
    b"z 3\n",
    b"d 0\n",
    b"d 1\n",
    b"d 2\n",
];

// That certificate with other text in the place of so many lines from this one on, which are numbered from 1.
fn changed(alloc: Global, line: usize, count: usize, with: &[u8]) -> Result<Vec<u8>, AllocError> {
    let mut text = Vec::new(alloc);
    for (place, own) in DISTINCT_CERT.iter().enumerate() {
        if place + 1 == line {
            text.extend_from_slice(with)?;
        }
        if place + 1 < line || place + 1 >= line.saturating_add(count) {
            text.extend_from_slice(own)?;
        }
    }
    if line > DISTINCT_CERT.len() {
        text.extend_from_slice(with)?;
    }
    Ok(text)
}

// The script `s` and the certificate `c`.
fn checked(alloc: Global, script: &[u8], cert: &[u8]) -> Result<(Status, MemFiles), Fail> {
    let mut files = Vec::new(alloc);
    files.push((
        String::from_str(alloc, "s")?,
        Vec::from_slice(alloc, script)?,
    ))?;
    files.push((String::from_str(alloc, "c")?, Vec::from_slice(alloc, cert)?))?;
    let outs = words_of(alloc, &["-"])?;
    let mut files = MemFiles::new(alloc, files, outs, 4096, Vec::new(alloc), Vec::new(alloc))?;
    let words = words_of(alloc, &["check", "s", "c"])?;
    let status = run(alloc, words.as_slice(), &mut files);
    Ok((status, files))
}

#[test]
fn checks_changed_certificates(rt: HostRuntime) -> Result<(), Fail> {
    let rows: [(usize, usize, &[u8], &[u8]); 23] = [
        (1, 0, b"", b"block 0 sat 3\naccepted 1 of 1\n"),
        (2, 99, b"", b"accepted 0 of 1\n"),
        (9, 1, b"c 0 2 0 1\n", b"rejected line 9 rule c\n"),
        (11, 1, b"r 3 +E0,1 0\n", b"rejected line 12 rule q\n"),
        (13, 1, b"z 4\n", b"rejected line 12 rule q\n"),
        (16, 1, b"d 3\n", b"rejected line 16 rule m\n"),
        (1, 1, b"", b"rejected line 1 rule text\n"),
        (12, 99, b"", b"rejected line 12 rule text\n"),
        (2, 1, b"b 1\n", b"rejected line 2 rule b\n"),
        (5, 1, b"t 0\n", b"rejected line 5 rule t\n"),
        (8, 1, b"i 3\n", b"rejected line 8 rule i\n"),
        (10, 1, b"s 2 1\n", b"rejected line 10 rule s\n"),
        (10, 1, b"s 3 2\n", b"rejected line 10 rule s\n"),
        (
            11,
            1,
            b"r 3 +E0,1 1 +E0,2 1 +E1,2 2 -C0,2 4\n",
            b"rejected line 11 rule r\n",
        ),
        (12, 1, b"q unsat\n", b"rejected line 13 rule text\n"),
        (13, 1, b"z 0\n", b"rejected line 13 rule m\n"),
        (14, 1, b"", b"rejected line 13 rule m\n"),
        (14, 1, b"d 00\n", b"rejected line 14 rule text\n"),
        (14, 1, b"d 1\n", b"rejected line 12 rule q\n"),
        (17, 0, b"x 0 0\n", b"rejected line 17 rule m\n"),
        (17, 0, b"b 1\nq unknown 0 0\n", b"rejected line 17 rule b\n"),
        (16, 1, b"d 2", b"rejected line 16 rule text\n"),
        (
            3,
            99,
            b"q unknown 5 7\n",
            b"block 0 unknown 5 7\naccepted 1 of 1\n",
        ),
    ];
    for (line, count, with, reply) in rows {
        let cert = changed(rt.alloc(), line, count, with)?;
        let (status, files) = checked(rt.alloc(), DISTINCT, cert.as_slice())?;
        let good = !reply.starts_with(b"rejected");
        assert_eq!(rt; status == Status::Done, good);
        assert_eq!(rt; status == Status::Rejected, !good);
        assert_eq!(rt; files.written("-"), reply);
    }
    Ok(())
}

#[test]
fn checks_other_certificates(rt: HostRuntime) -> Result<(), Fail> {
    let twice =
        b"(declare-fun p () Bool)(assert p)(check-sat)(assert (not p))(check-sat)(exit)(check-sat)(pop 1)".as_slice();
    let apart =
        b"(declare-sort U 0)(declare-const a U)(assert (not (= a a)))(check-sat)".as_slice();
    let moves =
        b"(declare-sort U 0)(declare-fun f (U) U)(assert (forall ((x U)) (not (= (f x) x))))(check-sat)".as_slice();
    let rows = [
        (
            twice,
            b"fmfcert 1\nb 0\nq sat 0\nz\nd 1\nb 1\nt 0\ni 0\ni 1\nr 0 +P0 1\nq unsat\n".as_slice(),
            Status::Done,
            b"block 0 sat 0\nblock 1 unsat\naccepted 2 of 2\n".as_slice(),
        ),
        (
            twice,
            b"fmfcert 1\nb 0\nt 0\ni 0\ni 1\nr 0 +P0 1\nq unsat\n".as_slice(),
            Status::Rejected,
            b"rejected line 5 rule i\n".as_slice(),
        ),
        (
            apart,
            b"fmfcert 1\nb 0\nt 0\ni 0\ne +E0,0 /\nr 0 -E0,0 1\nq unsat\n".as_slice(),
            Status::Done,
            b"block 0 unsat\naccepted 1 of 1\n".as_slice(),
        ),
        (
            moves,
            b"fmfcert 1\nb 0\nt 1\nt 0 0\ni 0 0\nc 0 1 0 1\ns 1 1\nr 1 +E0,1 0 -C0,1 2\nq sat 2\nz 2\nd 0\nx 0 1\n".as_slice(),
            Status::Done,
            b"block 0 sat 2\naccepted 1 of 1\n".as_slice(),
        ),
        (
            b"(check-sat)\n(pop 1)".as_slice(),
            b"no certificate".as_slice(),
            Status::Script,
            b"(error \"16 at 2:1: pop below the first level\")\n".as_slice(),
        ),
        (
            b"(declare-sort U 0)\n(assert (and".as_slice(),
            b"".as_slice(),
            Status::Script,
            b"(error \"4 at 2:13: unexpected end\")\n".as_slice(),
        ),
    ];
    for (script, cert, status, reply) in rows {
        let (answer, files) = checked(rt.alloc(), script, cert)?;
        assert_eq!(rt; answer, status);
        assert_eq!(rt; files.written("-"), reply);
    }
    Ok(())
}
