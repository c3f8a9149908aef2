use crate::{Kind, Sexp, is_bare, is_reserved, read_sexps};
use fm_base::{Fail, Place, Reason, Refusal};

/// A word with its span and its place.
type Word = (Kind, usize, usize, u64, u64);

const WORDS: [(&[u8], &[Word]); 18] = [
    (b"", &[]),
    (b" \t\r\n", &[]),
    (
        b"0 10",
        &[(Kind::Numeral, 0, 1, 1, 1), (Kind::Numeral, 2, 4, 1, 3)],
    ),
    (
        b"1.50 0.0",
        &[(Kind::Decimal, 0, 4, 1, 1), (Kind::Decimal, 5, 8, 1, 6)],
    ),
    (b".5", &[(Kind::Symbol, 0, 2, 1, 1)]),
    (b"-1", &[(Kind::Symbol, 0, 2, 1, 1)]),
    (b"~!@$%^&*_-+=<>.?/aZ9", &[(Kind::Symbol, 0, 20, 1, 1)]),
    (
        b"#xaF #b10",
        &[(Kind::Hex, 0, 4, 1, 1), (Kind::Binary, 5, 9, 1, 6)],
    ),
    (
        b":a :9",
        &[(Kind::Keyword, 0, 2, 1, 1), (Kind::Keyword, 3, 5, 1, 4)],
    ),
    (b"\"a\"\"b\"", &[(Kind::Text, 0, 6, 1, 1)]),
    (
        b"\"\" \"\\\" \"\"\"\"",
        &[
            (Kind::Text, 0, 2, 1, 1),
            (Kind::Text, 3, 6, 1, 4),
            (Kind::Text, 7, 11, 1, 8),
        ],
    ),
    (
        b"|a b| ||",
        &[(Kind::Quoted, 0, 5, 1, 1), (Kind::Quoted, 6, 8, 1, 7)],
    ),
    (
        b"a|b|\"c\"d",
        &[
            (Kind::Symbol, 0, 1, 1, 1),
            (Kind::Quoted, 1, 4, 1, 2),
            (Kind::Text, 4, 7, 1, 5),
            (Kind::Symbol, 7, 8, 1, 8),
        ],
    ),
    (b";c\ra", &[(Kind::Symbol, 3, 4, 1, 4)]),
    (b";c\na", &[(Kind::Symbol, 3, 4, 2, 1)]),
    (b"a;c", &[(Kind::Symbol, 0, 1, 1, 1)]),
    (
        b";\xff\x00\n\"\xff\x00\"|\xff\x00|",
        &[(Kind::Text, 4, 8, 2, 1), (Kind::Quoted, 8, 12, 2, 5)],
    ),
    (
        b"a\n b\n\n|\n|c",
        &[
            (Kind::Symbol, 0, 1, 1, 1),
            (Kind::Symbol, 3, 4, 2, 2),
            (Kind::Quoted, 6, 9, 4, 1),
            (Kind::Symbol, 9, 10, 5, 2),
        ],
    ),
];

fn is_word(item: &Sexp, word: Word) -> bool {
    match item {
        Sexp::Word {
            kind,
            start,
            end,
            at,
        } => *kind == word.0
            && *start == word.1
            && *end == word.2
            && at.line == word.3
            && at.column == word.4,
        Sexp::List { .. } => false,
    }
}

#[test]
fn reads_words(rt: HostRuntime) -> Result<(), Fail> {
    for (case, (text, words)) in WORDS.iter().enumerate() {
        let items = read_sexps(rt.alloc(), *text)?;
        assert_eq!(rt; items.len(), words.len(), "in case {case}");
        for (item, word) in items.as_slice().iter().zip(words.iter()) {
            assert!(rt; is_word(item, *word), "in case {case}");
        }
    }
    Ok(())
}

#[test]
fn refuses(rt: HostRuntime) {
    let cases: [(&[u8], Reason, u64, u64); 30] = [
        (b"00", Reason::Lexical, 1, 1),
        (b"01", Reason::Lexical, 1, 1),
        (b"1.", Reason::Lexical, 1, 1),
        (b"a 1a", Reason::Lexical, 1, 3),
        (b"1.2.3", Reason::Lexical, 1, 1),
        (b"00.5", Reason::Lexical, 1, 1),
        (b"#x", Reason::Lexical, 1, 1),
        (b"#xG", Reason::Lexical, 1, 1),
        (b"#xg", Reason::Lexical, 1, 1),
        (b"#b", Reason::Lexical, 1, 1),
        (b"#b2", Reason::Lexical, 1, 1),
        (b"#", Reason::Lexical, 1, 1),
        (b":", Reason::Lexical, 1, 1),
        (b"(: a)", Reason::Lexical, 1, 2),
        (b"a\xff", Reason::Lexical, 1, 2),
        (b"a\n\x00", Reason::Lexical, 2, 1),
        (b"(a,b)", Reason::Lexical, 1, 3),
        (b"\"a\"\"", Reason::UnexpectedEnd, 1, 5),
        (b"\"a", Reason::UnexpectedEnd, 1, 3),
        (b"\"", Reason::UnexpectedEnd, 1, 2),
        (b"(|a", Reason::UnexpectedEnd, 1, 4),
        (b"|a\n", Reason::UnexpectedEnd, 2, 1),
        (b"|a\\b|", Reason::Lexical, 1, 3),
        (b"|a\\", Reason::Lexical, 1, 3),
        (b"|\n\\|", Reason::Lexical, 2, 1),
        (b")", Reason::Unbalanced, 1, 1),
        (b"()\n ) 00", Reason::Unbalanced, 2, 2),
        (b"(a", Reason::UnexpectedEnd, 1, 3),
        (b"(a\n", Reason::UnexpectedEnd, 2, 1),
        (b"(00", Reason::Lexical, 1, 2),
    ];
    for (case, (text, reason, line, column)) in cases.iter().enumerate() {
        let at = Place {
            line: *line,
            column: *column,
        };
        let refusal = Refusal {
            reason: *reason,
            at,
        };
        assert_eq!(rt;
            read_sexps(rt.alloc(), *text).err(),
            Some(Fail::Refused(refusal)),
            "in case {case}"
        );
    }
}

/// A text of this many nested lists.
fn nested(rt: &HostRuntime, depth: usize) -> Result<Vec<u8>, Fail> {
    let mut text = Vec::new(rt.alloc());
    for _ in 0..depth {
        text.push(b'(')?;
    }
    for _ in 0..depth {
        text.push(b')')?;
    }
    Ok(text)
}

#[test]
fn nests(rt: HostRuntime) -> Result<(), Fail> {
    let text = nested(&rt, 200)?;
    assert_eq!(rt; read_sexps(rt.alloc(), text.as_slice())?.len(), 1);
    let text = nested(&rt, 201)?;
    let refusal = Refusal {
        reason: Reason::TooDeep,
        at: Place {
            line: 1,
            column: 201,
        },
    };
    assert_eq!(rt;
        read_sexps(rt.alloc(), text.as_slice()).err(),
        Some(Fail::Refused(refusal))
    );
    Ok(())
}

/// The items of a list, its span, and the column of its place.
fn parts(item: &Sexp) -> Option<(&[Sexp], usize, usize, u64)> {
    match item {
        Sexp::List {
            items,
            start,
            end,
            at,
        } => Some((items.as_slice(), *start, *end, at.column)),
        Sexp::Word { .. } => None,
    }
}

#[test]
fn reads_lists(rt: HostRuntime) -> Result<(), Fail> {
    let items = read_sexps(rt.alloc(), b" (a (b) ())c")?;
    let [outer, c] = items.as_slice() else {
        assert!(rt; false);
        return Ok(());
    };
    assert!(rt; is_word(c, (Kind::Symbol, 11, 12, 1, 12)));
    let Some(([a, inner, empty], 1, 11, 2)) = parts(outer) else {
        assert!(rt; false);
        return Ok(());
    };
    assert!(rt; is_word(a, (Kind::Symbol, 2, 3, 1, 3)));
    let Some(([b], 4, 7, 5)) = parts(inner) else {
        assert!(rt; false);
        return Ok(());
    };
    assert!(rt; is_word(b, (Kind::Symbol, 5, 6, 1, 6)));
    assert!(rt; matches!(parts(empty), Some(([], 8, 10, 9))));
    Ok(())
}

#[test]
fn knows_names(rt: HostRuntime) {
    let cases: [(&[u8], bool, bool); 14] = [
        (b"", false, false),
        (b"a", false, true),
        (b"a1", false, true),
        (b"1a", false, false),
        (b"a b", false, false),
        (b"|a|", false, false),
        (b"a\xff", false, false),
        (b".@~", false, true),
        (b"let", true, false),
        (b"_", true, false),
        (b"set-option", true, false),
        (b"define-funs-rec", true, false),
        (b"Assert", false, true),
        (b"and", false, true),
    ];
    for (case, (name, reserved, bare)) in cases.iter().enumerate() {
        assert_eq!(rt; is_reserved(*name), *reserved, "in case {case}");
        assert_eq!(rt; is_bare(*name), *bare, "in case {case}");
    }
}
