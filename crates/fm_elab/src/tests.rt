ghost use Rattle.std.specs.Prelude.{◌≡◌, true};
ghost use Rattle.fm_sexp.specs.Items.{all_within, bars_of, spans_within};

use crate::Scopes;
use fm_base::{Fail, Memory};
use fm_script::read_command;
use fm_sexp::{Kind, Sexp, read_sexps};
use std::alloc::Global;

// The bytes of a word that its name leaves out.
fn bars(kind: Kind) -> usize
    ensures { result ≡ bars_of kind }
{
    match kind {
        Kind::Quoted => 2,
        _ => 0,
    }
}

// Whether an item lies within a text of so many bytes.
#[cycle(lying)]
fn lies_within(len: usize, item: &Sexp) -> bool
    ensures { result ≡ true → spans_within len item.now ≡ true }
{
    match item {
        Sexp::Word {
            kind,
            start,
            end,
            ..
        } => *end <= len && *start <= *end && bars(*kind) <= *end - *start,
        Sexp::List {
            items,
            start,
            end,
            ..
        } => *end <= len && *start <= *end && all_lie_within(len, items.as_slice()),
    }
}

#[cycle(lying)]
fn all_lie_within(len: usize, items: &[Sexp]) -> bool
    ensures { result ≡ true → all_within len items.now ≡ true }
{
    for item in items {
        if !lies_within(len, item) {
            return false;
        }
    }
    true
}

// Carries out the commands of a text up to the first that is refused.
fn apply_all<'a>(
    alloc: Global,
    scopes: &mut Scopes<'a>,
    text: &'a [u8],
    items: &'a [Sexp],
) -> Result<(), Fail> {
    for item in items {
        if !lies_within(text.len(), item) {
            return Err(Fail::Memory);
        }
        let command = match read_command(alloc, text, item) {
            Err(fail) => return Err(fail),
            Ok(command) => command,
        };
        match scopes.apply(text, &command) {
            Err(fail) => return Err(fail),
            Ok(()) => {}
        }
    }
    Ok(())
}

// The number and the column of the first refusal of a text, or 0 and the number of assertions in force.
pub(crate) fn outcome(alloc: Global, text: &[u8]) -> Result<(u64, u64), Memory> {
    let items = match read_sexps(alloc, text) {
        Err(_) => return Err(Memory),
        Ok(items) => items,
    };
    let mut scopes = Scopes::new(alloc);
    match apply_all(alloc, &mut scopes, text, items.as_slice()) {
        Ok(()) => Ok((0, scopes.assertions().len() as u64)),
        Err(Fail::Memory) => Err(Memory),
        Err(Fail::Refused(refusal)) => Ok((refusal.reason.number(), refusal.at.column)),
    }
}

// The first row that isn't so.
fn first_wrong(alloc: Global, rows: &[(&[u8], u64, u64)]) -> Result<Option<usize>, Memory> {
    for place in 0..rows.len() {
        let row = rows[place];
        let found = outcome(alloc, row.0)?;
        if found.0 != row.1 || found.1 != row.2 {
            return Ok(Some(place));
        }
    }
    Ok(None)
}

// Each refusal of a command at its place, and what is allowed beside it.
#[test]
fn refuses(rt: HostRuntime) -> Result<(), Memory> {
    let rows: [(&[u8], u64, u64); 22] = [
        (b"(declare-sort U 0)(declare-sort U 0)", 11, 33),
        (b"(declare-fun f (Bool) Bool)", 15, 17),
        (b"(declare-sort P 2)", 14, 17),
        (b"(set-logic LIA)", 8, 12),
        (b"(set-logic UF)(set-logic QF_UF)(set-logic ALL)", 0, 0),
        (b"(declare-sort and 0)", 11, 15),
        (b"(declare-const Bool Bool)", 11, 16),
        (b"(declare-const @c Bool)", 11, 16),
        (b"(declare-const c U)", 9, 18),
        (b"(declare-const c (U))", 14, 18),
        (
            b"(define-sort B () Bool)(declare-const p B)(assert p)",
            0,
            1,
        ),
        (b"(define-sort B () Bool)(declare-fun p (B) Bool)", 15, 40),
        (b"(define-sort B (X) Bool)", 14, 16),
        (b"(declare-const p Bool)(declare-fun p () Bool)", 11, 36),
        (b"(define-fun f ((p Bool) (p Bool)) Bool p)", 6, 26),
        (b"(declare-sort U 0)(define-fun f ((x U)) Bool x)", 13, 46),
        (
            b"(define-fun f ((p Bool)) Bool (not p))(assert (f true))",
            0,
            1,
        ),
        (b"(declare-sort U 0)(declare-const a U)(assert a)", 13, 46),
        (b"(assert zz)", 10, 9),
        (b"(define-fun r () Bool (! true :named r))", 11, 38),
        (b"(assert (! true :named n))(assert n)", 0, 2),
        (b"(assert (! true :named n))(declare-const n Bool)", 11, 42),
    ];
    match first_wrong(rt.alloc(), &rows)? {
        None => Ok(()),
        Some(_) => Err(Memory),
    }
}

// Levels, what they close, and what outlives them.
#[test]
fn levels(rt: HostRuntime) -> Result<(), Memory> {
    let rows: [(&[u8], u64, u64); 16] = [
        (b"(pop 1)", 16, 1),
        (b"(pop 0)(push 0)", 0, 0),
        (b"(push 65536)(pop 65536)", 0, 0),
        (b"(push 65537)", 17, 1),
        (b"(push 65536)(push)", 17, 13),
        (b"(push 3)(pop 2)(pop)(pop)", 16, 21),
        (b"(assert true)(push)(assert false)(pop)(assert true)", 0, 2),
        (b"(push)(declare-sort B 0)(pop)(declare-const c B)", 9, 47),
        (
            b"(push)(declare-sort B 0)(pop)(declare-sort B 0)(declare-const c B)",
            0,
            0,
        ),
        (b"(push)(assert (! true :named n))(pop)(assert n)", 10, 46),
        (
            b"(push)(assert (! true :named n))(pop)(assert (! true :named n))",
            0,
            1,
        ),
        (
            b"(set-option :global-declarations true)(push)(declare-const p Bool)(pop)(assert p)",
            0,
            1,
        ),
        (
            b"(set-option :global-declarations true)(push)(define-fun f () Bool (! true :named n))(pop)(assert (and f n))",
            0,
            1,
        ),
        (
            b"(set-option :global-declarations true)(push)(assert (! true :named n))(pop)(assert n)",
            10,
            84,
        ),
        (
            b"(push)(pop)(set-option :global-declarations true)(push)(declare-const p Bool)(pop)(assert p)",
            10,
            91,
        ),
        (
            b"(push)(declare-const p Bool)(push)(define-fun g ((q Bool)) Bool (and p q))(assert (g p))(pop)(assert p)",
            0,
            1,
        ),
    ];
    match first_wrong(rt.alloc(), &rows)? {
        None => Ok(()),
        Some(_) => Err(Memory),
    }
}
