ghost use Rattle.std.specs.Prelude.{◌≡◌, ◌↔◌, true, IfOk};

use fm_base::{Lit, Memory, Reader, TermId};
use sqlite_items::Items;
use std::alloc::Global;

/// How a search ends.
#[derive(Clone, Copy, Debug, PartialEq, Eq)]
pub enum Word {
    Sat,
    Unsat,
    Unknown,
}

/// One event of a search, as it is told. `Learn` and `Unit` give places in the list of clauses, `Instance` one in the
/// clause set.
#[derive(Drop)]
pub enum Event {
    Learn { clause: usize },
    Unit { clause: usize },
    Take { reader: Reader },
    Lemma { reader: Reader },
    Imply { reader: Reader },
    Turn,
    Decide { lit: Lit },
    Split { a: TermId, b: TermId },
    Instance { clause: usize, terms: Items<TermId> },
    Raise,
    Answer { word: Word },
}

// The same event once more.
pub(crate) fn copy_of(alloc: Global, event: &Event) -> Result<Event, Memory>
    ensures { IfOk result (λ e. e ≡ event.now) }
{
    Ok(match event {
        Event::Learn { clause } => Event::Learn { clause: *clause },
        Event::Unit { clause } => Event::Unit { clause: *clause },
        Event::Take { reader } => Event::Take { reader: *reader },
        Event::Lemma { reader } => Event::Lemma { reader: *reader },
        Event::Imply { reader } => Event::Imply { reader: *reader },
        Event::Turn => Event::Turn,
        Event::Decide { lit } => Event::Decide { lit: *lit },
        Event::Split { a, b } => Event::Split { a: *a, b: *b },
        Event::Instance { clause, terms } => Event::Instance {
            clause: *clause,
            terms: Items::from_slice(alloc, terms.as_slice())?,
        },
        Event::Raise => Event::Raise,
        Event::Answer { word } => Event::Answer { word: *word },
    })
}

fn are_same(ts: &[TermId], us: &[TermId]) -> bool
    ensures { (result ≡ true) ↔ (ts.now ≡ us.now) }
{
    ts == us
}

// Whether the two are one event.
pub(crate) fn is_same(a: &Event, b: &Event) -> bool
    ensures { (result ≡ true) ↔ (a.now ≡ b.now) }
{
    match (a, b) {
        (Event::Learn { clause: a }, Event::Learn { clause: b }) => a == b,
        (Event::Unit { clause: a }, Event::Unit { clause: b }) => a == b,
        (Event::Take { reader: a }, Event::Take { reader: b }) => a == b,
        (Event::Lemma { reader: a }, Event::Lemma { reader: b }) => a == b,
        (Event::Imply { reader: a }, Event::Imply { reader: b }) => a == b,
        (Event::Turn, Event::Turn) => true,
        (Event::Decide { lit: a }, Event::Decide { lit: b }) => a == b,
        (Event::Split { a, b }, Event::Split { a: c, b: d }) => a == c && b == d,
        (
            Event::Instance {
                clause: a,
                terms: ts,
            },
            Event::Instance {
                clause: b,
                terms: us,
            },
        ) => { a == b && are_same(ts.as_slice(), us.as_slice()) }
        (Event::Raise, Event::Raise) => true,
        (Event::Answer { word: a }, Event::Answer { word: b }) => a == b,
        _ => false,
    }
}
