ghost use Rattle.std.specs.Prelude.{◌≡◌, List, ℕ, IfOk, Err};
ghost use Rattle.fm_base.specs.declared.refusal.Refusal.{Refusal as TheRefusal};
ghost use Rattle.fm_base.specs.declared.refusal.Fail.TheVariants as fail;
ghost use Rattle.fm_sexp.specs.Items.{ReadsAs, IsRefused};

use crate::building::{Builder, stop_at};
use crate::pieces::{Front, Kind, piece_at};
use crate::places::advance;
use fm_base::{Fail, Place, Reason, Refusal};
use sqlite_items::Items;
use std::alloc::Global;

/// An item of a text. Its bytes are those of the text from `start` to before `end`, and `at` is the place of its first
/// byte. The span of a list is from its opening parenthesis to behind its closing one.
#[derive(Drop)]
pub enum Sexp {
    Word {
        kind: Kind,
        start: usize,
        end: usize,
        at: Place,
    },
    List {
        items: Items<Sexp>,
        start: usize,
        end: usize,
        at: Place,
    },
}

/// Reads a text as a list of items: the whole lexicon of SMT-LIB 2.6, at most 200 parentheses open. Refused are, at the
/// first place where the text can't go on: `Lexical`, `Unbalanced`, `TooDeep`, and `UnexpectedEnd` at the place behind
/// the last byte.
pub fn read_sexps(alloc: Global, text: &[u8]) -> Result<Items<Sexp>, Fail>
    ensures reads { IfOk result (λ items. ReadsAs text.now items) }
    ensures refused { (r : TheRefusal) → result ≡ Err (fail.Refused r) → IsRefused text.now r }
{
    let mut builder = Builder {
        frames: Vec::new(alloc),
        current: Vec::new(alloc),
    };
    let mut at = Place { line: 1, column: 1 };
    let mut start = 0;
    while start < text.len() {
        let (_, rest) = text.split_at(start);
        let piece = match piece_at(rest) {
            Front::Unclosed => return refused(Reason::UnexpectedEnd, advance(at, rest)),
            Front::Wrong(off) => {
                let (before, _) = rest.split_at(off);
                return refused(Reason::Lexical, advance(at, before));
            }
            Front::Found(piece) => piece,
        };
        if let Some(reason) = stop_at(builder.depth(), piece.shape) {
            return refused(reason, at);
        }
        builder.add(alloc, piece, start, at)?;
        let (bytes, _) = rest.split_at(piece.len);
        at = advance(at, bytes);
        start += piece.len;
    }
    if builder.depth() > 0 {
        return refused(Reason::UnexpectedEnd, at);
    }
    Ok(Items::from_vec(builder.current))
}

fn refused(reason: Reason, at: Place) -> Result<Items<Sexp>, Fail>
    ensures { result ≡ Err (fail.Refused (record { reason = reason; at = at })) }
{
    Err(Fail::Refused(Refusal { reason, at }))
}
