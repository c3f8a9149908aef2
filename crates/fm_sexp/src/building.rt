ghost use Rattle.std.specs.Prelude.{◌≡◌, ◌+◌, ◌<◌, ◌≤◌, ◌^◌, List, [], ◌∷◌, ◌++◌, length, OnOk, IfSome, IfNone, Some, is_some, true};
ghost use Rattle.fm_sexp.specs.Pieces.{depth_with};
ghost use Rattle.fm_sexp.specs.Items.{Token, token_of};
ghost use Rattle.fm_sexp.specs.Building.{IsStopped, OpensBy, so_far};

use crate::items::Sexp;
use crate::pieces::{Kind, Piece, Shape};
use fm_base::{Place, Reason};
use sqlite_items::Items;
use std::alloc::{AllocError, Global};
use std::mem;

// The greatest number of open parentheses.
const DEPTH_LIMIT: usize = 200;

// Why a piece can't follow at a depth, if it can't.
pub(crate) fn stop_at(depth: usize, shape: Shape) -> Option<Reason>
    requires { depth ≤ 200 }
    ensures some { IfSome result (λ reason. IsStopped depth shape reason) }
    ensures none { IfNone result (is_some (depth_with depth shape) ≡ true) }
{
    match shape {
        Shape::Open => {
            if depth < DEPTH_LIMIT {
                None
            } else {
                Some(Reason::TooDeep)
            }
        }
        Shape::Close => {
            if depth > 0 {
                None
            } else {
                Some(Reason::Unbalanced)
            }
        }
        Shape::Blank | Shape::Comment | Shape::Word(_) => None,
    }
}

// What stands before a list that is open, in the list around it; and where that list began.
#[derive(Drop)]
pub(crate) struct Frame {
    pub before: Vec<Sexp>,
    pub start: usize,
    pub at: Place,
}

// The open lists, the innermost last, and the items read so far of the innermost.
#[derive(Drop)]
pub(crate) struct Builder {
    pub frames: Vec<Frame>,
    pub current: Vec<Sexp>,
}

impl Builder {
    pub(crate) fn depth(&self) -> usize
        ensures { result ≡ length self.now.frames.items }
    {
        self.frames.len()
    }

    fn word(&mut self, kind: Kind, start: usize, end: usize, at: Place) -> Result<(), AllocError>
        ensures so_far { OnOk result (so_far self.new ≡ so_far self.old ++ Token.Name kind start end at ∷ []) }
        ensures frames { OnOk result (length self.new.frames.items ≡ length self.old.frames.items) }
    {
        self.current.push(Sexp::Word {
            kind,
            start,
            end,
            at,
        })?;
        Ok(())
    }

    fn open(&mut self, alloc: Global, start: usize, at: Place) -> Result<(), AllocError>
        ensures so_far { OnOk result (so_far self.new ≡ so_far self.old ++ Token.Opened start at ∷ []) }
        ensures frames { OnOk result (length self.new.frames.items ≡ 1 + length self.old.frames.items) }
    {
        let before = mem::replace(&mut self.current, Vec::new(alloc));
        self.frames.push(Frame { before, start, at })?;
        Ok(())
    }

    fn close(&mut self, end: usize) -> Result<(), AllocError>
        requires { 0 < length self.old.frames.items }
        ensures so_far { OnOk result (so_far self.new ≡ so_far self.old ++ Token.Closed end ∷ []) }
        ensures frames { OnOk result (1 + length self.new.frames.items ≡ length self.old.frames.items) }
    {
        if let Some(Frame { before, start, at }) = self.frames.pop() {
            let mut items = mem::replace(&mut self.current, before);
            // A list has no more items, so the room for more is given back.
            items.shrink_to_fit();
            let items = Items::from_vec(items);
            self.current.push(Sexp::List {
                items,
                start,
                end,
                at,
            })?;
        }
        Ok(())
    }

    // Takes in a piece that stands at a place.
    pub(crate) fn add(
        &mut self,
        alloc: Global,
        piece: Piece,
        start: usize,
        at: Place,
    ) -> Result<(), AllocError>
        requires lawful { is_some (depth_with (length self.old.frames.items) piece.shape) ≡ true }
        requires fits { start + piece.len < 2 ^ 64 }
        ensures so_far { OnOk result (so_far self.new ≡ so_far self.old ++ token_of at start piece.len piece.shape) }
        ensures frames { OnOk result (OpensBy self.old self.new piece.shape) }
    {
        match piece.shape {
            Shape::Open => self.open(alloc, start, at),
            Shape::Close => self.close(start + piece.len),
            Shape::Word(kind) => self.word(kind, start, start + piece.len, at),
            Shape::Blank | Shape::Comment => Ok(()),
        }
    }
}
