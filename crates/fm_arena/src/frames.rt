ghost use Rattle.std.specs.Prelude.{◌≡◌, ◌+◌, ◌<◌, ◌≤◌, ℕ, length, take, None, IfOk, IfSome, OnOk};
ghost use Rattle.fm_arena.specs.Trees.{of_kind};
ghost use Rattle.fm_arena.specs.Meanings.{inside};
ghost use Rattle.fm_arena.specs.Frames.{GivesArguments, IsEnd, IsFound, IsNearer, IsWithin, Leads, back_of as back_of_frame};
ghost use Rattle.fm_arena.specs.Frames.{names_at, node_room, node_tree, room_at, spot_room, spot_tree, term_room, term_tree};

use crate::node::{Entry, Node, Op};
use fm_base::{Memory, SortId};

/// What gives names their meaning around a term: a block, with how many names are in scope around it and under how
/// many variables it stands, or the use of a definition, with its arguments, by their numbers among the entries
/// before it. Frames stand in a list; the number of a frame is one more than its place, and 0 where there is none.
/// Between a frame and its outer one stand `back` others.
#[derive(Clone, Copy)]
pub enum Frame<'a> {
    Block {
        back: usize,
        base: usize,
        depth: usize,
    },
    Args {
        back: usize,
        before: &'a [Entry],
        args: &'a [usize],
    },
}

/// A place on the way down through uses and names: a term within a frame, or where the way ends.
#[derive(Clone, Copy)]
pub enum Spot<'a> {
    Nothing,
    Variable(usize),
    Term {
        entries: &'a [Entry],
        number: usize,
        frame: usize,
    },
    Made {
        before: &'a [Entry],
        op: Op,
        parts: &'a [usize],
        frame: usize,
    },
    Block(Block<'a>),
}

/// A block over a term of the entries before it, within a frame.
#[derive(Clone, Copy)]
pub struct Block<'a> {
    pub before: &'a [Entry],
    pub all: bool,
    pub vars: &'a [SortId],
    pub base: usize,
    pub body: usize,
    pub frame: usize,
}

fn back_of(frame: &Frame<'_>) -> usize
    ensures { result ≡ back_of_frame frame.now }
{
    match frame {
        Frame::Block {
            back,
            base: _,
            depth: _,
        } => *back,
        Frame::Args {
            back,
            before: _,
            args: _,
        } => *back,
    }
}

// What stands for the name at a place, None where it is the name in the outer frame.
fn in_frame<'a>(frame: &Frame<'a>, outer: usize, place: usize) -> Result<Option<Spot<'a>>, Memory>
    ensures tree { IsFound frame.now outer place result }
    ensures within { (n : ℕ) → outer ≤ n → IfOk result (λ o. IfSome o (λ s. IsWithin n s)) }
    ensures room { IsNearer frame.now outer result }
{
    match frame {
        Frame::Block {
            back: _,
            base,
            depth,
        } => {
            if place < *base {
                return Ok(None);
            }
            match depth.checked_add(place - *base) {
                None => Err(Memory),
                Some(number) => Ok(Some(Spot::Variable(number))),
            }
        }
        Frame::Args {
            back: _,
            before,
            args,
        } => match args.get(place) {
            None => Ok(Some(Spot::Nothing)),
            Some(arg) => Ok(Some(Spot::Term {
                entries: before,
                number: *arg,
                frame: outer,
            })),
        },
    }
}

// What stands for the name at a place within a frame.
fn named<'a>(frames: &[Frame<'a>], frame: usize, place: usize) -> Result<Spot<'a>, Memory>
    requires { frame ≤ length frames.now }
    ensures tree { (d : ℕ) → IfOk result (λ s. spot_tree frames.now s d ≡ names_at frames.now frame place d) }
    ensures within { IfOk result (λ s. IsWithin (length frames.now) s) }
    ensures room { IfOk result (λ s. spot_room frames.now s ≤ room_at frames.now frame) }
{
    let mut number = frame;
    while number > 0 {
        let inner = &frames[number - 1];
        number = (number - 1).saturating_sub(back_of(inner));
        if let Some(spot) = in_frame(inner, number, place)? {
            return Ok(spot);
        }
    }
    Ok(Spot::Nothing)
}

// What stands for a name that is read as a formula or as a term, where a kind may be wanted of it.
fn named_as<'a>(
    frames: &[Frame<'a>],
    kind: Option<bool>,
    frame: usize,
    place: usize,
    truth: bool,
) -> Result<(Option<bool>, Spot<'a>), Memory>
    requires { frame ≤ length frames.now }
    ensures tree { Leads frames.now kind (λ d. of_kind truth (names_at frames.now frame place d)) result }
    ensures within { IfOk result (λ r. IsWithin (length frames.now) r.1) }
    ensures room { IfOk result (λ r. spot_room frames.now r.1 ≤ room_at frames.now frame) }
{
    match kind {
        Some(other) if other != truth => Ok((kind, Spot::Nothing)),
        _ => Ok((Some(truth), named(frames, frame, place)?)),
    }
}

// Puts a frame for the use of a definition, and answers its number.
fn enter<'a>(
    frames: &mut Vec<Frame<'a>>,
    before: &'a [Entry],
    args: &'a [usize],
    frame: usize,
) -> Result<usize, Memory>
    requires { frame ≤ length frames.old.items }
    ensures names { IfOk result (GivesArguments frames.old.items frames.new.items before.now args.now frame) }
    ensures within { IfOk result (λ n. n ≤ length frames.new.items) }
    ensures room { IfOk result (λ n. room_at frames.new.items n ≡ term_room frames.old.items before.now frame + 1) }
    ensures frames { OnOk result (take (length frames.old.items) frames.new.items ≡ frames.old.items) }
{
    let back = frames.len() - frame;
    frames.push(Frame::Args { back, before, args })?;
    Ok(frames.len())
}

/// Puts a frame for a block under so many variables, and answers its number.
pub(crate) fn enter_block<'a>(
    frames: &mut Vec<Frame<'a>>,
    base: usize,
    depth: usize,
    frame: usize,
) -> Result<usize, Memory>
    requires { frame ≤ length frames.old.items }
    ensures names { IfOk result (λ n. names_at frames.new.items n ≡ inside base depth (names_at frames.old.items frame)) }
    ensures within { IfOk result (λ n. n ≤ length frames.new.items) }
    ensures room { IfOk result (λ n. room_at frames.new.items n ≡ room_at frames.old.items frame + 1) }
    ensures frames { OnOk result (take (length frames.old.items) frames.new.items ≡ frames.old.items) }
{
    let back = frames.len() - frame;
    frames.push(Frame::Block { back, base, depth })?;
    Ok(frames.len())
}

// One step down from a node.
fn node_step<'a>(
    frames: &mut Vec<Frame<'a>>,
    kind: Option<bool>,
    before: &'a [Entry],
    node: &'a Node,
    frame: usize,
) -> Result<(Option<bool>, Spot<'a>), Memory>
    requires { frame ≤ length frames.old.items }
    ensures tree { Leads frames.new.items kind (node_tree frames.old.items before.now node.now frame) result }
    ensures within { IfOk result (λ r. IsWithin (length frames.new.items) r.1) }
    ensures room { IfOk result (λ r. spot_room frames.new.items r.1 ≤ node_room frames.old.items before.now frame) }
    ensures frames { OnOk result (take (length frames.old.items) frames.new.items ≡ frames.old.items) }
{
    match node {
        Node::Name { place, truth } => named_as(frames.as_slice(), kind, frame, *place, *truth),
        Node::Defined { body, form: _ } => Ok((
            kind,
            Spot::Term {
                entries: before,
                number: *body,
                frame,
            },
        )),
        Node::Use {
            body,
            args,
            form: _,
        } => {
            let frame = enter(frames, before, args.as_slice(), frame)?;
            Ok((
                kind,
                Spot::Term {
                    entries: before,
                    number: *body,
                    frame,
                },
            ))
        }
        Node::Made { op, parts } => Ok((
            kind,
            Spot::Made {
                before,
                op: *op,
                parts: parts.as_slice(),
                frame,
            },
        )),
        Node::Quant {
            all,
            vars,
            base,
            body,
        } => Ok((
            kind,
            Spot::Block(Block {
                before,
                all: *all,
                vars: vars.as_slice(),
                base: *base,
                body: *body,
                frame,
            }),
        )),
    }
}

// One step down from a term.
fn step<'a>(
    frames: &mut Vec<Frame<'a>>,
    kind: Option<bool>,
    entries: &'a [Entry],
    number: usize,
    frame: usize,
) -> Result<(Option<bool>, Spot<'a>), Memory>
    requires { frame ≤ length frames.old.items }
    ensures tree { Leads frames.new.items kind (term_tree frames.old.items entries.now number frame) result }
    ensures within { IfOk result (λ r. IsWithin (length frames.new.items) r.1) }
    ensures room { IfOk result (λ r. spot_room frames.new.items r.1 < term_room frames.old.items entries.now frame) }
    ensures frames { OnOk result (take (length frames.old.items) frames.new.items ≡ frames.old.items) }
{
    if number >= entries.len() {
        return Ok((kind, Spot::Nothing));
    }
    let (before, rest) = entries.split_at(number);
    match rest.split_first() {
        None => Ok((kind, Spot::Nothing)),
        Some((entry, _)) => node_step(frames, kind, before, &entry.node, frame),
    }
}

/// Goes down from a term within a frame through uses and names, to an operator, a block, a variable or nothing, and
/// answers which kind is wanted there, if one is. Puts frames for the uses that it comes through, and takes no
/// more stack for more of them.
pub(crate) fn descend<'a>(
    frames: &mut Vec<Frame<'a>>,
    entries: &'a [Entry],
    number: usize,
    frame: usize,
) -> Result<(Option<bool>, Spot<'a>), Memory>
    requires { frame ≤ length frames.old.items }
    ensures tree { Leads frames.new.items None (term_tree frames.old.items entries.now number frame) result }
    ensures end { IfOk result (λ r. IsEnd r.1) }
    ensures within { IfOk result (λ r. IsWithin (length frames.new.items) r.1) }
    ensures room { IfOk result (λ r. spot_room frames.new.items r.1 ≤ term_room frames.old.items entries.now frame) }
    ensures frames { OnOk result (take (length frames.old.items) frames.new.items ≡ frames.old.items) }
{
    let mut kind = None;
    let mut spot = Spot::Term {
        entries,
        number,
        frame,
    };
    while let Spot::Term {
        entries,
        number,
        frame,
    } = spot
    {
        let next = step(frames, kind, entries, number, frame)?;
        kind = next.0;
        spot = next.1;
    }
    Ok((kind, spot))
}
