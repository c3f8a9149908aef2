ghost use Rattle.std.specs.Prelude.{◌≡◌, ◌+◌, min, length, Some, Ok};
ghost use Rattle.fm_apply.specs.Scoped.{IsMade, further, lower, names_in, newest_number, places_in, zipped};

use crate::entry::Function;
use fm_base::{Fail, Place, Ty};
use fm_levels::{Levels, NameSet};
use sqlite_items::Items;

/// What a term of a command may speak of: the script's text, the sorts and functions in force, the place of the
/// command, the name that it defines, which is taken already, and whether `:named` may give names.
#[derive(Clone, Copy)]
pub struct Scope<'s, 'a> {
    pub text: &'a [u8],
    pub sorts: &'s Levels<'a, Ty>,
    pub functions: &'s Levels<'a, Function>,
    pub command: Place,
    pub own: Option<&'a [u8]>,
    pub naming: bool,
}

/// The names bound around a term: those of one binder, with the numbers of the terms that they stand for, inside those
/// of the binders around it; and how many of them all are variables or parameters.
#[derive(Drop)]
pub enum Frame<'f, 'a> {
    Top,
    Inner {
        outer: &'f Frame<'f, 'a>,
        names: NameSet<'a>,
        numbers: Items<usize>,
        places: usize,
    },
}

/// An elaborated term: its number in the arena, and the least place of a bound name that stands in it as it is written,
/// past all of them where none does.
#[derive(Clone, Copy, Debug)]
pub struct Found {
    pub number: usize,
    pub low: usize,
}

fn sum(left: usize, right: usize) -> Result<usize, Fail>
    ensures { IsMade result (Ok (left + right)) }
{
    match left.checked_add(right) {
        None => Err(Fail::Memory),
        Some(sum) => Ok(sum),
    }
}

/// How many names are bound.
pub fn count(frame: &Frame<'_, '_>) -> Result<usize, Fail>
    ensures { IsMade result (Ok (length (names_in frame.now))) }
{
    match frame {
        Frame::Top => Ok(0),
        Frame::Inner {
            outer,
            names,
            numbers,
            places: _,
        } => match count(outer) {
            Err(fail) => Err(fail),
            Ok(before) => sum(before, names.len().min(numbers.len())),
        },
    }
}

/// How many of the bound names are variables or parameters.
pub fn places(frame: &Frame<'_, '_>) -> usize
    ensures { result ≡ places_in frame.now }
{
    match frame {
        Frame::Top => 0,
        Frame::Inner {
            outer: _,
            names: _,
            numbers: _,
            places,
        } => *places,
    }
}

// The term of a name that a frame binds, with its place in the frame.
fn within(names: &NameSet, numbers: &[usize], name: &[u8]) -> Option<Found>
    ensures { result ≡ newest_number 0 name.now (zipped names.now numbers.now) }
{
    let low = names.place(name)?;
    match numbers.get(low) {
        None => None,
        Some(number) => Some(Found {
            number: *number,
            low,
        }),
    }
}

// A term of a frame, with its place behind the names bound around the frame.
fn behind(outer: &Frame<'_, '_>, found: Found) -> Result<Option<Found>, Fail>
    ensures { IsMade result (Ok (Some (further (length (names_in outer.now)) found))) }
{
    match count(outer) {
        Err(fail) => Err(fail),
        Ok(before) => match sum(before, found.low) {
            Err(fail) => Err(fail),
            Ok(low) => Ok(Some(Found {
                number: found.number,
                low,
            })),
        },
    }
}

/// The term of the newest bound name that is this one, with its place.
pub fn newest(frame: &Frame<'_, '_>, name: &[u8]) -> Result<Option<Found>, Fail>
    ensures { IsMade result (Ok (newest_number 0 name.now (names_in frame.now))) }
{
    match frame {
        Frame::Top => Ok(None),
        Frame::Inner {
            outer,
            names,
            numbers,
            places: _,
        } => match within(names, numbers.as_slice(), name) {
            None => newest(outer, name),
            Some(found) => behind(outer, found),
        },
    }
}

/// A term that was read within an inner frame: where no name of the outer frames stands in it, none of those bound here
/// does.
pub fn outside(frame: &Frame<'_, '_>, found: Found) -> Result<Found, Fail>
    ensures { IsMade result (Ok (lower (length (names_in frame.now)) found)) }
{
    match count(frame) {
        Err(fail) => Err(fail),
        Ok(all) => Ok(lowered(all, found)),
    }
}

// The term where a name at this place stands in it too.
fn lowered(low: usize, found: Found) -> Found
    ensures { result ≡ lower low found }
{
    Found {
        number: found.number,
        low: low.min(found.low),
    }
}

/// A term that was read within a `let`, in whose terms a name at this place stands.
pub fn within_let(frame: &Frame<'_, '_>, low: usize, found: Found) -> Result<Found, Fail>
    ensures { IsMade result (Ok (lower low (lower (length (names_in frame.now)) found))) }
{
    match outside(frame, found) {
        Err(fail) => Err(fail),
        Ok(found) => Ok(lowered(low, found)),
    }
}

/// A term in which no bound name stands.
pub fn past_all(frame: &Frame<'_, '_>, number: usize) -> Result<Found, Fail>
    ensures { IsMade result (Ok (record { number = number; low = length (names_in frame.now) })) }
{
    match count(frame) {
        Err(fail) => Err(fail),
        Ok(low) => Ok(Found { number, low }),
    }
}
