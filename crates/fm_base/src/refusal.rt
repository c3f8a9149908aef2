ghost use Rattle.std.specs.Prelude.{◌≡◌};
ghost use Rattle.fm_base.specs.Refusals.{reason_number, reason_text};

use crate::ids::Memory;
use std::alloc::{AllocError, AllocFailed};

/// A place in a text. Both numbers count from 1; a column counts bytes, and a line ends after a line feed.
#[derive(Clone, Copy, Debug, PartialEq, Eq)]
pub struct Place {
    pub line: u64,
    pub column: u64,
}

/// Why a script or a command is refused. `NotYet` stands where a command is read but not carried out yet.
#[derive(Clone, Copy, Debug, PartialEq, Eq)]
pub enum Reason {
    Lexical,
    Unbalanced,
    TooDeep,
    UnexpectedEnd,
    UnknownCommand,
    BadShape,
    NumberTooWide,
    LogicRefused,
    UnknownSort,
    UnknownSymbol,
    Redeclared,
    Arity,
    SortMismatch,
    SortArity,
    BoolArgument,
    PopTooMany,
    TooLarge,
    NoModel,
    TooLong,
    NotYet,
}

impl Reason {
    /// The number of the reason in a reply.
    pub fn number(self) -> u64
        ensures { result ≡ reason_number self }
    {
        match self {
            Reason::Lexical => 1,
            Reason::Unbalanced => 2,
            Reason::TooDeep => 3,
            Reason::UnexpectedEnd => 4,
            Reason::UnknownCommand => 5,
            Reason::BadShape => 6,
            Reason::NumberTooWide => 7,
            Reason::LogicRefused => 8,
            Reason::UnknownSort => 9,
            Reason::UnknownSymbol => 10,
            Reason::Redeclared => 11,
            Reason::Arity => 12,
            Reason::SortMismatch => 13,
            Reason::SortArity => 14,
            Reason::BoolArgument => 15,
            Reason::PopTooMany => 16,
            Reason::TooLarge => 17,
            Reason::NoModel => 18,
            Reason::TooLong => 19,
            Reason::NotYet => 20,
        }
    }

    /// The words of the reason in a reply.
    pub fn text(self) -> &'static str
        ensures { result.now ≡ reason_text self }
    {
        match self {
            Reason::Lexical => "bad token",
            Reason::Unbalanced => "unbalanced parenthesis",
            Reason::TooDeep => "nested too deeply",
            Reason::UnexpectedEnd => "unexpected end",
            Reason::UnknownCommand => "unknown command",
            Reason::BadShape => "bad shape",
            Reason::NumberTooWide => "number too wide",
            Reason::LogicRefused => "logic refused",
            Reason::UnknownSort => "unknown sort",
            Reason::UnknownSymbol => "unknown symbol",
            Reason::Redeclared => "name already taken",
            Reason::Arity => "wrong number of arguments",
            Reason::SortMismatch => "wrong sort",
            Reason::SortArity => "sort arity refused",
            Reason::BoolArgument => "Bool refused here",
            Reason::PopTooMany => "pop below the first level",
            Reason::TooLarge => "too large",
            Reason::NoModel => "no model",
            Reason::TooLong => "script too long",
            Reason::NotYet => "not yet",
        }
    }
}

/// A refusal with its place.
#[derive(Clone, Copy, Debug, PartialEq, Eq)]
pub struct Refusal {
    pub reason: Reason,
    pub at: Place,
}

/// Why a call on a text or a command fails.
#[derive(Clone, Copy, Debug, PartialEq, Eq)]
pub enum Fail {
    Refused(Refusal),
    Memory,
}

impl From<AllocError> for Fail {
    ghost use Rattle.std.specs.Prelude.{◌≡◌};
    ghost use Rattle.fm_base.specs.declared.refusal.Fail.TheVariants as fail;

    ghost from_gives = { λ _ e. e ≡ fail.Memory };

    fn from(_error: AllocError) -> Fail {
        Fail::Memory
    }
}

impl<T: Drop> From<AllocFailed<T>> for Fail {
    ghost use Rattle.std.specs.Prelude.{◌≡◌};
    ghost use Rattle.fm_base.specs.declared.refusal.Fail.TheVariants as fail;

    ghost from_gives = { λ _ e. e ≡ fail.Memory };

    fn from(_error: AllocFailed<T>) -> Fail {
        Fail::Memory
    }
}
