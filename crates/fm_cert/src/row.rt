ghost use Rattle.std.specs.Prelude.{◌≡◌};
ghost use Rattle.fm_cert.specs.Rows.{after, may_end};

use crate::block::Line;
use sqlite_items::Items;

// One line of a certificate's text behind the header.
#[derive(Drop)]
pub(crate) enum Row {
    Begin(u64),
    Body(Line),
    Unsat,
    Sat(u64),
    Unknown(u64, u64),
    Sizes(Items<u64>),
    Default(u64),
    Exception(Items<u64>, u64),
}

// What may come next: a block, or the end; a line of a block, or its ending; the sizes of a model; its first table; an
// exception, or a further table. Behind a model a block may come, or the end.
#[derive(Clone, Copy, Debug, PartialEq, Eq)]
pub(crate) enum Next {
    Blocks,
    Lines,
    Sizes,
    Tables,
    Exceptions,
}

impl Next {
    /// Whether the text may end here.
    pub fn may_end(self) -> bool
        ensures { result ≡ may_end self }
    {
        match self {
            Next::Blocks | Next::Tables | Next::Exceptions => true,
            Next::Lines | Next::Sizes => false,
        }
    }

    /// What may come behind this line, if it may stand here.
    pub fn after(self, row: &Row) -> Option<Next>
        ensures { result ≡ after self row.now }
    {
        match self {
            Next::Blocks => match row {
                Row::Begin(_) => Some(Next::Lines),
                _ => None,
            },
            Next::Lines => match row {
                Row::Body(_) => Some(Next::Lines),
                Row::Unsat | Row::Unknown(_, _) => Some(Next::Blocks),
                Row::Sat(_) => Some(Next::Sizes),
                _ => None,
            },
            Next::Sizes => match row {
                Row::Sizes(_) => Some(Next::Tables),
                _ => None,
            },
            Next::Tables => match row {
                Row::Begin(_) => Some(Next::Lines),
                Row::Default(_) => Some(Next::Exceptions),
                _ => None,
            },
            Next::Exceptions => match row {
                Row::Begin(_) => Some(Next::Lines),
                Row::Default(_) | Row::Exception(_, _) => Some(Next::Exceptions),
                _ => None,
            },
        }
    }
}

// The same, where the line is let go.
pub(crate) fn place_after(place: Next, row: Row) -> Option<Next>
    ensures { result ≡ after place row }
{
    place.after(&row)
}
