ghost use Rattle.std.specs.Prelude.{◌≡◌, ◌++◌, ◌∷◌, [], true, false, Some, IfOk, IfSome, IfNone, OnOk};
ghost use Rattle.fm_cert.specs.Rows.{after, may_end, rows_of_block};
ghost use Rattle.fm_cert.specs.Blockwise.{begins_block};
ghost use Rattle.fm_cert.specs.Reading.{HasNoPlace, HasTaken, blocks_next, body_row, default_row, ends_at, is_begin, rows_so_far, sizes_row, sum_row, tuple_row, unknown_row, unsat_row};

use crate::block::{Block, Claim, Line};
use crate::row::{Next, Row};
use fm_base::{Interp, Table};
use sqlite_items::Items;
use std::alloc::{AllocError, Global};
use std::mem;

// What was read of a block, and what may come next. `claim` counts where the ending has no model; the last table of a
// model is begun by `default`, and isn't among `tables` yet.
#[derive(Drop)]
pub(crate) struct Reading {
    pub place: Next,
    number: u64,
    lines: Items<Line>,
    claim: Claim,
    sum: u64,
    sizes: Items<u64>,
    tables: Items<Table>,
    default: u64,
    except: Items<(Items<u64>, u64)>,
}

// Whether nothing stands there, or a line that begins a block may.
fn begins_block(rest: &[u8]) -> bool
    ensures { result ≡ begins_block rest.now }
{
    match rest {
        [] => true,
        [first, ..] => *first == b'b',
    }
}

impl Reading {
    /// A block that begins with this line, if it may.
    pub fn begin(alloc: Global, row: Row) -> Option<Reading>
        ensures rows { IfSome result (λ r. rows_so_far r ≡ row ∷ []) }
        ensures next { IfSome result (λ r. after blocks_next row ≡ Some r.place) }
        ensures none { IfNone result (is_begin row ≡ false) }
    {
        match row {
            Row::Begin(number) => Some(Reading {
                place: Next::Lines,
                number,
                lines: Items::new(alloc),
                claim: Claim::Unsat,
                sum: 0,
                sizes: Items::new(alloc),
                tables: Items::new(alloc),
                default: 0,
                except: Items::new(alloc),
            }),
            _ => None,
        }
    }

    /// The block may end here, and what stands behind it isn't of it.
    pub fn ends_at(&self, rest: &[u8]) -> bool
        ensures { result ≡ ends_at self.now.place rest.now }
    {
        self.place.may_end() && begins_block(rest)
    }

    /// Takes one more line of the block, if it may stand here. Another block's first line is refused.
    pub fn add(&mut self, alloc: Global, row: Row) -> Result<bool, AllocError>
        ensures taken { IfOk result (λ b. b ≡ true → HasTaken self.old self.new row) }
        ensures refused { IfOk result (λ b. b ≡ false → is_begin row ≡ false → HasNoPlace self.old row) }
    {
        match row {
            Row::Begin(_number) => Ok(false),
            Row::Body(line) => self.add_line(line),
            Row::Unsat => Ok(self.end_unsat()),
            Row::Sat(sum) => Ok(self.begin_model(sum)),
            Row::Unknown(instances, decisions) => Ok(self.end_unknown(instances, decisions)),
            Row::Sizes(sizes) => Ok(self.set_sizes(alloc, sizes)),
            Row::Default(value) => self.begin_table(alloc, value),
            Row::Exception(tuple, value) => self.add_exception(tuple, value),
        }
    }

    fn add_line(&mut self, line: Line) -> Result<bool, AllocError>
        ensures taken { IfOk result (λ b. b ≡ true → HasTaken self.old self.new (body_row line)) }
        ensures refused { IfOk result (λ b. b ≡ false → HasNoPlace self.old (body_row line)) }
    {
        match self.place {
            Next::Lines => {
                self.lines.push(line)?;
                Ok(true)
            }
            Next::Blocks | Next::Sizes | Next::Tables | Next::Exceptions => Ok(false),
        }
    }

    fn end_unsat(&mut self) -> bool
        ensures taken { result ≡ true → HasTaken self.old self.new unsat_row }
        ensures refused { result ≡ false → HasNoPlace self.old unsat_row }
    {
        match self.place {
            Next::Lines => {
                self.claim = Claim::Unsat;
                self.place = Next::Blocks;
                true
            }
            Next::Blocks | Next::Sizes | Next::Tables | Next::Exceptions => false,
        }
    }

    fn end_unknown(&mut self, instances: u64, decisions: u64) -> bool
        ensures taken { result ≡ true → HasTaken self.old self.new (unknown_row instances decisions) }
        ensures refused { result ≡ false → HasNoPlace self.old (unknown_row instances decisions) }
    {
        match self.place {
            Next::Lines => {
                self.claim = Claim::Unknown {
                    instances,
                    decisions,
                };
                self.place = Next::Blocks;
                true
            }
            Next::Blocks | Next::Sizes | Next::Tables | Next::Exceptions => false,
        }
    }

    fn begin_model(&mut self, sum: u64) -> bool
        ensures taken { result ≡ true → HasTaken self.old self.new (sum_row sum) }
        ensures refused { result ≡ false → HasNoPlace self.old (sum_row sum) }
    {
        match self.place {
            Next::Lines => {
                self.sum = sum;
                self.place = Next::Sizes;
                true
            }
            Next::Blocks | Next::Sizes | Next::Tables | Next::Exceptions => false,
        }
    }

    fn set_sizes(&mut self, alloc: Global, sizes: Items<u64>) -> bool
        ensures taken { result ≡ true → HasTaken self.old self.new (sizes_row sizes) }
        ensures refused { result ≡ false → HasNoPlace self.old (sizes_row sizes) }
    {
        match self.place {
            Next::Sizes => {
                self.sizes = sizes;
                self.tables = Items::new(alloc);
                self.place = Next::Tables;
                true
            }
            Next::Blocks | Next::Lines | Next::Tables | Next::Exceptions => false,
        }
    }

    fn begin_table(&mut self, alloc: Global, value: u64) -> Result<bool, AllocError>
        ensures taken { IfOk result (λ b. b ≡ true → HasTaken self.old self.new (default_row value)) }
        ensures refused { IfOk result (λ b. b ≡ false → HasNoPlace self.old (default_row value)) }
    {
        match self.place {
            Next::Tables => {
                self.default = value;
                self.except = Items::new(alloc);
                self.place = Next::Exceptions;
                Ok(true)
            }
            Next::Exceptions => {
                let except = mem::replace(&mut self.except, Items::new(alloc));
                let default = mem::replace(&mut self.default, value);
                self.tables.push(Table { default, except })?;
                Ok(true)
            }
            Next::Blocks | Next::Lines | Next::Sizes => Ok(false),
        }
    }

    fn add_exception(&mut self, tuple: Items<u64>, value: u64) -> Result<bool, AllocError>
        ensures taken { IfOk result (λ b. b ≡ true → HasTaken self.old self.new (tuple_row tuple value)) }
        ensures refused { IfOk result (λ b. b ≡ false → HasNoPlace self.old (tuple_row tuple value)) }
    {
        match self.place {
            Next::Exceptions => {
                self.except.push((tuple, value))?;
                Ok(true)
            }
            Next::Blocks | Next::Lines | Next::Sizes | Next::Tables => Ok(false),
        }
    }

    /// The block, once it may end.
    pub fn block(self) -> Result<Block, AllocError>
        requires { may_end self.place ≡ true }
        ensures { IfOk result (λ b. rows_of_block b ≡ rows_so_far self) }
    {
        let place = self.place;
        let number = self.number;
        let lines = self.lines;
        let claim = self.claim;
        let sum = self.sum;
        let sizes = self.sizes;
        let mut tables = self.tables;
        match place {
            Next::Blocks | Next::Lines | Next::Sizes => Ok(Block {
                number,
                lines,
                claim,
            }),
            Next::Tables => {
                let model = Interp { sizes, tables };
                let claim = Claim::Sat { sum, model };
                Ok(Block {
                    number,
                    lines,
                    claim,
                })
            }
            Next::Exceptions => {
                let default = self.default;
                let except = self.except;
                tables.push(Table { default, except })?;
                let model = Interp { sizes, tables };
                let claim = Claim::Sat { sum, model };
                Ok(Block {
                    number,
                    lines,
                    claim,
                })
            }
        }
    }
}
