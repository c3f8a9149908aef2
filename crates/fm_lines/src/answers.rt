ghost use Rattle.std.specs.Prelude.{◌≡◌, take, IfOk};
ghost use Rattle.fm_cert.specs.declared.block.Claim.{Claim as TheClaim};
ghost use Rattle.fm_lines.specs.Answers.{block_of, with_first_tables};

use fm_base::{Interp, Memory, Table};
use fm_cert::{Block, Claim, Line};
use sqlite_items::Items;
use std::alloc::Global;

fn copy_exceptions(
    alloc: Global,
    except: &[(Items<u64>, u64)],
) -> Result<Vec<(Items<u64>, u64)>, Memory>
    ensures { IfOk result (λ v. v.items ≡ except.now) }
{
    let mut copied = Vec::new(alloc);
    for exception in except {
        let tuple = Items::from_slice(alloc, exception.0.as_slice())?;
        copied.push((tuple, exception.1))?;
    }
    Ok(copied)
}

fn copy_table(alloc: Global, table: &Table) -> Result<Table, Memory>
    ensures { IfOk result (λ t. t ≡ table.now) }
{
    let except = copy_exceptions(alloc, table.except.as_slice())?;
    Ok(Table {
        default: table.default,
        except: Items::from_vec(except),
    })
}

// The tables of the first symbols.
fn first_tables(alloc: Global, tables: &[Table], count: usize) -> Result<Vec<Table>, Memory>
    ensures { IfOk result (λ v. v.items ≡ take count tables.now) }
{
    let mut copied = Vec::new(alloc);
    for place in 0..tables.len().min(count) {
        let table = copy_table(alloc, &tables[place])?;
        copied.push(table)?;
    }
    Ok(copied)
}

/// The block of a search that found no model, with the lines that show it. It has the number 0.
pub fn unsat_block(lines: Vec<Line>) -> Block
    ensures { result ≡ block_of lines.items TheClaim.Unsat }
{
    Block {
        number: 0,
        lines: Items::from_vec(lines),
        claim: Claim::Unsat,
    }
}

/// The block of a search that found a model, with the lines that show that no sum is smaller. Of the interpretation it has all
/// sizes and the tables of the first `user` symbols, which are the declared functions. It has the number 0.
pub fn sat_block(
    alloc: Global,
    lines: Vec<Line>,
    sum: u64,
    interp: &Interp,
    user: usize,
) -> Result<Block, Memory>
    ensures { IfOk result (λ b. b ≡ block_of lines.items (TheClaim.Sat sum (with_first_tables user interp.now))) }
{
    let sizes = Items::from_slice(alloc, interp.sizes.as_slice())?;
    let tables = first_tables(alloc, interp.tables.as_slice(), user)?;
    let model = Interp {
        sizes,
        tables: Items::from_vec(tables),
    };
    Ok(Block {
        number: 0,
        lines: Items::from_vec(lines),
        claim: Claim::Sat { sum, model },
    })
}
