ghost use Rattle.std.specs.Prelude.{◌≡◌, ◌<◌, length, slice_get, Some, IfOk};
ghost use Rattle.fm_build.specs.Entries.{AreEntries};
ghost use Rattle.fm_build.specs.Written.{AreWritten, IsWritten, first_value as first_value_of, written as written_of};

use crate::entries::entries_of;
use fm_bank::Bank;
use fm_base::{Memory, SymId, Table, Ty};
use sqlite_items::Items;
use std::alloc::Global;

fn first_value(entries: &[(Items<u64>, u64)]) -> u64
    ensures { result ≡ first_value_of entries.now }
{
    match entries.first() {
        Some(entry) => entry.1,
        None => 0,
    }
}

// A constant's table has its value, another one 0 and the entries.
fn written(alloc: Global, args: &[Ty], entries: Vec<(Items<u64>, u64)>) -> Table
    ensures { result ≡ written_of args.now entries.items }
{
    match args.first() {
        None => Table {
            default: first_value(entries.as_slice()),
            except: Items::new(alloc),
        },
        Some(_) => Table {
            default: 0,
            except: Items::from_vec(entries),
        },
    }
}

fn table(
    alloc: Global,
    bank: &Bank,
    marks: &[bool],
    elements: &[u64],
    symbol: SymId,
    args: &[Ty],
) -> Result<Table, Memory>
    ensures { IfOk result (IsWritten bank.now marks.now elements.now symbol.0 args.now) }
{
    let entries = entries_of(alloc, bank, marks, elements, symbol)?;
    Ok(written(alloc, args, entries))
}

pub(crate) fn all_tables(
    alloc: Global,
    bank: &Bank,
    marks: &[bool],
    elements: &[u64],
) -> Result<Items<Table>, Memory>
    ensures { IfOk result (AreWritten bank.now marks.now elements.now (length bank.now.sig.ranks)) }
{
    let mut tables = Items::new(alloc);
    for (symbol, rank) in bank.sig().ranks.as_slice().iter().enumerate() {
        let table = table(
            alloc,
            bank,
            marks,
            elements,
            SymId(symbol),
            rank.args.as_slice(),
        )?;
        tables.push(table)?;
    }
    Ok(tables)
}
