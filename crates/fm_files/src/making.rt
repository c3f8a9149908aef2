ghost use Rattle.std.specs.Prelude.{ℕ, List, string_bytes, IfOk, OnOk};
ghost use Rattle.std.specs.BTreeMap.{get_by_text};
ghost use Rattle.fm_files.specs.Memory.{content_of, is_named};
ghost use Rattle.fm_files.specs.Entries.{EachGainsSink, EachGainsSource, IsFresh, OneGainsSink};

use crate::entry::Entry;
use fm_base::Memory;
use std::alloc::Global;
use std::collections::BTreeMap;

/// Lets the name be read, unless it may be read already.
fn add_source(
    entries: &mut BTreeMap<String, Entry>,
    name: String,
    bytes: Vec<u8>,
) -> Result<(), Memory>
    ensures { OnOk result (EachGainsSource (get_by_text entries.old) (get_by_text entries.new) (string_bytes name) bytes.items) }
{
    if entries.contains_key(name.as_str()) {
        return Ok(());
    }
    entries.insert(name, Entry::with_source(bytes))?;
    Ok(())
}

/// An entry for each name of a file. Where a name stands twice, its first content counts.
pub fn entries_of(
    alloc: Global,
    files: Vec<(String, Vec<u8>)>,
) -> Result<BTreeMap<String, Entry>, Memory>
    ensures { IfOk result (λ m. (q : List ℕ) → IsFresh (get_by_text m q) (content_of files.items q)) }
{
    let mut entries = BTreeMap::new(alloc);
    for (name, bytes) in files {
        add_source(&mut entries, name, bytes)?;
    }
    Ok(entries)
}

/// Lets the name be written, with memory reserved for the room.
fn add_sink(
    alloc: Global,
    entries: &mut BTreeMap<String, Entry>,
    name: String,
    room: usize,
) -> Result<(), Memory>
    ensures { OnOk result (OneGainsSink (get_by_text entries.old) (get_by_text entries.new) (string_bytes name) room) }
{
    match entries.get_mut(name.as_str()) {
        Some(entry) => entry.give_sink(alloc, room)?,
        None => {
            entries.insert(name, Entry::with_sink(alloc, room)?)?;
        }
    }
    Ok(())
}

/// Lets each of the names be written.
pub fn add_sinks(
    alloc: Global,
    entries: &mut BTreeMap<String, Entry>,
    outs: Vec<String>,
    room: usize,
) -> Result<(), Memory>
    ensures { OnOk result (EachGainsSink (get_by_text entries.old) (get_by_text entries.new) (is_named outs.items) room) }
{
    for name in outs {
        add_sink(alloc, entries, name, room)?;
    }
    Ok(())
}
