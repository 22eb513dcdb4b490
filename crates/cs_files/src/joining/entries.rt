//! The entries of a table of a concatenation.
ghost use Rattle.std.specs.Prelude.{◌≡◌, ◌≢◌, ◌<◌, ◌++◌, [], ℕ, All, IfOk, IfSome, IsTrue, List, OnOk, false, filter};
ghost use Rattle.std.specs.Prelude.{filter_map, if◌then◌else◌, is_none, length, replicate};
ghost use Rattle.cs_wire_entries.specs.declared.entry.Entry.{Entry as EntryData};
ghost use Rattle.cs_wire.specs.Entry.{entry_bytes, key_of};
ghost use Rattle.cs_wire.specs.Changeset.{GroupData, entries_bytes};
ghost use Rattle.cs_file_scan.specs.KeyedFile.{AreKeyed, count_of};
ghost use Rattle.cs_file_scan.specs.Tables.{EntriesLeft};
ghost use Rattle.cs_wire.specs.Views.{IsIndexWhere};
ghost use Rattle.cs_group.specs.Joining.{entry_key, is_new, joined_entries, joined_entry, key_marks, left_of, merged};
ghost use Rattle.cs_group.specs.Joining.{outcome};
ghost use Rattle.cs_group.specs.Marks.{AreApart, AreMet};
ghost use Rattle.cs_files.specs.Writing.{some_bytes};

use cs_file_scan::{KeyedEntries, Tables};
use cs_group::{Merged, merge_refs};
use cs_value::NoMemory;
use cs_wire::EntryRef;
use std::alloc::Global;

/// Appends the concatenation of the remaining entries of two tables.
pub(crate) fn write_joined<'a>(
    alloc: Global,
    out: &mut Vec<u8>,
    firsts: Tables<'a>,
    seconds: Tables<'a>,
) -> Result<(), NoMemory>
    requires agree { key_marks seconds.flags ≡ key_marks firsts.flags }
    ensures { (entries others : List EntryData) (groups behind : List GroupData)
        → EntriesLeft firsts.entry entries groups → EntriesLeft seconds.entry others behind
        → AreApart (record { flags = seconds.entry.flags; entries = others })
        → OnOk result (out.new.items ≡ out.old.items
        ++ entries_bytes (joined_entries firsts.entry.flags entries others)) }
{
    let keyed = KeyedEntries::list(alloc, seconds)?;
    let met = write_kept(alloc, out, firsts, &keyed)?;
    write_new(out, &keyed, met.as_slice())?;
    Ok(())
}

/// Appends the merged remaining entries of the first table. Returns which entries of the second have the key of one.
fn write_kept<'a>(
    alloc: Global,
    out: &mut Vec<u8>,
    firsts: Tables<'a>,
    seconds: &KeyedEntries<'a>,
) -> Result<Vec<bool>, NoMemory>
    requires agree { key_marks seconds.now.flags ≡ key_marks firsts.flags }
    ensures written { (entries others : List EntryData) (groups behind : List GroupData)
        → EntriesLeft firsts.entry entries groups → AreKeyed seconds.now others behind
        → AreApart (record { flags = seconds.now.flags; entries = others })
        → IfOk result (λ _. out.new.items ≡ out.old.items
        ++ entries_bytes (filter_map (outcome (entry_key firsts.entry.flags) (joined_entry firsts.entry.flags) others)
        entries)) }
    ensures met { (entries others : List EntryData) (groups behind : List GroupData)
        → EntriesLeft firsts.entry entries groups → AreKeyed seconds.now others behind
        → AreApart (record { flags = seconds.now.flags; entries = others })
        → IfOk result (λ met. AreMet (entry_key firsts.entry.flags) met.items entries others) }
    ensures width { IfOk result (λ met. length met.items ≡ count_of seconds.now) }
{
    let mut met = unmarked(alloc, seconds.len())?;
    let mut left = firsts;
    'entries: while let Some(entry) = left.next_entry() {
        if let Some(index) = write_outcome(alloc, out, &entry, seconds)? {
            met[index] = true;
        }
    }
    Ok(met)
}

/// Appends the entries of the second table that are not marked.
fn write_new<'a>(
    out: &mut Vec<u8>,
    seconds: &KeyedEntries<'a>,
    met: &[bool],
) -> Result<(), NoMemory>
    requires width { length met.now ≡ count_of seconds.now }
    ensures { (flags : List ℕ) (firsts others : List EntryData) (behind : List GroupData)
        → AreKeyed seconds.now others behind → AreMet (entry_key flags) met.now firsts others
        → OnOk result (out.new.items ≡ out.old.items
        ++ entries_bytes (filter (is_new (entry_key flags) firsts) others)) }
{
    for index in 0..seconds.len() {
        write_unmet(out, seconds.bytes(index), met[index])?;
    }
    Ok(())
}

/// Appends the bytes of an entry if it is not marked.
fn write_unmet(out: &mut Vec<u8>, entry: &[u8], met: bool) -> Result<(), NoMemory>
    ensures { OnOk result (out.new.items ≡ out.old.items ++ (if met then [] else entry.now)) }
{
    if met {
        return Ok(());
    }
    out.extend_from_slice(entry)?;
    Ok(())
}

/// Returns this many marks, none of them set.
fn unmarked(alloc: Global, count: usize) -> Result<Vec<bool>, NoMemory>
    ensures { IfOk result (λ met. met.items ≡ replicate count false) }
{
    Ok(Vec::from_elem(alloc, false, count)?)
}

/// Appends an entry, merged with the one of its key in the second table. Returns the index of that one, if there is
/// one.
fn write_outcome<'a>(
    alloc: Global,
    out: &mut Vec<u8>,
    entry: &EntryRef<'a>,
    seconds: &KeyedEntries<'a>,
) -> Result<Option<usize>, NoMemory>
    requires agree { key_marks seconds.now.flags ≡ key_marks entry.now.flags }
    ensures written { (others : List EntryData) (behind : List GroupData) → AreKeyed seconds.now others behind
        → AreApart (record { flags = seconds.now.flags; entries = others })
        → IfOk result (λ _. out.new.items ≡ out.old.items
        ++ some_bytes entry_bytes (outcome (entry_key entry.now.flags) (joined_entry entry.now.flags) others
        entry.now.entry)) }
    ensures within { IfOk result (λ index. IfSome index (λ p. p < count_of seconds.now)) }
    ensures found { (others : List EntryData) (behind : List GroupData) → AreKeyed seconds.now others behind
        → IfOk result (λ index. IfSome index (IsIndexWhere (λ e. key_of seconds.now.flags e.change ≡ key_of
        entry.now.flags entry.now.entry.change) others)) }
    ensures absent { (others : List EntryData) (behind : List GroupData) → AreKeyed seconds.now others behind
        → IfOk result (λ index. IsTrue (is_none index)
        → All (λ e. key_of seconds.now.flags e.change ≢ key_of entry.now.flags entry.now.entry.change) others) }
{
    let key = entry.key_slice(alloc)?;
    match seconds.find(alloc, key.as_slice())? {
        None => {
            entry.write_to(out)?;
            Ok(None)
        }
        Some(found) => {
            write_merged(alloc, out, entry, &found.entry)?;
            Ok(Some(found.index))
        }
    }
}

/// Appends the merge of an entry and a later one with the same key.
fn write_merged<'a>(
    alloc: Global,
    out: &mut Vec<u8>,
    first: &EntryRef<'a>,
    second: &EntryRef<'a>,
) -> Result<(), NoMemory>
    requires agree { key_marks second.now.flags ≡ key_marks first.now.flags }
    requires one_key { key_of first.now.flags first.now.entry.change ≡ key_of first.now.flags second.now.entry.change }
    ensures { OnOk result (out.new.items ≡ out.old.items
        ++ some_bytes entry_bytes (left_of first.now.entry (merged first.now.flags first.now.entry second.now.entry))) }
{
    match merge_refs(alloc, first, second)? {
        Merged::Keep => first.write_to(out),
        Merged::Becomes(entry) => EntryRef::from_entry(first.flags(), &entry).write_to(out),
        Merged::Vanish => Ok(()),
    }
}
