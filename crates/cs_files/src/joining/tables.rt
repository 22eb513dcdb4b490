//! The tables of a concatenation.
ghost use Rattle.std.specs.Prelude.{◌≡◌, ◌≤◌, ◌++◌, [], List, IfSome, OnOk, filter, filter_map};
ghost use Rattle.cs_wire_entries.specs.declared.entry.Entry.{Entry as EntryData};
ghost use Rattle.cs_wire.specs.Changeset.{GroupData, IsChangeset, IsHeader, entries_bytes, file_bytes, group_bytes};
ghost use Rattle.cs_wire.specs.Headers.{header_of};
ghost use Rattle.cs_file_scan.specs.Named.{AreListed};
ghost use Rattle.cs_file_scan.specs.Tables.{EntriesLeft};
ghost use Rattle.cs_group.specs.Joining.{AreJoinable, if_new, is_new, joined_entries, joined_group, key_marks};
ghost use Rattle.cs_group.specs.Joining.{outcome, some_group, table_name, with_text};
ghost use Rattle.cs_group.specs.Marks.{AreApart};
ghost use Rattle.cs_files.specs.Writing.{some_bytes};

use crate::joining::columns::partner_of;
use crate::joining::entries::write_joined;
use cs_file_scan::{NamedTables, Tables};
use cs_value::NoMemory;
use cs_wire::HeaderRef;
use std::alloc::Global;

/// Appends the merged tables of the first file.
pub(crate) fn write_kept_tables<'a>(
    alloc: Global,
    out: &mut Vec<u8>,
    known: &NamedTables<'a>,
    added: &NamedTables<'a>,
) -> Result<(), NoMemory>
    ensures { (groups others : List GroupData) → AreListed known.now groups → AreListed added.now others
        → IsChangeset others → AreJoinable groups others
        → OnOk result (out.new.items ≡ out.old.items
        ++ file_bytes (filter_map (outcome table_name joined_group others) groups)) }
{
    for index in 0..known.len() {
        write_kept_table(alloc, out, &known.header(index), known.open(index), added)?;
    }
    Ok(())
}

/// Appends the tables that only the second file has.
pub(crate) fn write_new_tables<'a>(
    out: &mut Vec<u8>,
    known: &NamedTables<'a>,
    added: &NamedTables<'a>,
) -> Result<(), NoMemory>
    ensures { (groups others : List GroupData) → AreListed known.now groups → IsChangeset groups
        → AreListed added.now others
        → OnOk result (out.new.items ≡ out.old.items ++ file_bytes (filter (is_new table_name groups) others)) }
{
    for index in 0..added.len() {
        write_new_table(out, known, &added.header(index), added.open(index))?;
    }
    Ok(())
}

/// Appends a table of the first file, merged with the one of its name in the second.
fn write_kept_table<'a>(
    alloc: Global,
    out: &mut Vec<u8>,
    header: &HeaderRef<'a>,
    firsts: Tables<'a>,
    added: &NamedTables<'a>,
) -> Result<(), NoMemory>
    requires header { IsHeader (header_of header.now) }
    requires opened { firsts.flags ≡ header.now.flags.now }
    ensures { (entries : List EntryData) (groups others : List GroupData) → EntriesLeft firsts.entry entries groups
        → AreListed added.now others → IsChangeset others
        → IfSome (with_text table_name others header.now.name.now) (λ other. key_marks other.header.flags ≡
        key_marks header.now.flags.now)
        → OnOk result (out.new.items ≡ out.old.items
        ++ some_bytes group_bytes (outcome table_name joined_group others (record {
          header = header_of header.now;
          entries = entries;
        }))) }
{
    match partner_of(added, header) {
        None => write_table(out, header, firsts),
        Some(seconds) => write_both(alloc, out, header, firsts, seconds),
    }
}

/// Appends a table of the second file if the first has none of its name.
fn write_new_table<'a>(
    out: &mut Vec<u8>,
    known: &NamedTables<'a>,
    header: &HeaderRef<'a>,
    tables: Tables<'a>,
) -> Result<(), NoMemory>
    requires { IsHeader (header_of header.now) }
    ensures { (entries : List EntryData) (groups others : List GroupData) → AreListed known.now groups
        → IsChangeset groups → EntriesLeft tables.entry entries others
        → OnOk result (out.new.items ≡ out.old.items
        ++ some_bytes group_bytes (if_new table_name groups (record {
          header = header_of header.now;
          entries = entries;
        }))) }
{
    match known.find(header.name) {
        None => write_table(out, header, tables),
        Some(_) => Ok(()),
    }
}

/// Appends a table unchanged, with this header.
fn write_table<'a>(
    out: &mut Vec<u8>,
    header: &HeaderRef<'a>,
    tables: Tables<'a>,
) -> Result<(), NoMemory>
    requires { IsHeader (header_of header.now) }
    ensures { (entries : List EntryData) (groups : List GroupData) → EntriesLeft tables.entry entries groups
        → OnOk result (out.new.items ≡ out.old.items
        ++ group_bytes (record { header = header_of header.now; entries = entries })) }
{
    header.write_to(out)?;
    let mut left = tables;
    write_entries(out, &mut left)
}

/// Appends the remaining entries of the open table.
pub(crate) fn write_entries(out: &mut Vec<u8>, tables: &mut Tables<'_>) -> Result<(), NoMemory>
    ensures written { (entries : List EntryData) (groups : List GroupData) → EntriesLeft tables.old entries groups
        → OnOk result (out.new.items ≡ out.old.items ++ entries_bytes entries) }
    ensures left { (entries : List EntryData) (groups : List GroupData) → EntriesLeft tables.old entries groups
        → OnOk result (EntriesLeft tables.new [] groups) }
    ensures ahead { tables.old.place ≤ tables.new.place }
    ensures file { tables.new.file ≡ tables.old.file }
{
    'entries: while let Some(entry) = tables.next_entry() {
        entry.write_to(out)?;
    }
    Ok(())
}

/// Appends the concatenation of two tables of one name, if it has an entry.
fn write_both<'a>(
    alloc: Global,
    out: &mut Vec<u8>,
    header: &HeaderRef<'a>,
    firsts: Tables<'a>,
    seconds: Tables<'a>,
) -> Result<(), NoMemory>
    requires header { IsHeader (header_of header.now) }
    requires agree { key_marks seconds.flags ≡ key_marks firsts.flags }
    ensures { (entries others : List EntryData) (groups behind : List GroupData)
        → EntriesLeft firsts.entry entries groups → EntriesLeft seconds.entry others behind
        → AreApart (record { flags = seconds.entry.flags; entries = others })
        → OnOk result (out.new.items ≡ out.old.items
        ++ some_bytes group_bytes (some_group (header_of header.now) (joined_entries firsts.entry.flags entries
        others))) }
{
    let start = out.len();
    header.write_to(out)?;
    let entries_start = out.len();
    write_joined(alloc, out, firsts, seconds)?;
    if out.len() == entries_start {
        out.truncate(start);
    }
    Ok(())
}
