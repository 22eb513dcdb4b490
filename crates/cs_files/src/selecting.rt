//! The tables of a file that are named.
ghost use Rattle.std.specs.Prelude.{◌≡◌, ◌≤◌, ◌++◌, [], IfErr, IfOk, List, OnOk, if◌then◌else◌, length};
ghost use Rattle.cs_value.specs.Refusals.{Refuses};
ghost use Rattle.cs_wire_entries.specs.declared.entry.Entry.{Entry as EntryData};
ghost use Rattle.cs_wire.specs.Changeset.{GroupData, IsHeader, entries_bytes, file_bytes, header_bytes};
ghost use Rattle.cs_wire.specs.Headers.{header_of};
ghost use Rattle.cs_wire.specs.ReadFaults.{ReadFails};
ghost use Rattle.cs_file_scan.specs.Tables.{EntriesLeft};
ghost use Rattle.cs_files.specs.Selecting.{Selects, is_among as is_among_in, selected};

use cs_file_scan::Tables;
use cs_value::NoMemory;
use cs_wire::{HeaderRef, ReadError};
use std::alloc::Global;

/// Returns the file of the tables whose names are in a buffer, in the order of the file. In the buffer a zero byte is
/// between two names, and may be after the last. A name that the file does not have is ignored.
///
/// # Errors
///
/// `Fault` if the bytes are not the file of a changeset, with the fault's kind and byte offset. `NoMemory` if memory
/// runs out.
pub fn select_bytes(alloc: Global, file: &[u8], names: &[u8]) -> Result<Vec<u8>, ReadError>
    ensures selected { IfOk result (λ out. Selects names.now file.now out.items) }
    ensures length { IfOk result (λ out. length out.items ≤ length file.now) }
    ensures refused { IfErr result (Refuses (λ f. ReadFails file.now f.kind f.place)) }
{
    let tables = Tables::read(alloc, file)?;
    let mut out = Vec::with_capacity(alloc, file.len())?;
    write_selected(&mut out, tables, names)?;
    Ok(out)
}

/// Appends the remaining tables that are named.
fn write_selected(out: &mut Vec<u8>, tables: Tables<'_>, names: &[u8]) -> Result<(), NoMemory>
    ensures { (groups : List GroupData) → EntriesLeft tables.entry [] groups
        → OnOk result (out.new.items ≡ out.old.items ++ file_bytes (selected names.now groups)) }
{
    let mut left = tables;
    'tables: while let Some(header) = left.next_table() {
        write_if_named(out, header, &mut left, names)?;
    }
    Ok(())
}

/// Appends the open table, whose header this is, if it is named.
fn write_if_named(
    out: &mut Vec<u8>,
    header: HeaderRef<'_>,
    tables: &mut Tables<'_>,
    names: &[u8],
) -> Result<(), NoMemory>
    requires { IsHeader (header_of header) }
    ensures written { (entries : List EntryData) (groups : List GroupData) → EntriesLeft tables.old entries groups
        → OnOk result (out.new.items ≡ out.old.items ++ (if is_among_in names.now header.entry.name.now
        then header_bytes (header_of header.entry) ++ entries_bytes entries else [])) }
    ensures left { (entries : List EntryData) (groups : List GroupData) → EntriesLeft tables.old entries groups
        → OnOk result ((others : List EntryData) × EntriesLeft tables.new others groups) }
    ensures ahead { tables.old.place ≤ tables.new.place }
    ensures file { tables.new.file ≡ tables.old.file }
{
    if !is_among(names, header.name.as_bytes()) {
        return Ok(());
    }
    header.write_to(out)?;
    write_entries(out, tables)
}

/// Appends the remaining entries of the open table.
fn write_entries(out: &mut Vec<u8>, tables: &mut Tables<'_>) -> Result<(), NoMemory>
    ensures written { (entries : List EntryData) (groups : List GroupData) → EntriesLeft tables.old entries groups
        → OnOk result (out.new.items ≡ out.old.items ++ entries_bytes entries) }
    ensures left { (entries : List EntryData) (groups : List GroupData) → EntriesLeft tables.old entries groups
        → OnOk result (EntriesLeft tables.new [] groups) }
    ensures ahead { tables.old.place ≤ tables.new.place }
    ensures file { tables.new.file ≡ tables.old.file }
{
    'entries: while let Some(entry) = tables.next_entry() {
        entry.write_to(out)?;
    }
    Ok(())
}

/// Returns whether a name is in a buffer of names.
fn is_among(names: &[u8], name: &[u8]) -> bool
    ensures { result ≡ is_among_in names.now name.now }
{
    names.split(|byte| *byte == 0).any(|part| part == name)
}
