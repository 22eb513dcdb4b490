//! The inverse of a file, written as the file is checked, or table by table.
ghost use Rattle.std.specs.Prelude.{◌≡◌, ◌≤◌, ◌++◌, [], List, OnOk, map};
ghost use Rattle.cs_wire_entries.specs.declared.entry.Entry.{Entry as EntryData};
ghost use Rattle.cs_wire.specs.Changeset.{GroupData, entries_bytes, file_bytes, header_bytes};
ghost use Rattle.cs_wire.specs.Entry.{entry_bytes};
ghost use Rattle.cs_file_scan.specs.Tables.{EntriesLeft};
ghost use Rattle.cs_wire.specs.Views.{inverse_entry};
ghost use Rattle.cs_group.specs.Inverse.{inverse_group};

use cs_file_scan::{Tables, Visit};
use cs_value::NoMemory;
use cs_wire::{EntryRef, HeaderRef};

/// Appends the inverse of a file as the file is checked.
#[derive(Drop)]
pub(crate) struct Inverting {
    pub(crate) out: Vec<u8>,
}

impl Visit for Inverting {
    ghost written = { λ inverting. inverting.out.items };

    ghost header_text = { header_bytes };

    ghost entry_text = { λ flags entry. entry_bytes (inverse_entry flags entry) };

    fn visit_header(&mut self, header: HeaderRef<'_>) -> Result<(), NoMemory> {
        header.write_to(&mut self.out)
    }

    fn visit_entry(&mut self, seen: &EntryRef<'_>, bytes: &[u8]) -> Result<(), NoMemory> {
        seen.write_inverse_to(bytes, &mut self.out)
    }
}

/// Appends the inverses of the remaining tables.
pub(crate) fn write_inverse(out: &mut Vec<u8>, tables: Tables<'_>) -> Result<(), NoMemory>
    ensures { (groups : List GroupData) → EntriesLeft tables.entry [] groups
        → OnOk result (out.new.items ≡ out.old.items ++ file_bytes (map inverse_group groups)) }
{
    let mut left = tables;
    'tables: while let Some(header) = left.next_table() {
        header.write_to(out)?;
        write_entries(out, &mut left)?;
    }
    Ok(())
}

/// Appends the inverses of the remaining entries of the open table.
fn write_entries(out: &mut Vec<u8>, tables: &mut Tables<'_>) -> Result<(), NoMemory>
    ensures written { (entries : List EntryData) (groups : List GroupData) → EntriesLeft tables.old entries groups
        → OnOk result (out.new.items ≡ out.old.items ++ entries_bytes (map (inverse_entry tables.old.flags) entries)) }
    ensures left { (entries : List EntryData) (groups : List GroupData) → EntriesLeft tables.old entries groups
        → OnOk result (EntriesLeft tables.new [] groups) }
    ensures ahead { tables.old.place ≤ tables.new.place }
    ensures file { tables.new.file ≡ tables.old.file }
{
    'entries: while let Some(entry) = tables.next_entry() {
        entry.inverted().write_to(out)?;
    }
    Ok(())
}
