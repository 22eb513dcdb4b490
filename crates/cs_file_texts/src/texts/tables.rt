//! Changesets in a file, printed as the file is read.
ghost use Rattle.std.specs.Prelude.{◌≡◌, ◌≤◌, ◌++◌, [], List, OnOk};
ghost use Rattle.std.specs.List.{flat_map};
ghost use Rattle.cs_wire_entries.specs.declared.entry.Entry.{Entry as EntryData};
ghost use Rattle.cs_wire.specs.Changeset.{GroupData};
ghost use Rattle.cs_wire.specs.Headers.{header_of};
ghost use Rattle.cs_file_scan.specs.Tables.{EntriesLeft};
ghost use Rattle.cs_file_texts.specs.Gathering.{Gathers};
ghost use Rattle.cs_file_texts.specs.Forms.{header_part, entry_part, form_text};

use crate::fault::OutputFault;
use crate::gather::Gather;
use crate::texts::form::{Form, add_entry, add_header};
use crate::told::Told;
use cs_file_scan::Tables;
use cs_wire::HeaderRef;
use std::io::Write;

/// Appends the remaining entries of the open table, which has this name.
fn add_entries<W: Write>(
    gather: &mut Gather,
    out: &mut Told<W>,
    form: Form,
    name: &str,
    tables: &mut Tables<'_>,
) -> Result<(), OutputFault>
    ensures gathered { (entries : List EntryData) (groups : List GroupData) → EntriesLeft tables.old entries groups
        → Gathers W.contents result gather.old gather.new out.old out.new (flat_map (entry_part form name.now) entries) }
    ensures left { (entries : List EntryData) (groups : List GroupData) → EntriesLeft tables.old entries groups
        → OnOk result (EntriesLeft tables.new [] groups) }
    ensures ahead { tables.old.place ≤ tables.new.place }
    ensures file { tables.new.file ≡ tables.old.file }
{
    'entries: while let Some(entry) = tables.next_entry() {
        add_entry(gather, out, form, name, &entry)?;
    }
    Ok(())
}

/// Appends the open table, which has this header.
fn add_table<W: Write>(
    gather: &mut Gather,
    out: &mut Told<W>,
    form: Form,
    header: HeaderRef<'_>,
    tables: &mut Tables<'_>,
) -> Result<(), OutputFault>
    ensures gathered { (entries : List EntryData) (groups : List GroupData) → EntriesLeft tables.old entries groups
        → Gathers W.contents result gather.old gather.new out.old out.new
        (header_part form (header_of header.entry) ++ flat_map (entry_part form header.entry.name.now) entries) }
    ensures left { (entries : List EntryData) (groups : List GroupData) → EntriesLeft tables.old entries groups
        → OnOk result (EntriesLeft tables.new [] groups) }
    ensures ahead { tables.old.place ≤ tables.new.place }
    ensures file { tables.new.file ≡ tables.old.file }
{
    add_header(gather, out, form, header)?;
    add_entries(gather, out, form, header.name, tables)
}

/// Appends the tables of a file.
pub(super) fn add_tables<W: Write>(
    gather: &mut Gather,
    out: &mut Told<W>,
    form: Form,
    tables: Tables<'_>,
) -> Result<(), OutputFault>
    ensures { (groups : List GroupData) → EntriesLeft tables.entry [] groups
        → Gathers W.contents result gather.old gather.new out.old out.new (form_text form groups) }
{
    let mut left = tables;
    'tables: while let Some(header) = left.next_table() {
        add_table(gather, out, form, header, &mut left)?;
    }
    Ok(())
}
