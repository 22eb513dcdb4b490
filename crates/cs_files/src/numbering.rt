//! The file of a changeset with numbered key columns.
ghost use Rattle.std.specs.Prelude.{◌≡◌, ◌++◌, [], List, OnOk};
ghost use Rattle.cs_wire.specs.Changeset.{GroupData, IsHeader, file_bytes, header_bytes};
ghost use Rattle.cs_wire.specs.Headers.{header_of};
ghost use Rattle.cs_file_scan.specs.Tables.{EntriesLeft};
ghost use Rattle.cs_group.specs.Numbering.{numbered, numbered_header};

use crate::joining::tables::write_entries;
use cs_file_scan::Tables;
use cs_group::number_flags;
use cs_value::NoMemory;
use cs_wire::HeaderRef;
use std::alloc::Global;

/// Appends the remaining tables with numbered key columns.
pub(crate) fn write_numbered(
    alloc: Global,
    out: &mut Vec<u8>,
    tables: Tables<'_>,
) -> Result<(), NoMemory>
    ensures { (groups : List GroupData) → EntriesLeft tables.entry [] groups
        → OnOk result (out.new.items ≡ out.old.items ++ file_bytes (numbered groups)) }
{
    let mut left = tables;
    'tables: while let Some(header) = left.next_table() {
        write_numbered_header(alloc, out, header)?;
        write_entries(out, &mut left)?;
    }
    Ok(())
}

/// Appends the header of a table with numbered key columns.
fn write_numbered_header(
    alloc: Global,
    out: &mut Vec<u8>,
    header: HeaderRef<'_>,
) -> Result<(), NoMemory>
    requires { IsHeader (header_of header) }
    ensures { OnOk result (out.new.items ≡ out.old.items ++ header_bytes (numbered_header (header_of header.entry))) }
{
    let flags = number_flags(alloc, header.flags)?;
    let numbered = HeaderRef {
        name: header.name,
        flags: &flags,
    };
    numbered.write_to(out)
}
