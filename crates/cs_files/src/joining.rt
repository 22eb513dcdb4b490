//! The concatenation of two files, written as they are read.
ghost use Rattle.std.specs.Prelude.{◌≡◌, List, IfErr, IfOk};
ghost use Rattle.cs_value.specs.Refusals.{Refuses};
ghost use Rattle.cs_wire.specs.Changeset.{GroupData, IsChangeset, file_bytes};
ghost use Rattle.cs_file_scan.specs.Named.{AreListed};
ghost use Rattle.cs_group.specs.Joining.{AreJoinable, joined};
ghost use Rattle.cs_files.specs.Files.{AreUnjoined};

mod columns;
mod entries;
pub(crate) mod tables;

use crate::fault::{FileFault, ToolFault};
use crate::joining::columns::first_clash;
use crate::joining::tables::{write_kept_tables, write_new_tables};
use cs_file_scan::NamedTables;
use cs_group::SchemaFault;
use std::alloc::Global;

/// Returns the concatenation of two files that were read. Its bytes are allocated once.
///
/// Fails if a table has other columns or another key in the second file, with the index of the first such table there,
/// before it allocates those bytes; and if memory runs out.
pub(crate) fn join_tables<'a>(
    alloc: Global,
    known: &NamedTables<'a>,
    added: &NamedTables<'a>,
    capacity: usize,
) -> Result<Vec<u8>, ToolFault>
    ensures joinable { (groups others : List GroupData) → AreListed known.now groups → AreListed added.now others
        → IsChangeset groups → IsChangeset others
        → IfOk result (λ _. AreJoinable groups others) }
    ensures joined { (groups others : List GroupData) → AreListed known.now groups → AreListed added.now others
        → IsChangeset groups → IsChangeset others
        → IfOk result (λ out. out.items ≡ file_bytes (joined groups others)) }
    ensures refused { (groups others : List GroupData) → AreListed known.now groups → AreListed added.now others
        → IsChangeset groups → IsChangeset others
        → IfErr result (Refuses (AreUnjoined groups others)) }
{
    if let Some(place) = first_clash(known, added) {
        return Err(ToolFault::Fault(FileFault::Schema(SchemaFault { place })));
    }
    let mut out = Vec::with_capacity(alloc, capacity)?;
    write_kept_tables(alloc, &mut out, known, added)?;
    write_new_tables(&mut out, known, added)?;
    Ok(out)
}
