//! What tables note, as writes.
ghost use Rattle.std.specs.Prelude.{◌≡◌, ◌++◌, map, IfOk, OnOk};
ghost use Rattle.cs_rows.specs.Editing.{written_of};
ghost use Rattle.cs_session_notes.specs.Merging.{all_noted, noted_writes};
ghost use Rattle.cs_session_notes.specs.Views.{attached_of};

use crate::attached::Attached;
use crate::tables::copy_of_row;
use cs_rows::Written;
use cs_value::NoMemory;
use std::alloc::Global;
use std::rc::RcStr;

/// Returns the keys that tables note, each with the row that was there first.
pub(crate) fn noted_writes(alloc: Global, tables: &[Attached]) -> Result<Vec<Written>, NoMemory>
    ensures { IfOk result (λ writes. map written_of writes.items ≡ all_noted (map attached_of tables.now)) }
{
    let mut writes = Vec::new(alloc);
    for table in tables {
        append_writes(alloc, table, &mut writes)?;
    }
    Ok(writes)
}

/// Appends the keys that a table notes.
fn append_writes(alloc: Global, table: &Attached, writes: &mut Vec<Written>) -> Result<(), NoMemory>
    ensures { OnOk result (map written_of writes.new.items
        ≡ map written_of writes.old.items ++ noted_writes (attached_of table.now)) }
{
    for (key, row) in table.firsts.iter() {
        writes.push(Written {
            table: RcStr::from_str(alloc, table.name.as_str())?,
            key: key.copy(alloc)?,
            former: copy_of_row(alloc, row.as_ref())?,
        })?;
    }
    Ok(())
}
