//! Laws of all changesets. Each function has no effect, and a law as its contract. A caller that needs the law calls
//! the function.
ghost use Rattle.cs_wire.specs.Laws.{ChangesetFiles, RowKeys, EntryInverses};

use cs_value::{record_spellings_law, varint_spellings_law};

/// Changesets with the same file are equal.
pub fn changeset_files_law()
    ensures { ChangesetFiles }
{
    varint_spellings_law();
    record_spellings_law();
}

/// The row that an entry finds, and the row that it leaves, have the key of the entry.
pub fn row_keys_law()
    ensures { RowKeys }
{}

/// An entry has only one inverse.
pub fn entry_inverses_law()
    ensures { EntryInverses }
{}
