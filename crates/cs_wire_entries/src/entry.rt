//! Changes of rows.
ghost use Rattle.std.specs.Prelude.{◌≡◌, IfOk};

use cs_value::{Image, NoMemory, Row};
use std::alloc::Global;

/// A change of one row.
#[derive(Debug, PartialEq, Eq, Drop)]
pub enum Change {
    /// The row is inserted.
    Insert(Row),
    /// The row is deleted.
    Delete(Row),
    /// The row is changed. The old record has the values of the key columns, and the previous values of
    /// the modified columns. The new record has the new values of the modified columns. Every other
    /// field is undefined.
    Update { old: Image, new: Image },
}

impl Change {
    /// Returns a copy of the change.
    pub fn copy(&self, alloc: Global) -> Result<Change, NoMemory>
        ensures { IfOk result (λ c. c ≡ self.now) }
    {
        Ok(match self {
            Change::Insert(row) => Change::Insert(row.copy(alloc)?),
            Change::Delete(row) => Change::Delete(row.copy(alloc)?),
            Change::Update { old, new } => Change::Update {
                old: old.copy(alloc)?,
                new: new.copy(alloc)?,
            },
        })
    }
}

/// A change, and whether a trigger or a foreign key made it.
#[derive(Debug, PartialEq, Eq, Drop)]
pub struct Entry {
    pub indirect: bool,
    pub change: Change,
}

impl Entry {
    /// Returns a copy of the entry.
    pub fn copy(&self, alloc: Global) -> Result<Entry, NoMemory>
        ensures { IfOk result (λ e. e ≡ self.now) }
    {
        Ok(Entry {
            indirect: self.indirect,
            change: self.change.copy(alloc)?,
        })
    }
}

/// What an entry does to its row.
#[derive(Clone, Copy, Debug)]
pub(crate) enum Operation {
    Insert,
    Delete,
    Update,
}

impl Operation {
    ghost use Rattle.cs_wire_entries.specs.Views.{inverse_operation};

    /// Returns the operation that undoes this one.
    pub(crate) fn inverse(self) -> Operation
        ensures { result ≡ inverse_operation self }
    {
        match self {
            Operation::Insert => Operation::Delete,
            Operation::Delete => Operation::Insert,
            Operation::Update => Operation::Update,
        }
    }
}
