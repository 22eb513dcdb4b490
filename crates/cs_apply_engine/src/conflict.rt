//! Conflicts, and what the handler chose for them.
ghost use Rattle.std.specs.Prelude.{◌≡◌, IfOk, option_map};
ghost use Rattle.cs_apply_engine.specs.Report.{conflict_of};

use cs_apply_conflict_kinds::{Choice, Kind};
use cs_value::{NoMemory, Row};
use cs_wire::{Entry, EntryRef};
use std::alloc::Global;
use std::fmt;

/// A conflict: the current row is not the one that the entry expects, or the table refuses the new row.
#[derive(Debug, Drop)]
pub struct Conflict {
    pub kind: Kind,
    /// The name of the table.
    pub table: String,
    pub entry: Entry,
    /// The current row with the key of the entry, if there is one.
    pub current: Option<Row>,
}

/// A conflict, and what the handler chose for it.
#[derive(Debug, Drop)]
pub struct Met {
    pub conflict: Conflict,
    pub choice: Choice,
}

impl Conflict {
    /// Returns a conflict with copies of the entry and the row.
    pub(crate) fn copy_of(
        alloc: Global,
        kind: Kind,
        table: &str,
        entry: &EntryRef<'_>,
        current: Option<&Row>,
    ) -> Result<Conflict, NoMemory>
        ensures { IfOk result (λ c. conflict_of c ≡ record {
          kind = kind;
          table = table.now;
          entry = entry.now.entry;
          current = option_map (λ r. r.now) current.entry;
        }) }
    {
        let current = match current {
            None => None,
            Some(row) => Some(row.copy(alloc)?),
        };
        Ok(Conflict {
            kind,
            table: String::from_str(alloc, table)?,
            entry: entry.to_entry(alloc)?,
            current,
        })
    }
}

impl fmt::Display for Conflict {
    fn fmt<W: fmt::Write>(&self, f: &mut fmt::Formatter<W>) -> fmt::Result {
        let kind = match self.kind {
            Kind::Data => "data",
            Kind::NotFound => "notfound",
            Kind::Conflict => "conflict",
            Kind::Constraint => "constraint",
        };
        let table = self.table.as_str();
        write!(f, "a conflict of kind {kind} in table {table}")
    }
}
