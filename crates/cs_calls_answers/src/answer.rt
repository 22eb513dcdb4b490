//! What a store answers.

use crate::lists::{FoundConflicts, MetConflicts, Names, RowList};
use cs_calls_parts::Columns;
use cs_value::{Bytes, Row, Text};

/// What an apply or a revert did.
#[derive(Drop)]
pub struct Reported {
    /// The number of the entries that were carried out.
    pub written: u64,
    /// The number of the no-ops that were ignored.
    pub ignored: u64,
    /// The tables whose changes were skipped.
    pub skipped: Names,
    /// The conflicts, with the choices for them.
    pub conflicts: MetConflicts,
}

/// Why a call is refused, as `docs/CALLS.md` has it. The parts that do not come with the code are not there.
#[derive(Drop)]
pub struct Refused {
    /// The number of the error, as in `docs/ERRORS.md`.
    pub code: u64,
    /// The name of the table.
    pub table: Option<Text>,
    /// The name of the column.
    pub column: Option<Text>,
    /// The values of the key columns.
    pub key: Option<Row>,
    /// By the code: a byte offset in the changeset file, the index of one of its tables, the kind of a conflict, or why
    /// the database refused, both by SQLite's numbers.
    pub detail: Option<u64>,
}

/// What a store answers to a call.
#[derive(Drop)]
pub enum Answer {
    /// The call is done.
    Done,
    /// The names of the tables.
    Names(Names),
    /// The columns of a table.
    Schema(Columns),
    /// The row of a key, if there is one.
    Row(Option<Row>),
    /// Rows, and whether there are more.
    Rows { rows: RowList, more: bool },
    /// A number of rows.
    Number(u64),
    /// What an apply or a revert did.
    Report(Reported),
    /// The conflicts that an apply would meet.
    Conflicts(FoundConflicts),
    /// A changeset file.
    Changeset(Bytes),
    /// Whether it is so.
    Flag(bool),
    /// The version of the interface, and the most bytes of a call.
    Limits { version: u64, bytes: u64 },
    /// The call is refused.
    Refused(Refused),
    /// The bytes are no call: the number of the fault, and its byte offset in the call.
    Unread { code: u64, offset: u64 },
}
