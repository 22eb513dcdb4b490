//! The items of a cursor.

use crate::header::HeaderRef;
use cs_wire_entries::EntryRef;

/// A part of a changeset, borrowed from the file.
#[derive(Debug, Drop)]
pub enum Item<'a> {
    /// The header of a table. Its entries follow.
    Table(HeaderRef<'a>),
    /// An entry of that table.
    Entry(EntryRef<'a>),
}
