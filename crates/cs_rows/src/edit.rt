//! The edits of rows, and what they write.
use cs_value::{Key, Row};
use std::rc::RcStr;

/// An edit of one row of a table.
#[derive(Debug, Drop)]
pub enum Edit {
    /// A new row, under its own key.
    Insert { table: String, row: Row },
    /// Another row in place of the one with this key. Its own key may be another.
    Update { table: String, key: Key, row: Row },
    /// No row with this key.
    Delete { table: String, key: Key },
}

/// A key that was written, and the row that it had before.
#[derive(Debug, Drop)]
pub struct Written {
    /// The table's name, which is shared by all writes that one call reports.
    pub table: RcStr,
    pub key: Key,
    pub former: Option<Row>,
}
