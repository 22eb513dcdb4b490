//! Pages of the rows of a table.
use cs_calls_answers::RowList;

/// Some rows of a table.
#[derive(Drop)]
pub struct Page {
    pub rows: RowList,
    /// Whether there are rows after them.
    pub more: bool,
}
