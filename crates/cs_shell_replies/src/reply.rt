//! What a line is answered.
use cs_apply::Summary;
use cs_value::Row;
use cs_wire::Changeset;

/// What is printed for a line that is not refused.
#[derive(Debug, Drop)]
pub enum Reply {
    /// Nothing.
    Silent,
    /// A line of text.
    Text(String),
    /// A changeset.
    Dump(Changeset),
    /// A line for each row.
    Rows(Vec<Row>),
    /// What an apply did.
    Report(Summary),
}
