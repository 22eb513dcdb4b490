//! Conflicts that an apply would have.
use cs_apply_engine::Conflict;

/// A conflict that an apply would have.
#[derive(Debug, Drop)]
pub struct Found {
    /// The zero-based index of its entry in the file. It counts the entries of all tables, also of those that are
    /// skipped.
    pub index: usize,
    pub conflict: Conflict,
}
