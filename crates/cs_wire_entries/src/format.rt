//! The bytes that begin the parts of a file.

/// Begins the header of a table.
pub const TABLE: u8 = 0x54;

/// Begins the header of a table of a patchset.
pub const PATCHSET: u8 = 0x50;

/// Begins an entry that inserts a row.
pub(crate) const INSERT: u8 = 0x12;

/// Begins an entry that deletes a row.
pub(crate) const DELETE: u8 = 0x09;

/// Begins an entry that updates a row.
pub(crate) const UPDATE: u8 = 0x17;
